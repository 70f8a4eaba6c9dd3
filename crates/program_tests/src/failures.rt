//! Nights over a disk that fails once, at each of its calls.

use crate::asserts::{done, holds_at};
use crate::crew_stores::{Task, opened, stored};
use crate::crews::{Fixed, NightEnd, plain_night};
use run_book::{Book, State};
use run_crew::{Note, WorkerNotes};
use run_disk::{FailOnce, MemoryDisk, Torn};
use run_model::{Outcome, Phase};
use std::alloc::Global;
use std::process::Abort;
use std::sync::Wait;
use std::thread::Threads;

/// 16 tasks of one turn more each.
const TASKS: [Task; 16] = [(b"spin", b"1"); 16];

/// The bytes of a store with those tasks.
fn bytes_stored(rt: &impl Abort, alloc: Global) -> Vec<u8> {
    let disk = stored(rt, alloc, None, &TASKS);
    let bytes = done(rt, disk.image(alloc, disk.calls(), Torn::Keep), "memory");
    drop(disk);
    bytes
}

fn is_ended(state: &State, task: u16, outcome: &Outcome) -> bool {
    match (state.phase(task), outcome) {
        (Some(Phase::Success), Outcome::Success) => true,
        (Some(Phase::Failure(error)), Outcome::Failure(noted)) => error == *noted,
        _ => false,
    }
}

/// Says whether all tasks of a state are done.
fn are_done(state: &State) -> bool {
    for task in 0..16 {
        if !is_ended(state, task, &Outcome::Success) {
            return false;
        }
    }
    true
}

/// Says whether a night whose audit is Ok left no task that isn't ended.
fn is_whole(night: &NightEnd<FailOnce<MemoryDisk>>) -> bool {
    night.audited.is_err() || (night.settled == (16, 16) && are_done(night.book.state()))
}

/// Says whether a night is told that its disk failed, or its audit is Ok.
fn is_reported(night: &NightEnd<FailOnce<MemoryDisk>>) -> bool {
    let fails = night.last.is_err();
    fails == night.book.is_broken() && (fails || night.audited.is_ok())
}

/// Asserts that the finishes up to this event are in a state.
fn assert_has(rt: &impl Abort, state: &State, durable: u64, notes: &[Note], call: u64) {
    for note in notes.iter() {
        let kept = durable < note.event || is_ended(state, note.task, &note.outcome);
        assert!(rt; kept, "event {} at call {call}", note.event);
    }
}

/// What the disk of a book stores, once it doesn't fail.
fn recovered(rt: &impl Abort, alloc: Global, book: Book<FailOnce<MemoryDisk>>) -> State {
    let mut disk = book.into_disk().into_inner();
    let state = done(rt, Book::recover(alloc, &mut disk), "store");
    drop(disk);
    state
}

/// Asserts that a finish that was acknowledged is in what a book's disk stores.
fn assert_stored(
    rt: &impl Abort,
    alloc: Global,
    book: Book<FailOnce<MemoryDisk>>,
    lists: &[WorkerNotes],
    call: u64,
) {
    let durable = book.durable();
    let state = recovered(rt, alloc, book);
    holds_at(rt, durable <= state.count(), "count at call", call);
    for notes in lists.iter() {
        assert_has(rt, &state, durable, notes.as_slice(), call);
    }
    drop(state);
}

/// Asserts that an audit that is Ok left no task that isn't ended, and that a finish that was
/// acknowledged is in what the disk stores.
fn assert_kept(rt: &impl Abort, alloc: Global, call: u64, night: NightEnd<FailOnce<MemoryDisk>>) {
    holds_at(rt, is_whole(&night), "an audit that is Ok at call", call);
    holds_at(rt, is_reported(&night), "what is told at call", call);
    let NightEnd { book, lists, .. } = night;
    assert_stored(rt, alloc, book, lists.as_slice(), call);
}

/// The night over a disk with these bytes, one of whose calls fails.
fn failing_night<R: Threads + Wait + Sync + Abort>(
    rt: &R,
    alloc: Global,
    bytes: &[u8],
    call: u64,
) -> NightEnd<FailOnce<MemoryDisk>> {
    let bytes = done(rt, Vec::from_slice(alloc, bytes), "memory");
    let disk = done(rt, MemoryDisk::from_bytes(alloc, bytes), "memory");
    let book = opened(rt, alloc, FailOnce::new(disk, call));
    plain_night(rt, alloc, book, 3, &Fixed(true))
}

/// Asserts it of the night over a disk that fails at this call. Says whether the night came to it.
fn assert_night<R: Threads + Wait + Sync + Abort>(
    rt: &R,
    alloc: Global,
    bytes: &[u8],
    call: u64,
) -> bool {
    let night = failing_night(rt, alloc, bytes, call);
    let was_reached = night.last.is_err();
    assert_kept(rt, alloc, call, night);
    was_reached
}

/// Asserts it of nights over a disk that fails at one of these calls, up to the first night that
/// makes fewer calls.
fn assert_nights<R: Threads + Wait + Sync + Abort>(rt: &R, alloc: Global, first: u64, last: u64) {
    let bytes = bytes_stored(rt, alloc);
    for call in first..=last {
        if !assert_night(rt, alloc, &bytes, call) {
            break;
        }
    }
}

// After the ten calls of the opening, a night makes six for each flush: of a start, of a finish,
// and the last one. A flush may save several events, and the more workers meet, the fewer there
// are.

#[test]
fn a_failure_at_an_early_call_loses_nothing_acknowledged(rt: HostRuntime) {
    assert_nights(&rt, rt.alloc(), 11, 40);
}

#[test]
fn a_failure_at_a_middle_call_loses_nothing_acknowledged(rt: HostRuntime) {
    assert_nights(&rt, rt.alloc(), 41, 70);
}

#[test]
fn a_failure_at_a_late_call_loses_nothing_acknowledged(rt: HostRuntime) {
    assert_nights(&rt, rt.alloc(), 71, 208);
}
