//! Want of memory: a session takes its room when it is made, and none later.

use crate::asserts::{done, holds};
use crate::heaps::{heap_of, is_full};
use crate::sessions::steps::Step::{Says, Scopes, Tasks, Value};
use crate::sessions::steps::{Step, begun, take};
use linked_list_allocator::LocalHeap;
use run_model::{Fault, Layout, Refusal};
use run_session::{Session, State};
use std::alloc::Global;
use std::process::Abort;
use test_fixtures::Call::{Advance, Bare, Cancel, Derive, Go, Group, Limit, Start, Try, Wait};
use test_fixtures::{Ask, Call, Going, Replied, Seen};

/// How many bytes a state alone takes of a heap.
fn bytes_of_a_state(rt: &impl Abort, heap: &LocalHeap) -> usize {
    let state = done(rt, State::new(heap, Layout::Small), "state");
    let used = heap.used();
    drop(state);
    used
}

/// How many bytes a whole session takes of a heap: its log of 1,048,576 bytes comes last.
fn bytes_of_a_session(rt: &impl Abort, heap: &LocalHeap, layout: Layout) -> usize {
    let session = begun(rt, heap, layout);
    let used = heap.used();
    drop(session);
    used
}

/// Why no session can be made over this heap, if none can. One that was made is given up again.
fn fault_of(heap: &LocalHeap) -> Option<Fault> {
    Session::new(heap, Layout::Small).err()
}

/// Asserts why no session is made over so many bytes, if none is, and that all are given back.
fn assert_fault(rt: &impl Abort, alloc: Global, bytes: usize, fault: Option<Fault>) {
    let heap = heap_of(rt, alloc, bytes);
    holds(rt, fault_of(&heap) == fault, "over bytes", bytes);
    holds(rt, heap.used() == 0, "given back of bytes", bytes);
}

#[test]
fn each_growth_can_be_refused(rt: HostRuntime) {
    let heap = heap_of(&rt, rt.alloc(), 8_000_000);
    let part = bytes_of_a_state(&rt, &heap);
    holds(&rt, heap.used() == 0, "given back of bytes", part);
    let whole = bytes_of_a_session(&rt, &heap, Layout::Small);
    holds(&rt, heap.used() == 0, "given back of bytes", whole);
    // A row, half the state, the log, and the log's end are refused, and nothing.
    let less = whole.saturating_sub(2_048);
    for bytes in [1_000, part / 2, part, less] {
        assert_fault(&rt, rt.alloc(), bytes, Some(Fault::Memory));
    }
    assert_fault(&rt, rt.alloc(), whole.saturating_add(2_048), None);
}

static ALL_CALLS: [Step; 4] = [
    Says(&[
        (Derive(b"a", b"root", Ask::Cause), Replied::Scope(1)),
        (
            Derive(b"v", b"a", Ask::Value(b"region", b"eu")),
            Replied::Scope(2),
        ),
        (Cancel(b"a", b"disk"), Replied::Done),
        (Cancel(b"a", b""), Replied::Refused(Refusal::AlreadyDone)),
        (Advance(5), Replied::Done),
        (Group(b"g", b"root"), Replied::Group(0, Some(3))),
        (Bare(b"h", b"a"), Replied::Group(1, None)),
        (Limit(b"g", Some(1)), Replied::Done),
        (Go(b"g", b"copy", b"a"), Replied::Ready(0)),
        (Go(b"g", b"copy", b"b"), Replied::Held(1)),
        (Try(b"h", b"copy", b"c"), Replied::Ready(2)),
        (Start, Replied::Started(12, 0, b"copy", b"a", false)),
        (Call::Fail(0, b"x"), Replied::Finished(13)),
        (Wait(b"g"), Replied::Refused(Refusal::Unfinished(1))),
    ]),
    Scopes(&[(2, Seen::Canceled(b"disk"), None)]),
    Value(2, b"region", Some(b"eu")),
    Tasks(&[Going::Failure(b"x"), Going::Ready, Going::Ready]),
];

/// Makes all calls on a session over a heap that it fills to its last byte.
fn assert_full(rt: &impl Abort, heap: &LocalHeap, layout: Layout, row: usize) {
    let mut session = begun(rt, heap, layout);
    holds(rt, is_full(heap), "full heap", row);
    take(rt, &mut session, &ALL_CALLS);
    holds(rt, has_first_rows(&session), "group and event", row);
    drop(session);
}

/// Says whether a session shows a group and an event.
fn has_first_rows(session: &Session<&LocalHeap>) -> bool {
    session.state().group(0).is_some() && session.history().next().is_some()
}

/// Makes all calls on a session of this layout over a heap of as many bytes as it takes.
fn assert_full_heap(rt: &impl Abort, alloc: Global, layout: Layout, row: usize) {
    let ample = heap_of(rt, alloc, 16_000_000);
    let bytes = bytes_of_a_session(rt, &ample, layout);
    assert_full(rt, &heap_of(rt, alloc, bytes), layout, row);
}

#[test]
fn no_memory_is_taken_once_a_session_is_made(rt: HostRuntime) {
    assert_full_heap(&rt, rt.alloc(), Layout::Small, 0);
    assert_full_heap(&rt, rt.alloc(), Layout::Large, 1);
}
