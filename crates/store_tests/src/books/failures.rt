//! A device that fails in one call: what each step is answered then, and what is left.
//!
//! This rests on `Flushes` and `Checkpoints` (where a call failed, DiskFailed is told and the
//! book is broken), on `AnswersStep` (a broken book refuses each step), on `Opens` (the disk is
//! handed back), and on `FailOnce`, whose failed calls change nothing. What is left rests on
//! `CarriesOn`: whatever failed, no acknowledged event is lost.

use crate::asserts::{holds, holds_after};
use crate::books::calls::steps_of;
use crate::books::disks::{TEARS, counted, formatted, room};
use crate::books::nights::{NIGHT, left};
use crate::bytes::torn_image;
use run_book::Book;
use run_disk::{FailOnce, Fuse, MemoryDisk, RunDisk};
use run_model::{Fault, Layout, Refusal, Reply, Step};
use std::alloc::Global;
use std::process::Abort;
use test_fixtures::{Replied, replied_by};

const BROKEN: Replied<'static> = Replied::Refused(Refusal::Broken);

const FAILED: Replied<'static> = Replied::Faulty(Fault::DiskFailed);

/// A disk as it is handed back, by a book or with the fault of an opening, and the replies.
type Back<D> = (D, Option<Fault>, Vec<Reply>);

/// Opens a disk, plays steps where it is opened, and gives it back.
pub fn play_or_fail<D: RunDisk + Drop>(
    rt: &impl Abort,
    alloc: Global,
    disk: D,
    steps: &[Step],
) -> Back<D> {
    let mut replies = room(rt, alloc, steps);
    match Book::open(alloc, disk) {
        Ok(mut book) => {
            book.play(steps, &mut replies);
            (book.into_disk(), None, replies)
        }
        Err((fault, disk)) => (disk, Some(fault), replies),
    }
}

/// Plays steps over a new store, one of whose calls fails.
fn play_over_failure(
    rt: &impl Abort,
    alloc: Global,
    steps: &[Step],
    call: u64,
) -> Back<MemoryDisk> {
    let disk = FailOnce::new(formatted(rt, alloc, Layout::Small), call);
    let (disk, fault, replies) = play_or_fail(rt, alloc, disk, steps);
    (disk.into_inner(), fault, replies)
}

/// Plays steps over a new store, each of whose calls fails from this one on.
pub fn play_over_fuse(
    rt: &impl Abort,
    alloc: Global,
    steps: &[Step],
    call: u64,
) -> Back<MemoryDisk> {
    let disk = Fuse::new(formatted(rt, alloc, Layout::Small), call.saturating_sub(1));
    let (disk, fault, replies) = play_or_fail(rt, alloc, disk, steps);
    (disk.into_inner(), fault, replies)
}

/// The last call of the opening, and of each step of the night that makes some, with the step.
static SAVES: [(u64, Option<usize>); 5] = [
    (10, None),
    (16, Some(3)),
    (22, Some(6)),
    (29, Some(9)),
    (35, Some(11)),
];

/// The step of the night in which this call lies, if it isn't in the opening.
fn step_of(call: u64) -> Option<usize> {
    let mut step = None;
    for row in SAVES.iter().rev() {
        if call <= row.0 {
            step = row.1;
        }
    }
    step
}

/// What step `n` of the night is answered where the step at a place fails: all after it are
/// refused.
fn wanted(n: usize, failing: usize) -> Replied<'static> {
    if n == failing {
        return FAILED;
    }
    match NIGHT.get(n) {
        Some(row) if n < failing => row.1,
        _ => BROKEN,
    }
}

/// The first step of the night that is answered otherwise, where the step at a place fails; or how
/// many there are, if there are not as many replies.
fn first_unlike(replies: &[Reply], failing: usize) -> Option<usize> {
    for (n, reply) in replies.iter().enumerate() {
        if replied_by(reply) != wanted(n, failing) {
            return Some(n);
        }
    }
    (replies.len() != NIGHT.len()).then_some(NIGHT.len())
}

/// Asserts what the steps of the night are answered where this call fails.
fn assert_broken(rt: &impl Abort, replies: &[Reply], call: u64) {
    let unlike = match step_of(call) {
        Some(failing) => first_unlike(replies, failing),
        None => (!replies.is_empty()).then_some(0),
    };
    assert!(rt;
        unlike.is_none(),
        "step {unlike:?}, where call {call} fails"
    );
}

/// Asserts what a disk that was handed back stores, torn in each way: the call that failed changed
/// nothing.
fn assert_kept(rt: &impl Abort, alloc: Global, disk: &MemoryDisk, call: u64) {
    let before = call.saturating_sub(1);
    for torn in TEARS.iter() {
        let calls = before.saturating_add(8);
        let found = counted(rt, alloc, torn_image(rt, alloc, disk, calls, *torn));
        holds_after(rt, found == Ok(left(before, *torn)), before, *torn);
    }
}

/// Asserts what the night is answered where this call fails, and what is left then.
fn assert_fails(rt: &impl Abort, alloc: Global, back: &Back<MemoryDisk>, call: u64) {
    assert_broken(rt, &back.2, call);
    let fault = (call <= 10).then_some(Fault::DiskFailed);
    // A format's eight calls, and those before the one that failed: no call comes after it.
    let wanted = (fault, call.saturating_add(7));
    holds(rt, (back.1, back.0.calls()) == wanted, "failing call", call);
    assert_kept(rt, alloc, &back.0, call);
}

#[test]
fn a_call_that_fails_breaks_the_book(rt: HostRuntime) {
    let steps = steps_of(&rt, rt.alloc(), &[&NIGHT]);
    for call in 1..36 {
        let back = play_over_failure(&rt, rt.alloc(), &steps, call);
        assert_fails(&rt, rt.alloc(), &back, call);
    }
}
