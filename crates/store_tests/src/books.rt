//! Each call of a book, in both layouts, and a book that is opened again.
//!
//! This rests on `AnswersStep` (what each step is answered), `Flushes`, `Checkpoints` and `Opens`,
//! which count the device calls, and on the clauses of `history`.

mod bytes;
mod calls;
mod chains;
mod damages;
mod disks;
mod failures;
mod kills;
mod looks;
mod migrations;
mod nights;
mod renewals;
mod rooms;
mod segments;
mod six_events;
mod versions;

use crate::asserts::holds;
use crate::books::calls::assert_replied;
use crate::books::disks::{book_of, fresh, played, shown_by};
use crate::books::looks::{assert_group, assert_scopes, assert_tasks, listed};
use record_view::{EventView, Events};
use run_book::State;
use run_disk::MemoryDisk;
use run_model::{Layout, Refusal};
use std::alloc::Global;
use std::process::Abort;
use test_fixtures::Call::{Cancel, Checkpoint, Derive, Flush, Go, Group, Start, Succeed, Wait};
use test_fixtures::{Ask, Call, Going, Replied, Seen};

/// Steps, each with its answer.
static ROWS: [(Call, Replied<'static>); 16] = [
    (Flush, Replied::Acked(1)),
    (Derive(b"a", b"root", Ask::Cause), Replied::Scope(1)),
    (Derive(b"b", b"a", Ask::Cancel), Replied::Scope(2)),
    (Flush, Replied::Acked(3)),
    (Cancel(b"a", b"disk"), Replied::Done),
    (
        Cancel(b"a", b"disk"),
        Replied::Refused(Refusal::AlreadyDone),
    ),
    (Group(b"g", b"root"), Replied::Group(0, Some(3))),
    (Go(b"g", b"copy", b"a"), Replied::Ready(0)),
    (Start, Replied::Started(7, 0, b"copy", b"a", false)),
    (Start, Replied::Refused(Refusal::NothingReady)),
    (Checkpoint, Replied::Acked(7)),
    (Succeed(0), Replied::Finished(8)),
    (Succeed(0), Replied::Refused(Refusal::NotRunning)),
    (Wait(b"g"), Replied::Waited(None)),
    (Wait(b"g"), Replied::Waited(None)),
    (Flush, Replied::Acked(9)),
];

/// Asserts the rows that those steps leave.
fn assert_rows_left(rt: &impl Abort, alloc: Global, state: &State) {
    let listing = listed(rt, alloc, state);
    let scopes = [
        (b"a".as_slice(), Seen::Canceled(b"disk")),
        (b"b", Seen::Canceled(b"disk")),
        (b"g", Seen::Canceled(b"context canceled")),
    ];
    assert_scopes(rt, &listing, &scopes);
    assert_group(rt, &listing, b"g", (3, 0, None, true, None));
    assert_tasks(rt, &listing, &[(b"copy", b"a", Going::Success, None)]);
}

/// The disk of a new book after those steps. Their records have 8, 8, 10, 7, 12, 5, 6 and 5
/// bytes.
fn answered(rt: &impl Abort, alloc: Global, layout: Layout) -> MemoryDisk {
    let mut book = fresh(rt, alloc, layout);
    let is_new = shown_by(&book) == (layout, 1, 1, false, 1, 0);
    holds(rt, is_new, "a new book of bytes", layout.store_len());
    assert_replied(rt, &mut book, &ROWS);
    let is_left = shown_by(&book) == (layout, 9, 9, false, 4, 61);
    holds(rt, is_left, "a used book of bytes", layout.store_len());
    assert_rows_left(rt, alloc, book.state());
    book.into_disk()
}

/// The same disk, opened again.
fn opened_again(rt: &impl Abort, alloc: Global, layout: Layout, disk: MemoryDisk) -> MemoryDisk {
    let book = book_of(rt, alloc, disk);
    let is_begun = shown_by(&book) == (layout, 10, 10, false, 4, 0);
    holds(rt, is_begun, "a second book of bytes", layout.store_len());
    assert_rows_left(rt, alloc, book.state());
    book.into_disk()
}

/// Asserts the device calls. Two flushes of six calls and a checkpoint of seven stand after a
/// format and an opening; the flush without an event makes none.
fn assert_calls(rt: &impl Abort, alloc: Global, layout: Layout) {
    let disk = answered(rt, alloc, layout);
    holds(rt, disk.calls() == 37, "calls of bytes", layout.store_len());
    let disk = opened_again(rt, alloc, layout, disk);
    holds(rt, disk.calls() == 47, "calls of bytes", layout.store_len());
}

#[test]
fn each_step_is_answered(rt: HostRuntime) {
    assert_calls(&rt, rt.alloc(), Layout::Small);
    assert_calls(&rt, rt.alloc(), Layout::Large);
}

/// Asserts the device calls of a list of those steps.
fn assert_list(rt: &impl Abort, alloc: Global, layout: Layout) {
    let disk = played(rt, alloc, layout, &[&ROWS]);
    holds(rt, disk.calls() == 37, "calls of bytes", layout.store_len());
}

#[test]
fn a_list_of_steps_is_answered_one_by_one(rt: HostRuntime) {
    assert_list(&rt, rt.alloc(), Layout::Small);
    assert_list(&rt, rt.alloc(), Layout::Large);
}

/// Steps before and since the opening of the next test.
static BEFORE: [(Call, Replied<'static>); 2] = [
    (Derive(b"old", b"root", Ask::Cause), Replied::Scope(1)),
    (Flush, Replied::Acked(2)),
];

static SINCE: [(Call, Replied<'static>); 5] = [
    (Group(b"g", b"root"), Replied::Group(0, Some(2))),
    (Flush, Replied::Acked(4)),
    (Go(b"g", b"copy", b"a"), Replied::Ready(0)),
    (Checkpoint, Replied::Acked(5)),
    (Start, Replied::Started(6, 0, b"copy", b"a", false)),
];

/// The events since that opening.
static EVENTS: [EventView<'static>; 3] = [
    EventView::Group {
        name: b"g",
        parent: 0,
    },
    EventView::Go {
        group: 0,
        job: b"copy",
        argument: b"a",
    },
    EventView::Start { task: 0 },
];

/// The first of those events that a history doesn't give at its place; or how many there are, if it
/// gives more.
fn first_unlike(events: Events<'_>) -> Option<usize> {
    let mut events = events;
    for (n, event) in EVENTS.iter().enumerate() {
        if events.next() != Some(*event) {
            return Some(n);
        }
    }
    events.next().is_some().then_some(EVENTS.len())
}

#[test]
fn history_gives_the_events_since_the_opening(rt: HostRuntime) {
    let disk = played(&rt, rt.alloc(), Layout::Small, &[&BEFORE]);
    let mut book = book_of(&rt, rt.alloc(), disk);
    assert_replied(&rt, &mut book, &SINCE);
    let unlike = first_unlike(book.history());
    drop(book);
    assert!(rt; unlike.is_none(), "event {unlike:?}");
}
