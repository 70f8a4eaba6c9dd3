//! The rows of calls that the laws of `book_laws` speak of: a store is opened, played over, flushed
//! and opened again.
//!
//! This rests on `lasts` and `why` of `use_store` and of `use_new_store`.

use crate::asserts::holds;
use crate::books::calls::{assert_replies, steps_of};
use crate::books::disks::{formatted, now, recovered, room};
use book_laws::laws::{use_new_store_in_memory, use_store};
use run_book::Book;
use run_disk::{FailOnce, MemoryDisk};
use run_model::{Fault, Layout, Refusal, Step, Trouble};
use std::alloc::Global;
use std::process::Abort;
use test_fixtures::Call::{Flush, Go, Group, Start, Succeed};
use test_fixtures::{Call, Going, Replied, going_at};

/// Two tasks, flushed, and a start of the first that is not.
static FIRST: [(Call, Replied<'static>); 5] = [
    (Group(b"g", b"root"), Replied::Group(0, Some(1))),
    (Go(b"g", b"copy", b"a"), Replied::Ready(0)),
    (Go(b"g", b"copy", b"b"), Replied::Ready(1)),
    (Flush, Replied::Acked(4)),
    (Start, Replied::Started(5, 0, b"copy", b"a", false)),
];

/// The second task, after two more openings: the first was interrupted, so its group's scope is
/// done.
static SECOND: [(Call, Replied<'static>); 2] = [
    (Start, Replied::Started(8, 1, b"copy", b"b", true)),
    (Succeed(1), Replied::Finished(9)),
];

/// The rows of calls over a new store, and then over its disk, each with its replies.
fn kept(rt: &impl Abort, alloc: Global, layout: Layout) -> MemoryDisk {
    let steps = steps_of(rt, alloc, &[&FIRST]);
    let mut replies = room(rt, alloc, &steps);
    let Ok(book) = use_new_store_in_memory(alloc, layout, &steps, &mut replies) else {
        panic!(rt; "no new store");
    };
    assert_replies(rt, &replies, &[&FIRST]);
    kept_on(rt, alloc, book)
}

/// The second row of calls, over the disk of a book.
fn kept_on(rt: &impl Abort, alloc: Global, book: Book<MemoryDisk>) -> MemoryDisk {
    holds(rt, book.durable() == 6, "first row", book.durable());
    let steps = steps_of(rt, alloc, &[&SECOND]);
    let mut replies = room(rt, alloc, &steps);
    let Ok(book) = use_store(alloc, book.into_disk(), &steps, &mut replies) else {
        panic!(rt; "no store");
    };
    assert_replies(rt, &replies, &[&SECOND]);
    book.into_disk()
}

#[test]
fn a_row_of_calls_keeps_all_events(rt: HostRuntime) {
    for layout in [Layout::Small, Layout::Large] {
        let disk = kept(&rt, rt.alloc(), layout);
        let found = recovered(&rt, rt.alloc(), now(&rt, rt.alloc(), &disk));
        let tasks = (going_at(&found, 0), going_at(&found, 1));
        let are = tasks == (Some(Going::Interrupted), Some(Going::Success));
        holds(&rt, are && found.count == 10, "events", found.count);
    }
}

const FAILED: Option<Trouble> = Some(Trouble::Faulty(Fault::DiskFailed));

const BROKEN: Option<Trouble> = Some(Trouble::Refused(Refusal::Broken));

/// A call that fails, and why the row stops there: in the first opening, in the flush among the
/// steps, in the one after them, in the second opening; or that it doesn't.
static STOPPED: [(u64, Option<Trouble>); 9] = [
    (1, FAILED),
    (10, FAILED),
    (11, BROKEN),
    (16, BROKEN),
    (17, FAILED),
    (22, FAILED),
    (23, FAILED),
    (32, FAILED),
    (33, None),
];

/// Why a row of calls stops over a new store, one of whose calls fails.
fn stopped(rt: &impl Abort, alloc: Global, steps: &[Step], call: u64) -> Option<Trouble> {
    let mut replies = room(rt, alloc, steps);
    let disk = FailOnce::new(formatted(rt, alloc, Layout::Small), call);
    match use_store(alloc, disk, steps, &mut replies) {
        Ok(book) => {
            drop(book);
            None
        }
        Err((why, _)) => Some(why),
    }
}

#[test]
fn a_row_of_calls_reports_why_it_stops(rt: HostRuntime) {
    let steps = steps_of(&rt, rt.alloc(), &[&FIRST]);
    for (call, wanted) in STOPPED.iter() {
        let why = stopped(&rt, rt.alloc(), &steps, *call);
        holds(&rt, why == *wanted, "failing call", *call);
    }
}
