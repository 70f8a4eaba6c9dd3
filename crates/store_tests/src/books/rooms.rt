//! Want of memory: all of it is taken before the first device call, and none later, though it could
//! be had; and nothing is left of it where a store isn't opened.
//!
//! This rests on `Opens` (at Memory the disk is as it was given), and on `AnswersStep` of a book
//! whose allocator may refuse everything. That memory is given back no clause says.

use crate::asserts::{done, given, holds};
use crate::books::calls::{name, step, take};
use crate::books::disks::{AMPLE, book_of, formatted, heap, played};
use crate::bytes::disk_of;
use linked_list_allocator::LocalHeap;
use run_book::Book;
use run_disk::{Fuse, MemoryDisk, RunDisk};
use run_model::{Fault, Layout, Refusal};
use std::alloc::{Allocator, Global};
use std::process::Abort;
use test_fixtures::Call::{
    Advance, Bare, Cancel, Checkpoint, Derive, Flush, Go, Group, Limit, Retry, Start, Succeed, Wait,
};
use test_fixtures::{Ask, Call, Replied, replied_by};

/// How many bytes a state has in memory.
pub fn bytes_of_state(rt: &impl Abort, alloc: Global, layout: Layout) -> usize {
    let heap = heap(rt, alloc, AMPLE);
    let mut disk = formatted(rt, alloc, layout);
    let state = done(rt, Book::recover(&heap, &mut disk), "store");
    let used = heap.used();
    drop(state);
    used
}

/// A layout, and what an opening takes after the state: the log, the room of an image, both slots'
/// buffers and the segment's. A heap gives whole units of 16 bytes.
static AFTER_STATE: [(Layout, [usize; 5]); 2] = [
    (
        Layout::Small,
        [1_048_576, 488_176, 524_288, 524_288, 262_144],
    ),
    (
        Layout::Large,
        [1_048_576, 1_913_584, 2_097_152, 2_097_152, 1_048_576],
    ),
];

/// Why a disk isn't opened over a heap, if it isn't, and the disk as it is handed back.
fn unopened(heap: &LocalHeap, disk: MemoryDisk) -> Option<(Fault, MemoryDisk)> {
    Book::open(heap, disk).err()
}

/// Asserts that an opening with so many bytes of memory is refused before any device call, and
/// gives the disk back.
fn refused(rt: &impl Abort, alloc: Global, disk: MemoryDisk, bytes: usize) -> MemoryDisk {
    let heap = heap(rt, alloc, bytes);
    let (fault, disk) = given(rt, unopened(&heap, disk), "fault");
    let reported = (fault, disk.calls(), heap.used());
    holds(
        rt,
        reported == (Fault::Memory, 8, 0),
        "with bytes",
        bytes as u64,
    );
    disk
}

/// Asserts that an opening with a unit less than each sum of growths is refused, and gives the
/// disk and the whole sum.
fn refused_after(
    rt: &impl Abort,
    alloc: Global,
    disk: MemoryDisk,
    state: usize,
    growths: &[usize],
) -> (MemoryDisk, usize) {
    let mut disk = disk;
    let mut sum = state;
    for growth in growths.iter() {
        sum = sum.saturating_add(*growth);
        disk = refused(rt, alloc, disk, sum.saturating_sub(16));
    }
    (disk, sum)
}

/// Asserts that an opening is refused with each multiple of 512 bytes that is too little for a
/// state, and gives the disk back. No growth of a state is less.
fn refused_within(rt: &impl Abort, alloc: Global, disk: MemoryDisk, state: usize) -> MemoryDisk {
    let mut disk = disk;
    for part in 0..state / 512 {
        disk = refused(rt, alloc, disk, part.saturating_mul(512));
    }
    disk
}

/// Asserts that each growth of an opening can be refused, that it is before the first device call,
/// and that there are no others.
fn assert_growths(rt: &impl Abort, alloc: Global, layout: Layout, growths: &[usize]) {
    let state = bytes_of_state(rt, alloc, layout);
    let disk = refused_within(rt, alloc, formatted(rt, alloc, layout), state);
    let (disk, sum) = refused_after(rt, alloc, disk, state, growths);
    let heap = heap(rt, alloc, sum);
    holds(
        rt,
        unopened(&heap, disk).is_none(),
        "with bytes",
        sum as u64,
    );
}

#[test]
fn a_refused_growth_comes_before_any_device_call(rt: HostRuntime) {
    for row in AFTER_STATE.iter() {
        assert_growths(&rt, rt.alloc(), row.0, &row.1);
    }
}

/// A night whose task is running as it ends.
static FIRST: [(Call, Replied<'static>); 4] = [
    (Group(b"g", b"root"), Replied::Group(0, Some(1))),
    (Go(b"g", b"copy", b"a"), Replied::Ready(0)),
    (Start, Replied::Started(4, 0, b"copy", b"a", false)),
    (Flush, Replied::Acked(4)),
];

/// After a restart, a step of each kind and each command, each with its answer.
static SECOND: [(Call, Replied<'static>); 22] = [
    (Retry(0), Replied::Ready(1)),
    (Derive(b"a", b"root", Ask::Cause), Replied::Scope(2)),
    (Derive(b"p", b"a", Ask::Cancel), Replied::Scope(3)),
    (Cancel(b"a", b"disk"), Replied::Done),
    (Cancel(b"a", b""), Replied::Refused(Refusal::AlreadyDone)),
    (Advance(5), Replied::Done),
    (Bare(b"h", b"root"), Replied::Group(1, None)),
    (Limit(b"h", Some(1)), Replied::Done),
    (Go(b"h", b"copy", b"b"), Replied::Ready(2)),
    (Go(b"h", b"copy", b"c"), Replied::Held(3)),
    (Flush, Replied::Acked(14)),
    (Start, Replied::Started(15, 1, b"copy", b"a", true)),
    (Start, Replied::Started(16, 2, b"copy", b"b", false)),
    (Checkpoint, Replied::Acked(16)),
    (Succeed(1), Replied::Finished(17)),
    (Call::Fail(2, b"x"), Replied::Finished(18)),
    (Wait(b"g"), Replied::Waited(Some(b"interrupted"))),
    (Wait(b"g"), Replied::Waited(Some(b"interrupted"))),
    (Start, Replied::Started(20, 3, b"copy", b"c", false)),
    (Flush, Replied::Acked(20)),
    (Group(b"i", b"root"), Replied::Group(2, Some(4))),
    (Checkpoint, Replied::Acked(21)),
];

/// Which questions of a book find something, and how many scopes, groups, tasks and running tasks
/// there are.
fn asked<D: RunDisk, A: Allocator>(rt: &impl Abort, book: &Book<D, A>) -> ([bool; 7], [usize; 4]) {
    let state = book.state();
    let found = [
        state.look(1).is_some(),
        state.value(1, &name(rt, b"a")).is_some(),
        state.task(0).is_some(),
        state.phase(0).is_some(),
        state.group(0).is_some(),
        state.find_scope(&name(rt, b"a")).is_some(),
        state.find_group(&name(rt, b"h")).is_some(),
    ];
    let counts = [
        state.scope_count(),
        state.group_count(),
        state.task_count(),
        state.running(),
    ];
    (found, counts)
}

/// Asserts that each of those steps, and questions after them, leave a heap's bytes in use as
/// they were, though there are more; and that none is in use once the book is given up.
fn assert_kept(rt: &impl Abort, alloc: Global, layout: Layout) {
    let heap = heap(rt, alloc, AMPLE);
    let mut book = book_of(rt, &heap, played(rt, alloc, layout, &[&FIRST]));
    let used = heap.used();
    for (n, row) in SECOND.iter().enumerate() {
        let reply = take(&mut book, &step(rt, row.0));
        let reported = (replied_by(&reply), heap.used());
        holds(rt, reported == (row.1, used), "bytes after row", n as u64);
    }
    let found = [true, false, true, true, true, true, true];
    holds(rt, asked(rt, &book) == (found, [5, 3, 4, 1]), "answers", 0);
    holds(rt, heap.used() == used, "bytes after questions", 0);
    let disk = book.into_disk();
    holds(rt, heap.used() == 0, "bytes after calls", disk.calls());
}

#[test]
fn a_step_or_question_takes_no_memory_that_is_there(rt: HostRuntime) {
    assert_kept(&rt, rt.alloc(), Layout::Small);
    assert_kept(&rt, rt.alloc(), Layout::Large);
}

/// Why a disk isn't opened, if it isn't, where neither the book nor the disk is kept.
fn fault_of<D: RunDisk + Drop, A: Allocator + Copy>(alloc: A, disk: D) -> Option<Fault> {
    match Book::open(alloc, disk) {
        Ok(book) => {
            drop(book);
            None
        }
        Err((fault, _)) => Some(fault),
    }
}

#[test]
fn a_device_that_fails_an_opening_leaves_no_memory_in_use(rt: HostRuntime) {
    let heap = heap(&rt, rt.alloc(), AMPLE);
    for calls in 0..10 {
        let disk = Fuse::new(formatted(&rt, rt.alloc(), Layout::Small), calls);
        let reported = (fault_of(&heap, disk), heap.used());
        holds(
            &rt,
            reported == (Some(Fault::DiskFailed), 0),
            "calls",
            calls,
        );
    }
}

#[test]
fn a_disk_of_another_size_leaves_no_memory_in_use(rt: HostRuntime) {
    let heap = heap(&rt, rt.alloc(), AMPLE);
    for size in [0, 4_096, 1_572_863] {
        let bytes = done(&rt, vec![in rt.alloc(); 0u8; size], "memory");
        let disk = disk_of(&rt, rt.alloc(), bytes);
        let reported = (fault_of(&heap, disk), heap.used());
        holds(
            &rt,
            reported == (Some(Fault::WrongSize), 0),
            "size",
            size as u64,
        );
    }
}
