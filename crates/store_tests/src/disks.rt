//! Disks in memory: what a crash leaves, and what a failed call leaves.

use crate::asserts::{done, holds};
use crate::bytes::{blank, torn_image};
use linked_list_allocator::LocalHeap;
use run_disk::{DiskFailed, FailOnce, Fuse, MemoryDisk, RunDisk, Torn, write_durably};
use run_model::Fault;
use std::alloc::Global;
use std::process::Abort;

/// A call of a disk, and what it gives.
#[derive(Clone, Copy)]
pub enum Call {
    /// A write from a place on, and whether it is made.
    Write(u64, &'static [u8], bool),
    /// A write and a sync, which are made.
    Last(u64, &'static [u8]),
    /// What was written is made last, or the call fails.
    Sync(bool),
    /// A read from a place on, which gives these bytes.
    Read(u64, &'static [u8]),
    /// A read of so many bytes from a place on, which fails.
    NoRead(u64, usize),
    /// The size, which takes no call.
    Size(u64),
}

/// A write inside a disk.
fn write<D: RunDisk>(
    rt: &impl Abort,
    disk: &mut D,
    at: u64,
    bytes: &[u8],
) -> Result<(), DiskFailed> {
    let size = disk.size();
    assert!(rt; at <= size && bytes.len() as u64 <= size - at);
    disk.write_at(at, bytes)
}

/// A write inside a disk that lasts.
fn write_last<D: RunDisk>(
    rt: &impl Abort,
    disk: &mut D,
    at: u64,
    bytes: &[u8],
) -> Result<(), DiskFailed> {
    let size = disk.size();
    assert!(rt; at <= size && bytes.len() as u64 <= size - at);
    write_durably(disk, at, bytes)
}

/// A read inside a disk.
fn read<D: RunDisk>(
    rt: &impl Abort,
    disk: &mut D,
    at: u64,
    out: &mut [u8],
) -> Result<(), DiskFailed> {
    let size = disk.size();
    assert!(rt; at <= size && out.len() as u64 <= size - at);
    disk.read_at(at, out)
}

/// Says whether a read of as many bytes as these, at most 64, gives them.
fn reads<D: RunDisk>(rt: &impl Abort, disk: &mut D, at: u64, wanted: &[u8]) -> bool {
    let mut bytes = [9; 64];
    let Some(out) = bytes.get_mut(..wanted.len()) else {
        return false;
    };
    read(rt, disk, at, out).is_ok() && bytes.starts_with(wanted)
}

/// Says whether a read of so many bytes, at most 16, fails.
fn reads_none<D: RunDisk>(rt: &impl Abort, disk: &mut D, at: u64, count: usize) -> bool {
    let mut bytes = [9; 16];
    match bytes.get_mut(..count) {
        Some(out) => read(rt, disk, at, out).is_err(),
        None => false,
    }
}

/// Makes a call, and says whether it gives what it says.
fn is_so<D: RunDisk>(rt: &impl Abort, disk: &mut D, call: Call) -> bool {
    match call {
        Call::Write(at, bytes, made) => write(rt, disk, at, bytes).is_ok() == made,
        Call::Last(at, bytes) => write_last(rt, disk, at, bytes).is_ok(),
        Call::Sync(made) => disk.sync().is_ok() == made,
        Call::Read(at, wanted) => reads(rt, disk, at, wanted),
        Call::NoRead(at, count) => reads_none(rt, disk, at, count),
        Call::Size(size) => disk.size() == size,
    }
}

/// Makes the calls of a table. The message names it, and the call.
pub fn play<D: RunDisk>(rt: &impl Abort, disk: &mut D, what: &str, calls: &[Call]) {
    for (row, call) in calls.iter().enumerate() {
        holds(rt, is_so(rt, disk, *call), what, row as u64);
    }
}

/// After how many calls a crash comes, how it tears, and what it leaves.
type Row = (u64, Torn, &'static [u8]);

/// Calls of a disk, how many it has counted after them, and what crashes leave then.
type Stage = (&'static [Call], u64, &'static [Row]);

/// A write of three bytes at 10, and its sync.
static ONE_WRITE: [Stage; 2] = [
    (
        &[Call::Write(10, &[1, 2, 3], true)],
        1,
        &[
            (1, Torn::Keep, b"\0\0\0\0\0\0\0\0\0\0\0\0\0\0\0\0"),
            (1, Torn::Take, b"\0\0\0\0\0\0\0\0\0\0\x01\x02\x03\0\0\0"),
            (
                1,
                Torn::Fill(0xA7),
                b"\0\0\0\0\0\0\0\0\0\0\xA7\xA7\xA7\0\0\0",
            ),
            (1, Torn::Prefix(2), b"\0\0\0\0\0\0\0\0\0\0\x01\x02\0\0\0\0"),
        ],
    ),
    (
        &[Call::Sync(true)],
        2,
        &[
            (2, Torn::Keep, b"\0\0\0\0\0\0\0\0\0\0\x01\x02\x03\0\0\0"),
            (2, Torn::Take, b"\0\0\0\0\0\0\0\0\0\0\x01\x02\x03\0\0\0"),
            (
                2,
                Torn::Fill(0xA7),
                b"\0\0\0\0\0\0\0\0\0\0\x01\x02\x03\0\0\0",
            ),
            (
                2,
                Torn::Prefix(2),
                b"\0\0\0\0\0\0\0\0\0\0\x01\x02\x03\0\0\0",
            ),
        ],
    ),
];

/// After a synced write of four bytes at 0: a write of four at 2, and one of a byte at 4.
static NEWEST: [Stage; 2] = [
    (
        &[
            Call::Write(0, &[1, 1, 1, 1], true),
            Call::Sync(true),
            Call::Write(2, &[2, 2, 2, 2], true),
            Call::Write(4, &[3], true),
        ],
        4,
        &[
            (0, Torn::Take, &[0, 0, 0, 0, 0, 0, 0, 0]),
            (1, Torn::Keep, &[0, 0, 0, 0, 0, 0, 0, 0]),
            (1, Torn::Fill(9), &[9, 9, 9, 9, 0, 0, 0, 0]),
            (2, Torn::Fill(9), &[1, 1, 1, 1, 0, 0, 0, 0]),
            (3, Torn::Take, &[1, 1, 2, 2, 2, 2, 0, 0]),
            (4, Torn::Keep, &[1, 1, 1, 1, 0, 0, 0, 0]),
            (4, Torn::Take, &[1, 1, 2, 2, 3, 2, 0, 0]),
            (4, Torn::Fill(9), &[1, 1, 9, 9, 9, 9, 0, 0]),
            (4, Torn::Prefix(0), &[1, 1, 1, 1, 0, 0, 0, 0]),
            (4, Torn::Prefix(1), &[1, 1, 2, 1, 3, 0, 0, 0]),
            (4, Torn::Prefix(9), &[1, 1, 2, 2, 3, 2, 0, 0]),
        ],
    ),
    (&[Call::Read(0, &[1, 1, 2, 2, 3, 2, 0, 0])], 5, &[]),
];

/// Asserts what crashes leave.
fn assert_left(rt: &impl Abort, alloc: Global, disk: &MemoryDisk, rows: &[Row]) {
    for (row, (calls, torn, wanted)) in rows.iter().enumerate() {
        let bytes = torn_image(rt, alloc, disk, *calls, *torn);
        holds(
            rt,
            bytes.as_slice() == *wanted,
            "what crash leaves",
            row as u64,
        );
    }
}

/// Asserts what a disk of so many bytes gives and leaves.
fn assert_stages(rt: &impl Abort, alloc: Global, size: usize, stages: &[Stage]) {
    let mut disk = blank(rt, alloc, size);
    for (calls, counted, rows) in stages.iter() {
        play(rt, &mut disk, "call", calls);
        holds(rt, disk.calls() == *counted, "calls", *counted);
        assert_left(rt, alloc, &disk, rows);
    }
}

#[test]
fn a_crash_tears_what_was_not_synced(rt: HostRuntime) {
    assert_stages(&rt, rt.alloc(), 16, &ONE_WRITE);
    assert_stages(&rt, rt.alloc(), 8, &NEWEST);
}

/// Says whether these bytes are left, by a write that was made and synced or by none.
fn is_left(image: &[u8], whole: bool) -> bool {
    if whole {
        image == b"\0\0\x05\x06\x07\0\0\0\0\0\0\0\0\0\0\0\0\0\0\0\0\0\0\0".as_slice()
    } else {
        image == [0; 24].as_slice()
    }
}

/// Says whether there is room for what a crash leaves now, which is right.
fn leaves<'h>(
    rt: &impl Abort,
    heap: &'h LocalHeap,
    disk: &MemoryDisk<&'h LocalHeap>,
    whole: bool,
) -> bool {
    let (made, right) = match disk.image(heap, disk.calls(), Torn::Keep) {
        Ok(image) => (true, is_left(&image, whole)),
        Err(fault) => (false, fault == Fault::Memory),
    };
    holds(rt, right, "image", made as u64);
    made
}

/// Says for which there was no room: a write, a sync, what a crash leaves. Asserts that the disk
/// itself needs none, and what it has.
fn lacks_of(rt: &impl Abort, heap: &LocalHeap) -> [bool; 3] {
    // (the least heap has room for 16 bytes)
    let mut disk = done(rt, MemoryDisk::new(heap, 24), "a disk");
    holds(rt, heap.used() == 0, "in use", heap.used() as u64);
    let wrote = write(rt, &mut disk, 2, &[5, 6, 7]).is_ok();
    let wanted: &[u8] = if wrote { &[5, 6, 7] } else { &[0; 3] };
    holds(rt, reads(rt, &mut disk, 2, wanted), "read", wrote as u64);
    let synced = disk.sync().is_ok();
    holds(rt, disk.calls() == 3, "calls", 3);
    let shown = leaves(rt, heap, &disk, wrote && synced);
    [!wrote, !synced, !shown]
}

/// Says for which of these so many bytes have no room.
fn lacks_with(rt: &impl Abort, alloc: Global, bytes: usize) -> [bool; 3] {
    let heap = done(rt, LocalHeap::new(alloc, bytes), "memory");
    lacks_of(rt, &heap)
}

#[test]
fn a_refused_growth_is_a_failed_call(rt: HostRuntime) {
    let mut seen = [false; 3];
    for budget in 0..64usize {
        let lacks = lacks_with(&rt, rt.alloc(), 16 * budget);
        for (all, lack) in seen.iter_mut().zip(lacks.iter()) {
            *all |= *lack;
        }
    }
    for (row, seen) in seen.iter().enumerate() {
        holds(&rt, *seen, "lack", row as u64);
    }
}

/// Fails from the third call on.
static FUSED: [Call; 5] = [
    Call::Write(0, &[1], true),
    Call::Sync(true),
    Call::Write(1, &[2], false),
    Call::Sync(false),
    Call::NoRead(0, 4),
];

/// What is left by two calls.
static AFTER_FUSE: [Call; 1] = [Call::Read(0, &[1, 0, 0, 0])];

/// The disk below a fuse that two calls pass, after these.
fn below_fuse(rt: &impl Abort, alloc: Global, calls: &[Call]) -> MemoryDisk {
    let mut fuse = Fuse::new(blank(rt, alloc, 4), 2);
    play(rt, &mut fuse, "call of a fuse", calls);
    fuse.into_inner()
}

/// Asserts that so many calls came to a disk, and what these give then.
fn assert_after(rt: &impl Abort, disk: MemoryDisk, counted: u64, calls: &[Call]) {
    let mut disk = disk;
    holds(rt, disk.calls() == counted, "calls", counted);
    play(rt, &mut disk, "after", calls);
}

#[test]
fn a_fuse_fails_for_good(rt: HostRuntime) {
    let disk = below_fuse(&rt, rt.alloc(), &FUSED);
    assert_after(&rt, disk, 2, &AFTER_FUSE);
}

/// Fails the second call alone.
static FAILED_ONCE: [Call; 3] = [
    Call::Write(0, &[1], true),
    Call::Write(1, &[2], false),
    Call::Last(2, &[3]),
];

/// What is left by three calls.
static AFTER_FAILURE: [Call; 1] = [Call::Read(0, &[1, 0, 3, 0])];

/// The disk below one whose call of this number fails, after these.
fn below_fail_once(rt: &impl Abort, alloc: Global, failing: u64, calls: &[Call]) -> MemoryDisk {
    let mut once = FailOnce::new(blank(rt, alloc, 4), failing);
    play(rt, &mut once, "call, where one fails", calls);
    once.into_inner()
}

#[test]
fn one_call_fails_once(rt: HostRuntime) {
    let disk = below_fail_once(&rt, rt.alloc(), 2, &FAILED_ONCE);
    assert_after(&rt, disk, 3, &AFTER_FAILURE);
}

/// A write of a byte, and then twice one of no byte: the second time where the disk fails.
static NO_BYTES: [Call; 3] = [
    Call::Write(0, &[1], true),
    Call::Write(0, &[], true),
    Call::Write(0, &[], false),
];

/// What crashes leave after the two writes that are made: none of them was synced.
static UNSYNCED: [Row; 4] = [
    (2, Torn::Keep, &[0, 0, 0, 0]),
    (2, Torn::Take, &[1, 0, 0, 0]),
    (2, Torn::Fill(0xA7), &[0xA7, 0, 0, 0]),
    (2, Torn::Prefix(0), &[0, 0, 0, 0]),
];

/// Asserts that the two writes came to a disk, and what crashes leave of it after them.
fn assert_unsynced(rt: &impl Abort, alloc: Global, disk: &MemoryDisk) {
    holds(rt, disk.calls() == 2, "calls", 2);
    assert_left(rt, alloc, disk, &UNSYNCED);
}

// The clauses `relays` of both say that a call that fails leaves the disk below as it is. That a
// write of no bytes is passed on as a write, and not as a sync, no clause says: a disk may leave
// less than its contract allows.
#[test]
fn a_write_of_no_bytes_makes_nothing_last(rt: HostRuntime) {
    let alloc = rt.alloc();
    assert_unsynced(&rt, alloc, &below_fuse(&rt, alloc, &NO_BYTES));
    assert_unsynced(&rt, alloc, &below_fail_once(&rt, alloc, 3, &NO_BYTES));
}
