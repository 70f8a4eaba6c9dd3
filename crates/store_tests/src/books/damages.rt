//! Damaged stores, each with the fault that tells it, or with what it stores still.
//!
//! This rests on `Recovers` and `Opens`: of all faults whose cause holds the first one is told,
//! after so many reads, and nothing is written. That its memory is given back no clause says.

use crate::asserts::{done, holds};
use crate::books::disks::{AMPLE, counted, counted_on, heap, put, reported_by_opening, small_disk};
use crate::books::six_events::FIRST_BATCH;
use crate::bytes::disk_of;
use linked_list_allocator::LocalHeap;
use run_book::{MigrateFault, migrate};
use run_disk::MemoryDisk;
use run_model::Fault;
use std::alloc::{Allocator, Global};
use std::process::Abort;

/// The first bytes of both slots, up to the version of their images.
const OLDER: &[u8; 13] = b"\xa7\0\0\0\0\0\0\0\0\0\0\0\x17";

const NEWER: &[u8; 13] = b"\xa7\0\0\0\0\0\0\0\x01\0\0\0\x17";

/// Bytes, each from a place on.
type Puts = &'static [(usize, &'static [u8])];

/// A small store of root alone after its first opening, with a batch of events 2 to 4 and with
/// images of this version; but for some bytes.
fn damaged(rt: &impl Abort, alloc: Global, version: u8, damages: Puts) -> Vec<u8> {
    let rows = [
        (0, OLDER.as_slice()),
        (13, &[version]),
        (524_288, NEWER),
        (524_301, &[version]),
        (524_317, b"\x01"),
        (1_310_720, FIRST_BATCH),
    ];
    let mut bytes = small_disk(rt, alloc, &rows);
    for row in damages.iter() {
        put(rt, &mut bytes, row.0, row.1);
    }
    bytes
}

/// What is damaged, by these bytes, and the event count or the fault.
type Damage = (&'static str, Puts, Result<u64, Fault>);

static IN_SLOTS: [Damage; 10] = [
    ("nothing", &[], Ok(4)),
    ("slot 1's gate", &[(524_288, b"\xa6")], Ok(0)),
    (
        "both gates",
        &[(0, b"\0"), (524_288, b"\0")],
        Err(Fault::NotAStore),
    ),
    (
        "slot 1's generation",
        &[(524_296, b"\x02")],
        Err(Fault::BadSlot),
    ),
    ("slot 0's generation", &[(8, b"\x01")], Err(Fault::BadSlot)),
    (
        "slot 0's greatest bit",
        &[(1, b"\x80")],
        Err(Fault::BadSlot),
    ),
    (
        "slot 1's greatest bit",
        &[(524_289, b"\x80")],
        Err(Fault::BadSlot),
    ),
    (
        "slot 1's length",
        &[(524_297, b"\0\x07\xff\xf4")],
        Err(Fault::BadSlot),
    ),
    (
        "slot 0's length",
        &[(9, b"\0\x07\xff\xf4")],
        Err(Fault::BadSlot),
    ),
    ("slot 0's version", &[(13, b"\x09")], Ok(4)),
];

static IN_IMAGES: [Damage; 6] = [
    (
        "slot 1's version",
        &[(524_301, b"\x09")],
        Err(Fault::BadImage),
    ),
    (
        "slot 1's clock",
        &[(524_302, b"\xff")],
        Err(Fault::BadImage),
    ),
    (
        "slot 1's count",
        &[(524_310, b"\x80\0\0\0\0\0\0\0")],
        Err(Fault::BadImage),
    ),
    (
        "a row too many",
        &[(524_319, b"\x01")],
        Err(Fault::BadImage),
    ),
    (
        "an image too short",
        &[(524_300, b"\x16")],
        Err(Fault::BadImage),
    ),
    (
        "an image too long",
        &[(524_300, b"\x18")],
        Err(Fault::BadImage),
    ),
];

static IN_SEGMENTS: [Damage; 8] = [
    (
        "a batch too long",
        &[(1_310_721, b"\0\x03\xff\xfb")],
        Err(Fault::BadBatch),
    ),
    (
        "an empty batch",
        &[(1_310_721, b"\0\0\0\0")],
        Err(Fault::BadBatch),
    ),
    (
        "an open gate after it",
        &[(1_310_751, b"\xa7")],
        Err(Fault::BadBatch),
    ),
    ("another gate after it", &[(1_310_751, b"\xff")], Ok(4)),
    (
        "a record's tag",
        &[(1_310_725, b"\x0c")],
        Err(Fault::BadRecord),
    ),
    (
        "a record's length",
        &[(1_310_727, b"\x06")],
        Err(Fault::BadRecord),
    ),
    (
        "a record's parent",
        &[(1_310_731, b"\x05")],
        Err(Fault::BadEvent),
    ),
    (
        "a record's rest",
        &[(1_310_721, b"\0\0\0\x19")],
        Err(Fault::BadRecord),
    ),
];

/// Two damages each. A batch's fault comes before its image's, and that before a record's; of two
/// records the first one's comes.
static IN_TWO_PLACES: [Damage; 5] = [
    (
        "batch and image",
        &[(1_310_721, b"\0\0\0\0"), (524_301, b"\x0d")],
        Err(Fault::BadBatch),
    ),
    (
        "record and image",
        &[(1_310_725, b"\x0c"), (524_301, b"\x0d")],
        Err(Fault::BadImage),
    ),
    (
        "event and image",
        &[(1_310_731, b"\x05"), (524_301, b"\x0d")],
        Err(Fault::BadImage),
    ),
    (
        "event and next record",
        &[(1_310_731, b"\x05"), (1_310_733, b"\x0d")],
        Err(Fault::BadEvent),
    ),
    (
        "record and next record",
        &[(1_310_732, b"\x05"), (1_310_733, b"\x0d")],
        Err(Fault::BadRecord),
    ),
];

/// Asserts what each damage is told as, after images of this version.
fn assert_reported(rt: &impl Abort, alloc: Global, version: u8, rows: &[Damage]) {
    for row in rows.iter() {
        let found = counted(rt, alloc, damaged(rt, alloc, version, row.1));
        holds(rt, found == row.2, row.0, version as u64);
    }
}

#[test]
fn the_first_damage_is_reported(rt: HostRuntime) {
    for version in [1, 2] {
        assert_reported(&rt, rt.alloc(), version, &IN_SLOTS);
        assert_reported(&rt, rt.alloc(), version, &IN_IMAGES);
        assert_reported(&rt, rt.alloc(), version, &IN_SEGMENTS);
        assert_reported(&rt, rt.alloc(), version, &IN_TWO_PLACES);
    }
}

/// Why a store isn't migrated, if it isn't, and the new disk.
fn migrated<A: Allocator + Copy>(
    alloc: A,
    old: &mut MemoryDisk,
    new: MemoryDisk,
) -> (Option<MigrateFault>, MemoryDisk) {
    match migrate(alloc, old, new) {
        Ok(new) => (None, new),
        Err((fault, new)) => (Some(fault), new),
    }
}

/// What keeps a store from being opened, and the fault: a damage for each fault that a store has,
/// one for each part of an image that is read by itself, and as many events as there can be.
static UNOPENED: [(&'static str, Puts, Fault); 11] = [
    (
        "both gates",
        &[(0, b"\0"), (524_288, b"\0")],
        Fault::NotAStore,
    ),
    ("the generation", &[(524_296, b"\x02")], Fault::BadSlot),
    ("the batch", &[(1_310_721, b"\0\0\0\0")], Fault::BadBatch),
    ("the version", &[(524_301, b"\x09")], Fault::BadImage),
    ("a scope too many", &[(524_319, b"\x01")], Fault::BadImage),
    ("a group too many", &[(524_321, b"\x01")], Fault::BadImage),
    ("a task too many", &[(524_323, b"\x01")], Fault::BadImage),
    ("a byte too many", &[(524_300, b"\x18")], Fault::BadImage),
    ("a record", &[(1_310_725, b"\x0c")], Fault::BadRecord),
    ("an event", &[(1_310_731, b"\x05")], Fault::BadEvent),
    (
        "2^62 events",
        &[(524_310, b"\x3f\xff\xff\xff\xff\xff\xff\xfd")],
        Fault::NumbersSpent,
    ),
];

/// What a recovery of such a store tells: only what goes on from it needs numbers.
fn reported_by_recovery(fault: Fault) -> Result<u64, Fault> {
    match fault {
        Fault::NumbersSpent => Ok(1 << 62),
        fault => Err(fault),
    }
}

/// Asserts that a recovery, a migration and an opening of such a store leave no byte of a heap in
/// use. Gives the new disk of the migration.
fn assert_nothing_left(
    rt: &impl Abort,
    alloc: Global,
    heap: &LocalHeap,
    new: MemoryDisk,
    row: &(&'static str, Puts, Fault),
) -> MemoryDisk {
    let mut disk = disk_of(rt, alloc, damaged(rt, alloc, 2, row.1));
    let found = (counted_on(heap, &mut disk), heap.used());
    holds(rt, found == (reported_by_recovery(row.2), 0), row.0, 1);
    let (reported, new) = migrated(heap, &mut disk, new);
    let old = Some(MigrateFault::Old(row.2));
    holds(rt, (reported, heap.used()) == (old, 0), row.0, 2);
    let (fault, _calls) = reported_by_opening(heap, disk);
    holds(rt, (fault, heap.used()) == (Some(row.2), 0), row.0, 3);
    new
}

#[test]
fn a_damaged_store_leaves_no_memory_in_use(rt: HostRuntime) {
    let heap = heap(&rt, rt.alloc(), AMPLE);
    let mut new = done(&rt, MemoryDisk::new(rt.alloc(), 6_291_456), "memory");
    for row in UNOPENED.iter() {
        new = assert_nothing_left(&rt, rt.alloc(), &heap, new, row);
    }
}
