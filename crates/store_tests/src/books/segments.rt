//! Flushes that fill a segment to its last byte or want a byte more.
//!
//! This rests on `Flushes` (one batch where there is room for it, else a checkpoint).

use crate::asserts::holds;
use crate::books::calls::{add_steps, assert_last};
use crate::books::disks::{At, assert_bytes, counted_on, formatted, now, play};
use run_disk::MemoryDisk;
use run_model::{Layout, Step};
use std::alloc::Global;
use std::process::Abort;
use test_fixtures::Call::{Advance, Flush, Group, Limit};
use test_fixtures::{Call, Replied};

/// Adds so many advances of the clock, by one second each: 11 bytes each.
fn add_advances(rt: &impl Abort, steps: &mut Vec<Step>, advances: u64) {
    for before in 0..advances {
        add_steps(
            rt,
            steps,
            &[(Advance(before.saturating_add(1)), Replied::Done)],
        );
    }
}

/// A group, its limit set so many times, and so many advances: 7, 6 and 11 bytes each.
fn pending(rt: &impl Abort, alloc: Global, limits: u64, advances: u64) -> Vec<Step> {
    let mut steps = Vec::new(alloc);
    add_steps(
        rt,
        &mut steps,
        &[(Group(b"g", b"root"), Replied::Group(0, Some(1)))],
    );
    for _ in 0..limits {
        add_steps(rt, &mut steps, &[(Limit(b"g", Some(2)), Replied::Done)]);
    }
    add_advances(rt, &mut steps, advances);
    steps
}

/// Takes steps over a new store, and then those of a table, each with its answer, and gives the
/// disk back.
fn played_after(
    rt: &impl Abort,
    alloc: Global,
    layout: Layout,
    steps: Vec<Step>,
    rows: &[(Call, Replied<'static>)],
) -> MemoryDisk {
    let mut steps = steps;
    add_steps(rt, &mut steps, rows);
    let (disk, replies) = play(rt, alloc, formatted(rt, alloc, layout), &steps);
    assert_last(rt, &replies, rows);
    disk
}

/// A layout, how many limits and advances, the calls of the flush, and the number that it answers.
type Flushed = (Layout, u64, u64, u64, u64);

/// 262,138 and 262,139 pending bytes in a small store, 1,048,570 and 1,048,571 in a large one. The
/// first of each fill its segment; for the other a checkpoint is made.
static FLUSHED: [Flushed; 4] = [
    (Layout::Small, 2, 23_829, 24, 23_833),
    (Layout::Small, 4, 23_828, 25, 23_834),
    (Layout::Large, 9, 95_319, 24, 95_330),
    (Layout::Large, 0, 95_324, 25, 95_326),
];

fn assert_flushed(rt: &impl Abort, alloc: Global, row: Flushed) {
    let (layout, limits, advances, calls, acked) = row;
    let steps = pending(rt, alloc, limits, advances);
    let rows = [(Flush, Replied::Acked(acked))];
    let mut disk = played_after(rt, alloc, layout, steps, &rows);
    holds(rt, disk.calls() == calls, "calls, after advances", advances);
    let found = counted_on(alloc, &mut disk);
    holds(rt, found == Ok(acked), "events, after advances", advances);
}

#[test]
fn a_flush_fills_a_segment_or_is_a_checkpoint(rt: HostRuntime) {
    for row in FLUSHED.iter() {
        assert_flushed(&rt, rt.alloc(), *row);
    }
}

/// Steps of 262,138 bytes, which are all that a small segment takes.
fn filling(rt: &impl Abort, alloc: Global) -> Vec<Step> {
    pending(rt, alloc, 2, 23_829)
}

static FILLED: [At; 4] = [
    ("the gate", 1_310_720, b"\xa7\0\x03\xff\xfa"),
    ("the first record", 1_310_725, b"\x04\0\x04\x01g\0\0"),
    (
        "the last record",
        1_572_852,
        b"\x03\0\x08\0\0\0\0\0\0\x5d\x15",
    ),
    ("the next gate", 1_572_863, b"\0"),
];

#[test]
fn a_segment_is_filled_to_its_last_byte(rt: HostRuntime) {
    let steps = filling(&rt, rt.alloc());
    let rows = [(Flush, Replied::Acked(23_833))];
    let disk = played_after(&rt, rt.alloc(), Layout::Small, steps, &rows);
    assert_bytes(&rt, &now(&rt, rt.alloc(), &disk), &FILLED);
}

/// After a full segment a flush of nothing, a checkpoint, and a flush of six bytes into the other
/// segment.
static AFTER: [(Call, Replied<'static>); 6] = [
    (Flush, Replied::Acked(23_833)),
    (Flush, Replied::Acked(23_833)),
    (Limit(b"g", Some(3)), Replied::Done),
    (Flush, Replied::Acked(23_834)),
    (Limit(b"g", Some(4)), Replied::Done),
    (Flush, Replied::Acked(23_835)),
];

static OTHER_SEGMENT: [At; 2] = [
    ("slot 0", 0, b"\xa7\0\0\0\0\0\0\0\x02"),
    (
        "segment 0",
        1_048_576,
        b"\xa7\0\0\0\x06\x06\0\x03\0\0\x04\0",
    ),
];

#[test]
fn a_flush_after_a_full_segment_is_a_checkpoint(rt: HostRuntime) {
    let steps = filling(&rt, rt.alloc());
    let mut disk = played_after(&rt, rt.alloc(), Layout::Small, steps, &AFTER);
    holds(&rt, disk.calls() == 37, "calls", 37);
    assert_bytes(&rt, &now(&rt, rt.alloc(), &disk), &OTHER_SEGMENT);
    let found = counted_on(rt.alloc(), &mut disk);
    holds(&rt, found == Ok(23_835), "events", 23_835);
}
