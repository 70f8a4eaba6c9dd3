//! The bytes of a small store: as it is formatted, as it is opened once, after two flushes, and
//! after a checkpoint.
//!
//! This rests on `Formats`, `Opens`, `Flushes` and `Checkpoints` (what is stored, by how many
//! calls); the bytes are those of docs/formats.

use crate::asserts::holds;
use crate::books::disks::{At, assert_bytes, formatted, now, played};
use crate::books::six_events::{FIRST, FIRST_BATCH, FLUSHED, SECOND_BATCH};
use run_disk::MemoryDisk;
use run_model::Layout;
use std::alloc::Global;
use std::process::Abort;
use test_fixtures::Call::Checkpoint;
use test_fixtures::{Call, Replied};

/// A slot of generation 0 with root alone, before any event.
pub const FORMATTED: &[u8; 36] = b"\xa7\0\0\0\0\0\0\0\0\0\0\0\x17\x02\0\0\0\0\0\0\0\0\
\0\0\0\0\0\0\0\0\0\0\0\0\0\0";

/// A slot of generation 1 with root alone, after event 1.
pub const OPENED: &[u8; 36] = b"\xa7\0\0\0\0\0\0\0\x01\0\0\0\x17\x02\0\0\0\0\0\0\0\0\
\0\0\0\0\0\0\0\x01\0\0\0\0\0\0";

/// A slot of generation 2 with two scopes, the first of which event 4 canceled.
const CANCELED: &[u8; 70] = b"\xa7\0\0\0\0\0\0\0\x02\0\0\0\x39\x02\0\0\0\0\0\0\0\0\
\0\0\0\0\0\0\0\x04\0\x02\0\0\0\0\
\x01a\0\0\x02\x01\0\0\0\0\0\0\0\x04\0\0\0\0\0\0\0\0\x01\x04disk\x01b\0\x01\x01\0";

/// Asserts how many calls a disk has counted, and bytes of what reads of it give.
fn assert_disk(rt: &impl Abort, alloc: Global, disk: &MemoryDisk, calls: u64, rows: &[At]) {
    holds(rt, disk.calls() == calls, "calls", calls);
    let now = now(rt, alloc, disk);
    holds(rt, now.len() == 1_572_864, "bytes", now.len() as u64);
    assert_bytes(rt, &now, rows);
}

static FORMATTED_SO: [At; 3] = [
    ("slot 0", 0, FORMATTED),
    ("slot 1's gate", 524_288, b"\0"),
    ("segment 0's gate", 1_048_576, b"\0"),
];

#[test]
fn a_store_is_formatted_so(rt: HostRuntime) {
    let disk = formatted(&rt, rt.alloc(), Layout::Small);
    assert_disk(&rt, rt.alloc(), &disk, 8, &FORMATTED_SO);
}

/// Asserts what steps leave of a store that was just opened.
fn assert_left(
    rt: &impl Abort,
    alloc: Global,
    steps: &[&[(Call, Replied<'static>)]],
    calls: u64,
    rows: &[At],
) {
    let disk = played(rt, alloc, Layout::Small, steps);
    assert_disk(rt, alloc, &disk, calls, rows);
}

static OPENED_SO: [At; 4] = [
    ("slot 0", 0, FORMATTED),
    ("slot 1", 524_288, OPENED),
    ("segment 0's gate", 1_048_576, b"\0"),
    ("segment 1's gate", 1_310_720, b"\0"),
];

#[test]
fn a_store_is_opened_so(rt: HostRuntime) {
    assert_left(&rt, rt.alloc(), &[], 18, &OPENED_SO);
}

static FLUSHED_SO: [At; 6] = [
    ("slot 0", 0, FORMATTED),
    ("slot 1", 524_288, OPENED),
    ("segment 0's gate", 1_048_576, b"\0"),
    ("the first batch", 1_310_720, FIRST_BATCH),
    ("the second batch", 1_310_751, SECOND_BATCH),
    ("the third gate", 1_310_772, b"\0"),
];

#[test]
fn two_flushes_leave_two_batches(rt: HostRuntime) {
    assert_left(&rt, rt.alloc(), &FLUSHED, 30, &FLUSHED_SO);
}

static CHECKPOINTED: [&[(Call, Replied<'static>)]; 2] = [
    &FIRST,
    &[(Checkpoint, Replied::Acked(4))],
];

static CHECKPOINTED_SO: [At; 3] = [
    ("slot 0", 0, CANCELED),
    ("slot 1", 524_288, OPENED),
    ("segment 0's gate", 1_048_576, b"\0"),
];

#[test]
fn a_checkpoint_leaves_an_image(rt: HostRuntime) {
    assert_left(&rt, rt.alloc(), &CHECKPOINTED, 25, &CHECKPOINTED_SO);
}
