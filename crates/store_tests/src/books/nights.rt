//! A night of twelve steps over a new store, and what a stop after each of its device calls
//! leaves, torn in each way.
//!
//! This rests on `Opens`, `Flushes` and `Checkpoints` (what a crash at any moment of the call
//! leaves), on `CarriesOn` (each acknowledged event is among it), on `Recovers`, and on
//! `IsTornImage` of the disk in memory. Further stops of openings are in `kills`.

use crate::asserts::{holds, holds_after};
use crate::books::disks::{TEARS, counted, played, played_on, small_disk};
use crate::bytes::{disk_of, torn_image};
use run_disk::{MemoryDisk, Torn};
use run_model::Layout;
use std::alloc::Global;
use std::process::Abort;
use test_fixtures::Call::{Cancel, Checkpoint, Derive, Flush, Go, Group, Start};
use test_fixtures::{Ask, Call, Replied};

/// The steps, each with its answer. The opening makes ten device calls, each flush six, and the
/// checkpoint seven: 35 in sum.
pub static NIGHT: [(Call, Replied<'static>); 12] = [
    (Derive(b"a", b"root", Ask::Cause), Replied::Scope(1)),
    (Derive(b"b", b"a", Ask::Cancel), Replied::Scope(2)),
    (Cancel(b"a", b"disk"), Replied::Done),
    (Flush, Replied::Acked(4)),
    (Derive(b"c", b"root", Ask::Cancel), Replied::Scope(3)),
    (Derive(b"d", b"root", Ask::Cancel), Replied::Scope(4)),
    (Flush, Replied::Acked(6)),
    (Group(b"g", b"root"), Replied::Group(0, Some(5))),
    (Go(b"g", b"copy", b"a"), Replied::Ready(0)),
    (Checkpoint, Replied::Acked(8)),
    (Start, Replied::Started(9, 0, b"copy", b"a", false)),
    (Flush, Replied::Acked(9)),
];

/// The last call after which a stop leaves so many events: where a torn gate stays closed, and
/// where it is open.
static LEFT: [(u64, u64, u64); 11] = [
    (8, 0, 0),
    (9, 0, 1),
    (14, 1, 1),
    (15, 1, 4),
    (20, 4, 4),
    (21, 4, 6),
    (27, 6, 6),
    (28, 6, 8),
    (33, 8, 8),
    (34, 8, 9),
    (35, 9, 9),
];

/// How many events a stop after so many calls of the night leaves.
pub fn left(calls: u64, torn: Torn) -> u64 {
    let mut count = 9;
    for row in LEFT.iter().rev() {
        if calls <= row.0 {
            count = if opens(torn) { row.2 } else { row.1 };
        }
    }
    count
}

/// Says whether a write of an open gate is left so by this kind of tearing.
pub fn opens(torn: Torn) -> bool {
    matches!(torn, Torn::Take | Torn::Fill(0xA7) | Torn::Prefix(1))
}

/// Asserts what each stop of the night leaves of a disk that had made so many calls before.
fn assert_stops(rt: &impl Abort, alloc: Global, disk: &MemoryDisk, before: u64) {
    holds(
        rt,
        disk.calls() == before.saturating_add(35),
        "calls after",
        before,
    );
    for calls in 0..36 {
        for torn in TEARS.iter() {
            let bytes = torn_image(rt, alloc, disk, before.saturating_add(calls), *torn);
            let found = counted(rt, alloc, bytes);
            holds_after(rt, found == Ok(left(calls, *torn)), calls, *torn);
        }
    }
}

#[test]
fn a_stop_leaves_what_was_acknowledged_or_all(rt: HostRuntime) {
    let disk = played(&rt, rt.alloc(), Layout::Small, &[&NIGHT]);
    assert_stops(&rt, rt.alloc(), &disk, 8);
}

/// Slot 0 of a store of version 1 as it was formatted.
const FORMATTED_BEFORE: &[u8; 14] = b"\xa7\0\0\0\0\0\0\0\0\0\0\0\x17\x01";

#[test]
fn a_store_of_version_1_keeps_as_much(rt: HostRuntime) {
    let bytes = small_disk(&rt, rt.alloc(), &[(0, FORMATTED_BEFORE)]);
    let disk = disk_of(&rt, rt.alloc(), bytes);
    let disk = played_on(&rt, rt.alloc(), disk, &[&NIGHT]);
    assert_stops(&rt, rt.alloc(), &disk, 0);
}
