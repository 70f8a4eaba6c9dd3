//! The bytes of a small store that has seen a short night, and those of the large one that it
//! becomes; disks of these bytes, and what a migration makes of two disks.
//!
//! The night: `group g root`, `limit g 1`, `go g copy a`, `go g copy b`, `start`, after one
//! opening, and a flush. So task 0 is running, task 1 is held, and there were six events.

use crate::asserts::done;
use crate::books::bytes::{FORMATTED, OPENED};
use crate::books::disks::{At, now, put};
use crate::bytes::disk_of;
use run_book::{MigrateFault, migrate};
use run_disk::{MemoryDisk, RunDisk};
use std::alloc::{Allocator, Global};
use std::process::Abort;

/// How many bytes a small store has.
pub const SMALL_LEN: usize = 1_572_864;

/// And a large one.
pub const LARGE_LEN: usize = 6_291_456;

/// A batch of 42 bytes: the records of the group, its limit, two tasks and a start.
const BATCH: &[u8; 47] = b"\xa7\0\0\0\x2a\
\x04\0\x04\x01g\0\0\
\x06\0\x03\0\0\x01\
\x07\0\x09\0\0\x04copy\x01a\
\x07\0\x09\0\0\x04copy\x01b\
\x09\0\x02\0\0";

/// The small store, which has zeros in all other places.
pub static SMALL: [At; 3] = [
    ("slot 0", 0, FORMATTED),
    ("slot 1", 524_288, OPENED),
    ("the batch", 1_310_720, BATCH),
];

/// A slot of generation 0 with an image of 61 bytes: six events, the group's scope, the group, and
/// the two tasks.
const IMAGE: &[u8; 74] = b"\xa7\0\0\0\0\0\0\0\0\0\0\0\x3d\
\x02\0\0\0\0\0\0\0\0\0\0\0\0\0\0\0\x06\0\x01\0\x01\0\x02\
\x01g\0\0\x06\0\
\x01g\0\x01\0\x01\0\0\
\0\0\x04copy\x01a\x01\xff\xff\
\0\0\x04copy\x01b\0\xff\xff";

/// The large store, which has zeros in all other places.
pub static LARGE: [At; 1] = [("slot 0", 0, IMAGE)];

/// Puts bytes in place of those at their places.
fn put_all(rt: &impl Abort, bytes: &mut [u8], rows: &[At]) {
    for row in rows.iter() {
        put(rt, bytes, row.1, row.2);
    }
}

/// So many zeros, but for these bytes at their places.
fn laid(rt: &impl Abort, alloc: Global, len: usize, rows: &[At]) -> Vec<u8> {
    let mut bytes = done(rt, vec![in alloc; 0u8; len], "memory");
    put_all(rt, &mut bytes, rows);
    bytes
}

/// The small store, with these bytes in place of its own.
pub fn small(rt: &impl Abort, alloc: Global, rows: &[At]) -> MemoryDisk {
    let mut bytes = laid(rt, alloc, SMALL_LEN, &SMALL);
    put_all(rt, &mut bytes, rows);
    disk_of(rt, alloc, bytes)
}

/// A disk of so many zeros.
pub fn zeros(rt: &impl Abort, alloc: Global, len: usize) -> MemoryDisk {
    done(rt, MemoryDisk::new(alloc, len), "memory")
}

/// Why a migration made no large store, if it made none, and the new disk.
pub fn migrated<D: RunDisk, E: RunDisk, A: Allocator + Copy>(
    alloc: A,
    old: &mut D,
    new: E,
) -> (Option<MigrateFault>, E) {
    match migrate(alloc, old, new) {
        Ok(new) => (None, new),
        Err((fault, new)) => (Some(fault), new),
    }
}

/// What a migration tells: its fault, if it has one, and how many calls both disks count.
pub type Reported = (Option<MigrateFault>, u64, u64);

/// What a migration of these disks tells.
pub fn reported<A: Allocator + Copy>(alloc: A, old: &mut MemoryDisk, new: MemoryDisk) -> Reported {
    let (fault, new) = migrated(alloc, old, new);
    (fault, old.calls(), new.calls())
}

/// Says whether reads of a disk give zeros, but for these bytes at their places.
pub fn has(rt: &impl Abort, alloc: Global, disk: &MemoryDisk, len: usize, rows: &[At]) -> bool {
    now(rt, alloc, disk) == laid(rt, alloc, len, rows)
}
