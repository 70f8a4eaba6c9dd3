//! Want of memory: a migration takes its room before the first device call.
//!
//! This rests on `Migrates`, the contract of `migrate`: at Memory both disks are as they were
//! given.

use crate::asserts::holds;
use crate::books::disks::heap;
use crate::books::migrations::stores::{LARGE_LEN, Reported, reported, small, zeros};
use run_book::MigrateFault;
use std::alloc::Global;
use std::process::Abort;

/// What a migration tells whose room is taken of so many bytes, which are then given back.
fn reported_within(rt: &impl Abort, alloc: Global, bytes: usize) -> Reported {
    let heap = heap(rt, alloc, bytes);
    let mut old = small(rt, alloc, &[]);
    let reported = reported(&heap, &mut old, zeros(rt, alloc, LARGE_LEN));
    holds(rt, heap.used() == 0, "given back of bytes", bytes as u64);
    reported
}

/// How many bytes, what is told, and how many calls were made of both disks.
static ROOMS: [(usize, Reported); 6] = [
    (1_000, (Some(MigrateFault::Memory), 0, 0)),
    (400_000, (Some(MigrateFault::Memory), 0, 0)),
    (800_000, (Some(MigrateFault::Memory), 0, 0)),
    (1_200_000, (Some(MigrateFault::Memory), 0, 0)),
    (1_700_000, (Some(MigrateFault::Memory), 0, 0)),
    (8_000_000, (None, 3, 8)),
];

#[test]
fn each_growth_can_be_refused(rt: HostRuntime) {
    for row in ROOMS.iter() {
        let reported = reported_within(&rt, rt.alloc(), row.0);
        holds(&rt, reported == row.1, "of bytes", row.0 as u64);
    }
}
