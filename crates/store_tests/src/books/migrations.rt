//! A migration: a small store becomes a large one.
//!
//! This rests on `Migrates`, the contract of `migrate`: the old disk is only read, and after
//! each call the new one stores nothing, or the old store's state in the large layout.

mod rooms;
mod stores;

use crate::asserts::holds;
use crate::books::disks::{now, recovered};
use crate::books::looks::{assert_group, assert_scopes, assert_tasks};
use crate::books::migrations::stores::{
    LARGE, LARGE_LEN, SMALL, SMALL_LEN, has, migrated, small, zeros,
};
use run_disk::MemoryDisk;
use run_model::Layout;
use std::alloc::Global;
use std::process::Abort;
use test_fixtures::{Going, Listing, Seen, TaskSeen};

/// The disk that the small store was migrated to, by eight calls; three were made of the old disk,
/// which has the bytes that it had.
fn taken_over(rt: &impl Abort, alloc: Global) -> MemoryDisk {
    let mut old = small(rt, alloc, &[]);
    let (fault, new) = migrated(alloc, &mut old, zeros(rt, alloc, LARGE_LEN));
    let reported = (fault, old.calls(), new.calls());
    holds(rt, reported == (None, 3, 8), "calls", 11);
    let is_same = has(rt, alloc, &old, SMALL_LEN, &SMALL);
    holds(rt, is_same, "the old disk's bytes", SMALL_LEN as u64);
    new
}

#[test]
fn a_small_store_becomes_a_large_one(rt: HostRuntime) {
    let new = taken_over(&rt, rt.alloc());
    let is_large = has(&rt, rt.alloc(), &new, LARGE_LEN, &LARGE);
    holds(&rt, is_large, "the new disk's bytes", LARGE_LEN as u64);
}

/// Asserts the layout and the event count, and how the tasks `a` and `b` and their group are.
fn assert_night(
    rt: &impl Abort,
    found: &Listing,
    count: u64,
    seen: Seen<'static>,
    phases: (Going<'static>, Going<'static>),
) {
    let numbers = (found.layout, found.count);
    holds(rt, numbers == (Layout::Large, count), "events", count);
    assert_scopes(rt, found, &[(b"g", seen)]);
    let tasks: [TaskSeen; 2] = [
        (b"copy", b"a", phases.0, None),
        (b"copy", b"b", phases.1, None),
    ];
    assert_tasks(rt, found, &tasks);
}

#[test]
fn its_running_task_is_still_running(rt: HostRuntime) {
    let new = taken_over(&rt, rt.alloc());
    let found = recovered(&rt, rt.alloc(), now(&rt, rt.alloc(), &new));
    let phases = (Going::Running, Going::Held);
    assert_night(&rt, &found, 6, Seen::Live, phases);
    assert_group(&rt, &found, b"g", (1, 2, Some(1), false, None));
}
