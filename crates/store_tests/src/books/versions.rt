//! Stores of version 1, kept as bytes: each is read, and its opening takes it over.
//!
//! This rests on `Recovers` and `Opens`, whose `Stores` takes images of either version.

use crate::asserts::{holds, holds_after};
use crate::books::disks::{At, assert_bytes, counted, now, played_on, recovered, small_disk};
use crate::books::looks::{assert_group, assert_scopes, assert_tasks};
use crate::bytes::{disk_of, torn_image};
use run_disk::{MemoryDisk, Torn};
use std::alloc::Global;
use std::process::Abort;
use test_fixtures::Call::{Flush, Retry};
use test_fixtures::{Going, Listing, Replied, Seen, TaskSeen};

/// Slot 0 of generation 0 with an image of version 1, of 57 bytes: six events, group `g` of limit
/// 1 with its scope, task 0, which runs, and task 1, which is held.
const RUNNING: &[u8; 70] = b"\xa7\0\0\0\0\0\0\0\0\0\0\0\x39\x01\0\0\0\0\0\0\0\0\
\0\0\0\0\0\0\0\x06\0\x01\0\x01\0\x02\x01g\0\0\x06\0\x01g\0\x01\0\x01\0\0\
\0\0\x04copy\x01a\x01\0\0\x04copy\x01b\0";

/// Slot 1 of generation 1 with its restart in version 2, of 101 bytes: each task's row has a link.
const RESTARTED: &[u8; 114] = b"\xa7\0\0\0\0\0\0\0\x01\0\0\0\x65\x02\0\0\0\0\0\0\0\0\
\0\0\0\0\0\0\0\x07\0\x01\0\x01\0\x02\
\x01g\0\0\x06\x01\0\0\0\0\0\0\0\x07\0\0\0\0\0\0\0\0\x01\x0binterrupted\
\x01g\0\x01\0\x01\0\x0binterrupted\
\0\0\x04copy\x01a\x04\xff\xff\0\0\x04copy\x01b\0\xff\xff";

/// Slot 0 with the same restart in version 1, of 97 bytes.
const RESTARTED_BEFORE: &[u8; 110] = b"\xa7\0\0\0\0\0\0\0\0\0\0\0\x61\x01\0\0\0\0\0\0\0\0\
\0\0\0\0\0\0\0\x07\0\x01\0\x01\0\x02\
\x01g\0\0\x06\x01\0\0\0\0\0\0\0\x07\0\0\0\0\0\0\0\0\x01\x0binterrupted\
\x01g\0\x01\0\x01\0\x0binterrupted\
\0\0\x04copy\x01a\x04\0\0\x04copy\x01b\0";

/// A batch of a retry of task 0.
const RETRY: &[u8; 10] = b"\xa7\0\0\0\x05\x0c\0\x02\0\0";

/// All that a small store with these bytes has.
fn stored(rt: &impl Abort, alloc: Global, rows: &[(usize, &[u8])]) -> Listing {
    recovered(rt, alloc, small_disk(rt, alloc, rows))
}

/// A small disk with these bytes, at rest.
fn disk_with(rt: &impl Abort, alloc: Global, rows: &[(usize, &[u8])]) -> MemoryDisk {
    disk_of(rt, alloc, small_disk(rt, alloc, rows))
}

static TASKS_RUNNING: [TaskSeen; 2] = [
    (b"copy", b"a", Going::Running, None),
    (b"copy", b"b", Going::Held, None),
];

/// Asserts that task 0 runs, and task 1 is held.
fn assert_running(rt: &impl Abort, found: &Listing) {
    holds(rt, (found.count, found.clock) == (6, 0), "events", 6);
    assert_scopes(rt, found, &[(b"g", Seen::Live)]);
    assert_group(rt, found, b"g", (1, 2, Some(1), false, None));
    assert_tasks(rt, found, &TASKS_RUNNING);
}

static TASKS_RESTARTED: [TaskSeen; 2] = [
    (b"copy", b"a", Going::Interrupted, None),
    (b"copy", b"b", Going::Ready, None),
];

/// Asserts that task 0 is interrupted, task 1 ready, and besides all as it was.
fn assert_interrupted(rt: &impl Abort, found: &Listing) {
    holds(rt, (found.count, found.clock) == (7, 0), "events", 7);
    assert_scopes(rt, found, &[(b"g", Seen::Canceled(b"interrupted"))]);
    assert_group(
        rt,
        found,
        b"g",
        (1, 1, Some(1), false, Some(b"interrupted")),
    );
    assert_tasks(rt, found, &TASKS_RESTARTED);
}

static TASKS_RETRIED: [TaskSeen; 3] = [
    (b"copy", b"a", Going::Interrupted, None),
    (b"copy", b"b", Going::Ready, None),
    (b"copy", b"a", Going::Held, Some(0)),
];

/// Asserts that task 2 retries task 0.
fn assert_retried(rt: &impl Abort, found: &Listing) {
    holds(rt, found.count == 8, "events", 8);
    assert_tasks(rt, found, &TASKS_RETRIED);
}

#[test]
fn a_store_of_either_version_is_recovered(rt: HostRuntime) {
    assert_running(&rt, &stored(&rt, rt.alloc(), &[(0, RUNNING)]));
    assert_interrupted(&rt, &stored(&rt, rt.alloc(), &[(0, RESTARTED_BEFORE)]));
    let rows = [(524_288, RESTARTED.as_slice()), (1_310_720, RETRY)];
    assert_retried(&rt, &stored(&rt, rt.alloc(), &rows));
}

/// A disk on which a store of version 1 was opened, by ten calls, and its task 0 retried, by six.
fn taken_over(rt: &impl Abort, alloc: Global) -> MemoryDisk {
    let disk = disk_with(rt, alloc, &[(0, RUNNING)]);
    let rows = [(Retry(0), Replied::Held(2)), (Flush, Replied::Acked(8))];
    played_on(rt, alloc, disk, &[&rows])
}

/// The calls after which it stops, and the events that are left.
static LEFT: [(u64, Torn, u64); 5] = [
    (6, Torn::Take, 6),
    (9, Torn::Keep, 6),
    (9, Torn::Take, 7),
    (10, Torn::Keep, 7),
    (16, Torn::Keep, 8),
];

/// Asserts how many events each of those stops leaves.
fn assert_left(rt: &impl Abort, alloc: Global, disk: &MemoryDisk) {
    for row in LEFT.iter() {
        let found = counted(rt, alloc, torn_image(rt, alloc, disk, row.0, row.1));
        holds_after(rt, found == Ok(row.2), row.0, row.1);
    }
}

/// What stands on the disk then.
static TAKEN_OVER: [At; 4] = [
    ("the store as it was", 0, RUNNING),
    ("its restart", 524_288, RESTARTED),
    ("the retry", 1_310_720, RETRY),
    ("the next gate", 1_310_730, b"\0"),
];

#[test]
fn an_opening_takes_a_store_of_version_1_over(rt: HostRuntime) {
    let disk = taken_over(&rt, rt.alloc());
    holds(&rt, disk.calls() == 16, "calls", 16);
    assert_bytes(&rt, &now(&rt, rt.alloc(), &disk), &TAKEN_OVER);
    assert_left(&rt, rt.alloc(), &disk);
}
