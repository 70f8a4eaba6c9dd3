//! Nights, by tables: how the tasks end, and what is counted.

use crate::asserts::holds_at;
use crate::crew_stores::{Task, assert_tasks, opened, stored};
use crate::crews::{Fixed, NightEnd, plain_night};
use run_crew::Strayed;
use run_disk::RunDisk;
use std::alloc::Global;
use std::process::Abort;
use std::sync::Wait;
use std::thread::Threads;
use test_fixtures::Going;

/// A night: the group's limit, its tasks, how many workers there are and whether the gate lets
/// turns pass; what the audit says, what is settled, the last event; and how the tasks are then.
struct Row {
    limit: Option<u8>,
    tasks: &'static [Task],
    workers: usize,
    open: bool,
    audited: Result<(), Strayed>,
    settled: (u64, u64),
    acked: u64,
    ends: &'static [Going<'static>],
}

/// Three turns more.
const SPIN: Task = (b"spin", b"3");

static ROWS: [Row; 8] = [
    Row {
        limit: None,
        tasks: &[SPIN; 64],
        workers: 4,
        open: true,
        audited: Ok(()),
        settled: (64, 64),
        acked: 195,
        ends: &[Going::Success; 64],
    },
    // The first error cancels the group's scope, and the second task is told so.
    Row {
        limit: Some(1),
        tasks: &[(b"fail", b"x"), (b"spin", b"3")],
        workers: 1,
        open: true,
        audited: Ok(()),
        settled: (2, 2),
        acked: 10,
        ends: &[Going::Failure(b"x"), Going::Failure(b"canceled")],
    },
    Row {
        limit: None,
        tasks: &[(b"dig", b"a"), (b"copy", b"b")],
        workers: 1,
        open: true,
        audited: Ok(()),
        settled: (2, 2),
        acked: 9,
        ends: &[Going::Failure(b"no such job"), Going::Success],
    },
    Row {
        limit: None,
        tasks: &[(b"more", b"a")],
        workers: 2,
        open: true,
        audited: Ok(()),
        settled: (1, 1),
        acked: 6,
        ends: &[Going::Failure(b"turn limit")],
    },
    Row {
        limit: None,
        tasks: &[(b"copy", b"a")],
        workers: 1,
        open: false,
        audited: Ok(()),
        settled: (1, 1),
        acked: 6,
        ends: &[Going::Failure(b"gate")],
    },
    Row {
        limit: None,
        tasks: &[],
        workers: 2,
        open: true,
        audited: Ok(()),
        settled: (0, 0),
        acked: 3,
        ends: &[],
    },
    // Nothing is admitted, so nothing is left that a worker could have started.
    Row {
        limit: Some(0),
        tasks: &[(b"copy", b"a")],
        workers: 1,
        open: true,
        audited: Ok(()),
        settled: (0, 0),
        acked: 5,
        ends: &[Going::Held],
    },
    // Nobody works, and task 0 is left.
    Row {
        limit: None,
        tasks: &[(b"copy", b"a")],
        workers: 0,
        open: true,
        audited: Err(Strayed { worker: 0, note: 1 }),
        settled: (0, 0),
        acked: 4,
        ends: &[Going::Ready],
    },
];

/// Says whether a night is audited, settled and counted as its row says.
fn is_as_reported<D: RunDisk>(night: &NightEnd<D>, row: &Row) -> bool {
    night.audited == row.audited
        && night.last == Ok(row.acked)
        && night.settled == row.settled
        && night.lists.len() == row.workers
        && night.book.durable() == row.acked
}

fn assert_night<R: Threads + Wait + Sync + Abort>(rt: &R, alloc: Global, n: usize, row: &Row) {
    let book = opened(rt, alloc, stored(rt, alloc, row.limit, row.tasks));
    let night = plain_night(rt, alloc, book, row.workers, &Fixed(row.open));
    holds_at(rt, is_as_reported(&night, row), "row", n as u64);
    assert_tasks(rt, night.book.state(), row.ends);
    drop(night);
}

#[test]
fn nights_end_as_their_rows_say(rt: HostRuntime) {
    for (n, row) in ROWS.iter().enumerate() {
        assert_night(&rt, rt.alloc(), n, row);
    }
}
