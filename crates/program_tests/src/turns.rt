//! Which job makes a task's turns, how many it makes, and what each is told of the scope.

use crate::asserts::{done, holds_at};
use crate::crew_stores::{Task, assert_tasks, book_of, opened, stored, with_a_cancelled_group};
use crate::crews::{Fixed, NightEnd, night, plain_night};
use crate::gates::is_set_in_time;
use run_crew::{Gate, Job, Note, Turn};
use run_disk::{FailOnce, MemoryDisk};
use run_model::{Name, Outcome, TaskInfo, Text};
use std::alloc::Global;
use std::process::Abort;
use std::sync::atomic::{AtomicBool, AtomicU32, Ordering};
use std::sync::{Arc, Wait};
use std::thread::Threads;
use std::time::Clock;
use test_fixtures::Going;

fn failed(error: &[u8]) -> Turn {
    Text::read(error).map_or(Turn::More, |error| Turn::Failed(error))
}

/// Does the jobs of this name: wants so many turns more, and then ends with this error, or without
/// one where it has no bytes.
#[derive(Drop)]
struct Says(&'static [u8], u32, &'static [u8]);

impl Job for Says {
    fn handles(&self, job: &Name) -> bool {
        job.as_bytes() == self.0
    }

    fn turn(&mut self, _info: &TaskInfo, turn: u32, _done: bool) -> Turn {
        if turn < self.1 {
            Turn::More
        } else if self.2.is_empty() {
            Turn::Finished
        } else {
            failed(self.2)
        }
    }
}

/// The jobs of a worker, from what each of them says.
fn list_of(rt: &impl Abort, alloc: Global, rows: &[Says]) -> Vec<Box<dyn Job + Send>> {
    let mut list: Vec<Box<dyn Job + Send>> = Vec::new(alloc);
    for says in rows.iter() {
        let job = done(rt, Box::new(alloc, Says(says.0, says.1, says.2)), "memory");
        done(rt, list.push(job), "memory");
    }
    list
}

/// The lists of jobs of a night, from what each of them says.
fn lists_of(
    rt: &impl Abort,
    alloc: Global,
    rows: &[&'static [Says]],
) -> Vec<Vec<Box<dyn Job + Send>>> {
    let mut lists: Vec<Vec<Box<dyn Job + Send>>> = Vec::new(alloc);
    for row in rows.iter() {
        done(rt, lists.push(list_of(rt, alloc, row)), "memory");
    }
    lists
}

/// The night over tasks, with a worker for each list of what its jobs say.
fn night_of<R: Threads + Wait + Sync + Abort>(
    rt: &R,
    alloc: Global,
    tasks: &[Task],
    rows: &[&'static [Says]],
) -> NightEnd<MemoryDisk> {
    let jobs = lists_of(rt, alloc, rows);
    let book = book_of(rt, alloc, tasks);
    night(rt, alloc, book, jobs, &Fixed(true))
}

static TWO_OF_A_NAME: [Says; 3] = [
    Says(b"b", 0, b"other"),
    Says(b"a", 0, b"first"),
    Says(b"a", 0, b"second"),
];

#[test]
fn the_first_job_that_handles_a_name_is_taken(rt: HostRuntime) {
    let night = night_of(
        &rt,
        rt.alloc(),
        &[(b"a", b"x")],
        &[TWO_OF_A_NAME.as_slice()],
    );
    assert_tasks(&rt, night.book.state(), &[Going::Failure(b"first")]);
    drop(night);
}

static LONG: [Says; 2] = [Says(b"a", 999, b""), Says(b"b", 1_000, b"")];

/// The last turn that a task has is turn 999.
static TURNS: [(Task, Going<'static>); 2] = [
    ((b"a", b"x"), Going::Success),
    ((b"b", b"x"), Going::Failure(b"turn limit")),
];

#[test]
fn a_task_has_a_thousand_turns(rt: HostRuntime) {
    for row in TURNS.iter() {
        let night = night_of(&rt, rt.alloc(), &[row.0], &[LONG.as_slice()]);
        assert_tasks(&rt, night.book.state(), &[row.1]);
        drop(night);
    }
}

static ONLY_A: [Says; 1] = [Says(b"a", 0, b"")];

static ONLY_B: [Says; 1] = [Says(b"b", 0, b"")];

/// Asserts of the notes of one list that just the tasks of this parity ended without an error.
fn assert_notes(rt: &impl Abort, list: usize, notes: &[Note], parity: u16) {
    for note in notes.iter() {
        let own = note.task % 2 == parity;
        let done = note.outcome == Outcome::Success;
        assert!(rt; done == own, "task {} in list {list}", note.task);
    }
}

// Who takes a task is left to the threads, but what becomes of it tells whose notes these are.
#[test]
fn notes_stand_in_the_order_of_the_lists(rt: HostRuntime) {
    let tasks: [Task; 4] = [(b"a", b"x"), (b"b", b"x"), (b"a", b"x"), (b"b", b"x")];
    let night = night_of(
        &rt,
        rt.alloc(),
        &tasks,
        &[ONLY_A.as_slice(), ONLY_B.as_slice()],
    );
    holds_at(&rt, night.settled == (4, 4), "counts", 4);
    for (list, notes) in night.lists.iter().enumerate() {
        assert_notes(&rt, list, notes.as_slice(), (list % 2) as u16);
    }
    drop(night);
}

/// Counts its turns.
#[derive(Drop)]
struct Counts {
    turns: Arc<AtomicU32>,
}

impl Job for Counts {
    fn handles(&self, _job: &Name) -> bool {
        true
    }

    fn turn(&mut self, _info: &TaskInfo, _turn: u32, _done: bool) -> Turn {
        self.turns.fetch_add(1, Ordering::SeqCst);
        Turn::Finished
    }
}

/// The job of one worker that counts its turns.
fn counting(
    rt: &impl Abort,
    alloc: Global,
    turns: &Arc<AtomicU32>,
) -> Vec<Vec<Box<dyn Job + Send>>> {
    let job = Counts {
        turns: done(rt, Arc::try_clone(turns), "count"),
    };
    let job = done(rt, Box::new(alloc, job), "memory");
    let mut list: Vec<Box<dyn Job + Send>> = Vec::new(alloc);
    done(rt, list.push(job), "memory");
    let mut jobs: Vec<Vec<Box<dyn Job + Send>>> = Vec::new(alloc);
    done(rt, jobs.push(list), "memory");
    jobs
}

/// How many turns one worker makes over a disk that fails at this call.
fn turns_made<R: Threads + Wait + Sync + Abort>(rt: &R, alloc: Global, call: u64) -> u32 {
    let turns = done(rt, Arc::new(alloc, AtomicU32::new(0)), "memory");
    let disk = FailOnce::new(stored(rt, alloc, None, &[(b"a", b"x")]), call);
    let jobs = counting(rt, alloc, &turns);
    drop(night(rt, alloc, opened(rt, alloc, disk), jobs, &Fixed(true)));
    turns.load(Ordering::SeqCst)
}

// The opening makes ten calls, and the flush of the first start the six after them.
#[test]
fn no_turn_is_made_where_the_flush_of_the_start_fails(rt: HostRuntime) {
    for call in 11..=17_u64 {
        let turns = turns_made(&rt, rt.alloc(), call);
        let wanted = if call < 17 { 0 } else { 1 };
        holds_at(&rt, turns == wanted, "turns at call", call);
    }
}

/// Lets task 1 begin once task 0 has made a turn, and task 0 go on once task 1 was finished.
#[derive(Drop)]
struct Cancels<C: Clock + Drop> {
    clock: C,
    begun: AtomicBool,
    finished: AtomicBool,
}

impl<C: Clock + Drop> Gate for Cancels<C> {
    fn before(&self, task: u16, turn: u32) -> bool {
        match (task, turn) {
            (0, 1) => {
                self.begun.store(true, Ordering::SeqCst);
                is_set_in_time(&self.clock, &self.finished)
            }
            (1, 0) => is_set_in_time(&self.clock, &self.begun),
            _ => true,
        }
    }

    fn finished(&self, task: u16) {
        if task == 1 {
            self.finished.store(true, Ordering::SeqCst);
        }
    }
}

#[test]
fn a_turn_is_reported_that_another_task_failed(rt: HostRuntime) {
    let gate = Cancels {
        clock: rt,
        begun: AtomicBool::new(false),
        finished: AtomicBool::new(false),
    };
    let book = book_of(&rt, rt.alloc(), &[(b"spin", b"3"), (b"fail", b"x")]);
    let night = plain_night(&rt, rt.alloc(), book, 2, &gate);
    let ends = [Going::Failure(b"canceled"), Going::Failure(b"x")];
    assert_tasks(&rt, night.book.state(), &ends);
    drop(night);
}

/// Adds up, over the tasks that are told that their scope is done, 1 for task 0 and 2 for task 1.
#[derive(Drop)]
struct Hears {
    reported: Arc<AtomicU32>,
}

impl Job for Hears {
    fn handles(&self, _job: &Name) -> bool {
        true
    }

    fn turn(&mut self, info: &TaskInfo, _turn: u32, done: bool) -> Turn {
        if done {
            self.reported
                .fetch_add(u32::from(info.task) + 1, Ordering::SeqCst);
        }
        Turn::Finished
    }
}

/// The job of one worker that hears of scopes that are done.
fn hearing(
    rt: &impl Abort,
    alloc: Global,
    reported: &Arc<AtomicU32>,
) -> Vec<Vec<Box<dyn Job + Send>>> {
    let job = Hears {
        reported: done(rt, Arc::try_clone(reported), "count"),
    };
    let job = done(rt, Box::new(alloc, job), "memory");
    let mut list: Vec<Box<dyn Job + Send>> = Vec::new(alloc);
    done(rt, list.push(job), "memory");
    let mut jobs: Vec<Vec<Box<dyn Job + Send>>> = Vec::new(alloc);
    done(rt, jobs.push(list), "memory");
    jobs
}

#[test]
fn a_turn_is_reported_of_its_own_scope(rt: HostRuntime) {
    let reported = done(&rt, Arc::new(rt.alloc(), AtomicU32::new(0)), "memory");
    let jobs = hearing(&rt, rt.alloc(), &reported);
    let book = opened(&rt, rt.alloc(), with_a_cancelled_group(&rt, rt.alloc()));
    let night = night(&rt, rt.alloc(), book, jobs, &Fixed(true));
    assert_tasks(&rt, night.book.state(), &[Going::Success, Going::Success]);
    drop(night);
    let reported = reported.load(Ordering::SeqCst);
    holds_at(&rt, reported == 2, "told", u64::from(reported));
}
