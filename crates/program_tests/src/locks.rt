//! Gates that take the lock, and so see what is durable while the workers run, and what has ended
//! when they are told of it.

ghost use Rattle.std.specs.Prelude.{◌≡◌, ◌<◌, vec_len};

use crate::asserts::holds_at;
use crate::crew_stores::{Task, book_of};
use crate::crews::plain_jobs;
use crate::gates::is_set_in_time;
use run_book::Book;
use run_crew::{Desk, Gate, Job, run_night};
use run_disk::{MemoryDisk, RunDisk};
use run_model::Phase;
use std::alloc::Global;
use std::marker::Brand;
use std::process::Abort;
use std::sync::atomic::{AtomicBool, AtomicU32, Ordering};
use std::sync::ledger::{Blank, Ledger};
use std::sync::{Mutex, Wait};
use std::thread;
use std::thread::Threads;
use std::time::{Clock, Duration};

/// What tells how many events are durable.
pub trait Acknowledges {
    fn durable(&self) -> u64;
}

impl<D: RunDisk, S: Ledger, F: Ledger> Acknowledges for Desk<D, S, F> {
    fn durable(&self) -> u64 {
        self.book().durable()
    }
}

/// Takes the lock before the first turn of a task, and counts the tasks whose start it finds
/// durable: of the tasks of one worker, task n is started by event 2 * n after the first start.
#[derive(Drop)]
struct Durable<'a, T: Acknowledges, R: Wait> {
    rt: &'a R,
    shared: &'a Mutex<T>,
    first: u64,
    found: AtomicU32,
}

impl<'a, T: Acknowledges, R: Wait> Gate for Durable<'a, T, R> {
    fn before(&self, task: u16, turn: u32) -> bool {
        let start = self.first.saturating_add(2 * u64::from(task));
        if turn == 0 && start <= self.shared.lock(self.rt).durable() {
            self.found.fetch_add(1, Ordering::SeqCst);
        }
        true
    }

    fn finished(&self, _task: u16) {}
}

/// How many starts of a book are durable before their first turns, under one worker.
fn durable_starts<
    D: RunDisk + Drop + Send,
    S: Ledger + Send + Sync,
    F: Ledger + Send + Sync,
    R: Threads + Wait + Sync + Abort,
>(
    rt: &R,
    alloc: Global,
    book: Book<D>,
    jobs: Vec<Vec<Box<dyn Job + Send>>>,
    starts: Blank,
    finishes: Blank,
) -> u32
    requires starts { (starts.name ≡ S.name) × (starts.parts ≡ S.parts)
        × (vec_len jobs < S.parts) }
    requires finishes { (finishes.name ≡ F.name) × (finishes.parts ≡ F.parts)
        × (vec_len jobs < F.parts) }
{
    let first = book.durable().saturating_add(1);
    let (desk, mut own) = Desk::<D, S, F>::new(book, starts, finishes);
    let shared = Mutex::new(desk);
    let gate = Durable {
        rt,
        shared: &shared,
        first,
        found: AtomicU32::new(0),
    };
    let ran = run_night(rt, alloc, &shared, &mut own, jobs, &gate).is_ok();
    holds_at(rt, ran, "night", 1);
    gate.found.load(Ordering::SeqCst)
}

#[test]
fn each_start_is_durable_before_its_first_turn(rt: HostRuntime) {
    let tasks: [Task; 3] = [(b"spin", b"2"); 3];
    let jobs = plain_jobs(&rt, rt.alloc(), 1);
    let parts = jobs.len() as u64 + 1;
    let found = durable_starts::<MemoryDisk, Brand, Brand, HostRuntime>(
        &rt,
        rt.alloc(),
        book_of(&rt, rt.alloc(), &tasks),
        jobs,
        Blank::new(parts),
        Blank::new(parts),
    );
    holds_at(&rt, found == 3, "starts", u64::from(found));
}

/// Lets task 0 begin once task 1 has begun, and task 1 go on once the finish of task 0 is durable.
/// Nobody else flushes in between, so a flush has to be asked for when a task is finished.
#[derive(Drop)]
struct Flushed<'a, T: Acknowledges, R: Wait + Clock> {
    rt: &'a R,
    shared: &'a Mutex<T>,
    finish: u64,
    begun: AtomicBool,
    seen: AtomicBool,
}

/// Looks until this event is durable, 10,000 times at most, a millisecond apart, and then sets the
/// flag.
pub fn is_durable_in_time<T: Acknowledges, R: Wait + Clock>(
    rt: &R,
    shared: &Mutex<T>,
    event: u64,
    seen: &AtomicBool,
) -> bool {
    for _ in 0..10_000 {
        if event <= shared.lock(rt).durable() {
            seen.store(true, Ordering::SeqCst);
            return true;
        }
        thread::sleep(rt, Duration::from_millis(1));
    }
    false
}

impl<'a, T: Acknowledges, R: Wait + Clock> Gate for Flushed<'a, T, R> {
    fn before(&self, task: u16, turn: u32) -> bool {
        match (task, turn) {
            (0, 0) => is_set_in_time(self.rt, &self.begun),
            (1, 0) => {
                self.begun.store(true, Ordering::SeqCst);
                true
            }
            (1, 1) => is_durable_in_time(self.rt, self.shared, self.finish, &self.seen),
            _ => true,
        }
    }

    fn finished(&self, _task: u16) {}
}

/// Says whether a night of two workers under that gate saw it durable.
fn flushed_night<
    D: RunDisk + Drop + Send,
    S: Ledger + Send + Sync,
    F: Ledger + Send + Sync,
    R: Threads + Wait + Clock + Sync + Abort,
>(
    rt: &R,
    alloc: Global,
    book: Book<D>,
    jobs: Vec<Vec<Box<dyn Job + Send>>>,
    starts: Blank,
    finishes: Blank,
) -> bool
    requires starts { (starts.name ≡ S.name) × (starts.parts ≡ S.parts)
        × (vec_len jobs < S.parts) }
    requires finishes { (finishes.name ≡ F.name) × (finishes.parts ≡ F.parts)
        × (vec_len jobs < F.parts) }
{
    // After two starts.
    let finish = book.durable().saturating_add(3);
    let (desk, mut own) = Desk::<D, S, F>::new(book, starts, finishes);
    let shared = Mutex::new(desk);
    let gate = Flushed {
        rt,
        shared: &shared,
        finish,
        begun: AtomicBool::new(false),
        seen: AtomicBool::new(false),
    };
    let ran = run_night(rt, alloc, &shared, &mut own, jobs, &gate).is_ok();
    holds_at(rt, ran, "night", 1);
    gate.seen.load(Ordering::SeqCst)
}

#[test]
fn a_finish_is_flushed_while_another_task_runs(rt: HostRuntime) {
    let tasks: [Task; 2] = [(b"copy", b"a"), (b"spin", b"1")];
    let jobs = plain_jobs(&rt, rt.alloc(), 2);
    let parts = jobs.len() as u64 + 1;
    let seen = flushed_night::<MemoryDisk, Brand, Brand, HostRuntime>(
        &rt,
        rt.alloc(),
        book_of(&rt, rt.alloc(), &tasks),
        jobs,
        Blank::new(parts),
        Blank::new(parts),
    );
    holds_at(&rt, seen, "a durable finish", 1);
}

/// What shows whether a task ended without an error.
trait Shows {
    fn is_success(&self, task: u16) -> bool;
}

impl<D: RunDisk, S: Ledger, F: Ledger> Shows for Desk<D, S, F> {
    fn is_success(&self, task: u16) -> bool {
        matches!(self.book().state().phase(task), Some(Phase::Success))
    }
}

/// Takes the lock when it is told of a finish, and counts the tasks that it finds ended. It looks
/// for the lock 10,000 times at most, a millisecond apart: told under the lock it would never get
/// it.
#[derive(Drop)]
struct Reported<'a, T: Shows, R: Wait + Clock> {
    rt: &'a R,
    shared: &'a Mutex<T>,
    found: AtomicU32,
}

impl<'a, T: Shows, R: Wait + Clock> Gate for Reported<'a, T, R> {
    fn before(&self, _task: u16, _turn: u32) -> bool {
        true
    }

    fn finished(&self, task: u16) {
        for _ in 0..10_000 {
            if let Some(desk) = self.shared.try_lock() {
                if desk.is_success(task) {
                    self.found.fetch_add(1, Ordering::SeqCst);
                }
                return;
            }
            thread::sleep(self.rt, Duration::from_millis(1));
        }
    }
}

/// How many tasks of a night of one worker have ended when the gate is told of them.
fn ended_when_reported<
    D: RunDisk + Drop + Send,
    S: Ledger + Send + Sync,
    F: Ledger + Send + Sync,
    R: Threads + Wait + Clock + Sync + Abort,
>(
    rt: &R,
    alloc: Global,
    book: Book<D>,
    jobs: Vec<Vec<Box<dyn Job + Send>>>,
    starts: Blank,
    finishes: Blank,
) -> u32
    requires starts { (starts.name ≡ S.name) × (starts.parts ≡ S.parts)
        × (vec_len jobs < S.parts) }
    requires finishes { (finishes.name ≡ F.name) × (finishes.parts ≡ F.parts)
        × (vec_len jobs < F.parts) }
{
    let (desk, mut own) = Desk::<D, S, F>::new(book, starts, finishes);
    let shared = Mutex::new(desk);
    let gate = Reported {
        rt,
        shared: &shared,
        found: AtomicU32::new(0),
    };
    let ran = run_night(rt, alloc, &shared, &mut own, jobs, &gate).is_ok();
    holds_at(rt, ran, "night", 1);
    gate.found.load(Ordering::SeqCst)
}

#[test]
fn a_gate_is_reported_after_the_lock(rt: HostRuntime) {
    let tasks: [Task; 2] = [(b"copy", b"a"); 2];
    let jobs = plain_jobs(&rt, rt.alloc(), 1);
    let parts = jobs.len() as u64 + 1;
    let found = ended_when_reported::<MemoryDisk, Brand, Brand, HostRuntime>(
        &rt,
        rt.alloc(),
        book_of(&rt, rt.alloc(), &tasks),
        jobs,
        Blank::new(parts),
        Blank::new(parts),
    );
    holds_at(&rt, found == 2, "finishes", u64::from(found));
}
