//! A disk that is slow in a sync, and a task that ends during it.

ghost use Rattle.std.specs.Prelude.{◌≡◌, ◌<◌, vec_len};

use crate::asserts::{done, holds_at};
use crate::crew_stores::{Task, opened, stored};
use crate::gates::is_set_in_time;
use crate::locks::{Acknowledges, is_durable_in_time};
use run_book::Book;
use run_crew::{Desk, Gate, Job, Turn, run_night};
use run_disk::{DiskFailed, MemoryDisk, RunDisk};
use run_model::{Name, TaskInfo};
use std::alloc::Global;
use std::marker::Brand;
use std::process::Abort;
use std::sync::atomic::{AtomicBool, Ordering};
use std::sync::ledger::{Blank, Ledger};
use std::sync::{Arc, Mutex, Wait};
use std::thread::Threads;
use std::time::Clock;

/// How far a night has come.
#[derive(Drop)]
struct Marks {
    /// Task 1 is in its turn.
    begun: AtomicBool,
    /// Task 0 has made its turn: the next sync is slow.
    slow: AtomicBool,
    /// That sync has begun.
    syncing: AtomicBool,
    /// Task 1 has made its turn.
    made: AtomicBool,
}

/// Makes a sync slow: it waits until task 1 has made its turn, ten seconds at most.
#[derive(Drop)]
struct SlowDisk<D: RunDisk, C: Clock + Drop> {
    disk: D,
    clock: C,
    marks: Arc<Marks>,
}

impl<D: RunDisk, C: Clock + Drop> RunDisk for SlowDisk<D, C> {
    ghost state = { λ s. D.state s.disk };

    ghost is_disk = { λ s. D.is_disk s.disk };

    fn size(&self) -> u64 {
        self.disk.size()
    }

    fn read_at(&mut self, at: u64, out: &mut [u8]) -> Result<(), DiskFailed> {
        self.disk.read_at(at, out)
    }

    fn write_at(&mut self, at: u64, bytes: &[u8]) -> Result<(), DiskFailed> {
        self.disk.write_at(at, bytes)
    }

    fn sync(&mut self) -> Result<(), DiskFailed> {
        if self.marks.slow.load(Ordering::SeqCst) {
            self.marks.syncing.store(true, Ordering::SeqCst);
            let _ = is_set_in_time(&self.clock, &self.marks.made);
        }
        self.disk.sync()
    }
}

/// Ends task 0 once task 1 is in its turn, and that one once a sync is slow.
#[derive(Drop)]
struct Meanwhile<C: Clock + Drop> {
    clock: C,
    marks: Arc<Marks>,
}

impl<C: Clock + Drop> Job for Meanwhile<C> {
    fn handles(&self, _job: &Name) -> bool {
        true
    }

    fn turn(&mut self, info: &TaskInfo, _turn: u32, _done: bool) -> Turn {
        if info.task == 0 {
            let _ = is_set_in_time(&self.clock, &self.marks.begun);
            self.marks.slow.store(true, Ordering::SeqCst);
        } else if info.task == 1 {
            self.marks.begun.store(true, Ordering::SeqCst);
            let _ = is_set_in_time(&self.clock, &self.marks.syncing);
            self.marks.made.store(true, Ordering::SeqCst);
        }
        Turn::Finished
    }
}

/// Lets task 0 begin once task 2 has begun, and that one go on once both finishes are durable.
#[derive(Drop)]
struct Both<'a, T: Acknowledges, R: Wait + Clock> {
    rt: &'a R,
    shared: &'a Mutex<T>,
    finish: u64,
    begun: AtomicBool,
    seen: AtomicBool,
}

impl<'a, T: Acknowledges, R: Wait + Clock> Gate for Both<'a, T, R> {
    fn before(&self, task: u16, _turn: u32) -> bool {
        match task {
            0 => is_set_in_time(self.rt, &self.begun),
            2 => {
                self.begun.store(true, Ordering::SeqCst);
                is_durable_in_time(self.rt, self.shared, self.finish, &self.seen)
            }
            _ => true,
        }
    }

    fn finished(&self, _task: u16) {}
}

/// The jobs of three workers.
fn jobs_of(
    rt: &impl Abort,
    alloc: Global,
    clock: HostRuntime,
    marks: &Arc<Marks>,
) -> Vec<Vec<Box<dyn Job + Send>>> {
    let mut jobs: Vec<Vec<Box<dyn Job + Send>>> = Vec::new(alloc);
    for _ in 0..3 {
        let job = Meanwhile {
            clock,
            marks: done(rt, Arc::try_clone(marks), "count"),
        };
        let job = done(rt, Box::new(alloc, job), "memory");
        let mut list: Vec<Box<dyn Job + Send>> = Vec::new(alloc);
        done(rt, list.push(job), "memory");
        done(rt, jobs.push(list), "memory");
    }
    jobs
}

/// Says whether task 2 saw both finishes durable.
fn slow_night<
    D: RunDisk + Drop + Send,
    S: Ledger + Send + Sync,
    F: Ledger + Send + Sync,
    R: Threads + Wait + Clock + Sync + Abort,
>(
    rt: &R,
    alloc: Global,
    book: Book<D>,
    jobs: Vec<Vec<Box<dyn Job + Send>>>,
    starts: Blank,
    finishes: Blank,
) -> bool
    requires starts { (starts.name ≡ S.name) × (starts.parts ≡ S.parts)
        × (vec_len jobs < S.parts) }
    requires finishes { (finishes.name ≡ F.name) × (finishes.parts ≡ F.parts)
        × (vec_len jobs < F.parts) }
{
    // After three starts and the first finish.
    let finish = book.durable().saturating_add(5);
    let (desk, mut own) = Desk::<D, S, F>::new(book, starts, finishes);
    let shared = Mutex::new(desk);
    let gate = Both {
        rt,
        shared: &shared,
        finish,
        begun: AtomicBool::new(false),
        seen: AtomicBool::new(false),
    };
    let ran = run_night(rt, alloc, &shared, &mut own, jobs, &gate).is_ok();
    holds_at(rt, ran, "night", 1);
    gate.seen.load(Ordering::SeqCst)
}

/// The disk of a store of three tasks, which is slow once they say so.
fn slow_disk(
    rt: &impl Abort,
    alloc: Global,
    clock: HostRuntime,
    marks: &Arc<Marks>,
) -> SlowDisk<MemoryDisk, HostRuntime> {
    let tasks: [Task; 3] = [(b"a", b"x"); 3];
    SlowDisk {
        disk: stored(rt, alloc, None, &tasks),
        clock,
        marks: done(rt, Arc::try_clone(marks), "count"),
    }
}

/// No mark is set.
fn marks_of(rt: &impl Abort, alloc: Global) -> Arc<Marks> {
    let marks = Marks {
        begun: AtomicBool::new(false),
        slow: AtomicBool::new(false),
        syncing: AtomicBool::new(false),
        made: AtomicBool::new(false),
    };
    done(rt, Arc::new(alloc, marks), "memory")
}

// The turn of task 1 is over before the sync is, so its worker waits for the lock to finish it, and
// wakes the flusher just after the flush that the first call was for. Nobody else flushes before
// task 2 goes on.
#[test]
fn a_finish_after_a_slow_sync_becomes_durable(rt: HostRuntime) {
    let marks = marks_of(&rt, rt.alloc());
    let jobs = jobs_of(&rt, rt.alloc(), rt, &marks);
    let parts = jobs.len() as u64 + 1;
    let seen = slow_night::<SlowDisk<MemoryDisk, HostRuntime>, Brand, Brand, HostRuntime>(
        &rt,
        rt.alloc(),
        opened(&rt, rt.alloc(), slow_disk(&rt, rt.alloc(), rt, &marks)),
        jobs,
        Blank::new(parts),
        Blank::new(parts),
    );
    holds_at(&rt, marks.syncing.load(Ordering::SeqCst), "a slow sync", 1);
    holds_at(&rt, seen, "durable finishes", 2);
}
