//! A night over a book, with jobs for tests; and what it leaves.

ghost use Rattle.std.specs.Prelude.{◌≡◌, ◌<◌, vec_len};

use crate::asserts::done;
use run_book::Book;
use run_crew::{Desk, Gate, Job, Strayed, Turn, WorkerNotes, audit, run_night};
use run_disk::RunDisk;
use run_model::{Name, TaskInfo, Text, Trouble};
use std::alloc::Global;
use std::marker::Brand;
use std::process::Abort;
use std::sync::ledger::{Blank, Ledger};
use std::sync::{Mutex, Wait};
use std::thread::Threads;

/// What a night leaves.
#[derive(Drop)]
pub struct NightEnd<D: RunDisk> {
    pub book: Book<D>,
    pub lists: Vec<WorkerNotes>,
    pub last: Result<u64, Trouble>,
    pub audited: Result<(), Strayed>,
    /// What the desk settled: starts and finishes.
    pub settled: (u64, u64),
}

/// A night over a book, with one worker for each list of jobs.
pub fn night<D: RunDisk + Drop + Send, G: Gate + Sync, R: Threads + Wait + Sync + Abort>(
    rt: &R,
    alloc: Global,
    book: Book<D>,
    jobs: Vec<Vec<Box<dyn Job + Send>>>,
    gate: &G,
) -> NightEnd<D> {
    let parts = jobs.len() as u64 + 1;
    night_in::<D, Brand, Brand, G, R>(
        rt,
        alloc,
        book,
        jobs,
        gate,
        Blank::new(parts),
        Blank::new(parts),
    )
}

/// The night, for any two ledgers.
fn night_in<
    D: RunDisk + Drop + Send,
    S: Ledger + Send + Sync,
    F: Ledger + Send + Sync,
    G: Gate + Sync,
    R: Threads + Wait + Sync + Abort,
>(
    rt: &R,
    alloc: Global,
    book: Book<D>,
    jobs: Vec<Vec<Box<dyn Job + Send>>>,
    gate: &G,
    starts: Blank,
    finishes: Blank,
) -> NightEnd<D>
    requires starts { (starts.name ≡ S.name) × (starts.parts ≡ S.parts)
        × (vec_len jobs < S.parts) }
    requires finishes { (finishes.name ≡ F.name) × (finishes.parts ≡ F.parts)
        × (vec_len jobs < F.parts) }
{
    let (desk, mut own) = Desk::<D, S, F>::new(book, starts, finishes);
    let shared = Mutex::new(desk);
    let Ok((lists, last)) = run_night(rt, alloc, &shared, &mut own, jobs, gate) else {
        panic!(rt; "no night");
    };
    let mut desk = shared.into_inner();
    let audited = audit(&desk, lists.as_slice());
    let settled = desk.settle(&mut own);
    NightEnd {
        book: desk.into_book(),
        lists,
        last,
        audited,
        settled,
    }
}

/// A gate that lets each turn pass, or none.
#[derive(Drop)]
pub struct Fixed(pub bool);

impl Gate for Fixed {
    fn before(&self, _task: u16, _turn: u32) -> bool {
        self.0
    }

    fn finished(&self, _task: u16) {}
}

/// Does the job `spin` in as many turns more as its argument says, one digit, unless it is told
/// that its scope is done; `fail` with its argument as the error; `copy` at once; and `more`
/// without an end.
#[derive(Drop)]
pub struct Plain;

impl Job for Plain {
    fn handles(&self, job: &Name) -> bool {
        let job = job.as_bytes();
        job == b"spin".as_slice()
            || job == b"fail".as_slice()
            || job == b"copy".as_slice()
            || job == b"more".as_slice()
    }

    fn turn(&mut self, info: &TaskInfo, turn: u32, done: bool) -> Turn {
        let job = info.job.as_bytes();
        let argument = info.argument.as_bytes();
        if job == b"copy".as_slice() {
            Turn::Finished
        } else if job == b"more".as_slice() {
            Turn::More
        } else if job == b"fail".as_slice() {
            failed(argument)
        } else {
            spin(argument, turn, done)
        }
    }
}

fn spin(argument: &[u8], turn: u32, done: bool) -> Turn {
    if done {
        return failed(b"canceled");
    }
    match argument.first() {
        Some(digit) if turn < u32::from(digit.saturating_sub(b'0')) => Turn::More,
        _ => Turn::Finished,
    }
}

fn failed(error: &[u8]) -> Turn {
    match Text::read(error) {
        Some(error) => Turn::Failed(error),
        None => Turn::More,
    }
}

/// The list of one plain job.
pub fn plain_list(rt: &impl Abort, alloc: Global) -> Vec<Box<dyn Job + Send>> {
    let mut list: Vec<Box<dyn Job + Send>> = Vec::new(alloc);
    let job = done(rt, Box::new(alloc, Plain), "memory");
    done(rt, list.push(job), "memory");
    list
}

/// A list of one plain job for each worker.
pub fn plain_jobs(rt: &impl Abort, alloc: Global, workers: usize) -> Vec<Vec<Box<dyn Job + Send>>> {
    let mut jobs: Vec<Vec<Box<dyn Job + Send>>> = Vec::new(alloc);
    for _ in 0..workers {
        done(rt, jobs.push(plain_list(rt, alloc)), "memory");
    }
    jobs
}

/// A night over a book, with this many workers that have a plain job each.
pub fn plain_night<D: RunDisk + Drop + Send, G: Gate + Sync, R: Threads + Wait + Sync + Abort>(
    rt: &R,
    alloc: Global,
    book: Book<D>,
    workers: usize,
    gate: &G,
) -> NightEnd<D> {
    night(rt, alloc, book, plain_jobs(rt, alloc, workers), gate)
}
