//! Nights of workers over stores: what is printed of each, and what is left.

use crate::asserts::{done, holds};
use crate::books::{formatted, image};
use crate::parts::{Part, whole};
use crate::runs::night_on;
use crate::writers::{End, EndingWriter};
use run_console::RunFault;
use run_crew::{Gate, Job, Turn, crew};
use run_disk::{FailOnce, FileDisk, MemoryDisk, RunDisk, Torn};
use run_model::{Fault, Layout, Name, TaskInfo, Text, Trouble};
use std::alloc::Global;
use std::fs;
use std::fs::File;
use std::io::Write;
use std::process::Abort;
use std::sync::Wait;
use std::thread::Threads;

/// Ends each task: `fail` by its argument, and every other in its third turn, or as `canceled` once
/// its scope is done.
#[derive(Drop)]
struct Plain;

impl Job for Plain {
    fn handles(&self, _job: &Name) -> bool {
        true
    }

    fn turn(&mut self, info: &TaskInfo, turn: u32, done: bool) -> Turn {
        let is_fail = info.job.as_bytes() == b"fail".as_slice();
        if !is_fail && !done && turn < 2 {
            return Turn::More;
        }
        let error = if is_fail {
            info.argument.as_bytes()
        } else {
            b"canceled"
        };
        match Text::read(error) {
            Some(error) if is_fail || done => Turn::Failed(error),
            _ => Turn::Finished,
        }
    }
}

/// Lets each turn pass, or none.
#[derive(Clone, Copy)]
struct Fixed(bool);

impl Gate for Fixed {
    fn before(&self, _task: u16, _turn: u32) -> bool {
        self.0
    }

    fn finished(&self, _task: u16) {}
}

/// What a night of this many workers over a disk answers, at this gate.
fn worked_at<D: RunDisk + Drop + Send, W: Write, R: Threads + Wait + Sync + Abort>(
    rt: &R,
    alloc: Global,
    disk: D,
    workers: usize,
    gate: &Fixed,
    output: &mut W,
) -> Result<bool, RunFault> {
    let mut jobs: Vec<Vec<Box<dyn Job + Send>>> = Vec::new(alloc);
    for _ in 0..workers {
        let mut list: Vec<Box<dyn Job + Send>> = Vec::new(alloc);
        let job = done(rt, Box::new(alloc, Plain), "memory");
        done(rt, list.push(job), "memory");
        done(rt, jobs.push(list), "memory");
    }
    crew(rt, alloc, disk, jobs, gate, output)
}

/// What it answers at an open gate.
fn worked<D: RunDisk + Drop + Send, W: Write, R: Threads + Wait + Sync + Abort>(
    rt: &R,
    alloc: Global,
    disk: D,
    workers: usize,
    output: &mut W,
) -> Result<bool, RunFault> {
    worked_at(rt, alloc, disk, workers, &Fixed(true), output)
}

/// The bytes of a small store over which these lines were run.
fn stored(rt: &impl Abort, alloc: Global, lines: &[u8]) -> Vec<u8> {
    let disk = formatted(rt, alloc, Layout::Small);
    let (_, disk) = night_on(rt, alloc, disk, lines);
    let bytes = image(rt, alloc, &disk, disk.calls(), Torn::Take);
    drop(disk);
    bytes
}

/// A disk with a small store over which these lines were run.
fn stored_disk(rt: &impl Abort, alloc: Global, lines: &[u8]) -> MemoryDisk {
    let bytes = stored(rt, alloc, lines);
    done(rt, MemoryDisk::from_bytes(alloc, bytes), "disk")
}

/// Lines of a night, how many workers come then and whether the gate is open to them, what they
/// print and what is answered; and lines after them, with their replies.
struct Row {
    lines: &'static [u8],
    workers: usize,
    open: bool,
    printed: &'static [u8],
    answer: Result<bool, RunFault>,
    asked: &'static [u8],
    replied: &'static [u8],
}

static ROWS: [Row; 6] = [
    // The first error cancels the group's scope.
    Row {
        lines: b"group g root\nlimit g 1\ngo g fail x\ngo g spin 3\n",
        workers: 1,
        open: true,
        printed: b"audit ok; starts 2; finishes 2\nacked 10\n",
        answer: Ok(true),
        asked: b"task 0\ntask 1\nresult g\n",
        replied: b"task 0 error x\n\
                   task 1 error canceled\n\
                   unfinished 0; limit 1; waited no; error x\n\
                   acked 11\n",
    },
    Row {
        lines: b"bare g root\ngo g spin 3\ngo g spin 3\ngo g spin 3\n",
        workers: 8,
        open: true,
        printed: b"audit ok; starts 3; finishes 3\nacked 12\n",
        answer: Ok(true),
        asked: b"task 0\ntask 1\ntask 2\n",
        replied: b"task 0 success\ntask 1 success\ntask 2 success\nacked 13\n",
    },
    Row {
        lines: b"",
        workers: 2,
        open: true,
        printed: b"audit ok; starts 0; finishes 0\nacked 2\n",
        answer: Ok(true),
        asked: b"",
        replied: b"acked 3\n",
    },
    // A task that nobody could start isn't left, and one that nobody started is.
    Row {
        lines: b"bare g root\nlimit g 0\ngo g spin 3\n",
        workers: 1,
        open: true,
        printed: b"audit ok; starts 0; finishes 0\nacked 5\n",
        answer: Ok(true),
        asked: b"task 0\n",
        replied: b"task 0 held\nacked 6\n",
    },
    Row {
        lines: b"bare g root\ngo g spin 3\n",
        workers: 0,
        open: true,
        printed: b"audit strayed; worker 0; note 1\nacked 4\n",
        answer: Ok(false),
        asked: b"task 0\n",
        replied: b"task 0 ready\nacked 5\n",
    },
    // A gate that is shut ends each task before its first turn.
    Row {
        lines: b"bare g root\ngo g spin 3\n",
        workers: 1,
        open: false,
        printed: b"audit ok; starts 1; finishes 1\nacked 6\n",
        answer: Ok(true),
        asked: b"task 0\nresult g\n",
        replied: b"task 0 error gate\n\
                   unfinished 0; limit none; waited no; error gate\n\
                   acked 7\n",
    },
];

/// The disk over the file of this path.
fn file_disk<S: fs::Files<File = File> + Abort>(rt: &S, path: &str) -> FileDisk {
    let file = File::options().read(true).write(true).open(rt, path);
    done(rt, FileDisk::new(done(rt, file, "file")), "disk")
}

/// Says whether the night of a row, over a file, prints and leaves what it should.
fn is_worked<R: fs::Files<File = File> + Threads + Wait + Sync + Abort>(
    rt: &R,
    alloc: Global,
    row: &Row,
) -> bool {
    let path = "crew.store";
    let bytes = stored(rt, alloc, row.lines);
    done(rt, fs::write(rt, path, bytes.as_slice()), "file");
    let mut output = Vec::new(alloc);
    let disk = file_disk(rt, path);
    let gate = Fixed(row.open);
    let answer = worked_at(rt, alloc, disk, row.workers, &gate, &mut output);
    let (replied, disk) = night_on(rt, alloc, file_disk(rt, path), row.asked);
    drop(disk);
    let is_reported = output.as_slice() == row.printed && answer == row.answer;
    is_reported && replied.as_slice() == row.replied
}

#[test]
fn a_crew_works_off_a_file(rt: HostRuntime) {
    for (n, row) in ROWS.iter().enumerate() {
        holds(&rt, is_worked(&rt, rt.alloc(), row), "night", n);
    }
}

/// Lines of 64 tasks, after which there are 66 events.
static TASKS: [Part; 2] = [
    Part::Times(1, b"group g root\n", b""),
    Part::Times(64, b"go g spin 3\n", b""),
];

#[test]
fn four_workers_work_off_64_tasks(rt: HostRuntime) {
    let mut output = Vec::new(rt.alloc());
    let (typed, _) = whole(&rt, rt.alloc(), &TASKS);
    let disk = stored_disk(&rt, rt.alloc(), &typed);
    let answer = worked(&rt, rt.alloc(), disk, 4, &mut output);
    holds(&rt, answer == Ok(true), "answer", 0);
    let printed = b"audit ok; starts 64; finishes 64\nacked 195\n";
    holds(&rt, output.as_slice() == printed.as_slice(), "text", 0);
}

/// The call of a device that fails, after the ten of an opening, under one worker with one task;
/// and what is printed then. A flush makes six calls, and the last one is refused by a book that
/// broke before.
static FAILED: [(u64, &[u8]); 4] = [
    (11, b"audit strayed; worker 1; note 1\n"),
    (16, b"audit strayed; worker 1; note 1\n"),
    (17, b"audit ok; starts 1; finishes 1\n"),
    (22, b"audit ok; starts 1; finishes 1\n"),
];

/// The store's fault of a device.
const DEVICE: RunFault = RunFault::Store(Trouble::Faulty(Fault::DiskFailed));

#[test]
fn a_night_whose_device_fails_acknowledges_nothing(rt: HostRuntime) {
    for (call, printed) in FAILED {
        let disk = stored_disk(&rt, rt.alloc(), b"bare g root\ngo g spin 3\n");
        let mut output = Vec::new(rt.alloc());
        let disk = FailOnce::new(disk, call);
        let answer = worked(&rt, rt.alloc(), disk, 1, &mut output);
        holds(&rt, answer == Err(DEVICE), "fault at call", call as usize);
        let is_reported = output.as_slice() == printed;
        holds(&rt, is_reported, "text at call", call as usize);
    }
}

/// How many bytes of zeros there are, and why they are no store.
static UNOPENED: [(usize, Fault); 2] = [(1_572_864, Fault::NotAStore), (100, Fault::WrongSize)];

#[test]
fn what_is_no_store_has_no_night(rt: HostRuntime) {
    for (size, fault) in UNOPENED {
        let disk = done(&rt, MemoryDisk::new(rt.alloc(), size), "disk");
        let mut output = Vec::new(rt.alloc());
        let answer = worked(&rt, rt.alloc(), disk, 1, &mut output);
        let reported = Err(RunFault::Store(Trouble::Faulty(fault)));
        holds(&rt, answer == reported, "fault at size", size);
        holds(&rt, output.is_empty(), "nothing at size", size);
    }
}

/// How many writes of 10 bytes are taken, what the next one does, and what was written.
static CUT: [(usize, End, &[u8]); 3] = [
    (0, End::Fails, b""),
    (2, End::TakesNothing, b"audit ok; starts 1; "),
    (4, End::Fails, b"audit ok; starts 1; finishes 1\nacked 6\n"),
];

#[test]
fn a_night_that_can_not_be_reported_has_a_prefix_out(rt: HostRuntime) {
    for (n, (left, end, printed)) in CUT.iter().enumerate() {
        let disk = stored_disk(&rt, rt.alloc(), b"bare g root\ngo g spin 3\n");
        let mut output = EndingWriter::new(Vec::new(rt.alloc()), 10, *left, *end);
        let answer = worked(&rt, rt.alloc(), disk, 1, &mut output);
        let wanted = if *left == 4 {
            Ok(true)
        } else {
            Err(RunFault::Output)
        };
        holds(&rt, answer == wanted, "answer", n);
        holds(&rt, output.into_written().as_slice() == *printed, "text", n);
    }
}
