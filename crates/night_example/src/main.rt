//! Jobs of your own, which four threads run over a store in a file: a program to copy.
//!
//! One run of it plays several sessions. The first one makes the store, runs the lines of standard
//! input, which submit tasks, and drops the store while a task runs. The next ones show that the
//! task was interrupted, retry it, and let four workers run what is ready.
#![tactic(auto)]

use anyhow::Result;
use run_book::Book;
use run_console::run;
use run_crew::{Job, OpenGate, Turn, crew};
use run_disk::FileDisk;
use run_model::{Layout, Name, TaskInfo, Text};
use std::fs;
use std::fs::OpenOptions;
use std::io::Read;
use std::str::from_utf8;

/// Checks that the last line of a file in this folder is complete.
#[derive(Drop)]
struct Check(HostRuntime);

impl Job for Check {
    fn handles(&self, job: &Name) -> bool {
        job.as_bytes() == b"check".as_slice()
    }

    fn turn(&mut self, info: &TaskInfo, _turn: u32, _done: bool) -> Turn {
        let file = from_utf8(info.argument.as_bytes()).unwrap_or("");
        match fs::read(&self.0, file) {
            Ok(bytes) if bytes.as_slice().ends_with(b"\n") => Turn::Finished,
            Ok(_) => failed(b"its last line is cut off"),
            Err(_) => failed(b"no such file"),
        }
    }
}

/// Mails a file in three turns, and fails for each task whose number is divisible by three.
#[derive(Drop)]
struct Mail;

impl Job for Mail {
    fn handles(&self, job: &Name) -> bool {
        job.as_bytes() == b"mail".as_slice()
    }

    fn turn(&mut self, info: &TaskInfo, turn: u32, _done: bool) -> Turn {
        match turn {
            0 | 1 => Turn::More,
            _ if info.task % 3 == 0 => failed(b"nobody there"),
            _ => Turn::Finished,
        }
    }
}

fn failed(error: &[u8]) -> Turn {
    Text::read(error).map_or(Turn::More, |error| Turn::Failed(error))
}

/// The file of the store. A new one has zeros.
fn disk(rt: &HostRuntime) -> Result<FileDisk> {
    let mut options = OpenOptions::new();
    options.read(true).write(true).create(true);
    let file = options.open(rt, "jobs.store")?;
    file.set_len(Layout::Small.store_len())?;
    Ok(FileDisk::new(file)?)
}

/// Opens the store, runs lines over it and prints their replies. What was running is interrupted by
/// the opening.
fn type_lines<R: Read>(rt: &HostRuntime, disk: FileDisk, lines: &mut R) -> Result<()> {
    let mut book = Book::open(rt.alloc(), disk).map_err(|e| e.0)?;
    Ok(run(rt.alloc(), lines, &mut rt.stdout(), &mut book)?)
}

fn main(rt: HostRuntime) -> Result<()> {
    let alloc = rt.alloc();
    let new = Book::format(disk(&rt)?).map_err(|e| e.0)?;
    type_lines(&rt, new, &mut rt.stdin())?;
    type_lines(&rt, disk(&rt)?, &mut b"task 0\nretry 0\n".as_slice())?;
    let mut workers: Vec<Vec<Box<dyn Job + Send>>> = Vec::new(alloc);
    for _ in 0..4 {
        let mut jobs: Vec<Box<dyn Job + Send>> = Vec::new(alloc);
        jobs.push(Box::new(alloc, Check(rt))?)?;
        jobs.push(Box::new(alloc, Mail)?)?;
        workers.push(jobs)?;
    }
    crew(&rt, alloc, disk(&rt)?, workers, &OpenGate, &mut rt.stdout())?;
    type_lines(&rt, disk(&rt)?, &mut b"tally\n".as_slice())
}
