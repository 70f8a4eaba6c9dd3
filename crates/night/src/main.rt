//! The program `night`, which keeps a record of scopes, groups and tasks that survives any crash.
//!
//! `night_program` does the work. This crate hands it the system's arguments, files, clock and
//! streams. `night --help` lists the subcommands, and `docs/formats/console.md` describes each
//! request and its reply.
//!
//! The exit status is 0 if all went well; 1 if a strict run met a line that was bad or refused; 2
//! for a mistake in the arguments; 3 if the input, the output or the store failed, if the input is
//! too long, if an audit found a difference, or if a crew doesn't know a job; and 4 if memory is
//! missing. The reason is printed on standard error, and a difference on standard output.
#![tactic(auto)]

mod clock;

use crate::clock::SystemClock;
use night_program::{CopyJob, FailJob, ProcessEnd, SpinJob, Streams, night};
use night_words::own_words;
use run_crew::Job;
use std::env;
use std::io::IsTerminal;
use std::thread::Builder;
use system_files::{ErrorCell, ErrorCells, Errors, SystemFiles, WatchedStream};

/// The greatest number of workers that the arguments can ask for.
const MOST_WORKERS: usize = 8;

/// The number of bytes of stack. It is enough for everything that the arguments can ask for: 512
/// KiB are.
const STACK: usize = 4 << 20;

/// Runs in a thread with a stack of its own, since the one that the system gives may be too small.
fn main(rt: HostRuntime) -> ProcessEnd {
    let all = move || -> ProcessEnd {
        let alloc = rt.alloc();
        let words = own_words(alloc, env::args(&rt));
        // A list for each worker, as far as there is memory: a crew of more is told that it is
        // wanting.
        let mut jobs: Vec<Vec<Box<dyn Job + Send>>> = Vec::new(alloc);
        for _ in 0..MOST_WORKERS {
            let Ok(spin) = Box::new(alloc, SpinJob) else {
                break;
            };
            let Ok(fail) = Box::new(alloc, FailJob) else {
                break;
            };
            let Ok(copy) = Box::new(alloc, CopyJob) else {
                break;
            };
            let mut list: Vec<Box<dyn Job + Send>> = Vec::new(alloc);
            if list.push(spin).is_err() || list.push(fail).is_err() || list.push(copy).is_err() {
                break;
            }
            if jobs.push(list).is_err() {
                break;
            }
        }
        let error_cells = ErrorCells::new();
        let mut files = SystemFiles::new(&rt, alloc, &error_cells);
        let mut clock = SystemClock::new(&rt);
        let (why_input, why_output) = (ErrorCell::new(), ErrorCell::new());
        let mut input = WatchedStream::new(rt.stdin(), &why_input);
        let mut output = WatchedStream::new(rt.stdout(), &why_output);
        let streams = Streams {
            input: &why_input,
            output: &why_output,
            is_terminal: rt.stdin().is_terminal(),
        };
        let mut errors = Errors::new(rt.stderr());
        night(
            &rt,
            alloc,
            words,
            jobs,
            &mut files,
            &mut clock,
            &mut input,
            &mut output,
            &streams,
            &mut errors,
        )
    };
    let builder = Builder::new().stack_size(STACK);
    match builder.spawn(&rt, all) {
        Ok(thread) => thread.join(&rt),
        Err(_) => all(),
    }
}
