//! A crew's night over the store in a file.

ghost use Rattle.std.specs.Prelude.{◌≡◌, ◌≤◌, vec_len};
ghost use Rattle.night_program.specs.Crews.{AnswersCrew};
ghost use Rattle.store_words.specs.Failures.{Names};
ghost use Rattle.night_program.specs.Programs.{DoesCrew};

use crate::known::unknown_on;
use console_lines::RunFault;
use run_crew::{Job, OpenGate, crew_over};
use std::alloc::Global;
use std::io::Write;
use std::sync::Wait;
use std::thread::Threads;
use store_files::{Files, FirstError, Opened};
use store_words::{Done, Failure, done_alone, failed_over, no_file};

/// Opens the store in the file with this name, and runs its ready tasks with `workers` workers.
/// Each takes one of the lists of jobs; if there are fewer lists than workers, the fault is
/// `Memory`. With `known` the store is read first, and nothing is started if a task that hasn't
/// ended has a job that the crew doesn't know.
pub fn crew_file<'a, F: Files, O: Write, R: Threads + Wait + Sync>(
    rt: &R,
    alloc: Global,
    store: &'a str,
    workers: u8,
    known: bool,
    jobs: Vec<Vec<Box<dyn Job + Send>>>,
    files: &mut F,
    output: &mut O,
) -> Result<Done, Failure<'a>>
    ensures { DoesCrew F.Disk.state F.seen store.now workers (vec_len jobs) known result
        files.old files.new (O.contents output.old) (O.contents output.new) }
{
    let mut jobs = jobs;
    if jobs.len() < usize::from(workers) {
        return done_alone(Err(RunFault::Memory));
    }
    jobs.truncate(usize::from(workers));
    let Opened { mut disk, why } = match files.open(store) {
        Ok(opened) => opened,
        Err(error) => return Err(no_file(store, error)),
    };
    if known {
        match unknown_on(alloc, &mut disk) {
            Ok(None) => (),
            Ok(Some(unknown)) => {
                files.close(store, disk);
                return Ok(Done::Unknown(unknown));
            }
            Err(fault) => {
                files.close(store, disk);
                return Err(failed_over(RunFault::from(fault), store, &why));
            }
        }
    }
    let (done, left) = crew_over(rt, alloc, disk, jobs, &OpenGate, output);
    files.close(store, left);
    worked(done, store, &why)
}

/// The result of a crew's night over the store in the file of this name.
fn worked<'a, Y: FirstError>(
    done: Result<bool, RunFault>,
    store: &'a str,
    why: &Y,
) -> Result<Done, Failure<'a>>
    ensures { AnswersCrew (Names (Y.notes why.now) store.now) done result }
{
    match done {
        Ok(true) => Ok(Done::Well),
        Ok(false) => Ok(Done::Strayed),
        Err(fault) => Err(failed_over(fault, store, why)),
    }
}
