//! How the program ends: its exit status, and what it prints on standard error.

ghost use Rattle.std.specs.Prelude.{◌≡◌};
ghost use Rattle.store_words.specs.Endings.{EndsBy, PrintsDone, done_status};
ghost use Rattle.store_words.specs.Endings.{blamed_line, failure_lines, fault_status, file_line};
ghost use Rattle.store_words.specs.Endings.{return_line, stray_lines, unknown_line};
ghost use Rattle.store_words.specs.Failures.{Blames};
ghost use Rattle.store_files.specs.ErrorSinks.{IsPrinted};

use crate::failures::{Failure, FileFailure};
use crate::streams::Streams;
use console_lines::{RejectedLine, Rejection, RunFault};
use run_model::Name;
use store_files::{ErrorSink, FirstError};

/// How the program ended.
#[derive(Clone, Copy, Debug, PartialEq, Eq)]
pub struct Ended {
    /// The exit status: 0 if all went well; 1 if a strict run met a line that was bad or refused,
    /// or if a plan was refused; 2 for a mistake in the arguments; 3 if the store, the input or the
    /// output failed, if the store has no room for a night, if an audit found a difference, or if a
    /// crew doesn't know a job; 4 if memory was refused.
    pub status: u8,
    /// Whether everything was printed on standard error. If not, a call of it has failed.
    pub printed: bool,
}

/// The result of a subcommand that no fault ended.
#[derive(Drop)]
pub enum Done {
    /// All of it was done.
    Well,
    /// A crew has worked, and its audit found a difference, which the line of the audit reports.
    Strayed,
    /// A strict run ended at this line.
    Rejection(RejectedLine),
    /// A crew doesn't know the jobs of some tasks, and has started none.
    Unknown(UnknownJob),
    /// A plan was refused, and the output says why.
    NoPlan,
    /// The store has no room for the rest of a night.
    Full,
}

/// The tasks of a store that haven't ended and whose jobs the crews don't know: the job of the
/// first one, and how many there are.
#[derive(Drop)]
pub struct UnknownJob {
    pub job: Name,
    pub tasks: u16,
}

/// Prints how a subcommand ended, and returns its exit status. A fault is printed as one line, such
/// as `night: fault 3 NotAStore`, and a second line names the file or stream that is to blame, such
/// as `night: jobs.store: not a store`. The line at which a strict run ended is printed as
/// `night: line 7: bad line`. If that line ends with a carriage return, a second line says so.
pub fn end<E: ErrorSink, Y: FirstError + Drop>(
    answer: &Result<Done, Failure<'_>>,
    streams: &Streams<Y>,
    errors: &mut E,
) -> Ended
    ensures { EndsBy (Blames (Y.notes streams.now.input) (Y.notes streams.now.output)) answer.now
        result (E.state errors.old) (E.state errors.new) }
{
    match answer {
        Ok(done) => Ended {
            status: status_of(done),
            printed: print_done(done, errors),
        },
        Err(failure) => {
            let stream = streams.blamed(failure.fault);
            Ended {
                status: fault_status(failure.fault),
                printed: print_failure(failure, &stream, errors),
            }
        }
    }
}

/// The exit status if no fault ended the program.
fn status_of(done: &Done) -> u8
    ensures { result ≡ done_status done.now }
{
    match done {
        Done::Well => 0,
        Done::Rejection(_) | Done::NoPlan => 1,
        Done::Strayed | Done::Unknown(_) | Done::Full => 3,
    }
}

/// The exit status of a program that this fault ended.
fn fault_status(fault: RunFault) -> u8
    ensures { result ≡ fault_status fault }
{
    match fault {
        RunFault::Memory => 4,
        _ => 3,
    }
}

/// Prints the result of a subcommand that no fault ended, and returns whether all of it was
/// written.
fn print_done<E: ErrorSink>(done: &Done, errors: &mut E) -> bool
    ensures { PrintsDone done.now result (E.state errors.old) (E.state errors.new) }
{
    match done {
        Done::Well | Done::Strayed => true,
        Done::Rejection(line) => print_stray(line, errors),
        Done::Unknown(unknown) => print_unknown(unknown, errors),
        Done::NoPlan => errors.print(format_args!("night: the plan is refused\n")),
        Done::Full => errors.print(format_args!("night: the store is full\n")),
    }
}

/// Prints at which line a strict run ended and why, and whether it ends with a carriage return.
fn print_stray<E: ErrorSink>(line: &RejectedLine, errors: &mut E) -> bool
    ensures { IsPrinted result (stray_lines line.now) (E.state errors.old) (E.state errors.new) }
{
    if !errors.print(format_args!("night: {line}\n")) {
        return false;
    }
    print_return(line.why, line.number, errors)
}

/// Prints that the line of this number ends with a carriage return, if that is the reason.
fn print_return<E: ErrorSink>(why: Rejection, number: u64, errors: &mut E) -> bool
    ensures { IsPrinted result (return_line why number) (E.state errors.old) (E.state errors.new) }
{
    match why {
        Rejection::CarriageReturn => errors.print(format_args!(
            "night: line {number}: it ends with a carriage return\n"
        )),
        Rejection::BadLine | Rejection::Refused(_) => true,
    }
}

/// Prints which job a crew doesn't know, and of how many tasks.
fn print_unknown<E: ErrorSink>(unknown: &UnknownJob, errors: &mut E) -> bool
    ensures { IsPrinted result (unknown_line unknown.now)
        (E.state errors.old) (E.state errors.new) }
{
    let job = &unknown.job;
    let tasks = unknown.tasks;
    errors.print(format_args!("night: unknown job {job}; tasks {tasks}\n"))
}

/// Prints the line of a fault, then the lines of the file and of the stream that are to blame, and
/// returns whether all of it was written.
fn print_failure<E: ErrorSink>(
    failure: &Failure<'_>,
    stream: &Option<FileFailure<'_>>,
    errors: &mut E,
) -> bool
    ensures { IsPrinted result (failure_lines failure.now stream.now)
        (E.state errors.old) (E.state errors.new) }
{
    let fault = failure.fault;
    let is_printed = errors.print(format_args!("night: {fault}\n"));
    if !is_printed {
        return false;
    }
    if !print_blamed(&failure.file, errors) {
        return false;
    }
    print_blamed(stream, errors)
}

/// Prints which file is to blame and why, if one is.
fn print_blamed<E: ErrorSink>(file: &Option<FileFailure<'_>>, errors: &mut E) -> bool
    ensures { IsPrinted result (blamed_line file.now) (E.state errors.old) (E.state errors.new) }
{
    match file {
        Some(file) => print_file(file, errors),
        None => true,
    }
}

/// Prints which file is to blame, and why.
fn print_file<E: ErrorSink>(file: &FileFailure<'_>, errors: &mut E) -> bool
    ensures { IsPrinted result (file_line file.now) (E.state errors.old) (E.state errors.new) }
{
    let name = &file.name;
    let problem = &file.problem;
    errors.print(format_args!("night: {name}: {problem}\n"))
}
