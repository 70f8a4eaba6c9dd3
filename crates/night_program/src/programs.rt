//! The program reads its arguments, and runs the subcommand that they ask for.

ghost use Rattle.std.specs.Prelude.{◌≡◌, ℕ, false, map, vec_len, IfErr, IfOk};
ghost use Rattle.std.specs.String.{string_bytes};
ghost use Rattle.night_program.specs.Programs.{Does, IsRefused, Refuses, RunsWords, asks_crew};
ghost use Rattle.night_program.specs.Programs.{reads_lines, refusal_status};
ghost use Rattle.store_words.specs.Failures.{Blames};

use crate::crews::crew_file;
use crate::demos::demo;
use crate::drives::drive_file;
use crate::plans::plan;
use crate::process_ends::ProcessEnd;
use crate::scripts::{script_file, until_of};
use crate::timed::timed_file;
use console_lines::write_whole;
use night_words::{Request, WordsFault, read_words};
use run_console::MachineTime;
use run_crew::Job;
use std::alloc::Global;
use std::io::{Read, Write};
use std::sync::Wait;
use std::thread::Threads;
use store_files::{ErrorSink, Files, FirstError};
use store_words::{
    Done, Ended, Failure, Streams, done_alone, end, format_file, hint, inspect_file, migrate_file,
    renew_file, renew_in_place, strict_alone,
};

/// Runs the subcommand that the arguments ask for. The first argument is the program's own name.
/// `words` are the arguments, or the reason why the system gave none.
///
/// - `demo` runs the input over a book in memory.
/// - `format STORE` makes a large store of the file; with `--new` only if there is no such file.
/// - `script STORE` runs the input over the store; with `--now` it moves the store's clock to the
///   machine's time before the lines.
/// - `inspect STORE` prints a view of the store, even if another program has it open, and writes
///   nothing to it.
/// - `crew STORE` works off the store's ready tasks. Each thread has one of the lists of jobs; with
///   fewer lists than workers the fault is `Memory`. With `--known` nothing is started if a task
///   that hasn't ended has a job that the crew doesn't know.
/// - `migrate OLD NEW` reads OLD whole, and only then makes of NEW a large store with the state of
///   OLD's small one; with `--new` only if there is no file NEW.
/// - `renew OLD NEW` likewise makes of NEW a store of OLD's size with what isn't finished in OLD,
///   and `renew --in-place STORE` locks STORE, and replaces it by such a store.
/// - `drive STORE` drives a night over the store: it reads a plan and rounds of what happens,
///   records them, and answers what begins and stops.
/// - `plan` reads a plan and rounds of what happens, and answers each.
///
/// A new file of which no store is made is removed again. Help and the version go to the output.
///
/// Mistakes in the arguments and faults go to `errors`. A failed file call prints
/// `fault 2 DiskFailed`, then a line with the file and the system's error. A failed stream does
/// likewise. If the input is a terminal, `demo` and `script` first print there how lines are typed.
pub fn night<
    F: Files,
    C: MachineTime,
    I: Read,
    O: Write,
    E: ErrorSink,
    Y: FirstError + Drop,
    R: Threads + Wait + Sync,
>(
    rt: &R,
    alloc: Global,
    words: Result<Vec<String>, WordsFault>,
    jobs: Vec<Vec<Box<dyn Job + Send>>>,
    files: &mut F,
    clock: &mut C,
    input: &mut I,
    output: &mut O,
    streams: &Streams<Y>,
    errors: &mut E,
) -> ProcessEnd
    ensures refused { IfErr words (λ why. IsRefused why result.ended files.old files.new
        (I.remaining input.old) (I.remaining input.new)
        (O.contents output.old) (O.contents output.new)
        (E.state errors.old) (E.state errors.new)) }
    ensures runs { IfOk words (λ words. RunsWords F.Disk.state F.seen
        (Blames (Y.notes streams.now.input) (Y.notes streams.now.output))
        (map string_bytes words.items) (vec_len jobs) (C.moments clock.old)
        streams.now.is_terminal result.ended
        files.old files.new
        (I.remaining input.old) (I.remaining input.new)
        (O.contents output.old) (O.contents output.new)
        (E.state errors.old) (E.state errors.new)) }
{
    let words = match words {
        Ok(words) => words,
        Err(fault) => return refuse(fault, errors),
    };
    match read_words(alloc, words.as_slice()) {
        Ok(request) => {
            hint(streams.is_terminal && reads_lines(&request), errors);
            let answer = answer(rt, alloc, &request, jobs, files, clock, input, output);
            ProcessEnd::of(end(&answer, streams, errors))
        }
        Err(fault) => refuse(fault, errors),
    }
}

/// Ends a program whose arguments ask for nothing, and prints why.
fn refuse<E: ErrorSink>(fault: WordsFault, errors: &mut E) -> ProcessEnd
    ensures { Refuses fault result.ended (E.state errors.old) (E.state errors.new) }
{
    ProcessEnd::of(Ended {
        status: refusal_status(&fault),
        printed: errors.print(fault),
    })
}

/// The exit status of a program whose arguments ask for nothing.
fn refusal_status(fault: &WordsFault) -> u8
    ensures { result ≡ refusal_status fault.now }
{
    match fault {
        WordsFault::Memory => 4,
        _ => 2,
    }
}

/// Returns whether lines are read for what was asked for.
fn reads_lines(request: &Request<'_>) -> bool
    ensures { result ≡ reads_lines request.now }
{
    matches!(request, Request::Demo { .. } | Request::Script { .. })
}

/// Does what was asked for. The lists of jobs are for a crew alone.
fn answer<'a, F: Files, C: MachineTime, I: Read, O: Write, R: Threads + Wait + Sync>(
    rt: &R,
    alloc: Global,
    request: &Request<'a>,
    jobs: Vec<Vec<Box<dyn Job + Send>>>,
    files: &mut F,
    clock: &mut C,
    input: &mut I,
    output: &mut O,
) -> Result<Done, Failure<'a>>
    ensures { Does F.Disk.state F.seen request.now (vec_len jobs) (C.moments clock.old) result
        files.old files.new
        (I.remaining input.old) (I.remaining input.new)
        (O.contents output.old) (O.contents output.new) }
{
    match request {
        Request::Crew {
            store,
            workers,
            known,
        } => crew_file(rt, alloc, store, *workers, *known, jobs, files, output),
        _ => answer_alone(alloc, request, files, clock, input, output),
    }
}

/// Does what was asked for, if that isn't a crew's night.
fn answer_alone<'a, F: Files, C: MachineTime, I: Read, O: Write>(
    alloc: Global,
    request: &Request<'a>,
    files: &mut F,
    clock: &mut C,
    input: &mut I,
    output: &mut O,
) -> Result<Done, Failure<'a>>
    requires { asks_crew request.now ≡ false }
    ensures { (lists : ℕ) → Does F.Disk.state F.seen request.now lists (C.moments clock.old) result
        files.old files.new
        (I.remaining input.old) (I.remaining input.new)
        (O.contents output.old) (O.contents output.new) }
{
    match request {
        Request::Demo { strict } => { strict_alone(demo(alloc, until_of(*strict), input, output)) }
        Request::Format { store, is_new } => format_file(store, *is_new, files, output),
        Request::Script {
            store,
            strict,
            is_timed: false,
        } => script_file(alloc, store, *strict, files, input, output),
        Request::Script {
            store,
            strict,
            is_timed: true,
        } => timed_file(alloc, store, *strict, files, clock, input, output),
        Request::Inspect { store, view } => inspect_file(alloc, store, *view, files, output),
        Request::Crew { .. } => unreachable!(),
        Request::Migrate { old, new, is_new } => {
            migrate_file(alloc, old, new, *is_new, files, output)
        }
        Request::Renew { old, new, is_new } => renew_file(alloc, old, new, *is_new, files, output),
        Request::RenewInPlace(store) => renew_in_place(alloc, store, files, output),
        Request::Drive { store } => drive_file(alloc, store, files, input, output),
        Request::Plan => plan(alloc, input, output),
        Request::Help(text) => done_alone(write_whole(output, text.as_bytes())),
    }
}
