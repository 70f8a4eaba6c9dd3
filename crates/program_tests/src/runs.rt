//! Runs of the program, and what each printed.

ghost use Rattle.std.specs.Prelude.{⊤};

use crate::asserts::{done, holds};
use crate::shelves::{Shelf, as_printed};
use night_program::{CopyJob, Ended, FailJob, SpinJob, Streams, night};
use night_words::WordsFault;
use run_crew::Job;
use run_model::Moment;
use std::alloc::Global;
use std::io::{Read, Write};
use std::process::Abort;
use std::sync::Wait;
use std::thread::Threads;
use store_files::{FileError, FirstError};
use system_files::Errors;

/// How many lists of jobs each run has.
const LISTS: usize = 2;

/// What a run of the program printed, and how it ended.
#[derive(Debug, Drop)]
pub struct Printed {
    pub ended: Ended,
    pub output: String,
    pub errors: String,
}

/// How a run is to end: its status, and what is printed on the output and on the errors.
pub type End = (u8, &'static str, &'static str);

/// The program's own name, and the words.
pub fn words_of(rt: &impl Abort, alloc: Global, words: &[&str]) -> Vec<String> {
    let mut texts = Vec::new(alloc);
    push_word(rt, alloc, &mut texts, "night");
    for word in words {
        push_word(rt, alloc, &mut texts, word);
    }
    texts
}

fn push_word(rt: &impl Abort, alloc: Global, texts: &mut Vec<String>, word: &str) {
    let text = done(rt, word.to_string(alloc), "word");
    done(rt, texts.push(text), "words");
}

/// A clock that tells nothing.
pub fn no_times() -> &'static [Moment] {
    &[]
}

/// The moments of a clock.
fn moments_of(rt: &impl Abort, alloc: Global, times: &[u64]) -> Vec<Moment> {
    let mut moments = Vec::new(alloc);
    for seconds in times {
        if let Some(moment) = Moment::new(*seconds) {
            done(rt, moments.push(moment), "moments");
        }
    }
    moments
}

/// Lists of jobs, for this many workers.
fn lists(rt: &impl Abort, alloc: Global) -> Vec<Vec<Box<dyn Job + Send>>> {
    let mut jobs = Vec::new(alloc);
    for _ in 0..LISTS {
        done(rt, jobs.push(list(rt, alloc)), "lists");
    }
    jobs
}

fn list(rt: &impl Abort, alloc: Global) -> Vec<Box<dyn Job + Send>> {
    let mut list: Vec<Box<dyn Job + Send>> = Vec::new(alloc);
    let spin = done(rt, Box::new(alloc, SpinJob), "job");
    done(rt, list.push(spin), "list");
    let fail = done(rt, Box::new(alloc, FailJob), "job");
    done(rt, list.push(fail), "list");
    let copy = done(rt, Box::new(alloc, CopyJob), "job");
    done(rt, list.push(copy), "list");
    list
}

/// Tells why calls of a stream failed.
#[derive(Drop)]
struct System(&'static str);

impl FirstError for System {
    ghost notes = { λ system error. ⊤ };

    fn first_error(&self) -> Option<FileError> {
        Some(as_printed(self.0))
    }
}

/// Runs the program with what the system gave for its words, by a clock that tells these moments,
/// over one file and these streams, and asserts that it says whether a write of the errors failed.
pub fn run_over<R: Threads + Wait + Sync + Abort, I: Read, O: Write, E: Write>(
    rt: &R,
    alloc: Global,
    words: Result<Vec<String>, WordsFault>,
    moments: &[Moment],
    shelf: &mut Shelf,
    input: &mut I,
    output: &mut O,
    errors: &mut E,
) -> Ended {
    let jobs = lists(rt, alloc);
    let mut clock = moments;
    let streams = Streams {
        input: System("nobody writes"),
        output: System("nobody reads"),
        is_terminal: false,
    };
    let mut errors = Errors::new(errors);
    let end = night(
        rt,
        alloc,
        words,
        jobs,
        shelf,
        &mut clock,
        input,
        output,
        &streams,
        &mut errors,
    );
    let ended = end.ended();
    holds(rt, ended.printed == (errors.failures() == 0), "told", 0);
    ended
}

/// So does [`run_over`], and gives what was printed.
pub fn run_given<R: Threads + Wait + Sync + Abort>(
    rt: &R,
    alloc: Global,
    words: Result<Vec<String>, WordsFault>,
    moments: &[Moment],
    shelf: &mut Shelf,
    input: &str,
) -> Printed {
    let mut output = Vec::new(alloc);
    let mut errors = Vec::new(alloc);
    let mut lines = input.as_bytes();
    let ended = run_over(
        rt,
        alloc,
        words,
        moments,
        shelf,
        &mut lines,
        &mut output,
        &mut errors,
    );
    Printed {
        ended,
        output: text_of(rt, alloc, output.as_slice()),
        errors: text_of(rt, alloc, errors.as_slice()),
    }
}

fn text_of(rt: &impl Abort, alloc: Global, bytes: &[u8]) -> String {
    let text = String::from_utf8_lossy(alloc, bytes);
    done(rt, text, "text")
}

/// Runs the program with these words over one file.
pub fn run_words<R: Threads + Wait + Sync + Abort>(
    rt: &R,
    alloc: Global,
    words: &[&str],
    shelf: &mut Shelf,
    input: &str,
) -> Printed {
    let given = Ok(words_of(rt, alloc, words));
    run_given(rt, alloc, given, no_times(), shelf, input)
}

/// Asserts how a run ended, and that all of it was told.
fn assert_end(rt: &impl Abort, words: &[&str], printed: &Printed, end: &End) {
    let is_printed = printed.ended.status == end.0
        && printed.ended.printed
        && printed.output.as_str() == end.1
        && printed.errors.as_str() == end.2;
    assert!(rt; is_printed, "{words:?} {printed:?}");
}

/// Runs the program with these words over one file, and asserts how it ends.
pub fn assert_run<R: Threads + Wait + Sync + Abort>(
    rt: &R,
    alloc: Global,
    words: &[&str],
    shelf: &mut Shelf,
    input: &str,
    end: &End,
) {
    let printed = run_words(rt, alloc, words, shelf, input);
    assert_end(rt, words, &printed, end);
}

/// So does [`assert_run`], by a clock that tells these moments.
pub fn assert_run_at<R: Threads + Wait + Sync + Abort>(
    rt: &R,
    alloc: Global,
    times: &[u64],
    words: &[&str],
    shelf: &mut Shelf,
    input: &str,
    end: &End,
) {
    let moments = moments_of(rt, alloc, times);
    let given = Ok(words_of(rt, alloc, words));
    let printed = run_given(rt, alloc, given, moments.as_slice(), shelf, input);
    assert_end(rt, words, &printed, end);
}

/// So does [`assert_run`], with what the system gave for the words, and without an input.
pub fn assert_given<R: Threads + Wait + Sync + Abort>(
    rt: &R,
    alloc: Global,
    words: Result<Vec<String>, WordsFault>,
    shelf: &mut Shelf,
    end: &End,
) {
    let printed = run_given(rt, alloc, words, no_times(), shelf, "");
    assert_end(rt, &[], &printed, end);
}
