//! What each word does: its exit status, and a part of what it prints on either stream.

use crate::asserts::holds;
use crate::closed::Closed;
use crate::runs::{assert_given, no_times, run_over, run_words, words_of};
use crate::shelves::Shelf;
use crate::stores::{shelved, zeros};
use night_words::WordsFault;
use std::alloc::Global;
use std::process::Abort;
use std::sync::Wait;
use std::thread::Threads;

/// Words, the exit status, and a part of what goes to the output and to the errors.
type Case = (&'static [&'static str], u8, &'static str, &'static str);

/// What is told of a file that isn't there.
const NO_FILE: &str = "night: fault 2 DiskFailed\nnight: none: no such file\n";

/// What is told of a file of no bytes.
const NO_SIZE: &str = "night: fault 4 WrongSize\n\
     night: a: not the size of a store: 1,572,864 or 6,291,456 bytes\n";

static CASES: [Case; 40] = [
    (&[], 2, "", "Usage: night <COMMAND>"),
    (&[""], 2, "", "unrecognized subcommand ''"),
    (&["work", "a"], 2, "", "unrecognized subcommand 'work'"),
    (&["crew"], 2, "", "required arguments were not provided"),
    (
        &["crew", "a", "--workers", "9"],
        2,
        "",
        "error: --workers takes a number from 1 to 8\n",
    ),
    (
        &["inspect", "--json", "--tasks", "a"],
        2,
        "",
        "error: inspect takes one of --tasks (or --phase, --group), --json and --tree\n\
         or --summary alone; --json takes --phase and --group, too\n",
    ),
    (
        &["inspect", "--no-tasks", "a"],
        2,
        "",
        "error: --no-tasks goes with --tree\n",
    ),
    (
        &["crew", "--help"],
        0,
        "Examples:\n  night crew --known jobs.store\n",
        "",
    ),
    (&["crew", "none", "--workers=2"], 3, "", NO_FILE),
    (&["crew", "a", "--workers=1"], 3, "", NO_SIZE),
    (&["format"], 2, "", "required arguments were not provided"),
    (
        &["script", "a", "b"],
        2,
        "",
        "unexpected argument 'b' found",
    ),
    (&["inspect", "-a"], 2, "", "unexpected argument '-a' found"),
    (&["demo", "a"], 2, "", "unexpected argument 'a' found"),
    (&["--help"], 0, "Usage: night <COMMAND>", ""),
    (&["help"], 0, "Usage: night <COMMAND>", ""),
    (&["demo", "--help"], 0, "| night demo\n", ""),
    (
        &["format", "--help"],
        0,
        "Example: night format --new jobs.store",
        "",
    ),
    (&["script", "-h"], 0, "night script jobs.store", ""),
    (
        &["inspect", "--help"],
        0,
        "Example: night inspect jobs.store",
        "",
    ),
    (&["--version"], 0, "night 0.3.0\n", ""),
    (&["-V"], 0, "night 0.3.0\n", ""),
    (&["demo"], 0, "scope 1\nacked 2\n", ""),
    (&["demo", "--"], 0, "scope 1\nacked 2\n", ""),
    (&["format", "new"], 0, "formatted\n", ""),
    (&["format", "a"], 0, "formatted\n", ""),
    (&["format", "--new", "new"], 0, "formatted\n", ""),
    (
        &["format", "--new", "a"],
        3,
        "",
        "night: fault 2 DiskFailed\nnight: a: there is one\n",
    ),
    (&["script", "none"], 3, "", NO_FILE),
    (&["inspect", "none"], 3, "", NO_FILE),
    (&["script", "a"], 3, "", NO_SIZE),
    (&["inspect", "a"], 3, "", NO_SIZE),
    (&["renew", "--in-place", "a"], 3, "", NO_SIZE),
    (
        &["migrate", "a", "a"],
        2,
        "",
        "error: OLD and NEW name the same file\n",
    ),
    (
        &["migrate", "a"],
        2,
        "",
        "required arguments were not provided",
    ),
    (
        &["migrate", "a", "b", "c"],
        2,
        "",
        "unexpected argument 'c' found",
    ),
    (&["migrate", "none", "new"], 3, "", NO_FILE),
    (&["migrate", "a", "new"], 3, "", NO_SIZE),
    (
        &["migrate", "-h"],
        0,
        "Example: night migrate --new small.store large.store",
        "",
    ),
    (&["migrate", "--help"], 0, "if it exists, it is erased", ""),
];

/// A file of no bytes, which is no store.
fn empty_file(rt: &impl Abort, alloc: Global) -> Shelf {
    shelved(rt, alloc, "a", zeros(rt, alloc, 0))
}

/// Nothing is printed where nothing is wanted.
fn is_shown(part: &str, printed: &str) -> bool {
    part.is_empty() == printed.is_empty() && printed.contains(part)
}

/// Asserts what the words of a case come to, and that all of it was told.
fn assert_case<R: Threads + Wait + Sync + Abort>(rt: &R, alloc: Global, case: &Case) {
    let mut shelf = empty_file(rt, alloc);
    let words = case.0;
    let printed = run_words(rt, alloc, words, &mut shelf, "derive a root cause\n");
    let is_printed = printed.ended.status == case.1
        && printed.ended.printed
        && is_shown(case.2, printed.output.as_str())
        && is_shown(case.3, printed.errors.as_str());
    assert!(rt; is_printed, "{words:?} {printed:?}");
}

#[test]
fn each_word_has_its_status_and_its_text(rt: HostRuntime) {
    for case in CASES.iter() {
        assert_case(&rt, rt.alloc(), case);
    }
}

#[test]
fn words_that_the_system_did_not_give_are_reported(rt: HostRuntime) {
    let cases = [
        (
            WordsFault::NotText,
            (2, "", "error: a word is no text in UTF-8\n"),
        ),
        (WordsFault::Memory, (4, "", "night: fault 1 Memory\n")),
    ];
    for (fault, end) in cases {
        assert_given(
            &rt,
            rt.alloc(),
            Err(fault),
            &mut empty_file(&rt, rt.alloc()),
            &end,
        );
    }
}

/// Words that print something, and whether a file that they made is taken away again.
type Printing = (&'static [&'static str], bool);

static PRINTING: [Printing; 5] = [
    (&["demo"], false),
    (&["format", "new"], true),
    (&["format", "--new", "new"], true),
    (&["format", "a"], false),
    (&["--help"], false),
];

/// Asserts what is told of an output that takes nothing.
fn assert_untaken<R: Threads + Wait + Sync + Abort>(
    rt: &R,
    alloc: Global,
    row: usize,
    printing: &Printing,
) {
    let mut errors = Vec::new(alloc);
    let mut shelf = empty_file(rt, alloc);
    let ended = run_over(
        rt,
        alloc,
        Ok(words_of(rt, alloc, printing.0)),
        no_times(),
        &mut shelf,
        &mut b"scope root\n".as_slice(),
        &mut Closed,
        &mut errors,
    );
    let is_printed = errors.as_slice()
        == b"night: output\nnight: standard output: nobody reads\n".as_slice();
    holds(
        rt,
        ended.status == 3 && ended.printed && is_printed,
        "words",
        row,
    );
    holds(rt, shelf.has_removed == printing.1, "file", row);
}

#[test]
fn an_output_that_takes_nothing_is_reported(rt: HostRuntime) {
    for (row, printing) in PRINTING.iter().enumerate() {
        assert_untaken(&rt, rt.alloc(), row, printing);
    }
}

#[test]
fn an_input_that_fails_is_reported(rt: HostRuntime) {
    let mut output = Vec::new(rt.alloc());
    let mut errors = Vec::new(rt.alloc());
    let ended = run_over(
        &rt,
        rt.alloc(),
        Ok(words_of(&rt, rt.alloc(), &["demo"])),
        no_times(),
        &mut empty_file(&rt, rt.alloc()),
        &mut Closed,
        &mut output,
        &mut errors,
    );
    let is_printed = errors.as_slice()
        == b"night: input\nnight: standard input: nobody writes\n".as_slice();
    holds(&rt, ended.status == 3 && is_printed, "errors", 0);
    holds(&rt, output.is_empty(), "output", 0);
}

/// Words that something is told of, and the status.
type Reporting = (&'static [&'static str], u8);

static REPORTED: [Reporting; 3] = [(&["crew"], 2), (&["script", "none"], 3), (&[], 2)];

/// Asserts how a run ends that can tell nothing.
fn assert_unreported<R: Threads + Wait + Sync + Abort>(
    rt: &R,
    alloc: Global,
    row: usize,
    reporting: &Reporting,
) {
    let mut output = Vec::new(alloc);
    let ended = run_over(
        rt,
        alloc,
        Ok(words_of(rt, alloc, reporting.0)),
        no_times(),
        &mut empty_file(rt, alloc),
        &mut b"".as_slice(),
        &mut output,
        &mut Closed,
    );
    holds(
        rt,
        ended.status == reporting.1 && !ended.printed,
        "words",
        row,
    );
}

#[test]
fn what_could_not_be_reported_is_printed(rt: HostRuntime) {
    for (row, reporting) in REPORTED.iter().enumerate() {
        assert_unreported(&rt, rt.alloc(), row, reporting);
    }
}
