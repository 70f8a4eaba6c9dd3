//! Runs over books that the tests compare with tables.

use crate::asserts::{done, holds};
use crate::books::{as_printed, counts, formatted, fresh, opened, ran, records};
use run_book::Book;
use run_console::RunFault;
use run_disk::{MemoryDisk, RunDisk};
use run_model::Layout;
use std::alloc::{Allocator, Global};
use std::io::{Read, Write};
use std::process::Abort;

/// What is typed, and what is printed.
pub type Night = (&'static [u8], &'static [u8]);

/// How a run over a book ended.
#[derive(Drop)]
pub struct Ended {
    pub result: Result<(), RunFault>,
    /// How many events there were then, and how many of them were durable.
    pub counts: (u64, u64),
    /// What two questions and the end of the input print over the same book then.
    pub shown: Vec<u8>,
}

/// Asks how the scopes `a` and `b` are.
const QUESTIONS: &[u8] = b"scope a\nscope b\n";

/// Runs an input over a book that isn't broken, and then the questions.
pub fn run_over<A: Allocator + Copy, R: Read, W: Write, D: RunDisk>(
    alloc: Global,
    heap: A,
    input: &mut R,
    output: &mut W,
    book: &mut Book<D>,
) -> Ended {
    let result = ran(heap, input, output, book);
    let counts = counts(book);
    let mut shown = Vec::new(alloc);
    let _asked = ran(alloc, &mut &QUESTIONS[..], &mut shown, book);
    Ended {
        result,
        counts,
        shown,
    }
}

/// Runs an input over a disk that holds a store, and then the questions.
pub fn run_on<A: Allocator + Copy, R: Read, W: Write, D: RunDisk + Drop>(
    rt: &impl Abort,
    alloc: Global,
    heap: A,
    disk: D,
    input: &mut R,
    output: &mut W,
) -> Ended {
    let mut book = opened(rt, alloc, disk);
    let ended = run_over(alloc, heap, input, output, &mut book);
    drop(book);
    ended
}

/// Runs an input over a new book, and then the questions.
pub fn run_new<A: Allocator + Copy, R: Read, W: Write>(
    rt: &impl Abort,
    alloc: Global,
    heap: A,
    input: &mut R,
    output: &mut W,
) -> Ended {
    let disk = formatted(rt, alloc, Layout::Small);
    run_on(rt, alloc, heap, disk, input, output)
}

/// Runs an input to its end over a disk that holds a store. Gives what is printed, and the disk.
pub fn night_on<D: RunDisk + Drop>(
    rt: &impl Abort,
    alloc: Global,
    disk: D,
    mut typed: &[u8],
) -> (Vec<u8>, D) {
    let mut book = opened(rt, alloc, disk);
    let mut printed = Vec::new(alloc);
    let result = ran(alloc, &mut typed, &mut printed, &mut book);
    let (events, durable) = counts(&book);
    assert!(rt; result.is_ok() && durable == events);
    (printed, book.into_disk())
}

/// What is printed for an input over a new book, which it makes durable.
pub fn reported(rt: &impl Abort, alloc: Global, typed: &[u8]) -> Vec<u8> {
    let (printed, disk) = night_on(rt, alloc, formatted(rt, alloc, Layout::Small), typed);
    drop(disk);
    printed
}

/// Asserts what is printed for each of these nights, over a new book each.
pub fn assert_printed(rt: &impl Abort, alloc: Global, nights: &[Night]) {
    for (n, night) in nights.iter().enumerate() {
        let printed = reported(rt, alloc, night.0);
        holds(rt, printed.as_slice() == night.1, "night", n);
    }
}

/// Asserts what is printed for each of these nights, one after the other over one book.
pub fn assert_goes_on(rt: &impl Abort, alloc: Global, nights: &[Night]) {
    let mut book = fresh(rt, alloc);
    for (n, night) in nights.iter().enumerate() {
        let mut printed = Vec::new(alloc);
        let result = ran(alloc, &mut &night.0[..], &mut printed, &mut book);
        holds(rt, result.is_ok(), "run", n);
        holds(rt, printed.as_slice() == night.1, "night", n);
    }
    drop(book);
}

/// Asserts what is printed for each of these nights, after an opening each of one disk.
pub fn assert_opened_again(rt: &impl Abort, alloc: Global, nights: &[Night]) {
    let mut disk = formatted(rt, alloc, Layout::Small);
    for (n, night) in nights.iter().enumerate() {
        let (printed, left) = night_on(rt, alloc, disk, night.0);
        holds(rt, printed.as_slice() == night.1, "night", n);
        disk = left;
    }
    drop(disk);
}

/// What lines left that were each run by itself over a new book, up to the first that failed.
#[derive(Drop)]
pub struct Left {
    pub result: Result<(), RunFault>,
    /// How many events there were then, and how many of them were durable.
    pub counts: (u64, u64),
    /// The bytes of the records since the opening.
    pub records: Vec<u8>,
    pub disk: MemoryDisk,
}

/// Runs what stands first in each row over a new book, each line by itself, up to the first that
/// fails.
pub fn run_lines<W: Write>(rt: &impl Abort, alloc: Global, rows: &[Night], output: &mut W) -> Left {
    let mut book = fresh(rt, alloc);
    let result = lines_over(alloc, rows, output, &mut book);
    Left {
        result,
        counts: counts(&book),
        records: records(rt, alloc, &book),
        disk: book.into_disk(),
    }
}

fn lines_over<W: Write, D: RunDisk>(
    alloc: Global,
    rows: &[Night],
    output: &mut W,
    book: &mut Book<D>,
) -> Result<(), RunFault> {
    for row in rows.iter() {
        as_printed(alloc, row.0, output, book)?;
    }
    Ok(())
}

/// What stands second in each row, one after the other.
pub fn joined(rt: &impl Abort, alloc: Global, rows: &[Night]) -> Vec<u8> {
    let mut bytes = Vec::new(alloc);
    for row in rows.iter() {
        done(rt, bytes.extend_from_slice(row.1), "memory");
    }
    bytes
}

/// Asserts the reply of each line, run by itself over a new book. Gives what they left.
pub fn printed_so(rt: &impl Abort, alloc: Global, lines: &[Night], row: usize) -> Left {
    let mut printed = Vec::new(alloc);
    let left = run_lines(rt, alloc, lines, &mut printed);
    holds(rt, left.result.is_ok(), "lines", row);
    holds(rt, printed == joined(rt, alloc, lines), "replies", row);
    left
}
