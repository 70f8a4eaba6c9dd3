//! Long nights: what is typed and what is printed stands in parts, many lines of one form as one.

use crate::asserts::{done, holds};
use crate::books::formatted;
use crate::runs::night_on;
use run_disk::MemoryDisk;
use run_model::Layout;
use std::alloc::Global;
use std::process::Abort;

/// A part of a night.
pub enum Part {
    /// These bytes are typed, and those printed, this many times.
    Times(usize, &'static [u8], &'static [u8]),
    /// For each number from one on and below another, a line is typed in which it stands between
    /// two words.
    Typed(usize, usize, &'static str, &'static str),
    /// So such lines are printed.
    Printed(usize, usize, &'static str, &'static str),
}

/// Adds lines in which a number stands between two words.
fn add_numbered(
    rt: &impl Abort,
    alloc: Global,
    bytes: &mut Vec<u8>,
    from: usize,
    to: usize,
    begin: &str,
    end: &str,
) {
    for number in from..to {
        let line = done(rt, format!(in alloc; "{begin}{number}{end}\n"), "memory");
        done(rt, bytes.extend_from_slice(line.as_bytes()), "memory");
    }
}

/// Adds the same bytes this many times.
fn add_times(rt: &impl Abort, bytes: &mut Vec<u8>, times: usize, more: &[u8]) {
    for _ in 0..times {
        done(rt, bytes.extend_from_slice(more), "memory");
    }
}

/// What is typed in a night, and what is printed.
pub fn whole(rt: &impl Abort, alloc: Global, parts: &[Part]) -> (Vec<u8>, Vec<u8>) {
    let mut typed = Vec::new(alloc);
    let mut printed = Vec::new(alloc);
    for part in parts.iter() {
        match part {
            Part::Times(times, line, reply) => {
                add_times(rt, &mut typed, *times, line);
                add_times(rt, &mut printed, *times, reply);
            }
            Part::Typed(from, to, begin, end) => {
                add_numbered(rt, alloc, &mut typed, *from, *to, begin, end);
            }
            Part::Printed(from, to, begin, end) => {
                add_numbered(rt, alloc, &mut printed, *from, *to, begin, end);
            }
        }
    }
    (typed, printed)
}

/// Runs a night over a new book of a layout, and asserts what is printed. Gives the disk.
fn left_by(
    rt: &impl Abort,
    alloc: Global,
    layout: Layout,
    parts: &[Part],
    row: usize,
) -> MemoryDisk {
    let (typed, wanted) = whole(rt, alloc, parts);
    let (printed, disk) = night_on(rt, alloc, formatted(rt, alloc, layout), &typed);
    holds(rt, printed == wanted, "night", row);
    disk
}

/// Asserts what is printed for each of these nights, over a new book of a layout each.
pub fn assert_parts(rt: &impl Abort, alloc: Global, layout: Layout, nights: &[&[Part]]) {
    for (n, parts) in nights.iter().enumerate() {
        drop(left_by(rt, alloc, layout, parts, n));
    }
}

/// Asserts so, and how many device calls there are, those of a format and of an opening among them.
pub fn assert_calls(rt: &impl Abort, alloc: Global, nights: &[(&[Part], u64)]) {
    for (n, (parts, calls)) in nights.iter().enumerate() {
        let disk = left_by(rt, alloc, Layout::Small, parts, n);
        holds(rt, disk.calls() == *calls, "calls of night", n);
        drop(disk);
    }
}
