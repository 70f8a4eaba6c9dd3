//! Runs that stop where an input or an output fails, or there is no memory: the fault, what was
//! written, and what the book is then.

use crate::asserts::{done, holds};
use crate::readers::{HoardingReader, PartReader, RepeatingReader, Then, WatchingReader};
use crate::runs::{Ended, Night, run_lines, run_new};
use crate::writers::{CountingWriter, End, EndingWriter};
use linked_list_allocator::LocalHeap;
use run_console::RunFault;
use std::alloc::Global;
use std::cell::Cell;
use std::process::Abort;

/// A night. The third line is empty, and the last has no LF.
const TYPED: &[u8] = b"derive a root cause\n\nderive b a cancel\ncancel a disk\ncancel a again\n\
    scope b";

const PRINTED: &[u8] = b"scope 1\nscope 2\nok\nrefused 12 AlreadyDone\n\
    done; deadline none; err context canceled; cause disk\nacked 4\n";

/// How the book is after some of its lines, as the questions show it.
const NEW: &[u8] = b"refused 1 NoSuchScope\nrefused 1 NoSuchScope\nacked 1\n";

const ONE: &[u8] = b"live; deadline none\nrefused 1 NoSuchScope\nacked 2\n";

const TWO: &[u8] = b"live; deadline none\nlive; deadline none\nacked 3\n";

const DONE: &[u8] = b"done; deadline none; err context canceled; cause disk\n\
    done; deadline none; err context canceled; cause disk\nacked 4\n";

/// After each of its lines that an LF ends: how many bytes were typed, how many are replied, and
/// how the book is.
static STEPS: [(usize, usize, &[u8]); 6] = [
    (0, 0, NEW),
    (20, 8, ONE),
    (21, 8, ONE),
    (39, 16, TWO),
    (53, 19, DONE),
    (68, 42, DONE),
];

/// What is replied to the lines that end in the first this many bytes, and how the book is then.
fn after(given: usize) -> (usize, &'static [u8]) {
    let mut found = (0, NEW);
    for (typed, replied, shown) in STEPS.iter() {
        if *typed <= given {
            found = (*replied, *shown);
        }
    }
    found
}

/// Says whether a text is the first this many bytes of another.
fn is_prefix(text: &[u8], whole: &[u8], count: usize) -> bool {
    text.len() == count && whole.starts_with(text)
}

/// Asserts how a run ends whose input fails after this many bytes.
fn assert_unread(rt: &impl Abort, alloc: Global, part: usize, given: usize) {
    let (replied, shown) = after(given);
    let bytes = TYPED.get(..given).unwrap_or(TYPED);
    let mut input = PartReader::new(bytes, part, Then::Fails);
    let mut printed = Vec::new(alloc);
    let ended = run_new(rt, alloc, alloc, &mut input, &mut printed);
    holds(rt, ended.result == Err(RunFault::Input), "fault", given);
    holds(rt, is_prefix(&printed, PRINTED, replied), "replies", given);
    holds(rt, ended.shown.as_slice() == shown, "book", given);
}

#[test]
fn a_failed_read_leaves_no_whole_line_without_its_reply(rt: HostRuntime) {
    for part in [1, 7, 4_096] {
        for given in 0..=TYPED.len() {
            assert_unread(&rt, rt.alloc(), part, given);
        }
    }
}

/// How a book is that is read by one byte at a time, where this many bytes were written and no more
/// can be: the line is run whose reply is cut, and none after it.
fn cut_at(written: usize) -> &'static [u8] {
    for (_, replied, shown) in STEPS.iter() {
        if written < *replied {
            return *shown;
        }
    }
    DONE
}

/// How many bytes are written by so many whole writes, where replies are written line by line, and
/// where all lines are read at once.
static LINE_BY_LINE: [usize; 6] = [0, 8, 16, 19, 42, 104];

static AT_ONCE: [usize; 3] = [0, 42, 104];

/// A writer, and what it comes to: how many bytes it takes at a write, how many writes, its end.
type Writing = (usize, usize, End);

/// Asserts how the night ends, of which this many bytes are written. Where a part of its last line
/// was, that said that all was durable.
fn assert_written(rt: &impl Abort, alloc: Global, part: usize, writing: Writing, written: usize) {
    let (most, writes, end) = writing;
    let mut input = PartReader::new(TYPED, part, Then::Ends);
    let mut output = EndingWriter::new(Vec::new(alloc), most, writes, end);
    let ended = run_new(rt, alloc, alloc, &mut input, &mut output);
    let wanted = match written {
        104 => Ok(()),
        _ => Err(RunFault::Output),
    };
    holds(rt, ended.result == wanted, "fault", written);
    let is_reported = is_prefix(&output.into_written(), PRINTED, written);
    holds(rt, is_reported, "replies", written);
    let shown = match part {
        1 => cut_at(written),
        _ => DONE,
    };
    holds(rt, ended.shown.as_slice() == shown, "book", written);
    let is_durable = written <= 96 || ended.counts == (4, 4);
    holds(rt, is_durable, "durable events", written);
}

#[test]
fn a_failed_write_leaves_a_prefix(rt: HostRuntime) {
    for end in [End::Fails, End::TakesNothing] {
        for writes in 0..=PRINTED.len() {
            assert_written(&rt, rt.alloc(), 1, (1, writes, end), writes);
            assert_written(&rt, rt.alloc(), 4_096, (1, writes, end), writes);
        }
        for (writes, written) in LINE_BY_LINE.iter().enumerate() {
            assert_written(&rt, rt.alloc(), 1, (100, writes, end), *written);
        }
        for (writes, written) in AT_ONCE.iter().enumerate() {
            assert_written(&rt, rt.alloc(), 4_096, (100, writes, end), *written);
        }
    }
}

/// Lines that are run though a reply can't be written: the replies, which are never more than a
/// part of.
const DERIVE: Night = (b"derive a root cause", b"scope 1\n");

const FLUSH: Night = (b"flush", b"acked 2\n");

/// Lines, a writer's bytes at a write and its writes, what is written, and how many events there
/// are then and how many of them are durable: a line is run whose reply can't be written.
static CUT: [(&[Night], (usize, usize), &[u8], (u64, u64)); 4] = [
    (&[DERIVE], (100, 0), b"", (2, 1)),
    (&[DERIVE], (3, 1), b"sco", (2, 1)),
    (&[DERIVE, FLUSH], (3, 3), b"scope 1\n", (2, 2)),
    (&[DERIVE, FLUSH], (3, 4), b"scope 1\nack", (2, 2)),
];

#[test]
fn a_line_is_run_whose_reply_cant_be_written(rt: HostRuntime) {
    for end in [End::Fails, End::TakesNothing] {
        for (n, (lines, (most, writes), written, counts)) in CUT.iter().enumerate() {
            let mut output = EndingWriter::new(Vec::new(rt.alloc()), *most, *writes, end);
            let left = run_lines(&rt, rt.alloc(), lines, &mut output);
            let is_reported = left.result == Err(RunFault::Output) && left.counts == *counts;
            drop(left);
            holds(&rt, is_reported, "line", n);
            holds(&rt, output.into_written().as_slice() == *written, "text", n);
        }
    }
}

/// What is typed with a tally, and what is printed before the tally, and in all.
const TALLY: &[u8] = b"group g root\ngo g spin a\ngo g copy a\ngo g spin b\ntally\n";

const BEFORE: &[u8] = b"group 0 scope 1\ntask 0 ready\ntask 1 ready\ntask 2 ready\n";

const TALLIED: &[u8] = b"group 0 scope 1\ntask 0 ready\ntask 1 ready\ntask 2 ready\n\
    tally spin total 2; success 0; failure 0; interrupted 0\n\
    tally copy total 1; success 0; failure 0; interrupted 0\n\
    acked 5\n";

/// A heap of this many bytes.
pub fn heap(rt: &impl Abort, alloc: Global, bytes: usize) -> LocalHeap {
    done(rt, LocalHeap::new(alloc, bytes), "memory")
}

/// Runs an input over a heap of which this many bytes are spared. Gives what is printed.
fn hoarded(rt: &impl Abort, alloc: Global, typed: &[u8], spared: usize) -> (Ended, Vec<u8>) {
    let heap = heap(rt, alloc, 4_000);
    let mut input = HoardingReader::new(typed, &heap, spared);
    let mut printed = Vec::new(alloc);
    let ended = run_new(rt, alloc, &heap, &mut input, &mut printed);
    (ended, printed)
}

#[test]
fn a_tally_without_memory_has_no_line(rt: HostRuntime) {
    for spared in 0..600 {
        let (ended, printed) = hoarded(&rt, rt.alloc(), TALLY, spared);
        let reported = match ended.result {
            Ok(()) => spared > 0 && printed.as_slice() == TALLIED,
            Err(fault) => fault == RunFault::Memory && printed.as_slice() == BEFORE,
        };
        holds(&rt, reported, "bytes spared", spared);
        holds(
            &rt,
            ended.counts.0 == 5,
            "lines before it, bytes spared",
            spared,
        );
    }
}

#[test]
fn other_replies_take_no_memory(rt: HostRuntime) {
    let (ended, printed) = hoarded(&rt, rt.alloc(), TYPED, 0);
    let is_reported = ended.result.is_ok() && printed.as_slice() == PRINTED;
    holds(&rt, is_reported, "bytes spared", 0);
}

#[test]
fn memory_is_given_back(rt: HostRuntime) {
    for (n, (mut typed, wanted)) in [(TYPED, PRINTED), (TALLY, TALLIED)].into_iter().enumerate() {
        let heap = heap(&rt, rt.alloc(), 4_000);
        let mut printed = Vec::new(rt.alloc());
        let ended = run_new(&rt, rt.alloc(), &heap, &mut typed, &mut printed);
        let is_reported = ended.result.is_ok() && printed.as_slice() == wanted;
        holds(&rt, is_reported && heap.used() == 0, "night", n);
    }
}

/// Lines, how many `x` come after them, how the run ends, what is printed, and how many bytes are
/// not read: one byte more is read than an input may have.
static SIZES: [(&[u8], usize, Result<(), RunFault>, &[u8], usize); 5] = [
    (b"", 16_777_216, Ok(()), b"bad line\nacked 1\n", 0),
    (b"", 16_777_217, Err(RunFault::InputTooLong), b"", 0),
    (b"", 16_777_317, Err(RunFault::InputTooLong), b"", 100),
    (
        b"derive a root cause\n",
        16_777_196,
        Ok(()),
        b"scope 1\nbad line\nacked 2\n",
        0,
    ),
    (
        b"derive a root cause\n",
        16_777_197,
        Err(RunFault::InputTooLong),
        b"scope 1\n",
        0,
    ),
];

#[test]
fn an_input_has_at_most_16777216_bytes(rt: HostRuntime) {
    for (n, (lines, more, result, wanted, unread)) in SIZES.iter().enumerate() {
        let mut input = RepeatingReader::new(lines, *more);
        let mut printed = Vec::new(rt.alloc());
        let ended = run_new(&rt, rt.alloc(), rt.alloc(), &mut input, &mut printed);
        let is_read = ended.result == *result && input.left() == *unread;
        holds(&rt, is_read, "input", n);
        holds(&rt, printed.as_slice() == *wanted, "replies to input", n);
    }
}

#[test]
fn a_line_is_replied_to_before_the_next_read(rt: HostRuntime) {
    let written = Cell::new(0);
    let mut input = WatchingReader::new(TYPED, &written, Vec::new(rt.alloc()));
    let mut output = CountingWriter::new(&written);
    let ended = run_new(&rt, rt.alloc(), rt.alloc(), &mut input, &mut output);
    let is_whole = ended.result.is_ok() && written.get() == PRINTED.len();
    holds(&rt, is_whole, "bytes written", written.get());
    // The last line has no LF, so the end is read before it is run.
    let is_seen = input.seen() == [0, 8, 8, 16, 19, 42, 42].as_slice();
    holds(&rt, is_seen, "written before each read, bytes", 42);
}
