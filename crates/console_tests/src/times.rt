//! Timed inputs: where the time stands before a line, and where it doesn't.

use crate::asserts::{done, holds};
use crate::books::{counts, fresh, ran, ran_strictly};
use crate::readers::{PartReader, Then};
use run_console::{RejectedLine, Rejection, RunFault, TimedInput};
use run_model::Moment;
use std::alloc::Global;
use std::process::Abort;

/// The moments that the clock tells, one for each line, what is typed, what is printed, and how
/// many events there are then.
type Row = (&'static [u64], &'static [u8], &'static [u8], u64);

static ROWS: [Row; 13] = [
    // The clock tells nothing.
    (&[], b"scope root\n", b"live; deadline none\nacked 1\n", 1),
    // There is one line, an empty one.
    (&[7], b"", b"ok\nacked 2\n", 2),
    (&[7], b"\n", b"ok\nacked 2\n", 2),
    (&[0], b"scope root\n", b"live; deadline none\nacked 1\n", 1),
    // A deadline passes by itself, and the line after the last LF comes at no moment.
    (
        &[100, 100, 101],
        b"derive a root deadline 101 late\nscope a\nscope a\n",
        b"ok\nscope 1\nlive; deadline 101\nok\n\
          done; deadline 101; err context deadline exceeded; cause late\nacked 4\n",
        4,
    ),
    // One passes with the end of the input.
    (
        &[100, 160],
        b"derive a root timeout 60\n",
        b"ok\nscope 1\nok\nacked 4\n",
        4,
    ),
    // Each second comes once, and a time that steps back not at all.
    (
        &[200, 150, 200, 201, 201],
        b"scope root\nscope root\nscope root\nscope root\nscope root",
        b"ok\nlive; deadline none\nlive; deadline none\nlive; deadline none\nok\n\
          live; deadline none\nlive; deadline none\nacked 3\n",
        3,
    ),
    // A line of one's own went further.
    (
        &[100, 150, 200, 201],
        b"advance 200\nscope root\nscope root\nscope root\n",
        b"ok\nok\nlive; deadline none\nlive; deadline none\nok\nlive; deadline none\nacked 4\n",
        4,
    ),
    // Another one is to a moment before the time, and is refused.
    (
        &[100, 101],
        b"advance 50\nscope root\n",
        b"ok\nrefused 17 ClockNotForward\nok\nlive; deadline none\nacked 3\n",
        3,
    ),
    // No line is one's own advance: a bad line, one out of range, and one that is too long.
    (
        &[1, 2, 3, 4],
        b"advance 9 9\nadvance 253000000001\nadvance 00000000000009\nscope root",
        b"ok\nbad line\nok\nrefused 18 MomentOutOfRange\nok\nbad line\nok\n\
          live; deadline none\nacked 5\n",
        5,
    ),
    // A written date and time is one.
    (
        &[5, 1_704_074_400, 1_704_074_401],
        b"advance 2024-01-01T03:00:00+01:00\nscope root\nscope root",
        b"ok\nok\nlive; deadline none\nok\nlive; deadline none\nacked 4\n",
        4,
    ),
    // The greatest moment.
    (
        &[253_000_000_000, 253_000_000_000],
        b"scope root\nadvance 253000000000\n",
        b"ok\nlive; deadline none\nrefused 17 ClockNotForward\nacked 2\n",
        2,
    ),
    (
        &[3, 4, 5],
        b"\n\nflush",
        b"ok\nok\nok\nacked 4\nacked 4\n",
        4,
    ),
];

/// How many bytes the inner input gives at a time.
static PARTS: [usize; 3] = [1, 7, 4096];

/// The moments of this many seconds.
fn moments(rt: &impl Abort, alloc: Global, times: &[u64]) -> Vec<Moment> {
    let mut moments = Vec::new(alloc);
    for seconds in times.iter() {
        if let Some(moment) = Moment::new(*seconds) {
            done(rt, moments.push(moment), "memory");
        }
    }
    moments
}

/// What a run prints of a timed input over a new book, how it ends, and how many events there are.
fn timed(
    rt: &impl Abort,
    alloc: Global,
    times: &[u64],
    typed: &[u8],
    part: usize,
    then: Then,
) -> (Result<(), RunFault>, Vec<u8>, u64) {
    let moments = moments(rt, alloc, times);
    let mut book = fresh(rt, alloc);
    let mut output = Vec::new(alloc);
    let clock = book.state().clock();
    let input = PartReader::new(typed, part, then);
    let mut lines = TimedInput::new(clock, moments.as_slice(), input);
    let end = ran(alloc, &mut lines, &mut output, &mut book);
    let (events, _) = counts(&book);
    drop(book);
    (end, output, events)
}

#[test]
fn the_time_stands_before_a_line_where_it_is_later(rt: HostRuntime) {
    for (row, (times, typed, printed, count)) in ROWS.iter().enumerate() {
        for part in PARTS {
            let ends = Then::Ends;
            let (end, output, events) = timed(&rt, rt.alloc(), times, typed, part, ends);
            holds(&rt, end == Ok(()), "end", row);
            holds(&rt, output.as_slice() == *printed, "printed", row);
            holds(&rt, events == *count, "events", row);
        }
    }
}

#[test]
fn a_strict_run_counts_the_advances(rt: HostRuntime) {
    let moments = moments(&rt, rt.alloc(), &[100, 100, 101, 102]);
    let mut book = fresh(&rt, rt.alloc());
    let mut output = Vec::new(rt.alloc());
    let typed = b"derive a root cause\n\nup\nscope a\n".as_slice();
    let input = PartReader::new(typed, 4096, Then::Ends);
    let mut lines = TimedInput::new(book.state().clock(), moments.as_slice(), input);
    let end = ran_strictly(rt.alloc(), &mut lines, &mut output, &mut book);
    drop(book);
    let stray = RejectedLine {
        number: 5,
        why: Rejection::BadLine,
    };
    holds(&rt, end == Ok(Some(stray)), "end", 0);
    let printed = b"ok\nscope 1\nok\nbad line\nacked 4\n".as_slice();
    holds(&rt, output.as_slice() == printed, "printed", 0);
}

#[test]
fn a_read_that_fails_is_reported(rt: HostRuntime) {
    let times = [100, 101, 102];
    let fails = Then::Fails;
    let (end, output, _) = timed(&rt, rt.alloc(), &times, b"scope root\n", 4096, fails);
    holds(&rt, end == Err(RunFault::Input), "end", 0);
    let printed = b"ok\nlive; deadline none\n".as_slice();
    holds(&rt, output.as_slice() == printed, "printed", 0);
}
