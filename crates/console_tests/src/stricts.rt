//! Strict runs: which line is rejected, what is printed up to it, and what is left after it.

use crate::asserts::{done, holds};
use crate::books::{counts, formatted, opened, ran_strictly};
use crate::parts::{Part, whole};
use crate::readers::{PartReader, Then};
use crate::writers::{End, EndingWriter};
use run_console::{RejectedLine, Rejection, RunFault};
use run_disk::{FailOnce, RunDisk};
use run_model::{Fault, Layout, Refusal, Trouble};
use std::alloc::Global;
use std::io::{Read, Write};
use std::process::Abort;

/// What is typed, what is printed, the number of the rejected line and why it does, and how many
/// events there are then.
type Row = (&'static [u8], &'static [u8], Option<(u64, Rejection)>, u64);

/// The line of this number, where there is one.
fn line(stray: Option<(u64, Rejection)>) -> Option<RejectedLine> {
    match stray {
        Some((number, why)) => Some(RejectedLine { number, why }),
        None => None,
    }
}

/// Runs an input strictly over a disk that holds a store. Gives how it ended, and how many events
/// there are then and how many of them are durable.
fn run_strictly<R: Read, W: Write, D: RunDisk + Drop>(
    rt: &impl Abort,
    alloc: Global,
    disk: D,
    input: &mut R,
    output: &mut W,
) -> (Result<Option<RejectedLine>, RunFault>, (u64, u64)) {
    let mut book = opened(rt, alloc, disk);
    let result = ran_strictly(alloc, input, output, &mut book);
    let counts = counts(&book);
    drop(book);
    (result, counts)
}

static ROWS: [Row; 14] = [
    (b"", b"acked 1\n", None, 1),
    (b"\n\n", b"acked 1\n", None, 1),
    (
        b"derive a root cause\ntally\nflush\ncancel a disk\nscope a\n",
        b"scope 1\nacked 2\nok\n\
          done; deadline none; err context canceled; cause disk\nacked 3\n",
        None,
        3,
    ),
    (
        b"up\nderive a root cause\n",
        b"bad line\nacked 1\n",
        Some((1, Rejection::BadLine)),
        1,
    ),
    (
        b"derive a root cancel\n\ncancel a\ncancel a\nderive b root cause\n",
        b"scope 1\nok\nrefused 12 AlreadyDone\nacked 3\n",
        Some((4, Rejection::Refused(Refusal::AlreadyDone))),
        3,
    ),
    (
        b"\nscope root\n\nscope a\nderive a root cause\n",
        b"live; deadline none\nrefused 1 NoSuchScope\nacked 1\n",
        Some((4, Rejection::Refused(Refusal::NoSuchScope))),
        1,
    ),
    (
        b"derive a root cause\nderive b a cancel\nup",
        b"scope 1\nscope 2\nbad line\nacked 3\n",
        Some((3, Rejection::BadLine)),
        3,
    ),
    (
        b"derive a root cause\nscope A",
        b"scope 1\nrefused 5 BadName\nacked 2\n",
        Some((2, Rejection::Refused(Refusal::BadName))),
        2,
    ),
    (
        b"group g root\ngo g copy a\nwait g\ntally\n",
        b"group 0 scope 1\ntask 0 ready\nrefused 16 Unfinished 1\nacked 3\n",
        Some((3, Rejection::Refused(Refusal::Unfinished(1)))),
        3,
    ),
    (
        b"group g root\ngo g copy a\ntally\nstart\nstart\nfinish 0 ok\n",
        b"group 0 scope 1\ntask 0 ready\n\
          tally copy total 1; success 0; failure 0; interrupted 0\n\
          start 0 copy a\nrefused 19 NothingReady\nacked 4\n",
        Some((5, Rejection::Refused(Refusal::NothingReady))),
        4,
    ),
    (
        b"task 0\ngroup g root\n",
        b"refused 3 NoSuchTask\nacked 1\n",
        Some((1, Rejection::Refused(Refusal::NoSuchTask))),
        1,
    ),
    (
        b"flush\r\nup\n",
        b"bad line\nacked 1\n",
        Some((1, Rejection::CarriageReturn)),
        1,
    ),
    (
        b"scope root\nflush\r",
        b"live; deadline none\nbad line\nacked 1\n",
        Some((2, Rejection::CarriageReturn)),
        1,
    ),
    (
        b"checkpoint\nresult g\n",
        b"acked 1\nrefused 2 NoSuchGroup\nacked 1\n",
        Some((2, Rejection::Refused(Refusal::NoSuchGroup))),
        1,
    ),
];

#[test]
fn a_strict_run_ends_after_the_first_rejected_line(rt: HostRuntime) {
    for part in [1, 7, 4_096] {
        for (n, (typed, wanted, stray, events)) in ROWS.iter().enumerate() {
            let disk = formatted(&rt, rt.alloc(), Layout::Small);
            let mut input = PartReader::new(typed, part, Then::Ends);
            let mut printed = Vec::new(rt.alloc());
            let ended = run_strictly(&rt, rt.alloc(), disk, &mut input, &mut printed);
            holds(&rt, ended.0 == Ok(line(*stray)), "end of row", n);
            holds(&rt, printed.as_slice() == *wanted, "row", n);
            holds(&rt, ended.1 == (*events, *events), "events of row", n);
        }
    }
}

/// A run ends after the line of this number, which is refused.
fn refused(number: u64, why: Refusal) -> Result<Option<RejectedLine>, RunFault> {
    Ok(line(Some((number, Rejection::Refused(why)))))
}

/// Questions, a line that is refused, and 5,000 bytes after it. The questions have 13,200 bytes, so
/// three reads of 4,096 bytes each don't have them all.
static LONG: [Part; 3] = [
    Part::Times(1_200, b"scope root\n", b"live; deadline none\n"),
    Part::Times(1, b"cancel root\n", b"refused 10 NotCancellable\nacked 1\n"),
    Part::Times(250, b"derive a root cause\n", b""),
];

#[test]
fn no_more_is_read_after_the_part_of_the_rejected_line(rt: HostRuntime) {
    let (typed, wanted) = whole(&rt, rt.alloc(), &LONG);
    let mut input = typed.as_slice();
    let mut printed = Vec::new(rt.alloc());
    let disk = formatted(&rt, rt.alloc(), Layout::Small);
    let ended = run_strictly(&rt, rt.alloc(), disk, &mut input, &mut printed);
    let is_reported = ended.0 == refused(1_201, Refusal::NotCancellable);
    holds(&rt, is_reported, "the line that strays", 1_201);
    holds(&rt, printed == wanted, "what is printed", 0);
    holds(&rt, ended.1 == (1, 1), "the lines after it", 0);
    // Of 18,212 bytes four parts were read.
    holds(&rt, input.len() == 1_828, "what isn't read", 0);
}

/// Two lines that are accepted, one that is rejected, and one after it.
const TYPED: &[u8] = b"derive a root cancel\ncancel a\ncancel a\nderive b root cause\n";

const PRINTED: &[u8] = b"scope 1\nok\nrefused 12 AlreadyDone\nacked 3\n";

/// What is replied to the lines that end in the first so many bytes, and how many events there are
/// then.
fn after(given: usize) -> (usize, u64) {
    match given {
        0..=20 => (0, 1),
        21..=29 => (8, 2),
        _ => (11, 3),
    }
}

#[test]
fn a_failed_read_before_the_rejected_line_is_a_fault(rt: HostRuntime) {
    for given in 0..=TYPED.len() {
        let bytes = TYPED.get(..given).unwrap_or(TYPED);
        let disk = formatted(&rt, rt.alloc(), Layout::Small);
        let mut input = PartReader::new(bytes, 1, Then::Fails);
        let mut printed = Vec::new(rt.alloc());
        let (result, counts) = run_strictly(&rt, rt.alloc(), disk, &mut input, &mut printed);
        let (replied, events) = after(given);
        // The third line ends with the 39th byte. Where that is there, nothing is read after it.
        let reported = match given {
            0..=38 => {
                result == Err(RunFault::Input)
                    && printed.len() == replied
                    && PRINTED.starts_with(&printed)
                    && counts == (events, 1)
            }
            _ => {
                result == refused(3, Refusal::AlreadyDone)
                    && printed.as_slice() == PRINTED
                    && counts == (3, 3)
            }
        };
        holds(&rt, reported, "a read fails after byte", given);
    }
}

/// Where so many bytes can be written, how many events there are, and how many of them are durable:
/// all that is replied is written at the end, after the flush.
fn cut_at(written: usize, part: usize) -> (u64, u64) {
    match (part, written) {
        (1, 0..=7) => (2, 1),
        (1, 8..=10) => (3, 1),
        _ => (3, 3),
    }
}

#[test]
fn a_failed_write_is_a_fault_and_runs_no_line_after_the_rejected_one(rt: HostRuntime) {
    for end in [End::Fails, End::TakesNothing] {
        for part in [1, 4_096] {
            for written in 0..PRINTED.len() {
                let disk = formatted(&rt, rt.alloc(), Layout::Small);
                let mut input = PartReader::new(TYPED, part, Then::Ends);
                let mut output = EndingWriter::new(Vec::new(rt.alloc()), 1, written, end);
                let ended = run_strictly(&rt, rt.alloc(), disk, &mut input, &mut output);
                let printed = output.into_written();
                let is_prefix = printed.len() == written && PRINTED.starts_with(&printed);
                holds(
                    &rt,
                    ended.0 == Err(RunFault::Output),
                    "bytes, fault",
                    written,
                );
                holds(&rt, is_prefix, "bytes written", written);
                holds(
                    &rt,
                    ended.1 == cut_at(written, part),
                    "bytes, events",
                    written,
                );
            }
        }
    }
}

/// A format makes 8 calls, an opening 10, and a flush 6: the disk fails in one of these.
#[test]
fn a_failed_flush_acknowledges_nothing(rt: HostRuntime) {
    let wanted = b"scope 1\nok\nrefused 12 AlreadyDone\nfault 2 DiskFailed\n".as_slice();
    let failed = Err(RunFault::Store(Trouble::Faulty(Fault::DiskFailed)));
    for call in 0..6 {
        let disk = FailOnce::new(formatted(&rt, rt.alloc(), Layout::Small), 11 + call);
        let mut input = TYPED;
        let mut printed = Vec::new(rt.alloc());
        let ended = run_strictly(&rt, rt.alloc(), disk, &mut input, &mut printed);
        holds(&rt, ended.0 == failed, "fault at call", call as usize);
        holds(
            &rt,
            printed.as_slice() == wanted,
            "text at call",
            call as usize,
        );
        holds(&rt, ended.1 == (3, 1), "events at call", call as usize);
    }
}

#[test]
fn a_rejected_line_is_printed_by_its_number_and_its_reply(rt: HostRuntime) {
    let bad = RejectedLine {
        number: 7,
        why: Rejection::BadLine,
    };
    let refused = RejectedLine {
        number: 16_777_217,
        why: Rejection::Refused(Refusal::Unfinished(2)),
    };
    let reported = done(&rt, format!(in rt.alloc(); "{bad}, {refused}"), "memory");
    assert!(rt; reported.as_str() == "line 7: bad line, line 16777217: refused 16 Unfinished 2");
}
