//! Lines that make a night last: what a stop leaves, and what a device that fails, or numbers that
//! are spent, put an end to.

use crate::asserts::{done, holds};
use crate::books::{as_printed, counts, formatted, image, opened, ran, stored};
use crate::parts::Part::{self, Times, Typed};
use crate::parts::whole;
use crate::runs::{Ended, Night, night_on, printed_so, run_on, run_over};
use crate::writers::{End, EndingWriter};
use run_book::Book;
use run_console::RunFault;
use run_disk::{FailOnce, Fuse, MemoryDisk, RunDisk, Torn};
use run_model::{Fault, Layout, Refusal, Trouble};
use std::alloc::Global;
use std::io::Write;
use std::process::Abort;

/// How a crash may tear what was not synced, so that it stays closed, and so that it opens.
static TEARS: [(Torn, Torn); 3] = [
    (Torn::Keep, Torn::Take),
    (Torn::Fill(0), Torn::Fill(0xA7)),
    (Torn::Prefix(0), Torn::Prefix(1)),
];

/// Asserts how many events are stored in what a stop after this many calls leaves, torn so that all
/// that was not synced stays closed, and so that it opens.
fn assert_stored(
    rt: &impl Abort,
    alloc: Global,
    disk: &MemoryDisk,
    calls: u64,
    closed: u64,
    open: u64,
) {
    for (n, (keeps, takes)) in TEARS.iter().enumerate() {
        let is_closed = stored(rt, alloc, disk, calls, *keeps) == closed;
        let is_open = stored(rt, alloc, disk, calls, *takes) == open;
        holds(rt, is_closed, "closed", n);
        holds(rt, is_open, "open", n);
    }
}

/// The lines before the last save, each run by itself.
const LINES: [Night; 6] = [
    (b"derive a root cause", b"scope 1\n"),
    (b"derive b a cancel", b"scope 2\n"),
    (b"cancel a disk", b"ok\n"),
    (b"flush", b"acked 4\n"),
    (b"derive c root cancel", b"scope 3\n"),
    (b"derive d root cancel", b"scope 4\n"),
];

/// The last save, and how many device calls it makes.
static SAVES: [(&[u8], u64); 2] = [(b"flush", 6), (b"checkpoint", 7)];

/// How many events are stored after this many calls of a save, of which the last but one opens a
/// gate and the last syncs.
fn saved_after(made: u64, calls: u64) -> (u64, u64) {
    if made < calls.saturating_sub(1) {
        (4, 4)
    } else if made < calls {
        (4, 6)
    } else {
        (6, 6)
    }
}

/// A format makes 8 calls, an opening 10, and the first flush 6.
const BEFORE: u64 = 24;

#[test]
fn a_stop_leaves_what_was_acknowledged(rt: HostRuntime) {
    for (n, (last, calls)) in SAVES.iter().enumerate() {
        let [one, two, three, four, five, six] = LINES;
        let last = (*last, b"acked 6\n".as_slice());
        let lines = [one, two, three, four, five, six, last];
        let left = printed_so(&rt, rt.alloc(), &lines, n);
        let all = calls.saturating_add(BEFORE);
        let is_saved = left.counts == (6, 6) && left.disk.calls() == all;
        holds(&rt, is_saved, "save", n);
        for made in 0..=*calls {
            let (closed, open) = saved_after(made, *calls);
            let after = made.saturating_add(BEFORE);
            assert_stored(&rt, rt.alloc(), &left.disk, after, closed, open);
        }
        drop(left);
    }
}

/// Lines with saves among them.
const SAVING: Night = (
    b"derive a root cause\n\
      derive b a cancel\n\
      cancel a disk\n\
      flush\n\
      derive c root cancel\n\
      derive d root cancel\n\
      flush\n\
      group g root\n\
      go g copy a\n\
      checkpoint\n\
      start\n\
      flush\n",
    b"scope 1\n\
      scope 2\n\
      ok\n\
      acked 4\n\
      scope 3\n\
      scope 4\n\
      acked 6\n\
      group 0 scope 5\n\
      task 0 ready\n\
      acked 8\n\
      start 0 copy a\n\
      acked 9\n\
      acked 9\n",
);

/// From one number of calls to another, how many events are stored.
static STORED: [(u64, u64, u64, u64); 11] = [
    (0, 8, 0, 0),
    (9, 9, 0, 1),
    (10, 14, 1, 1),
    (15, 15, 1, 4),
    (16, 20, 4, 4),
    (21, 21, 4, 6),
    (22, 27, 6, 6),
    (28, 28, 6, 8),
    (29, 33, 8, 8),
    (34, 34, 8, 9),
    (35, 35, 9, 9),
];

#[test]
fn a_stop_at_each_call_of_a_run_leaves_what_was_acknowledged(rt: HostRuntime) {
    let disk = formatted(&rt, rt.alloc(), Layout::Small);
    let (printed, disk) = night_on(&rt, rt.alloc(), disk, SAVING.0);
    let is_reported = printed.as_slice() == SAVING.1 && disk.calls() == 43;
    holds(&rt, is_reported, "calls", 43);
    for (from, to, closed, open) in STORED.iter() {
        for calls in *from..=*to {
            let made = calls.saturating_add(8);
            assert_stored(&rt, rt.alloc(), &disk, made, *closed, *open);
        }
    }
    drop(disk);
}

const FAILED: RunFault = RunFault::Store(Trouble::Faulty(Fault::DiskFailed));

const BROKEN: RunFault = RunFault::Store(Trouble::Refused(Refusal::Broken));

/// A night with a flush, a checkpoint, and the flush at its end.
const TYPED: &[u8] = b"derive a root cause\nflush\nderive b a cancel\ncheckpoint\ncancel a";

const PRINTED: &[u8] = b"scope 1\nacked 2\nscope 2\nacked 3\nok\nacked 4\n";

/// Where the device fails at one of its calls, from one number on and below another: what is
/// printed, and how many events there are then and how many of them are durable.
static FAILING: [(u64, u64, &[u8], (u64, u64)); 3] = [
    (0, 6, b"scope 1\nfault 2 DiskFailed\n", (2, 1)),
    (
        6,
        13,
        b"scope 1\nacked 2\nscope 2\nfault 2 DiskFailed\n",
        (3, 2),
    ),
    (
        13,
        19,
        b"scope 1\nacked 2\nscope 2\nacked 3\nok\nfault 2 DiskFailed\n",
        (4, 3),
    ),
];

/// Asserts that a broken book is neither run over nor asked, and stays as it is.
fn assert_broken<D: RunDisk>(rt: &impl Abort, alloc: Global, book: &mut Book<D>, row: usize) {
    let before = counts(book);
    let mut input = TYPED;
    let mut output = Vec::new(alloc);
    let run = ran(alloc, &mut input, &mut output, book);
    holds(rt, run == Err(BROKEN), "a run after fault", row);
    let line = as_printed(alloc, b"scope a", &mut output, book);
    holds(rt, line == Err(BROKEN), "a line after fault", row);
    let is_same = input.len() == TYPED.len() && counts(book) == before;
    let is_still = is_same && output.is_empty();
    holds(rt, is_still, "nothing done after fault", row);
}

/// Asserts how the night ends over a disk that fails.
fn assert_fails<D: RunDisk + Drop>(
    rt: &impl Abort,
    alloc: Global,
    disk: D,
    wanted: &[u8],
    events: (u64, u64),
    row: usize,
) {
    let mut book = opened(rt, alloc, disk);
    let mut printed = Vec::new(alloc);
    let ended = run_over(alloc, alloc, &mut &TYPED[..], &mut printed, &mut book);
    holds(rt, ended.result == Err(FAILED), "fault", row);
    let is_reported = printed.as_slice() == wanted;
    holds(rt, is_reported, "replies before fault", row);
    holds(rt, ended.counts == events, "events before fault", row);
    assert_broken(rt, alloc, &mut book, row);
    drop(book);
}

/// Asserts so for a device that fails for good after this many calls of the night, and for one that
/// fails the next call alone. A format makes no call of these, and an opening 10.
fn assert_fails_after(
    rt: &impl Abort,
    alloc: Global,
    calls: u64,
    wanted: &[u8],
    events: (u64, u64),
) {
    let row = calls.min(100) as usize;
    let disk = formatted(rt, alloc, Layout::Small);
    let fuse = Fuse::new(disk, calls.saturating_add(10));
    assert_fails(rt, alloc, fuse, wanted, events, row);
    let disk = formatted(rt, alloc, Layout::Small);
    let once = FailOnce::new(disk, calls.saturating_add(11));
    assert_fails(rt, alloc, once, wanted, events, row);
}

#[test]
fn a_failed_device_ends_a_run(rt: HostRuntime) {
    for (from, to, wanted, events) in FAILING.iter() {
        for calls in *from..*to {
            assert_fails_after(&rt, rt.alloc(), calls, wanted, *events);
        }
    }
}

/// Runs an input over a device that fails after this many of its calls.
fn fused<W: Write>(
    rt: &impl Abort,
    alloc: Global,
    calls: u64,
    mut typed: &[u8],
    output: &mut W,
) -> Ended {
    let disk = formatted(rt, alloc, Layout::Small);
    let fuse = Fuse::new(disk, calls.saturating_add(10));
    run_on(rt, alloc, alloc, fuse, &mut typed, output)
}

#[test]
fn a_night_makes_no_call_more(rt: HostRuntime) {
    let mut printed = Vec::new(rt.alloc());
    let ended = fused(&rt, rt.alloc(), 19, TYPED, &mut printed);
    let is_whole = ended.result.is_ok() && ended.counts == (4, 4);
    holds(&rt, is_whole && printed.as_slice() == PRINTED, "calls", 19);
}

/// Replies, and the line of a fault.
const CUT: &[u8] = b"scope 1\nfault 2 DiskFailed\n";

/// Where the replies before a fault can't be written, it is told as that; else its own line is cut.
#[test]
fn a_fault_is_printed_as_far_as_it_goes(rt: HostRuntime) {
    for end in [End::Fails, End::TakesNothing] {
        for writes in 0..=CUT.len() {
            let mut output = EndingWriter::new(Vec::new(rt.alloc()), 1, writes, end);
            let typed = b"derive a root cause\nflush\n";
            let ended = fused(&rt, rt.alloc(), 0, typed, &mut output);
            let wanted = if writes < 8 { RunFault::Output } else { FAILED };
            let printed = output.into_written();
            let is_prefix = printed.len() == writes && CUT.starts_with(&printed);
            let is_left = ended.counts == (2, 1) && ended.shown.is_empty();
            holds(&rt, ended.result == Err(wanted), "fault at write", writes);
            holds(&rt, is_prefix, "text at write", writes);
            holds(&rt, is_left, "book at write", writes);
        }
    }
}

/// A store whose generation is the last but one, so that no checkpoint is left after its opening.
fn last_but_one(rt: &impl Abort, alloc: Global) -> MemoryDisk {
    let disk = formatted(rt, alloc, Layout::Small);
    let image = image(rt, alloc, &disk, 8, Torn::Keep);
    drop(disk);
    let head = b"\xa7\x7f\xff\xff\xff\xff\xff\xff\xfe";
    let mut bytes = done(rt, Vec::from_slice(alloc, head), "memory");
    let rest = image.get(head.len()..).unwrap_or(head);
    done(rt, bytes.extend_from_slice(rest), "memory");
    done(rt, MemoryDisk::from_bytes(alloc, bytes), "memory")
}

const ONE_EVENT: &[Part] = &[Times(
    1,
    b"derive a root cause\ncheckpoint\nflush\n",
    b"scope 1\nfault 10 NumbersSpent\n",
)];

/// A flush that must be a checkpoint, since its batch doesn't fit.
const NO_BATCH: &[Part] = &[
    Typed(1, 23_832, "advance ", ""),
    Times(23_831, b"", b"ok\n"),
    Times(1, b"flush\nscope root\n", b"fault 10 NumbersSpent\n"),
];

/// The flush at the end of the input.
const AT_THE_END: &[Part] = &[
    Typed(1, 23_832, "advance ", ""),
    Times(23_831, b"", b"ok\n"),
    Times(1, b"", b"fault 10 NumbersSpent\n"),
];

const NO_SCOPES: &[u8] = b"refused 1 NoSuchScope\nrefused 1 NoSuchScope\nfault 10 NumbersSpent\n";

/// What is typed and printed, how many events there are then, and what the book is asked and told
/// after it: it isn't broken.
static SPENT: [(&[Part], u64, &[u8]); 3] = [
    (
        ONE_EVENT,
        2,
        b"live; deadline none\nrefused 1 NoSuchScope\nacked 2\n",
    ),
    (NO_BATCH, 23_832, NO_SCOPES),
    (AT_THE_END, 23_832, NO_SCOPES),
];

#[test]
fn spent_numbers_end_a_run_and_break_no_book(rt: HostRuntime) {
    let spent = RunFault::Store(Trouble::Faulty(Fault::NumbersSpent));
    for (n, (parts, events, shown)) in SPENT.iter().enumerate() {
        let (typed, wanted) = whole(&rt, rt.alloc(), parts);
        let mut printed = Vec::new(rt.alloc());
        let ended = run_spent(&rt, rt.alloc(), &typed, &mut printed);
        let is_reported = ended.result == Err(spent) && printed == wanted;
        let is_left = ended.counts == (*events, 1) && ended.shown.as_slice() == *shown;
        holds(&rt, is_reported, "night", n);
        holds(&rt, is_left, "book after night", n);
    }
}

/// Runs an input over a book of the last generation.
fn run_spent(rt: &impl Abort, alloc: Global, mut typed: &[u8], output: &mut Vec<u8>) -> Ended {
    let disk = last_but_one(rt, alloc);
    run_on(rt, alloc, alloc, disk, &mut typed, output)
}
