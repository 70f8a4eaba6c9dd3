//! Nights that come to their end: what a person types, and what is printed.

use crate::asserts::holds;
use crate::runs::{Night, assert_goes_on, assert_printed, joined, printed_so, run_lines};

/// Without lines only the count is printed.
const NO_INPUT: Night = (b"", b"acked 1\n");

const EMPTY_LINE: Night = (b"\n", b"acked 1\n");

const EMPTY_LINES: Night = (b"\n\n\n", b"acked 1\n");

const CANCELLED_PARENT: Night = (
    b"derive a root cause\n\
     derive b a cancel\n\
     cancel a disk\n\
     scope b\n",
    b"scope 1\n\
     scope 2\n\
     ok\n\
     done; deadline none; err context canceled; cause disk\n\
     acked 4\n",
);

const CHILD_FIRST: Night = (
    b"derive p root cause\n\
     derive c p cause\n\
     cancel c a\n\
     cancel p b\n\
     scope c\n\
     scope p\n",
    b"scope 1\n\
     scope 2\n\
     ok\n\
     ok\n\
     done; deadline none; err context canceled; cause a\n\
     done; deadline none; err context canceled; cause b\n\
     acked 5\n",
);

const CHILD_AGAIN: Night = (
    b"derive p root cause\n\
     derive c p cause\n\
     cancel c a\n\
     cancel p b\n\
     cancel c again\n",
    b"scope 1\n\
     scope 2\n\
     ok\n\
     ok\n\
     refused 12 AlreadyDone\n\
     acked 5\n",
);

/// A last line needs no line feed.
const OPEN_LINE: Night = (
    b"derive a root cause\n\ncancel a\nscope a",
    b"scope 1\n\
     ok\n\
     done; deadline none; err context canceled; cause context canceled\n\
     acked 3\n",
);

/// An empty word is a word.
const EMPTY_WORDS: Night = (
    b"derive a root cause\n\
     scope \n\
     derive  root cancel\n\
     derive b root cancel \n \
     scope root\n \n\
     cancel a \n\
     cancel  x\n\
     scope a\n",
    b"scope 1\n\
     refused 5 BadName\n\
     refused 5 BadName\n\
     bad line\n\
     bad line\n\
     bad line\n\
     refused 6 BadText\n\
     refused 5 BadName\n\
     live; deadline none\n\
     acked 2\n",
);

/// Lines that save what there is, and such as are none.
const SAVING: Night = (
    b"flush\nderive a root cause\nflush\nflush\ncheckpoint\nflush \ncheckpoint x\nFlush\n",
    b"acked 1\nscope 1\nacked 2\nacked 2\nacked 2\nbad line\nbad line\nbad line\nacked 2\n",
);

static NIGHTS: [Night; 9] = [
    NO_INPUT,
    EMPTY_LINE,
    EMPTY_LINES,
    CANCELLED_PARENT,
    CHILD_FIRST,
    CHILD_AGAIN,
    OPEN_LINE,
    EMPTY_WORDS,
    SAVING,
];

#[test]
fn nights_are_printed(rt: HostRuntime) {
    assert_printed(&rt, rt.alloc(), &NIGHTS);
}

/// Lines that change nothing, and their replies: a line is any bytes but the line feed.
static ODD_LINES: [Night; 12] = [
    (b"scope root\r", b"refused 5 BadName\n"),
    (b"derive b root cause\r", b"bad line\n"),
    (b"cancel a x\r", b"refused 6 BadText\n"),
    (b"\r", b"bad line\n"),
    (b"scope ro\0ot", b"refused 5 BadName\n"),
    (b"cancel a x\0", b"refused 6 BadText\n"),
    (b"\0", b"bad line\n"),
    (b"cancel a \x80", b"refused 6 BadText\n"),
    (b"cancel a \xff\xfe", b"refused 6 BadText\n"),
    (b"scope \xc3\xa9", b"refused 5 BadName\n"),
    (b"\x80", b"bad line\n"),
    (b"scope root", b"live; deadline none\n"),
];

#[test]
fn a_line_is_any_bytes_but_the_line_feed(rt: HostRuntime) {
    for (n, odd) in ODD_LINES.iter().enumerate() {
        let lines = [
            (b"derive a root cause".as_slice(), b"scope 1\n".as_slice()),
            *odd,
        ];
        let left = printed_so(&rt, rt.alloc(), &lines, n);
        holds(&rt, left.counts == (2, 1), "nothing is changed by line", n);
        drop(left);
    }
}

/// Lines, each with its reply.
static LINES: [Night; 6] = [
    (b"derive a root cause", b"scope 1\n"),
    (b"derive b a cancel", b"scope 2\n"),
    (b"", b""),
    (b"cancel a disk", b"ok\n"),
    (b"cancel a again", b"refused 12 AlreadyDone\n"),
    (
        b"scope b",
        b"done; deadline none; err context canceled; cause disk\n",
    ),
];

/// Their records: a scope, one below it, and the cancel of the first.
const RECORDS: &[u8] = b"\x01\0\x05\x01a\0\0\x02\x01\0\x05\x01b\0\x01\x01\x02\0\x07\0\x01\x04disk";

#[test]
fn lines_change_the_session(rt: HostRuntime) {
    let left = printed_so(&rt, rt.alloc(), &LINES, 0);
    holds(&rt, left.counts == (4, 1), "events", 0);
    holds(&rt, left.records.as_slice() == RECORDS, "records", 0);
    drop(left);
}

/// Lines that are events, each with its record.
static EVENTS: [Night; 16] = [
    (b"derive a root cause", b"\x01\0\x05\x01a\0\0\x02"),
    (b"derive b a cancel", b"\x01\0\x05\x01b\0\x01\x01"),
    (b"cancel a disk", b"\x02\0\x07\0\x01\x04disk"),
    (
        b"derive p root deadline 100 p",
        b"\x01\0\x0f\x01p\0\0\x03\0\0\0\0\0\0\0\x64\x01p",
    ),
    (
        b"derive v root value region eu",
        b"\x01\0\x0f\x01v\0\0\x04\x06region\x02eu",
    ),
    (
        b"advance 2024-01-01T02:00:00Z",
        b"\x03\0\x08\0\0\0\0\x65\x92\x1c\xa0",
    ),
    (b"group g root", b"\x04\0\x04\x01g\0\0"),
    (b"bare h root", b"\x05\0\x04\x01h\0\0"),
    (b"limit g 2", b"\x06\0\x03\0\0\x02"),
    (b"go g copy a", b"\x07\0\x09\0\0\x04copy\x01a"),
    (b"try g copy a", b"\x08\0\x09\0\0\x04copy\x01a"),
    (b"start", b"\x09\0\x02\0\0"),
    (b"finish 0 ok", b"\x0a\0\x03\0\0\0"),
    (b"start", b"\x09\0\x02\0\x01"),
    (b"finish 1 error x", b"\x0a\0\x05\0\x01\x01\x01x"),
    (b"wait g", b"\x0b\0\x02\0\0"),
];

/// A cancel without a cause.
static CANCEL: [Night; 2] = [
    (b"derive a root cause", b"\x01\0\x05\x01a\0\0\x02"),
    (b"cancel a", b"\x02\0\x03\0\x01\0"),
];

#[test]
fn each_event_has_its_record(rt: HostRuntime) {
    let mut printed = Vec::new(rt.alloc());
    for (n, events) in [EVENTS.as_slice(), &CANCEL].iter().enumerate() {
        let left = run_lines(&rt, rt.alloc(), events, &mut printed);
        let is_reported = left.records == joined(&rt, rt.alloc(), events);
        drop(left);
        holds(&rt, is_reported, "records of events", n);
    }
}

/// Two runs over one book.
static TWO_RUNS: [Night; 2] = [
    (b"derive a root cause", b"scope 1\nacked 2\n"),
    (
        b"derive a root cause\nscope a",
        b"refused 4 NameTaken\nlive; deadline none\nacked 2\n",
    ),
];

#[test]
fn a_run_goes_on_where_the_last_one_ended(rt: HostRuntime) {
    assert_goes_on(&rt, rt.alloc(), &TWO_RUNS);
}
