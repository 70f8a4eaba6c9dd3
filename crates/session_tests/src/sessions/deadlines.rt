//! Deadlines, timeouts and the clock.

use crate::sessions::steps::Step::{Count, Refuses, Says, Scopes};
use crate::sessions::steps::{Step, play};
use run_model::Refusal;
use test_fixtures::Call::{Advance, Cancel, Derive};
use test_fixtures::{Ask, Replied, Seen};

/// The text of a deadline's reason.
const EXCEEDED: &[u8] = b"context deadline exceeded";

static EQUAL_DEADLINES: [Step; 3] = [
    Says(&[
        (
            Derive(b"p", b"root", Ask::Deadline(100, b"p")),
            Replied::Scope(1),
        ),
        (
            Derive(b"c", b"p", Ask::Deadline(100, b"c")),
            Replied::Scope(2),
        ),
        (Advance(200), Replied::Done),
    ]),
    Scopes(&[
        (1, Seen::Exceeded(b"p"), Some(100)),
        (2, Seen::Exceeded(b"p"), Some(100)),
    ]),
    Count(4),
];

#[test]
fn equal_deadlines_pass_in_order_of_number(rt: HostRuntime) {
    play(&rt, rt.alloc(), &EQUAL_DEADLINES)
}

static CHILD_EARLIER: [Step; 3] = [
    Says(&[
        (
            Derive(b"p", b"root", Ask::Deadline(150, b"p")),
            Replied::Scope(1),
        ),
        (
            Derive(b"c", b"p", Ask::Deadline(100, b"c")),
            Replied::Scope(2),
        ),
        (Advance(200), Replied::Done),
    ]),
    Scopes(&[
        (1, Seen::Exceeded(b"p"), Some(150)),
        (2, Seen::Exceeded(b"c"), Some(100)),
    ]),
    Count(4),
];

#[test]
fn deadlines_pass_in_order_of_moment(rt: HostRuntime) {
    play(&rt, rt.alloc(), &CHILD_EARLIER)
}

/// The clock of the next table.
const NOW: u64 = 1_704_074_400;

static AT_THE_CLOCK: [Step; 3] = [
    Says(&[
        (Advance(NOW), Replied::Done),
        (Derive(b"t", b"root", Ask::Timeout(0)), Replied::Scope(1)),
        (
            Derive(b"u", b"root", Ask::Deadline(NOW, b"")),
            Replied::Scope(2),
        ),
        (Advance(NOW), Replied::Refused(Refusal::ClockNotForward)),
    ]),
    Scopes(&[
        (1, Seen::Exceeded(EXCEEDED), Some(NOW)),
        (2, Seen::Exceeded(EXCEEDED), Some(NOW)),
    ]),
    Count(4),
];

#[test]
fn a_deadline_at_the_clock_is_exceeded_at_once(rt: HostRuntime) {
    play(&rt, rt.alloc(), &AT_THE_CLOCK)
}

static SEVERAL_DEADLINES: [Step; 4] = [
    Says(&[
        (
            Derive(b"a", b"root", Ask::Deadline(300, b"a")),
            Replied::Scope(1),
        ),
        (
            Derive(b"b", b"a", Ask::Deadline(100, b"b")),
            Replied::Scope(2),
        ),
        (
            Derive(b"c", b"b", Ask::Deadline(200, b"c")),
            Replied::Scope(3),
        ),
        (
            Derive(b"d", b"root", Ask::Deadline(250, b"d")),
            Replied::Scope(4),
        ),
        (
            Derive(b"e", b"d", Ask::Deadline(50, b"e")),
            Replied::Scope(5),
        ),
        (Advance(250), Replied::Done),
    ]),
    Scopes(&[
        (1, Seen::Live, Some(300)),
        (2, Seen::Exceeded(b"b"), Some(100)),
        (3, Seen::Exceeded(b"b"), Some(100)),
        (4, Seen::Exceeded(b"d"), Some(250)),
        (5, Seen::Exceeded(b"e"), Some(50)),
    ]),
    Says(&[(Advance(300), Replied::Done)]),
    Scopes(&[
        (1, Seen::Exceeded(b"a"), Some(300)),
        (3, Seen::Exceeded(b"b"), Some(100)),
    ]),
];

#[test]
fn one_advance_passes_several_deadlines(rt: HostRuntime) {
    play(&rt, rt.alloc(), &SEVERAL_DEADLINES)
}

static CANCELLED_FIRST: [Step; 2] = [
    Says(&[
        (
            Derive(b"t", b"root", Ask::Deadline(100, b"late")),
            Replied::Scope(1),
        ),
        (Cancel(b"t", b"x"), Replied::Refused(Refusal::CauseNotTaken)),
        (Cancel(b"t", b""), Replied::Done),
        (Advance(200), Replied::Done),
    ]),
    Scopes(&[(1, Seen::Canceled(b"context canceled"), Some(100))]),
];

#[test]
fn a_cancelled_deadline_stays_cancelled(rt: HostRuntime) {
    play(&rt, rt.alloc(), &CANCELLED_FIRST)
}

/// From the clock of the next table, past the greatest moment by 1.
const PAST: Ask = Ask::Timeout(252_999_999_001);

static LONG_TIMEOUTS: [Step; 4] = [
    Says(&[(Advance(1_000), Replied::Done)]),
    // The clock and these seconds: past the greatest moment by 1, and past every number. What
    // comes before is asked first.
    Refuses(&[
        (Derive(b"t", b"root", PAST), Refusal::MomentOutOfRange),
        (
            Derive(b"t", b"root", Ask::Timeout(u64::MAX)),
            Refusal::MomentOutOfRange,
        ),
        (Derive(b"t", b"nowhere", PAST), Refusal::NoSuchScope),
        (Derive(b"root", b"root", PAST), Refusal::NameTaken),
    ]),
    Says(&[
        (
            Derive(b"t", b"root", Ask::Timeout(252_999_999_000)),
            Replied::Scope(1),
        ),
        (Advance(253_000_000_000), Replied::Done),
    ]),
    Scopes(&[(1, Seen::Exceeded(EXCEEDED), Some(253_000_000_000))]),
];

#[test]
fn timeouts_reach_the_greatest_moment(rt: HostRuntime) {
    play(&rt, rt.alloc(), &LONG_TIMEOUTS)
}
