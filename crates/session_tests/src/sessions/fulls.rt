//! Full sessions: the log takes a record that just fits, keeps 80 bytes for each running task, and
//! refuses no finish.

use crate::sessions::fills::Fill;
use crate::sessions::steps::Step::{Fills, Log, Refuses, Says};
use crate::sessions::steps::{Step, play};
use run_model::Refusal;
use test_fixtures::Call::{Advance, Bare, Derive, Fail, Go, Group, Limit, Start, Succeed, Wait};
use test_fixtures::{Ask, Replied};

/// The longest error.
const LONGEST: &[u8] = b"0123456789abcdef0123456789abcdef0123456789abcdef0123456789abcdef";

static JUST_FITS: [Step; 11] = [
    // 7 + 7 + 5 bytes, 10 limits of 6, 95,308 advances of 11, and two tasks of 12: 1,048,491. A
    // start has 5, and 80 are kept then.
    Says(&[
        (Group(b"g", b"root"), Replied::Group(0, Some(1))),
        (Bare(b"h", b"root"), Replied::Group(1, None)),
        (Wait(b"h"), Replied::Waited(None)),
    ]),
    Fills(Fill::Again(Limit(b"g", Some(2)), 10)),
    Fills(Fill::Advances(95_308)),
    Says(&[
        (Go(b"g", b"copy", b"a"), Replied::Ready(0)),
        (Go(b"g", b"copy", b"b"), Replied::Ready(1)),
    ]),
    Log(1_048_491),
    Says(&[(Start, Replied::Started(95_325, 0, b"copy", b"a", false))]),
    Log(1_048_496),
    Refuses(&[
        (Start, Refusal::SessionFull),
        (Advance(95_309), Refusal::SessionFull),
        (Advance(95_308), Refusal::ClockNotForward),
        (Go(b"g", b"copy", b"c"), Refusal::SessionFull),
        (Go(b"h", b"copy", b"c"), Refusal::Waited),
        (Wait(b"g"), Refusal::Unfinished(2)),
        (Succeed(1), Refusal::NotRunning),
    ]),
    // A repeated wait is answered, and a finish has the room that was kept for it.
    Says(&[
        (Wait(b"h"), Replied::Waited(None)),
        (Fail(0, LONGEST), Replied::Finished(95_326)),
    ]),
    Log(1_048_567),
    Refuses(&[
        (Start, Refusal::SessionFull),
        (Succeed(0), Refusal::NotRunning),
    ]),
];

#[test]
fn a_start_that_just_fits_is_accepted(rt: HostRuntime) {
    play(&rt, rt.alloc(), &JUST_FITS)
}

static A_BYTE_TOO_LONG: [Step; 7] = [
    // 7 bytes, 5 limits of 6, 95,313 advances of 11, and a task of 12: 1,048,492.
    Says(&[(Group(b"g", b"root"), Replied::Group(0, Some(1)))]),
    Fills(Fill::Again(Limit(b"g", Some(2)), 5)),
    Fills(Fill::Advances(95_313)),
    Says(&[(Go(b"g", b"copy", b"a"), Replied::Ready(0))]),
    Log(1_048_492),
    Refuses(&[(Start, Refusal::SessionFull)]),
    // Other calls have room still.
    Says(&[(Advance(95_314), Replied::Done)]),
];

#[test]
fn a_start_that_is_a_byte_too_long_is_refused(rt: HostRuntime) {
    play(&rt, rt.alloc(), &A_BYTE_TOO_LONG)
}

static TWO_RUNNING: [Step; 8] = [
    // 7 bytes, two tasks of 12 and their starts of 5, a scope of 9, and 95,306 advances of 11:
    // 1,048,416, and 80 are kept for each task.
    Says(&[
        (Group(b"g", b"root"), Replied::Group(0, Some(1))),
        (Go(b"g", b"copy", b"a"), Replied::Ready(0)),
        (Go(b"g", b"copy", b"b"), Replied::Ready(1)),
        (Start, Replied::Started(5, 0, b"copy", b"a", false)),
        (Start, Replied::Started(6, 1, b"copy", b"b", false)),
        (Derive(b"ab", b"root", Ask::Cause), Replied::Scope(2)),
    ]),
    Fills(Fill::Advances(95_306)),
    Log(1_048_416),
    Refuses(&[
        (Derive(b"c", b"root", Ask::Cancel), Refusal::SessionFull),
        (Limit(b"g", None), Refusal::LimitWhileActive),
    ]),
    // The longest finish has 71 bytes, so 9 of the 80 are free: a scope of 9 just fits.
    Says(&[(Fail(1, LONGEST), Replied::Finished(95_314))]),
    Refuses(&[(Advance(95_307), Refusal::SessionFull)]),
    Says(&[
        (Derive(b"cd", b"root", Ask::Cause), Replied::Scope(3)),
        (
            Derive(b"e", b"root", Ask::Cause),
            Replied::Refused(Refusal::SessionFull),
        ),
        (Fail(0, LONGEST), Replied::Finished(95_316)),
    ]),
    Log(1_048_567),
];

#[test]
fn each_running_task_can_finish_in_a_full_session(rt: HostRuntime) {
    play(&rt, rt.alloc(), &TWO_RUNNING)
}
