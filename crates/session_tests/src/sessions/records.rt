//! The log: the records of the accepted calls, byte for byte, and the events that they are.

use crate::sessions::steps::Step::{Appends, Count, Events, Log, Says};
use crate::sessions::steps::{Step, play};
use record_view::{EventView, OutcomeView};
use row_view::KindView;
use run_model::Refusal;
use test_fixtures::Call::{
    Advance, Bare, Cancel, Derive, Fail, Go, Group, Limit, Start, Succeed, Try, Wait,
};
use test_fixtures::{Ask, Replied};

static RECORDS: [Step; 3] = [
    Appends(&[
        (
            Derive(b"a", b"root", Ask::Cause),
            b"\x01\x00\x05\x01a\x00\x00\x02",
        ),
        (
            Derive(b"b", b"a", Ask::Cancel),
            b"\x01\x00\x05\x01b\x00\x01\x01",
        ),
        (Cancel(b"a", b"disk"), b"\x02\x00\x07\x00\x01\x04disk"),
        (Group(b"g", b"root"), b"\x04\x00\x04\x01g\x00\x00"),
        (Bare(b"h", b"root"), b"\x05\x00\x04\x01h\x00\x00"),
        (Limit(b"g", Some(2)), b"\x06\x00\x03\x00\x00\x02"),
        (Limit(b"h", None), b"\x06\x00\x03\x00\x01\xff"),
        (
            Go(b"g", b"copy", b"a"),
            b"\x07\x00\x09\x00\x00\x04copy\x01a",
        ),
        (
            Try(b"g", b"copy", b"b"),
            b"\x08\x00\x09\x00\x00\x04copy\x01b",
        ),
        (Start, b"\x09\x00\x02\x00\x00"),
        (Start, b"\x09\x00\x02\x00\x01"),
        (Succeed(0), b"\x0a\x00\x03\x00\x00\x00"),
        (Fail(1, b"x"), b"\x0a\x00\x05\x00\x01\x01\x01x"),
        (Wait(b"g"), b"\x0b\x00\x02\x00\x00"),
    ]),
    Count(15),
    Log(105),
];

#[test]
fn each_accepted_call_appends_its_record(rt: HostRuntime) {
    play(&rt, rt.alloc(), &RECORDS)
}

static NO_RECORDS: [Step; 3] = [
    Says(&[
        (Bare(b"h", b"root"), Replied::Group(0, None)),
        (Wait(b"h"), Replied::Waited(None)),
        (Wait(b"h"), Replied::Waited(None)),
        (Go(b"h", b"copy", b"a"), Replied::Refused(Refusal::Waited)),
        (Succeed(0), Replied::Refused(Refusal::NoSuchTask)),
        (Start, Replied::Refused(Refusal::NothingReady)),
        (Advance(0), Replied::Refused(Refusal::ClockNotForward)),
    ]),
    Log(12),
    Count(3),
];

#[test]
fn a_refused_call_and_a_repeated_wait_append_nothing(rt: HostRuntime) {
    play(&rt, rt.alloc(), &NO_RECORDS)
}

static HISTORY: [Step; 3] = [
    // The opening has no record.
    Events(&[]),
    Says(&[
        (Derive(b"t", b"root", Ask::Timeout(30)), Replied::Scope(1)),
        (Group(b"g", b"t"), Replied::Group(0, Some(2))),
        (Go(b"g", b"copy", b"a"), Replied::Ready(0)),
        (Start, Replied::Started(5, 0, b"copy", b"a", false)),
        (Fail(0, b"x"), Replied::Finished(6)),
    ]),
    Events(&[
        EventView::Derive {
            name: b"t",
            parent: 0,
            kind: KindView::Deadline(30, None),
        },
        EventView::Group {
            name: b"g",
            parent: 1,
        },
        EventView::Go {
            group: 0,
            job: b"copy",
            argument: b"a",
        },
        EventView::Start { task: 0 },
        EventView::Finish {
            task: 0,
            outcome: OutcomeView::Failure(b"x"),
        },
    ]),
];

#[test]
fn history_gives_the_events(rt: HostRuntime) {
    play(&rt, rt.alloc(), &HISTORY)
}
