//! Groups and their tasks, by commands, starts and finishes.

use crate::sessions::steps::Step::{Count, Refuses, Running, Says, Scopes, Tasks};
use crate::sessions::steps::{Step, play};
use run_model::Refusal;
use test_fixtures::Call::{
    Advance, Bare, Cancel, Derive, Fail, Go, Group, Limit, Retry, Start, Succeed, Try, Wait,
};
use test_fixtures::{Ask, Going, Replied, Seen};

static LIMIT_OF_TWO: [Step; 4] = [
    Says(&[
        (Group(b"g", b"root"), Replied::Group(0, Some(1))),
        (Limit(b"g", Some(2)), Replied::Done),
        (Go(b"g", b"copy", b"a"), Replied::Ready(0)),
        (Go(b"g", b"copy", b"b"), Replied::Ready(1)),
        (Go(b"g", b"copy", b"c"), Replied::Held(2)),
        (Try(b"g", b"copy", b"d"), Replied::Refused(Refusal::AtLimit)),
        (Start, Replied::Started(7, 0, b"copy", b"a", false)),
        (Succeed(0), Replied::Finished(8)),
        (Wait(b"g"), Replied::Refused(Refusal::Unfinished(2))),
        (
            Limit(b"g", Some(3)),
            Replied::Refused(Refusal::LimitWhileActive),
        ),
    ]),
    Tasks(&[Going::Success, Going::Ready, Going::Ready]),
    Step::Group(b"g", (1, 2, Some(2), false, None)),
    Count(8),
];

#[test]
fn a_limit_holds_tasks_back(rt: HostRuntime) {
    play(&rt, rt.alloc(), &LIMIT_OF_TWO)
}

static LIMIT_OF_NONE: [Step; 2] = [
    Says(&[
        (Group(b"g", b"root"), Replied::Group(0, Some(1))),
        (Limit(b"g", Some(0)), Replied::Done),
        (Go(b"g", b"copy", b"a"), Replied::Held(0)),
        (Start, Replied::Refused(Refusal::NothingReady)),
        (Try(b"g", b"copy", b"b"), Replied::Refused(Refusal::AtLimit)),
        (Wait(b"g"), Replied::Refused(Refusal::Unfinished(1))),
    ]),
    Count(4),
];

#[test]
fn a_limit_of_0_admits_none(rt: HostRuntime) {
    play(&rt, rt.alloc(), &LIMIT_OF_NONE)
}

static TWO_ERRORS: [Step; 5] = [
    Says(&[
        (Group(b"g", b"root"), Replied::Group(0, Some(1))),
        (Go(b"g", b"copy", b"a"), Replied::Ready(0)),
        (Go(b"g", b"copy", b"b"), Replied::Ready(1)),
        (Start, Replied::Started(5, 0, b"copy", b"a", false)),
        (Start, Replied::Started(6, 1, b"copy", b"b", false)),
        (Fail(1, b"x"), Replied::Finished(7)),
        (Fail(0, b"y"), Replied::Finished(8)),
        (Wait(b"g"), Replied::Waited(Some(b"x"))),
        (Wait(b"g"), Replied::Waited(Some(b"x"))),
        (Go(b"g", b"copy", b"c"), Replied::Refused(Refusal::Waited)),
        (Try(b"g", b"copy", b"c"), Replied::Refused(Refusal::Waited)),
        (Limit(b"g", None), Replied::Refused(Refusal::Waited)),
    ]),
    Scopes(&[(1, Seen::Canceled(b"x"), None)]),
    Step::Group(b"g", (1, 0, None, true, Some(b"x"))),
    Tasks(&[Going::Failure(b"y"), Going::Failure(b"x")]),
    // The second wait is no event.
    Count(9),
];

#[test]
fn the_first_error_ends_the_group(rt: HostRuntime) {
    play(&rt, rt.alloc(), &TWO_ERRORS)
}

static TWO_WAITS: [Step; 3] = [
    Says(&[
        (Group(b"g", b"root"), Replied::Group(0, Some(1))),
        (Bare(b"h", b"root"), Replied::Group(1, None)),
        (Wait(b"g"), Replied::Waited(None)),
        (Wait(b"h"), Replied::Waited(None)),
    ]),
    Scopes(&[
        (1, Seen::Canceled(b"context canceled"), None),
        (0, Seen::Live, None),
    ]),
    Count(5),
];

#[test]
fn a_wait_ends_the_groups_own_scope(rt: HostRuntime) {
    play(&rt, rt.alloc(), &TWO_WAITS)
}

static BAD_NAMES: [Step; 4] = [
    Says(&[(Group(b"g", b"root"), Replied::Group(0, Some(1)))]),
    Refuses(&[
        (Bare(b"g", b"root"), Refusal::NameTaken),
        (Bare(b"h", b"no"), Refusal::NoSuchScope),
        (Group(b"h", b"no"), Refusal::NoSuchScope),
        (Go(b"x", b"copy", b"a"), Refusal::NoSuchGroup),
        (Try(b"x", b"copy", b"a"), Refusal::NoSuchGroup),
        (Limit(b"x", None), Refusal::NoSuchGroup),
        (Wait(b"x"), Refusal::NoSuchGroup),
        (Succeed(0), Refusal::NoSuchTask),
        (Retry(0), Refusal::NoSuchTask),
        (Start, Refusal::NothingReady),
        (Cancel(b"g", b""), Refusal::NotCancellable),
    ]),
    Says(&[(Limit(b"g", Some(64)), Replied::Done)]),
    Count(3),
];

#[test]
fn names_that_are_taken_or_missing_are_refused(rt: HostRuntime) {
    play(&rt, rt.alloc(), &BAD_NAMES)
}

static THREE_TASKS: [Step; 4] = [
    Says(&[
        (Group(b"g", b"root"), Replied::Group(0, Some(1))),
        (Go(b"g", b"spin", b"1"), Replied::Ready(0)),
        (Go(b"g", b"copy", b"a"), Replied::Ready(1)),
        (Try(b"g", b"spin", b"2"), Replied::Ready(2)),
        (Start, Replied::Started(6, 0, b"spin", b"1", false)),
        (Start, Replied::Started(7, 1, b"copy", b"a", false)),
        (Fail(0, b"x"), Replied::Finished(8)),
        (Succeed(1), Replied::Finished(9)),
        (Succeed(1), Replied::Refused(Refusal::NotRunning)),
        (Fail(2, b"z"), Replied::Refused(Refusal::NotRunning)),
        (Retry(0), Replied::Refused(Refusal::NotInterrupted)),
        (Start, Replied::Started(10, 2, b"spin", b"2", true)),
    ]),
    Tasks(&[Going::Failure(b"x"), Going::Success, Going::Running]),
    Running(1),
    Count(10),
];

#[test]
fn tasks_start_in_order_and_end_in_any(rt: HostRuntime) {
    play(&rt, rt.alloc(), &THREE_TASKS)
}

static BARE_GROUP: [Step; 3] = [
    Says(&[
        (Derive(b"s", b"root", Ask::Cause), Replied::Scope(1)),
        (Bare(b"h", b"s"), Replied::Group(0, None)),
        (Go(b"h", b"copy", b"a"), Replied::Ready(0)),
        (Go(b"h", b"copy", b"b"), Replied::Ready(1)),
        (Start, Replied::Started(6, 0, b"copy", b"a", false)),
        (Fail(0, b"x"), Replied::Finished(7)),
        (Cancel(b"s", b"stop"), Replied::Done),
        (Start, Replied::Started(9, 1, b"copy", b"b", true)),
        (Advance(5), Replied::Done),
        (Succeed(1), Replied::Finished(11)),
        (Wait(b"h"), Replied::Waited(Some(b"x"))),
    ]),
    Scopes(&[(1, Seen::Canceled(b"stop"), None)]),
    Step::Group(b"h", (1, 0, None, true, Some(b"x"))),
];

#[test]
fn tasks_of_a_bare_group_are_reported_of_its_scope(rt: HostRuntime) {
    play(&rt, rt.alloc(), &BARE_GROUP)
}

static DONE_SCOPE: [Step; 3] = [
    Says(&[
        (Derive(b"s", b"root", Ask::Cause), Replied::Scope(1)),
        (Group(b"g", b"s"), Replied::Group(0, Some(2))),
        (Go(b"g", b"copy", b"a"), Replied::Ready(0)),
        (Cancel(b"s", b"stop"), Replied::Done),
        (Start, Replied::Started(6, 0, b"copy", b"a", true)),
        (Fail(0, b"x"), Replied::Finished(7)),
    ]),
    Scopes(&[(2, Seen::Canceled(b"stop"), None)]),
    Step::Group(b"g", (2, 0, None, false, Some(b"x"))),
];

#[test]
fn a_group_below_a_done_scope_keeps_the_first_cause(rt: HostRuntime) {
    play(&rt, rt.alloc(), &DONE_SCOPE)
}
