//! Each call on its way, and its refusals in their order: stories with what each call is answered.

use crate::asserts::holds;
use crate::groups::calls::Call::{Go, Limit, Lose, Make, Retry, Start, Succeed, Try, Wait};
use crate::groups::steps::Step::{
    Absent, Again, GroupCounts, Groups, Is, Look, Names, Phases, Restart, Room, Running,
};
use crate::groups::steps::{At, Step, begun, play};
use run_model::{Layout, Refusal};
use std::alloc::Global;
use std::process::Abort;
use task_group::interruption;

/// A story: what it shows, and its steps.
type Story = (&'static str, &'static [Step]);

/// Takes each story from its beginning.
fn play_all(rt: &impl Abort, alloc: Global, layout: Layout, stories: &[Story]) {
    for (what, steps) in stories.iter() {
        let mut groups = begun(rt, alloc, layout);
        play(rt, &mut groups, what, steps);
        drop(groups);
    }
}

static LIMITS: [Story; 3] = [
    (
        "a limit holds tasks back",
        &[
            Is(Make(b"g", 1, false), Ok(Some(0))),
            Is(Limit(0, Some(2)), Ok(None)),
            Is(Go(0, b"copy", b"a"), Ok(Some(0))),
            Is(Go(0, b"copy", b"b"), Ok(Some(1))),
            Is(Go(0, b"copy", b"c"), Ok(Some(2))),
            Is(Try(0, b"copy", b"d"), Err(Refusal::AtLimit)),
            Is(Start, Ok(Some(0))),
            Is(Succeed(0), Ok(None)),
            Is(Wait(0), Err(Refusal::Unfinished(2))),
            Is(Limit(0, Some(3)), Err(Refusal::LimitWhileActive)),
            Phases(&[At::Success, At::Ready, At::Ready]),
            Look(0, (2, Some(2), false, None)),
            GroupCounts(0, 2, false),
            Is(Start, Ok(Some(1))),
            Is(Succeed(1), Ok(None)),
            GroupCounts(0, 1, true),
        ],
    ),
    (
        "a limit of 0 admits none",
        &[
            Is(Make(b"g", 1, false), Ok(Some(0))),
            Is(Limit(0, Some(0)), Ok(None)),
            Is(Go(0, b"copy", b"a"), Ok(Some(0))),
            Is(Start, Err(Refusal::NothingReady)),
            Is(Try(0, b"copy", b"b"), Err(Refusal::AtLimit)),
            Is(Wait(0), Err(Refusal::Unfinished(1))),
            Is(Limit(0, Some(1)), Err(Refusal::LimitWhileActive)),
            Phases(&[At::Held]),
        ],
    ),
    (
        "what is not there is refused",
        &[
            Is(Make(b"g", 1, false), Ok(Some(0))),
            Is(Make(b"g", 1, false), Err(Refusal::NameTaken)),
            Is(Limit(1, Some(1)), Err(Refusal::NoSuchGroup)),
            Is(Go(1, b"copy", b"a"), Err(Refusal::NoSuchGroup)),
            Is(Try(1, b"copy", b"a"), Err(Refusal::NoSuchGroup)),
            Is(Wait(1), Err(Refusal::NoSuchGroup)),
            Is(Retry(0), Err(Refusal::NoSuchTask)),
            Is(Succeed(0), Err(Refusal::NoSuchTask)),
            Is(Start, Err(Refusal::NothingReady)),
            Is(Go(0, b"copy", b"a"), Ok(Some(0))),
            Is(Succeed(0), Err(Refusal::NotRunning)),
        ],
    ),
];

static ERRORS: [Story; 2] = [
    (
        "the first error is told and stays",
        &[
            Is(Make(b"g", 7, false), Ok(Some(0))),
            Is(Go(0, b"copy", b"a"), Ok(Some(0))),
            Is(Try(0, b"copy", b"b"), Ok(Some(1))),
            Is(Start, Ok(Some(0))),
            Is(Start, Ok(Some(1))),
            Is(Lose(1, b"x"), Ok(Some(7))),
            Is(Lose(0, b"y"), Ok(None)),
            Is(Wait(0), Ok(Some(7))),
            Is(Wait(0), Ok(None)),
            Is(Go(0, b"copy", b"c"), Err(Refusal::Waited)),
            Is(Limit(0, Some(1)), Err(Refusal::Waited)),
            Look(0, (0, None, true, Some(b"x"))),
        ],
    ),
    (
        "a bare group tells nothing",
        &[
            Is(Make(b"h", 0, true), Ok(Some(0))),
            Is(Go(0, b"copy", b"a"), Ok(Some(0))),
            Is(Start, Ok(Some(0))),
            Is(Lose(0, b"x"), Ok(None)),
            Is(Wait(0), Ok(None)),
            Look(0, (0, None, true, Some(b"x"))),
        ],
    ),
];

#[test]
fn groups_admit_refuse_and_fail(rt: HostRuntime) {
    play_all(&rt, rt.alloc(), Layout::Small, &LIMITS);
    play_all(&rt, rt.alloc(), Layout::Small, &ERRORS);
}

/// After a restart.
static RESTARTS: [Story; 5] = [
    // The first running task is of group b, the second of group a. Group c is bare, and group d has
    // an error.
    (
        "a restart tells each group once",
        &[
            Is(Make(b"a", 10, false), Ok(Some(0))),
            Is(Make(b"b", 11, false), Ok(Some(1))),
            Is(Make(b"c", 0, true), Ok(Some(2))),
            Is(Make(b"d", 12, false), Ok(Some(3))),
            Is(Go(3, b"copy", b"a"), Ok(Some(0))),
            Is(Go(1, b"copy", b"a"), Ok(Some(1))),
            Is(Go(0, b"copy", b"a"), Ok(Some(2))),
            Is(Go(1, b"copy", b"a"), Ok(Some(3))),
            Is(Go(2, b"copy", b"a"), Ok(Some(4))),
            Is(Go(3, b"copy", b"a"), Ok(Some(5))),
            Is(Go(0, b"copy", b"a"), Ok(Some(6))),
            Is(Start, Ok(Some(0))),
            Is(Lose(0, b"x"), Ok(Some(12))),
            Is(Start, Ok(Some(1))),
            Is(Start, Ok(Some(2))),
            Is(Start, Ok(Some(3))),
            Is(Start, Ok(Some(4))),
            Is(Start, Ok(Some(5))),
            Restart(&[11, 10]),
            Running(0),
            Look(2, (0, None, false, Some(b"interrupted"))),
            Look(3, (0, None, false, Some(b"x"))),
        ],
    ),
    (
        "the running tasks are interrupted",
        &[
            Is(Make(b"g", 1, false), Ok(Some(0))),
            Is(Limit(0, Some(1)), Ok(None)),
            Is(Go(0, b"copy", b"a"), Ok(Some(0))),
            Is(Go(0, b"copy", b"b"), Ok(Some(1))),
            Is(Start, Ok(Some(0))),
            Is(Retry(0), Err(Refusal::NotInterrupted)),
            Restart(&[1]),
            Restart(&[]),
            Phases(&[At::Interrupted, At::Ready]),
        ],
    ),
    (
        "an interrupted task is retried once",
        &[
            Is(Make(b"g", 1, false), Ok(Some(0))),
            Is(Limit(0, Some(1)), Ok(None)),
            Is(Go(0, b"copy", b"a"), Ok(Some(0))),
            Is(Go(0, b"copy", b"b"), Ok(Some(1))),
            Is(Start, Ok(Some(0))),
            Restart(&[1]),
            Is(Retry(0), Ok(Some(2))),
            Is(Retry(0), Err(Refusal::AlreadyRetried)),
            Is(Retry(1), Err(Refusal::NotInterrupted)),
            Is(Retry(3), Err(Refusal::NoSuchTask)),
            Phases(&[At::Interrupted, At::Ready, At::Held]),
            Again(2, b"a", 0),
        ],
    ),
    (
        "a retry in a group that was waited for is refused",
        &[
            Is(Make(b"g", 1, false), Ok(Some(0))),
            Is(Go(0, b"copy", b"a"), Ok(Some(0))),
            Is(Start, Ok(Some(0))),
            Restart(&[1]),
            Is(Wait(0), Ok(Some(1))),
            Is(Retry(0), Err(Refusal::Waited)),
        ],
    ),
    (
        "a restart lets in the oldest tasks",
        &[
            Is(Make(b"g", 1, false), Ok(Some(0))),
            Is(Limit(0, Some(2)), Ok(None)),
            Is(Go(0, b"copy", b"a"), Ok(Some(0))),
            Is(Go(0, b"copy", b"b"), Ok(Some(1))),
            Is(Go(0, b"copy", b"c"), Ok(Some(2))),
            Is(Go(0, b"copy", b"d"), Ok(Some(3))),
            Is(Go(0, b"copy", b"e"), Ok(Some(4))),
            Is(Start, Ok(Some(0))),
            Is(Start, Ok(Some(1))),
            Restart(&[1]),
            Phases(&[
                At::Interrupted,
                At::Interrupted,
                At::Ready,
                At::Ready,
                At::Held,
            ]),
            Running(0),
        ],
    ),
];

#[test]
fn restarts_interrupt_what_runs(rt: HostRuntime) {
    play_all(&rt, rt.alloc(), Layout::Small, &RESTARTS);
    holds(
        &rt,
        interruption() == b"interrupted".as_slice(),
        "the text",
        0,
    );
}

/// What is asked of a bare group alone in scope 3 of a large store.
static QUESTIONS: [Story; 1] = [(
    "questions are answered",
    &[
        Is(Make(b"g", 3, true), Ok(Some(0))),
        Groups(Layout::Large, 1, 3),
        Names(&[
            (
                b"g",
                Some(0),
                Err(Refusal::NameTaken),
                Err(Refusal::NameTaken),
            ),
            (b"h", None, Ok(()), Ok(())),
        ]),
        Absent(1, 0),
        Room(Ok(())),
    ],
)];

#[test]
fn questions_are_answered(rt: HostRuntime) {
    play_all(&rt, rt.alloc(), Layout::Large, &QUESTIONS);
}
