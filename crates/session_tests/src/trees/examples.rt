//! The worked examples: steps, and what the scopes answer after them.

use crate::runners::Runner;
use crate::trees::steps::Answer::{Canceled, Exceeded, Live, Value};
use crate::trees::steps::Step::{Advance, Cancel, Derive, HitGroups};
use crate::trees::steps::{Answer, Ask, Step, assert_answers, refuse_all, take_all};
use run_model::{Layout, Refusal};
use std::alloc::Global;
use std::process::Abort;

/// What is shown, steps, steps that are refused after them, and the answers in the end.
type Example = (
    &'static str,
    &'static [Step],
    &'static [(Step, Refusal)],
    &'static [Answer],
);

static ENDINGS: [Example; 6] = [
    (
        "a cancel ends the scopes below",
        &[
            Derive(b"a", 0, Ask::Cause),
            Derive(b"b", 1, Ask::Cancel),
            Cancel(1, b"disk"),
        ],
        &[],
        &[Canceled(2, b"disk", None), Live(0, None)],
    ),
    (
        "the first cause stays",
        &[
            Derive(b"p", 0, Ask::Cause),
            Derive(b"c", 1, Ask::Cause),
            Cancel(2, b"a"),
            Cancel(1, b"b"),
        ],
        &[(Cancel(2, b"again"), Refusal::AlreadyDone)],
        &[Canceled(2, b"a", None), Canceled(1, b"b", None)],
    ),
    (
        "equal deadlines pass in order of number",
        &[
            Derive(b"p", 0, Ask::Deadline(100, b"p")),
            Derive(b"c", 1, Ask::Deadline(100, b"c")),
            Advance(200),
        ],
        &[],
        &[Exceeded(1, b"p", Some(100)), Exceeded(2, b"p", Some(100))],
    ),
    (
        "deadlines pass in order of moment",
        &[
            Derive(b"p", 0, Ask::Deadline(150, b"p")),
            Derive(b"c", 1, Ask::Deadline(100, b"c")),
            Advance(200),
        ],
        &[],
        &[Exceeded(1, b"p", Some(150)), Exceeded(2, b"c", Some(100))],
    ),
    (
        "a deadline at the clock is exceeded at once",
        &[
            Advance(1_704_074_400),
            Derive(b"t", 0, Ask::Deadline(1_704_074_400, b"")),
        ],
        &[(Advance(1_704_074_400), Refusal::ClockNotForward)],
        &[Exceeded(1, b"context deadline exceeded", Some(1_704_074_400))],
    ),
    (
        "a cancelled deadline stays cancelled",
        &[
            Derive(b"p", 0, Ask::Deadline(100, b"p")),
            Derive(b"c", 1, Ask::Deadline(50, b"c")),
            Derive(b"d", 2, Ask::Detached),
            Derive(b"e", 3, Ask::Deadline(70, b"e")),
            Cancel(2, b""),
            Advance(100),
        ],
        &[],
        &[
            Exceeded(1, b"p", Some(100)),
            Canceled(2, b"context canceled", Some(50)),
            Live(3, None),
            Exceeded(4, b"e", Some(70)),
        ],
    ),
];

static KINDS: [Example; 4] = [
    (
        "a detached scope lets values through alone",
        &[
            Derive(b"v", 0, Ask::Value(b"region", b"eu")),
            Derive(b"x", 1, Ask::Cause),
            Derive(b"d", 2, Ask::Detached),
            Derive(b"k", 3, Ask::Cancel),
            Cancel(2, b"stop"),
        ],
        &[],
        &[
            Canceled(2, b"stop", None),
            Live(3, None),
            Live(4, None),
            Value(4, b"region", b"eu"),
            Value(4, b"zone", b""),
            Value(0, b"region", b""),
        ],
    ),
    (
        "a scope that is derived from a done one is done",
        &[
            Derive(b"p", 0, Ask::Cause),
            Cancel(1, b"early"),
            Derive(b"c", 1, Ask::Value(b"k", b"x")),
            Derive(b"late", 2, Ask::Deadline(0, b"deadline")),
        ],
        &[],
        &[Canceled(2, b"early", None), Canceled(3, b"early", Some(0))],
    ),
    (
        "one event ends groups with one error",
        &[
            Derive(b"g", 0, Ask::Group),
            Derive(b"h", 1, Ask::Group),
            Derive(b"k", 2, Ask::Cause),
            HitGroups(2, 1, b"interrupted"),
            HitGroups(1, 2, b""),
        ],
        &[],
        &[
            Canceled(1, b"interrupted", None),
            Canceled(2, b"interrupted", None),
            Canceled(3, b"interrupted", None),
        ],
    ),
    (
        "a group's scope is ended by its group alone",
        &[
            Derive(b"waited", 0, Ask::Group),
            Derive(b"g", 0, Ask::Group),
            HitGroups(1, 1, b""),
        ],
        &[(Cancel(2, b""), Refusal::NotCancellable)],
        &[Canceled(1, b"context canceled", None), Live(2, None)],
    ),
];

/// Asserts what each example shows, on a tree of its own.
fn assert_examples(rt: &impl Abort, alloc: Global, examples: &[Example]) {
    for (what, steps, refused, answers) in examples.iter() {
        let mut runner = Runner::begun(rt, alloc, Layout::Small);
        take_all(rt, &mut runner, steps, what);
        refuse_all(rt, &mut runner, refused, what);
        assert_answers(rt, &runner, answers, what);
        drop(runner);
    }
}

#[test]
fn examples_of_cancels_and_deadlines(rt: HostRuntime) {
    assert_examples(&rt, rt.alloc(), &ENDINGS)
}

#[test]
fn examples_of_other_kinds(rt: HostRuntime) {
    assert_examples(&rt, rt.alloc(), &KINDS)
}
