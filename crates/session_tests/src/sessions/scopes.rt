//! Scopes by commands: cancels, values, and refusals in their order.

use crate::asserts::holds;
use crate::sessions::steps::Step::{Refuses, Says, Scopes, Value};
use crate::sessions::steps::{Step, begun, play, take};
use crate::values::name;
use run_model::{Layout, Name, Refusal};
use run_session::State;
use std::process::Abort;
use test_fixtures::Call::{Advance, Cancel, Derive};
use test_fixtures::{Ask, Replied, Seen};

static CANCELLED_PARENT: [Step; 2] = [
    Says(&[
        (Derive(b"a", b"root", Ask::Cause), Replied::Scope(1)),
        (Derive(b"b", b"a", Ask::Cancel), Replied::Scope(2)),
        (Cancel(b"a", b"disk"), Replied::Done),
        (Derive(b"c", b"b", Ask::Cause), Replied::Scope(3)),
    ]),
    Scopes(&[
        (0, Seen::Live, None),
        (1, Seen::Canceled(b"disk"), None),
        (2, Seen::Canceled(b"disk"), None),
        (3, Seen::Canceled(b"disk"), None),
    ]),
];

#[test]
fn a_cancel_reaches_the_scopes_below(rt: HostRuntime) {
    play(&rt, rt.alloc(), &CANCELLED_PARENT)
}

static CHILD_FIRST: [Step; 2] = [
    Says(&[
        (Derive(b"a", b"root", Ask::Cause), Replied::Scope(1)),
        (Derive(b"b", b"a", Ask::Cause), Replied::Scope(2)),
        (Derive(b"c", b"root", Ask::Cause), Replied::Scope(3)),
        (Cancel(b"b", b"first"), Replied::Done),
        (Cancel(b"a", b"second"), Replied::Done),
        (Cancel(b"c", b""), Replied::Done),
    ]),
    Scopes(&[
        (1, Seen::Canceled(b"second"), None),
        (2, Seen::Canceled(b"first"), None),
        (3, Seen::Canceled(b"context canceled"), None),
    ]),
];

#[test]
fn a_scope_that_is_done_stays_as_it_ended(rt: HostRuntime) {
    play(&rt, rt.alloc(), &CHILD_FIRST)
}

static ONE_SCOPE: [Step; 1] = [Says(&[
    (Derive(b"a", b"root", Ask::Cause), Replied::Scope(1)),
    (Advance(7), Replied::Done),
])];

/// The numbers of a scope and of a group of this name.
fn found(state: &State, called: &Name) -> (Option<u16>, Option<u16>) {
    (state.find_scope(called), state.find_group(called))
}

/// Says whether a scope is there, and has this name.
fn is_named(state: &State, scope: u16, called: &Name) -> bool {
    match state.look(scope) {
        Some(look) => look.name == *called,
        None => false,
    }
}

/// Says whether there are a group, a task and a task's phase of number 0.
fn firsts(state: &State) -> (bool, bool, bool) {
    (
        state.group(0).is_some(),
        state.task(0).is_some(),
        state.phase(0).is_some(),
    )
}

/// How many scopes, groups, tasks and events there are.
fn counts(state: &State) -> (usize, usize, usize, u64) {
    let (scopes, groups, tasks) = (state.scope_count(), state.group_count(), state.task_count());
    (scopes, groups, tasks, state.count())
}

/// Asserts what a state of scope `a` alone shows.
fn assert_one_scope(rt: &impl Abort, state: &State, a: &Name) {
    holds(rt, found(state, a) == (Some(1), None), "found", 1);
    holds(rt, is_named(state, 1, a), "scope", 1);
    holds(rt, state.look(2).is_none(), "no scope", 2);
    holds(rt, firsts(state) == (false, false, false), "no rows", 0);
    holds(rt, state.clock().get() == 7, "clock", 7);
    holds(rt, state.layout() == Layout::Large, "large", 0);
    holds(rt, counts(state) == (2, 0, 0, 3), "counts", 2);
}

#[test]
fn rows_are_found_by_name_and_by_number(rt: HostRuntime) {
    let mut session = begun(&rt, rt.alloc(), Layout::Large);
    let a = name(&rt, b"a");
    holds(&rt, found(session.state(), &a) == (None, None), "found", 0);
    take(&rt, &mut session, &ONE_SCOPE);
    assert_one_scope(&rt, session.state(), &a);
    drop(session);
}

static REFUSED_IN_ORDER: [Step; 3] = [
    Refuses(&[
        (Derive(b"root", b"a", Ask::Cause), Refusal::NoSuchScope),
        (Derive(b"root", b"root", Ask::Cause), Refusal::NameTaken),
        (Cancel(b"b", b""), Refusal::NoSuchScope),
        (Cancel(b"root", b"x"), Refusal::NotCancellable),
        (Advance(0), Refusal::ClockNotForward),
    ]),
    Says(&[
        (Derive(b"a", b"root", Ask::Cancel), Replied::Scope(1)),
        (Cancel(b"a", b""), Replied::Done),
    ]),
    Refuses(&[
        (Cancel(b"a", b"x"), Refusal::CauseNotTaken),
        (Cancel(b"a", b""), Refusal::AlreadyDone),
    ]),
];

#[test]
fn derives_and_cancels_are_refused_in_order(rt: HostRuntime) {
    play(&rt, rt.alloc(), &REFUSED_IN_ORDER)
}

static DETACHED_PART: [Step; 3] = [
    Says(&[
        (
            Derive(b"v", b"root", Ask::Value(b"region", b"eu")),
            Replied::Scope(1),
        ),
        (Derive(b"x", b"v", Ask::Cause), Replied::Scope(2)),
        (Derive(b"d", b"x", Ask::Detached), Replied::Scope(3)),
        (Derive(b"k", b"d", Ask::Cancel), Replied::Scope(4)),
        (Cancel(b"x", b"stop"), Replied::Done),
        (Cancel(b"v", b""), Replied::Refused(Refusal::NotCancellable)),
        (Cancel(b"d", b""), Replied::Refused(Refusal::NotCancellable)),
    ]),
    Scopes(&[
        (2, Seen::Canceled(b"stop"), None),
        (3, Seen::Live, None),
        (4, Seen::Live, None),
    ]),
    Value(4, b"region", Some(b"eu")),
];

#[test]
fn a_detached_scope_lets_values_through_alone(rt: HostRuntime) {
    play(&rt, rt.alloc(), &DETACHED_PART)
}

static NEAREST_VALUES: [Step; 7] = [
    Says(&[
        (
            Derive(b"far", b"root", Ask::Value(b"region", b"eu")),
            Replied::Scope(1),
        ),
        (
            Derive(b"near", b"far", Ask::Value(b"region", b"us")),
            Replied::Scope(2),
        ),
        (
            Derive(b"other", b"near", Ask::Value(b"zone", b"1")),
            Replied::Scope(3),
        ),
    ]),
    // There is no scope 4.
    Value(0, b"region", None),
    Value(1, b"region", Some(b"eu")),
    Value(2, b"region", Some(b"us")),
    Value(3, b"region", Some(b"us")),
    Value(4, b"region", None),
    Value(2, b"zone", None),
];

#[test]
fn the_nearest_value_is_found(rt: HostRuntime) {
    play(&rt, rt.alloc(), &NEAREST_VALUES)
}
