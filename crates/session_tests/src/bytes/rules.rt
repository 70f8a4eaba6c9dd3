//! Images that break one rule each, beside those that differ in the same place and keep it.

use crate::asserts::holds;
use crate::bytes::images::{Counts, Head, Pair, Pieces, assert_pairs, image, is_read};

/// Scopes below root up to their hit: two that are canceled, a cause, a deadline that has come and
/// one that has not, a value, a detached one, and a group's.
const A: &[u8] = b"\x01a\x00\x00\x01";

const B: &[u8] = b"\x01b\x00\x00\x01";

const CAUSE: &[u8] = b"\x01c\x00\x00\x02";

const COME: &[u8] = b"\x01d\x00\x00\x03\x00\x00\x00\x00\x00\x00\x00\xc8\x00";

const TO_COME: &[u8] = b"\x01d\x00\x00\x03\x00\x00\x00\x00\x00\x00\x00\xc9\x00";

const VALUE: &[u8] = b"\x01v\x00\x00\x04\x01k\x01x";

const DETACHED: &[u8] = b"\x01e\x00\x00\x05";

const GROUPS: &[u8] = b"\x01g\x00\x00\x06";

/// No hit, a cancel by event 1 at clock 0, and the deadline 200 that event 1 found exceeded.
const LIVE: &[u8] = b"\x00";

const HIT: &[u8] = b"\x01\x00\x00\x00\x00\x00\x00\x00\x01\x00\x00\x00\x00\x00\x00\x00\x00\x01\x01x";

const EXCEEDED: &[u8] =
    b"\x01\x00\x00\x00\x00\x00\x00\x00\x01\x00\x00\x00\x00\x00\x00\x00\xc8\x02\x01x";

static NAMES_AND_PARENTS: [Pair; 8] = [
    (
        "two scopes of one name",
        (2, 0, 0),
        &[A, LIVE, B, LIVE],
        &[A, LIVE, A, LIVE],
    ),
    (
        "a scope called root",
        (1, 0, 0),
        &[b"\x04rook\x00\x00\x01\x00"],
        &[b"\x04root\x00\x00\x01\x00"],
    ),
    (
        "its own parent",
        (1, 0, 0),
        &[b"\x01a\x00\x00\x01\x00"],
        &[b"\x01a\x00\x01\x01\x00"],
    ),
    (
        "a parent after it",
        (2, 0, 0),
        &[b"\x01a\x00\x00\x01\x00", B, LIVE],
        &[b"\x01a\x00\x02\x01\x00", B, LIVE],
    ),
    (
        "a parent that is not there",
        (2, 0, 0),
        &[A, LIVE, b"\x01b\x00\x01\x01\x00"],
        &[A, LIVE, b"\x01b\x00\x03\x01\x00"],
    ),
    (
        "two groups of one name",
        (0, 2, 0),
        &[
            b"\x01g\x00\x00\x01\xff\x00\x00",
            b"\x01h\x00\x00\x01\xff\x00\x00",
        ],
        &[
            b"\x01g\x00\x00\x01\xff\x00\x00",
            b"\x01g\x00\x00\x01\xff\x00\x00",
        ],
    ),
    (
        "a bare group in a scope that is not there",
        (0, 1, 0),
        &[b"\x01g\x00\x00\x01\xff\x00\x00"],
        &[b"\x01g\x00\x01\x01\xff\x00\x00"],
    ),
    (
        "a task of a group that is not there",
        (0, 1, 1),
        &[
            b"\x01g\x00\x00\x01\xff\x00\x00",
            b"\x00\x00\x01j\x01a\x00\xff\xff",
        ],
        &[
            b"\x01g\x00\x00\x01\xff\x00\x00",
            b"\x00\x01\x01j\x01a\x00\xff\xff",
        ],
    ),
];

#[test]
fn names_parents_and_numbers(rt: HostRuntime) {
    assert_pairs(&rt, rt.alloc(), &NAMES_AND_PARENTS)
}

static HIT_PLACES: [Pair; 6] = [
    ("a hit on a value", (1, 0, 0), &[VALUE, LIVE], &[VALUE, HIT]),
    (
        "a hit on a detached scope",
        (1, 0, 0),
        &[DETACHED, LIVE],
        &[DETACHED, HIT],
    ),
    (
        "a hit of event 0",
        (1, 0, 0),
        &[A, HIT],
        &[
            A,
            b"\x01\x00\x00\x00\x00\x00\x00\x00\x00\x00\x00\x00\x00\x00\x00\x00\x00\x01\x01x",
        ],
    ),
    (
        "a hit later than the count",
        (1, 0, 0),
        &[
            A,
            b"\x01\x00\x00\x00\x00\x00\x00\x00\x0a\x00\x00\x00\x00\x00\x00\x00\x00\x01\x01x",
        ],
        &[
            A,
            b"\x01\x00\x00\x00\x00\x00\x00\x00\x0b\x00\x00\x00\x00\x00\x00\x00\x00\x01\x01x",
        ],
    ),
    (
        "a hit of the greatest event",
        (1, 0, 0),
        &[A, HIT],
        &[
            A,
            b"\x01\xff\xff\xff\xff\xff\xff\xff\xff\x00\x00\x00\x00\x00\x00\x00\x00\x01\x01x",
        ],
    ),
    (
        "a hit past the clock",
        (1, 0, 0),
        &[
            A,
            b"\x01\x00\x00\x00\x00\x00\x00\x00\x01\x00\x00\x00\x00\x00\x00\x00\xc8\x01\x01x",
        ],
        &[
            A,
            b"\x01\x00\x00\x00\x00\x00\x00\x00\x01\x00\x00\x00\x00\x00\x00\x00\xc9\x01\x01x",
        ],
    ),
];

#[test]
fn hits_stand_where_they_can(rt: HostRuntime) {
    assert_pairs(&rt, rt.alloc(), &HIT_PLACES)
}

static DEADLINES: [Pair; 5] = [
    (
        "a deadline that has come and has no hit",
        (1, 0, 0),
        &[TO_COME, LIVE],
        &[COME, LIVE],
    ),
    (
        "an exceeded deadline on a cancel scope",
        (1, 0, 0),
        &[A, HIT],
        &[A, EXCEEDED],
    ),
    (
        "an exceeded deadline on a cause scope",
        (1, 0, 0),
        &[CAUSE, HIT],
        &[CAUSE, EXCEEDED],
    ),
    (
        "a deadline exceeded at another moment",
        (1, 0, 0),
        &[COME, EXCEEDED],
        &[
            COME,
            b"\x01\x00\x00\x00\x00\x00\x00\x00\x01\x00\x00\x00\x00\x00\x00\x00\xc7\x02\x01x",
        ],
    ),
    (
        "an exceeded deadline on a group's scope",
        (1, 1, 0),
        &[GROUPS, HIT, b"\x01g\x00\x01\x00\xff\x00\x00"],
        &[GROUPS, EXCEEDED, b"\x01g\x00\x01\x00\xff\x00\x00"],
    ),
];

#[test]
fn deadlines_are_exceeded_as_they_come(rt: HostRuntime) {
    assert_pairs(&rt, rt.alloc(), &DEADLINES)
}

static GROUPS_AND_SCOPES: [Pair; 6] = [
    (
        "a group's scope without a group",
        (1, 0, 0),
        &[A, LIVE],
        &[GROUPS, LIVE],
    ),
    (
        "a group's scope with a bare group alone",
        (1, 1, 0),
        &[GROUPS, LIVE, b"\x01g\x00\x01\x00\xff\x00\x00"],
        &[GROUPS, LIVE, b"\x01g\x00\x01\x01\xff\x00\x00"],
    ),
    (
        "a group of another name than its scope",
        (1, 1, 0),
        &[GROUPS, LIVE, b"\x01g\x00\x01\x00\xff\x00\x00"],
        &[GROUPS, LIVE, b"\x01h\x00\x01\x00\xff\x00\x00"],
    ),
    (
        "a group that is not bare in root",
        (0, 1, 0),
        &[b"\x01g\x00\x00\x01\xff\x00\x00"],
        &[b"\x01g\x00\x00\x00\xff\x00\x00"],
    ),
    (
        "a group that is not bare in a cancel scope of its name",
        (1, 1, 0),
        &[A, LIVE, b"\x01a\x00\x01\x01\xff\x00\x00"],
        &[A, LIVE, b"\x01a\x00\x01\x00\xff\x00\x00"],
    ),
    (
        "two groups in one another's scope",
        (2, 2, 0),
        &[
            GROUPS,
            LIVE,
            b"\x01h\x00\x00\x06\x00",
            b"\x01g\x00\x01\x00\xff\x00\x00\x01h\x00\x02\x00\xff\x00\x00",
        ],
        &[
            GROUPS,
            LIVE,
            b"\x01h\x00\x00\x06\x00",
            b"\x01g\x00\x02\x00\xff\x00\x00\x01h\x00\x01\x00\xff\x00\x00",
        ],
    ),
];

#[test]
fn groups_have_their_scopes(rt: HostRuntime) {
    assert_pairs(&rt, rt.alloc(), &GROUPS_AND_SCOPES)
}

/// Tasks of group 0 that are no retries: not started, running, done, failed, interrupted.
const FRESH: &[u8] = b"\x00\x00\x01j\x01a\x00\xff\xff";

const RUNNING: &[u8] = b"\x00\x00\x01j\x01a\x01\xff\xff";

const SUCCESS: &[u8] = b"\x00\x00\x01j\x01a\x02\xff\xff";

const FAILURE: &[u8] = b"\x00\x00\x01j\x01a\x03\x01x\xff\xff";

const INTERRUPTED: &[u8] = b"\x00\x00\x01j\x01a\x04\xff\xff";

/// Bare groups: with limit 0, with limit 1, without a limit, and one that was waited for.
const SHUT: &[u8] = b"\x01h\x00\x00\x01\x00\x00\x00";

const ONE: &[u8] = b"\x01h\x00\x00\x01\x01\x00\x00";

const OPEN: &[u8] = b"\x01h\x00\x00\x01\xff\x00\x00";

const WAITED: &[u8] = b"\x01h\x00\x00\x01\xff\x01\x00";

static RUNNING_TASKS: [(&str, Counts, bool, Pieces); 10] = [
    ("held by limit 0", (0, 1, 1), true, &[SHUT, FRESH]),
    ("running at limit 0", (0, 1, 1), false, &[SHUT, RUNNING]),
    (
        "one running at limit 1",
        (0, 1, 2),
        true,
        &[ONE, RUNNING, FRESH],
    ),
    (
        "two running at limit 1",
        (0, 1, 2),
        false,
        &[ONE, RUNNING, RUNNING],
    ),
    (
        "the second alone running",
        (0, 1, 2),
        false,
        &[ONE, FRESH, RUNNING],
    ),
    (
        "running after one that ended",
        (0, 1, 2),
        true,
        &[ONE, SUCCESS, RUNNING],
    ),
    (
        "two running without a limit",
        (0, 1, 2),
        true,
        &[OPEN, RUNNING, RUNNING],
    ),
    ("waited for when idle", (0, 1, 1), true, &[WAITED, SUCCESS]),
    (
        "waited for with a task not started",
        (0, 1, 1),
        false,
        &[WAITED, FRESH],
    ),
    (
        "waited for with a running task",
        (0, 1, 1),
        false,
        &[WAITED, RUNNING],
    ),
];

#[test]
fn running_tasks_are_admitted(rt: HostRuntime) {
    for (n, (what, counts, kept, pieces)) in RUNNING_TASKS.iter().enumerate() {
        let image = image(&rt, rt.alloc(), Head::of(*counts), pieces);
        holds(&rt, is_read(&rt, rt.alloc(), &image, *kept), what, n);
    }
}

static FIRST_ERRORS: [Pair; 6] = [
    (
        "an error that no task has",
        (0, 1, 1),
        &[b"\x01h\x00\x00\x01\xff\x00\x01y", FAILURE],
        &[b"\x01h\x00\x00\x01\xff\x00\x01y", SUCCESS],
    ),
    (
        "a failure that its group lacks",
        (0, 1, 1),
        &[b"\x01h\x00\x00\x01\xff\x00\x00", SUCCESS],
        &[b"\x01h\x00\x00\x01\xff\x00\x00", FAILURE],
    ),
    (
        "an interruption that its group lacks",
        (0, 1, 1),
        &[b"\x01h\x00\x00\x01\xff\x00\x01y", INTERRUPTED],
        &[b"\x01h\x00\x00\x01\xff\x00\x00", INTERRUPTED],
    ),
    (
        "an error that a task of another group has",
        (0, 2, 1),
        &[
            b"\x01h\x00\x00\x01\xff\x00\x01y",
            b"\x01i\x00\x00\x01\xff\x00\x00",
            FAILURE,
        ],
        &[
            b"\x01h\x00\x00\x01\xff\x00\x00",
            b"\x01i\x00\x00\x01\xff\x00\x01y",
            FAILURE,
        ],
    ),
    (
        "an error without a hit on the group's scope",
        (1, 1, 1),
        &[GROUPS, HIT, b"\x01g\x00\x01\x00\xff\x00\x01y", FAILURE],
        &[GROUPS, LIVE, b"\x01g\x00\x01\x00\xff\x00\x01y", FAILURE],
    ),
    (
        "a wait without a hit on the group's scope",
        (1, 1, 0),
        &[GROUPS, HIT, b"\x01g\x00\x01\x00\xff\x01\x00"],
        &[GROUPS, LIVE, b"\x01g\x00\x01\x00\xff\x01\x00"],
    ),
];

#[test]
fn first_errors_are_exact(rt: HostRuntime) {
    assert_pairs(&rt, rt.alloc(), &FIRST_ERRORS)
}

/// Two bare groups without a limit, of which the first has an error.
const TWO_GROUPS: &[u8] = b"\x01h\x00\x00\x01\xff\x00\x01y\x01i\x00\x00\x01\xff\x00\x00";

/// A retry of task 0, and another of it.
const RETRY: &[u8] = b"\x00\x00\x01j\x01a\x00\x00\x00";

static LINKS: [Pair; 10] = [
    (
        "a retry of itself",
        (0, 2, 2),
        &[TWO_GROUPS, INTERRUPTED, RETRY],
        &[TWO_GROUPS, INTERRUPTED, b"\x00\x00\x01j\x01a\x00\x00\x01"],
    ),
    (
        "a retry of a task after it",
        (0, 2, 2),
        &[TWO_GROUPS, INTERRUPTED, RETRY],
        &[TWO_GROUPS, b"\x00\x00\x01j\x01a\x00\x00\x01", INTERRUPTED],
    ),
    (
        "a retry of a task that is not there",
        (0, 2, 2),
        &[TWO_GROUPS, INTERRUPTED, RETRY],
        &[TWO_GROUPS, INTERRUPTED, b"\x00\x00\x01j\x01a\x00\xff\xfe"],
    ),
    (
        "a retry in another group",
        (0, 2, 2),
        &[TWO_GROUPS, INTERRUPTED, RETRY],
        &[TWO_GROUPS, INTERRUPTED, b"\x00\x01\x01j\x01a\x00\x00\x00"],
    ),
    (
        "a retry of another job",
        (0, 2, 2),
        &[TWO_GROUPS, INTERRUPTED, RETRY],
        &[TWO_GROUPS, INTERRUPTED, b"\x00\x00\x01k\x01a\x00\x00\x00"],
    ),
    (
        "a retry of another argument",
        (0, 2, 2),
        &[TWO_GROUPS, INTERRUPTED, RETRY],
        &[TWO_GROUPS, INTERRUPTED, b"\x00\x00\x01j\x01b\x00\x00\x00"],
    ),
    (
        "a retry of a task that failed",
        (0, 2, 2),
        &[TWO_GROUPS, INTERRUPTED, RETRY],
        &[TWO_GROUPS, FAILURE, RETRY],
    ),
    (
        "a retry of a running task",
        (0, 2, 3),
        &[TWO_GROUPS, RUNNING, FAILURE, FRESH],
        &[TWO_GROUPS, RUNNING, FAILURE, RETRY],
    ),
    (
        "a retry of a task that was not started",
        (0, 2, 3),
        &[TWO_GROUPS, FRESH, FAILURE, FRESH],
        &[TWO_GROUPS, FRESH, FAILURE, RETRY],
    ),
    (
        "two retries of one task",
        (0, 2, 3),
        &[TWO_GROUPS, INTERRUPTED, RETRY, FRESH],
        &[TWO_GROUPS, INTERRUPTED, RETRY, RETRY],
    ),
];

#[test]
fn links_name_what_can_be_retried(rt: HostRuntime) {
    assert_pairs(&rt, rt.alloc(), &LINKS)
}
