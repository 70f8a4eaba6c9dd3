//! The range of each field, and the numbers of bytes and rows.

use crate::asserts::{done, holds};
use crate::bytes::images::{
    Counts, Head, Pair, assert_pair, assert_pairs, image, is_read, is_refused,
};
use run_model::Layout;
use std::alloc::Global;
use std::process::Abort;

/// As many bytes as a name and a text can have at most.
const NAME: &[u8] = &[b'x'; 32];

const TEXT: &[u8] = &[b'x'; 64];

const NONE: Head = Head {
    version: 2,
    clock: 200,
    count: 10,
    rows: (0, 0, 0),
};

/// What the second head breaks, and two heads.
static HEADS: [(&str, Head, Head); 5] = [
    ("version 3", NONE, Head { version: 3, ..NONE }),
    ("version 0", NONE, Head { version: 0, ..NONE }),
    (
        "a clock past the greatest moment",
        Head {
            clock: 253_000_000_000,
            ..NONE
        },
        Head {
            clock: 253_000_000_001,
            ..NONE
        },
    ),
    (
        "a count of 2^63",
        Head {
            count: 0x7fff_ffff_ffff_ffff,
            ..NONE
        },
        Head {
            count: 0x8000_0000_0000_0000,
            ..NONE
        },
    ),
    (
        "the greatest number as a count",
        Head { count: 0, ..NONE },
        Head {
            count: 0xffff_ffff_ffff_ffff,
            ..NONE
        },
    ),
];

/// Asserts that the first head is one, and that the second is none.
fn assert_heads(rt: &impl Abort, alloc: Global, heads: &(&str, Head, Head), row: usize) {
    let good = image(rt, alloc, heads.1, &[]);
    let bad = image(rt, alloc, heads.2, &[]);
    assert_pair(rt, alloc, &good, &bad, heads.0, row);
}

#[test]
fn heads(rt: HostRuntime) {
    for (n, heads) in HEADS.iter().enumerate() {
        assert_heads(&rt, rt.alloc(), heads, n);
    }
}

static NAMES_AND_KINDS: [Pair; 5] = [
    (
        "a name of 33 bytes",
        (1, 0, 0),
        &[b"\x20", NAME, b"\x00\x00\x01\x00"],
        &[b"\x21", NAME, b"x\x00\x00\x01\x00"],
    ),
    (
        "no name",
        (1, 0, 0),
        &[b"\x01a\x00\x00\x01\x00"],
        &[b"\x00\x00\x00\x01\x00"],
    ),
    (
        "a byte that no name has",
        (1, 0, 0),
        &[b"\x01a\x00\x00\x01\x00"],
        &[b"\x01A\x00\x00\x01\x00"],
    ),
    (
        "kind 0",
        (1, 0, 0),
        &[b"\x01a\x00\x00\x01\x00"],
        &[b"\x01a\x00\x00\x00\x00"],
    ),
    (
        "kind 7",
        (1, 0, 0),
        &[b"\x01a\x00\x00\x05\x00"],
        &[b"\x01a\x00\x00\x07\x00"],
    ),
];

#[test]
fn names_of_scopes_and_kinds(rt: HostRuntime) {
    assert_pairs(&rt, rt.alloc(), &NAMES_AND_KINDS)
}

/// A deadline scope below root, up to its moment; its moment is 201 next.
const DEADLINE: &[u8] = b"\x01d\x00\x00\x03";

const MOMENT: &[u8] = b"\x00\x00\x00\x00\x00\x00\x00\xc9";

static DEADLINES_AND_VALUES: [Pair; 6] = [
    (
        "a deadline past the greatest moment",
        (1, 0, 0),
        &[DEADLINE, b"\x00\x00\x00\x3a\xe7\xf9\xa2\x00", b"\x00\x00"],
        &[DEADLINE, b"\x00\x00\x00\x3a\xe7\xf9\xa2\x01", b"\x00\x00"],
    ),
    (
        "a deadline's cause of 65 bytes",
        (1, 0, 0),
        &[DEADLINE, MOMENT, b"\x40", TEXT, b"\x00"],
        &[DEADLINE, MOMENT, b"\x41", TEXT, b"x\x00"],
    ),
    (
        "a cause with a byte that no text has",
        (1, 0, 0),
        &[DEADLINE, MOMENT, b"\x01\x7e\x00"],
        &[DEADLINE, MOMENT, b"\x01\x7f\x00"],
    ),
    (
        "a value without a key",
        (1, 0, 0),
        &[b"\x01v\x00\x00\x04\x01k\x01x\x00"],
        &[b"\x01v\x00\x00\x04\x00\x01x\x00"],
    ),
    (
        "a value without a text",
        (1, 0, 0),
        &[b"\x01v\x00\x00\x04\x01k\x01x\x00"],
        &[b"\x01v\x00\x00\x04\x01k\x00\x00"],
    ),
    (
        "a value of 65 bytes",
        (1, 0, 0),
        &[b"\x01v\x00\x00\x04\x01k\x40", TEXT, b"\x00"],
        &[b"\x01v\x00\x00\x04\x01k\x41", TEXT, b"x\x00"],
    ),
];

#[test]
fn deadlines_and_values(rt: HostRuntime) {
    assert_pairs(&rt, rt.alloc(), &DEADLINES_AND_VALUES)
}

/// A cancel scope below root with a hit of event 1 at clock 0, up to the reason.
const HIT: &[u8] = b"\x01a\x00\x00\x01\x01\x00\x00\x00\x00\x00\x00\x00\x01\x00\x00\x00\x00\
    \x00\x00\x00\x00";

static HITS: [Pair; 6] = [
    (
        "a hit that is neither 0 nor 1",
        (1, 0, 0),
        &[b"\x01a\x00\x00\x01\x00"],
        &[b"\x01a\x00\x00\x01\x02"],
    ),
    (
        "reason 0",
        (1, 0, 0),
        &[HIT, b"\x01\x01x"],
        &[HIT, b"\x00\x01x"],
    ),
    (
        "reason 3",
        (1, 0, 0),
        &[HIT, b"\x01\x01x"],
        &[HIT, b"\x03\x01x"],
    ),
    (
        "no cause",
        (1, 0, 0),
        &[HIT, b"\x01\x01x"],
        &[HIT, b"\x01\x00"],
    ),
    (
        "a cause of 65 bytes",
        (1, 0, 0),
        &[HIT, b"\x01\x40", TEXT],
        &[HIT, b"\x01\x41", TEXT, b"x"],
    ),
    (
        "a cause with a byte that no text has",
        (1, 0, 0),
        &[HIT, b"\x01\x01\x20"],
        &[HIT, b"\x01\x01\x1f"],
    ),
];

#[test]
fn hits(rt: HostRuntime) {
    assert_pairs(&rt, rt.alloc(), &HITS)
}

/// A task of group 0 that failed, up to its text, and its link to none.
const FAILURE: &[u8] = b"\x00\x00\x01j\x01a\x03";

const NO_LINK: &[u8] = b"\xff\xff";

static GROUPS: [Pair; 8] = [
    (
        "a group's name of 33 bytes",
        (0, 1, 0),
        &[b"\x20", NAME, b"\x00\x00\x01\xff\x00\x00"],
        &[b"\x21", NAME, b"x\x00\x00\x01\xff\x00\x00"],
    ),
    (
        "a group without a name",
        (0, 1, 0),
        &[b"\x01g\x00\x00\x01\xff\x00\x00"],
        &[b"\x00\x00\x00\x01\xff\x00\x00"],
    ),
    (
        "bare 2",
        (0, 1, 0),
        &[b"\x01g\x00\x00\x01\xff\x00\x00"],
        &[b"\x01g\x00\x00\x02\xff\x00\x00"],
    ),
    (
        "limit 65",
        (0, 1, 0),
        &[b"\x01g\x00\x00\x01\x40\x00\x00"],
        &[b"\x01g\x00\x00\x01\x41\x00\x00"],
    ),
    (
        "limit 254",
        (0, 1, 0),
        &[b"\x01g\x00\x00\x01\x00\x00\x00"],
        &[b"\x01g\x00\x00\x01\xfe\x00\x00"],
    ),
    (
        "waited 2",
        (0, 1, 0),
        &[b"\x01g\x00\x00\x01\xff\x01\x00"],
        &[b"\x01g\x00\x00\x01\xff\x02\x00"],
    ),
    (
        "an error of 65 bytes",
        (0, 1, 1),
        &[
            b"\x01g\x00\x00\x01\xff\x00\x40",
            TEXT,
            FAILURE,
            b"\x01x",
            NO_LINK,
        ],
        &[
            b"\x01g\x00\x00\x01\xff\x00\x41",
            TEXT,
            b"x",
            FAILURE,
            b"\x01x",
            NO_LINK,
        ],
    ),
    (
        "an error with a byte that no text has",
        (0, 1, 1),
        &[
            b"\x01g\x00\x00\x01\xff\x00\x01\x7e",
            FAILURE,
            b"\x01x",
            NO_LINK,
        ],
        &[
            b"\x01g\x00\x00\x01\xff\x00\x01\x7f",
            FAILURE,
            b"\x01x",
            NO_LINK,
        ],
    ),
];

#[test]
fn groups(rt: HostRuntime) {
    assert_pairs(&rt, rt.alloc(), &GROUPS)
}

/// A bare group without a limit and without an error, and one with an error.
const CLEAN: &[u8] = b"\x01g\x00\x00\x01\xff\x00\x00";

const LOST: &[u8] = b"\x01g\x00\x00\x01\xff\x00\x01y";

static TASKS: [Pair; 6] = [
    (
        "a job of 33 bytes",
        (0, 1, 1),
        &[CLEAN, b"\x00\x00\x20", NAME, b"\x01a\x00", NO_LINK],
        &[CLEAN, b"\x00\x00\x21", NAME, b"x\x01a\x00", NO_LINK],
    ),
    (
        "no job",
        (0, 1, 1),
        &[CLEAN, b"\x00\x00\x01j\x01a\x00", NO_LINK],
        &[CLEAN, b"\x00\x00\x00\x01a\x00", NO_LINK],
    ),
    (
        "an argument with a byte that no name has",
        (0, 1, 1),
        &[CLEAN, b"\x00\x00\x01j\x01a\x00", NO_LINK],
        &[CLEAN, b"\x00\x00\x01j\x01 \x00", NO_LINK],
    ),
    (
        "stage 5",
        (0, 1, 1),
        &[CLEAN, b"\x00\x00\x01j\x01a\x02", NO_LINK],
        &[CLEAN, b"\x00\x00\x01j\x01a\x05", NO_LINK],
    ),
    (
        "a failure without its text",
        (0, 1, 1),
        &[LOST, FAILURE, b"\x01x", NO_LINK],
        &[LOST, FAILURE, b"\x00", NO_LINK],
    ),
    (
        "a failure of 65 bytes",
        (0, 1, 1),
        &[LOST, FAILURE, b"\x40", TEXT, NO_LINK],
        &[LOST, FAILURE, b"\x41", TEXT, b"x", NO_LINK],
    ),
];

#[test]
fn tasks(rt: HostRuntime) {
    assert_pairs(&rt, rt.alloc(), &TASKS)
}

/// Two scopes, a bare group and two tasks.
static ROWS: [&[u8]; 5] = [
    b"\x01a\x00\x00\x01\x00",
    b"\x01b\x00\x01\x02\x00",
    CLEAN,
    b"\x00\x00\x01j\x01a\x02\xff\xff",
    b"\x00\x00\x01j\x01a\x00\xff\xff",
];

#[test]
fn a_byte_too_few_or_too_many(rt: HostRuntime) {
    let mut whole = image(&rt, rt.alloc(), Head::of((2, 1, 2)), &ROWS);
    holds(&rt, is_read(&rt, rt.alloc(), &whole, true), "whole", 0);
    for len in 0..whole.len() {
        holds(
            &rt,
            is_read(&rt, rt.alloc(), &whole[..len], false),
            "bytes",
            len,
        );
    }
    done(&rt, whole.push(0), "memory");
    holds(
        &rt,
        is_read(&rt, rt.alloc(), &whole, false),
        "a byte too many",
        0,
    );
}

/// Numbers of scopes, groups and tasks that these rows are not.
static OTHER_COUNTS: [Counts; 13] = [
    (3, 1, 2),
    (2, 2, 2),
    (2, 1, 3),
    (1, 1, 2),
    (2, 0, 2),
    (2, 1, 1),
    (1, 2, 2),
    (3, 0, 2),
    (2, 2, 1),
    (0, 0, 0),
    (65_535, 1, 2),
    (2, 65_535, 2),
    (2, 1, 65_535),
];

#[test]
fn a_row_too_few_or_too_many(rt: HostRuntime) {
    for (n, rows) in OTHER_COUNTS.iter().enumerate() {
        let image = image(&rt, rt.alloc(), Head::of(*rows), &ROWS);
        let is_none = is_refused(rt.alloc(), Layout::Small, &image);
        holds(&rt, is_none, "counts in a small store", n);
        let is_none = is_refused(rt.alloc(), Layout::Large, &image);
        holds(&rt, is_none, "counts in a large store", n);
    }
}
