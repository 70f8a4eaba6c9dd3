//! Tests of what lines ask for; the values stand in `docs/formats/console.md`.

mod groups;
mod meanings;
mod moments;

use crate::lines::meanings::{Kind, Meaning, Row, assert_all, assert_read};
use console_lines::{LONGEST_INPUT, LONGEST_LINE};
use run_model::Refusal;

static DERIVES: [Row; 2] = [
    (
        b"derive a root cause",
        Meaning::Derive(b"a", b"root", Kind::Cause),
    ),
    (
        b"derive cause cancel cancel",
        Meaning::Derive(b"cause", b"cancel", Kind::Cancel),
    ),
];

#[test]
fn derives_name_a_scope_a_parent_and_a_kind(rt: HostRuntime) {
    assert_read(&rt, &DERIVES);
}

static CANCELS: [Row; 3] = [
    (b"cancel a", Meaning::Cancel(b"a", None)),
    (b"cancel a disk", Meaning::Cancel(b"a", Some(b"disk"))),
    (
        b"cancel a  disk  is full ",
        Meaning::Cancel(b"a", Some(b" disk  is full ")),
    ),
];

#[test]
fn a_cancel_has_the_rest_of_its_line_as_cause(rt: HostRuntime) {
    assert_read(&rt, &CANCELS);
}

static WISHES: [Row; 6] = [
    (
        b"derive p root deadline 100 p",
        Meaning::Derive(b"p", b"root", Kind::Deadline(100, Some(b"p"))),
    ),
    (
        b"derive p root deadline 0100",
        Meaning::Derive(b"p", b"root", Kind::Deadline(100, None)),
    ),
    (
        b"derive t root timeout 999999999999 too  late ",
        Meaning::Derive(
            b"t",
            b"root",
            Kind::Timeout(999_999_999_999, Some(b"too  late ")),
        ),
    ),
    (
        b"derive t root timeout 0",
        Meaning::Derive(b"t", b"root", Kind::Timeout(0, None)),
    ),
    (
        b"derive v root value region eu west ",
        Meaning::Derive(b"v", b"root", Kind::Value(b"region", b"eu west ")),
    ),
    (
        b"derive d x detached",
        Meaning::Derive(b"d", b"x", Kind::Detached),
    ),
];

#[test]
fn a_wish_has_the_words_after_its_kind(rt: HostRuntime) {
    assert_read(&rt, &WISHES);
}

static MOMENTS: [Row; 5] = [
    (b"advance 1704074400", Meaning::Advance(1_704_074_400)),
    (b"advance 001704074400", Meaning::Advance(1_704_074_400)),
    (
        b"advance 2024-01-01T02:00:00Z",
        Meaning::Advance(1_704_074_400),
    ),
    (
        b"advance 2024-01-01T03:00:00+01:00",
        Meaning::Advance(1_704_074_400),
    ),
    (
        b"derive u root deadline 2024-01-01T03:00:00+01:00",
        Meaning::Derive(b"u", b"root", Kind::Deadline(1_704_074_400, None)),
    ),
];

#[test]
fn moments_are_seconds_or_dates(rt: HostRuntime) {
    assert_read(&rt, &MOMENTS);
}

static QUESTIONS: [Row; 4] = [
    (b"scope b", Meaning::Scope(b"b")),
    (b"scope scope", Meaning::Scope(b"scope")),
    (b"value v region", Meaning::Value(b"v", b"region")),
    // An empty line asks nothing.
    (b"", Meaning::Nothing),
];

#[test]
fn a_question_names_its_scope(rt: HostRuntime) {
    assert_read(&rt, &QUESTIONS);
}

static SAVES: [Row; 2] = [
    (b"flush", Meaning::Flush),
    (b"checkpoint", Meaning::Checkpoint),
];

#[test]
fn a_save_is_one_word(rt: HostRuntime) {
    assert_read(&rt, &SAVES);
}

/// Words that are unknown, missing or left over.
static BAD_LINES: [&[u8]; 45] = [
    b"up",
    b"flush ",
    b"flush 1",
    b"flush\r",
    b" flush",
    b"Flush",
    b"checkpoint ",
    b"checkpoint x",
    b"check",
    b" ",
    b" scope root",
    b"SCOPE root",
    b"scope\troot",
    b"scope",
    b"scope root root",
    b"scope root ",
    b"cancel",
    b"derive",
    b"derive a",
    b"derive a root",
    b"derive a root other",
    b"derive a root cause x",
    b"derive a root cancel ",
    b"derive a root cause\r",
    b"derive a root detached x",
    b"derive a root deadline",
    b"derive a root deadline ",
    b"derive a root deadline 0000000000001",
    b"derive A root deadline 2024-01-01T24:00:00Z",
    b"derive a root timeout",
    b"derive a root timeout 1x",
    b"derive a root timeout 0000000000001",
    b"derive a root timeout 2024-01-01T02:00:00Z",
    b"derive a root value",
    b"derive a root value k",
    b"advance",
    b"advance ",
    b"advance 5 ",
    b"advance 5\r",
    b"advance 9999-12-31T24:00:00Z",
    b"advance 9987-02-30T00:00:00Z",
    b"value",
    b"value a",
    b"value a k ",
    b"value a k k",
];

/// Lines with a word that is no name, whatever stands after it.
static BAD_NAMES: [&[u8]; 18] = [
    b"scope ",
    b"scope a\r",
    b"scope a\0",
    b"derive  root cancel",
    b"derive a  cause",
    b"derive A root cause",
    b"derive a ro.ot cause",
    b"derive abcdefghijklmnopqrstuvwxyz-012345 root cause",
    b"cancel ",
    b"cancel A ",
    b"value  k",
    b"value a ",
    b"value a K",
    b"derive a root value  x",
    b"derive a root value K ",
    b"derive A root deadline 253000000001",
    b"derive a ROOT deadline 9999-12-31T23:59:59Z ",
    b"derive A root timeout 1 ",
];

/// Lines with good names and a text that is none.
static BAD_TEXTS: [&[u8]; 9] = [
    b"cancel a ",
    b"cancel a x\r",
    b"cancel a \x7f",
    b"cancel a \xc3\xa9",
    b"derive a root deadline 5 ",
    b"derive a root deadline 253000000001 ",
    b"derive a root deadline 9999-12-31T23:59:59Z x\r",
    b"derive a root timeout 5 ",
    b"derive a root value k ",
];

/// Lines with good names and texts, and a moment out of range.
static LATE_MOMENTS: [&[u8]; 5] = [
    b"advance 253000000001",
    b"advance 1969-12-31T23:59:59Z",
    b"advance 9988-02-30T00:00:00Z",
    b"derive a root deadline 253000000001",
    b"derive a root deadline 9999-12-31T23:59:59Z late",
];

#[test]
fn words_unknown_missing_or_left_over_make_a_bad_line(rt: HostRuntime) {
    assert_all(&rt, &BAD_LINES, &Meaning::BadLine);
}

#[test]
fn names_are_looked_at_before_texts_and_texts_before_moments(rt: HostRuntime) {
    assert_all(&rt, &BAD_NAMES, &Meaning::Refused(Refusal::BadName));
    assert_all(&rt, &BAD_TEXTS, &Meaning::Refused(Refusal::BadText));
    assert_all(
        &rt,
        &LATE_MOMENTS,
        &Meaning::Refused(Refusal::MomentOutOfRange),
    );
}

#[test]
fn a_line_of_257_bytes_is_a_bad_line(rt: HostRuntime) {
    let mut line = [b'x'; 257];
    line[..9].copy_from_slice(b"cancel a ");
    assert_all(&rt, &[&line[..256]], &Meaning::Refused(Refusal::BadText));
    assert_all(&rt, &[&line], &Meaning::BadLine);
    assert!(rt; LONGEST_LINE == 256);
    assert!(rt; LONGEST_INPUT == 16_777_216);
}
