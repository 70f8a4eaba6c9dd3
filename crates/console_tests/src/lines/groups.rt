//! Tests of what lines of groups and tasks ask for; the values stand in
//! `docs/formats/console.md`.

use crate::lines::meanings::{Meaning, Row, assert_all, assert_read};
use run_model::Refusal;

static GROUPS: [Row; 3] = [
    (b"group g root", Meaning::Group(b"g", b"root")),
    (b"bare root none", Meaning::Bare(b"root", b"none")),
    (b"wait g", Meaning::Wait(b"g")),
];

#[test]
fn groups_are_made_and_waited_for_by_name(rt: HostRuntime) {
    assert_read(&rt, &GROUPS);
}

static LIMITS: [Row; 5] = [
    (b"limit g 0", Meaning::Limit(b"g", Some(0))),
    (b"limit g 2", Meaning::Limit(b"g", Some(2))),
    (b"limit g 064", Meaning::Limit(b"g", Some(64))),
    (b"limit g 000000000064", Meaning::Limit(b"g", Some(64))),
    (b"limit g none", Meaning::Limit(b"g", None)),
];

#[test]
fn a_limit_is_a_number_or_none(rt: HostRuntime) {
    assert_read(&rt, &LIMITS);
}

static SUBMITTED: [Row; 5] = [
    (b"go g copy a", Meaning::Go(b"g", b"copy", b"a")),
    (b"try try go try", Meaning::Try(b"try", b"go", b"try")),
    (b"retry 0", Meaning::Retry(0)),
    (b"retry 007", Meaning::Retry(7)),
    (b"retry 65535", Meaning::Retry(65_535)),
];

#[test]
fn tasks_are_submitted_with_a_job_and_an_argument(rt: HostRuntime) {
    assert_read(&rt, &SUBMITTED);
}

static ENDS: [Row; 6] = [
    (b"start", Meaning::Start),
    (b"finish 0 ok", Meaning::Finish(0, None)),
    (b"finish 065535 ok", Meaning::Finish(65_535, None)),
    (b"finish 1 error x", Meaning::Finish(1, Some(b"x"))),
    (
        b"finish 1 error  disk  full ",
        Meaning::Finish(1, Some(b" disk  full ")),
    ),
    (b"finish 2 error ok", Meaning::Finish(2, Some(b"ok"))),
];

#[test]
fn tasks_start_and_finish(rt: HostRuntime) {
    assert_read(&rt, &ENDS);
}

static QUESTIONS: [Row; 4] = [
    (b"task 007", Meaning::Task(7)),
    (b"task 65535", Meaning::Task(65_535)),
    (b"result g", Meaning::Result(b"g")),
    (b"tally", Meaning::Tally),
];

#[test]
fn questions_ask_of_tasks_and_groups(rt: HostRuntime) {
    assert_read(&rt, &QUESTIONS);
}

/// Words that are unknown, missing or left over, and numbers and limits of another form.
static BAD_LINES: [&[u8]; 52] = [
    b"group",
    b"group g",
    b"group g root x",
    b"group g root ",
    b"bare",
    b"bare g",
    b"bare g root root",
    b"limit",
    b"limit g",
    b"limit g ",
    b"limit g 2 ",
    b"limit g 65",
    b"limit g 255",
    b"limit g 256",
    b"limit g -1",
    b"limit g NONE",
    b"limit g none none",
    b"limit g 0000000000064",
    b"limit G 65",
    b"go",
    b"go g",
    b"go g copy",
    b"go g copy a b",
    b"try",
    b"try g copy",
    b"try g copy a ",
    b"wait",
    b"wait g g",
    b"result",
    b"result g ",
    b"start ",
    b"start 0",
    b"start\r",
    b"finish",
    b"finish 0",
    b"finish 0 ",
    b"finish 0 done",
    b"finish 0 ok ",
    b"finish 0 ok\r",
    b"finish 0 error",
    b"finish ok",
    b"finish x ok",
    b"finish 0000000000000 ok",
    b"finish 70000 success",
    b"retry",
    b"retry -1",
    b"retry 0 0",
    b"task",
    b"task x",
    b"task 0 ",
    b"tally ",
    b"tally all",
];

/// Lines with a word that is no name, whatever stands after it.
static BAD_NAMES: [&[u8]; 17] = [
    b"group  root",
    b"group g ",
    b"group G nowhere",
    b"bare  root",
    b"bare g ROOT",
    b"limit  2",
    b"limit G none",
    b"go  copy a",
    b"go g  a",
    b"go g copy ",
    b"try G copy a",
    b"try g COPY a",
    b"try g copy a\r",
    b"wait ",
    b"wait G",
    b"result ",
    b"result g\r",
];

/// Lines with an error that is no text, whatever their number is.
static BAD_TEXTS: [&[u8]; 4] = [
    b"finish 0 error ",
    b"finish 0 error x\r",
    b"finish 70000 error ",
    b"finish 999999999999 error \x7f",
];

/// Lines with a number that no task has.
static NO_TASKS: [&[u8]; 6] = [
    b"finish 65536 ok",
    b"finish 70000 error x",
    b"retry 65536",
    b"retry 999999999999",
    b"task 65536",
    b"task 999999999999",
];

#[test]
fn words_unknown_missing_or_left_over_make_a_bad_line(rt: HostRuntime) {
    assert_all(&rt, &BAD_LINES, &Meaning::BadLine);
}

#[test]
fn names_come_first_then_texts_then_numbers(rt: HostRuntime) {
    assert_all(&rt, &BAD_NAMES, &Meaning::Refused(Refusal::BadName));
    assert_all(&rt, &BAD_TEXTS, &Meaning::Refused(Refusal::BadText));
    assert_all(&rt, &NO_TASKS, &Meaning::Refused(Refusal::NoSuchTask));
}
