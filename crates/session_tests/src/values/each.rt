//! Tests of the values: each public call once, with the values that the documents give.

use crate::asserts::{given, holds, same};
use crate::values::{moment, name, text};
use run_model::{
    Fault, Group, Hit, Kind, Layout, Limit, Moment, Name, Outcome, Reason, Refusal, Scope, Stage,
    Task, Text,
};

static TEXTS: [&[u8]; 2] = [b"disk full: /dev/sda1", &[b'~'; 64]];

static NO_TEXTS: [&[u8]; 6] = [b"", &[b'~'; 65], b"\x1f", b"\x7f", b"a\n", b"\xc3\xa9"];

#[test]
fn texts_have_1_to_64_printable_bytes(rt: HostRuntime) {
    for (row, bytes) in TEXTS.iter().enumerate() {
        let read = text(&rt, bytes);
        same(&rt, &read.as_bytes(), bytes, "text", row);
        same(&rt, &read.copy(), &read, "the copy of text", row);
    }
    for (row, bytes) in NO_TEXTS.iter().enumerate() {
        holds(&rt, !Text::accepts(bytes), "no text", row);
        same(&rt, &Text::read(bytes), &None, "no text", row);
    }
}

static NAMES: [&[u8]; 2] = [b"copy-2_a", &[b'z'; 32]];

static NO_NAMES: [&[u8]; 9] = [
    b"",
    &[b'z'; 33],
    b"A",
    b"a b",
    b"a.b",
    b"`",
    b"{",
    b"/",
    b":",
];

#[test]
fn names_have_1_to_32_bytes_of_four_sorts(rt: HostRuntime) {
    for (row, bytes) in NAMES.iter().enumerate() {
        let read = name(&rt, bytes);
        same(&rt, &read.as_bytes(), bytes, "name", row);
        same(&rt, &read.copy(), &read, "the copy of name", row);
    }
    for (row, bytes) in NO_NAMES.iter().enumerate() {
        holds(&rt, !Name::accepts(bytes), "no name", row);
        same(&rt, &Name::read(bytes), &None, "no name", row);
    }
}

#[test]
fn moments_and_limits_have_a_greatest(rt: HostRuntime) {
    let greatest = moment(&rt, 253_000_000_000);
    same(&rt, &greatest.get(), &253_000_000_000, "moment", 0);
    same(&rt, &Moment::new(253_000_000_001), &None, "moment", 1);
    let most = given(&rt, Limit::new(64), "limit");
    same(&rt, &most.get(), &Some(64), "limit", 64);
    same(&rt, &Limit::new(65), &None, "limit", 65);
    same(&rt, &Limit::none().get(), &None, "no limit", 0);
}

/// A layout with its bytes, and how many scopes and tasks it has at most.
static LAYOUTS: [(Layout, u64, usize, usize); 2] = [
    (Layout::Small, 1_572_864, 1_024, 2_048),
    (Layout::Large, 6_291_456, 4_096, 8_192),
];

#[test]
fn a_store_has_one_of_two_layouts(rt: HostRuntime) {
    for (row, (layout, bytes, scopes, tasks)) in LAYOUTS.iter().enumerate() {
        same(&rt, &Layout::of(*bytes), &Some(*layout), "layout", row);
        same(&rt, &layout.store_len(), bytes, "the bytes of layout", row);
        same(
            &rt,
            &layout.most_scopes(),
            scopes,
            "the scopes of layout",
            row,
        );
        same(&rt, &layout.most_tasks(), tasks, "the tasks of layout", row);
    }
    for bytes in [0, 1_572_863, 1_572_865, 6_291_455, 6_291_457, u64::MAX] {
        holds(&rt, Layout::of(bytes).is_none(), "bytes", bytes as usize);
    }
}

#[test]
fn copies_are_the_same(rt: HostRuntime) {
    let kind = Kind::Deadline(moment(&rt, 7), Some(text(&rt, b"late")));
    same(&rt, &kind.copy(), &kind, "a deadline's copy", 0);
    let value = Kind::Value(name(&rt, b"region"), text(&rt, b"eu"));
    same(&rt, &value.copy(), &value, "a value's copy", 0);
    let outcome = Outcome::Failure(text(&rt, b"x"));
    same(&rt, &outcome.copy(), &outcome, "an outcome's copy", 0);
    let hit = Hit {
        event: 4,
        moment: moment(&rt, 7),
        reason: Reason::Canceled,
        cause: text(&rt, b"disk"),
    };
    same(&rt, &hit.copy(), &hit, "a hit's copy", 0);
}

#[test]
fn scopes_are_made_as_they_begin(rt: HostRuntime) {
    let kind = Kind::Deadline(moment(&rt, 7), Some(text(&rt, b"late")));
    let scope = Scope::new(name(&rt, b"p"), 3, kind.copy());
    same(&rt, &scope.parent, &3, "a scope's parent", 0);
    same(&rt, &scope.kind, &kind, "a scope's kind", 0);
    holds(&rt, scope.hit.is_none(), "a scope's hit", 0);
}

#[test]
fn groups_are_made_as_they_begin(rt: HostRuntime) {
    let group = Group::new(name(&rt, b"g"), 1, true);
    holds(&rt, group.bare && !group.waited, "a group's flags", 0);
    same(&rt, &group.limit, &Limit::none(), "a group's limit", 0);
    holds(&rt, group.error.is_none(), "a group's error", 0);
}

#[test]
fn tasks_are_made_as_they_begin(rt: HostRuntime) {
    let task = Task::new(2, name(&rt, b"copy"), name(&rt, b"a"), Some(7));
    same(&rt, &task.group, &2, "a task's group", 0);
    same(&rt, &task.retry_of, &Some(7), "a task's link", 0);
    same(&rt, &task.stage, &Stage::Fresh, "a task's stage", 0);
}

#[test]
fn reasons_have_the_texts_of_go(rt: HostRuntime) {
    let texts = [Reason::Canceled.text(), Reason::DeadlineExceeded.text()];
    let wanted = ["context canceled", "context deadline exceeded"];
    same(&rt, &texts, &wanted, "the texts", 0);
}

/// Refusals with their numbers and names.
static REFUSALS: [(Refusal, u8, &str); 25] = [
    (Refusal::NoSuchScope, 1, "NoSuchScope"),
    (Refusal::NoSuchGroup, 2, "NoSuchGroup"),
    (Refusal::NoSuchTask, 3, "NoSuchTask"),
    (Refusal::NameTaken, 4, "NameTaken"),
    (Refusal::BadName, 5, "BadName"),
    (Refusal::BadText, 6, "BadText"),
    (Refusal::TooManyScopes, 7, "TooManyScopes"),
    (Refusal::TooManyGroups, 8, "TooManyGroups"),
    (Refusal::TooManyTasks, 9, "TooManyTasks"),
    (Refusal::NotCancellable, 10, "NotCancellable"),
    (Refusal::CauseNotTaken, 11, "CauseNotTaken"),
    (Refusal::AlreadyDone, 12, "AlreadyDone"),
    (Refusal::LimitWhileActive, 13, "LimitWhileActive"),
    (Refusal::AtLimit, 14, "AtLimit"),
    (Refusal::Waited, 15, "Waited"),
    (Refusal::Unfinished(2), 16, "Unfinished"),
    (Refusal::ClockNotForward, 17, "ClockNotForward"),
    (Refusal::MomentOutOfRange, 18, "MomentOutOfRange"),
    (Refusal::NothingReady, 19, "NothingReady"),
    (Refusal::NotRunning, 20, "NotRunning"),
    (Refusal::SessionFull, 21, "SessionFull"),
    (Refusal::Broken, 22, "Broken"),
    (Refusal::NoValue, 23, "NoValue"),
    (Refusal::NotInterrupted, 24, "NotInterrupted"),
    (Refusal::AlreadyRetried, 25, "AlreadyRetried"),
];

#[test]
fn refusals_have_their_numbers_and_names(rt: HostRuntime) {
    for (row, (refusal, number, name)) in REFUSALS.iter().enumerate() {
        same(&rt, &refusal.number(), number, "refusal", row);
        same(&rt, &refusal.name(), name, "refusal", row);
    }
}

/// Faults with their numbers and names.
static FAULTS: [(Fault, u8, &str); 10] = [
    (Fault::Memory, 1, "Memory"),
    (Fault::DiskFailed, 2, "DiskFailed"),
    (Fault::NotAStore, 3, "NotAStore"),
    (Fault::WrongSize, 4, "WrongSize"),
    (Fault::BadSlot, 5, "BadSlot"),
    (Fault::BadImage, 6, "BadImage"),
    (Fault::BadBatch, 7, "BadBatch"),
    (Fault::BadRecord, 8, "BadRecord"),
    (Fault::BadEvent, 9, "BadEvent"),
    (Fault::NumbersSpent, 10, "NumbersSpent"),
];

#[test]
fn faults_have_their_numbers_and_names(rt: HostRuntime) {
    for (row, (fault, number, name)) in FAULTS.iter().enumerate() {
        same(&rt, &fault.number(), number, "fault", row);
        same(&rt, &fault.name(), name, "fault", row);
    }
}
