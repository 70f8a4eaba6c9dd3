//! As many scopes, groups and tasks as there can be, and which of two refusals is told.

use crate::sessions::fills::Fill;
use crate::sessions::steps::Step::{Fills, Refuses, Says};
use crate::sessions::steps::{Step, begun, play, take};
use run_model::{Layout, Refusal};
use std::alloc::Global;
use std::process::Abort;
use test_fixtures::Call::{Bare, Derive, Go, Group, Start, Succeed, Try, Wait};
use test_fixtures::{Ask, Replied};

/// There is room for no scope.
static NO_SCOPES_LEFT: [Step; 2] = [
    Refuses(&[
        (Derive(b"more", b"root", Ask::Cause), Refusal::TooManyScopes),
        (
            Derive(b"more", b"root", Ask::Timeout(u64::MAX)),
            Refusal::TooManyScopes,
        ),
        (Group(b"more", b"root"), Refusal::TooManyScopes),
    ]),
    Says(&[(Bare(b"more", b"root"), Replied::Group(0, None))]),
];

/// Asserts that there are so many scopes, root beside as many as this.
fn assert_most(rt: &impl Abort, alloc: Global, layout: Layout, last: u16) {
    let mut session = begun(rt, alloc, layout);
    take(rt, &mut session, &[Fills(Fill::Scopes(1, last))]);
    take(rt, &mut session, &NO_SCOPES_LEFT);
    drop(session);
}

#[test]
fn there_are_1_024_scopes_or_4_096(rt: HostRuntime) {
    assert_most(&rt, rt.alloc(), Layout::Small, 1_023);
    assert_most(&rt, rt.alloc(), Layout::Large, 4_095);
}

static MOST_GROUPS: [Step; 3] = [
    Says(&[(Group(b"g", b"root"), Replied::Group(0, Some(1)))]),
    Fills(Fill::Groups(1, 127)),
    Refuses(&[
        (Bare(b"more", b"root"), Refusal::TooManyGroups),
        (Group(b"more", b"root"), Refusal::TooManyGroups),
        // A name that is taken, and a scope that isn't there, are told first.
        (Bare(b"b0007", b"root"), Refusal::NameTaken),
        (Bare(b"more", b"nowhere"), Refusal::NoSuchScope),
    ]),
];

#[test]
fn there_are_128_groups(rt: HostRuntime) {
    play(&rt, rt.alloc(), &MOST_GROUPS)
}

static REFUSED_GROUPS: [Step; 7] = [
    Says(&[(Group(b"both", b"root"), Replied::Group(0, Some(1)))]),
    Fills(Fill::Groups(1, 126)),
    // No parent, before a name that is a scope's, a group's, or both.
    Refuses(&[
        (Group(b"root", b"no"), Refusal::NoSuchScope),
        (Group(b"b0001", b"no"), Refusal::NoSuchScope),
        (Group(b"both", b"no"), Refusal::NoSuchScope),
        (Group(b"root", b"root"), Refusal::NameTaken),
        (Group(b"b0001", b"root"), Refusal::NameTaken),
        (Group(b"both", b"root"), Refusal::NameTaken),
    ]),
    // No room for a scope: it is told after the parent and either name.
    Fills(Fill::Scopes(2, 1_023)),
    Refuses(&[
        (Group(b"new", b"no"), Refusal::NoSuchScope),
        (Group(b"root", b"root"), Refusal::NameTaken),
        (Group(b"b0001", b"root"), Refusal::NameTaken),
        (Group(b"new", b"root"), Refusal::TooManyScopes),
    ]),
    // No room for a group either: it is told last.
    Fills(Fill::Groups(127, 127)),
    Refuses(&[
        (Group(b"new", b"no"), Refusal::NoSuchScope),
        (Group(b"root", b"root"), Refusal::NameTaken),
        (Group(b"b0001", b"root"), Refusal::NameTaken),
        (Group(b"new", b"root"), Refusal::TooManyScopes),
    ]),
];

#[test]
fn a_group_is_refused_in_order(rt: HostRuntime) {
    play(&rt, rt.alloc(), &REFUSED_GROUPS)
}

static NO_GROUPS_LEFT: [Step; 2] = [
    Fills(Fill::Groups(0, 127)),
    Refuses(&[
        (Group(b"new", b"no"), Refusal::NoSuchScope),
        (Group(b"root", b"root"), Refusal::NameTaken),
        (Group(b"b0001", b"root"), Refusal::NameTaken),
        (Group(b"new", b"root"), Refusal::TooManyGroups),
    ]),
];

#[test]
fn room_for_groups_is_asked_last(rt: HostRuntime) {
    play(&rt, rt.alloc(), &NO_GROUPS_LEFT)
}

static MOST_TASKS: [Step; 4] = [
    Says(&[
        (Bare(b"g", b"root"), Replied::Group(0, None)),
        (Bare(b"h", b"root"), Replied::Group(1, None)),
        (Wait(b"h"), Replied::Waited(None)),
    ]),
    Fills(Fill::Tasks(2_048)),
    Refuses(&[
        (Go(b"g", b"copy", b"a"), Refusal::TooManyTasks),
        (Try(b"g", b"copy", b"a"), Refusal::TooManyTasks),
        (Go(b"h", b"copy", b"a"), Refusal::Waited),
        (Go(b"no", b"copy", b"a"), Refusal::NoSuchGroup),
        (Wait(b"g"), Refusal::Unfinished(2_048)),
    ]),
    Says(&[
        (Start, Replied::Started(2_053, 0, b"copy", b"a", false)),
        (Succeed(0), Replied::Finished(2_054)),
        (
            Go(b"g", b"copy", b"a"),
            Replied::Refused(Refusal::TooManyTasks),
        ),
    ]),
];

#[test]
fn there_are_2_048_tasks(rt: HostRuntime) {
    play(&rt, rt.alloc(), &MOST_TASKS)
}
