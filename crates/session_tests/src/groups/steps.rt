//! Steps of a story as rows of a table: calls with what each is answered, and looks at what they
//! left.

use crate::asserts::{done, holds};
use crate::groups::calls::{Call, Reply, answer};
use run_model::{GroupLook, Layout, Phase, Refusal};
use std::alloc::Allocator;
use std::process::Abort;
use task_group::Groups;

/// What is seen of a group: unfinished tasks, limit, whether it was waited for, error.
pub type Seen = (u16, Option<u8>, bool, Option<&'static [u8]>);

/// A name, the number of its group if it has one, and what the tests of the name and of a group of
/// that name answer.
pub type Named = (
    &'static [u8],
    Option<u16>,
    Result<(), Refusal>,
    Result<(), Refusal>,
);

/// How far a task is that has no error of its own.
#[derive(Clone, Copy)]
pub enum At {
    /// Not started, and not admitted by its group's limit yet.
    Held,
    /// Not started, and admitted.
    Ready,
    /// Finished without an error.
    Success,
    /// Running when the program stopped.
    Interrupted,
}

/// A step of a story.
#[derive(Clone, Copy)]
pub enum Step {
    /// A call, and what it is answered.
    Is(Call, Reply),
    /// A restart, and the scopes that are told.
    Restart(&'static [u16]),
    /// How far the tasks are, by ascending number.
    Phases(&'static [At]),
    /// What is seen of a group.
    Look(u16, Seen),
    /// How many tasks of a group are unfinished, and whether one more would be ready.
    GroupCounts(u16, u16, bool),
    /// How many tasks are running.
    Running(usize),
    /// A task's argument, and the task that it retries.
    Again(u16, &'static [u8], u16),
    /// A layout, how many groups there are, and the scope of the first one.
    Groups(Layout, usize, u16),
    /// Names.
    Names(&'static [Named]),
    /// What the test of the room for a group answers.
    Room(Result<(), Refusal>),
    /// Neither this group is there, nor this task.
    Absent(u16, u16),
}

/// The phase of a task that is so far.
fn phase(at: At) -> Phase {
    match at {
        At::Held => Phase::Held,
        At::Ready => Phase::Ready,
        At::Success => Phase::Success,
        At::Interrupted => Phase::Interrupted,
    }
}

/// The number of a row; those of a test are small.
fn number(n: usize) -> u16 {
    u16::try_from(n).unwrap_or(u16::MAX)
}

/// Says whether the tasks are so far, by ascending number.
fn are_at<A: Allocator>(groups: &Groups<A>, phases: &[At]) -> bool {
    for (n, at) in phases.iter().enumerate() {
        if groups.phase(number(n)) != Some(phase(*at)) {
            return false;
        }
    }
    groups.task_count() == phases.len()
}

/// Says whether a look shows this.
fn shows(look: &GroupLook, seen: Seen) -> bool {
    let error = match &look.error {
        Some(text) => Some(text.as_bytes()),
        None => None,
    };
    (look.unfinished, look.limit.get(), look.waited, error) == seen
}

/// Says whether this is seen of a group.
fn is_seen<A: Allocator>(groups: &Groups<A>, group: u16, seen: Seen) -> bool {
    match groups.result(group) {
        Some(look) => shows(&look, seen),
        None => false,
    }
}

/// How many tasks of a group are unfinished, and whether one more would be ready.
fn counts<A: Allocator>(groups: &Groups<A>, group: u16) -> Option<(u16, bool)> {
    if groups.group_count() <= group as usize {
        return None;
    }
    Some((groups.unfinished(group), groups.admits_more(group)))
}

/// Says whether a task is of this argument, and retries this task.
fn is_again<A: Allocator>(groups: &Groups<A>, task: u16, argument: &[u8], of: u16) -> bool {
    match groups.task_row(task) {
        Some(row) => row.argument.as_bytes() == argument && row.retry_of == Some(of),
        None => false,
    }
}

/// Says whether each name has its number and its answers.
fn are_named<A: Allocator>(groups: &Groups<A>, names: &[Named]) -> bool {
    for (called, number, free, made) in names.iter() {
        let is_so = groups.find(called) == *number
            && groups.check_name(called) == *free
            && groups.check_make(called) == *made;
        if !is_so {
            return false;
        }
    }
    true
}

/// Says whether there are so many groups of this layout, the first one in this scope.
fn are_groups<A: Allocator>(groups: &Groups<A>, layout: Layout, count: usize, scope: u16) -> bool {
    match groups.group_row(0) {
        Some(row) => {
            row.scope == scope && groups.layout() == layout && groups.group_count() == count
        }
        None => false,
    }
}

/// Says whether neither this group is there, nor this task.
fn are_absent<A: Allocator>(groups: &Groups<A>, group: u16, task: u16) -> bool {
    groups.group_row(group).is_none()
        && groups.result(group).is_none()
        && !groups.was_waited(group)
        && groups.task_row(task).is_none()
        && groups.phase(task).is_none()
        && !groups.is_running(task)
}

/// Says whether groups show what a step says.
fn is_shown<A: Allocator>(groups: &Groups<A>, step: Step) -> bool {
    match step {
        Step::Phases(phases) => are_at(groups, phases),
        Step::Look(group, seen) => is_seen(groups, group, seen),
        Step::GroupCounts(group, unfinished, more) => {
            counts(groups, group) == Some((unfinished, more))
        }
        Step::Running(count) => groups.running() == count,
        Step::Again(task, argument, of) => is_again(groups, task, argument, of),
        Step::Groups(layout, count, scope) => are_groups(groups, layout, count, scope),
        Step::Names(names) => are_named(groups, names),
        Step::Room(answer) => groups.check_capacity() == answer,
        Step::Absent(group, task) => are_absent(groups, group, task),
        _ => false,
    }
}

/// Takes a step, and says whether it is as it says.
fn is_so<A: Allocator>(rt: &impl Abort, groups: &mut Groups<A>, step: Step) -> bool {
    match step {
        Step::Is(call, reply) => answer(rt, groups, call) == reply,
        Step::Restart(reported) => groups.restart().as_slice() == reported,
        _ => is_shown(groups, step),
    }
}

/// Takes the steps of a story. The message names it, and the step.
pub fn play<A: Allocator>(rt: &impl Abort, groups: &mut Groups<A>, what: &str, steps: &[Step]) {
    for (row, step) in steps.iter().enumerate() {
        holds(rt, is_so(rt, groups, *step), what, row);
    }
}

/// Groups of this layout, without a group.
pub fn begun<A: Allocator + Copy>(rt: &impl Abort, alloc: A, layout: Layout) -> Groups<A> {
    done(rt, Groups::with_room(alloc, layout), "memory")
}
