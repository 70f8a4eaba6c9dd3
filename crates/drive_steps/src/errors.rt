//! The errors with which commands have failed, as the rows of a store show them.

ghost use Rattle.std.specs.Prelude.{◌≡◌, length};
ghost use Rattle.drive_steps.specs.Errors.{error_at, failure_of, first_below, first_error};
ghost use Rattle.drive_steps.specs.Errors.{is_failure, is_first, is_noted, last_error};

use night_drive::seen::last_try;
use night_drive::tries::has_failed;
use run_model::{Name, Stage, Text, is_spelled};
use run_session::State;
use std::alloc::Allocator;

/// Returns the error of a command whose last try in this night has failed.
pub fn last_error<A: Allocator>(
    state: &State<A>,
    night: &Option<Text>,
    group: &Name,
    key: &Name,
) -> Option<Text>
    ensures { result ≡ last_error state.now night.now group.now key.now }
{
    error_at(state, last_try(state, night, group, key)?)
}

/// Returns the first error of a group of the plan in this night. It is that of a command whose last
/// try has failed: of the one whose error is the first one of its group of the store, if there is
/// such a command. Otherwise it is that of the one whose last try has the lowest number.
pub fn first_error<A: Allocator>(
    state: &State<A>,
    night: &Option<Text>,
    group: &Name,
) -> Option<Text>
    ensures { result ≡ first_error state.now night.now group.now }
{
    match first_noted(state, night, group) {
        Some(n) => error_at(state, n),
        None => error_at(state, first_failure(state, night, group)?),
    }
}

/// Returns the first failure of a group whose error is the first one of its group of the store.
fn first_noted<A: Allocator>(state: &State<A>, night: &Option<Text>, group: &Name) -> Option<u16>
    ensures { result ≡ first_below (is_noted state.now night.now group.now)
        (length state.now.work.tasks) }
{
    let mut first = None;
    for n in 0..state.task_count() as u16 {
        if first.is_none() && is_noted(state, night, group, n) {
            first = Some(n);
        }
    }
    first
}

/// Returns the first failure of a group.
fn first_failure<A: Allocator>(state: &State<A>, night: &Option<Text>, group: &Name) -> Option<u16>
    ensures { result ≡ first_below (is_failure state.now night.now group.now)
        (length state.now.work.tasks) }
{
    let mut first = None;
    for n in 0..state.task_count() as u16 {
        if first.is_none() && is_failure(state, night, group, n) {
            first = Some(n);
        }
    }
    first
}

/// Returns whether a task is a failure of a group whose error is the first one of its group of the
/// store.
fn is_noted<A: Allocator>(state: &State<A>, night: &Option<Text>, group: &Name, n: u16) -> bool
    ensures { result ≡ is_noted state.now night.now group.now n }
{
    match state.groups().task_row(n) {
        Some(task) => {
            is_first(state, task.group, &error_at(state, n)) && is_failure(state, night, group, n)
        }
        None => false,
    }
}

/// Returns whether this is the first error of a group of the store.
fn is_first<A: Allocator>(state: &State<A>, g: u16, error: &Option<Text>) -> bool
    ensures { result ≡ is_first state.now g error.now }
{
    match (state.groups().group_row(g), error) {
        (Some(row), Some(error)) => match &row.error {
            Some(first) => is_spelled(first.as_bytes(), error.as_bytes()),
            None => false,
        },
        _ => false,
    }
}

/// Returns whether a task is the last try of a command of this group, and has failed.
fn is_failure<A: Allocator>(state: &State<A>, night: &Option<Text>, group: &Name, n: u16) -> bool
    ensures { result ≡ is_failure state.now night.now group.now n }
{
    match state.groups().task_row(n) {
        Some(task) => {
            has_failed(&task.stage) && last_try(state, night, group, &task.argument) == Some(n)
        }
        None => false,
    }
}

/// Returns the error with which a task has failed.
pub(crate) fn error_at<A: Allocator>(state: &State<A>, n: u16) -> Option<Text>
    ensures { result ≡ error_at state.now n }
{
    match state.groups().task_row(n) {
        Some(task) => failure_of(&task.stage),
        None => None,
    }
}

/// Returns the error of a failure.
fn failure_of(stage: &Stage) -> Option<Text>
    ensures { result ≡ failure_of stage.now }
{
    match stage {
        Stage::Failure(error) if has_failed(stage) => Some(error.copy()),
        _ => None,
    }
}
