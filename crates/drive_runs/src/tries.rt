//! The name of a try: the group and the key of its task, and its number among the tasks of that key
//! in the group. The names of the files with a try's output are made from it, so it stays the same
//! when a renewal gives the task another number.

ghost use Rattle.std.specs.Prelude.{◌≡◌, ◌≤◌, IfSome, length};
ghost use Rattle.night_drive.specs.Searches.{count_below, last_below};
ghost use Rattle.drive_runs.specs.Tries.{is_named, is_of, try_name};

use drive_lines::fields::TryName;
use run_model::{Name, is_spelled};
use run_session::State;
use std::alloc::Allocator;

/// Returns the name of the try that this task is; `None` if there is no such task.
pub fn try_name<A: Allocator>(state: &State<A>, n: u16) -> Option<TryName>
    ensures { result ≡ try_name state.now n }
{
    let task = state.groups().task_row(n)?;
    let group = state.groups().group_row(task.group)?;
    Some(TryName {
        group: group.name.copy(),
        key: task.argument.copy(),
        number: number_of(state, task.group, &task.argument, n),
    })
}

/// Returns the task of the try that has this name.
pub fn task_named<A: Allocator>(state: &State<A>, named: &TryName) -> Option<u16>
    ensures { result ≡ last_below (is_named state.now named.now) (length state.now.work.tasks) }
{
    let mut found = None;
    for n in 0..state.task_count() as u16 {
        if is_named(state, named, n) {
            found = Some(n);
        }
    }
    found
}

/// Returns whether this task is the try that has this name.
fn is_named<A: Allocator>(state: &State<A>, named: &TryName, n: u16) -> bool
    ensures { result ≡ is_named state.now named.now n }
{
    match try_name(state, n) {
        Some(name) => {
            name.number == named.number
                && is_spelled(name.group.as_bytes(), named.group.as_bytes())
                && is_spelled(name.key.as_bytes(), named.key.as_bytes())
        }
        None => false,
    }
}

/// Returns how many tasks before this one have this key in this group.
fn number_of<A: Allocator>(state: &State<A>, g: u16, key: &Name, n: u16) -> u16
    ensures { result ≡ count_below (is_of state.now g key.now) n }
{
    let mut count = 0;
    for m in 0..n {
        if is_of(state, g, key, m) {
            count += 1;
        }
    }
    count
}

/// Returns whether a task has this key, and is in this group.
fn is_of<A: Allocator>(state: &State<A>, g: u16, key: &Name, n: u16) -> bool
    ensures { result ≡ is_of state.now g key.now n }
{
    match state.groups().task_row(n) {
        Some(task) => { task.group == g && is_spelled(task.argument.as_bytes(), key.as_bytes()) }
        None => false,
    }
}
