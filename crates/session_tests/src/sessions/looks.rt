//! What a session shows, as tables write it, and the first row of a table that it doesn't show.

use crate::values::name;
use record_view::EventView;
use run_model::{Look, TaskLook};
use run_session::{Session, State};
use std::alloc::Allocator;
use std::process::Abort;
use test_fixtures::{Going, GroupSeen, Seen, going_of, is_group, seen_of};

/// A scope by its number: how it is, and its deadline.
pub type ScopeRow = (u16, Seen<'static>, Option<u64>);

fn is_scope(look: &Look, row: &ScopeRow) -> bool {
    let deadline = look.deadline.map(|moment| moment.get());
    seen_of(look) == row.1 && deadline == row.2
}

/// The first row of a scope that is otherwise, or not there.
pub fn first_scope_unlike<A: Allocator>(state: &State<A>, rows: &[ScopeRow]) -> Option<usize> {
    for (n, row) in rows.iter().enumerate() {
        match state.look(row.0) {
            Some(look) if is_scope(&look, row) => {}
            _ => return Some(n),
        }
    }
    None
}

/// The first task that isn't as far as this, by ascending number; or how many there are, if that
/// is another number.
pub fn first_task_unlike<A: Allocator>(
    state: &State<A>,
    phases: &[Going<'static>],
) -> Option<usize> {
    for (n, going) in phases.iter().enumerate() {
        let number = n.min(65_535) as u16;
        let (Some(look), Some(phase)) = (state.task(number), state.phase(number)) else {
            return Some(n);
        };
        if going_of(&look.phase) != *going || going_of(&phase) != *going {
            return Some(n);
        }
    }
    let count = state.task_count();
    (count != phases.len()).then_some(count)
}

/// A task by its number: its job, its argument, and which task it is a retry of.
pub type TaskRow = (u16, &'static [u8], &'static [u8], Option<u16>);

fn is_task(look: &TaskLook, row: &TaskRow) -> bool {
    look.job.as_bytes() == row.1 && look.argument.as_bytes() == row.2 && look.retry_of == row.3
}

/// Says whether there is this task.
pub fn has_task<A: Allocator>(state: &State<A>, row: &TaskRow) -> bool {
    match state.task(row.0) {
        Some(look) => is_task(&look, row),
        None => false,
    }
}

/// Says whether there is a group of this name, of which this is seen.
pub fn has_group<A: Allocator>(
    rt: &impl Abort,
    state: &State<A>,
    called: &[u8],
    seen: &GroupSeen,
) -> bool {
    let Some(number) = state.find_group(&name(rt, called)) else {
        return false;
    };
    match state.group(number) {
        Some(look) => is_group(&look, called, seen),
        None => false,
    }
}

/// Says whether this is the value of a key at a scope.
pub fn has_value<A: Allocator>(
    rt: &impl Abort,
    state: &State<A>,
    scope: u16,
    key: &[u8],
    value: Option<&[u8]>,
) -> bool {
    let found = state.value(scope, &name(rt, key));
    found.as_ref().map(|text| text.as_bytes()) == value
}

/// The first event that the history gives in place of one of these, or after them.
pub fn first_event_unlike<A: Allocator>(
    session: &Session<A>,
    expected: &[EventView<'static>],
) -> Option<usize> {
    let mut events = session.history();
    for (n, event) in expected.iter().enumerate() {
        if events.next() != Some(*event) {
            return Some(n);
        }
    }
    events.next().is_some().then_some(expected.len())
}
