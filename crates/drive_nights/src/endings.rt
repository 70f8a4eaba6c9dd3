//! What is left of other nights in a store. Once it is ended, a renewal of the store can drop it.

ghost use Rattle.std.specs.Prelude.{◌≡◌, ◌<◌, ◌++◌, IfOk, length};
ghost use Rattle.run_model.specs.Scopes.{is_root, line};
ghost use Rattle.model_laws.specs.Hits.{is_on};
ghost use Rattle.drive_nights.specs.Endings.{cancel_of, cancel_row, cancels_at, cancels_below};
ghost use Rattle.drive_nights.specs.Endings.{cause_of, endings_of, holds, is_left, top_at, wait_at};
ghost use Rattle.drive_nights.specs.Endings.{waits_below};

use crate::nights::{is_base, is_tonight, parent_of, text_under};
use night_drive::nights::is_done;
use row_view::copies::text_copy;
use run_model::{Command, Group, Kind, Scope, Step, Text};
use run_session::State;
use std::alloc::{AllocError, Allocator, Global};

/// Returns the steps that end what is left of all nights but this one: each of their groups is
/// waited for, and the top of each of them is canceled, with the deadline above it.
pub fn endings_of<A: Allocator>(
    alloc: Global,
    state: &State<A>,
    night: u64,
) -> Result<Vec<Step>, AllocError>
    ensures { IfOk result (λ steps. steps.items ≡ endings_of state.now night) }
{
    let mut steps = Vec::new(alloc);
    add_waits(&mut steps, state, night)?;
    add_cancels(&mut steps, state, night)?;
    Ok(steps)
}

/// Adds a step for each group of the store that is left over.
fn add_waits<A: Allocator>(
    steps: &mut Vec<Step>,
    state: &State<A>,
    night: u64,
) -> Result<(), AllocError>
    ensures { IfOk result (λ _. steps.new.items ≡ steps.old.items
        ++ waits_below state.now night (length state.now.work.groups)) }
{
    for g in 0..state.group_count() as u16 {
        add_wait(steps, state, night, g)?;
    }
    Ok(())
}

/// Adds a step that waits for a group of the store, if that is left over.
fn add_wait<A: Allocator>(
    steps: &mut Vec<Step>,
    state: &State<A>,
    night: u64,
    g: u16,
) -> Result<(), AllocError>
    ensures { IfOk result (λ _. steps.new.items ≡ steps.old.items ++ wait_at state.now night g) }
{
    match state.groups().group_row(g) {
        Some(row) if is_left(state, night, row) => {
            steps.push(Step::Command(Command::Wait {
                group: row.name.copy(),
            }))?;
            Ok(())
        }
        Some(_) | None => Ok(()),
    }
}

/// Returns whether a group of the store is left over: whether it stands in another night, and
/// wasn't waited for.
fn is_left<A: Allocator>(state: &State<A>, night: u64, row: &Group) -> bool
    ensures { result ≡ is_left state.now night row.now }
{
    !row.waited && !is_tonight(state, night, row.scope)
}

/// Adds the steps that cancel the top of each other night.
fn add_cancels<A: Allocator>(
    steps: &mut Vec<Step>,
    state: &State<A>,
    night: u64,
) -> Result<(), AllocError>
    ensures { IfOk result (λ _. steps.new.items ≡ steps.old.items
        ++ cancels_below state.now night (length state.now.tree.scopes)) }
{
    for s in 0..state.scope_count() as u16 {
        add_cancels_at(steps, state, night, s)?;
    }
    Ok(())
}

/// Adds the steps that cancel the top of another night, if this scope is its base.
fn add_cancels_at<A: Allocator>(
    steps: &mut Vec<Step>,
    state: &State<A>,
    night: u64,
    s: u16,
) -> Result<(), AllocError>
    ensures { IfOk result (λ _. steps.new.items ≡ steps.old.items ++ cancels_at state.now night s) }
{
    match top_at(state, s) {
        Some(top) if !is_tonight(state, night, s) => {
            add_cancel(steps, state, night, top)?;
            add_cancel(steps, state, night, parent_of(state, top))?;
            Ok(())
        }
        Some(_) | None => Ok(()),
    }
}

/// Adds a step that cancels a scope, if it is the top of a night or has a deadline. None is added
/// if the scope is done, or if this night stands below it.
fn add_cancel<A: Allocator>(
    steps: &mut Vec<Step>,
    state: &State<A>,
    night: u64,
    s: u16,
) -> Result<(), AllocError>
    ensures { IfOk result (λ _. steps.new.items ≡ steps.old.items
        ++ cancel_of state.now night s) }
{
    match state.scopes().get(s as usize) {
        Some(row) => add_cancel_of(steps, state, night, s, row),
        None => Ok(()),
    }
}

/// Adds a step that cancels the scope of this row, unless it is done, or this night stands below
/// it.
fn add_cancel_of<A: Allocator>(
    steps: &mut Vec<Step>,
    state: &State<A>,
    night: u64,
    s: u16,
    row: &Scope,
) -> Result<(), AllocError>
    requires { s < length state.now.tree.scopes }
    ensures { IfOk result (λ _. steps.new.items ≡ steps.old.items
        ++ cancel_row state.now night s row.now) }
{
    match cause_of(&row.kind) {
        Some(cause) if !(is_done(state, s) || holds(state, night, s)) => {
            steps.push(Step::Command(Command::Cancel {
                scope: row.name.copy(),
                cause,
            }))?;
            Ok(())
        }
        Some(_) | None => Ok(()),
    }
}

/// Returns whether a scope is one of this night, or stands above one.
fn holds<A: Allocator>(state: &State<A>, night: u64, top: u16) -> bool
    ensures { result ≡ holds state.now night top }
{
    let mut holds = false;
    for s in 0..state.scope_count() as u16 {
        if is_tonight(state, night, s) && is_above(state, top, s) {
            holds = true;
        }
    }
    holds
}

/// Returns whether a scope is on the line of another one: whether it is that one, or stands above
/// it.
fn is_above<A: Allocator>(state: &State<A>, top: u16, s: u16) -> bool
    ensures { result ≡ is_on top (line state.now.tree.scopes s) }
{
    let mut at = s;
    let mut most = s as u32 + 1;
    while most > 0 {
        most -= 1;
        let Some(row) = state.scopes().get(at as usize) else {
            return false;
        };
        if at == top {
            return true;
        }
        if is_root(&row.kind) {
            return false;
        }
        at = row.parent;
    }
    false
}

/// Returns whether a scope of this kind is root.
fn is_root(kind: &Kind) -> bool
    ensures { result ≡ is_root kind.now }
{
    matches!(kind, Kind::Root)
}

/// Returns the cause with which a scope of this kind is canceled: `over`, or none if it has a
/// deadline. `None` if no such scope is canceled here.
fn cause_of(kind: &Kind) -> Option<Option<Text>>
    ensures { result ≡ cause_of kind.now }
{
    match kind {
        Kind::Cause => Some(Some(text_copy(b"over"))),
        Kind::Deadline(_, _) => Some(None),
        _ => None,
    }
}

/// Returns the top of the night whose base this scope is.
fn top_at<A: Allocator>(state: &State<A>, s: u16) -> Option<u16>
    ensures { result ≡ top_at state.now s }
{
    if is_base(state, 1, s) {
        return Some(s);
    }
    let row = state.scopes().get(s as usize)?;
    match text_under(b"night", &row.kind) {
        Some(_) => Some(row.parent),
        None => None,
    }
}
