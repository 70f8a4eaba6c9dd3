//! What a night has in a store for its groups, and the steps that make what is missing.

ghost use Rattle.std.specs.Option.{option_copied};
ghost use Rattle.std.specs.Prelude.{◌≡◌, ◌≤◌, ◌++◌, IfOk, length, true};
ghost use Rattle.night_drive.specs.Names.{is_same};
ghost use Rattle.night_drive.specs.Seen.{is_scope};
ghost use Rattle.drive_nights.specs.Names.{is_short};
ghost use Rattle.drive_nights.specs.Nights.{night_text};
ghost use Rattle.drive_nights.specs.Rooms.{is_changed, is_replaced, is_room, kept_base, kept_scope};
ghost use Rattle.drive_nights.specs.Rooms.{last_room, last_scope, new_room, old_room, room_steps};
ghost use Rattle.drive_nights.specs.Rooms.{scope_steps, unlimited_at, was_canceled};
ghost use Rattle.drive_nights.specs.Rooms.{derive, words_in, words_of};

use crate::names::{Role, free_name, role_bytes, role_name};
use crate::nights::{base_of, name_at, night_text, text_under, top_above};
use crate::untils::Until;
use drive_steps::rooms::last_group;
use night_drive::nights::last_scope;
use row_view::copies::name_copy;
use run_model::{Command, Limit, Name, Reason, Step, Text, Wish, is_spelled};
use run_session::State;
use std::alloc::{AllocError, Allocator};

/// Adds the steps that make what a group needs in a night, below this base. If the base has moved,
/// the group gets a new scope, too, unless the scope that it has was canceled.
pub fn add_room<A: Allocator>(
    steps: &mut Vec<Step>,
    state: &State<A>,
    night: u64,
    base: &Name,
    moved: bool,
    group: &Name,
    until: &Option<Until>,
) -> Result<(), AllocError>
    requires { is_short group.now night ≡ true }
    ensures { IfOk result (λ _. steps.new.items ≡ steps.old.items
        ++ room_steps state.now night base.now moved group.now until.now) }
{
    match kept_scope(state, night, group, until, moved) {
        Some(scope) => add_old_room(steps, state, night, group, scope),
        None => add_new_room(steps, &free_name(state, group, night), base, until),
    }
}

/// Adds the steps for a group that keeps its scope.
fn add_old_room<A: Allocator>(
    steps: &mut Vec<Step>,
    state: &State<A>,
    night: u64,
    group: &Name,
    scope: u16,
) -> Result<(), AllocError>
    requires { is_short group.now night ≡ true }
    ensures { IfOk result (λ _. steps.new.items ≡ steps.old.items
        ++ old_room state.now night group.now scope) }
{
    match last_room(state, night, group) {
        Some(room) if is_room(state, scope, room) => add_unlimited(steps, state, room),
        Some(_) | None => {
            steps.push(Step::Command(Command::Bare {
                name: free_name(state, group, night),
                scope: name_at(state, scope),
            }))?;
            Ok(())
        }
    }
}

/// Adds the steps after which a group of the store has no limit.
fn add_unlimited<A: Allocator>(
    steps: &mut Vec<Step>,
    state: &State<A>,
    room: u16,
) -> Result<(), AllocError>
    ensures { IfOk result (λ _. steps.new.items ≡ steps.old.items
        ++ unlimited_at state.now room) }
{
    match state.groups().group_row(room) {
        Some(row) if row.limit.get().is_some() => {
            steps.push(Step::Command(Command::SetLimit {
                group: row.name.copy(),
                limit: Limit::none(),
            }))?;
            Ok(())
        }
        Some(_) | None => Ok(()),
    }
}

/// Adds the steps for a new scope of a group, and a group of the store in it.
fn add_new_room(
    steps: &mut Vec<Step>,
    name: &Name,
    base: &Name,
    until: &Option<Until>,
) -> Result<(), AllocError>
    requires { length name.now ≤ 29 }
    ensures { IfOk result (λ _. steps.new.items ≡ steps.old.items
        ++ new_room name.now base.now until.now) }
{
    add_scope(steps, name, base, until)?;
    steps.push(Step::Command(Command::Bare {
        name: name.copy(),
        scope: name.copy(),
    }))?;
    Ok(())
}

/// Adds the steps for a scope of this name below another one, with its deadline above it.
pub(crate) fn add_scope(
    steps: &mut Vec<Step>,
    name: &Name,
    parent: &Name,
    until: &Option<Until>,
) -> Result<(), AllocError>
    requires { length name.now ≤ 29 }
    ensures { IfOk result (λ _. steps.new.items ≡ steps.old.items
        ++ scope_steps name.now parent.now until.now) }
{
    let Some(until) = until else {
        steps.push(derive(name, parent, Wish::Cause))?;
        return Ok(());
    };
    let above = role_name(name, Role::Until);
    let deadline = Wish::Deadline(until.moment, Some(until.words.copy()));
    let words = Wish::Value(name_copy(b"deadline"), until.words.copy());
    steps.push(derive(&above, parent, deadline))?;
    steps.push(derive(name, &above, Wish::Cause))?;
    steps.push(derive(&role_name(name, Role::Said), name, words))?;
    Ok(())
}

/// Returns the step that derives a scope.
pub(crate) fn derive(name: &Name, parent: &Name, wish: Wish) -> Step
    ensures { result ≡ derive name.now parent.now wish }
{
    Step::Command(Command::Derive {
        name: name.copy(),
        parent: parent.copy(),
        wish,
    })
}

/// Returns the base of a night, if its top stays: if the deadline of all groups together is the
/// same, or the top was canceled.
pub fn kept_base<A: Allocator>(state: &State<A>, night: u64, all: &Option<Until>) -> Option<u16>
    ensures { result ≡ kept_base state.now night all.now }
{
    let base = base_of(state, night)?;
    let top = top_above(state, night, base);
    if is_replaced(state, top, is_changed(state, top, all)) {
        None
    } else {
        Some(base)
    }
}

/// Returns the last scope of a group, if it stays: if neither its deadline nor that of all groups
/// together is another one now, or if it was canceled.
pub fn kept_scope<A: Allocator>(
    state: &State<A>,
    night: u64,
    group: &Name,
    until: &Option<Until>,
    moved: bool,
) -> Option<u16>
    ensures { result ≡ kept_scope state.now night group.now until.now moved }
{
    let scope = last_scope(state, &night_text(night), group)?;
    if is_replaced(state, scope, moved || is_changed(state, scope, until)) {
        None
    } else {
        Some(scope)
    }
}

/// Returns the last group of the store that is a group's in a night.
fn last_room<A: Allocator>(state: &State<A>, night: u64, group: &Name) -> Option<u16>
    ensures { result ≡ last_room state.now night group.now }
{
    last_group(state, &night_text(night), group)
}

/// Returns whether a group of the store takes tasks in this scope.
fn is_room<A: Allocator>(state: &State<A>, scope: u16, room: u16) -> bool
    ensures { result ≡ is_room state.now scope room }
{
    match state.groups().group_row(room) {
        Some(row) => row.scope == scope && !row.waited,
        None => false,
    }
}

/// Returns whether another scope takes the place of this one: whether its deadline is another one
/// now, and it wasn't canceled.
fn is_replaced<A: Allocator>(state: &State<A>, scope: u16, is_changed: bool) -> bool
    ensures { result ≡ is_replaced state.now scope is_changed }
{
    is_changed && !was_canceled(state, scope)
}

/// Returns whether a scope is done because it was canceled, or a scope above it was.
fn was_canceled<A: Allocator>(state: &State<A>, scope: u16) -> bool
    ensures { result ≡ was_canceled state.now scope }
{
    if state.scope_count() <= scope as usize {
        return false;
    }
    matches!(state.tree().err(scope), Some(Reason::Canceled))
}

/// Returns whether the plan gives another deadline than a scope has.
fn is_changed<A: Allocator>(state: &State<A>, scope: u16, until: &Option<Until>) -> bool
    ensures { result ≡ is_changed state.now scope until.now }
{
    !is_same_deadline(words_of(state, &name_at(state, scope)), until)
}

/// Returns whether a deadline has these words.
fn is_same_deadline(words: Option<&Text>, until: &Option<Until>) -> bool
    ensures { result ≡ is_same (option_copied words.entry) (words_in until.now) }
{
    match (words, until) {
        (None, None) => true,
        (Some(words), Some(until)) => is_spelled(words.as_bytes(), until.words.as_bytes()),
        (None, Some(_)) | (Some(_), None) => false,
    }
}

/// Returns the words of the deadline with which the scope of this name was made.
fn words_of<'a, A: Allocator>(state: &'a State<A>, name: &Name) -> Option<&'a Text>
    ensures { option_copied result ≡ words_of state.now name.now }
{
    let said = state.find_bytes(role_bytes(name, Role::Said).as_slice())?;
    let row = state.scopes().get(said as usize)?;
    text_under(b"deadline", &row.kind)
}
