//! The groups and scopes of a store that belong to a group of the plan, in one night.

ghost use Rattle.std.specs.Prelude.{◌≡◌, ◌<◌, IfSome, length};
ghost use Rattle.run_model.specs.Allowed.{takes_cause};
ghost use Rattle.run_model.specs.Scopes.{is_done};
ghost use Rattle.night_drive.specs.Names.{is_same, night_of};
ghost use Rattle.night_drive.specs.Searches.{last_below};
ghost use Rattle.night_drive.specs.Seen.{is_over, is_owned, is_scope};

use crate::names::belongs;
use row_view::copies::name_copy;
use run_model::{Kind, Name, Text, is_spelled};
use run_session::State;
use std::alloc::Allocator;

/// Returns whether a group of the store belongs to this night, and to the plan's group of this
/// name.
pub fn is_owned<A: Allocator>(
    state: &State<A>,
    night: &Option<Text>,
    group: &Name,
    number: u16,
) -> bool
    ensures { result ≡ is_owned state.now night.now group.now number }
{
    match state.groups().group_row(number) {
        Some(row) => belongs(group, &row.name) && is_tonight(state, night, row.scope),
        None => false,
    }
}

/// Returns whether a group of the plan is done in this night: whether the last of its scopes is
/// done. The scopes of earlier rounds no longer count.
pub fn is_over<A: Allocator>(state: &State<A>, night: &Option<Text>, group: &Name) -> bool
    ensures { result ≡ is_over state.now night.now group.now }
{
    match last_scope(state, night, group) {
        Some(scope) => is_done(state, scope),
        None => false,
    }
}

/// Returns the last scope of a group of the plan in this night.
pub fn last_scope<A: Allocator>(state: &State<A>, night: &Option<Text>, group: &Name) -> Option<u16>
    ensures last { result ≡ last_below (is_scope state.now night.now group.now)
        (length state.now.tree.scopes) }
    ensures within { IfSome result (λ scope. scope < length state.now.tree.scopes) }
{
    let mut last = None;
    for scope in 0..state.scope_count() as u16 {
        if is_scope(state, night, group, scope) {
            last = Some(scope);
        }
    }
    last
}

/// Returns whether a scope belongs to this night, and to the plan's group of this name.
fn is_scope<A: Allocator>(state: &State<A>, night: &Option<Text>, group: &Name, number: u16) -> bool
    ensures { result ≡ is_scope state.now night.now group.now number }
{
    match state.scopes().get(number as usize) {
        Some(row) => {
            has_cause(&row.kind) && belongs(group, &row.name) && is_tonight(state, night, number)
        }
        None => false,
    }
}

/// Returns whether a scope of this kind can be canceled with a cause.
fn has_cause(kind: &Kind) -> bool
    ensures { result ≡ takes_cause kind.now }
{
    matches!(kind, Kind::Cause)
}

/// Returns whether a scope is done.
pub fn is_done<A: Allocator>(state: &State<A>, scope: u16) -> bool
    requires { scope < length state.now.tree.scopes }
    ensures { result ≡ is_done state.now.tree.scopes scope }
{
    state.tree().err(scope).is_some()
}

/// Returns whether a scope belongs to this night.
fn is_tonight<A: Allocator>(state: &State<A>, night: &Option<Text>, scope: u16) -> bool
    ensures { result ≡ is_same (night_of state.now scope) night.now }
{
    is_same(&state.value(scope, &name_copy(b"night")), night)
}

/// Returns whether two nights are the same one.
fn is_same(one: &Option<Text>, other: &Option<Text>) -> bool
    ensures { result ≡ is_same one.now other.now }
{
    match (one, other) {
        (None, None) => true,
        (Some(one), Some(other)) => is_spelled(one.as_bytes(), other.as_bytes()),
        (None, Some(_)) | (Some(_), None) => false,
    }
}
