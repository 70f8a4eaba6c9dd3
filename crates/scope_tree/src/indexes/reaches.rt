//! The reach of a scope is its deadline, and the nearest scope from it upwards that holds a value.
//! Kind and parent of a scope never change, so its reach is computed once, when the row is added.

ghost use Rattle.std.specs.Prelude.{◌≡◌, ◌<◌, ◌≤◌, length, vec_len, vec_capacity};
ghost use Rattle.run_model.specs.declared.bounds.TheConstants.{MOST_SCOPES};
ghost use Rattle.run_model.specs.Scopes.{AreOrdered};
ghost use Rattle.model_laws.specs.Searches.{earlier};
ghost use Rattle.scope_tree.specs.Reaches.{is_holder, IsReach, AreReaches, AreReached};

use crate::scope_kinds::{is_detached, is_root, own_deadline};
use run_model::{Kind, MOST_SCOPES, Moment, Scope};
use std::alloc::Allocator;

/// A scope's deadline, and the nearest scope at or above it that holds a value, or else root.
#[derive(Clone, Copy)]
pub struct Reach {
    pub deadline: Option<Moment>,
    pub holder: u16,
}

/// Computes the reaches of the last scopes, which don't have one yet. Takes no memory.
pub fn reach_rest<A: Allocator>(scopes: &[Scope], reaches: &mut Vec<Reach, A>)
    requires ordered { AreOrdered scopes.now }
    requires few { length scopes.now ≤ MOST_SCOPES }
    requires right { AreReaches scopes.now reaches.old.items }
    requires known { vec_len reaches.old ≤ length scopes.now }
    requires room { length scopes.now ≤ vec_capacity reaches.old }
    ensures reached { AreReached scopes.now reaches.new.items }
    ensures capacity { vec_capacity reaches.new ≡ vec_capacity reaches.old }
{
    for s in reaches.len()..scopes.len() {
        let reach = new_reach(scopes, reaches, s as u16);
        reaches.push_reserved(reach);
    }
}

/// Returns the reach of scope `s`, from those of the scopes with lower numbers.
fn new_reach(scopes: &[Scope], reaches: &[Reach], s: u16) -> Reach
    requires ordered { AreOrdered scopes.now }
    requires known { s < length scopes.now }
    requires made { s ≤ length reaches.now }
    requires right { AreReaches scopes.now reaches.now }
    ensures { IsReach scopes.now s result }
{
    let row = &scopes[s as usize];
    if is_root(&row.kind) {
        return Reach {
            deadline: None,
            holder: s,
        };
    }
    let up = reaches[row.parent as usize];
    let holder = if is_holder(&row.kind) { s } else { up.holder };
    let deadline = if is_detached(&row.kind) {
        None
    } else {
        sooner(own_deadline(&row.kind), up.deadline)
    };
    Reach { deadline, holder }
}

/// Returns whether a search for a value examines a scope of this kind, or ends there.
fn is_holder(kind: &Kind) -> bool
    ensures { result ≡ is_holder kind.now }
{
    matches!(kind, Kind::Root | Kind::Value(_, _))
}

/// Returns the earlier of two deadlines, of which one or both may be missing.
fn sooner(a: Option<Moment>, b: Option<Moment>) -> Option<Moment>
    ensures { result ≡ earlier a b }
{
    match (a, b) {
        (Some(a), Some(b)) => Some(a.min(b)),
        (None, b) => b,
        (a, None) => a,
    }
}
