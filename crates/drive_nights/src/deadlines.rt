//! The next moment at which something comes in a night by itself: a retry, or a deadline.

ghost use Rattle.std.specs.Option.{option_and_then};
ghost use Rattle.std.specs.Prelude.{◌≡◌, ◌<◌, IfSome, length};
ghost use Rattle.drive_nights.specs.Deadlines.{IsNextMoment, end_of, sooner};

use crate::nights::{base_of, night_text};
use night_drive::nights::last_scope;
use run_model::Name;
use run_session::State;
use std::alloc::Allocator;

/// Returns the next moment at which something comes in a night with these groups: the least of the
/// next retry, if there is one, and of the deadlines that haven't come by the clock of the store.
/// These are the deadlines of the groups, and that of all groups together.
pub fn next_moment<A: Allocator>(
    state: &State<A>,
    night: u64,
    groups: &[Name],
    retry: Option<u64>,
) -> Option<u64>
    ensures { IsNextMoment state.now night groups.now retry result }
{
    let text = night_text(night);
    let mut next = sooner(retry, end_of(state, base_of(state, night)));
    for group in groups {
        next = sooner(next, end_of(state, last_scope(state, &text, group)));
    }
    next
}

/// Returns the deadline of this scope, if it hasn't come by the clock of the store.
fn end_of<A: Allocator>(state: &State<A>, scope: Option<u16>) -> Option<u64>
    requires { IfSome scope (λ s. s < length state.now.tree.scopes) }
    ensures { result ≡ option_and_then (end_of state.now) scope }
{
    let deadline = state.tree().deadline(scope?)?.get();
    if state.clock().get() < deadline {
        Some(deadline)
    } else {
        None
    }
}

/// Returns the sooner of two moments, of which each may be missing.
fn sooner(one: Option<u64>, other: Option<u64>) -> Option<u64>
    ensures { result ≡ sooner one other }
{
    match (one, other) {
        (Some(one), Some(other)) => Some(one.min(other)),
        (Some(one), None) => Some(one),
        (None, other) => other,
    }
}
