//! Groups of a store that have a scope of their own. In a driven night no group has one.

ghost use Rattle.std.specs.Prelude.{◌≡◌};
ghost use Rattle.drive_nights.specs.Owners.{AreBareIfNoneOwns, are_bare, has_own};

use run_session::State;
use std::alloc::Allocator;

/// Returns whether no group of the store has a scope of its own. Whoever opens a night asks this
/// first.
pub fn are_bare<A: Allocator>(state: &State<A>) -> bool
    ensures { result ≡ are_bare state.now }
{
    let mut are_bare = true;
    for g in 0..state.group_count() as u16 {
        if has_own(state, g) {
            are_bare = false;
        }
    }
    are_bare
}

/// Returns whether a group of the store has a scope of its own.
fn has_own<A: Allocator>(state: &State<A>, g: u16) -> bool
    ensures { result ≡ has_own state.now g }
{
    match state.groups().group_row(g) {
        Some(row) => !row.bare,
        None => false,
    }
}

/// If no group of a store was found to have a scope of its own, none has one.
pub fn a_store_is_bare()
    ensures { AreBareIfNoneOwns }
{}
