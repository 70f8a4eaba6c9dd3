//! What a state shows, as tables write it.

use crate::asserts::{given, holds};
use run_book::State;
use run_model::Look;
use std::alloc::{Allocator, Global};
use std::process::Abort;
use test_fixtures::{GroupSeen, Listing, Seen, TaskSeen, is_group, is_task, listing_of, seen_of};

/// All that a state shows.
pub fn listed<A: Allocator>(rt: &impl Abort, alloc: Global, state: &State<A>) -> Listing {
    given(rt, listing_of(alloc, state), "listing")
}

/// What a scope is called, and how it is.
type ScopeSeen = (&'static [u8], Seen<'static>);

fn is_scope(look: Option<&Look>, row: &ScopeSeen) -> bool {
    match look {
        Some(look) => look.name.as_bytes() == row.0 && seen_of(look) == row.1,
        None => false,
    }
}

/// Asserts what all scopes but root are called and how they are, by ascending number.
pub fn assert_scopes(rt: &impl Abort, listing: &Listing, rows: &[ScopeSeen]) {
    let count = listing.scopes.len();
    let is_count = count.checked_sub(1) == Some(rows.len());
    holds(rt, is_count && listing.is_found, "scopes", count as u64);
    for (n, row) in rows.iter().enumerate() {
        let look = listing.scopes.get(n.saturating_add(1));
        holds(rt, is_scope(look, row), "scope after", n as u64);
    }
}

/// Asserts what is seen of the tasks, by ascending number, and that there are no more.
pub fn assert_tasks(rt: &impl Abort, listing: &Listing, rows: &[TaskSeen]) {
    let count = listing.tasks.len();
    let is_count = count == rows.len();
    holds(rt, is_count && listing.is_found, "tasks", count as u64);
    for (n, row) in rows.iter().enumerate() {
        let is_there = match listing.tasks.get(n) {
            Some(look) => is_task(look, row),
            None => false,
        };
        holds(rt, is_there, "task", n as u64);
    }
}

fn has_group(listing: &Listing, called: &[u8], seen: &GroupSeen) -> bool {
    for look in listing.groups.iter() {
        if is_group(look, called, seen) {
            return listing.is_found;
        }
    }
    false
}

/// Asserts what is seen of a group.
pub fn assert_group(rt: &impl Abort, listing: &Listing, called: &[u8], seen: GroupSeen) {
    let is_there = has_group(listing, called, &seen);
    holds(rt, is_there, "group of scope", seen.0 as u64);
}
