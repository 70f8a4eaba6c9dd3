//! All that a state shows, row by row, so that two states can be compared.

use crate::looks::{Going, going_of};
use run_model::{GroupLook, Layout, Look, Name, TaskLook, Text};
use run_session::State;
use std::alloc::{Allocator, Global};

/// All that a state shows.
#[derive(Drop)]
pub struct Listing {
    /// How large its store is.
    pub layout: Layout,
    /// How many events there were.
    pub count: u64,
    /// The seconds of its clock.
    pub clock: u64,
    /// Whether each scope and group is found by its name, and each phase asked for is its task's.
    pub is_found: bool,
    /// Its scopes, by ascending number.
    pub scopes: Vec<Look>,
    /// What key `region` holds in each.
    pub regions: Vec<Option<Text>>,
    /// Its groups, by ascending number.
    pub groups: Vec<GroupLook>,
    /// Its tasks, by ascending number.
    pub tasks: Vec<TaskLook>,
}

/// All that a state shows; none where memory is refused, or a number has no row.
pub fn listing_of<A: Allocator>(alloc: Global, state: &State<A>) -> Option<Listing> {
    match (
        scopes_of(alloc, state),
        regions_of(alloc, state),
        groups_of(alloc, state),
        tasks_of(alloc, state),
    ) {
        (Some(scopes), Some(regions), Some(groups), Some(tasks)) => Some(Listing {
            layout: state.layout(),
            count: state.count(),
            clock: state.clock().get(),
            is_found: has_names(state, &scopes, &groups) && has_phases(state, &tasks),
            scopes,
            regions,
            groups,
            tasks,
        }),
        _ => None,
    }
}

/// Adds a row. Says whether there was one, and memory for it.
fn add<T: Drop>(rows: &mut Vec<T>, row: Option<T>) -> bool {
    match row {
        Some(row) => rows.push(row).is_ok(),
        None => false,
    }
}

fn scopes_of<A: Allocator>(alloc: Global, state: &State<A>) -> Option<Vec<Look>> {
    let mut rows = Vec::new(alloc);
    for n in 0..state.scope_count() {
        if !add(&mut rows, state.look(n.min(65_535) as u16)) {
            return None;
        }
    }
    Some(rows)
}

fn regions_of<A: Allocator>(alloc: Global, state: &State<A>) -> Option<Vec<Option<Text>>> {
    let Some(region) = Name::read(b"region") else {
        return None;
    };
    let mut rows = Vec::new(alloc);
    for n in 0..state.scope_count() {
        let row = state.value(n.min(65_535) as u16, &region);
        if !add(&mut rows, Some(row)) {
            return None;
        }
    }
    Some(rows)
}

fn groups_of<A: Allocator>(alloc: Global, state: &State<A>) -> Option<Vec<GroupLook>> {
    let mut rows = Vec::new(alloc);
    for n in 0..state.group_count() {
        if !add(&mut rows, state.group(n.min(65_535) as u16)) {
            return None;
        }
    }
    Some(rows)
}

fn tasks_of<A: Allocator>(alloc: Global, state: &State<A>) -> Option<Vec<TaskLook>> {
    let mut rows = Vec::new(alloc);
    for n in 0..state.task_count() {
        if !add(&mut rows, state.task(n.min(65_535) as u16)) {
            return None;
        }
    }
    Some(rows)
}

fn has_names<A: Allocator>(state: &State<A>, scopes: &[Look], groups: &[GroupLook]) -> bool {
    for (n, look) in scopes.iter().enumerate() {
        if state.find_scope(&look.name) != Some(n.min(65_535) as u16) {
            return false;
        }
    }
    for (n, look) in groups.iter().enumerate() {
        if state.find_group(&look.name) != Some(n.min(65_535) as u16) {
            return false;
        }
    }
    true
}

fn has_phases<A: Allocator>(state: &State<A>, tasks: &[TaskLook]) -> bool {
    for (n, look) in tasks.iter().enumerate() {
        match state.phase(n.min(65_535) as u16) {
            Some(phase) if phase == look.phase => {}
            _ => return false,
        }
    }
    true
}

/// Says whether two states show the same rows, at the same clock.
pub fn have_same_rows(one: &Listing, other: &Listing) -> bool {
    one.layout == other.layout
        && one.clock == other.clock
        && one.scopes == other.scopes
        && one.regions == other.regions
        && one.groups == other.groups
        && one.tasks == other.tasks
}

/// Says whether two states show the same.
pub fn are_same(one: &Listing, other: &Listing) -> bool {
    one.count == other.count && have_same_rows(one, other)
}

/// How far a task is, if there is one of this number.
pub fn going_at(listing: &Listing, task: usize) -> Option<Going<'_>> {
    match listing.tasks.get(task) {
        Some(look) => Some(going_of(&look.phase)),
        None => None,
    }
}
