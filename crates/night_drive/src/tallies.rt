//! A tally of a command has its last try, and the number of its tries that have failed. One pass
//! over the tasks of a store makes the tallies of all commands of a plan.

ghost use Rattle.std.specs.Prelude.{◌≡◌, ℕ, IfOk, IsSome, Some, length, map, slice_get};
ghost use Rattle.night_drive.specs.Index.{IsIndex, found_in};
ghost use Rattle.night_drive.specs.Seen.{is_owned};
ghost use Rattle.night_drive.specs.Tallies.{AddsTo, AddsTry, AreOwners, AreTallies, CountsTask};
ghost use Rattle.night_drive.specs.Tallies.{IsApart, IsWithin, owners_of, with_try};

use crate::index::Index;
use crate::names::Names;
use crate::nights::is_owned;
use crate::tries::{counts, has_failed};
use night_plan::commands::Plan;
use run_model::Name;
use run_session::State;
use std::alloc::{AllocError, Allocator, Global};

/// The last try of a command, and how many of its tries have failed.
#[derive(Clone, Copy)]
pub struct Tally {
    pub last: Option<u16>,
    pub failures: u32,
}

/// The tally of a command without tries.
const NO_TRY: Tally = Tally {
    last: None,
    failures: 0,
};

impl Tally {
    /// Returns the tally with one more try.
    fn with_try(self, n: u16, failed: bool) -> Tally
        ensures { result ≡ with_try n failed self }
    {
        Tally {
            last: Some(n),
            failures: if failed {
                self.failures.saturating_add(1)
            } else {
                self.failures
            },
        }
    }
}

/// Returns the tallies of a plan's commands. Where commands share their group and key, the one that
/// the index finds has their tally.
pub fn tallies<A: Allocator>(
    alloc: Global,
    state: &State<A>,
    plan: &Plan,
    names: &Names,
    index: &Index,
) -> Result<Vec<Tally>, AllocError>
    requires { IsIndex (length plan.now.commands.items) plan.now.commands.items names.now
        index.now }
    ensures sized { IfOk result (λ tallies.
        length tallies.items ≡ length plan.now.commands.items) }
    ensures tallies { IfOk result (λ tallies.
        AreTallies (length state.now.work.tasks) state.now names.now index.now tallies.items) }
{
    let owners = owners(alloc, state, names)?;
    let mut tallies = vec![in alloc; NO_TRY; plan.commands.len()]?;
    for n in 0..state.task_count() as u16 {
        count_task(&mut tallies, state, names, index, owners.as_slice(), n);
    }
    Ok(tallies)
}

/// Returns the tally of the commands with this group and key.
pub fn tally_at(tallies: &[Tally], index: &Index, group: usize, key: &Name) -> Tally
    requires found { IsSome (found_in index.now group key.now) }
    requires within { IsWithin (length tallies.now) index.now }
    ensures { (c : ℕ) → found_in index.now group key.now ≡ Some c
        → slice_get tallies.now c ≡ Some result }
{
    match index.find(group, key) {
        Some(c) => tallies[c],
        None => unreachable!(),
    }
}

/// Returns, for each group of the store, which groups of the plan own it.
pub fn owners<A: Allocator>(
    alloc: Global,
    state: &State<A>,
    names: &Names,
) -> Result<Vec<Vec<bool>>, AllocError>
    ensures { IfOk result (λ owners. AreOwners (length state.now.work.groups) state.now names.now
        (map (λ row. row.items) owners.items)) }
{
    let mut owners = Vec::new(alloc);
    for h in 0..state.group_count() as u16 {
        let row = owners_of(alloc, state, names, h)?;
        owners.push(row)?;
    }
    Ok(owners)
}

/// Returns which groups of the plan own this group of the store.
fn owners_of<A: Allocator>(
    alloc: Global,
    state: &State<A>,
    names: &Names,
    h: u16,
) -> Result<Vec<bool>, AllocError>
    ensures { IfOk result (λ row. row.items ≡ owners_of state.now names.now h) }
{
    let mut row = Vec::new(alloc);
    for group in &names.groups {
        row.push(is_owned(state, &names.night, group, h))?;
    }
    Ok(row)
}

/// Counts a task for each command of which it is a try.
fn count_task<A: Allocator>(
    tallies: &mut Vec<Tally>,
    state: &State<A>,
    names: &Names,
    index: &Index,
    owners: &[Vec<bool>],
    n: u16,
)
    requires within { IsWithin (length tallies.old.items) index.now }
    requires apart { IsApart index.now }
    requires owned { AreOwners (length state.now.work.groups) state.now names.now
        (map (λ row. row.items) owners.now) }
    ensures sized { length tallies.new.items ≡ length tallies.old.items }
    ensures counts { CountsTask state.now names.now index.now n tallies.old.items
        tallies.new.items }
{
    let Some(task) = state.groups().task_row(n) else {
        return;
    };
    if !counts(&task.stage) {
        return;
    }
    let Some(row) = owners.get(task.group as usize) else {
        return;
    };
    let failed = has_failed(&task.stage);
    add_try(tallies, index, row.as_slice(), &task.argument, n, failed);
}

/// Counts task `n` for the command with this key in each of the groups that own it.
fn add_try(
    tallies: &mut Vec<Tally>,
    index: &Index,
    owners: &[bool],
    key: &Name,
    n: u16,
    failed: bool,
)
    requires within { IsWithin (length tallies.old.items) index.now }
    requires apart { IsApart index.now }
    ensures sized { length tallies.new.items ≡ length tallies.old.items }
    ensures adds { AddsTry (length owners.now) index.now owners.now key.now n failed
        tallies.old.items tallies.new.items }
{
    for (g, owns) in owners.iter().enumerate() {
        add_to(tallies, index, *owns, g, key, n, failed);
    }
}

/// Counts task `n` for the command with this key in one group, if the group owns it.
fn add_to(
    tallies: &mut Vec<Tally>,
    index: &Index,
    owns: bool,
    g: usize,
    key: &Name,
    n: u16,
    failed: bool,
)
    requires within { IsWithin (length tallies.old.items) index.now }
    requires apart { IsApart index.now }
    ensures sized { length tallies.new.items ≡ length tallies.old.items }
    ensures adds { AddsTo index.now owns g key.now n failed tallies.old.items tallies.new.items }
{
    if !owns {
        return;
    }
    let Some(c) = index.find(g, key) else {
        return;
    };
    let tally = tallies[c];
    tallies[c] = tally.with_try(n, failed);
}
