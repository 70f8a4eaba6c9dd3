//! The facts in a store about the commands and the groups of a plan, in one night.

ghost use Rattle.std.specs.Prelude.{◌≡◌, IfOk, length};
ghost use Rattle.night_drive.specs.Searches.{last_below};
ghost use Rattle.night_drive.specs.Seen.{AreKnownTo, AreNames, AreOverTo, IsSeen, is_try};
ghost use Rattle.night_drive.specs.Seen.{moment_of, phase_after};
ghost use Rattle.night_drive.specs.Tallies.{known_by};

use crate::ends::Ends;
use crate::index::Index;
use crate::names::Names;
use crate::nights::{is_over, is_owned};
use crate::tallies::{Tally, tallies, tally_at};
use crate::tries::{counts, phase_by};
use night_plan::commands::Plan;
use night_plan::facts::{Facts, Known, Phase};
use run_model::{Name, Text, is_spelled};
use run_session::State;
use std::alloc::{AllocError, Allocator, Global};

/// Reads from a state the facts about a plan in one night: for each command how far its last try
/// has come and how many of its tries have failed, and which groups are done. The sizes of the
/// pools are those of the plan.
pub fn seen<A: Allocator>(
    alloc: Global,
    state: &State<A>,
    ends: &Ends,
    plan: &Plan,
    names: &Names,
) -> Result<Facts, AllocError>
    requires { AreNames plan.now names.now }
    ensures { IfOk result (IsSeen state.now ends.now plan.now names.now) }
{
    let known = all_known(alloc, state, ends, plan, names)?;
    let done = all_over(alloc, state, names)?;
    let sizes = Vec::from_slice(alloc, plan.pools.as_slice())?;
    Ok(Facts { known, done, sizes })
}

/// Returns the facts about each command of a plan.
pub(crate) fn all_known<A: Allocator>(
    alloc: Global,
    state: &State<A>,
    ends: &Ends,
    plan: &Plan,
    names: &Names,
) -> Result<Vec<Known>, AllocError>
    requires { AreNames plan.now names.now }
    ensures sized { IfOk result (λ known. length known.items ≡ length plan.now.commands.items) }
    ensures known { IfOk result (λ known. AreKnownTo (length plan.now.commands.items) state.now
        ends.now names.now plan.now.commands.items known.items) }
{
    let index = Index::of(alloc, plan, names)?;
    let tallies = tallies(alloc, state, plan, names, &index)?;
    let mut known = Vec::new(alloc);
    for (c, command) in plan.commands.iter().enumerate() {
        let key = &names.keys[c];
        let tally = tally_at(tallies.as_slice(), &index, command.group, key);
        known.push(known_by(state, ends, tally))?;
    }
    Ok(known)
}

/// Returns which groups of a plan are done.
pub(crate) fn all_over<A: Allocator>(
    alloc: Global,
    state: &State<A>,
    names: &Names,
) -> Result<Vec<bool>, AllocError>
    ensures sized { IfOk result (λ done. length done.items ≡ length names.now.groups.items) }
    ensures done { IfOk result (λ done. AreOverTo (length names.now.groups.items) state.now
        names.now done.items) }
{
    let mut done = Vec::new(alloc);
    for group in &names.groups {
        done.push(is_over(state, &names.night, group))?;
    }
    Ok(done)
}

/// Returns the facts about a command with this tally.
fn known_by<A: Allocator>(state: &State<A>, ends: &Ends, tally: Tally) -> Known
    ensures { result ≡ known_by state.now (moment_of ends.now) tally }
{
    Known {
        phase: phase_after(state, ends, tally.last),
        failures: tally.failures,
        canceled: false,
    }
}

/// Returns the last try of a command.
pub fn last_try<A: Allocator>(
    state: &State<A>,
    night: &Option<Text>,
    group: &Name,
    key: &Name,
) -> Option<u16>
    ensures { result ≡ last_below (is_try state.now night.now group.now key.now)
        (length state.now.work.tasks) }
{
    let mut last = None;
    for n in 0..state.task_count() as u16 {
        if is_try(state, night, group, key, n) {
            last = Some(n);
        }
    }
    last
}

/// Returns whether a task is a try of this command.
fn is_try<A: Allocator>(
    state: &State<A>,
    night: &Option<Text>,
    group: &Name,
    key: &Name,
    n: u16,
) -> bool
    ensures { result ≡ is_try state.now night.now group.now key.now n }
{
    match state.groups().task_row(n) {
        Some(task) => {
            is_spelled(task.argument.as_bytes(), key.as_bytes())
                && counts(&task.stage)
                && is_owned(state, night, group, task.group)
        }
        None => false,
    }
}

/// Returns how far the last try of a command has come, if there is one.
fn phase_after<A: Allocator>(state: &State<A>, ends: &Ends, last: Option<u16>) -> Phase
    ensures { result ≡ phase_after state.now (moment_of ends.now) last }
{
    let Some(n) = last else {
        return Phase::Fresh;
    };
    match state.groups().task_row(n) {
        Some(task) => phase_by(ends.moment(n), &task.stage),
        None => Phase::Fresh,
    }
}
