//! The facts in a store about a plan, read by guesses of which command each task belongs to. They
//! are the same facts as those of [`seen`](crate::seen), whatever is guessed.

ghost use Rattle.std.specs.Bool.{OnTrue};
ghost use Rattle.std.specs.List.{list_any};
ghost use Rattle.std.specs.Prelude.{◌≡◌, ◌<◌, ◌+◌, IfOk, IfSome, false, length, map};
ghost use Rattle.std.specs.Prelude.{slice_index_or};
ghost use Rattle.night_drive.specs.Distinct.{AreDistinct};
ghost use Rattle.night_drive.specs.Guessed.{AreCounted, IsOf, IsOwner, IsOwnerIn, Tries, tried};
ghost use Rattle.night_drive.specs.Seen.{AreKnownTo, AreNames, IsSeen};
ghost use Rattle.night_drive.specs.Tallies.{AreOwners};

use crate::ends::Ends;
use crate::guesses::Guesses;
use crate::names::Names;
use crate::seen::{all_known, all_over};
use crate::tallies::owners;
use crate::tries::{counts, has_failed, phase_by};
use night_plan::commands::Plan;
use night_plan::facts::{Facts, Known, Phase};
use run_model::{Name, Stage, is_spelled};
use run_session::State;
use std::alloc::{AllocError, Allocator, Global};

/// What is found out about the command of a task.
#[derive(Clone, Copy)]
enum Owner {
    /// The task is a try of this command.
    Command(usize),
    /// It is a try of no command of the plan.
    Nobody,
    /// Its command was guessed wrong, or wasn't guessed.
    Unknown,
}

/// The facts about a command without tries.
const NO_TRY: Known = Known {
    phase: Phase::Fresh,
    failures: 0,
    canceled: false,
};

/// Reads from a state the facts about a plan in one night, as [`seen`](crate::seen::seen) does, by
/// guesses of which command each task belongs to. The names are such that each task belongs to one
/// command at most. If some guesses are wrong or missing, all of them are made anew.
pub fn seen_with<A: Allocator>(
    alloc: Global,
    state: &State<A>,
    ends: &Ends,
    plan: &Plan,
    names: &Names,
    guesses: &mut Guesses,
) -> Result<Facts, AllocError>
    requires named { AreNames plan.now names.now }
    requires distinct { AreDistinct plan.now names.now }
    ensures { IfOk result (IsSeen state.now ends.now plan.now names.now) }
{
    let known = known_with(alloc, state, ends, plan, names, guesses)?;
    let done = all_over(alloc, state, names)?;
    let sizes = Vec::from_slice(alloc, plan.pools.as_slice())?;
    Ok(Facts { known, done, sizes })
}

/// Returns the facts about each command of a plan.
fn known_with<A: Allocator>(
    alloc: Global,
    state: &State<A>,
    ends: &Ends,
    plan: &Plan,
    names: &Names,
    guesses: &mut Guesses,
) -> Result<Vec<Known>, AllocError>
    requires named { AreNames plan.now names.now }
    requires distinct { AreDistinct plan.now names.now }
    ensures sized { IfOk result (λ known. length known.items ≡ length plan.now.commands.items) }
    ensures known { IfOk result (λ known. AreKnownTo (length plan.now.commands.items) state.now
        ends.now names.now plan.now.commands.items known.items) }
{
    if let Some(known) = all_guessed(alloc, state, ends, plan, names, guesses)? {
        return Ok(known);
    }
    guesses.renew(alloc, state, plan, names)?;
    if let Some(known) = all_guessed(alloc, state, ends, plan, names, guesses)? {
        return Ok(known);
    }
    all_known(alloc, state, ends, plan, names)
}

/// Returns the facts about each command of a plan, or `None` if the command of a task is unknown.
fn all_guessed<A: Allocator>(
    alloc: Global,
    state: &State<A>,
    ends: &Ends,
    plan: &Plan,
    names: &Names,
    guesses: &Guesses,
) -> Result<Option<Vec<Known>>, AllocError>
    requires named { AreNames plan.now names.now }
    requires distinct { AreDistinct plan.now names.now }
    ensures sized { IfOk result (λ found. IfSome found (λ known.
        length known.items ≡ length plan.now.commands.items)) }
    ensures known { IfOk result (λ found. IfSome found (λ known.
        AreKnownTo (length plan.now.commands.items) state.now ends.now names.now
        plan.now.commands.items known.items)) }
{
    let owners = owners(alloc, state, names)?;
    let mut known = vec![in alloc; NO_TRY; plan.commands.len()]?;
    for n in 0..state.task_count() as u16 {
        let owner = owner_of(state, plan, names, owners.as_slice(), guesses.guess(n), n);
        if !count_for(&mut known, state, ends, plan, names, owner, n) {
            return Ok(None);
        }
    }
    Ok(Some(known))
}

/// Counts a task for the command of which it is a try. Returns whether the command is known.
fn count_for<A: Allocator>(
    known: &mut Vec<Known>,
    state: &State<A>,
    ends: &Ends,
    plan: &Plan,
    names: &Names,
    owner: Owner,
    n: u16,
) -> bool
    requires distinct { AreDistinct plan.now names.now }
    requires sized { length known.old.items ≡ length plan.now.commands.items }
    requires owner { IsOwner state.now names.now plan.now.commands.items n owner }
    requires counted { AreCounted n state.now ends.now names.now plan.now.commands.items
        known.old.items }
    ensures sized { length known.new.items ≡ length known.old.items }
    ensures counted { OnTrue result (AreCounted (n + 1) state.now ends.now names.now
        plan.now.commands.items known.new.items) }
{
    match owner {
        Owner::Command(c) => {
            count_try(known, state, ends, c, n);
            true
        }
        Owner::Nobody => true,
        Owner::Unknown => false,
    }
}

/// Counts a task as one more try of a command.
fn count_try<A: Allocator>(known: &mut Vec<Known>, state: &State<A>, ends: &Ends, c: usize, n: u16)
    requires { c < length known.old.items }
    ensures sized { length known.new.items ≡ length known.old.items }
    ensures tries { Tries state.now ends.now c n known.old.items known.new.items }
{
    let Some(task) = state.groups().task_row(n) else {
        return;
    };
    let fact = known[c];
    known[c] = tried(ends.moment(n), &task.stage, fact);
}

/// Returns the facts about a command with one more try, which has come to this stage and ended at
/// this moment.
fn tried(moment: u64, stage: &Stage, fact: Known) -> Known
    ensures { result ≡ tried moment stage.now fact }
{
    Known {
        phase: phase_by(moment, stage),
        failures: if has_failed(stage) {
            fact.failures.saturating_add(1)
        } else {
            fact.failures
        },
        canceled: fact.canceled,
    }
}

/// Returns of which command a task is a try, as far as its guess says.
fn owner_of<A: Allocator>(
    state: &State<A>,
    plan: &Plan,
    names: &Names,
    owners: &[Vec<bool>],
    guess: Option<usize>,
    n: u16,
) -> Owner
    requires named { AreNames plan.now names.now }
    requires owned { AreOwners (length state.now.work.groups) state.now names.now
        (map (λ row. row.items) owners.now) }
    ensures { IsOwner state.now names.now plan.now.commands.items n result }
{
    let Some(task) = state.groups().task_row(n) else {
        return Owner::Nobody;
    };
    if !counts(&task.stage) {
        return Owner::Nobody;
    }
    let Some(row) = owners.get(task.group as usize) else {
        return Owner::Nobody;
    };
    owner_in(plan, names, row.as_slice(), &task.argument, guess)
}

/// Returns to which command a task with this key belongs, as far as its guess says. The groups that
/// own the task are marked.
fn owner_in(plan: &Plan, names: &Names, owners: &[bool], key: &Name, guess: Option<usize>) -> Owner
    requires { AreNames plan.now names.now }
    ensures { IsOwnerIn names.now plan.now.commands.items owners.now key.now result }
{
    match guess {
        Some(c) if is_of(plan, names, owners, key, c) => Owner::Command(c),
        _ => if is_owned(owners) {
            Owner::Unknown
        } else {
            Owner::Nobody
        },
    }
}

/// Returns whether a task with this key belongs to a command. The groups that own the task are
/// marked.
fn is_of(plan: &Plan, names: &Names, owners: &[bool], key: &Name, c: usize) -> bool
    requires { AreNames plan.now names.now }
    ensures { OnTrue result (IsOf names.now plan.now.commands.items owners.now key.now c) }
{
    match plan.commands.get(c) {
        Some(command) => {
            is_marked(owners, command.group) && is_spelled(names.keys[c].as_bytes(), key.as_bytes())
        }
        None => false,
    }
}

/// Returns whether a group is marked.
fn is_marked(marks: &[bool], group: usize) -> bool
    ensures { result ≡ slice_index_or marks.now group false }
{
    match marks.get(group) {
        Some(mark) => *mark,
        None => false,
    }
}

/// Returns whether a group is marked among these.
fn is_owned(marks: &[bool]) -> bool
    ensures { result ≡ list_any (λ mark. mark) marks.now }
{
    marks.iter().any(|mark| *mark)
}
