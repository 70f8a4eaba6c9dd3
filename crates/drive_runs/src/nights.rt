//! A night of a store: what it has from earlier sessions, the groups that it lacks, and its end.

ghost use Rattle.std.specs.Prelude.{◌≡◌, ◌<◌, IfOk, IfSome, length, true};
ghost use Rattle.std.specs.List.{list_all};
ghost use Rattle.drive_runs.specs.Closing.{Closes, hindrance_of, is_carried_out};
ghost use Rattle.drive_runs.specs.Grows.{AddsGroup, Grows, is_missing};
ghost use Rattle.drive_runs.specs.Moving.{Moves};
ghost use Rattle.drive_runs.specs.Nights.{is_other};

use crate::faults::first_fault;
use crate::living::Living;
use crate::openings::{Hindrance, hindered_by};
use crate::plays::play;
use crate::sittings::Sitting;
use crate::tries::task_named;
use drive_lines::fields::TryName;
use drive_nights::marks::mark_of;
use drive_nights::names::is_short;
use drive_nights::nights::night_text;
use drive_nights::openings::growth_of;
use drive_nights::replies::are_taken;
use drive_parts::plans::NightPlan;
use drive_steps::rooms::{are_housed, last_group};
use night_drive::seen::last_try;
use run_book::Book;
use run_disk::RunDisk;
use run_model::{Fault, Name, Reply, Stage, Step, is_spelled};
use run_session::State;
use std::alloc::{AllocError, Allocator, Global};

/// Returns the first task of a store that isn't one of a driven night.
pub fn other_task<A: Allocator>(state: &State<A>) -> Option<u16>
    ensures { IfSome result (λ n. is_other state.now n ≡ true) }
{
    for n in 0..state.task_count() as u16 {
        if is_other(state, n) {
            return Some(n);
        }
    }
    None
}

/// Returns whether a task of a store isn't one of a driven night.
fn is_other<A: Allocator>(state: &State<A>, n: u16) -> bool
    ensures { result ≡ is_other state.now n }
{
    match state.groups().task_row(n) {
        Some(task) => !is_spelled(task.job.as_bytes(), b"sh"),
        None => false,
    }
}

/// Returns the try of this name as one that lives, if it was interrupted and is the last one of a
/// command of the plan.
pub fn living_of<A: Allocator>(
    state: &State<A>,
    plan: &NightPlan,
    night: u64,
    named: &TryName,
) -> Option<Living> {
    let n = task_named(state, named)?;
    let task = state.groups().task_row(n)?;
    if !matches!(task.stage, Stage::Interrupted) {
        return None;
    }
    let night = night_text(night);
    for c in 0..plan.plan.commands.len() {
        let group = plan.plan.commands[c].group;
        let last = last_try(state, &night, &plan.groups[group], &plan.keys[c]);
        if last == Some(n) {
            return Some(Living {
                command: c,
                task: n,
                stop: None,
                asked: false,
            });
        }
    }
    None
}

/// Makes in the store what groups need by which the plan has grown. Returns what hinders the night,
/// if anything does.
pub fn missing_groups<D: RunDisk, A: Allocator>(
    alloc: Global,
    book: &mut Book<D, A>,
    sitting: &Sitting,
) -> Result<Option<Hindrance>, AllocError>
    ensures grows { IfOk result (λ found. Grows D.state sitting.now book.old found book.new) }
    ensures moves { Moves D.state book.old book.new }
{
    for g in 0..sitting.names.groups.len() {
        if let Some(hindrance) = missing_group(alloc, book, sitting, g)? {
            return Ok(Some(hindrance));
        }
    }
    let is_open = are_housed(book.state(), &sitting.names);
    Ok(hindered_by(None, is_open))
}

/// Makes in the store what this group of the plan needs, if it is missing. Returns what hinders the
/// night, if anything does.
#[tactic(auto, using(crate::proofs::Moving::moves_none))]
fn missing_group<D: RunDisk, A: Allocator>(
    alloc: Global,
    book: &mut Book<D, A>,
    sitting: &Sitting,
    g: usize,
) -> Result<Option<Hindrance>, AllocError>
    requires { g < length sitting.now.names.groups.items }
    ensures adds { IfOk result (λ found.
        AddsGroup D.state sitting.now g book.old found book.new) }
    ensures moves { Moves D.state book.old book.new }
{
    let group = &sitting.names.groups[g];
    if !is_missing(book.state(), sitting, group) {
        return Ok(None);
    }
    let night = sitting.kept.night;
    let steps = growth_of(alloc, book.state(), night, group, &sitting.untils[g])?;
    let replies = play(alloc, book, steps.as_slice())?;
    let fault = first_fault(replies.as_slice());
    Ok(hindered_by(fault, are_taken(replies.as_slice())))
}

/// Returns whether the night has no group of the store for this group of the plan, and could have
/// one.
fn is_missing<A: Allocator>(state: &State<A>, sitting: &Sitting, group: &Name) -> bool
    ensures { result ≡ is_missing state.now sitting.now group.now }
{
    last_group(state, &sitting.names.night, group).is_none() && is_short(group, sitting.kept.night)
}

/// Marks a night as ended. Returns what hinders that, if anything does.
#[tactic(auto, using(crate::proofs::Moving::moves_none, crate::proofs::Moving::moves_then))]
pub fn close_night<D: RunDisk, A: Allocator>(
    alloc: Global,
    book: &mut Book<D, A>,
    night: u64,
) -> Result<Option<Hindrance>, AllocError>
    ensures closes { IfOk result (λ found. Closes D.state night book.old found book.new) }
    ensures moves { Moves D.state book.old book.new }
{
    let Some(mark) = mark_of(book.state(), night) else {
        return Ok(Some(Hindrance::Full));
    };
    let mut steps = Vec::new(alloc);
    steps.push(mark)?;
    steps.push(Step::Flush)?;
    let replies = play(alloc, book, steps.as_slice())?;
    if are_carried_out(replies.as_slice()) {
        return Ok(None);
    }
    Ok(Some(hindrance_of(first_fault(replies.as_slice()))))
}

/// Returns whether each step was carried out.
fn are_carried_out(replies: &[Reply]) -> bool
    ensures { result ≡ list_all is_carried_out replies.now }
{
    replies.iter().all(|reply| is_carried_out(reply))
}

/// Returns whether a step was carried out: it was taken, or has acknowledged all.
fn is_carried_out(reply: &Reply) -> bool
    ensures { result ≡ is_carried_out reply.now }
{
    matches!(reply, Reply::Answer(_) | Reply::Acked(_))
}

/// Returns what hinders a night, if a step was refused or met this fault.
pub(crate) fn hindrance_of(fault: Option<Fault>) -> Hindrance
    ensures { result ≡ hindrance_of fault }
{
    match fault {
        Some(fault) => Hindrance::Fault(fault),
        None => Hindrance::Full,
    }
}
