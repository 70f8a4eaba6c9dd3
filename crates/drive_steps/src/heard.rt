//! The steps that record what was heard in a round: which tries have ended, what was canceled, and
//! what time it is.

ghost use Rattle.std.specs.Prelude.{◌≡◌, ◌<◌, ◌≤◌, ◌+◌, ◌++◌, All, IfOk, OnOk, length, true};
ghost use Rattle.night_drive.specs.Seen.{AreNames};
ghost use Rattle.drive_steps.specs.Heard.{AreNoted, AreSame, ClocksAreTurns, EndsAreTurns};
ghost use Rattle.drive_steps.specs.Heard.{IsNoted, finishes_of, has_ended};
ghost use Rattle.drive_steps.specs.Rooms.{are_housed};
ghost use Rattle.drive_steps.specs.Rounds.{record_of};

use crate::cancels::{CommandCancel, GroupCancel, push_cuts, push_stops};
use night_drive::ends::Ends;
use night_drive::names::Names;
use night_plan::commands::Plan;
use run_model::{Command, Moment, Outcome, Step};
use run_session::State;
use std::alloc::{AllocError, Allocator, Global};

/// The end of a try.
#[derive(Drop)]
pub struct Ended {
    /// The task of the try.
    pub task: u16,
    pub outcome: Outcome,
}

/// Returns the steps that record what was heard in a round: the ends of tries, the cancels of
/// commands that don't run, those of groups, and then the time. The cancels of commands are those
/// that [`taken_cancels`](crate::cancels::taken_cancels) returned.
pub fn record_of<A: Allocator>(
    alloc: Global,
    state: &State<A>,
    plan: &Plan,
    names: &Names,
    heard: &[Ended],
    taken: &[CommandCancel],
    groups: &[GroupCancel],
    now: Moment,
) -> Result<Vec<Step>, AllocError>
    requires named { AreNames plan.now names.now }
    requires housed { are_housed state.now names.now ≡ true }
    requires within { All (λ (cancel : CommandCancel).
        cancel.command < length plan.now.commands.items) taken.now }
    requires of_plan { All (λ (cancel : GroupCancel).
        cancel.group < length names.now.groups.items) groups.now }
    requires room { length state.now.work.tasks + length taken.now ≤ 65535 }
    ensures { IfOk result (λ steps. steps.items ≡ record_of state.now names.now
        plan.now.commands.items heard.now taken.now groups.now now) }
{
    let mut steps = Vec::new(alloc);
    push_finishes(&mut steps, heard)?;
    push_cuts(&mut steps, state, plan, names, taken)?;
    push_stops(&mut steps, state, names, groups)?;
    steps.push(Step::Command(Command::Advance { moment: now }))?;
    Ok(steps)
}

/// Appends the steps that record these ends, in this order.
fn push_finishes(steps: &mut Vec<Step>, heard: &[Ended]) -> Result<(), AllocError>
    ensures { OnOk result (steps.new.items ≡ steps.old.items ++ finishes_of heard.now) }
{
    for end in heard {
        steps.push(Step::Finish(end.task, end.outcome.copy()))?;
    }
    Ok(())
}

/// Returns whether one of these ends is that of this task.
pub fn has_ended(heard: &[Ended], task: u16) -> bool
    ensures { result ≡ has_ended heard.now task }
{
    heard.iter().any(|end| end.task == task)
}

/// Notes that these tries ended at this moment. If memory is refused, some of them may be noted and
/// others not.
pub fn note(ends: &mut Ends, heard: &[Ended], now: u64) -> Result<(), AllocError>
    ensures { IfOk result (λ _. AreNoted ends.old ends.new heard.now now) }
{
    for end in heard {
        note_one(ends, end.task, now)?;
    }
    Ok(())
}

/// Notes that a try ended at this moment.
fn note_one(ends: &mut Ends, task: u16, now: u64) -> Result<(), AllocError>
    ensures { IfOk result (λ _. IsNoted ends.old ends.new task now) }
{
    reach(ends, task)?;
    ends.moments[task as usize] = Some(now);
    Ok(())
}

/// Adds rows, of which nothing is known, up to that of this task.
fn reach(ends: &mut Ends, task: u16) -> Result<(), AllocError>
    ensures same { IfOk result (λ _. AreSame ends.old ends.new) }
    ensures long { IfOk result (λ _. task < length ends.new.moments.items) }
{
    'rows: while ends.moments.len() <= task as usize {
        ends.moments.push(None)?;
    }
    Ok(())
}

/// Finishes are recorded as the turns of these ends. Each end is that of a try which runs, and is
/// the last one of its command.
pub fn ends_are_turns()
    ensures { EndsAreTurns }
{}

/// The clock is a turn for each group whose deadline comes. If it stays where it is, no deadline
/// comes.
pub fn a_clock_stops_what_is_due()
    ensures { ClocksAreTurns }
{}
