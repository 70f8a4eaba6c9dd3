//! The answer to an accepted command, read from the state after it.

ghost use Rattle.std.specs.Option.{option_and_then};
ghost use Rattle.std.specs.Prelude.{◌≡◌, ◌≤◌, ◌-◌, slice_get, unwrap_or};
ghost use Rattle.run_model.specs.declared.answers.Answer.TheVariants as answer;
ghost use Rattle.run_model.specs.declared.tasks.Phase.TheVariants as phase;
ghost use Rattle.run_model.specs.Replies.{answer_of, group_of};
ghost use Rattle.run_model.specs.State as model;
ghost use Rattle.run_model.specs.Tasks.{phase_of};
ghost use Rattle.run_session.specs.Answered.{IsBehind};

use crate::states::State;
use run_model::{Answer, Command, Name, Phase, Text};
use std::alloc::Allocator;

/// Returns the answer to a command that led to this state. If the command made a row, it is the
/// last one of its kind.
pub fn answer<A: Allocator>(state: &State<A>, call: &Command) -> Answer
    ensures { (p : model.State) → IsBehind p state.now call.now
        → result ≡ answer_of p state.now call.now }
{
    match call {
        Command::Derive { .. } => Answer::Scope(newest(state.scope_count())),
        Command::Group { .. } => {
            let scope = newest(state.scope_count());
            Answer::Group(newest(state.group_count()), Some(scope))
        }
        Command::Bare { .. } => Answer::Group(newest(state.group_count()), None),
        Command::Go { .. } | Command::TryGo { .. } | Command::Retry(_) => {
            submitted(state, newest(state.task_count()))
        }
        Command::Wait { group } => Answer::Waited(first_error(state, group)),
        Command::Cancel { .. } | Command::Advance { .. } | Command::SetLimit { .. } => {
            Answer::Done
        }
    }
}

/// Returns the number of the last of this many rows; 0 if there is none.
fn newest(rows: usize) -> u16
    requires { rows ≤ 65536 }
    ensures { result ≡ rows - 1 }
{
    rows.saturating_sub(1) as u16
}

/// Returns the number of a task that was submitted, and whether it is ready or held.
fn submitted<A: Allocator>(state: &State<A>, task: u16) -> Answer
    ensures { result
        ≡ answer.Task task (unwrap_or (phase_of state.now.work task) phase.Held) }
{
    let phase = match state.phase(task) {
        Some(phase) => phase,
        None => Phase::Held,
    };
    Answer::Task(task, phase)
}

/// Returns the first error of the group with this name.
fn first_error<A: Allocator>(state: &State<A>, group: &Name) -> Option<Text>
    ensures { result ≡ option_and_then (λ row. row.error)
        (slice_get state.now.work.groups (group_of state.now group.now)) }
{
    let group = state.find_group(group)?;
    let look = state.group(group)?;
    look.error
}
