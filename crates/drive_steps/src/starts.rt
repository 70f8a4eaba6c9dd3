//! The steps in which commands begin: for each of them a new task, and the start of that task.

ghost use Rattle.std.specs.Prelude.{◌≡◌, ◌<◌, All, IfOk, length, true};
ghost use Rattle.night_drive.specs.Seen.{AreNames};
ghost use Rattle.drive_steps.specs.Rooms.{are_housed};
ghost use Rattle.drive_steps.specs.Starts.{can_retry, is_in, next_task, next_try, row_of};

use crate::called::{group_of, last_of};
use crate::rooms::{last_group, name_of};
use night_drive::names::Names;
use night_plan::commands::Plan;
use record_view::EventView;
use row_view::copies::name_copy;
use run_model::{Command, Name, Step};
use run_session::State;
use std::alloc::{AllocError, Allocator, Global};

/// Returns the steps in which these commands begin, in this order. For each command a task is
/// submitted and then started. The last step is a flush.
pub fn row_of<A: Allocator>(
    alloc: Global,
    state: &State<A>,
    plan: &Plan,
    names: &Names,
    chosen: &[usize],
) -> Result<Vec<Step>, AllocError>
    requires named { AreNames plan.now names.now }
    requires housed { are_housed state.now names.now ≡ true }
    requires within { All (λ c. c < length plan.now.commands.items) chosen.now }
    ensures { IfOk result (λ steps. steps.items
        ≡ row_of state.now names.now plan.now.commands.items chosen.now) }
{
    let mut steps = Vec::new(alloc);
    for c in chosen {
        let next = next_try(state, plan, names, *c);
        steps.push(Step::Command(next))?;
        steps.push(Step::Start)?;
    }
    steps.push(Step::Flush)?;
    Ok(steps)
}

/// Returns the step that submits the next task of a command.
pub(crate) fn next_try<A: Allocator>(
    state: &State<A>,
    plan: &Plan,
    names: &Names,
    c: usize,
) -> Command
    requires named { AreNames plan.now names.now }
    requires housed { are_housed state.now names.now ≡ true }
    requires within { c < length plan.now.commands.items }
    ensures { result ≡ next_try state.now names.now plan.now.commands.items c }
{
    let group = group_of(plan, names, c);
    let Some(g) = last_group(state, &names.night, group) else {
        unreachable!();
    };
    next_task(state, g, &names.keys[c], last_of(state, plan, names, c))
}

/// Returns the step that submits a task with this key in a group of the store. It is a retry of the
/// last try, if the store allows one in this group.
fn next_task<A: Allocator>(state: &State<A>, g: u16, key: &Name, last: Option<u16>) -> Command
    requires { g < length state.now.work.groups }
    ensures { result ≡ next_task state.now g key.now last }
{
    match last {
        Some(n) if can_retry(state, g, n) => Command::Retry(n),
        Some(_) | None => Command::Go {
            group: name_of(state, g),
            job: name_copy(b"sh"),
            argument: key.copy(),
        },
    }
}

/// Returns whether the store allows a retry of this task, and the task is in this group.
fn can_retry<A: Allocator>(state: &State<A>, g: u16, n: u16) -> bool
    ensures { result ≡ can_retry state.now g n }
{
    state.allows(&EventView::Retry { task: n }) && is_in(state, g, n)
}

/// Returns whether a task is in this group.
fn is_in<A: Allocator>(state: &State<A>, g: u16, n: u16) -> bool
    ensures { result ≡ is_in state.now g n }
{
    match state.groups().task_row(n) {
        Some(task) => task.group == g,
        None => false,
    }
}
