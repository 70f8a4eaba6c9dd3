//! The steps that cancel commands that don't run, and groups.

ghost use Rattle.std.specs.Prelude.{◌≡◌, ◌<◌, ◌≤◌, ◌+◌, ◌++◌, All, IfOk, IfSome, OnOk, Some};
ghost use Rattle.std.specs.Prelude.{length};
ghost use Rattle.std.specs.Prelude.{◌==◌, take, true};
ghost use Rattle.std.specs.List.{list_any};
ghost use Rattle.run_model.specs.Tasks.{has_stage};
ghost use Rattle.run_model.specs.WorkChanges.{stage_of};
ghost use Rattle.night_drive.specs.Seen.{AreNames};
ghost use Rattle.drive_steps.specs.Cancels.{GroupsAreCanceled};
ghost use Rattle.drive_steps.specs.Cancels.{OthersGoOn};
ghost use Rattle.drive_steps.specs.Cancels.{AreTaken, can_cancel, canceled_text, cuts_of, end_in};
ghost use Rattle.drive_steps.specs.Cancels.{is_open, is_open_after, open_scope, scope_name};
ghost use Rattle.drive_steps.specs.Cancels.{stops_of};
ghost use Rattle.drive_steps.specs.Rooms.{are_housed};

use crate::called::last_of;
use crate::heard::Ended;
use crate::starts::next_try;
use arrayvec::ArrayVec;
use night_drive::names::{Names, begins};
use night_drive::nights::{is_done, last_scope};
use night_plan::commands::Plan;
use row_view::copies::text_copy;
use run_model::{Command, Name, Outcome, Stage, Step, Text};
use run_session::State;
use std::alloc::{AllocError, Allocator, Global};

/// The cancel of a command of the plan.
#[derive(Drop)]
pub struct CommandCancel {
    pub command: usize,
    pub why: Text,
}

/// The cancel of a group of the plan.
#[derive(Drop)]
pub struct GroupCancel {
    pub group: usize,
    pub why: Text,
}

/// Returns those of these cancels that can be recorded, once these ends are. A command can be
/// canceled unless its last try runs on, ended well or was canceled. Of two cancels of a command
/// the first one counts.
pub fn taken_cancels<A: Allocator>(
    alloc: Global,
    state: &State<A>,
    plan: &Plan,
    names: &Names,
    heard: &[Ended],
    cancels: &[CommandCancel],
) -> Result<Vec<CommandCancel>, AllocError>
    requires named { AreNames plan.now names.now }
    requires within { All (λ (cancel : CommandCancel).
        cancel.command < length plan.now.commands.items) cancels.now }
    ensures { IfOk result (λ taken. AreTaken state.now names.now plan.now.commands.items heard.now
        cancels.now taken.items) }
{
    let mut taken = Vec::new(alloc);
    for cancel in cancels {
        if is_named(&taken, cancel.command) {
            continue;
        }
        if !can_cancel(state, plan, names, heard, cancel.command) {
            continue;
        }
        taken.push(copy_of(cancel))?;
    }
    Ok(taken)
}

/// Returns whether one of these cancels is one of this command.
fn is_named(taken: &[CommandCancel], command: usize) -> bool
    ensures { result ≡ list_any (λ (cancel : CommandCancel). cancel.command == command) taken.now }
{
    taken.iter().any(|cancel| cancel.command == command)
}

/// Returns a copy of a cancel.
fn copy_of(cancel: &CommandCancel) -> CommandCancel
    ensures { result ≡ cancel.now }
{
    CommandCancel {
        command: cancel.command,
        why: cancel.why.copy(),
    }
}

/// Returns whether a cancel of this command can be recorded, once these ends are.
fn can_cancel<A: Allocator>(
    state: &State<A>,
    plan: &Plan,
    names: &Names,
    heard: &[Ended],
    c: usize,
) -> bool
    requires named { AreNames plan.now names.now }
    requires within { c < length plan.now.commands.items }
    ensures { result ≡ can_cancel state.now names.now plan.now.commands.items heard.now c }
{
    match last_of(state, plan, names, c) {
        Some(n) => is_open_after(state, heard, n),
        None => true,
    }
}

/// Returns whether a command can begin again after this task, once these ends are recorded.
fn is_open_after<A: Allocator>(state: &State<A>, heard: &[Ended], n: u16) -> bool
    ensures { result ≡ is_open_after state.now heard.now n }
{
    match end_in(heard, n) {
        Some(outcome) => is_failure(&outcome),
        None => is_open_at(state, n),
    }
}

/// Returns how the try with this task has ended, if that is among these ends.
fn end_in(heard: &[Ended], n: u16) -> Option<Outcome>
    ensures { result ≡ end_in heard.now n }
{
    match heard.iter().find(|end| end.task == n) {
        Some(end) => Some(end.outcome.copy()),
        None => None,
    }
}

/// Returns whether a try has failed, and wasn't canceled.
fn is_failure(outcome: &Outcome) -> bool
    ensures { result ≡ is_open (stage_of outcome.now) }
{
    match outcome {
        Outcome::Success => false,
        Outcome::Failure(error) => !begins(error.as_bytes(), b"canceled: "),
    }
}

/// Returns whether a command can begin again after this task, as it is.
fn is_open_at<A: Allocator>(state: &State<A>, n: u16) -> bool
    ensures { result ≡ has_stage is_open state.now.work n }
{
    match state.groups().task_row(n) {
        Some(task) => is_open(&task.stage),
        None => false,
    }
}

/// Returns whether a command can begin again after a try that has come to this stage.
fn is_open(stage: &Stage) -> bool
    ensures { result ≡ is_open stage.now }
{
    match stage {
        Stage::Failure(error) => !begins(error.as_bytes(), b"canceled: "),
        Stage::Interrupted => true,
        Stage::Fresh | Stage::Running | Stage::Success => false,
    }
}

/// Returns how a try ends that was canceled for this reason: `canceled: WHY`, cut off after 64
/// bytes.
pub fn canceled_text(why: &Text) -> Text
    ensures { result ≡ canceled_text why.now }
{
    let mut bytes: ArrayVec<u8, 64> = ArrayVec::new();
    push(&mut bytes, b"canceled: ");
    push(&mut bytes, cut(why.as_bytes()));
    text_copy(bytes.as_slice())
}

/// Returns these bytes, but at most 54.
fn cut(bytes: &[u8]) -> &[u8]
    ensures { result.now ≡ take 54 bytes.now }
{
    if bytes.len() <= 54 {
        bytes
    } else {
        &bytes[..54]
    }
}

/// Appends these bytes.
fn push(out: &mut ArrayVec<u8, 64>, bytes: &[u8])
    requires { length out.old.items + length bytes.now ≤ 64 }
    ensures { out.new.items ≡ out.old.items ++ bytes.now }
{
    out.try_extend_from_slice(bytes).unwrap();
}

/// Appends the steps in which these commands are canceled: for each of them a task is submitted,
/// started and finished.
pub(crate) fn push_cuts<A: Allocator>(
    steps: &mut Vec<Step>,
    state: &State<A>,
    plan: &Plan,
    names: &Names,
    taken: &[CommandCancel],
) -> Result<(), AllocError>
    requires named { AreNames plan.now names.now }
    requires housed { are_housed state.now names.now ≡ true }
    requires within { All (λ (cancel : CommandCancel).
        cancel.command < length plan.now.commands.items) taken.now }
    requires room { length state.now.work.tasks + length taken.now ≤ 65535 }
    ensures { OnOk result (steps.new.items ≡ steps.old.items ++ cuts_of state.now names.now
        plan.now.commands.items (length state.now.work.tasks) taken.now) }
{
    let first = state.task_count();
    for (i, cancel) in taken.iter().enumerate() {
        let next = next_try(state, plan, names, cancel.command);
        steps.push(Step::Command(next))?;
        steps.push(Step::Start)?;
        let why = canceled_text(&cancel.why);
        steps.push(Step::Finish((first + i) as u16, Outcome::Failure(why)))?;
    }
    Ok(())
}

/// Appends the steps in which these groups are canceled. A group that has no scope in this night,
/// or is done already, has no step.
pub(crate) fn push_stops<A: Allocator>(
    steps: &mut Vec<Step>,
    state: &State<A>,
    names: &Names,
    groups: &[GroupCancel],
) -> Result<(), AllocError>
    requires { All (λ (cancel : GroupCancel). cancel.group < length names.now.groups.items)
        groups.now }
    ensures { OnOk result (steps.new.items
        ≡ steps.old.items ++ stops_of state.now names.now groups.now) }
{
    for cancel in groups {
        let group = &names.groups[cancel.group];
        let Some(scope) = open_scope(state, names, group) else {
            continue;
        };
        steps.push(stop_of(state, scope, &cancel.why))?;
    }
    Ok(())
}

/// Returns the scope that the cancel of a group cancels: its last one, unless that is done.
fn open_scope<A: Allocator>(state: &State<A>, names: &Names, group: &Name) -> Option<u16>
    ensures last { result ≡ open_scope state.now names.now.night group.now }
    ensures within { IfSome result (λ scope. scope < length state.now.tree.scopes) }
{
    match last_scope(state, &names.night, group) {
        Some(scope) => if is_done(state, scope) {
            None
        } else {
            Some(scope)
        },
        None => None,
    }
}

/// Returns the step that cancels a scope.
fn stop_of<A: Allocator>(state: &State<A>, scope: u16, why: &Text) -> Step
    requires { scope < length state.now.tree.scopes }
    ensures { result ≡ Step.Command (Command.Cancel (scope_name state.now scope)
        (Some why.now)) }
{
    Step::Command(Command::Cancel {
        scope: state.scopes()[scope as usize].name.copy(),
        cause: Some(why.copy()),
    })
}

/// Once what was heard is recorded, each canceled group is done, if it has a scope and the log had
/// room. So none of its commands begins in the same round but cleanups. No other group is done
/// then, unless it was before, or its deadline has come, or its scope stands below that of a
/// canceled group. The ends of tries and the cancels of commands, which are recorded before, change
/// no scope, since the groups of a night are bare.
pub fn canceled_groups_are_done()
    ensures canceled { GroupsAreCanceled }
    ensures others { OthersGoOn }
{}
