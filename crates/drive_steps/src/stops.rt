//! Which living tries have to stop, and why.

ghost use Rattle.std.specs.List.{list_any};
ghost use Rattle.std.specs.Option.{option_or};
ghost use Rattle.std.specs.Prelude.{◌≡◌, ◌<◌, ◌==◌, All, IfOk, IfSome, codes, length, unwrap_or};
ghost use Rattle.run_model.specs.Scopes.{cause_of};
ghost use Rattle.night_plan.specs.declared.commands.Group.{Group as GroupLine};
ghost use Rattle.night_plan.specs.Nights.{AreFacts, cancels, night};
ghost use Rattle.night_drive.specs.Distinct.{AreDistinct};
ghost use Rattle.night_drive.specs.Seen.{AreNames, is_over};
ghost use Rattle.drive_steps.specs.Errors.{first_below};
ghost use Rattle.drive_steps.specs.Starts.{group_of};
ghost use Rattle.drive_steps.specs.Stops.{AreStops, can_stop, failure_why, group_why, has_cut};
ghost use Rattle.drive_steps.specs.Stops.{marked, own_why, why_of};

use crate::called::{group_of, last_of};
use crate::cancels::CommandCancel;
use crate::errors::error_at;
use crate::reported::Begun;
use night_drive::ends::Ends;
use night_drive::guessed::seen_with;
use night_drive::guesses::Guesses;
use night_drive::names::Names;
use night_drive::nights::{is_over, last_scope};
use night_plan::commands::{Group, Plan};
use night_plan::facts::{Facts, Known};
use night_plan::questions::{does_cancel, spent};
use night_plan::stops::to_stop;
use row_view::copies::text_copy;
use run_model::{Name, Text};
use run_session::State;
use std::alloc::{AllocError, Allocator, Global};

/// A try that has to stop.
#[derive(Drop)]
pub struct Stop {
    /// The task of the try.
    pub task: u16,
    pub why: Text,
}

/// Returns which of the living tries have to stop. Those are the tries of commands that were
/// canceled themselves, those of groups that are done, and those of groups that a failure cancels.
/// Each has the reason of its command's own cancel; or else why its group is done; or else the
/// error of the first command of its group that has failed for good. A store doesn't record that a
/// command which runs was canceled, so the caller has to keep these cancels until its try has
/// ended.
pub fn stops<A: Allocator>(
    alloc: Global,
    state: &State<A>,
    ends: &Ends,
    plan: &Plan,
    names: &Names,
    guesses: &mut Guesses,
    canceled: &[CommandCancel],
    living: &[Begun],
) -> Result<Vec<Stop>, AllocError>
    requires named { AreNames plan.now names.now }
    requires distinct { AreDistinct plan.now names.now }
    requires within { All (λ (cancel : CommandCancel).
        cancel.command < length plan.now.commands.items) canceled.now }
    requires of_plan { All (λ (begun : Begun). begun.command < length plan.now.commands.items)
        living.now }
    ensures { IfOk result (λ stops. AreStops state.now ends.now plan.now names.now canceled.now
        living.now stops.items) }
{
    if !can_stop(state, plan, names, canceled) {
        return Ok(Vec::new(alloc));
    }
    let mut facts = seen_with(alloc, state, ends, plan, names, guesses)?;
    mark(&mut facts.known, canceled);
    let commands = to_stop(alloc, plan, &facts)?;
    let mut stops = Vec::new(alloc);
    for begun in living {
        if !is_listed(commands.as_slice(), begun.command) {
            continue;
        }
        let why = why_of(state, plan, names, &facts, canceled, begun.command);
        stops.push(Stop {
            task: begun.task,
            why,
        })?;
    }
    Ok(stops)
}

/// Returns whether something may have to stop: whether a command was canceled, a group is done, or
/// a failure cancels a group.
fn can_stop<A: Allocator>(
    state: &State<A>,
    plan: &Plan,
    names: &Names,
    canceled: &[CommandCancel],
) -> bool
    ensures { result ≡ can_stop state.now plan.now names.now canceled.now }
{
    !canceled.is_empty() || is_one_over(state, names) || is_one_canceling(plan.groups.as_slice())
}

/// Returns whether one of the groups of the plan is done.
fn is_one_over<A: Allocator>(state: &State<A>, names: &Names) -> bool
    ensures { result ≡ list_any (is_over state.now names.now.night) names.now.groups.items }
{
    names
        .groups
        .iter()
        .any(|group| is_over(state, &names.night, group))
}

/// Returns whether a failure cancels one of these groups.
fn is_one_canceling(groups: &[Group]) -> bool
    ensures { result ≡ list_any (λ (group : GroupLine). cancels group.way) groups.now }
{
    groups.iter().any(|group| does_cancel(group.way))
}

/// Returns whether a command is among these.
fn is_listed(commands: &[usize], c: usize) -> bool
    ensures { result ≡ list_any (λ d. d == c) commands.now }
{
    commands.iter().any(|d| *d == c)
}

/// Counts these commands as canceled.
fn mark(known: &mut Vec<Known>, canceled: &[CommandCancel])
    requires { All (λ (cancel : CommandCancel). cancel.command < length known.old.items)
        canceled.now }
    ensures { known.new.items ≡ marked known.old.items canceled.now }
{
    for cancel in canceled {
        let mut fact = known[cancel.command];
        fact.canceled = true;
        known[cancel.command] = fact;
    }
}

/// Returns why a command has to stop.
fn why_of<A: Allocator>(
    state: &State<A>,
    plan: &Plan,
    names: &Names,
    facts: &Facts,
    canceled: &[CommandCancel],
    c: usize,
) -> Text
    requires named { AreNames plan.now names.now }
    requires facts { AreFacts plan.now facts.now }
    requires within { c < length plan.now.commands.items }
    ensures { result ≡ why_of state.now names.now (night plan.now facts.now) canceled.now c }
{
    match own_why(canceled, c) {
        Some(why) => why,
        None => why_by_group(state, plan, names, facts, c),
    }
}

/// Returns why a command itself was canceled: the reason of the first of these cancels that is one
/// of this command.
pub fn own_why(canceled: &[CommandCancel], c: usize) -> Option<Text>
    ensures { result ≡ own_why canceled.now c }
{
    match canceled.iter().find(|cancel| cancel.command == c) {
        Some(cancel) => Some(cancel.why.copy()),
        None => None,
    }
}

/// Returns why the group of a command is done, or else with which error a command of it has failed.
fn why_by_group<A: Allocator>(
    state: &State<A>,
    plan: &Plan,
    names: &Names,
    facts: &Facts,
    c: usize,
) -> Text
    requires named { AreNames plan.now names.now }
    requires facts { AreFacts plan.now facts.now }
    requires within { c < length plan.now.commands.items }
    ensures { result ≡ unwrap_or (option_or (group_why state.now names.now.night
        (group_of names.now plan.now.commands.items c))
        (failure_why state.now names.now (night plan.now facts.now) c))
        (codes "a command failed") }
{
    match group_why(state, names, group_of(plan, names, c)) {
        Some(why) => why,
        None => why_by_failure(state, plan, names, facts, c),
    }
}

/// Returns the error of the first command that has failed for good in the group of a command.
fn why_by_failure<A: Allocator>(
    state: &State<A>,
    plan: &Plan,
    names: &Names,
    facts: &Facts,
    c: usize,
) -> Text
    requires named { AreNames plan.now names.now }
    requires facts { AreFacts plan.now facts.now }
    requires within { c < length plan.now.commands.items }
    ensures { result ≡ unwrap_or (failure_why state.now names.now (night plan.now facts.now) c)
        (codes "a command failed") }
{
    match failure_why(state, plan, names, facts, c) {
        Some(why) => why,
        None => text_copy(b"a command failed"),
    }
}

/// Returns the error of the first command that has failed for good in the group of a command.
fn failure_why<A: Allocator>(
    state: &State<A>,
    plan: &Plan,
    names: &Names,
    facts: &Facts,
    c: usize,
) -> Option<Text>
    requires named { AreNames plan.now names.now }
    requires facts { AreFacts plan.now facts.now }
    requires within { c < length plan.now.commands.items }
    ensures { result ≡ failure_why state.now names.now (night plan.now facts.now) c }
{
    let d = first_cut(plan, facts, c)?;
    error_at(state, last_of(state, plan, names, d)?)
}

/// Returns the first command that has failed for good in the group of a command.
fn first_cut(plan: &Plan, facts: &Facts, c: usize) -> Option<usize>
    requires facts { AreFacts plan.now facts.now }
    requires within { c < length plan.now.commands.items }
    ensures first { result ≡ first_below (has_cut (night plan.now facts.now) c)
        (length plan.now.commands.items) }
    ensures below { IfSome result (λ d. d < length plan.now.commands.items) }
{
    let mut first = None;
    for d in 0..plan.commands.len() {
        if first.is_none() && has_cut(plan, facts, c, d) {
            first = Some(d);
        }
    }
    first
}

/// Returns whether a command is one of the group of another one, and has failed for good.
fn has_cut(plan: &Plan, facts: &Facts, c: usize, d: usize) -> bool
    requires facts { AreFacts plan.now facts.now }
    requires one { c < length plan.now.commands.items }
    requires other { d < length plan.now.commands.items }
    ensures { result ≡ has_cut (night plan.now facts.now) c d }
{
    let command = &plan.commands[d];
    let known = facts.known[d];
    plan.commands[c].group == command.group && spent(facts.done.as_slice(), command, known)
}

/// Returns why a group is done.
fn group_why<A: Allocator>(state: &State<A>, names: &Names, group: &Name) -> Option<Text>
    ensures { result ≡ group_why state.now names.now.night group.now }
{
    match last_scope(state, &names.night, group) {
        Some(scope) => cause_of(state, scope),
        None => None,
    }
}

/// Returns why a scope is done.
fn cause_of<A: Allocator>(state: &State<A>, scope: u16) -> Option<Text>
    requires { scope < length state.now.tree.scopes }
    ensures { result ≡ cause_of state.now.tree.scopes scope }
{
    match state.tree().cause(scope) {
        Some(cause) => Some(text_copy(cause)),
        None => None,
    }
}
