//! How each command stands, found in one pass over the commands in the plan's order.

ghost use Rattle.std.specs.Prelude.{◌≡◌, ◌<◌, ◌^◌, ◌↔◌, ◌&&◌, ◌||◌, ℕ, All, Any, IfOk, IsTrue};
ghost use Rattle.std.specs.Prelude.{Some, length};
ghost use Rattle.std.specs.Prelude.{slice_get, true};
ghost use Rattle.night_plan.specs.Nights.{AreFacts, night, stops};
ghost use Rattle.night_plan.specs.Standings.{Stands};
ghost use Rattle.night_plan.specs.Hopes.{summary_of, with_both, hope_of, summary_for, has_hope};
ghost use Rattle.night_plan.specs.Hopes.{is_lost_by, lost_stands, AreWithin, AreStopped};
ghost use Rattle.night_plan.specs.Hopes.{AreStanding};

use crate::commands::{Command, Need, Plan, Subject, Way, When};
use crate::facts::{Facts, Known};
use crate::questions::{
    busy, canceled, cleanup, does_stop, ended_ok, failed_last, spent, wait_until,
};
use std::alloc::{AllocError, Global};

/// How a command stands. The first four are final.
#[derive(Clone, Copy, PartialEq, Eq)]
pub enum Standing {
    EndedOk,
    /// Its last try failed, and it has no more tries.
    Failed,
    /// It was canceled before it ended, by itself or with its group.
    Canceled,
    /// It never begins, because its group has stopped or one of its needs can't be met any more.
    GivenUp,
    Busy,
    /// Its next try waits until this moment.
    Waiting(u64),
    Ready,
    /// It comes after a command that is not final yet.
    Pending,
}

/// What is counted of some commands.
#[derive(Clone, Copy)]
pub struct Summary {
    /// One of them is not final.
    pub pending: bool,
    /// One of them never begins again.
    pub never: bool,
    /// One of them failed.
    pub failed: bool,
}

/// What a need can still expect.
#[derive(Clone, Copy)]
pub enum Hope {
    Met,
    Open,
    Vain,
}

/// The tally of a command that stands so.
fn summary_one(standing: Standing) -> Summary
    ensures { result ≡ summary_of standing }
{
    match standing {
        Standing::EndedOk => Summary {
            pending: false,
            never: false,
            failed: false,
        },
        Standing::Failed => Summary {
            pending: false,
            never: true,
            failed: true,
        },
        Standing::Canceled | Standing::GivenUp => Summary {
            pending: false,
            never: true,
            failed: false,
        },
        Standing::Busy | Standing::Waiting(_) | Standing::Ready | Standing::Pending => Summary {
            pending: true,
            never: false,
            failed: false,
        },
    }
}

/// The tally of two sets of commands.
fn both(one: Summary, other: Summary) -> Summary
    ensures { result ≡ with_both one other }
{
    Summary {
        pending: one.pending || other.pending,
        never: one.never || other.never,
        failed: one.failed || other.failed,
    }
}

/// What a need can expect, by the tally of the commands that it names.
fn hope_left(when: When, summary: Summary) -> Hope
    ensures { result ≡ hope_of when summary }
{
    match when {
        When::Well if summary.never => Hope::Vain,
        When::Failed if summary.failed => Hope::Met,
        _ if summary.pending => Hope::Open,
        When::Failed => Hope::Vain,
        _ => Hope::Met,
    }
}

/// The tally of the commands that a subject names, by the standings and tallies so far.
fn summary_named(all: &[Standing], tallies: &[Summary], of: Subject) -> Summary
    requires { AreWithin (length all.now) (length tallies.now) of }
    ensures { result ≡ summary_for all.now tallies.now of }
{
    match of {
        Subject::Command(d) => summary_one(all[d]),
        Subject::Group(g) => tallies[g],
    }
}

/// Whether one of these needs has this hope.
fn any_hope(all: &[Standing], tallies: &[Summary], needs: &[Need], which: Hope) -> bool
    requires { All (λ need. AreWithin (length all.now) (length tallies.now) need.of) needs.now }
    ensures { IsTrue result
        ↔ Any (λ need. has_hope which (hope_of need.when (summary_for all.now tallies.now need.of))
        ≡ true) needs.now }
{
    for need in needs {
        if is_hope(
            which,
            hope_left(need.when, summary_named(all, tallies, need.of)),
        ) {
            return true;
        }
    }
    false
}

/// Whether two hopes are the same.
fn is_hope(which: Hope, hope: Hope) -> bool
    ensures { result ≡ has_hope which hope }
{
    match (which, hope) {
        (Hope::Met, Hope::Met) | (Hope::Open, Hope::Open) | (Hope::Vain, Hope::Vain) => true,
        _ => false,
    }
}

/// Whether a command that is idle is lost, by whether its group has stopped.
fn lost(done: &[bool], command: &Command, known: Known, stopped: bool) -> bool
    requires { command.now.group < length done.now }
    ensures { result ≡ is_lost_by done.now command.now known stopped }
{
    spent(done, command, known) || canceled(done, command, known) || (stopped && !cleanup(command))
}

/// Whether a group has stopped, if it had before, or a command of it has failed for good.
fn is_stopped(before: bool, way: Way, failed: bool) -> bool
    ensures { result ≡ (before || (stops way && failed)) }
{
    before || (does_stop(way) && failed)
}

/// Marks of the groups that have stopped.
pub fn stopped_groups(alloc: Global, plan: &Plan, facts: &Facts) -> Result<Vec<bool>, AllocError>
    requires { AreFacts plan.now facts.now }
    ensures { IfOk result (λ stopped. AreStopped (night plan.now facts.now)
        (length plan.now.commands.items) stopped.items) }
{
    let mut stopped = vec![in alloc; false; plan.groups.len()]?;
    for (c, command) in plan.commands.iter().enumerate() {
        let known = facts.known[c];
        let failed = spent(facts.done.as_slice(), command, known);
        let group = plan.groups[command.group];
        let before = stopped[command.group];
        stopped[command.group] = is_stopped(before, group.way, failed);
    }
    Ok(stopped)
}

/// How the command at a place of the order stands, by the standings of those before it.
fn standing_at(
    plan: &Plan,
    facts: &Facts,
    stopped: &[bool],
    all: &[Standing],
    tallies: &[Summary],
    now: u64,
    p: usize,
) -> Standing
    requires is { p < length plan.now.order.items }
    requires facts { AreFacts plan.now facts.now }
    requires stopped { AreStopped (night plan.now facts.now) (length plan.now.commands.items)
        stopped.now }
    requires standing { AreStanding (night plan.now facts.now) now plan.now.order.items p all.now
        tallies.now }
    requires moment { now < 2 ^ 63 }
    ensures { (c : ℕ) → slice_get plan.now.order.items p ≡ Some c
        → Stands (night plan.now facts.now) now c result }
{
    let c = plan.order[p];
    let command = &plan.commands[c];
    let known = facts.known[c];
    if busy(known.phase) {
        return Standing::Busy;
    }
    if ended_ok(known.phase) {
        return Standing::EndedOk;
    }
    let done = facts.done.as_slice();
    let stop = stopped[command.group];
    if lost(done, command, known, stop) {
        return lost_standing(failed_last(known.phase), canceled(done, command, known));
    }
    let needs = command.needs.as_slice();
    if any_hope(all, tallies, needs, Hope::Vain) {
        return Standing::GivenUp;
    }
    if any_hope(all, tallies, needs, Hope::Open) {
        return Standing::Pending;
    }
    match wait_until(command, now, known) {
        Some(moment) => Standing::Waiting(moment),
        None => Standing::Ready,
    }
}

/// How a command that is lost stands.
fn lost_standing(failed: bool, canceled: bool) -> Standing
    ensures { result ≡ lost_stands failed canceled }
{
    if failed {
        Standing::Failed
    } else if canceled {
        Standing::Canceled
    } else {
        Standing::GivenUp
    }
}

/// Returns how each command stands.
pub fn standings(
    alloc: Global,
    plan: &Plan,
    facts: &Facts,
    now: u64,
) -> Result<Vec<Standing>, AllocError>
    requires facts { AreFacts plan.now facts.now }
    requires moment { now < 2 ^ 63 }
    ensures sized { IfOk result (λ all. length all.items ≡ length plan.now.commands.items) }
    ensures each { IfOk result (λ all. (c : ℕ) (standing : Standing)
        → slice_get all.items c ≡ Some standing
        → Stands (night plan.now facts.now) now c standing) }
{
    let stopped = stopped_groups(alloc, plan, facts)?;
    let mut all = vec![in alloc; Standing::Pending; plan.commands.len()]?;
    let none = Summary {
        pending: false,
        never: false,
        failed: false,
    };
    let mut tallies = vec![in alloc; none; plan.groups.len()]?;
    for p in 0..plan.order.len() {
        let standing = standing_at(
            plan,
            facts,
            stopped.as_slice(),
            all.as_slice(),
            tallies.as_slice(),
            now,
            p,
        );
        let c = plan.order[p];
        let group = plan.commands[c].group;
        let before = tallies[group];
        all[c] = standing;
        tallies[group] = both(before, summary_one(standing));
    }
    Ok(all)
}
