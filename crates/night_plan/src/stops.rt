//! Which running commands have to stop.

ghost use Rattle.std.specs.Prelude.{◌≡◌, ◌<◌, ◌&&◌, ◌||◌, ◌↔◌, ℕ, Contains, IfOk, length};
ghost use Rattle.std.specs.List.Sorted.{IsStrictlyIncreasing};
ghost use Rattle.night_plan.specs.Nights.{AreFacts, night, is_canceled, is_cleanup};
ghost use Rattle.night_plan.specs.Stops.{MustStop, must_stop, AreToStop, CleanupsRunOn};

use crate::commands::{Command, Plan};
use crate::facts::{Facts, Known};
use crate::questions::{busy, canceled, cleanup, does_cancel};
use crate::standings::stopped_groups;
use std::alloc::{AllocError, Global};

/// Whether a command is to be stopped, by whether a failure has canceled its group.
fn is_to_stop(done: &[bool], command: &Command, known: Known, cut: bool) -> bool
    requires { command.now.group < length done.now }
    ensures { result ≡ must_stop done.now command.now known cut }
{
    busy(known.phase) && (canceled(done, command, known) || (cut && !cleanup(command)))
}

/// Returns the running commands that have to stop, by number. These are the commands that were
/// canceled themselves, those of a group that was canceled, and those of a group that a failure
/// cancels. A cleanup only has to stop if it was canceled itself.
pub fn to_stop(alloc: Global, plan: &Plan, facts: &Facts) -> Result<Vec<usize>, AllocError>
    requires { AreFacts plan.now facts.now }
    ensures exact { IfOk result (λ all. (c : ℕ)
        → Contains all.items c ↔ MustStop (night plan.now facts.now) c) }
    ensures order { IfOk result (λ all. IsStrictlyIncreasing all.items) }
{
    let stopped = stopped_groups(alloc, plan, facts)?;
    let mut all = Vec::new(alloc);
    for (c, command) in plan.commands.iter().enumerate() {
        let known = facts.known[c];
        let group = plan.groups[command.group];
        let mark = stopped[command.group];
        let cut = is_cut_off(mark, does_cancel(group.way));
        if !is_to_stop(facts.done.as_slice(), command, known, cut) {
            continue;
        }
        all.push(c)?;
    }
    Ok(all)
}

/// Whether a group has stopped and a failure cancels it.
fn is_cut_off(stopped: bool, cancels: bool) -> bool
    ensures { result ≡ (stopped && cancels) }
{
    stopped && cancels
}

/// A running cleanup has to stop only if it is canceled itself. It runs on if its group fails, is
/// canceled or passes its deadline.
pub fn cleanups_run_on()
    ensures { CleanupsRunOn }
{}
