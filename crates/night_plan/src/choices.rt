//! The choice of the commands that begin now.

ghost use Rattle.std.specs.Prelude.{◌≡◌, ◌<◌, ◌^◌, ◌↔◌, IfOk, IsTrue, Some};
ghost use Rattle.std.specs.Prelude.{length, map, slice_get};
ghost use Rattle.night_plan.specs.Nights.{AreFacts, night};
ghost use Rattle.night_plan.specs.Choices.{IsChoice, IsQuiet, HasCapacity, GoesOn};
ghost use Rattle.night_plan.specs.Queues.{IsCandidate, AreCandidates, IsQueue, IsSoonestOf};
ghost use Rattle.night_plan.specs.Queues.{with_wait};
ghost use Rattle.night_plan.specs.declared.standings.Standing.TheVariants.{Ready};

use crate::commands::Plan;
use crate::facts::Facts;
use crate::pools::{fits, left_over, take_from};
use crate::standings::{Standing, standings};
use std::alloc::{AllocError, Global};

/// The commands to begin now, and the moment at which to ask again if nothing ends before.
#[derive(Drop)]
pub struct Choice {
    pub commands: Vec<usize>,
    pub later: Option<u64>,
}

/// A ready command, with a key that is lower if its priorities are higher.
#[derive(Clone, Copy)]
struct Candidate {
    key: u32,
    command: usize,
}

/// A ready command as a candidate.
fn candidate_of(plan: &Plan, facts: &Facts, all: &[Standing], c: usize) -> Candidate
    requires is { c < length plan.now.commands.items }
    requires ready { slice_get all.now c ≡ Some Ready }
    ensures command { result.command ≡ c }
    ensures candidate { IsCandidate (night plan.now facts.now) all.now result }
{
    let command = &plan.commands[c];
    let group = plan.groups[command.group];
    Candidate {
        key: u32::MAX - (group.priority as u32 * 65536 + command.priority as u32),
        command: c,
    }
}

/// The ready commands, by number.
fn candidates(
    alloc: Global,
    plan: &Plan,
    facts: &Facts,
    all: &[Standing],
) -> Result<Vec<Candidate>, AllocError>
    requires { length all.now ≡ length plan.now.commands.items }
    ensures { IfOk result (λ queue. AreCandidates (night plan.now facts.now) all.now
        (length all.now) queue.items) }
{
    let mut queue = Vec::new(alloc);
    for (c, standing) in all.iter().enumerate() {
        if !is_ready(*standing) {
            continue;
        }
        queue.push(candidate_of(plan, facts, all, c))?;
    }
    Ok(queue)
}

/// Whether a standing is [`Standing::Ready`].
fn is_ready(standing: Standing) -> bool
    ensures { IsTrue result ↔ (standing ≡ Ready) }
{
    matches!(standing, Standing::Ready)
}

/// The commands of some candidates.
fn numbers(alloc: Global, queue: &[Candidate]) -> Result<Vec<usize>, AllocError>
    ensures { IfOk result (λ all. all.items ≡ map (λ it. it.command) queue.now) }
{
    let mut all = Vec::new(alloc);
    for it in queue {
        all.push(it.command)?;
    }
    Ok(all)
}

/// The ready commands, in order.
fn ready_in_order(
    alloc: Global,
    plan: &Plan,
    facts: &Facts,
    all: &[Standing],
) -> Result<Vec<usize>, AllocError>
    requires { length all.now ≡ length plan.now.commands.items }
    ensures { IfOk result (λ queue. IsQueue (night plan.now facts.now) all.now queue.items) }
{
    let mut queue = candidates(alloc, plan, facts, all)?;
    queue.sort_by_key(|it| it.key)?;
    numbers(alloc, queue.as_slice())
}

/// The sooner of two moments: one, if there is one, and that of a command that waits.
fn sooner(later: Option<u64>, standing: Standing) -> Option<u64>
    ensures { result ≡ with_wait later standing }
{
    match standing {
        Standing::Waiting(moment) => Some(match later {
            Some(other) => other.min(moment),
            None => moment,
        }),
        _ => later,
    }
}

/// The least moment of the commands that wait.
fn soonest(all: &[Standing]) -> Option<u64>
    ensures { IsSoonestOf all.now (length all.now) result }
{
    let mut later = None;
    for standing in all {
        later = sooner(later, *standing);
    }
    later
}

/// Returns which commands of a plan to begin now, given its facts.
pub fn choose(alloc: Global, plan: &Plan, facts: &Facts, now: u64) -> Result<Choice, AllocError>
    requires facts { AreFacts plan.now facts.now }
    requires moment { now < 2 ^ 63 }
    ensures chosen { IfOk result (IsChoice (night plan.now facts.now) now
        facts.now.sizes.items) }

    // While nothing is busy, the night goes on until each command is final.
    ensures moving { IfOk result (λ choice. HasCapacity (night plan.now facts.now)
        facts.now.sizes.items → IsQuiet (night plan.now facts.now)
        → GoesOn (night plan.now facts.now) now choice) }
{
    let all = standings(alloc, plan, facts, now)?;
    let queue = ready_in_order(alloc, plan, facts, all.as_slice())?;
    let mut left = left_over(alloc, plan, facts)?;
    let mut commands = Vec::new(alloc);
    for i in 0..queue.len() {
        let c = queue[i];
        let takes = plan.commands[c].takes.as_slice();
        if !fits(takes, left.as_slice()) {
            continue;
        }
        take_from(&mut left, takes);
        commands.push(c)?;
    }
    let later = soonest(all.as_slice());
    Ok(Choice { commands, later })
}
