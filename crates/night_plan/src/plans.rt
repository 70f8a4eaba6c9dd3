//! Sound plans: their commands name only what exists, and no command comes after itself.

ghost use Rattle.std.specs.Prelude.{◌≡◌, ◌<◌, ◌≤◌, ◌↔◌, ℕ, All, IfErr, IfOk, IsTrue, MatchOption};
ghost use Rattle.std.specs.Prelude.{MatchBool, Some, length, slice_get, true};
ghost use Rattle.night_plan.specs.Plans.{is_within};
ghost use Rattle.night_plan.specs.Ranks.{IsKnown, IsTooMuch, TakesWithin, Explains, ForbidsGrowth};
ghost use Rattle.night_plan.specs.declared.commands.Command.{Command as CommandLine};

use crate::commands::{Command, Group, Need, Plan, Subject, Take};
use crate::pools::fits;
use crate::ranks::{Ranking, places_of, rank_all};
use std::alloc::{AllocError, Global};

/// Says why a plan is refused.
#[derive(Drop)]
pub enum PlanFault {
    Memory,
    /// This command names a group, a command or a pool that doesn't exist.
    Unknown(usize),
    /// This command takes more of a pool than its size.
    TooMuch(usize),
    /// Each of these commands comes after the next one, and the last one comes after the first.
    Circle(Vec<usize>),
}

impl From<AllocError> for PlanFault {
    ghost use Rattle.night_plan.specs.declared.plans.PlanFault.TheVariants.{Memory};

    ghost from_gives = { λ _ e. e ≡ Memory };

    fn from(_error: AllocError) -> Self {
        PlanFault::Memory
    }
}

/// Whether a subject is a group or a command that there is.
fn is_known(groups: usize, commands: usize, of: Subject) -> bool
    ensures { result ≡ is_within groups commands of }
{
    match of {
        Subject::Command(d) => d < commands,
        Subject::Group(g) => g < groups,
    }
}

/// Whether these needs name what there is.
fn needs_known(groups: usize, commands: usize, needs: &[Need]) -> bool
    ensures { IsTrue result ↔ All (λ need. is_within groups commands need.of ≡ true) needs.now }
{
    for need in needs {
        if !is_known(groups, commands, need.of) {
            return false;
        }
    }
    true
}

/// Whether these rows name pools that there are.
fn takes_known(pools: usize, takes: &[Take]) -> bool
    ensures { IsTrue result ↔ All (λ row. row.pool < pools) takes.now }
{
    for row in takes {
        if row.pool >= pools {
            return false;
        }
    }
    true
}

/// Returns whether a command names only what exists.
pub fn line_known(groups: usize, commands: usize, pools: usize, command: &Command) -> bool
    ensures { IsTrue result ↔ IsKnown groups commands pools command.now }
{
    command.group < groups
        && needs_known(groups, commands, command.needs.as_slice())
        && takes_known(pools, command.takes.as_slice())
}

/// The first command whose line names what there isn't.
fn first_unknown(groups: usize, pools: usize, commands: &[Command]) -> Option<usize>
    ensures { MatchOption result
        (All (IsKnown groups (length commands.now) pools) commands.now)
        (λ c. (command : CommandLine) × (slice_get commands.now c ≡ Some command)
        × (IsKnown groups (length commands.now) pools command → ⊥)) }
{
    for (c, command) in commands.iter().enumerate() {
        if !line_known(groups, commands.len(), pools, command) {
            return Some(c);
        }
    }
    None
}

/// Whether a command takes no more of each pool than the pool's size.
fn has_enough(pools: &[u32], command: &Command) -> bool
    requires { All (λ row. row.pool < length pools.now) command.now.takes.items }
    ensures { MatchBool result (TakesWithin pools.now command.now)
        (IsTooMuch pools.now command.now) }
{
    fits(command.takes.as_slice(), pools)
}

/// The first command that takes more of a pool than its size.
fn first_too_much(pools: &[u32], commands: &[Command]) -> Option<usize>
    requires { All (λ command. All (λ row. row.pool < length pools.now) command.takes.items)
        commands.now }
    ensures { MatchOption result
        ((c : ℕ) (command : CommandLine) → slice_get commands.now c ≡ Some command
        → TakesWithin pools.now command)
        (λ c. (command : CommandLine) × (slice_get commands.now c ≡ Some command)
        × IsTooMuch pools.now command) }
{
    for (c, command) in commands.iter().enumerate() {
        if !has_enough(pools, command) {
            return Some(c);
        }
    }
    None
}

/// Returns why a plan can't grow by this command: it names something that doesn't exist, or it
/// takes more of a pool than the size that the plan says. The number of the command is the next
/// one.
pub fn growth_fault(plan: &Plan, command: &Command) -> Option<PlanFault>
    ensures { MatchOption result
        (IsKnown (length plan.now.groups.items) (length plan.now.commands.items)
        (length plan.now.pools.items) command.now × TakesWithin plan.now.pools.items command.now)
        (ForbidsGrowth plan.now command.now) }
{
    let c = plan.commands.len();
    if !line_known(plan.groups.len(), c, plan.pools.len(), command) {
        return Some(PlanFault::Unknown(c));
    }
    if !has_enough(plan.pools.as_slice(), command) {
        return Some(PlanFault::TooMuch(c));
    }
    None
}

/// Returns the plan of these groups, pools and commands, or says why there is none. No command may
/// take more of a pool than its size.
pub fn make_plan(
    alloc: Global,
    groups: Vec<Group>,
    pools: Vec<u32>,
    commands: Vec<Command>,
) -> Result<Plan, PlanFault>
    ensures groups { IfOk result (λ plan. plan.groups.items ≡ groups.items) }
    ensures pools { IfOk result (λ plan. plan.pools.items ≡ pools.items) }
    ensures commands { IfOk result (λ plan. plan.commands.items ≡ commands.items) }
    ensures first { IfOk result (λ plan. plan.first ≡ length commands.items) }
    ensures fits { IfOk result (λ plan. (c : ℕ) (command : CommandLine)
        → slice_get commands.items c ≡ Some command → TakesWithin pools.items command) }
    ensures refused { IfErr result (Explains groups.items pools.items commands.items) }
{
    if let Some(c) = first_unknown(groups.len(), pools.len(), commands.as_slice()) {
        return Err(PlanFault::Unknown(c));
    }
    if let Some(c) = first_too_much(pools.as_slice(), commands.as_slice()) {
        return Err(PlanFault::TooMuch(c));
    }
    let all = match rank_all(alloc, groups.len(), commands.as_slice())? {
        Ranking::Ranks(all) => all,
        Ranking::Circle(path) => return Err(PlanFault::Circle(path)),
    };
    let places = places_of(alloc, all.ranks.as_slice())?;
    Ok(Plan {
        first: commands.len(),
        groups,
        pools,
        commands,
        order: all.order,
        places,
    })
}
