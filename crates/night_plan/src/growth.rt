//! A plan that grows by one more group, or by one more command, which comes after those that are
//! there.

ghost use Rattle.std.specs.Prelude.{◌≡◌, ◌<◌, ◌++◌, [], ◌∷◌, IfOk, length};
ghost use Rattle.night_plan.specs.Growth.{GrowsAlone, GroupsGrowAlone};
ghost use Rattle.night_plan.specs.Ranks.{IsKnown};

use crate::commands::{Command, Group, Plan};
use std::alloc::AllocError;

/// Returns the plan with one more command, which names only what exists. Call
/// [`growth_fault`](crate::plans::growth_fault) before; it also says whether the command takes more
/// of a pool than there is. The time that both calls take doesn't depend on the size of the plan.
pub fn with_command(plan: Plan, command: Command) -> Result<Plan, AllocError>
    requires { IsKnown (length plan.groups.items) (length plan.commands.items)
        (length plan.pools.items) command }
    ensures first { IfOk result (λ new. new.first ≡ plan.first) }
    ensures groups { IfOk result (λ new. new.groups.items ≡ plan.groups.items) }
    ensures pools { IfOk result (λ new. new.pools.items ≡ plan.pools.items) }
    ensures commands { IfOk result (λ new. new.commands.items
        ≡ plan.commands.items ++ command ∷ []) }
{
    let Plan {
        first,
        groups,
        pools,
        mut commands,
        mut order,
        mut places,
    } = plan;
    places.push(order.len())?;
    order.push(commands.len())?;
    commands.push(command)?;
    Ok(Plan {
        first,
        groups,
        pools,
        commands,
        order,
        places,
    })
}

/// Returns the plan with one more group, which has no command yet.
pub fn with_group(plan: Plan, group: Group) -> Result<Plan, AllocError>
    ensures first { IfOk result (λ new. new.first ≡ plan.first) }
    ensures groups { IfOk result (λ new. new.groups.items ≡ plan.groups.items ++ group ∷ []) }
    ensures pools { IfOk result (λ new. new.pools.items ≡ plan.pools.items) }
    ensures commands { IfOk result (λ new. new.commands.items ≡ plan.commands.items) }
{
    let Plan {
        first,
        mut groups,
        pools,
        commands,
        order,
        places,
    } = plan;
    groups.push(group)?;
    Ok(Plan {
        first,
        groups,
        pools,
        commands,
        order,
        places,
    })
}

/// A command that is added doesn't change the standing of the others.
pub fn growth_changes_no_standing()
    ensures { GrowsAlone }
{}

/// A group that is added doesn't change the standing of any command.
pub fn a_group_changes_no_standing()
    ensures { GroupsGrowAlone }
{}
