//! A plan with names grows by a pool, by a group, by the deadline of its last group, or by a
//! command.

ghost use Rattle.std.specs.Prelude.{◌≡◌, ◌++◌, ◌∷◌, [], ℕ, IfOk, Some, slice_get};
ghost use Rattle.plan_lines.specs.States.{MayGrow};
ghost use Rattle.drive_parts.specs.Growth.{GrowsByLast, HasNewGroup, HasNewPool, HasPending};
ghost use Rattle.drive_parts.specs.Names.{IsGroupName};
ghost use Rattle.drive_parts.specs.Pendings.{CanGrow};

use crate::growth::Pending;
use crate::plans::NightPlan;
use drive_nights::untils::Until;
use night_plan::commands::{Command, Group, Plan};
use night_plan::growth::{with_command, with_group};
use night_plan::plans::growth_fault;
use run_model::Name;
use std::alloc::AllocError;

/// The plan with one more pool.
pub(crate) fn with_pool(plan: NightPlan, size: u32) -> Result<NightPlan, AllocError>
    ensures { IfOk result (HasNewPool size plan) }
{
    let NightPlan {
        plan,
        groups,
        keys,
        untils,
        all,
        next,
    } = plan;
    Ok(NightPlan {
        plan: with_new_pool(plan, size)?,
        groups,
        keys,
        untils,
        all,
        next,
    })
}

/// The plan without names, with one more pool.
fn with_new_pool(plan: Plan, size: u32) -> Result<Plan, AllocError>
    ensures first { IfOk result (λ new. new.first ≡ plan.first) }
    ensures groups { IfOk result (λ new. new.groups.items ≡ plan.groups.items) }
    ensures pools { IfOk result (λ new. new.pools.items ≡ plan.pools.items ++ size ∷ []) }
    ensures commands { IfOk result (λ new. new.commands.items ≡ plan.commands.items) }
{
    let Plan {
        first,
        groups,
        mut pools,
        commands,
        order,
        places,
    } = plan;
    pools.push(size)?;
    Ok(Plan {
        first,
        groups,
        pools,
        commands,
        order,
        places,
    })
}

/// The plan with one more group, which has no deadline yet.
pub(crate) fn with_named_group(
    plan: NightPlan,
    group: Group,
    name: Name,
) -> Result<NightPlan, AllocError>
    requires allowed { IsGroupName name }
    requires free { (k : ℕ) → slice_get plan.groups.items k ≡ Some name → ⊥ }
    ensures { IfOk result (HasNewGroup group name plan) }
{
    let NightPlan {
        plan,
        mut groups,
        keys,
        mut untils,
        all,
        next,
    } = plan;
    groups.push(name)?;
    untils.push(None)?;
    Ok(NightPlan {
        plan: with_group(plan, group)?,
        groups,
        keys,
        untils,
        all,
        next,
    })
}

/// The plan whose last group has this deadline, or `None` if it has one already, or if there is no
/// group.
pub(crate) fn with_last_until(
    plan: NightPlan,
    until: Until,
) -> Result<Option<NightPlan>, AllocError>
    ensures { IfOk result (GrowsByLast until plan) }
{
    let NightPlan {
        plan,
        groups,
        keys,
        mut untils,
        all,
        next,
    } = plan;
    let Some(None) = untils.pop() else {
        return Ok(None);
    };
    untils.push(Some(until))?;
    Ok(Some(NightPlan {
        plan,
        groups,
        keys,
        untils,
        all,
        next,
    }))
}

/// The plan with the command that was pending.
pub(crate) fn with_pending(plan: NightPlan, pending: Pending) -> Result<NightPlan, AllocError>
    requires { CanGrow plan pending }
    ensures { IfOk result (HasPending plan pending) }
{
    let NightPlan {
        plan,
        groups,
        mut keys,
        untils,
        all,
        next,
    } = plan;
    let Pending { command, key } = pending;
    keys.push(key)?;
    Ok(NightPlan {
        plan: with_command(plan, command)?,
        groups,
        keys,
        untils,
        all,
        next,
    })
}

/// Returns whether a plan can grow by a command, which has to name only what exists, and to take no
/// more of a pool than its size.
pub(crate) fn may_grow(plan: &Plan, command: &Command) -> bool
    ensures { MayGrow result plan.now command.now }
{
    growth_fault(plan, command).is_none()
}
