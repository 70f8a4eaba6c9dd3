//! A [`Growth`] is a plan that grows by the lines of a round.

ghost use Rattle.std.specs.Prelude.{◌≤◌, length};
ghost use Rattle.drive_parts.specs.Pendings.{IsReady};

use crate::grown::{may_grow, with_last_until, with_named_group, with_pending, with_pool};
use crate::names::{has_key, is_among, is_group_name};
use crate::plans::NightPlan;
use drive_nights::untils::Until;
use night_plan::commands::{Command, Group};
use plan_lines::drafts::{command_of, extended};
use plan_lines::lines::{Outline, PlanLine};
use run_model::Name;
use std::alloc::{AllocError, Global};

/// The last command by which the plan grows. Needs and takes of it can come next, and so it isn't
/// among the others yet.
#[derive(Drop)]
pub struct Pending {
    pub command: Command,
    pub key: Name,
}

/// A plan in a round.
#[derive(Drop)]
pub struct Growth {
    pub plan: NightPlan,
    pub pending: Option<Pending>,
    /// The number that the first new group has.
    pub first: usize,
    pub ghost ready: { IsReady plan pending },
    pub ghost within: { first ≤ length plan.groups.items },
}

impl Growth {
    ghost use Rattle.std.specs.Prelude.{◌≡◌, IfOk};
    ghost use Rattle.drive_parts.specs.Growth.{Begins, Closes, GrowsByCommand, GrowsByDetail};
    ghost use Rattle.drive_parts.specs.Growth.{GrowsByGroup, GrowsByPool, GrowsByUntil};

    /// A plan that hasn't grown yet.
    pub fn new(plan: NightPlan) -> Growth
        ensures { Begins plan result }
    {
        Growth {
            first: plan.groups.len(),
            plan,
            pending: None,
        }
    }

    /// The plan with the last command among the others.
    pub fn closed(self) -> Result<Growth, AllocError>
        ensures { IfOk result (Closes self) }
    {
        let Growth {
            plan,
            pending,
            first,
        } = self;
        let Some(pending) = pending else {
            return Ok(Growth {
                plan,
                pending: None,
                first,
            });
        };
        Ok(Growth {
            plan: with_pending(plan, pending)?,
            pending: None,
            first,
        })
    }

    /// The plan with one more pool. No command is pending.
    pub fn with_pool(self, size: u32) -> Result<Growth, AllocError>
        ensures { IfOk result (GrowsByPool size self) }
    {
        let Growth {
            plan,
            pending: _,
            first,
        } = self;
        Ok(Growth {
            plan: with_pool(plan, size)?,
            pending: None,
            first,
        })
    }

    /// The plan with one more group, or `None` if a group can't have this name. No command is
    /// pending.
    pub fn with_group(self, group: Group, name: Name) -> Result<Option<Growth>, AllocError>
        ensures { IfOk result (GrowsByGroup group name self) }
    {
        let Growth {
            plan,
            pending: _,
            first,
        } = self;
        if !is_group_name(&name) {
            return Ok(None);
        }
        if is_among(&plan.groups, plan.groups.len(), &name) {
            return Ok(None);
        }
        Ok(Some(Growth {
            plan: with_named_group(plan, group, name)?,
            pending: None,
            first,
        }))
    }

    /// The plan whose last new group has this deadline, or `None` if it has one already, or if
    /// there is no new group. No command is pending.
    pub fn with_until(self, until: Until) -> Result<Option<Growth>, AllocError>
        ensures { IfOk result (GrowsByUntil until self) }
    {
        let Growth {
            plan,
            pending: _,
            first,
        } = self;
        if plan.untils.len() <= first {
            return Ok(None);
        }
        let Some(plan) = with_last_until(plan, until)? else {
            return Ok(None);
        };
        Ok(Some(Growth {
            plan,
            pending: None,
            first,
        }))
    }

    /// The plan with this command pending, or `None` if its group doesn't exist, or if a command of
    /// the group has its key. No other command is pending.
    pub fn with_command(self, alloc: Global, outline: Outline, key: Name) -> Option<Growth>
        ensures { GrowsByCommand outline key self result }
    {
        let Growth {
            plan,
            pending: _,
            first,
        } = self;
        let command = command_of(alloc, outline);
        if !may_grow(&plan.plan, &command) {
            return None;
        }
        if has_key(
            &plan.plan.commands,
            &plan.keys,
            plan.keys.len(),
            outline.group,
            &key,
        ) {
            return None;
        }
        Some(Growth {
            plan,
            pending: Some(Pending { command, key }),
            first,
        })
    }

    /// The plan whose pending command has one more need or take, or `None` if there is none, or if
    /// the plan can't grow by it then.
    pub fn with_detail(self, line: PlanLine) -> Result<Option<Growth>, AllocError>
        ensures { IfOk result (GrowsByDetail line self) }
    {
        let Growth {
            plan,
            pending,
            first,
        } = self;
        let Some(pending) = pending else {
            return Ok(None);
        };
        let Pending { command, key } = pending;
        let command = extended(command, line)?;
        if !may_grow(&plan.plan, &command) {
            return Ok(None);
        }
        Ok(Some(Growth {
            plan,
            pending: Some(Pending { command, key }),
            first,
        }))
    }
}
