//! A [`NightPlan`] is a plan whose groups and commands have names, and a [`PlanDraft`] holds its
//! lines while they are read.

ghost use Rattle.std.specs.Prelude.{◌≡◌, ◌<◌, ◌≤◌, MatchOption, length};
ghost use Rattle.run_model.specs.declared.bounds.TheConstants.{GREATEST_MOMENT};
ghost use Rattle.drive_parts.specs.Names.{AreGroupNames, AreKeys, groups_of};

use crate::commands::CommandList;
use crate::groups::GroupList;
use crate::names::{first_refused, first_twice};
use drive_lines::reports::Report;
use drive_nights::untils::Until;
use night_plan::commands::{Group, Plan};
use night_plan::plans::{PlanFault, make_plan};
use plan_lines::lines::{Outline, PlanLine};
use run_model::{Moment, Name, Text};
use std::alloc::{AllocError, Global};

/// A plan whose groups and commands have names.
#[derive(Drop)]
pub struct NightPlan {
    pub plan: Plan,
    /// The name of each group.
    pub groups: Vec<Name>,
    /// The key of each command.
    pub keys: Vec<Name>,
    /// The deadline of each group that has one.
    pub untils: Vec<Option<Until>>,
    /// The deadline of all groups together.
    pub all: Option<Until>,
    /// Whether another night begins, even if the last one isn't over.
    pub next: bool,
    pub ghost named: { length groups.items ≡ length plan.groups.items },
    pub ghost keyed: { length keys.items ≡ length plan.commands.items },
    pub ghost dated: { length untils.items ≡ length plan.groups.items },
    pub ghost names: { AreGroupNames groups.items },
    pub ghost own_keys: { AreKeys (groups_of plan.commands.items) keys.items },
}

/// Says why a plan is refused.
#[derive(Drop)]
pub enum PlanRefusal {
    Fault(PlanFault),
    /// The name of this group is that of an earlier one, or no group can have it.
    Name(usize),
    /// The key of this command is that of an earlier one of its group.
    Twice(usize),
}

/// What was read of a plan.
#[derive(Drop)]
pub struct PlanDraft {
    pub groups: GroupList,
    pub commands: CommandList,
    pub pools: Vec<u32>,
    pub all: Option<Until>,
    pub next: bool,
}

impl PlanDraft {
    ghost use Rattle.std.specs.Prelude.{◌++◌, ◌∷◌, [], IfOk, List, true};
    ghost use Rattle.drive_lines.specs.declared.reports.Report.{Report as ReportOf};
    ghost use Rattle.drive_lines.specs.declared.reports.Report.TheVariants as report;
    ghost use Rattle.drive_parts.specs.Commands.{HasCommand};
    ghost use Rattle.drive_parts.specs.Plans.{Adds, HasAll, HasDetail, HasGroup, HasLastUntil};
    ghost use Rattle.drive_parts.specs.Plans.{IsClosed, IsFinished, IsPlanned};

    /// A draft without any lines.
    pub fn new(alloc: Global) -> PlanDraft
        ensures { IsPlanned [] result }
    {
        PlanDraft {
            groups: GroupList::new(alloc),
            commands: CommandList::new(alloc),
            pools: Vec::new(alloc),
            all: None,
            next: false,
        }
    }

    /// Returns the draft with one more line, or `None` if the line can't come next in a plan.
    pub fn add(self, alloc: Global, report: Report) -> Result<Option<PlanDraft>, AllocError>
        ensures { IfOk result (λ draft. (reports : List ReportOf) → IsPlanned reports self
            → Adds reports report draft) }
    {
        match report {
            Report::Plan(line) => self.add_line(line),
            Report::Group(group, name) => Ok(Some(self.with_group(group, name)?)),
            Report::Command(outline, key) => Ok(Some(self.with_command(alloc, outline, key)?)),
            Report::Until(moment, words) => match until_of(moment, words) {
                Some(until) => self.with_until(until),
                None => Ok(None),
            },
            Report::All(moment, words) => match until_of(moment, words) {
                Some(until) => Ok(self.with_all(until)),
                None => Ok(None),
            },
            Report::Next => Ok(Some(self.with_next())),
            _ => Ok(None),
        }
    }

    /// The draft with one more line that is spelled as in a plan.
    fn add_line(self, line: PlanLine) -> Result<Option<PlanDraft>, AllocError>
        ensures { IfOk result (λ draft. (reports : List ReportOf) → IsPlanned reports self
            → Adds reports (report.Plan line) draft) }
    {
        match line {
            PlanLine::Pool(size) => Ok(Some(self.with_pool(size)?)),
            PlanLine::Need(need) => self.with_detail(PlanLine::Need(need)),
            PlanLine::Take(take) => self.with_detail(PlanLine::Take(take)),
            _ => Ok(None),
        }
    }

    /// The draft with one more pool.
    fn with_pool(self, size: u32) -> Result<PlanDraft, AllocError>
        ensures pools { IfOk result (λ new. new.pools.items ≡ self.pools.items ++ size ∷ []) }
        ensures groups { IfOk result (λ new. new.groups ≡ self.groups) }
        ensures commands { IfOk result (λ new. IsClosed self.commands new.commands) }
        ensures all { IfOk result (λ new. new.all ≡ self.all) }
        ensures next { IfOk result (λ new. new.next ≡ self.next) }
    {
        let mut pools = self.pools;
        pools.push(size)?;
        Ok(PlanDraft {
            commands: self.commands.closed(),
            pools,
            ..self
        })
    }

    /// The draft with one more group.
    fn with_group(self, group: Group, name: Name) -> Result<PlanDraft, AllocError>
        ensures groups { IfOk result (λ new. HasGroup group name self.groups new.groups) }
        ensures commands { IfOk result (λ new. IsClosed self.commands new.commands) }
        ensures pools { IfOk result (λ new. new.pools ≡ self.pools) }
        ensures all { IfOk result (λ new. new.all ≡ self.all) }
        ensures next { IfOk result (λ new. new.next ≡ self.next) }
    {
        Ok(PlanDraft {
            groups: self.groups.with_group(group, name)?,
            commands: self.commands.closed(),
            ..self
        })
    }

    /// The draft with one more command.
    fn with_command(
        self,
        alloc: Global,
        outline: Outline,
        key: Name,
    ) -> Result<PlanDraft, AllocError>
        ensures commands { IfOk result (λ new. HasCommand outline key self.commands
            new.commands) }
        ensures groups { IfOk result (λ new. new.groups ≡ self.groups) }
        ensures pools { IfOk result (λ new. new.pools ≡ self.pools) }
        ensures all { IfOk result (λ new. new.all ≡ self.all) }
        ensures next { IfOk result (λ new. new.next ≡ self.next) }
    {
        Ok(PlanDraft {
            commands: self.commands.with_command(alloc, outline, key)?,
            ..self
        })
    }

    /// The draft whose last command has one more need or take, if that can come next.
    fn with_detail(self, line: PlanLine) -> Result<Option<PlanDraft>, AllocError>
        ensures { IfOk result (HasDetail line self) }
    {
        let Some(commands) = self.commands.with_detail(line)? else {
            return Ok(None);
        };
        Ok(Some(PlanDraft { commands, ..self }))
    }

    /// The draft whose last group has this deadline, if it lacks one.
    fn with_until(self, until: Until) -> Result<Option<PlanDraft>, AllocError>
        ensures { IfOk result (HasLastUntil until self) }
    {
        let Some(groups) = self.groups.with_until(until)? else {
            return Ok(None);
        };
        Ok(Some(PlanDraft {
            groups,
            commands: self.commands.closed(),
            ..self
        }))
    }

    /// The draft with this deadline of all groups, unless it has one.
    fn with_all(self, until: Until) -> Option<PlanDraft>
        ensures { HasAll until self result }
    {
        if self.all.is_some() {
            return None;
        }
        Some(PlanDraft {
            commands: self.commands.closed(),
            all: Some(until),
            ..self
        })
    }

    /// The draft of another night.
    fn with_next(self) -> PlanDraft
        ensures commands { IsClosed self.commands result.commands }
        ensures groups { result.groups ≡ self.groups }
        ensures pools { result.pools ≡ self.pools }
        ensures all { result.all ≡ self.all }
        ensures next { result.next ≡ true }
    {
        PlanDraft {
            commands: self.commands.closed(),
            next: true,
            ..self
        }
    }

    /// Returns the plan of all lines, or says why there is none.
    pub fn finish(self, alloc: Global) -> Result<NightPlan, PlanRefusal>
        ensures { (reports : List ReportOf) → IsPlanned reports self → IsFinished reports result }
    {
        let PlanDraft {
            groups: GroupList {
                groups,
                names,
                untils,
            },
            commands: CommandList {
                commands,
                keys,
                growing: _,
            },
            pools,
            all,
            next,
        } = self;
        if let Some(group) = first_refused(&names) {
            return Err(PlanRefusal::Name(group));
        }
        if let Some(command) = first_twice(&commands, &keys) {
            return Err(PlanRefusal::Twice(command));
        }
        match make_plan(alloc, groups, pools, commands) {
            Ok(plan) => Ok(NightPlan {
                plan,
                groups: names,
                keys,
                untils,
                all,
                next,
            }),
            Err(fault) => Err(PlanRefusal::Fault(fault)),
        }
    }
}

/// The deadline of a line, unless the clock of a store can't come to its moment.
pub(crate) fn until_of(moment: u64, words: Text) -> Option<Until>
    ensures { MatchOption result (GREATEST_MOMENT < moment)
        (λ until. (moment ≤ GREATEST_MOMENT)
        × (until ≡ record { moment = moment; words = words })) }
{
    Some(Until {
        moment: Moment::new(moment)?,
        words,
    })
}
