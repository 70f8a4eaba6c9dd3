//! A [`HeardDraft`] holds what was reported in a round while its lines are read.

ghost use Rattle.std.specs.Prelude.{◌≡◌, [], IfOk, List, ℕ};
ghost use Rattle.drive_lines.specs.declared.reports.Report.{Report as ReportOf};
ghost use Rattle.drive_lines.specs.declared.reports.Report.TheVariants as report;
ghost use Rattle.drive_parts.specs.declared.plans.NightPlan.{NightPlan as NightPlanOf};
ghost use Rattle.drive_parts.specs.Rounds.{ArePartsOf, Hears, HearsFact, IsHeard, IsRoundOf};
ghost use Rattle.drive_parts.specs.Rounds.{draft_of};

use crate::growth::Growth;
use crate::heard::{Counts, Heard, fact_of, note};
use crate::plans::{NightPlan, until_of};
use drive_lines::reports::Report;
use plan_lines::lines::PlanLine;
use std::alloc::{AllocError, Global};

/// What was read of a round.
#[derive(Drop)]
pub struct HeardDraft {
    /// The plan, as it has grown in the round.
    pub growth: Growth,
    pub heard: Heard,
    /// The tasks of the tries that lived before the round.
    pub living: Vec<u16>,
}

/// What a round came to.
#[derive(Drop)]
pub struct Round {
    /// The plan, as it has grown.
    pub plan: NightPlan,
    pub heard: Heard,
}

impl HeardDraft {
    /// A round without any lines, for this plan and for these tasks, whose tries live.
    pub fn new(alloc: Global, plan: NightPlan, living: Vec<u16>) -> HeardDraft
        ensures { IsHeard plan living.items [] result }
    {
        HeardDraft {
            growth: Growth::new(plan),
            heard: Heard::new(alloc),
            living,
        }
    }

    /// Returns the draft with one more line, or `None` if the line can't come next.
    pub fn hear(self, alloc: Global, report: Report) -> Result<Option<HeardDraft>, AllocError>
        ensures { IfOk result (λ draft. (old : NightPlanOf) (tasks : List ℕ)
            (reports : List ReportOf) → IsHeard old tasks reports self
            → Hears old tasks reports report draft) }
    {
        if let Report::Plan(line) = report {
            return self.hear_line(line);
        }
        let HeardDraft {
            growth,
            heard,
            living,
        } = self;
        let growth = growth.closed()?;
        match report {
            Report::Group(group, name) => {
                Ok(grown(growth.with_group(group, name)?, heard, living))
            }
            Report::Command(outline, key) => {
                Ok(grown(growth.with_command(alloc, outline, key), heard, living))
            }
            Report::Until(moment, words) => match until_of(moment, words) {
                Some(until) => Ok(grown(growth.with_until(until)?, heard, living)),
                None => Ok(None),
            },
            _ => hear_fact(growth, heard, living, report),
        }
    }

    /// Returns the draft with one more line that is spelled as in a plan, or `None` if the line
    /// can't come next.
    fn hear_line(self, line: PlanLine) -> Result<Option<HeardDraft>, AllocError>
        ensures { IfOk result (λ draft. (old : NightPlanOf) (tasks : List ℕ)
            (reports : List ReportOf) → IsHeard old tasks reports self
            → Hears old tasks reports (report.Plan line) draft) }
    {
        let HeardDraft {
            growth,
            heard,
            living,
        } = self;
        match line {
            PlanLine::Pool(size) => {
                let growth = growth.closed()?.with_pool(size)?;
                Ok(grown(Some(growth), heard, living))
            }
            PlanLine::Need(need) => {
                let line = PlanLine::Need(need);
                Ok(grown(growth.with_detail(line)?, heard, living))
            }
            PlanLine::Take(take) => {
                let line = PlanLine::Take(take);
                Ok(grown(growth.with_detail(line)?, heard, living))
            }
            _ => hear_fact(growth.closed()?, heard, living, Report::Plan(line)),
        }
    }

    /// Returns the plan as it has grown, and what was reported.
    pub fn finish(self) -> Result<Round, AllocError>
        ensures { IfOk result (λ round. (old : NightPlanOf) (tasks : List ℕ)
            (reports : List ReportOf) → IsHeard old tasks reports self
            → IsRoundOf old reports round) }
    {
        let HeardDraft {
            growth,
            heard,
            living: _,
        } = self;
        let Growth { plan, .. } = growth.closed()?;
        Ok(Round { plan, heard })
    }
}

/// The draft with a plan that has grown, if it has.
fn grown(growth: Option<Growth>, heard: Heard, living: Vec<u16>) -> Option<HeardDraft>
    ensures { result ≡ draft_of growth heard living }
{
    let Some(growth) = growth else {
        return None;
    };
    Some(HeardDraft {
        growth,
        heard,
        living,
    })
}

/// The draft with one more line, which doesn't say how the plan grows.
fn hear_fact(
    growth: Growth,
    heard: Heard,
    living: Vec<u16>,
    report: Report,
) -> Result<Option<HeardDraft>, AllocError>
    ensures { IfOk result (λ draft. (old : NightPlanOf) (tasks : List ℕ)
        (reports : List ReportOf) → ArePartsOf old tasks reports growth heard living.items
        → HearsFact old tasks reports report draft) }
{
    let mut heard = heard;
    let counts = Counts {
        groups: growth.plan.plan.groups.len(),
        commands: growth.plan.plan.commands.len(),
        pools: growth.plan.plan.pools.len(),
    };
    let Some(fact) = fact_of(counts, &living, &heard, report) else {
        return Ok(None);
    };
    note(&mut heard, fact)?;
    Ok(Some(HeardDraft {
        growth,
        heard,
        living,
    }))
}
