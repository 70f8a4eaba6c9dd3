//! A [`PlanState`] is a plan that was accepted, and all that was heard since.

ghost use Rattle.std.specs.Prelude.{◌<◌, ◌^◌, ◌≡◌, ◌++◌, ◌∷◌, [], length, IfOk, MatchOption};
ghost use Rattle.std.specs.Prelude.{false};
ghost use Rattle.night_plan.specs.Growth.{fresh_row};
ghost use Rattle.night_plan.specs.Nights.{AreFacts};
ghost use Rattle.night_plan.specs.Ranks.{IsKnown};

use crate::lines::PlanLine;
use crate::notes::note;
use night_plan::commands::{Command, Group, Plan};
use night_plan::facts::{Facts, Known, Phase};
use night_plan::growth::{with_command, with_group};
use night_plan::plans::growth_fault;
use std::alloc::{AllocError, Global};

/// A plan, the facts that were heard, and the time.
#[derive(Drop)]
pub struct PlanState {
    pub plan: Plan,
    pub facts: Facts,
    pub time: u64,
    /// Whether the round asks how each command stands.
    pub asked: bool,
    pub ghost moment: { time < 2 ^ 63 },
    pub ghost rows: { AreFacts plan facts },
}

/// The latest time that a line can report.
const LATEST: u64 = 999_999_999_999;

/// What is known about a command at first.
const NOTHING: Known = Known {
    phase: Phase::Fresh,
    failures: 0,
    canceled: false,
};

impl PlanState {
    ghost use Rattle.plan_lines.specs.Facts.{Notes};
    ghost use Rattle.plan_lines.specs.States.{HasFact, HasNewCommand, HasNewGroup};
    ghost use Rattle.plan_lines.specs.States.{HasQuestion, HasTime, IsBegun, MayGrow};

    /// The state of a plan about which nothing was heard yet.
    pub fn begin(alloc: Global, plan: Plan) -> Result<PlanState, AllocError>
        ensures { IfOk result (IsBegun plan) }
    {
        let known = vec![in alloc; NOTHING; plan.commands.len()]?;
        let done = vec![in alloc; false; plan.groups.len()]?;
        let sizes = Vec::from_slice(alloc, plan.pools.as_slice())?;
        Ok(PlanState {
            plan,
            facts: Facts { known, done, sizes },
            time: 0,
            asked: false,
        })
    }

    /// The state with the question how each command stands, or without it.
    pub fn with_question(self, asked: bool) -> PlanState
        ensures { HasQuestion asked self result }
    {
        let PlanState {
            plan,
            facts,
            time,
            asked: _,
        } = self;
        PlanState {
            plan,
            facts,
            time,
            asked,
        }
    }

    /// The state at a later time.
    pub fn at(self, moment: u64) -> PlanState
        ensures { HasTime moment self result }
    {
        let PlanState {
            plan,
            facts,
            time,
            asked,
        } = self;
        let time = time.max(moment.min(LATEST));
        PlanState {
            plan,
            facts,
            time,
            asked,
        }
    }

    /// Returns the state with one more fact, or `None` if nothing exists that the fact is about.
    pub fn with_fact(self, line: PlanLine) -> Option<PlanState>
        ensures { MatchOption result (Notes false line self.facts self.facts)
            (HasFact line self) }
    {
        let PlanState {
            plan,
            mut facts,
            time,
            asked,
        } = self;
        if !note(&mut facts, line) {
            return None;
        }
        Some(PlanState {
            plan,
            facts,
            time,
            asked,
        })
    }

    /// The state whose plan has one more group.
    pub fn with_group(self, group: Group) -> Result<PlanState, AllocError>
        ensures { IfOk result (HasNewGroup group self) }
    {
        let PlanState {
            plan,
            facts,
            time,
            asked,
        } = self;
        let facts = facts_of_group(facts)?;
        let plan = with_group(plan, group)?;
        Ok(PlanState {
            plan,
            facts,
            time,
            asked,
        })
    }

    /// Returns whether the plan may grow by a command, which has to name only what exists, and to
    /// take no more of a pool than the size that the plan says.
    pub fn may_grow(&self, command: &Command) -> bool
        ensures { MayGrow result self.now.plan command.now }
    {
        growth_fault(&self.plan, command).is_none()
    }

    /// The state whose plan has one more command, which names only what exists.
    pub fn with_command(self, command: Command) -> Result<PlanState, AllocError>
        requires { IsKnown (length self.plan.groups.items) (length self.plan.commands.items)
            (length self.plan.pools.items) command }
        ensures { IfOk result (HasNewCommand command self) }
    {
        let PlanState {
            plan,
            facts,
            time,
            asked,
        } = self;
        let facts = facts_of_command(facts)?;
        let plan = with_command(plan, command)?;
        Ok(PlanState {
            plan,
            facts,
            time,
            asked,
        })
    }
}

/// The facts with a row for one more command, about which nothing is known yet.
fn facts_of_command(facts: Facts) -> Result<Facts, AllocError>
    ensures known { IfOk result (λ new. new.known.items
        ≡ facts.known.items ++ fresh_row ∷ []) }
    ensures done { IfOk result (λ new. new.done ≡ facts.done) }
    ensures sizes { IfOk result (λ new. new.sizes ≡ facts.sizes) }
{
    let Facts {
        mut known,
        done,
        sizes,
    } = facts;
    known.push(NOTHING)?;
    Ok(Facts { known, done, sizes })
}

/// The facts with a row for one more group, which isn't done.
fn facts_of_group(facts: Facts) -> Result<Facts, AllocError>
    ensures known { IfOk result (λ new. new.known ≡ facts.known) }
    ensures done { IfOk result (λ new. new.done.items ≡ facts.done.items ++ false ∷ []) }
    ensures sizes { IfOk result (λ new. new.sizes ≡ facts.sizes) }
{
    let Facts {
        known,
        mut done,
        sizes,
    } = facts;
    done.push(false)?;
    Ok(Facts { known, done, sizes })
}
