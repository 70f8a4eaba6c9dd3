//! A [`Round`] is the state of a plan, and the command that the plan is growing by.

ghost use Rattle.std.specs.Prelude.{◌≡◌, IfOk, None};
ghost use Rattle.plan_lines.specs.Commands.{Extends};
ghost use Rattle.plan_lines.specs.Hearing.{Grows, GrowsOn, Hears, HearsAlone};

use crate::drafts::{command_of, extended};
use crate::lines::PlanLine;
use crate::states::PlanState;
use night_plan::commands::Command;
use std::alloc::{AllocError, Global};

/// A command that the plan is growing by, and the number of its line. It is added as soon as a line
/// follows that is neither a `need` nor a `take`.
#[derive(Drop)]
pub struct Growth {
    pub command: Command,
    pub line: u64,
}

/// The state of a plan in a round.
#[derive(Drop)]
pub struct Round {
    pub state: PlanState,
    pub growth: Option<Growth>,
}

/// What became of a round after a line.
#[derive(Drop)]
pub enum Heard {
    Round(Round),
    /// The line of this number can't be taken.
    Bad(u64),
}

/// What became of the state of a plan after a line.
#[derive(Drop)]
pub enum Grown {
    State(PlanState),
    /// The line of this number can't be taken.
    Bad(u64),
}

impl Round {
    /// A round in which nothing was heard.
    pub fn new(state: PlanState) -> Round
        ensures { result ≡ record { state = state; growth = None } }
    {
        Round {
            state,
            growth: None,
        }
    }

    /// The round after a line of this number.
    pub fn hear(self, alloc: Global, line: PlanLine, number: u64) -> Result<Heard, AllocError>
        ensures { IfOk result (Hears line number self) }
    {
        match line {
            PlanLine::Need(_) | PlanLine::Take(_) => self.grow(line, number),
            _ => match self.finish()? {
                Grown::State(state) => hear_alone(alloc, state, line, number),
                Grown::Bad(line) => Ok(Heard::Bad(line)),
            },
        }
    }

    /// The round in which the command has one more need or take.
    fn grow(self, line: PlanLine, number: u64) -> Result<Heard, AllocError>
        ensures { IfOk result (GrowsOn line number self) }
    {
        let Round { state, growth } = self;
        let Some(growth) = growth else {
            return Ok(Heard::Bad(number));
        };
        let growth = Some(with_line(growth, line)?);
        Ok(Heard::Round(Round { state, growth }))
    }

    /// The state with the command that the plan was growing by.
    pub fn finish(self) -> Result<Grown, AllocError>
        ensures { IfOk result (Grows self.growth self.state) }
    {
        let Round { state, growth } = self;
        let Some(growth) = growth else {
            return Ok(Grown::State(state));
        };
        let Growth { command, line } = growth;
        if !state.may_grow(&command) {
            return Ok(Grown::Bad(line));
        }
        Ok(Grown::State(state.with_command(command)?))
    }
}

/// The growth with one more need or take.
fn with_line(growth: Growth, given: PlanLine) -> Result<Growth, AllocError>
    ensures command { IfOk result (λ new. Extends given growth.command new.command) }
    ensures line { IfOk result (λ new. new.line ≡ growth.line) }
{
    let Growth { command, line } = growth;
    let command = extended(command, given)?;
    Ok(Growth { command, line })
}

/// The round after a line, while the plan is growing by no command.
fn hear_alone(
    alloc: Global,
    state: PlanState,
    line: PlanLine,
    number: u64,
) -> Result<Heard, AllocError>
    ensures { IfOk result (HearsAlone line number state) }
{
    match line {
        PlanLine::Command(outline) => {
            let command = command_of(alloc, outline);
            let growth = Some(Growth {
                command,
                line: number,
            });
            Ok(Heard::Round(Round { state, growth }))
        }
        PlanLine::Group(group) => Ok(Heard::Round(Round::new(state.with_group(group)?))),
        PlanLine::Now(moment) => Ok(Heard::Round(Round::new(state.at(moment)))),
        PlanLine::Standings => Ok(Heard::Round(Round::new(state.with_question(true)))),
        _ => Ok(match state.with_fact(line) {
            Some(state) => Heard::Round(Round::new(state)),
            None => Heard::Bad(number),
        }),
    }
}
