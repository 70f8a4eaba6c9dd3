//! The answer to a plan and to a round, line by line.

ghost use Rattle.std.specs.Prelude.{◌≡◌, ◌++◌, ◌∷◌, [], IfOk, OnOk, length, map};
ghost use Rattle.plan_lines.specs.Rounds.{AsksAppended, IsAnswer, Stated, later_lines};
ghost use Rattle.plan_lines.specs.Rounds.{refusal_lines, standing_lines};
ghost use Rattle.plan_lines.specs.LineKinds.{line_of_kind};

use crate::answers::AnswerLine;
use crate::states::PlanState;
use night_plan::choices::choose;
use night_plan::plans::PlanFault;
use night_plan::standings::{Standing, standings};
use night_plan::stops::to_stop;
use std::alloc::{AllocError, Global};

/// The answer to a plan that was taken.
pub fn taken_answer(alloc: Global, state: &PlanState) -> Result<Vec<AnswerLine>, AllocError>
    ensures { IfOk result (λ lines. lines.items
        ≡ AnswerLine.Plan (length state.now.plan.commands.items) ∷ AnswerLine.End ∷ []) }
{
    let mut lines = Vec::new(alloc);
    lines.push(AnswerLine::Plan(state.plan.commands.len()))?;
    lines.push(AnswerLine::End)?;
    Ok(lines)
}

/// The answer to a plan that is refused. If memory was refused, there is none.
pub fn refused_answer(alloc: Global, fault: &PlanFault) -> Result<Vec<AnswerLine>, AllocError>
    ensures { IfOk result (λ lines. lines.items ≡ refusal_lines fault.now) }
{
    let mut lines = Vec::new(alloc);
    match fault {
        PlanFault::Memory => return Err(AllocError),
        PlanFault::Unknown(command) => lines.push(AnswerLine::Unknown(*command))?,
        PlanFault::TooMuch(command) => lines.push(AnswerLine::TooMuch(*command))?,
        PlanFault::Circle(members) => {
            lines.push(AnswerLine::Circle)?;
            push_each(&mut lines, members.as_slice(), LineKind::Member)?;
        }
    }
    lines.push(AnswerLine::End)?;
    Ok(lines)
}

/// What a line says about a command.
#[derive(Clone, Copy)]
enum LineKind {
    Member,
    Begin,
    Stop,
}

/// The line of this kind about a command.
fn line_of(kind: LineKind, command: usize) -> AnswerLine
    ensures { result ≡ line_of_kind kind command }
{
    match kind {
        LineKind::Member => AnswerLine::Member(command),
        LineKind::Begin => AnswerLine::Begin(command),
        LineKind::Stop => AnswerLine::Stop(command),
    }
}

/// Appends a line for each of these commands.
fn push_each(
    lines: &mut Vec<AnswerLine>,
    commands: &[usize],
    kind: LineKind,
) -> Result<(), AllocError>
    ensures { OnOk result (lines.new.items
        ≡ lines.old.items ++ map (line_of_kind kind) commands.now) }
{
    for command in commands {
        lines.push(line_of(kind, *command))?;
    }
    Ok(())
}

/// The answer to a round.
pub fn round_answer(alloc: Global, state: &PlanState) -> Result<Vec<AnswerLine>, AllocError>
    ensures { IfOk result (λ lines. IsAnswer state.now lines.items) }
{
    let choice = choose(alloc, &state.plan, &state.facts, state.time)?;
    let stops = to_stop(alloc, &state.plan, &state.facts)?;
    let mut lines = Vec::new(alloc);
    push_each(&mut lines, choice.commands.as_slice(), LineKind::Begin)?;
    push_each(&mut lines, stops.as_slice(), LineKind::Stop)?;
    push_later(&mut lines, choice.later)?;
    push_asked(alloc, &mut lines, state)?;
    lines.push(AnswerLine::End)?;
    Ok(lines)
}

/// Appends the line of a later moment, if there is one.
fn push_later(lines: &mut Vec<AnswerLine>, later: Option<u64>) -> Result<(), AllocError>
    ensures { OnOk result (lines.new.items ≡ lines.old.items ++ later_lines later) }
{
    match later {
        Some(moment) => lines.push(AnswerLine::Later(moment))?,
        None => {}
    }
    Ok(())
}

/// Appends how each command stands, if the round asks for it.
fn push_asked(
    alloc: Global,
    lines: &mut Vec<AnswerLine>,
    state: &PlanState,
) -> Result<(), AllocError>
    ensures { OnOk result (AsksAppended state.now lines.old.items lines.new.items) }
{
    if state.asked {
        push_standings(alloc, lines, state)?;
    }
    Ok(())
}

/// Appends how each command stands.
fn push_standings(
    alloc: Global,
    lines: &mut Vec<AnswerLine>,
    state: &PlanState,
) -> Result<(), AllocError>
    ensures { OnOk result (Stated state.now lines.old.items lines.new.items) }
{
    let all = standings(alloc, &state.plan, &state.facts, state.time)?;
    push_all_standings(lines, all.as_slice())
}

/// Appends a line for the standing of each command.
fn push_all_standings(lines: &mut Vec<AnswerLine>, all: &[Standing]) -> Result<(), AllocError>
    ensures { OnOk result (lines.new.items ≡ lines.old.items ++ standing_lines 0 all.now) }
{
    for (command, standing) in all.iter().enumerate() {
        lines.push(AnswerLine::Stands(command, *standing))?;
    }
    Ok(())
}

/// The answer to a line that can't be taken.
pub fn bad_answer(alloc: Global, number: u64) -> Result<Vec<AnswerLine>, AllocError>
    ensures { IfOk result (λ lines. lines.items
        ≡ AnswerLine.Bad number ∷ AnswerLine.End ∷ []) }
{
    let mut lines = Vec::new(alloc);
    lines.push(AnswerLine::Bad(number))?;
    lines.push(AnswerLine::End)?;
    Ok(lines)
}
