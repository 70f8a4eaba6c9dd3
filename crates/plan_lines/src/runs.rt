//! A run reads a plan and then rounds, and answers each.

ghost use Rattle.std.specs.Prelude.{◌≡◌, IfErr, OnErr, OnOk};
ghost use Rattle.std.specs.Io.KnownBytes.{Appends};
ghost use Rattle.plan_lines.specs.Answers.{answer_lines};
ghost use Rattle.plan_lines.specs.Runs.{Answers, AnswersRound, BeginsRounds, EndsPart, EndsPlan};
ghost use Rattle.plan_lines.specs.Runs.{EndsRound, Gives, Refuses, Rejects, RunsPlan, Takes};
ghost use Rattle.plan_lines.specs.Runs.{TakesLine};
ghost use Rattle.plan_lines.specs.Writing.{WritesPrefix};

use crate::answers::AnswerLine;
use crate::drafts::Draft;
use crate::flushes::flush_out;
use crate::hearing::{Grown, Heard, Round};
use crate::lines::{PlanLine, read_line};
use crate::readers::{Line, LineReader};
use crate::rounds::{bad_answer, refused_answer, round_answer, taken_answer};
use crate::states::PlanState;
use console_lines::{OutputBuffer, RunFault, make_room};
use night_plan::commands::Plan;
use night_plan::plans::PlanFault;
use std::alloc::Global;
use std::io::{Read, Write};

/// How a run has ended that no fault has stopped.
#[derive(Drop)]
pub enum RunEnd {
    /// The input ended.
    InputEnded,
    /// The plan was refused, and this is why.
    Refused(PlanFault),
    /// The line of this number can't be taken.
    Bad(u64),
}

/// The part of the input that is being read: the plan, or a round.
#[derive(Drop)]
enum InputPart {
    Plan(Draft),
    Round(Round),
}

/// What became of a run after a line.
#[derive(Drop)]
enum Next {
    Part(InputPart),
    End(RunEnd),
}

/// Reads a plan and rounds, and answers each.
///
/// The lines that an LF ends are taken one after another. An empty line ends a part, and the part
/// is answered. The run ends after the last line of the input, with the answer that refuses the
/// plan, or with the answer to a bad line. Lines after the last empty line have no answer, and what
/// comes after the last LF isn't taken at all.
///
/// After a fault, the following was written:
///
/// - `Input` (a read failed) or `InputTooLong` (the input has some 2^64 bytes): the answers to all
///   lines that were read.
/// - `Output` (a write or a flush failed): these answers, up to some byte of the last one.
/// - `Memory`: the answers to all lines before the one for which memory was refused.
///
/// That an answer is flushed, and that it is written before more is read, is tested.
pub fn run<R: Read, W: Write>(
    alloc: Global,
    input: &mut R,
    output: &mut W,
) -> Result<RunEnd, RunFault>
    ensures { RunsPlan result (R.remaining input.old) (R.remaining input.new)
        (W.contents output.old) (W.contents output.new) }
{
    let mut reader = LineReader::new();
    let mut line = Line::new();
    let mut part = InputPart::Plan(Draft::new(alloc));
    for number in 1..u64::MAX {
        let found = reader.next_line(input, &mut line)?;
        if !found {
            return Ok(RunEnd::InputEnded);
        }
        let next = take_line(alloc, part, number, line.as_slice(), output)?;
        match next {
            Next::Part(next) => part = next,
            Next::End(end) => return Ok(end),
        }
    }
    Err(RunFault::InputTooLong)
}

/// Takes a line. If it is empty, a part ends, and is answered.
fn take_line<W: Write>(
    alloc: Global,
    part: InputPart,
    number: u64,
    line: &[u8],
    output: &mut W,
) -> Result<Next, RunFault>
    ensures { Answers (TakesLine part number line.now) result
        (W.contents output.old) (W.contents output.new) }
{
    if line.is_empty() {
        return end_part(alloc, part, output);
    }
    match read_line(line) {
        Some(parsed) => take_parsed(alloc, part, parsed, number, output),
        None => reject(alloc, number, output),
    }
}

/// Takes a line by its meaning.
fn take_parsed<W: Write>(
    alloc: Global,
    part: InputPart,
    parsed: PlanLine,
    number: u64,
    output: &mut W,
) -> Result<Next, RunFault>
    ensures { Answers (Takes part parsed number) result
        (W.contents output.old) (W.contents output.new) }
{
    match part {
        InputPart::Plan(draft) => take_of_plan(alloc, draft, parsed, number, output),
        InputPart::Round(round) => take_of_round(alloc, round, parsed, number, output),
    }
}

/// Takes a line of a plan.
fn take_of_plan<W: Write>(
    alloc: Global,
    draft: Draft,
    parsed: PlanLine,
    number: u64,
    output: &mut W,
) -> Result<Next, RunFault>
    ensures { Answers (Takes (InputPart.Plan draft) parsed number) result
        (W.contents output.old) (W.contents output.new) }
{
    match draft.add(alloc, parsed) {
        Ok(Some(draft)) => Ok(Next::Part(InputPart::Plan(draft))),
        Ok(None) => reject(alloc, number, output),
        Err(_) => Err(RunFault::Memory),
    }
}

/// Takes a line of a round.
fn take_of_round<W: Write>(
    alloc: Global,
    round: Round,
    parsed: PlanLine,
    number: u64,
    output: &mut W,
) -> Result<Next, RunFault>
    ensures { Answers (Takes (InputPart.Round round) parsed number) result
        (W.contents output.old) (W.contents output.new) }
{
    match round.hear(alloc, parsed, number) {
        Ok(Heard::Round(round)) => Ok(Next::Part(InputPart::Round(round))),
        Ok(Heard::Bad(line)) => reject(alloc, line, output),
        Err(_) => Err(RunFault::Memory),
    }
}

/// Answers a bad line.
fn reject<W: Write>(alloc: Global, number: u64, output: &mut W) -> Result<Next, RunFault>
    ensures { Answers (Rejects number) result (W.contents output.old) (W.contents output.new) }
{
    let Ok(lines) = bad_answer(alloc, number) else {
        return Err(RunFault::Memory);
    };
    answered(Next::End(RunEnd::Bad(number)), lines.as_slice(), output)
}

/// Answers a part that is whole.
fn end_part<W: Write>(alloc: Global, part: InputPart, output: &mut W) -> Result<Next, RunFault>
    ensures { Answers (EndsPart part) result (W.contents output.old) (W.contents output.new) }
{
    match part {
        InputPart::Plan(draft) => end_plan(alloc, draft, output),
        InputPart::Round(round) => end_round(alloc, round, output),
    }
}

/// Answers a plan.
fn end_plan<W: Write>(alloc: Global, draft: Draft, output: &mut W) -> Result<Next, RunFault>
    ensures { Answers (EndsPlan draft) result (W.contents output.old) (W.contents output.new) }
{
    match draft.finish(alloc) {
        Ok(plan) => begin_rounds(alloc, plan, output),
        Err(fault) => refuse(alloc, fault, output),
    }
}

/// Answers a plan that is taken.
fn begin_rounds<W: Write>(alloc: Global, plan: Plan, output: &mut W) -> Result<Next, RunFault>
    ensures { Answers (BeginsRounds plan) result (W.contents output.old) (W.contents output.new) }
{
    let Ok(state) = PlanState::begin(alloc, plan) else {
        return Err(RunFault::Memory);
    };
    let Ok(lines) = taken_answer(alloc, &state) else {
        return Err(RunFault::Memory);
    };
    let next = Next::Part(InputPart::Round(Round::new(state)));
    answered(next, lines.as_slice(), output)
}

/// Answers a plan that is refused.
fn refuse<W: Write>(alloc: Global, fault: PlanFault, output: &mut W) -> Result<Next, RunFault>
    ensures { Answers (Refuses fault) result (W.contents output.old) (W.contents output.new) }
{
    let Ok(lines) = refused_answer(alloc, &fault) else {
        return Err(RunFault::Memory);
    };
    answered(Next::End(RunEnd::Refused(fault)), lines.as_slice(), output)
}

/// Answers a round.
fn end_round<W: Write>(alloc: Global, round: Round, output: &mut W) -> Result<Next, RunFault>
    ensures { Answers (EndsRound round) result (W.contents output.old) (W.contents output.new) }
{
    match round.finish() {
        Ok(Grown::State(state)) => answer_round(alloc, state, output),
        Ok(Grown::Bad(line)) => reject(alloc, line, output),
        Err(_) => Err(RunFault::Memory),
    }
}

/// Answers a round in which the plan isn't growing by a command any more.
fn answer_round<W: Write>(alloc: Global, state: PlanState, output: &mut W) -> Result<Next, RunFault>
    ensures { Answers (AnswersRound state) result
        (W.contents output.old) (W.contents output.new) }
{
    let Ok(lines) = round_answer(alloc, &state) else {
        return Err(RunFault::Memory);
    };
    let next = Next::Part(InputPart::Round(Round::new(state.with_question(false))));
    answered(next, lines.as_slice(), output)
}

/// Writes an answer, and returns what comes after it.
fn answered<W: Write>(next: Next, lines: &[AnswerLine], output: &mut W) -> Result<Next, RunFault>
    ensures { Answers (Gives next lines.now) result
        (W.contents output.old) (W.contents output.new) }
{
    match write_answer(lines, output) {
        Ok(()) => Ok(next),
        Err(fault) => Err(fault),
    }
}

/// Writes an answer, and flushes the output.
fn write_answer<W: Write>(lines: &[AnswerLine], output: &mut W) -> Result<(), RunFault>
    ensures whole { OnOk result (Appends (W.contents output.old) (W.contents output.new)
        (answer_lines lines.now)) }
    ensures prefix { OnErr result (WritesPrefix (W.contents output.old) (W.contents output.new)
        (answer_lines lines.now)) }
    ensures fault { IfErr result (λ fault. fault ≡ RunFault.Output) }
{
    let mut buffer = OutputBuffer::new();
    for line in lines {
        make_room(&mut buffer, output)?;
        line.append(&mut buffer);
    }
    flush_out(&mut buffer, output)?;
    Ok(())
}
