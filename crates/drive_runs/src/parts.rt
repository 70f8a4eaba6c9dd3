//! The parts of an input are read line by line, and answered when they end.

ghost use Rattle.std.specs.Prelude.{◌≡◌, IfOk};
ghost use Rattle.std.specs.Option.{option_map};
ghost use Rattle.drive_runs.specs.declared.parts.Part.TheVariants as part;
ghost use Rattle.drive_runs.specs.Parts.{AnswersLine, AnswersMore, AnswersPart, Gains, Gives};
ghost use Rattle.drive_runs.specs.Parts.{HearsIn, LeavesAlone, Rejects, TakesLine};
ghost use Rattle.drive_runs.specs.Moving.{Moves};

use crate::answers::{Answer, end_with, nothing, write_answer};
use crate::drive_ends::DriveEnd;
use crate::nights::living_of;
use crate::plan_parts::end_plan;
use crate::round_parts::{Rest, RoundKind, end_round};
use crate::sittings::{Kept, Sitting};
use console_lines::RunFault;
use drive_lines::fields::TryName;
use drive_lines::inputs::NextLine;
use drive_lines::orders::Order;
use drive_lines::reports::Report;
use drive_parts::lives::LivesDraft;
use drive_parts::plans::PlanDraft;
use drive_parts::rounds::HeardDraft;
use plan_lines::answers::AnswerLine;
use run_book::Book;
use run_disk::RunDisk;
use run_session::State;
use std::alloc::{AllocError, Allocator, Global};
use std::io::Write;

/// The part of the input that is being read.
#[derive(Drop)]
pub enum Part {
    Plan(PlanDraft),
    /// The first round, in which tries of earlier sessions can be named.
    First(Kept, LivesDraft, HeardDraft),
    Round(Kept, HeardDraft),
}

/// What becomes of a run after a line.
#[derive(Drop)]
pub enum Next {
    Part(Part),
    /// What was recorded has to be made durable, and the store has to be opened again. Then the
    /// round goes on.
    Opening(Sitting, Rest),
    End(DriveEnd),
    Fault(RunFault),
}

/// Writes an answer, if it has lines.
pub fn give<W: Write>(answer: Answer, output: &mut W) -> Result<Next, RunFault>
    ensures { Gives answer (W.contents output.old) (W.contents output.new) result }
{
    let Answer { lines, next } = answer;
    if !lines.is_empty() {
        write_answer(lines.as_slice(), output)?;
    }
    Ok(next)
}

/// Takes what comes next in the input, and writes the answer to it, if there is one.
pub fn take_line<D: RunDisk, A: Allocator, W: Write>(
    alloc: Global,
    book: &mut Book<D, A>,
    part: Part,
    found: NextLine,
    number: u64,
    output: &mut W,
) -> Result<Next, RunFault>
    ensures taken { TakesLine D.state part found number book.old book.new
        (W.contents output.old) (W.contents output.new) result }
    ensures alone { LeavesAlone found book.old book.new }
    ensures moves { Moves D.state book.old book.new }
{
    match answer_to(alloc, book, part, found, number) {
        Ok(answer) => give(answer, output),
        Err(_) => Err(RunFault::Memory),
    }
}

/// Returns the answer to what comes next in the input.
#[tactic(auto, using(crate::proofs::Moving::moves_none))]
fn answer_to<D: RunDisk, A: Allocator>(
    alloc: Global,
    book: &mut Book<D, A>,
    part: Part,
    found: NextLine,
    number: u64,
) -> Result<Answer, AllocError>
    ensures answered { IfOk result (λ answer.
        AnswersLine D.state part found number book.old answer book.new) }
    ensures alone { LeavesAlone found book.old book.new }
    ensures moves { Moves D.state book.old book.new }
{
    match found {
        NextLine::InputEnded => Ok(nothing(alloc, Next::End(DriveEnd::InputEnded))),
        NextLine::Bad => reject(alloc, number),
        NextLine::PartEnded => end_part(alloc, book, part),
        NextLine::Report(report) => {
            let more = add(alloc, book.state(), part, report)?;
            answer_more(alloc, more, number)
        }
    }
}

/// Nothing is answered to a line that was added to its part. One that can't come next is bad.
fn answer_more(alloc: Global, more: Option<Part>, number: u64) -> Result<Answer, AllocError>
    ensures { IfOk result (AnswersMore number more) }
{
    match more {
        Some(part) => Ok(nothing(alloc, Next::Part(part))),
        None => reject(alloc, number),
    }
}

/// Returns the part with one more line, or `None` if the line can't come next.
fn add<A: Allocator>(
    alloc: Global,
    state: &State<A>,
    part: Part,
    report: Report,
) -> Result<Option<Part>, AllocError>
    ensures { IfOk result (Gains part report) }
{
    match part {
        Part::Plan(draft) => {
            let drafts = draft.add(alloc, report)?;
            Ok(plan_part(drafts))
        }
        Part::First(kept, lives, heard) => add_first(alloc, state, kept, lives, heard, report),
        Part::Round(kept, heard) => {
            let drafts = heard.hear(alloc, report)?;
            Ok(round_part(kept, drafts))
        }
    }
}

/// The part of a plan of which this was read, if it was.
fn plan_part(draft: Option<PlanDraft>) -> Option<Part>
    ensures { result ≡ option_map part.Plan draft }
{
    match draft {
        Some(draft) => Some(Part::Plan(draft)),
        None => None,
    }
}

/// The part of a round of which this was read, if it was.
fn round_part(kept: Kept, heard: Option<HeardDraft>) -> Option<Part>
    ensures { result ≡ option_map (part.Round kept) heard }
{
    match heard {
        Some(heard) => Some(Part::Round(kept, heard)),
        None => None,
    }
}

/// The part of a first round of which this was read, if it was.
fn first_part(kept: Kept, lives: LivesDraft, heard: Option<HeardDraft>) -> Option<Part>
    ensures { result ≡ option_map (part.First kept lives) heard }
{
    match heard {
        Some(heard) => Some(Part::First(kept, lives, heard)),
        None => None,
    }
}

/// Returns the first round with one more line, or `None` if the line can't come next.
fn add_first<A: Allocator>(
    alloc: Global,
    state: &State<A>,
    kept: Kept,
    lives: LivesDraft,
    heard: HeardDraft,
    report: Report,
) -> Result<Option<Part>, AllocError>
    ensures { IfOk result (Gains (part.First kept lives heard) report) }
{
    match report {
        Report::Lives(named) => add_living(state, kept, lives, heard, named),
        _ => {
            let drafts = heard.hear(alloc, report)?;
            Ok(first_part(kept, lives, drafts))
        }
    }
}

/// Returns the first round with a try that lives, or `None` if it can't be named so.
fn add_living<A: Allocator>(
    state: &State<A>,
    kept: Kept,
    lives: LivesDraft,
    heard: HeardDraft,
    named: TryName,
) -> Result<Option<Part>, AllocError> {
    let Some(living) = living_of(state, &heard.growth.plan, kept.night, &named) else {
        return Ok(None);
    };
    let Some(lives) = lives.add(Report::Lives(named))? else {
        return Ok(None);
    };
    let mut kept = kept;
    kept.living.push(living)?;
    Ok(Some(Part::First(kept, lives, heard)))
}

/// Answers a bad line.
fn reject(alloc: Global, number: u64) -> Result<Answer, AllocError>
    ensures { IfOk result (Rejects number) }
{
    end_with(
        alloc,
        Order::Answer(AnswerLine::Bad(number)),
        Next::End(DriveEnd::Bad(number)),
    )
}

/// Answers a part that is whole.
fn end_part<D: RunDisk, A: Allocator>(
    alloc: Global,
    book: &mut Book<D, A>,
    part: Part,
) -> Result<Answer, AllocError>
    ensures answered { IfOk result (λ answer.
        AnswersPart D.state part book.old answer book.new) }
    ensures moves { Moves D.state book.old book.new }
{
    match part {
        Part::Plan(draft) => end_plan(alloc, book, draft),
        Part::First(kept, _, heard) => end_round(alloc, book, kept, heard, RoundKind::First),
        Part::Round(kept, heard) => end_round(alloc, book, kept, heard, RoundKind::Later),
    }
}
