//! The answer to a part of the input: its lines are made, written one after another, and flushed.

ghost use Rattle.std.specs.Prelude.{◌≡◌, ◌∷◌, IfErr, IfOk, OnErr, OnOk, []};
ghost use Rattle.std.specs.Io.KnownBytes.{Appends};
ghost use Rattle.plan_lines.specs.Writing.{WritesPrefix};
ghost use Rattle.drive_lines.specs.Orders.{order_lines};
ghost use Rattle.drive_runs.specs.Answers.{Hinders, IsSilent, Says, end_line};
ghost use Rattle.drive_runs.specs.declared.openings.Hindrance.TheVariants as hindrance;

use crate::drive_ends::DriveEnd;
use crate::openings::Hindrance;
use crate::parts::Next;
use console_lines::{OutputBuffer, RunFault};
use drive_lines::orders::{Order, write_order};
use plan_lines::answers::AnswerLine;
use plan_lines::flushes::flush_out;
use run_model::Fault;
use std::alloc::{AllocError, Global};
use std::io::Write;

/// An answer, and what becomes of the run after it.
#[derive(Drop)]
pub struct Answer {
    /// The lines, with the empty one at the end. There are none if nothing is answered yet.
    pub lines: Vec<Order>,
    pub next: Next,
}

/// Nothing is answered.
pub fn nothing(alloc: Global, next: Next) -> Answer
    ensures { IsSilent next result }
{
    Answer {
        lines: Vec::new(alloc),
        next,
    }
}

/// An answer of one line, and the empty one.
pub fn end_with(alloc: Global, line: Order, next: Next) -> Result<Answer, AllocError>
    ensures { IfOk result (Says line next) }
{
    let lines = one_line(alloc, line)?;
    Ok(Answer { lines, next })
}

/// The lines of an answer of one line: this one, and the empty one.
pub fn one_line(alloc: Global, line: Order) -> Result<Vec<Order>, AllocError>
    ensures { IfOk result (λ lines. lines.items ≡ line ∷ end_line ∷ []) }
{
    let mut lines = Vec::new(alloc);
    lines.push(line)?;
    lines.push(Order::Answer(AnswerLine::End))?;
    Ok(lines)
}

/// The answer of a run that something hinders.
pub fn hindered(alloc: Global, hindrance: Hindrance) -> Result<Answer, AllocError>
    ensures { IfOk result (Hinders hindrance) }
{
    match hindrance {
        Hindrance::Full => end_with(alloc, Order::Full, Next::End(DriveEnd::Full)),
        Hindrance::Fault(fault) => fail(alloc, fault),
    }
}

/// The answer of a run that a fault of the store ends.
pub fn fail(alloc: Global, fault: Fault) -> Result<Answer, AllocError>
    ensures { IfOk result (Hinders (hindrance.Fault fault)) }
{
    end_with(
        alloc,
        Order::Fault(fault),
        Next::Fault(RunFault::from(fault)),
    )
}

/// Writes the lines of an answer, and flushes the output. `Output` if a write fails or takes
/// nothing; then a prefix of the answer was written.
pub fn write_answer<W: Write>(lines: &[Order], output: &mut W) -> Result<(), RunFault>
    ensures whole { OnOk result (Appends (W.contents output.old) (W.contents output.new)
        (order_lines lines.now)) }
    ensures prefix { OnErr result (WritesPrefix (W.contents output.old) (W.contents output.new)
        (order_lines lines.now)) }
    ensures fault { IfErr result (λ fault. fault ≡ RunFault.Output) }
{
    let mut buffer = OutputBuffer::new();
    for line in lines {
        write_order(line, &mut buffer, output)?;
    }
    flush_out(&mut buffer, output)?;
    Ok(())
}
