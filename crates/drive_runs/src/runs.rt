//! A run reads a plan and rounds, drives a night over a store, and answers each part.
//!
//! The store is opened before anything is read, and opened again in the same run if a round needs
//! it: if the end of a try isn't known, or if the log of the session is full.

ghost use Rattle.std.specs.Prelude.{ℕ, List, Option};
ghost use Rattle.plan_lines.specs.Reading.{held};
ghost use Rattle.drive_runs.specs.Moving.{Moves};
ghost use Rattle.drive_runs.specs.Runs.{AnswersFirst, IsAt, LeavesDriven, Place, Settles, Sits};
ghost use Rattle.drive_runs.specs.Runs.{doing_at};

use crate::answers::{one_line, write_answer};
use crate::drive_ends::DriveEnd;
use crate::parts::{Next, Part, give, take_line};
use crate::round_parts::{Rest, resume};
use crate::sittings::Sitting;
use console_lines::RunFault;
use drive_lines::inputs::next_report;
use drive_lines::orders::Order;
use drive_parts::plans::PlanDraft;
use plan_lines::readers::LineReader;
use run_book::Book;
use run_disk::RunDisk;
use run_model::Trouble;
use std::alloc::{Allocator, Global};
use std::io::{Read, Write};

/// Where a run goes on when the store is open.
#[derive(Drop)]
enum Start {
    /// Lines of this part come next.
    Part(Part),
    /// This round was recorded before the store was opened again, and isn't answered yet.
    Recorded(Sitting, Rest),
}

/// How a run over one opening of the store has ended.
#[derive(Drop)]
enum Sat {
    /// The store has to be opened again.
    Opening(Sitting, Rest),
    End(DriveEnd),
}

/// Opens the store on a disk, and drives a night over it. If the store can't be opened, nothing is
/// read or written. The disk is returned as the last book left it.
///
/// The lines that an LF ends are taken one after another. An empty line ends a part, and the part
/// is answered. What comes after the last empty line isn't answered, and nothing of it is recorded.
/// Nothing is written but answers. If the run ends with a fault, the last one may be cut off.
pub fn drive<D: RunDisk, R: Read, W: Write>(
    alloc: Global,
    disk: D,
    input: &mut R,
    output: &mut W,
) -> (Result<DriveEnd, RunFault>, D)
    ensures { LeavesDriven D.state disk result.1 (R.remaining input.old) (R.remaining input.new)
        (W.contents output.old) (W.contents output.new) result.0 }
{
    let mut disk = disk;
    let mut reader = LineReader::new();
    let mut number = 0;
    let mut start = Start::Part(Part::Plan(PlanDraft::new(alloc)));
    for _turn in 0..u64::MAX {
        let mut book = match Book::open(alloc, disk) {
            Ok(book) => book,
            Err((fault, left)) => return (Err(RunFault::from(fault)), left),
        };
        let sat = sit(
            alloc,
            &mut book,
            start,
            &mut reader,
            &mut number,
            input,
            output,
        );
        disk = book.into_disk();
        match sat {
            Ok(Sat::Opening(sitting, rest)) => start = Start::Recorded(sitting, rest),
            Ok(Sat::End(end)) => return (Ok(end), disk),
            Err(fault) => return (Err(fault), disk),
        }
    }
    (Err(RunFault::InputTooLong), disk)
}

/// Answers the round that was recorded before the store was opened again, if there is one.
#[tactic(auto, using(crate::proofs::Moving::moves_none))]
fn begin<D: RunDisk, A: Allocator, W: Write>(
    alloc: Global,
    book: &mut Book<D, A>,
    start: Start,
    output: &mut W,
) -> Result<Next, RunFault>
    ensures first { AnswersFirst D.state start book.old book.new (W.contents output.old)
        (W.contents output.new) result }
    ensures moves { Moves D.state book.old book.new }
{
    match start {
        Start::Part(part) => Ok(Next::Part(part)),
        Start::Recorded(sitting, rest) => match resume(alloc, book, sitting, rest) {
            Ok(answer) => give(answer, output),
            Err(_) => Err(RunFault::Memory),
        },
    }
}

/// Takes lines over a store that is open, until the run ends or the store has to be opened again.
fn sit<D: RunDisk, A: Allocator, R: Read, W: Write>(
    alloc: Global,
    book: &mut Book<D, A>,
    start: Start,
    reader: &mut LineReader,
    number: &mut u64,
    input: &mut R,
    output: &mut W,
) -> Result<Sat, RunFault>
    ensures { (at : Place) (r0 w0 : Option (List ℕ)) → IsAt at (doing_at start) number.old
        (held reader.old) r0 (R.remaining input.old) w0 (W.contents output.old)
        → Sits D.state at book.old book.new number.new (held reader.new)
        r0 (R.remaining input.new) w0 (W.contents output.new) result }
{
    let mut next = begin(alloc, book, start, output)?;
    for line in *number..u64::MAX {
        match next {
            Next::Part(part) => {
                *number = line + 1;
                let found = next_report(reader, input)?;
                next = take_line(alloc, book, part, found, line + 1, output)?;
            }
            Next::Opening(sitting, rest) => {
                return match settle(alloc, book, output) {
                    Ok(()) => Ok(Sat::Opening(sitting, rest)),
                    Err(fault) => Err(fault),
                };
            }
            Next::End(end) => return Ok(Sat::End(end)),
            Next::Fault(fault) => return Err(fault),
        }
    }
    Err(RunFault::InputTooLong)
}

/// Makes durable what was recorded, after which the store can be opened again. If that fails, the
/// answer is the fault.
#[tactic(auto, using(crate::proofs::Driving::flushed, crate::proofs::Driving::stored_all))]
fn settle<D: RunDisk, A: Allocator, W: Write>(
    alloc: Global,
    book: &mut Book<D, A>,
    output: &mut W,
) -> Result<(), RunFault>
    ensures settles { Settles D.state book.old book.new (W.contents output.old)
        (W.contents output.new) result }
    ensures moves { Moves D.state book.old book.new }
{
    match book.flush() {
        Ok(_) => Ok(()),
        Err(Trouble::Refused(why)) => Err(RunFault::Store(Trouble::Refused(why))),
        Err(Trouble::Faulty(fault)) => match one_line(alloc, Order::Fault(fault)) {
            Ok(lines) => {
                let written = write_answer(lines.as_slice(), output);
                drop(lines);
                match written {
                    Ok(()) => Err(RunFault::from(fault)),
                    Err(failed) => Err(failed),
                }
            }
            Err(_) => Err(RunFault::Memory),
        },
    }
}
