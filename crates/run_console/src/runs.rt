//! A run over a book: of all lines of an input, or of those up to the first rejected one.

ghost use Rattle.std.specs.Prelude.{◌≡◌, false, IfErr};
ghost use Rattle.run_console.specs.declared.untils.Until.TheVariants.{End, FirstRejection};
ghost use Rattle.run_console.specs.RunProgress.{BeginsScript, DoesRun, no_rejection};

use crate::book_lines::close;
use crate::line_inputs::run_lines;
use crate::untils::Until;
use console_lines::{OutputBuffer, RejectedLine, RunFault};
use run_book::Book;
use run_disk::RunDisk;
use run_model::{Refusal, Trouble};
use std::alloc::Allocator;
use std::io::{Read, Write};

/// Runs each line of the input over the book, and writes its reply. At the end of the input it
/// flushes the book, and writes the closing line.
///
/// The replies to all lines that were read are written before more is read. So these faults leave
/// the following:
///
/// - `Input` (a read failed) or `InputTooLong` (the input is longer than 16,777,216 bytes): each
///   line that ended with an LF was run, and has its reply.
/// - `Output` (a write failed or took nothing): the output holds a prefix of the replies to the
///   lines that were run.
/// - `Store` (a flush or a checkpoint failed): the line of its fault is written after the replies.
/// - `Memory` (for a tally): each line before it has its reply.
///
/// A last line without an LF is run if the end of the input is read after it.
///
/// At most one byte more is read than an input may have. At every exit the session is the result of
/// the lines that were run, and the book carries on. Only a tally takes memory. The writer isn't
/// flushed, so it should hold nothing back.
///
/// If the book is broken, it stays as it is, and nothing is read or written.
pub fn run<A: Allocator + Copy, R: Read, W: Write, D: RunDisk, B: Allocator>(
    alloc: A,
    input: &mut R,
    output: &mut W,
    book: &mut Book<D, B>,
) -> Result<(), RunFault>
    ensures runs { DoesRun D.state R.remaining W.contents End (no_rejection result)
        book.old book.new input.old input.new output.old output.new }
    ensures begins { book.old.journal.broken ≡ false
        → IfErr result (λ fault. BeginsScript fault book.old.session
        (R.remaining input.old) (R.remaining input.new)
        (W.contents output.old) (W.contents output.new)) }
{
    match run_until(alloc, input, output, book, Until::End) {
        Ok(_) => Ok(()),
        Err(fault) => Err(fault),
    }
}

/// Runs the lines of the input as [`run`] does, up to the first rejected line: one that is a bad
/// line or is refused. After it, or at the end of the input, it flushes the book, and writes the
/// closing line. Returns the rejected line, with the reason.
///
/// Bytes that were read after the rejected line are dropped; there are at most those of one read of
/// 4,096 bytes. None of them is run, and no more is read. If an input is too long, and its first
/// 16,777,217 bytes hold a rejected line, that line is returned, and not `InputTooLong`.
///
/// The faults are those of `run` over the lines up to the rejected one. If the last flush or write
/// fails, the fault is returned instead of the line.
///
/// If the book is broken, it stays as it is, and nothing is read or written.
pub fn run_strict<A: Allocator + Copy, R: Read, W: Write, D: RunDisk, B: Allocator>(
    alloc: A,
    input: &mut R,
    output: &mut W,
    book: &mut Book<D, B>,
) -> Result<Option<RejectedLine>, RunFault>
    ensures { DoesRun D.state R.remaining W.contents FirstRejection result
        book.old book.new input.old input.new output.old output.new }
{
    run_until(alloc, input, output, book, Until::FirstRejection)
}

/// Runs an input as [`run`] or [`run_strict`] does: `until` says which.
pub fn run_until<A: Allocator + Copy, R: Read, W: Write, D: RunDisk, B: Allocator>(
    alloc: A,
    input: &mut R,
    output: &mut W,
    book: &mut Book<D, B>,
    until: Until,
) -> Result<Option<RejectedLine>, RunFault>
    ensures { DoesRun D.state R.remaining W.contents until result
        book.old book.new input.old input.new output.old output.new }
{
    let _durable = book.durable();
    if book.is_broken() {
        return Err(RunFault::Store(Trouble::Refused(Refusal::Broken)));
    }
    let mut buffer = OutputBuffer::new();
    let rejection = run_lines(alloc, input, &mut buffer, output, book, until)?;
    close(&mut buffer, output, book)?;
    Ok(rejection)
}
