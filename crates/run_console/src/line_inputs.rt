//! An input is read in parts, and the open line is kept from one part to the next.
//!
//! At most 257 bytes of a line are kept, which is enough to know that it is too long. The replies
//! to the lines of a part are written before the next part is read.

ghost use Rattle.std.specs.Prelude.{◌≡◌, ◌<◌, ◌+◌, ◌^◌, [], ◌∷◌, ◌++◌, length, false, List, ℕ};
ghost use Rattle.std.specs.Prelude.{IfErr, IfOk, OnOk};
ghost use Rattle.console_lines.specs.Progress.{kept};
ghost use Rattle.console_lines.specs.Strict.{rejection_at};
ghost use Rattle.run_console.specs.RunProgress.{Cut, Halts, PartCut, PartRuns, Ran, RanLines};
ghost use Rattle.run_console.specs.Until.{numbered};

use crate::book_lines::run_line;
use crate::untils::Until;
use arrayvec::ArrayVec;
use console_lines::{
    LONGEST_INPUT, LONGEST_LINE, OutputBuffer, RejectedLine, Rejection, RunFault, write_out,
};
use memchr::memchr;
use run_book::Book;
use run_disk::RunDisk;
use std::alloc::Allocator;
use std::io::{Read, Write};

/// The most bytes of one read.
const PART: usize = 4096;

/// The most bytes of a line that are kept: one more than the longest line has.
const KEPT: usize = LONGEST_LINE + 1;

/// The line that no LF has ended yet.
type OpenLine = ArrayVec<u8, KEPT>;

/// Runs the lines of the input, up to the one that ends the run. Replies are written before more is
/// read. Those to the lines of the last part are left in the buffer.
pub fn run_lines<A: Allocator + Copy, R: Read, W: Write, D: RunDisk, B: Allocator>(
    alloc: A,
    input: &mut R,
    buffer: &mut OutputBuffer,
    output: &mut W,
    book: &mut Book<D, B>,
    until: Until,
) -> Result<Option<RejectedLine>, RunFault>
    requires buffer { buffer.old.items ≡ [] }
    requires sound { book.old.journal.broken ≡ false }
    ensures ran { IfOk result (λ rejection. RanLines D.state until rejection
        book.old book.new buffer.new.items (R.remaining input.old) (R.remaining input.new)
        (W.contents output.old) (W.contents output.new)) }
    ensures stops { IfErr result (λ fault. Halts D.state until fault book.old book.new
        (R.remaining input.old) (R.remaining input.new)
        (W.contents output.old) (W.contents output.new)) }
    ensures sound { OnOk result (book.new.journal.broken ≡ false) }
{
    let mut room = [0u8; PART];
    let mut tail = OpenLine::new();
    let mut number = 1;
    let mut total = 0usize;
    while total <= LONGEST_INPUT {
        let most = (LONGEST_INPUT + 1 - total).min(PART);
        let count = match input.read(&mut room[..most]) {
            Ok(count) => count,
            Err(_) => return Err(RunFault::Input),
        };
        if count == 0 {
            let why = run_line(alloc, tail.as_slice(), buffer, output, book)?;
            return Ok(numbered(number, until.ends_at(why)));
        }
        total += count;
        let part = &room[..count];
        let found = run_part(
            alloc,
            part,
            output,
            book,
            until,
            &mut tail,
            &mut number,
            buffer,
        )?;
        if found.is_some() {
            return Ok(found);
        }
        write_out(buffer, output)?;
    }
    Err(RunFault::InputTooLong)
}

/// The line of this number, if it is rejected.
fn numbered(number: u64, why: Option<Rejection>) -> Option<RejectedLine>
    ensures { result ≡ numbered number why }
{
    match why {
        Some(why) => Some(RejectedLine { number, why }),
        None => None,
    }
}

/// Runs the lines that end in this part of the input, up to the one after which the run ends,
/// appends their replies, and keeps the open line and its number.
fn run_part<A: Allocator + Copy, W: Write, D: RunDisk, B: Allocator>(
    alloc: A,
    part: &[u8],
    output: &mut W,
    book: &mut Book<D, B>,
    until: Until,
    tail: &mut OpenLine,
    number: &mut u64,
    buffer: &mut OutputBuffer,
) -> Result<Option<RejectedLine>, RunFault>
    requires number { number.old + length part.now < 2 ^ 64 }
    requires sound { book.old.journal.broken ≡ false }
    ensures ran { (begun : List ℕ) → tail.old.items ≡ kept begun
        → IfOk result
        (λ rejection. PartRuns D.state until rejection number.old number.new begun part.now
        book.old book.new tail.new.items
        buffer.old.items buffer.new.items
        (W.contents output.old) (W.contents output.new)) }
    ensures cut { (begun : List ℕ) → tail.old.items ≡ kept begun
        → IfErr result (λ fault. PartCut D.state until fault number.old begun part.now
        book.old book.new buffer.old.items
        (W.contents output.old) (W.contents output.new)) }
    ensures sound { OnOk result (book.new.journal.broken ≡ false) }
{
    let mut rest = part;
    while let Some(end) = memchr(b'\n', rest) {
        let why = end_line(alloc, &rest[..end], output, book, tail, buffer)?;
        if let Some(why) = until.ends_at(why) {
            let number = *number;
            return Ok(Some(RejectedLine { number, why }));
        }
        *number += 1;
        rest = &rest[end + 1..];
    }
    keep(rest, tail);
    Ok(None)
}

/// Runs the line that these bytes end, and appends its reply. Returns why the line is rejected, if
/// it is. A line that lies in these bytes as a whole isn't copied.
fn end_line<A: Allocator + Copy, W: Write, D: RunDisk, B: Allocator>(
    alloc: A,
    end: &[u8],
    output: &mut W,
    book: &mut Book<D, B>,
    tail: &mut OpenLine,
    buffer: &mut OutputBuffer,
) -> Result<Option<Rejection>, RunFault>
    requires sound { book.old.journal.broken ≡ false }
    ensures ran { (begun : List ℕ) → tail.old.items ≡ kept begun
        → IfOk result (λ why. Ran D.state ((begun ++ end.now) ∷ []) book.old book.new
        buffer.old.items buffer.new.items
        (W.contents output.old) (W.contents output.new)
        × (why ≡ rejection_at book.old.session (begun ++ end.now))) }
    ensures none { OnOk result (tail.new.items ≡ []) }
    ensures cut { (begun : List ℕ) → tail.old.items ≡ kept begun
        → IfErr result (λ fault. Cut D.state fault ((begun ++ end.now) ∷ [])
        book.old book.new buffer.old.items
        (W.contents output.old) (W.contents output.new)) }
    ensures sound { OnOk result (book.new.journal.broken ≡ false) }
{
    if tail.is_empty() {
        return run_line(alloc, end, buffer, output, book);
    }
    keep(end, tail);
    let why = run_line(alloc, tail.as_slice(), buffer, output, book)?;
    tail.clear();
    Ok(why)
}

/// Keeps as many of these bytes as fit, after those that are kept.
fn keep(bytes: &[u8], tail: &mut OpenLine)
    ensures { tail.new.items ≡ kept (tail.old.items ++ bytes.now) }
{
    let most = tail.remaining_capacity().min(bytes.len());
    match tail.try_extend_from_slice(&bytes[..most]) {
        Ok(()) => (),
        Err(_) => unreachable!(),
    }
}
