//! `script --now` moves the clock to the machine's time before the lines of the input.

ghost use Rattle.std.specs.Prelude.{◌≡◌, false};
ghost use Rattle.book_model.specs.Books.{CarriesOn};
ghost use Rattle.run_console.specs.RunProgress.{Lasts};
ghost use Rattle.night_program.specs.Scripts.{Runs};
ghost use Rattle.night_program.specs.Timed.{DoesTimed, RunsTimed, TimedEnds};

use crate::scripts::until_of;
use console_lines::{RejectedLine, RunFault};
use run_book::Book;
use run_console::{MachineTime, TimedInput, Until, run_until};
use run_disk::RunDisk;
use std::alloc::Global;
use std::io::{Read, Write};
use store_files::{Files, Opened};
use store_words::{Done, Failure, no_file, strict_over};

/// Opens the store in the file with this name, and runs the input over it, with the machine's time
/// before its lines. A strict run ends at the first line that is bad or refused.
pub fn timed_file<'a, F: Files, C: MachineTime, I: Read, O: Write>(
    alloc: Global,
    store: &'a str,
    strict: bool,
    files: &mut F,
    clock: &mut C,
    input: &mut I,
    output: &mut O,
) -> Result<Done, Failure<'a>>
    ensures { DoesTimed F.Disk.state F.seen (C.moments clock.old) store.now strict result
        files.old files.new (I.remaining input.old) (I.remaining input.new)
        (O.contents output.old) (O.contents output.new) }
{
    let Opened { disk, why } = match files.open(store) {
        Ok(opened) => opened,
        Err(error) => return Err(no_file(store, error)),
    };
    let (done, left) = timed(alloc, disk, until_of(strict), clock, input, output);
    files.close(store, left);
    strict_over(done, store, &why)
}

/// Opens the store on a disk, and runs the lines of the input over it until then, with the time
/// before them. If the store isn't opened, nothing is read or written. The disk is returned as the
/// book left it.
fn timed<D: RunDisk, C: MachineTime, R: Read, W: Write>(
    alloc: Global,
    disk: D,
    until: Until,
    clock: &mut C,
    input: &mut R,
    output: &mut W,
) -> (Result<Option<RejectedLine>, RunFault>, D)
    ensures { TimedEnds (C.moments clock.old) D.state until disk result.0 result.1
        (R.remaining input.old) (R.remaining input.new)
        (W.contents output.old) (W.contents output.new) }
{
    match Book::open(alloc, disk) {
        Ok(mut book) => {
            let answer = run_timed(alloc, until, clock, input, output, &mut book);
            (answer, book.into_disk())
        }
        Err((fault, disk)) => (Err(RunFault::from(fault)), disk),
    }
}

/// Runs the lines of the input until then, with the machine's time before them if it is later than
/// the book's clock.
fn run_timed<D: RunDisk, C: MachineTime, R: Read, W: Write>(
    alloc: Global,
    until: Until,
    clock: &mut C,
    input: &mut R,
    output: &mut W,
    book: &mut Book<D>,
) -> Result<Option<RejectedLine>, RunFault>
    requires { book.old.journal.broken ≡ false }
    ensures runs { RunsTimed (C.moments clock.old) (λ s0 s1. Runs D.state until result s0 s1
        (W.contents output.old) (W.contents output.new)) (R.remaining input.old)
        book.old book.new }
    ensures lasts { Lasts book.old.session book.new.session }
    ensures carries_on { CarriesOn D.state book.old book.new }
{
    let mut lines = TimedInput::new(book.state().clock(), clock, input);
    run_until(alloc, &mut lines, output, book, until)
}
