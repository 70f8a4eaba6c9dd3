//! `script` runs the lines of the input over a store.

ghost use Rattle.std.specs.Prelude.{◌≡◌};
ghost use Rattle.night_program.specs.Scripts.{DoesScript, ScriptEnds, until_of};

use console_lines::{RejectedLine, RunFault};
use run_book::Book;
use run_console::{Until, run_until};
use run_disk::RunDisk;
use std::alloc::Global;
use std::io::{Read, Write};
use store_files::{Files, Opened};
use store_words::{Done, Failure, no_file, strict_over};

/// Opens the store in the file with this name, and runs the input over it. A strict run ends at the
/// first line that is bad or refused. If the store can't be opened, nothing is read or printed.
pub fn script_file<'a, F: Files, I: Read, O: Write>(
    alloc: Global,
    store: &'a str,
    strict: bool,
    files: &mut F,
    input: &mut I,
    output: &mut O,
) -> Result<Done, Failure<'a>>
    ensures { DoesScript F.Disk.state F.seen store.now strict result files.old files.new
        (I.remaining input.old) (I.remaining input.new)
        (O.contents output.old) (O.contents output.new) }
{
    let Opened { disk, why } = match files.open(store) {
        Ok(opened) => opened,
        Err(error) => return Err(no_file(store, error)),
    };
    let (done, left) = script(alloc, disk, until_of(strict), input, output);
    files.close(store, left);
    strict_over(done, store, &why)
}

/// Opens the store on a disk, and runs the lines of the input over it; `until` says when the run
/// ends. If the store can't be opened, nothing is read or written. The disk is returned as the book
/// left it.
pub fn script<D: RunDisk, R: Read, W: Write>(
    alloc: Global,
    disk: D,
    until: Until,
    input: &mut R,
    output: &mut W,
) -> (Result<Option<RejectedLine>, RunFault>, D)
    ensures { ScriptEnds D.state until disk result.0 result.1
        (R.remaining input.old) (R.remaining input.new)
        (W.contents output.old) (W.contents output.new) }
{
    match Book::open(alloc, disk) {
        Ok(mut book) => {
            let answer = run_until(alloc, input, output, &mut book, until);
            (answer, book.into_disk())
        }
        Err((fault, disk)) => (Err(RunFault::from(fault)), disk),
    }
}

/// Returns when a run ends: a strict one at the first line that is bad or refused, and any other at
/// the end of its input.
pub fn until_of(strict: bool) -> Until
    ensures { result ≡ until_of strict }
{
    if strict {
        Until::FirstRejection
    } else {
        Until::End
    }
}
