//! `drive` drives a night over the store in a file.

ghost use Rattle.night_program.specs.Drives.{AnswersDrive, DoesDrive};
ghost use Rattle.store_words.specs.Failures.{Names};

use console_lines::{RejectedLine, Rejection, RunFault};
use drive_runs::drive_ends::DriveEnd;
use drive_runs::runs::drive;
use std::alloc::Global;
use std::io::{Read, Write};
use store_files::{Files, FirstError, Opened};
use store_words::{Done, Failure, failed_over, no_file};

/// Opens the store in the file with this name, and drives a night over it: the plan and the rounds
/// of the input are answered on the output. If the file can't be opened, nothing is read or
/// printed.
pub fn drive_file<'a, F: Files, I: Read, O: Write>(
    alloc: Global,
    store: &'a str,
    files: &mut F,
    input: &mut I,
    output: &mut O,
) -> Result<Done, Failure<'a>>
    ensures { DoesDrive F.Disk.state F.seen store.now result files.old files.new
        (I.remaining input.old) (I.remaining input.new)
        (O.contents output.old) (O.contents output.new) }
{
    let Opened { disk, why } = match files.open(store) {
        Ok(opened) => opened,
        Err(error) => return Err(no_file(store, error)),
    };
    let (done, left) = drive(alloc, disk, input, output);
    files.close(store, left);
    driven(done, store, &why)
}

/// The result of a drive over the store in the file of this name.
fn driven<'a, Y: FirstError>(
    done: Result<DriveEnd, RunFault>,
    store: &'a str,
    why: &Y,
) -> Result<Done, Failure<'a>>
    ensures { AnswersDrive (Names (Y.notes why.now) store.now) done result }
{
    match done {
        Ok(DriveEnd::InputEnded | DriveEnd::Over) => Ok(Done::Well),
        Ok(DriveEnd::Full) => Ok(Done::Full),
        Ok(DriveEnd::Refused) => Ok(Done::NoPlan),
        Ok(DriveEnd::Bad(number)) => {
            let why = Rejection::BadLine;
            Ok(Done::Rejection(RejectedLine { number, why }))
        }
        Err(fault) => Err(failed_over(fault, store, why)),
    }
}
