//! The lines of the executor are read one after another.

ghost use Rattle.drive_lines.specs.Inputs.{NextRead};

use crate::reports::{Report, read_report};
use console_lines::RunFault;
use plan_lines::readers::{Line, LineReader};
use std::io::Read;

/// What comes next in the input of the program.
#[derive(Drop)]
pub enum NextLine {
    /// The input has ended. What came after its last LF is no line.
    InputEnded,
    /// An empty line, which ends a part.
    PartEnded,
    /// A line that reports something.
    Report(Report),
    /// A line that reports nothing.
    Bad,
}

/// Reads the next line that an LF ends.
///
/// `Input` if a read fails, and `InputTooLong` after some 2^64 bytes.
pub fn next_report<R: Read>(reader: &mut LineReader, input: &mut R) -> Result<NextLine, RunFault>
    ensures { NextRead result reader.old reader.new
        (R.remaining input.old) (R.remaining input.new) }
{
    let mut line = Line::new();
    if !reader.next_line(input, &mut line)? {
        return Ok(NextLine::InputEnded);
    }
    if line.is_empty() {
        return Ok(NextLine::PartEnded);
    }
    match read_report(line.as_slice()) {
        Some(report) => Ok(NextLine::Report(report)),
        None => Ok(NextLine::Bad),
    }
}
