//! `plan` reads a plan and rounds of what happens, and answers each, without a store.

ghost use Rattle.night_program.specs.Plans.{DoesPlan};

use console_lines::{RejectedLine, Rejection};
use plan_lines::runs::{RunEnd, run};
use std::alloc::Global;
use std::io::{Read, Write};
use store_words::{Done, Failure};

/// Answers the plan and the rounds of the input, as [`run`] does. The result says how the run has
/// ended.
pub fn plan<'a, I: Read, O: Write>(
    alloc: Global,
    input: &mut I,
    output: &mut O,
) -> Result<Done, Failure<'a>>
    ensures { DoesPlan result (I.remaining input.old) (I.remaining input.new)
        (O.contents output.old) (O.contents output.new) }
{
    match run(alloc, input, output) {
        Ok(RunEnd::InputEnded) => Ok(Done::Well),
        Ok(RunEnd::Refused(_)) => Ok(Done::NoPlan),
        Ok(RunEnd::Bad(number)) => {
            let why = Rejection::BadLine;
            Ok(Done::Rejection(RejectedLine { number, why }))
        }
        Err(fault) => Err(Failure { fault, file: None }),
    }
}
