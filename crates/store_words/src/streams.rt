//! [`Streams`] holds the first errors of standard input and of standard output.

ghost use Rattle.store_words.specs.Failures.{Blames, IsStream};

use crate::failures::{FileFailure, FileName, of_call};
use console_lines::RunFault;
use store_files::FirstError;

/// The first errors of standard input and of standard output, and whether the input is a terminal.
#[derive(Drop)]
pub struct Streams<Y: Drop> {
    pub input: Y,
    pub output: Y,
    pub is_terminal: bool,
}

impl<Y: FirstError + Drop> Streams<Y> {
    /// Returns the stream that is to blame for a fault, with its first error; `None` if no stream
    /// is to blame.
    pub fn blamed(&self, fault: RunFault) -> Option<FileFailure<'static>>
        ensures { Blames (Y.notes self.now.input) (Y.notes self.now.output) fault result }
    {
        match fault {
            RunFault::Input => first_of(FileName::StandardInput, &self.input),
            RunFault::Output => first_of(FileName::StandardOutput, &self.output),
            RunFault::Store(_) | RunFault::InputTooLong | RunFault::Memory => None,
        }
    }
}

/// The stream of this name with its first error, if a call of it has failed.
fn first_of<Y: FirstError>(name: FileName<'static>, why: &Y) -> Option<FileFailure<'static>>
    ensures { IsStream (Y.notes why.now) name.entry result }
{
    match why.first_error() {
        Some(error) => Some(of_call(name, error)),
        None => None,
    }
}
