//! A [`RunFault`] ends a run of the console before the end of its input.

ghost use Rattle.std.specs.Prelude.{◌≡◌, Some};
ghost use Rattle.console_lines.specs.Faults.{stop_text, stopped};

use run_model::{Fault, Trouble};
use std::error::Error;
use std::fmt;

/// Says why a run ended before the end of its input. It is printed as `input`, `output`,
/// `input too long`, or a fault such as `fault 3 NotAStore`.
#[derive(Clone, Copy, Debug, PartialEq, Eq)]
pub enum RunFault {
    /// The input couldn't be read.
    Input,
    /// A reply couldn't be written.
    Output,
    /// The input has more bytes than a run reads.
    InputTooLong,
    /// Memory for the words, the book or a reply was refused.
    Memory,
    /// The store couldn't be read, or a flush or a checkpoint failed.
    Store(Trouble),
}

impl fmt::Display for RunFault {
    ghost output = { λ fault. Some (stop_text fault) };

    fn fmt<W: fmt::Write>(&self, f: &mut fmt::Formatter<W>) -> fmt::Result {
        match self {
            RunFault::Input => f.write_str("input"),
            RunFault::Output => f.write_str("output"),
            RunFault::InputTooLong => f.write_str("input too long"),
            RunFault::Memory => f.write_str("fault 1 Memory"),
            RunFault::Store(trouble) => write!(f, "{trouble}"),
        }
    }
}

impl Error for RunFault {}

/// Lack of memory ends a run as `Memory`, and each other fault of a store as `Store`.
impl From<Fault> for RunFault {
    ghost from_gives = { λ fault result. result ≡ stopped fault };

    fn from(fault: Fault) -> RunFault {
        match fault {
            Fault::Memory => RunFault::Memory,
            _ => RunFault::Store(Trouble::Faulty(fault)),
        }
    }
}
