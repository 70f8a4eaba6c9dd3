//! A rejected line is a bad line, or was refused. A strict run ends after the first one.

ghost use Rattle.std.specs.Prelude.{◌≡◌, Some};
ghost use Rattle.console_lines.specs.Strict.{ends_in_return, rejection_by, rejection_of};
ghost use Rattle.console_lines.specs.Strict.{rejection_text};

use crate::line_replies::LineReply;
use crate::lines::LONGEST_LINE;
use run_model::Refusal;
use std::fmt;

/// Says why a line is rejected.
#[derive(Clone, Copy, Debug, PartialEq, Eq)]
pub enum Rejection {
    /// It has no form that the console knows.
    BadLine,
    /// It is a bad line, and ends with a carriage return.
    CarriageReturn,
    /// It was refused.
    Refused(Refusal),
}

impl Rejection {
    /// Returns why this reply rejects its line; `None` if it doesn't.
    pub fn of(reply: &LineReply) -> Option<Rejection>
        ensures { result ≡ rejection_of reply.now }
    {
        match reply {
            LineReply::BadLine => Some(Rejection::BadLine),
            LineReply::Refused(refusal) | LineReply::Step(run_model::Reply::Refused(refusal)) => {
                Some(Rejection::Refused(*refusal))
            }
            _ => None,
        }
    }

    /// Returns why a line is rejected, given the rejection in its reply. A bad line that ends with
    /// a carriage return is reported as such.
    pub fn by(why: Option<Rejection>, line: &[u8]) -> Option<Rejection>
        ensures { result ≡ rejection_by why line.now }
    {
        match why {
            Some(Rejection::BadLine) if ends_in_return(line) => Some(Rejection::CarriageReturn),
            _ => why,
        }
    }
}

/// Returns whether a line that isn't too long ends with a carriage return.
fn ends_in_return(line: &[u8]) -> bool
    ensures { result ≡ ends_in_return line.now }
{
    match line.last() {
        Some(last) => line.len() <= LONGEST_LINE && *last == b'\r',
        None => false,
    }
}

/// A rejected line. It is printed as `line 7: bad line` or, for example,
/// `line 7: refused 12 AlreadyDone`.
#[derive(Clone, Copy, Debug, PartialEq, Eq)]
pub struct RejectedLine {
    /// The number of the line in its input. The first line has number 1, and empty lines count,
    /// too.
    pub number: u64,
    /// Why the line is rejected.
    pub why: Rejection,
}

impl fmt::Display for RejectedLine {
    ghost output = { λ line. Some (rejection_text line) };

    fn fmt<W: fmt::Write>(&self, f: &mut fmt::Formatter<W>) -> fmt::Result {
        let number = self.number;
        match self.why {
            Rejection::BadLine | Rejection::CarriageReturn => write!(f, "line {number}: bad line"),
            Rejection::Refused(refusal) => write!(f, "line {number}: {refusal}"),
        }
    }
}
