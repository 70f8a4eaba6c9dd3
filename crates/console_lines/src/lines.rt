//! A line of the console consists of words. The first word says which kind of request the line is.
//! This file also reads the requests about scopes.

ghost use Rattle.std.specs.Prelude.{◌≡◌};
ghost use Rattle.console_lines.specs.LineRequests.{advance_line, asked_by, request_of, asks_judged};
ghost use Rattle.console_lines.specs.LineRequests.{derive_line};
ghost use Rattle.console_lines.specs.Checked.{of_one, of_two};
ghost use Rattle.console_lines.specs.Words.{words_in, lent};

use crate::cancel_lines::cancel_line;
use crate::group_lines::read_group_line;
use crate::line_requests::LineRequest;
use crate::moments::read_moment;
use crate::wishes::read_wish;
use crate::words::{last_word, next_word};
use run_model::{Command, Name, Refusal, Step, Wish, is_spelled};

/// The greatest number of bytes in a line, without its LF. A longer one is a bad line.
pub const LONGEST_LINE: usize = 256;

/// The greatest number of bytes in an input. At most one more is read.
pub const LONGEST_INPUT: usize = 16_777_216;

/// Returns the request in this line.
pub fn read_line(line: &[u8]) -> LineRequest
    ensures { result ≡ request_of line.now }
{
    if line.len() > LONGEST_LINE {
        return LineRequest::BadLine;
    }
    if line.is_empty() {
        return LineRequest::Nothing;
    }
    read_words(Some(line)).unwrap_or(LineRequest::BadLine)
}

/// Returns the request that these words make; `None` if they have no known form.
fn read_words(line: Option<&[u8]>) -> Option<LineRequest>
    ensures { result ≡ asked_by (words_in (lent line.entry)) }
{
    let (word, left) = next_word(line)?;
    if is_spelled(word, b"derive") {
        read_derive(left)
    } else if is_spelled(word, b"cancel") {
        cancel_line(left)
    } else if is_spelled(word, b"advance") {
        read_advance(left)
    } else if is_spelled(word, b"scope") {
        read_scope(left)
    } else if is_spelled(word, b"value") {
        read_value(left)
    } else {
        read_group_line(word, left)
    }
}

/// `derive NAME PARENT KIND`
fn read_derive(left: Option<&[u8]>) -> Option<LineRequest>
    ensures { result ≡ derive_line (words_in (lent left.entry)) }
{
    let (name, left) = next_word(left)?;
    let (parent, left) = next_word(left)?;
    let (kind, left) = next_word(left)?;
    Some(derive(name, parent, read_wish(kind, left)?))
}

/// `advance MOMENT`
fn read_advance(left: Option<&[u8]>) -> Option<LineRequest>
    ensures { result ≡ advance_line (words_in (lent left.entry)) }
{
    match read_moment(last_word(left)?)? {
        Ok(moment) => Some(LineRequest::Step(Step::Command(Command::Advance { moment }))),
        Err(refusal) => Some(LineRequest::Refused(refusal)),
    }
}

/// `scope SCOPE`
fn read_scope(left: Option<&[u8]>) -> Option<LineRequest>
    ensures { result ≡ of_one LineRequest.Scope (words_in (lent left.entry)) }
{
    match Name::read(last_word(left)?) {
        Some(scope) => Some(LineRequest::Scope(scope)),
        None => Some(LineRequest::Refused(Refusal::BadName)),
    }
}

/// `value SCOPE KEY`
fn read_value(left: Option<&[u8]>) -> Option<LineRequest>
    ensures { result ≡ of_two LineRequest.Value (words_in (lent left.entry)) }
{
    let (scope, left) = next_word(left)?;
    let key = last_word(left)?;
    match (Name::read(scope), Name::read(key)) {
        (Some(scope), Some(key)) => Some(LineRequest::Value { scope, key }),
        _ => Some(LineRequest::Refused(Refusal::BadName)),
    }
}

fn derive(name: &[u8], parent: &[u8], wish: Result<Wish, Refusal>) -> LineRequest
    ensures { result ≡ asks_judged name.now parent.now wish }
{
    match (Name::read(name), Name::read(parent), wish) {
        (Some(name), Some(parent), Ok(wish)) => {
            LineRequest::Step(Step::Command(Command::Derive { name, parent, wish }))
        }
        (Some(_), Some(_), Err(refusal)) => LineRequest::Refused(refusal),
        _ => LineRequest::Refused(Refusal::BadName),
    }
}
