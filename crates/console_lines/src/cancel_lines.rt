//! A line that cancels a scope. Its words are lent from the line.

ghost use Rattle.std.specs.Option.{option_map};
ghost use Rattle.std.specs.Prelude.{◌≡◌, IfErr, IfOk, IfSome};
ghost use Rattle.console_lines.specs.declared.line_requests.LineRequest.TheVariants as asked;
ghost use Rattle.console_lines.specs.LineRequests.{request_of, asks_cancel, cancel_line};
ghost use Rattle.console_lines.specs.CancelLines.{cancel_words};
ghost use Rattle.console_lines.specs.Checked.{asks};
ghost use Rattle.console_lines.specs.Words.{lent, words_in};

use crate::causes::read_cause;
use crate::line_requests::LineRequest;
use crate::lines::LONGEST_LINE;
use crate::words::next_word;
use run_model::{Command, Name, Refusal, Step};

/// Returns the words of a line that cancels a scope; `None` for any other line. The words are the
/// one in the place of the scope's name and the cause, if there is one.
pub fn cancel_words(line: &[u8]) -> Option<(&[u8], Option<&[u8]>)>
    ensures words { option_map (λ words. (words.0.now, lent words.1)) result
        ≡ cancel_words line.now }
    ensures asks { IfSome result (λ words.
        request_of line.now ≡ asks_cancel words.0.now (lent words.1)) }
{
    if line.len() > LONGEST_LINE {
        return None;
    }
    let left = line.strip_prefix(b"cancel ")?;
    next_word(Some(left))
}

/// Returns the command that cancels the scope with this name, with this cause; `BadName` or
/// `BadText` if the bytes aren't a name or a cause.
pub fn read_cancel(scope: &[u8], cause: Option<&[u8]>) -> Result<Command, Refusal>
    ensures asked { IfOk result (λ call. asks_cancel scope.now (lent cause.entry) ≡ asks call) }
    ensures refused { IfErr result (λ why. asks_cancel scope.now (lent cause.entry)
        ≡ asked.Refused why) }
{
    let Some(scope) = Name::read(scope) else {
        return Err(Refusal::BadName);
    };
    let cause = read_cause(cause)?;
    Ok(Command::Cancel { scope, cause })
}

/// `cancel SCOPE [CAUSE]`
pub(crate) fn cancel_line(left: Option<&[u8]>) -> Option<LineRequest>
    ensures { result ≡ cancel_line (words_in (lent left.entry)) }
{
    let (scope, cause) = next_word(left)?;
    match read_cancel(scope, cause) {
        Ok(call) => Some(LineRequest::Step(Step::Command(call))),
        Err(refusal) => Some(LineRequest::Refused(refusal)),
    }
}
