//! A wish is the kind of scope that a `derive` asks for, with the words after the kind.
//!
//! `None` stands for a wish of another form. A refusal is the first one that applies in every
//! state.

ghost use Rattle.std.specs.Option.{option_map};
ghost use Rattle.std.specs.Prelude.{◌≡◌, []};
ghost use Rattle.console_lines.specs.LineRequests.{wish_of, alone, deadline_wish, deadline_at};
ghost use Rattle.console_lines.specs.LineRequests.{timeout_wish, value_wish, wished, judged};
ghost use Rattle.console_lines.specs.Checked.{names_in_wish, texts_in_wish};
ghost use Rattle.console_lines.specs.Words.{words_in, lent};

use crate::causes::read_cause;
use crate::moments::read_moment;
use crate::numbers::read_number;
use crate::words::next_word;
use run_model::{Moment, Name, Refusal, Text, Wish, is_spelled};

/// Returns the wish of this kind, with the words after the kind.
pub(crate) fn read_wish(kind: &[u8], left: Option<&[u8]>) -> Option<Result<Wish, Refusal>>
    ensures { result ≡ option_map judged (wish_of kind.now (words_in (lent left.entry))) }
{
    if is_spelled(kind, b"cancel") {
        read_alone(Wish::Cancel, left)
    } else if is_spelled(kind, b"cause") {
        read_alone(Wish::Cause, left)
    } else if is_spelled(kind, b"detached") {
        read_alone(Wish::Detached, left)
    } else if is_spelled(kind, b"deadline") {
        read_deadline(left)
    } else if is_spelled(kind, b"timeout") {
        read_timeout(left)
    } else if is_spelled(kind, b"value") {
        read_value(left)
    } else {
        None
    }
}

/// Returns a wish after which no word may follow.
fn read_alone(wish: Wish, left: Option<&[u8]>) -> Option<Result<Wish, Refusal>>
    requires names { names_in_wish wish ≡ [] }
    requires texts { texts_in_wish wish ≡ [] }
    ensures { result ≡ option_map judged (alone wish (words_in (lent left.entry))) }
{
    match left {
        Some(_) => None,
        None => Some(Ok(wish)),
    }
}

/// `MOMENT [CAUSE]`
fn read_deadline(left: Option<&[u8]>) -> Option<Result<Wish, Refusal>>
    ensures { result ≡ option_map judged (deadline_wish (words_in (lent left.entry))) }
{
    let (moment, cause) = next_word(left)?;
    let moment = read_moment(moment)?;
    Some(deadline(moment, cause))
}

/// `NUMBER [CAUSE]`
fn read_timeout(left: Option<&[u8]>) -> Option<Result<Wish, Refusal>>
    ensures { result ≡ option_map judged (timeout_wish (words_in (lent left.entry))) }
{
    let (number, cause) = next_word(left)?;
    let seconds = read_number(number)?;
    Some(timeout(seconds, cause))
}

/// `KEY TEXT`
fn read_value(left: Option<&[u8]>) -> Option<Result<Wish, Refusal>>
    ensures { result ≡ option_map judged (value_wish (words_in (lent left.entry))) }
{
    let (key, text) = next_word(left)?;
    let text = text?;
    Some(value(key, text))
}

/// A moment that is out of range is refused after its cause.
fn deadline(moment: Result<Moment, Refusal>, cause: Option<&[u8]>) -> Result<Wish, Refusal>
    ensures { result ≡ judged (deadline_at (lent cause.entry) moment) }
{
    match (read_cause(cause), moment) {
        (Ok(cause), Ok(moment)) => Ok(Wish::Deadline(moment, cause)),
        (Err(refusal), _) | (Ok(_), Err(refusal)) => Err(refusal),
    }
}

fn timeout(seconds: u64, cause: Option<&[u8]>) -> Result<Wish, Refusal>
    ensures { result ≡ judged (wished (Wish.Timeout seconds (lent cause.entry))) }
{
    match read_cause(cause) {
        Ok(cause) => Ok(Wish::Timeout(seconds, cause)),
        Err(refusal) => Err(refusal),
    }
}

fn value(key: &[u8], text: &[u8]) -> Result<Wish, Refusal>
    ensures { result ≡ judged (wished (Wish.Value key.now text.now)) }
{
    let Some(key) = Name::read(key) else {
        return Err(Refusal::BadName);
    };
    match Text::read(text) {
        Some(text) => Ok(Wish::Value(key, text)),
        None => Err(Refusal::BadText),
    }
}
