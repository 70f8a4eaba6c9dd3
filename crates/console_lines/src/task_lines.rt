//! The requests about tasks, and about the store.

ghost use Rattle.std.specs.List.{list_all};
ghost use Rattle.std.specs.Prelude.{◌≡◌, true};
ghost use Rattle.run_model.specs.Texts.{is_text};
ghost use Rattle.console_lines.specs.TaskLines.{asks_alone, asks_finish, asks_number, asks_phase};
ghost use Rattle.console_lines.specs.TaskLines.{asks_retry, finish_line, outcome_line};
ghost use Rattle.console_lines.specs.TaskLines.{task_line_of, texts_in_outcome};
ghost use Rattle.console_lines.specs.Words.{words_in, lent};

use crate::line_requests::LineRequest;
use crate::numbers::read_number;
use crate::words::{last_word, next_word};
use run_model::{Command, Outcome, Refusal, Step, Text, is_spelled};

/// Returns the request of a line with this first word, about tasks or the store. No other word
/// begins a line.
pub(crate) fn read_task_line(word: &[u8], left: Option<&[u8]>) -> Option<LineRequest>
    ensures { result ≡ task_line_of word.now (words_in (lent left.entry)) }
{
    if is_spelled(word, b"start") {
        read_alone(LineRequest::Step(Step::Start), left)
    } else if is_spelled(word, b"finish") {
        read_finish(left)
    } else if is_spelled(word, b"retry") {
        read_retry(left)
    } else if is_spelled(word, b"task") {
        read_task(left)
    } else if is_spelled(word, b"tally") {
        read_alone(LineRequest::Tally, left)
    } else if is_spelled(word, b"flush") {
        read_alone(LineRequest::Step(Step::Flush), left)
    } else if is_spelled(word, b"checkpoint") {
        read_alone(LineRequest::Step(Step::Checkpoint), left)
    } else {
        None
    }
}

/// Returns the request of a line in which no other word may follow.
fn read_alone(asked: LineRequest, left: Option<&[u8]>) -> Option<LineRequest>
    ensures { result ≡ asks_alone asked (words_in (lent left.entry)) }
{
    match left {
        Some(_) => None,
        None => Some(asked),
    }
}

/// `finish NUMBER ok`, `finish NUMBER error TEXT`
fn read_finish(left: Option<&[u8]>) -> Option<LineRequest>
    ensures { result ≡ finish_line (words_in (lent left.entry)) }
{
    let (number, left) = next_word(left)?;
    read_outcome(read_number(number)?, left)
}

/// `ok`, `error TEXT`
#[tactic(auto, using(crate::proofs::WordLemmas::rest_is))]
fn read_outcome(number: u64, left: Option<&[u8]>) -> Option<LineRequest>
    ensures { result ≡ outcome_line number (words_in (lent left.entry)) }
{
    let (word, left) = next_word(left)?;
    if is_spelled(word, b"ok") {
        read_alone(finish(number, Outcome::Success), left)
    } else if is_spelled(word, b"error") {
        Some(fail(number, left?))
    } else {
        None
    }
}

/// `retry NUMBER`
fn read_retry(left: Option<&[u8]>) -> Option<LineRequest>
    ensures { result ≡ asks_number asks_retry (words_in (lent left.entry)) }
{
    match u16::try_from(read_number(last_word(left)?)?) {
        Ok(task) => Some(LineRequest::Step(Step::Command(Command::Retry(task)))),
        Err(_) => Some(LineRequest::Refused(Refusal::NoSuchTask)),
    }
}

/// `task NUMBER`
fn read_task(left: Option<&[u8]>) -> Option<LineRequest>
    ensures { result ≡ asks_number asks_phase (words_in (lent left.entry)) }
{
    match u16::try_from(read_number(last_word(left)?)?) {
        Ok(task) => Some(LineRequest::Task(task)),
        Err(_) => Some(LineRequest::Refused(Refusal::NoSuchTask)),
    }
}

/// The request to end a task with this error. The text is checked before the number.
fn fail(number: u64, error: &[u8]) -> LineRequest
    ensures { result ≡ asks_finish number (Outcome.Failure error.now) }
{
    match Text::read(error) {
        Some(error) => finish(number, Outcome::Failure(error)),
        None => LineRequest::Refused(Refusal::BadText),
    }
}

fn finish(number: u64, outcome: Outcome) -> LineRequest
    requires { list_all is_text (texts_in_outcome outcome) ≡ true }
    ensures { result ≡ asks_finish number outcome }
{
    match u16::try_from(number) {
        Ok(task) => LineRequest::Step(Step::Finish(task, outcome)),
        Err(_) => LineRequest::Refused(Refusal::NoSuchTask),
    }
}
