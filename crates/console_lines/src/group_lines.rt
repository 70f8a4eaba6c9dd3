//! The requests about groups.

ghost use Rattle.std.specs.Prelude.{◌≡◌, if◌then◌else◌};
ghost use Rattle.console_lines.specs.Checked.{asks, of_one, of_three, of_two};
ghost use Rattle.console_lines.specs.GroupLines.{group_line_of, limit_line, limit_of};
ghost use Rattle.console_lines.specs.Words.{words_in, lent};

use crate::line_requests::LineRequest;
use crate::numbers::read_number;
use crate::task_lines::read_task_line;
use crate::words::{last_word, next_word};
use run_model::{Command, Limit, Name, Refusal, Step, is_spelled};

/// Returns the request of a line with this first word. If the word isn't one about groups, the line
/// is read as one about tasks or the store.
pub(crate) fn read_group_line(word: &[u8], left: Option<&[u8]>) -> Option<LineRequest>
    ensures { result ≡ group_line_of word.now (words_in (lent left.entry)) }
{
    if is_spelled(word, b"group") {
        read_group(false, left)
    } else if is_spelled(word, b"bare") {
        read_group(true, left)
    } else if is_spelled(word, b"limit") {
        read_limit(left)
    } else if is_spelled(word, b"go") {
        read_go(false, left)
    } else if is_spelled(word, b"try") {
        read_go(true, left)
    } else if is_spelled(word, b"wait") {
        read_wait(left)
    } else if is_spelled(word, b"result") {
        read_result(left)
    } else {
        read_task_line(word, left)
    }
}

/// `group NAME PARENT`, or `bare NAME SCOPE` if `bare` is set.
fn read_group(bare: bool, left: Option<&[u8]>) -> Option<LineRequest>
    ensures { result ≡ of_two (λ name scope. asks (if bare then Command.Bare name scope
        else Command.Group name scope)) (words_in (lent left.entry)) }
{
    let (name, left) = next_word(left)?;
    let scope = last_word(left)?;
    match (Name::read(name), Name::read(scope)) {
        (Some(name), Some(scope)) => Some(group(bare, name, scope)),
        _ => Some(LineRequest::Refused(Refusal::BadName)),
    }
}

/// `limit GROUP NUMBER`, `limit GROUP none`
fn read_limit(left: Option<&[u8]>) -> Option<LineRequest>
    ensures { result ≡ limit_line (words_in (lent left.entry)) }
{
    let (group, left) = next_word(left)?;
    let limit = limit_of(last_word(left)?)?;
    match Name::read(group) {
        Some(group) => Some(LineRequest::Step(Step::Command(Command::SetLimit { group, limit }))),
        None => Some(LineRequest::Refused(Refusal::BadName)),
    }
}

/// `go GROUP JOB ARG`, or `try GROUP JOB ARG` if `tried` is set.
fn read_go(tried: bool, left: Option<&[u8]>) -> Option<LineRequest>
    ensures { result ≡ of_three (λ group job argument. asks (if tried
        then Command.TryGo group job argument else Command.Go group job argument))
        (words_in (lent left.entry)) }
{
    let (group, left) = next_word(left)?;
    let (job, left) = next_word(left)?;
    let argument = last_word(left)?;
    match (Name::read(group), Name::read(job), Name::read(argument)) {
        (Some(group), Some(job), Some(argument)) => Some(go(tried, group, job, argument)),
        _ => Some(LineRequest::Refused(Refusal::BadName)),
    }
}

/// `wait GROUP`
fn read_wait(left: Option<&[u8]>) -> Option<LineRequest>
    ensures { result ≡ of_one (λ group. asks (Command.Wait group)) (words_in (lent left.entry)) }
{
    match Name::read(last_word(left)?) {
        Some(group) => Some(LineRequest::Step(Step::Command(Command::Wait { group }))),
        None => Some(LineRequest::Refused(Refusal::BadName)),
    }
}

/// `result GROUP`
fn read_result(left: Option<&[u8]>) -> Option<LineRequest>
    ensures { result ≡ of_one LineRequest.Result (words_in (lent left.entry)) }
{
    match Name::read(last_word(left)?) {
        Some(group) => Some(LineRequest::Result(group)),
        None => Some(LineRequest::Refused(Refusal::BadName)),
    }
}

/// The request to make a group below this scope or, if `bare` is set, one whose tasks belong to it.
fn group(bare: bool, name: Name, scope: Name) -> LineRequest
    ensures { result ≡ asks (if bare then Command.Bare name scope else Command.Group name scope) }
{
    LineRequest::Step(Step::Command(if bare {
        Command::Bare { name, scope }
    } else {
        let parent = scope;
        Command::Group { name, parent }
    }))
}

/// The request to submit a task to a group; if `tried` is set, only if the limit admits it now.
fn go(tried: bool, group: Name, job: Name, argument: Name) -> LineRequest
    ensures { result ≡ asks (if tried
        then Command.TryGo group job argument else Command.Go group job argument) }
{
    if tried {
        LineRequest::Step(Step::Command(Command::TryGo {
            group,
            job,
            argument,
        }))
    } else {
        LineRequest::Step(Step::Command(Command::Go {
            group,
            job,
            argument,
        }))
    }
}

/// Returns the limit that a word stands for: a number of at most 64, or `none`.
fn limit_of(word: &[u8]) -> Option<Limit>
    ensures { result ≡ limit_of word.now }
{
    if is_spelled(word, b"none") {
        return Some(Limit::none());
    }
    match u8::try_from(read_number(word)?) {
        Ok(most) => Limit::new(most),
        Err(_) => None,
    }
}
