//! Replies to lines: each request of a line is carried out on a book, or answered from its state.

ghost use Rattle.std.specs.Prelude.{◌≡◌, false};
ghost use Rattle.console_lines.specs.declared.line_requests.LineRequest.TheVariants as asks;
ghost use Rattle.console_lines.specs.Script.{group_reply, scope_reply, task_reply, value_reply};
ghost use Rattle.run_console.specs.RunProgress.{Answers, save_replied};
ghost use Rattle.run_console.specs.SavingLines.{is_tally};

use console_lines::{LineReply, LineRequest};
use run_book::Book;
use run_disk::RunDisk;
use run_model::{Name, Refusal, Step, Trouble};
use run_session::State;
use std::alloc::Allocator;

/// Carries out the request of a line, and returns the reply to it, or `None` for an empty line.
/// Only a step changes the book. If a flush or a checkpoint fails, the trouble is returned, and the
/// state stays.
pub fn reply_to<D: RunDisk, B: Allocator>(
    asked: &LineRequest,
    book: &mut Book<D, B>,
) -> Result<Option<LineReply>, Trouble>
    requires counted { is_tally asked.now ≡ false }
    requires sound { book.old.journal.broken ≡ false }
    ensures { Answers D.state asked.now result book.old book.new }
{
    match asked {
        LineRequest::Nothing => Ok(None),
        LineRequest::BadLine => Ok(Some(LineReply::BadLine)),
        LineRequest::Refused(refusal) => Ok(Some(LineReply::Refused(*refusal))),
        LineRequest::Step(step) => step_reply(step, book),
        LineRequest::Scope(name) => Ok(Some(scope_reply(name, book.state()))),
        LineRequest::Value { scope, key } => Ok(Some(value_reply(scope, key, book.state()))),
        LineRequest::Task(task) => Ok(Some(task_reply(*task, book.state()))),
        LineRequest::Result(group) => Ok(Some(group_reply(group, book.state()))),
        LineRequest::Tally => unreachable!(),
    }
}

/// Takes a step of the book, and returns the reply to it, or the trouble if a flush or a checkpoint
/// fails.
pub fn step_reply<D: RunDisk, B: Allocator>(
    step: &Step,
    book: &mut Book<D, B>,
) -> Result<Option<LineReply>, Trouble>
    requires { book.old.journal.broken ≡ false }
    ensures { Answers D.state (asks.Step step.now) result book.old book.new }
{
    match step {
        Step::Flush => reply_to_save(book.flush()),
        Step::Checkpoint => reply_to_save(book.checkpoint()),
        Step::Command(_) => Ok(Some(LineReply::Step(book.step(step)))),
        Step::Start => Ok(Some(LineReply::Step(book.step(step)))),
        Step::Finish(_, _) => Ok(Some(LineReply::Step(book.step(step)))),
    }
}

/// Returns the reply to a flush or a checkpoint, or its trouble.
fn reply_to_save(saved: Result<u64, Trouble>) -> Result<Option<LineReply>, Trouble>
    ensures { result ≡ save_replied saved }
{
    match saved {
        Ok(count) => Ok(Some(LineReply::Step(run_model::Reply::Acked(count)))),
        Err(trouble) => Err(trouble),
    }
}

/// Returns the status of the scope with this name.
fn scope_reply<B: Allocator>(name: &Name, state: &State<B>) -> LineReply
    ensures { result ≡ scope_reply state.now name.now }
{
    match state.find_scope(name).and_then(|scope| state.look(scope)) {
        Some(look) => LineReply::Scope(look),
        None => LineReply::Refused(Refusal::NoSuchScope),
    }
}

/// Returns the value of a key in the scope with this name.
fn value_reply<B: Allocator>(scope: &Name, key: &Name, state: &State<B>) -> LineReply
    ensures { result ≡ value_reply state.now scope.now key.now }
{
    let Some(scope) = state.find_scope(scope) else {
        return LineReply::Refused(Refusal::NoSuchScope);
    };
    match state.value(scope, key) {
        Some(text) => LineReply::Value(text),
        None => LineReply::Refused(Refusal::NoValue),
    }
}

/// Returns the phase of the task with this number.
fn task_reply<B: Allocator>(task: u16, state: &State<B>) -> LineReply
    ensures { result ≡ task_reply state.now task }
{
    match state.task(task) {
        Some(look) => LineReply::Task(task, look.phase),
        None => LineReply::Refused(Refusal::NoSuchTask),
    }
}

/// Returns the status of the group with this name.
fn group_reply<B: Allocator>(name: &Name, state: &State<B>) -> LineReply
    ensures { result ≡ group_reply state.now name.now }
{
    match state.find_group(name).and_then(|group| state.group(group)) {
        Some(look) => LineReply::Group(look),
        None => LineReply::Refused(Refusal::NoSuchGroup),
    }
}
