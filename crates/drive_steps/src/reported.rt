//! Which begins may be reported of a row of steps, by the replies to the steps.

ghost use Rattle.std.specs.Option.{option_map};
ghost use Rattle.std.specs.List.{list_any};
ghost use Rattle.std.specs.Prelude.{◌≡◌, IfOk, drop};
ghost use Rattle.drive_steps.specs.Cancels.{are_started, had_room, is_full};
ghost use Rattle.drive_steps.specs.Reported.{begins_reported, first_started, is_acked};

use crate::cancels::CommandCancel;
use run_model::{Refusal, Reply};
use std::alloc::{AllocError, Global};

/// A command that has begun, and the task that was started for it.
#[derive(Clone, Copy)]
pub struct Begun {
    pub command: usize,
    pub task: u16,
}

/// Returns which commands have begun, each with its task, by the replies to the steps of
/// [`row_of`](crate::starts::row_of). `None` if a step was refused or met a fault. Then nothing may
/// be reported, not even of the commands whose tasks were started.
pub fn reported(
    alloc: Global,
    chosen: &[usize],
    replies: &[Reply],
) -> Result<Option<Vec<Begun>>, AllocError>
    ensures { IfOk result (λ reported. option_map (λ begun. begun.items) reported
        ≡ begins_reported chosen.now replies.now) }
{
    let mut all = Vec::new(alloc);
    let mut rest = replies;
    for c in chosen {
        let Some(task) = first_started(rest) else {
            return Ok(None);
        };
        all.push(Begun { command: *c, task })?;
        rest = &rest[2..];
    }
    Ok(if is_acked(rest) { Some(all) } else { None })
}

/// Returns whether these cancels of commands were recorded, by the replies to the steps of
/// [`record_of`](crate::heard::record_of): each task was submitted and started. This many ends came
/// before them. If it isn't so, a step was refused, and not all cancels can be believed.
pub fn were_canceled(ends: usize, taken: &[CommandCancel], replies: &[Reply]) -> bool
    ensures { result ≡ are_started taken.now (drop ends replies.now) }
{
    let mut rest = from(replies, ends);
    for cancel in taken {
        let Some(_task) = first_started(rest) else {
            return false;
        };
        rest = from(rest, 3);
    }
    true
}

/// Returns the replies from this one on.
fn from(replies: &[Reply], first: usize) -> &[Reply]
    ensures { result.now ≡ drop first replies.now }
{
    if first < replies.len() {
        &replies[first..]
    } else {
        &replies[replies.len()..]
    }
}

/// Returns whether the log had room for all steps, by the replies to them.
pub fn had_room(replies: &[Reply]) -> bool
    ensures { result ≡ had_room replies.now }
{
    !was_full(replies)
}

/// Returns whether the log had no room for one of the steps.
fn was_full(replies: &[Reply]) -> bool
    ensures { result ≡ list_any is_full replies.now }
{
    replies.iter().any(|reply| is_full(reply))
}

/// Returns whether the log had no room for a step.
fn is_full(reply: &Reply) -> bool
    ensures { result ≡ is_full reply.now }
{
    matches!(reply, Reply::Refused(Refusal::SessionFull))
}

/// Returns the task that was started, if the first two replies say that one was submitted and that
/// one was started.
fn first_started(replies: &[Reply]) -> Option<u16>
    ensures { result ≡ first_started replies.now }
{
    match (replies.get(0), replies.get(1)) {
        (Some(Reply::Answer(_)), Some(Reply::Started(started))) => Some(started.info.task),
        _ => None,
    }
}

/// Returns whether this is one reply, which acknowledges what was flushed.
fn is_acked(replies: &[Reply]) -> bool
    ensures { result ≡ is_acked replies.now }
{
    replies.len() == 1 && matches!(replies.get(0), Some(Reply::Acked(_)))
}
