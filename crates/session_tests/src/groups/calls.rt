//! Calls that change groups, each made only where its own test allows it.

use crate::runners::bytes;
use crate::values::{limit, name, text};
use run_model::{Limit, Name, Refusal, Text};
use std::alloc::Allocator;
use std::process::Abort;
use task_group::Groups;

/// A call. Groups and tasks go by number.
#[derive(Clone, Copy)]
pub enum Call {
    /// A group of this name in this scope, bare or not.
    Make(&'static [u8], u16, bool),
    /// The limit of a group, or none.
    Limit(u16, Option<u8>),
    /// A task of this job and argument.
    Go(u16, &'static [u8], &'static [u8]),
    /// The same, ready at once.
    Try(u16, &'static [u8], &'static [u8]),
    /// A task once more.
    Retry(u16),
    /// The least ready task.
    Start,
    /// A task without an error.
    Succeed(u16),
    /// A task with this error.
    Lose(u16, &'static [u8]),
    /// A group.
    Wait(u16),
}

/// A number that a call gives or a scope that it tells, or why it is refused.
pub type Reply = Result<Option<u16>, Refusal>;

/// Makes a group.
fn make<A: Allocator>(groups: &mut Groups<A>, called: &Name, scope: u16, bare: bool) -> Reply {
    let called = called.as_bytes();
    groups.check_make(called)?;
    Ok(Some(groups.make(called, scope, bare)))
}

/// Sets a limit.
fn set_limit<A: Allocator>(groups: &mut Groups<A>, group: u16, limit: Limit) -> Reply {
    groups.check_limit(group)?;
    groups.set_limit(group, limit);
    Ok(None)
}

/// Submits a task.
fn go<A: Allocator>(groups: &mut Groups<A>, group: u16, job: &Name, argument: &Name) -> Reply {
    groups.check_go(group)?;
    Ok(Some(groups.go(group, job.as_bytes(), argument.as_bytes())))
}

/// Submits a task that is ready at once.
fn try_go<A: Allocator>(groups: &mut Groups<A>, group: u16, job: &Name, argument: &Name) -> Reply {
    groups.check_try(group)?;
    Ok(Some(groups.try_go(group, job.as_bytes(), argument.as_bytes())))
}

/// Submits a task of this job and argument, which may have to be ready at once.
fn submit<A: Allocator>(
    rt: &impl Abort,
    groups: &mut Groups<A>,
    group: u16,
    job: &[u8],
    argument: &[u8],
    at_once: bool,
) -> Reply {
    let (job, argument) = (name(rt, job), name(rt, argument));
    if at_once {
        try_go(groups, group, &job, &argument)
    } else {
        go(groups, group, &job, &argument)
    }
}

/// Submits a task anew.
fn retry<A: Allocator>(groups: &mut Groups<A>, task: u16) -> Reply {
    groups.check_retry(task)?;
    Ok(Some(groups.retry(task)))
}

/// Starts a task.
fn start<A: Allocator>(groups: &mut Groups<A>) -> Reply {
    if groups.next_ready().is_none() {
        return Err(Refusal::NothingReady);
    }
    Ok(Some(groups.start()))
}

/// Ends a task, and gives the scope that is told.
fn finish<A: Allocator>(groups: &mut Groups<A>, task: u16, error: Option<&Text>) -> Reply {
    groups.check_finish(task)?;
    Ok(groups.finish(task, bytes(error)))
}

/// Waits for a group, and gives the scope that is told; a second wait asks for nothing, and tells
/// none.
fn wait<A: Allocator>(groups: &mut Groups<A>, group: u16) -> Reply {
    if groups.was_waited(group) {
        return Ok(None);
    }
    groups.check_wait(group)?;
    Ok(groups.wait(group))
}

/// Makes a call.
pub fn answer<A: Allocator>(rt: &impl Abort, groups: &mut Groups<A>, call: Call) -> Reply {
    match call {
        Call::Make(called, scope, bare) => make(groups, &name(rt, called), scope, bare),
        Call::Limit(group, most) => set_limit(groups, group, limit(rt, most)),
        Call::Go(group, job, argument) => submit(rt, groups, group, job, argument, false),
        Call::Try(group, job, argument) => submit(rt, groups, group, job, argument, true),
        Call::Retry(task) => retry(groups, task),
        Call::Start => start(groups),
        Call::Succeed(task) => finish(groups, task, None),
        Call::Lose(task, error) => finish(groups, task, Some(&text(rt, error))),
        Call::Wait(group) => wait(groups, group),
    }
}
