//! What is seen of a scope, of a group and of a task, as tables write it.

use run_model::{GroupLook, Look, Phase, Reason, TaskLook, Text};

/// How a scope is.
#[derive(Clone, Copy, PartialEq)]
pub enum Seen<'a> {
    /// Not done.
    Live,
    /// Canceled, with this cause.
    Canceled(&'a [u8]),
    /// Ended by a deadline, with this cause.
    Exceeded(&'a [u8]),
}

/// How a scope is, by what is seen of it.
pub fn seen_of(look: &Look) -> Seen<'_> {
    match &look.done {
        None => Seen::Live,
        Some((Reason::Canceled, cause)) => Seen::Canceled(cause.as_bytes()),
        Some((Reason::DeadlineExceeded, cause)) => Seen::Exceeded(cause.as_bytes()),
    }
}

/// What is seen of a group: its scope, unfinished tasks, limit, whether it was waited for, error.
pub type GroupSeen = (u16, u16, Option<u8>, bool, Option<&'static [u8]>);

fn bytes_of(text: &Option<Text>) -> Option<&[u8]> {
    match text {
        Some(text) => Some(text.as_bytes()),
        None => None,
    }
}

/// Says whether a group is called so, and this is seen of it.
pub fn is_group(look: &GroupLook, called: &[u8], seen: &GroupSeen) -> bool {
    look.name.as_bytes() == called
        && look.scope == seen.0
        && look.unfinished == seen.1
        && look.limit.get() == seen.2
        && look.waited == seen.3
        && bytes_of(&look.error) == seen.4
}

/// How far a task is.
#[derive(Clone, Copy, PartialEq)]
pub enum Going<'a> {
    /// Not started, and not admitted.
    Held,
    /// Not started, and admitted.
    Ready,
    /// Started and not finished.
    Running,
    /// Finished without an error.
    Success,
    /// Finished with this error.
    Failure(&'a [u8]),
    /// Cut off by a restart.
    Interrupted,
}

/// How far a task is, by its phase.
pub fn going_of(phase: &Phase) -> Going<'_> {
    match phase {
        Phase::Held => Going::Held,
        Phase::Ready => Going::Ready,
        Phase::Running => Going::Running,
        Phase::Success => Going::Success,
        Phase::Failure(error) => Going::Failure(error.as_bytes()),
        Phase::Interrupted => Going::Interrupted,
    }
}

/// A task's job and argument, how far it is, and which task it is a retry of.
pub type TaskSeen = (&'static [u8], &'static [u8], Going<'static>, Option<u16>);

/// Says whether this is seen of a task.
pub fn is_task(look: &TaskLook, seen: &TaskSeen) -> bool {
    look.job.as_bytes() == seen.0
        && look.argument.as_bytes() == seen.1
        && going_of(&look.phase) == seen.2
        && look.retry_of == seen.3
}
