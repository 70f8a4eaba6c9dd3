//! Steps as tables write them, by bytes and numbers.

use run_model::{Command, Limit, Moment, Name, Outcome, Step, Text, Wish};

/// What a derive asks for. A cause of no bytes is none.
#[derive(Clone, Copy)]
pub enum Ask {
    /// A scope that takes no cause.
    Cancel,
    /// A scope that takes a cause.
    Cause,
    /// A deadline, and its cause.
    Deadline(u64, &'static [u8]),
    /// A timeout of so many seconds.
    Timeout(u64),
    /// A value under a key.
    Value(&'static [u8], &'static [u8]),
    /// A detached scope.
    Detached,
}

/// A step. Scopes and groups go by name, tasks by number. A cause of no bytes is none.
#[derive(Clone, Copy)]
pub enum Call {
    /// A scope of this name below a parent.
    Derive(&'static [u8], &'static [u8], Ask),
    /// A scope, and the cause that it is canceled with.
    Cancel(&'static [u8], &'static [u8]),
    /// The clock to this moment.
    Advance(u64),
    /// A group of this name, and the parent of its scope.
    Group(&'static [u8], &'static [u8]),
    /// A bare group of this name in a scope.
    Bare(&'static [u8], &'static [u8]),
    /// The limit of a group, or none.
    Limit(&'static [u8], Option<u8>),
    /// A task of a group, with its job and argument.
    Go(&'static [u8], &'static [u8], &'static [u8]),
    /// The same, only if it is ready at once.
    Try(&'static [u8], &'static [u8], &'static [u8]),
    /// An interrupted task anew.
    Retry(u16),
    /// A group.
    Wait(&'static [u8]),
    /// The least ready task.
    Start,
    /// A task without an error.
    Succeed(u16),
    /// A task with this error.
    Fail(u16, &'static [u8]),
    /// All events so far, by their records.
    Flush,
    /// All events so far, by an image.
    Checkpoint,
}

/// The step that a call is; none where its bytes are no name or text, or its number is too large.
pub fn step_of(call: Call) -> Option<Step> {
    match call {
        Call::Start => Some(Step::Start),
        Call::Succeed(task) => Some(Step::Finish(task, Outcome::Success)),
        Call::Fail(task, error) => failure(task, error),
        Call::Flush => Some(Step::Flush),
        Call::Checkpoint => Some(Step::Checkpoint),
        _ => command_of(call).map(Step::Command),
    }
}

fn failure(task: u16, error: &[u8]) -> Option<Step> {
    Text::read(error).map(|text| Step::Finish(task, Outcome::Failure(text)))
}

/// The command that a call is; none for the other steps, and where its bytes are no name or text.
pub fn command_of(call: Call) -> Option<Command> {
    match call {
        Call::Derive(called, parent, ask) => derive(called, parent, ask),
        Call::Cancel(scope, because) => cancel(scope, because),
        Call::Advance(seconds) => advance(seconds),
        Call::Retry(task) => Some(Command::Retry(task)),
        _ => group_command(call),
    }
}

/// The command of a call on a group; none for the others.
fn group_command(call: Call) -> Option<Command> {
    match call {
        Call::Group(called, parent) => group(called, parent),
        Call::Bare(called, scope) => bare(called, scope),
        Call::Limit(called, most) => limit(called, most),
        Call::Go(called, job, argument) => go(called, job, argument),
        Call::Try(called, job, argument) => try_go(called, job, argument),
        Call::Wait(called) => wait(called),
        _ => None,
    }
}

/// Two names; none where one of them is none.
fn names(one: &[u8], other: &[u8]) -> Option<(Name, Name)> {
    match (Name::read(one), Name::read(other)) {
        (Some(one), Some(other)) => Some((one, other)),
        _ => None,
    }
}

fn derive(called: &[u8], parent: &[u8], ask: Ask) -> Option<Command> {
    match (names(called, parent), wish_of(ask)) {
        (Some((name, parent)), Some(wish)) => Some(Command::Derive { name, parent, wish }),
        _ => None,
    }
}

fn wish_of(ask: Ask) -> Option<Wish> {
    match ask {
        Ask::Cancel => Some(Wish::Cancel),
        Ask::Cause => Some(Wish::Cause),
        Ask::Deadline(seconds, because) => deadline(seconds, because),
        Ask::Timeout(seconds) => Some(Wish::Timeout(seconds, None)),
        Ask::Value(key, value) => pair(key, value),
        Ask::Detached => Some(Wish::Detached),
    }
}

fn deadline(seconds: u64, because: &[u8]) -> Option<Wish> {
    match (Moment::new(seconds), cause_of(because)) {
        (Some(moment), Some(cause)) => Some(Wish::Deadline(moment, cause)),
        _ => None,
    }
}

fn pair(key: &[u8], value: &[u8]) -> Option<Wish> {
    match (Name::read(key), Text::read(value)) {
        (Some(key), Some(value)) => Some(Wish::Value(key, value)),
        _ => None,
    }
}

/// The cause of these bytes, or of no bytes no cause; none where they are no text.
fn cause_of(bytes: &[u8]) -> Option<Option<Text>> {
    if bytes.is_empty() {
        return Some(None);
    }
    Text::read(bytes).map(Some)
}

fn cancel(scope: &[u8], because: &[u8]) -> Option<Command> {
    match (Name::read(scope), cause_of(because)) {
        (Some(scope), Some(cause)) => Some(Command::Cancel { scope, cause }),
        _ => None,
    }
}

fn advance(seconds: u64) -> Option<Command> {
    Moment::new(seconds).map(|moment| Command::Advance { moment })
}

fn group(called: &[u8], parent: &[u8]) -> Option<Command> {
    names(called, parent).map(|(name, parent)| Command::Group { name, parent })
}

fn bare(called: &[u8], scope: &[u8]) -> Option<Command> {
    names(called, scope).map(|(name, scope)| Command::Bare { name, scope })
}

fn limit(called: &[u8], most: Option<u8>) -> Option<Command> {
    let limit = match most {
        Some(most) => Limit::new(most),
        None => Some(Limit::none()),
    };
    match (Name::read(called), limit) {
        (Some(group), Some(limit)) => Some(Command::SetLimit { group, limit }),
        _ => None,
    }
}

fn go(called: &[u8], job: &[u8], argument: &[u8]) -> Option<Command> {
    match (Name::read(called), names(job, argument)) {
        (Some(group), Some((job, argument))) => Some(Command::Go {
            group,
            job,
            argument,
        }),
        _ => None,
    }
}

fn try_go(called: &[u8], job: &[u8], argument: &[u8]) -> Option<Command> {
    match (Name::read(called), names(job, argument)) {
        (Some(group), Some((job, argument))) => Some(Command::TryGo {
            group,
            job,
            argument,
        }),
        _ => None,
    }
}

fn wait(called: &[u8]) -> Option<Command> {
    Name::read(called).map(|group| Command::Wait { group })
}
