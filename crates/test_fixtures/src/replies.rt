//! What a step is answered, as tables write it.

use run_model::{Answer, Fault, Phase, Refusal, Reply, Started};

/// What a step is answered.
#[derive(Clone, Copy, PartialEq)]
pub enum Replied<'a> {
    /// The number of a scope.
    Scope(u16),
    /// The numbers of a group and of its own scope.
    Group(u16, Option<u16>),
    /// It is done.
    Done,
    /// The number of a task that is held.
    Held(u16),
    /// The number of a task that is ready.
    Ready(u16),
    /// The first error of a group.
    Waited(Option<&'a [u8]>),
    /// The number of the event, that of a task, its job and argument, and whether its scope is
    /// done.
    Started(u64, u16, &'a [u8], &'a [u8], bool),
    /// The number of an event.
    Finished(u64),
    /// All events up to this number are durable.
    Acked(u64),
    /// A refusal.
    Refused(Refusal),
    /// A fault.
    Faulty(Fault),
    /// Anything else.
    Other,
}

/// The reply of a command that was answered so.
pub fn answered(answer: Result<Answer, Refusal>) -> Reply {
    match answer {
        Ok(answer) => Reply::Answer(answer),
        Err(refusal) => Reply::Refused(refusal),
    }
}

/// The reply of a start that was answered so.
pub fn started(answer: Result<Started, Refusal>) -> Reply {
    match answer {
        Ok(started) => Reply::Started(started),
        Err(refusal) => Reply::Refused(refusal),
    }
}

/// The reply of a finish that was answered so.
pub fn finished(answer: Result<u64, Refusal>) -> Reply {
    match answer {
        Ok(event) => Reply::Finished(event),
        Err(refusal) => Reply::Refused(refusal),
    }
}

/// What a reply says.
pub fn replied_by(reply: &Reply) -> Replied<'_> {
    match reply {
        Reply::Answer(answer) => replied_by_answer(answer),
        Reply::Started(started) => replied_by_start(started),
        Reply::Finished(event) => Replied::Finished(*event),
        Reply::Acked(event) => Replied::Acked(*event),
        Reply::Refused(refusal) => Replied::Refused(*refusal),
        Reply::Faulty(fault) => Replied::Faulty(*fault),
    }
}

fn replied_by_answer(answer: &Answer) -> Replied<'_> {
    match answer {
        Answer::Scope(scope) => Replied::Scope(*scope),
        Answer::Group(group, scope) => Replied::Group(*group, *scope),
        Answer::Done => Replied::Done,
        Answer::Task(task, Phase::Held) => Replied::Held(*task),
        Answer::Task(task, Phase::Ready) => Replied::Ready(*task),
        Answer::Task(_, _) => Replied::Other,
        Answer::Waited(Some(error)) => Replied::Waited(Some(error.as_bytes())),
        Answer::Waited(None) => Replied::Waited(None),
    }
}

fn replied_by_start(started: &Started) -> Replied<'_> {
    Replied::Started(
        started.event,
        started.info.task,
        started.info.job.as_bytes(),
        started.info.argument.as_bytes(),
        started.done,
    )
}
