//! A [`LineRequest`] is the request in a line, read from the bytes of the line only.

use run_model::{Name, Refusal, Step};

/// The request in a line, which no state has answered yet.
#[derive(Drop)]
pub enum LineRequest {
    /// Nothing: the line is empty, and has no reply.
    Nothing,
    /// It isn't a line of the console.
    BadLine,
    /// Every state refuses it, with this refusal.
    Refused(Refusal),
    /// It asks the session to take a step.
    Step(Step),
    /// It asks for the state of the scope with this name.
    Scope(Name),
    /// It asks for the value that the scope with this name holds under a key.
    Value { scope: Name, key: Name },
    /// It asks for the phase of the task with this number.
    Task(u16),
    /// It asks for the state of the group with this name.
    Result(Name),
    /// It asks how many tasks each job has, and how they have ended.
    Tally,
}
