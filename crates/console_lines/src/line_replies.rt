//! A [`LineReply`] is the reply to one line.

use crate::tallies::JobTally;
use run_model::{GroupLook, Look, Phase, Refusal, Text, Trouble};

/// The reply to a line.
#[derive(Drop)]
pub enum LineReply {
    /// The line has no form that the console knows: `bad line`.
    BadLine,
    /// The line was refused, and changed nothing: `refused 12 AlreadyDone`.
    Refused(Refusal),
    /// The answer to a step, such as `scope 1`, `start 0 copy a` or `acked 4`.
    Step(run_model::Reply),
    /// The state of a scope: `live; deadline D`, or `done; deadline D; err E; cause C`.
    Scope(Look),
    /// The value that a scope holds under the key in the question: `value eu`.
    Value(Text),
    /// The phase of the task with this number: `task 0 running`.
    Task(u16, Phase),
    /// The state of a group: `unfinished N; limit L; waited W; error X`.
    Group(GroupLook),
    /// How many tasks a job has, and how they have ended:
    /// `tally copy total 1; success 1; failure 0; interrupted 0`.
    Tally(JobTally),
    /// Why a flush or a checkpoint failed: `fault 2 DiskFailed`.
    Failed(Trouble),
}
