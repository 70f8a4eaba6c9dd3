//! [`WorkerCalls`] lists the calls that a worker makes while it takes a task.

ghost use Rattle.std.specs.Prelude.{◌≡◌, ◌<◌, ◌≤◌, ℕ, IfOk, MatchResult};
ghost use Rattle.run_crew.specs.Courses.{Call};
ghost use Rattle.run_crew.specs.Courses as call;
ghost use Rattle.run_crew.specs.OwnCounts.{one_finish, one_start};

use crate::jobs::Turn;
use crate::own_counts::OwnCounts;
use run_model::{Name, Outcome, Refusal, Started, TaskInfo, Trouble};
use std::sync::ledger::Ledger;

/// The calls of a worker. Each implementation defines what a call may do. The contract of a worker
/// holds for all of them, so it states which calls the worker makes, and in which order.
pub trait WorkerCalls<S: Ledger, F: Ledger> {
    /// What a call may do, as a relation between the state before it, the call with its answer, and
    /// the state after it.
    ghost step: { Self → Call → Self → Type 0 };

    /// The number of jobs.
    ghost jobs: { Self → ℕ };

    /// Returns the number of jobs.
    fn jobs(&self) -> usize
        ensures { result ≡ jobs self.now };

    /// Starts a task, under the lock.
    fn start(&mut self, own: &mut OwnCounts<S, F>) -> Result<Started, Refusal>
        requires part { 0 < own.old.start_parts }
        ensures step { step self.old (call.Start result) self.new }
        ensures jobs { jobs self.new ≡ jobs self.old }
        ensures own { MatchResult result (λ _. own.new ≡ one_start own.old)
            (λ _. own.new ≡ own.old) };

    /// Waits until all events up to this one are durable, whichever thread flushes, and returns the
    /// number of durable events.
    fn save(&mut self, event: u64) -> Result<u64, Trouble>
        ensures step { step self.old (call.Save event result) self.new }
        ensures reached { IfOk result (λ durable. event ≤ durable) }
        ensures jobs { jobs self.new ≡ jobs self.old };

    /// Asks the job at this place whether it handles this name.
    fn handles(&mut self, job: usize, name: &Name) -> bool
        requires place { job < jobs self.old }
        ensures step { step self.old (call.Handles job name.now result) self.new }
        ensures jobs { jobs self.new ≡ jobs self.old };

    /// Asks the gate whether a turn of a task may be made.
    fn may_turn(&mut self, task: u16, turn: u32) -> bool
        ensures step { step self.old (call.Gate task turn result) self.new }
        ensures jobs { jobs self.new ≡ jobs self.old };

    /// Asks, under the lock, whether the scope of a task is done.
    fn is_done(&mut self, task: u16) -> bool
        ensures step { step self.old (call.Scope task result) self.new }
        ensures jobs { jobs self.new ≡ jobs self.old };

    /// Lets the job at this place make a turn of a task.
    fn turn(&mut self, job: usize, info: &TaskInfo, turn: u32, done: bool) -> Turn
        requires place { job < jobs self.old }
        ensures step { step self.old (call.Make job info.now turn done result) self.new }
        ensures jobs { jobs self.new ≡ jobs self.old };

    /// Ends a task, under the lock.
    fn finish(
        &mut self,
        own: &mut OwnCounts<S, F>,
        task: u16,
        outcome: &Outcome,
    ) -> Result<u64, Refusal>
        requires part { 0 < own.old.finish_parts }
        ensures step { step self.old (call.Finish task outcome.now result) self.new }
        ensures jobs { jobs self.new ≡ jobs self.old }
        ensures own { MatchResult result (λ _. own.new ≡ one_finish own.old)
            (λ _. own.new ≡ own.old) };

    /// Informs the gate that a task was finished.
    fn report(&mut self, task: u16)
        ensures step { step self.old (call.Report task) self.new }
        ensures jobs { jobs self.new ≡ jobs self.old };

    /// Wakes the flusher for an event.
    fn wake(&mut self, event: u64)
        ensures step { step self.old (call.Wake event) self.new }
        ensures jobs { jobs self.new ≡ jobs self.old };
}
