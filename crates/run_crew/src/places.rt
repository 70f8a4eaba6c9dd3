//! A [`Place`] is the value under the lock, as the threads see it.

ghost use Rattle.std.specs.Prelude.{◌≡◌, ◌<◌, ℕ, Bool, Result, MatchResult};
ghost use Rattle.run_model.specs.declared.answers.Started.{Started};
ghost use Rattle.run_model.specs.declared.faults.Trouble.{Trouble};
ghost use Rattle.run_model.specs.declared.refusals.Refusal.{Refusal};
ghost use Rattle.run_model.specs.declared.tasks.Outcome.{Outcome};
ghost use Rattle.run_crew.specs.OwnCounts.{one_finish, one_start};

use crate::own_counts::OwnCounts;
use run_model::{Outcome, Refusal, Started, Trouble};
use std::sync::ledger::Ledger;

/// The calls that aren't counted.
pub trait Place {
    /// This many events are durable.
    ghost holds: { Self → ℕ → Type 0 };

    /// What a flush may return and leave.
    ghost flushes: { Self → Result ℕ Trouble → Self → Type 0 };

    /// What the place may answer about the scope of a task.
    ghost reports: { Self → ℕ → Bool → Type 0 };

    /// Returns the number of durable events.
    fn durable(&self) -> u64
        ensures { holds self.now result };

    /// Makes all events so far durable.
    fn flush(&mut self) -> Result<u64, Trouble>
        ensures { flushes self.old result self.new };

    /// Returns whether the scope of a task is done.
    fn is_done(&self, task: u16) -> bool
        ensures { reports self.now task result };
}

/// The calls that the thread that makes them counts.
pub trait CountedPlace<S: Ledger, F: Ledger>: Place {
    /// What a start may return and leave.
    ghost starts: { Self → Result Started Refusal → Self → Type 0 };

    /// What a finish of a task with an outcome may return and leave.
    ghost finishes: { Self → ℕ → Outcome → Result ℕ Refusal → Self → Type 0 };

    /// Starts a task.
    fn start_as(&mut self, own: &mut OwnCounts<S, F>) -> Result<Started, Refusal>
        requires part { 0 < own.old.start_parts }
        ensures starts { starts self.old result self.new }
        ensures own { MatchResult result (λ _. own.new ≡ one_start own.old)
            (λ _. own.new ≡ own.old) };

    /// Ends a task.
    fn finish_as(
        &mut self,
        own: &mut OwnCounts<S, F>,
        task: u16,
        outcome: &Outcome,
    ) -> Result<u64, Refusal>
        requires part { 0 < own.old.finish_parts }
        ensures finishes { finishes self.old task outcome.now result self.new }
        ensures own { MatchResult result (λ _. own.new ≡ one_finish own.old)
            (λ _. own.new ≡ own.old) };
}
