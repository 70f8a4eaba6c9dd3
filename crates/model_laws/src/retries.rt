//! Retries: a task is retried at most once, and the new task names the one that it retries.

ghost use Rattle.std.specs.Prelude.{◌≡◌, ℕ, List, Some, true, false};
ghost use Rattle.run_model.specs.declared.tasks.Task.{Task};
ghost use Rattle.run_model.specs.Allowed.{allowed, after, run};
ghost use Rattle.run_model.specs.Event.{Event};
ghost use Rattle.run_model.specs.Event as event;
ghost use Rattle.run_model.specs.State.{State};
ghost use Rattle.run_model.specs.Step.{step};
ghost use Rattle.run_model.specs.Rules.{HasRow};
ghost use Rattle.model_laws.specs.Retries.{IsTriedAgain, KeepsLink};

/// A retry is a new task, the last of all, with the group, the job and the argument of the old one.
/// It isn't started yet.
pub fn a_retry_is_a_task_of_its_own()
    ensures { (p : State) (n : ℕ) (row : Task) → HasRow p.work.tasks n row
        → IsTriedAgain p n row (step p (event.Retry n)) }
{}

/// A task is retried at most once, whatever comes after the retry.
pub fn a_task_is_retried_once()
    ensures { (p q : State) (n : ℕ) (events : List Event) → allowed p (event.Retry n) ≡ true
        → run (step p (event.Retry n)) events ≡ Some q → allowed q (event.Retry n) ≡ false }
{}

/// A retry names the same old task through every event.
pub fn links_stay()
    ensures { (p q : State) (event : Event) (n : ℕ) (row : Task) → after p event ≡ Some q
        → HasRow p.work.tasks n row → KeepsLink q n row }
{}
