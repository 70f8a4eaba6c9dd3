//! A restart: what happens to the tasks that were running when the store was last in use.

ghost use Rattle.run_model.specs.Event as event;
ghost use Rattle.run_model.specs.State.{State};
ghost use Rattle.run_model.specs.Step.{step};
ghost use Rattle.model_laws.specs.Restarts.{IsRestart};

/// A restart leaves no task running. It changes only the count of events, the stages of the tasks
/// that were running, and the first errors and hits that their interruptions cause.
pub fn a_restart_interrupts_what_was_running()
    ensures { (p : State) → IsRestart p (step p event.Restart) }
{}
