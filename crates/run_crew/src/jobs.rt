//! A worker runs a [`Job`] for a task, turn by turn, and asks a [`Gate`] before each turn.

ghost use Rattle.std.specs.Prelude.{◌≡◌, ℕ, Bool, List, true, ⊤};
ghost use Rattle.run_model.specs.declared.answers.TaskInfo.{TaskInfo};
ghost use Rattle.run_crew.specs.declared.jobs.Turn.{Turn};

use run_model::{Name, TaskInfo, Text};

/// The result of a turn.
#[derive(Debug, Drop)]
pub enum Turn {
    /// The task wants another turn.
    More,
    /// The task has ended without an error.
    Finished,
    /// The task has ended with this error.
    Failed(Text),
}

/// What a worker can run for a task. Each worker has a list of jobs of its own. The first job that
/// handles a task's job name runs the task.
pub trait Job: Drop {
    /// What the job may answer about a job name.
    ghost answers: { Self → List ℕ → Bool → Type 0 } = { λ _ _ _. ⊤ };

    /// What a turn may return, and what it may leave of the job.
    ghost turns: { Self → TaskInfo → ℕ → Bool → Turn → Self → Type 0 } = { λ _ _ _ _ _ _. ⊤ };

    /// Returns whether this job handles tasks with this job name.
    fn handles(&self, job: &Name) -> bool
        ensures { answers self.now job.now result };

    /// Makes one turn of a task. Turns are counted from 0. `done` says whether the task's scope is
    /// done; the job may then end the task or go on. No lock is held during the turn.
    fn turn(&mut self, info: &TaskInfo, turn: u32, done: bool) -> Turn
        ensures { turns self.old info.now turn done result self.new };
}

/// A box of a job is a job: it answers, and it leaves, what the job in it does.
impl Job for Box<dyn Job + Send> {
    ghost answers = { λ b name answer. (Job-box b).answers b.value name answer };

    ghost turns = { λ b info turn done answer left. (job : _)
        × (Job-box b).turns b.value info turn done answer job × (left ≡ record b { value = job }) };

    fn handles(&self, job: &Name) -> bool {
        (**self).handles(job)
    }

    fn turn(&mut self, info: &TaskInfo, turn: u32, done: bool) -> Turn {
        (**self).turn(info, turn, done)
    }
}

/// Decides whether turns may be made. All workers share the gate, and call it without holding a
/// lock.
pub trait Gate {
    /// What the gate may answer for a turn of a task.
    ghost lets: { Self → ℕ → ℕ → Bool → Type 0 } = { λ _ _ _ _. ⊤ };

    /// The gate was informed that this task was finished.
    ghost reported: { Self → ℕ → Type 0 } = { λ _ _. ⊤ };

    /// Returns whether a worker may make this turn of a task. If not, the task ends with the
    /// failure `gate`.
    fn before(&self, task: u16, turn: u32) -> bool
        ensures { lets self.now task turn result };

    /// Informs the gate that a task was finished.
    fn finished(&self, task: u16)
        ensures { reported self.now task };
}

/// A gate that lets each turn pass.
#[derive(Clone, Copy)]
pub struct OpenGate;

impl Gate for OpenGate {
    ghost lets = { λ _ _ _ answer. answer ≡ true };

    fn before(&self, _task: u16, _turn: u32) -> bool
        ensures { result ≡ true }
    {
        true
    }

    fn finished(&self, _task: u16) {}
}
