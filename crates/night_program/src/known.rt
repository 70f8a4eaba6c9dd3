//! Tasks whose jobs the crews of the program don't know.

ghost use Rattle.std.specs.Prelude.{◌≡◌, ◌<◌, ◌≤◌, ◌+◌, ◌++◌, ◌∷◌, [], ℕ, List};
ghost use Rattle.std.specs.Prelude.{IfSome};
ghost use Rattle.run_model.specs.declared.tasks.Task.{Task};
ghost use Rattle.night_program.specs.Known.{FindsUnknown, IsSeen, is_known, is_unended, unknown_in};

use crate::jobs::{CopyJob, FailJob, SpinJob};
use run_book::Book;
use run_crew::Job;
use run_disk::RunDisk;
use run_model::{Fault, Name, Phase, TaskLook};
use run_session::State;
use std::alloc::{Allocator, Global};
use store_words::UnknownJob;

/// Finds the tasks in the store on a disk that haven't ended and whose jobs the crews don't know.
/// The disk is only read.
pub fn unknown_on<D: RunDisk>(alloc: Global, disk: &mut D) -> Result<Option<UnknownJob>, Fault>
    ensures { FindsUnknown D.state disk.old result disk.new }
{
    let state = Book::recover(alloc, disk)?;
    Ok(unknown_in(&state))
}

/// The tasks of a state that haven't ended and whose jobs the crews don't know, if there are any.
fn unknown_in<B: Allocator>(state: &State<B>) -> Option<UnknownJob>
    ensures { result ≡ unknown_in state.now.work.tasks }
{
    let mut found: Option<UnknownJob> = None;
    for task in 0..state.task_count() as u16 {
        found = with_task(found, &state.task(task).unwrap());
    }
    found
}

/// The same with one task more.
fn with_task(found: Option<UnknownJob>, look: &TaskLook) -> Option<UnknownJob>
    requires few { IfSome found (λ unknown. unknown.tasks < 65535) }
    ensures more { (tasks : List Task) (task : Task) → found ≡ unknown_in tasks
        → IsSeen task look.now → result ≡ unknown_in (tasks ++ task ∷ []) }
    ensures most { (n : ℕ) → IfSome found (λ unknown. unknown.tasks ≤ n)
        → IfSome result (λ unknown. unknown.tasks ≤ n + 1) }
{
    if is_known(&look.job) || !is_unended(&look.phase) {
        return found;
    }
    match found {
        Some(found) => Some(UnknownJob {
            job: found.job,
            tasks: found.tasks + 1,
        }),
        None => Some(UnknownJob {
            job: look.job.copy(),
            tasks: 1,
        }),
    }
}

/// Returns whether the program's crews know this job.
fn is_known(job: &Name) -> bool
    ensures { result ≡ is_known job.now }
{
    SpinJob.handles(job) || FailJob.handles(job) || CopyJob.handles(job)
}

/// Returns whether a task in this phase is yet to end.
fn is_unended(phase: &Phase) -> bool
    ensures { result ≡ is_unended phase.now }
{
    matches!(phase, Phase::Held | Phase::Ready | Phase::Running)
}
