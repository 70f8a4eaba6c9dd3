//! A worker takes each task through a *course*: it starts the task, makes its turns, finishes it,
//! and notes that. The shift of a worker consists of one course after another.

ghost use Rattle.std.specs.Prelude.{◌≡◌, ◌⊎◌, ◌<◌, ◌≤◌, ◌+◌, [], length, MatchOption};
ghost use Rattle.run_model.specs.declared.tasks.Outcome.TheVariants as outcome;
ghost use Rattle.run_model.specs.Texts.{IsText};
ghost use Rattle.run_crew.specs.Courses.{AreTurns, Counts, IsBegun, IsRun, IsShift, TakesTask};
ghost use Rattle.run_crew.specs.Courses.{Went};
ghost use Rattle.run_crew.specs.OwnCounts.{one_part, one_start};
ghost use Rattle.run_crew.specs.Shifts.{AfterTask};

use crate::jobs::Turn;
use crate::notes::{Note, WorkerNotes};
use crate::own_counts::OwnCounts;
use crate::worker_calls::WorkerCalls;
use run_model::{Outcome, Started, TaskInfo, Text};
use std::sync::Wait;
use std::sync::ledger::Ledger;

/// The greatest number of turns of a task.
const MOST_TURNS: u32 = 1_000;

/// Takes tasks until one of them isn't finished and noted, for example because no task is ready.
pub fn take_tasks<S: Ledger, F: Ledger, W: WorkerCalls<S, F>, R: Wait>(
    rt: &R,
    worker: &mut W,
    own: &mut OwnCounts<S, F>,
    notes: &mut WorkerNotes,
)
    requires own { own.old ≡ one_part }
    requires notes { notes.old ≡ [] }
    ensures parts { (own.new.start_parts ≡ 1) × (own.new.finish_parts ≡ 1) }
    ensures finishes { own.new.finishes ≡ length notes.new }
    ensures starts { (length notes.new ≤ own.new.starts)
        × (own.new.starts ≤ length notes.new + 1) }
    ensures calls { Went W.step (Counts 0 own.new.starts (IsShift (W.jobs worker.old) notes.new))
        worker.old worker.new }
{
    for _ in rt.forever() {
        if !take_task(worker, own, notes) {
            return;
        }
    }
    unreachable!()
}

/// Starts a task, makes its turns, finishes it, and notes that. Returns whether all of this was
/// done. It isn't if the notes are full, or if the start, its flush or the finish fails.
pub fn take_task<S: Ledger, F: Ledger, W: WorkerCalls<S, F>>(
    worker: &mut W,
    own: &mut OwnCounts<S, F>,
    notes: &mut WorkerNotes,
) -> bool
    requires parts { (0 < own.old.start_parts) × (0 < own.old.finish_parts) }
    ensures own { AfterTask result own.old own.new (length notes.old) (length notes.new) }
    ensures jobs { W.jobs worker.new ≡ W.jobs worker.old }
    ensures calls { Went W.step (Counts own.old.starts own.new.starts
        (TakesTask (W.jobs worker.old) result notes.old notes.new)) worker.old worker.new }
{
    if notes.is_full() {
        return false;
    }
    let Some(started) = start(worker, own) else {
        return false;
    };
    let task = started.info.task;
    let outcome = run(worker, &started.info);
    let Ok(event) = worker.finish(own, task, &outcome) else {
        return false;
    };
    notes.note(Note {
        event,
        task,
        outcome,
    });
    worker.report(task);
    worker.wake(event);
    true
}

/// Starts the ready task with the lowest number, and makes the start durable before the first turn.
/// `None` if one of the two fails.
fn start<S: Ledger, F: Ledger, W: WorkerCalls<S, F>>(
    worker: &mut W,
    own: &mut OwnCounts<S, F>,
) -> Option<Started>
    requires part { 0 < own.old.start_parts }
    ensures own { MatchOption result ((own.new ≡ own.old) ⊎ (own.new ≡ one_start own.old))
        (λ _. own.new ≡ one_start own.old) }
    ensures jobs { W.jobs worker.new ≡ W.jobs worker.old }
    ensures calls { Went W.step (Counts own.old.starts own.new.starts (IsBegun result))
        worker.old worker.new }
{
    let Ok(started) = worker.start(own) else {
        return None;
    };
    match worker.save(started.event) {
        Ok(_) => Some(started),
        Err(_) => None,
    }
}

/// Runs a task by the first job that handles its name, and returns its outcome. If there is no such
/// job, the outcome is the failure `no such job`.
fn run<S: Ledger, F: Ledger, W: WorkerCalls<S, F>>(worker: &mut W, info: &TaskInfo) -> Outcome
    ensures jobs { W.jobs worker.new ≡ W.jobs worker.old }
    ensures calls { Went W.step (λ calls. IsRun (W.jobs worker.old) info.now calls result)
        worker.old worker.new }
{
    for job in 0..worker.jobs() {
        if worker.handles(job, &info.job) {
            return make_turns(worker, job, info);
        }
    }
    failure(b"no such job")
}

/// Runs a task by this job, and returns its outcome. Before each turn it asks the gate, and then
/// whether the task's scope is done.
fn make_turns<S: Ledger, F: Ledger, W: WorkerCalls<S, F>>(
    worker: &mut W,
    job: usize,
    info: &TaskInfo,
) -> Outcome
    requires place { job < W.jobs worker.old }
    ensures jobs { W.jobs worker.new ≡ W.jobs worker.old }
    ensures calls { Went W.step (λ calls. AreTurns info.now job calls result)
        worker.old worker.new }
{
    for turn in 0..MOST_TURNS {
        if !worker.may_turn(info.task, turn) {
            return failure(b"gate");
        }
        let done = worker.is_done(info.task);
        match worker.turn(job, info, turn, done) {
            Turn::More => {}
            Turn::Finished => return Outcome::Success,
            Turn::Failed(error) => return Outcome::Failure(error),
        }
    }
    failure(b"turn limit")
}

/// Returns a failure with this error.
fn failure(error: &[u8]) -> Outcome
    requires text { IsText error.now }
    ensures { result ≡ outcome.Failure error.now }
{
    match Text::read(error) {
        Some(error) => Outcome::Failure(error),
        None => unreachable!(),
    }
}
