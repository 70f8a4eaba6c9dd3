//! The audit of a run compares the notes of its workers with the finishes in the history, and
//! searches for tasks that are left.

ghost use Rattle.std.specs.Prelude.{◌≡◌, ◌++◌, ◌||◌, MatchOption, MatchResult, OnOk};
ghost use Rattle.std.specs.List.Sorted.{IsPermutation};
ghost use Rattle.run_crew.specs.Audits.{FirstStrayIn, HasStrayed, IsComplete, IsFirstLeft};
ghost use Rattle.run_crew.specs.Audits.{IsFirstStray, NoStray, NoneLeft, is_left};
ghost use Rattle.run_crew.specs.Audits.{is_stray, made_at};
ghost use Rattle.run_crew.specs.Notes.{has};
ghost use Rattle.run_crew.specs.Notes.{all_notes};

use crate::desks::Desk;
use crate::finishes::Finishes;
use crate::notes::{Note, WorkerNotes, has_note, have_note};
use crate::openings::Opening;
use run_book::State;
use run_disk::RunDisk;
use run_model::Phase;
use std::sync::ledger::Ledger;

/// The first difference that an audit found: a worker and the place of one of its notes, both
/// counted from 0.
///
/// If a finish is in no list, they are the number of lists, and 0. If the only difference is a task
/// that is left ready or running, they are the number of lists, and 1 more than the lowest number
/// of such a task.
#[derive(Clone, Copy, PartialEq, Eq)]
pub struct Strayed {
    /// The number of the worker.
    pub worker: usize,
    /// The place of the note.
    pub note: usize,
}

/// Compares the notes of the workers with the finishes since the desk was made. They agree if each
/// finish is noted once, with its number, task and outcome, and no other finish is noted. Also, no
/// task may be ready or running. If they don't agree, the result is the first of these differences:
/// a note that belongs to no such finish or repeats an earlier note (the first one, by worker and
/// then by place); a finish that is in no list; a task that is left. Takes no memory.
pub fn audit<D: RunDisk, S: Ledger, F: Ledger, O: Opening>(
    desk: &Desk<D, S, F, O>,
    lists: &[WorkerNotes],
) -> Result<(), Strayed>
    ensures answer { MatchResult result (λ _. IsComplete desk.now lists.now)
        (λ strayed. HasStrayed desk.now lists.now strayed) }
    ensures exactly { OnOk result (IsPermutation (made_at desk.now) (all_notes lists.now)) }
{
    let made = Finishes::since_made(desk);
    if let Some(strayed) = first_stray(&made, lists) {
        return Err(strayed);
    }
    let worker = lists.len();
    let are_noted = made.are_noted(lists);
    if !are_noted {
        return Err(Strayed { worker, note: 0 });
    }
    match first_left(desk.book().state()) {
        Some(task) => Err(Strayed {
            worker,
            note: task as usize + 1,
        }),
        None => Ok(()),
    }
}

/// Returns the place of the first stray note, by worker and then by place.
fn first_stray(made: &Finishes<'_>, lists: &[WorkerNotes]) -> Option<Strayed>
    ensures { MatchOption result (NoStray made.now lists.now)
        (λ strayed. IsFirstStray made.now lists.now strayed) }
{
    for worker in 0..lists.len() {
        let notes = lists[worker].as_slice();
        if let Some(note) = first_stray_in(made, &lists[..worker], notes) {
            return Some(Strayed { worker, note });
        }
    }
    None
}

/// Returns the place of the first stray note in this list, which comes after the lists `before`.
fn first_stray_in(made: &Finishes<'_>, before: &[WorkerNotes], notes: &[Note]) -> Option<usize>
    ensures { FirstStrayIn made.now (all_notes before.now) notes.now result }
{
    for place in 0..notes.len() {
        if is_stray(made, before, &notes[..place], &notes[place]) {
            return Some(place);
        }
    }
    None
}

/// Returns whether a note belongs to no finish that was made, or repeats an earlier note.
fn is_stray(made: &Finishes<'_>, before: &[WorkerNotes], earlier: &[Note], note: &Note) -> bool
    ensures { result ≡ is_stray made.now (all_notes before.now ++ earlier.now) note.now }
{
    let was_made = made.has(note);
    let was_noted = have_noted(before, note);
    let stands_earlier = has_note(earlier, note);
    is_any_of(!was_made, was_noted, stands_earlier)
}

fn is_any_of(one: bool, two: bool, three: bool) -> bool
    ensures { result ≡ (one || (two || three)) }
{
    one || two || three
}

/// Returns whether one of these workers has made this note.
fn have_noted(lists: &[WorkerNotes], note: &Note) -> bool
    ensures { result ≡ has (all_notes lists.now) note.now }
{
    have_note(lists, note)
}

/// Returns the lowest number of a task that is ready or running.
fn first_left(state: &State) -> Option<u16>
    ensures { MatchOption result (NoneLeft state.now.work)
        (λ task. IsFirstLeft state.now.work task) }
{
    for task in 0..state.task_count() as u16 {
        if is_left(state, task) {
            return Some(task);
        }
    }
    None
}

/// Returns whether a task is ready or running.
fn is_left(state: &State, task: u16) -> bool
    ensures { result ≡ is_left state.now.work task }
{
    matches!(state.phase(task), Some(Phase::Ready | Phase::Running))
}
