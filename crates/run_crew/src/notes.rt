//! The notes of a worker: which tasks it has finished, how they ended, and by which events.

ghost use Rattle.std.specs.Prelude.{◌≡◌, ◌==◌, ◌<◌, ◌≤◌, ◌++◌, ◌∷◌, [], length, IfOk, IfErr};
ghost use Rattle.std.specs.List.{list_any};
ghost use Rattle.run_model.specs.declared.bounds.TheConstants.{MOST_TASKS};
ghost use Rattle.run_model.specs.declared.faults.Fault.TheVariants.{Memory};
ghost use Rattle.run_crew.specs.Notes.{has, is_same, is_same_outcome};

use run_model::{Fault, MOST_TASKS, Outcome};
use std::alloc::Global;
use std::marker::Model;

/// A note that a worker has finished a task.
#[derive(Drop)]
pub struct Note {
    /// The number of the event.
    pub event: u64,
    /// The number of the task.
    pub task: u16,
    /// How it ended.
    pub outcome: Outcome,
}

/// The notes of one worker, in the order of its finishes. Exactly 8,192 of them fit.
#[derive(Drop)]
pub struct WorkerNotes {
    notes: Vec<Note>,
}

impl Model for WorkerNotes {
    ghost use Rattle.std.specs.Prelude.{List, length, vec_capacity, ◌≡◌, ◌≤◌};
    ghost use Rattle.run_model.specs.declared.bounds.TheConstants.{MOST_TASKS};
    ghost use Rattle.run_crew.specs.declared.notes.Note.{Note};

    ghost Value = { List Note };

    ghost view = { λ n. n.notes.items };

    ghost invariant = { λ n.
        (length n.notes.items ≤ MOST_TASKS) × (vec_capacity n.notes ≡ MOST_TASKS) };
}

impl WorkerNotes {
    /// Returns an empty list with a capacity of 8,192 notes. `Memory` if memory is refused.
    pub fn with_room(alloc: Global) -> Result<WorkerNotes, Fault>
        ensures empty { IfOk result (λ notes. notes ≡ []) }
        ensures fault { IfErr result (λ fault. fault ≡ Memory) }
    {
        match Vec::with_capacity(alloc, MOST_TASKS) {
            Ok(notes) => Ok(WorkerNotes { notes }),
            Err(_) => Err(Fault::Memory),
        }
    }

    /// Adds a note.
    pub fn note(&mut self, note: Note)
        requires room { length self.old < MOST_TASKS }
        ensures added { self.new ≡ self.old ++ note ∷ [] }
    {
        self.notes.push_reserved(note);
    }

    /// Returns whether no further note fits.
    pub fn is_full(&self) -> bool
        ensures full { result ≡ (length self.now == MOST_TASKS) }
        ensures most { length self.now ≤ MOST_TASKS }
    {
        self.notes.len() == MOST_TASKS
    }

    /// Returns the notes, in order. They are lent until the next one is added.
    pub fn as_slice(&self) -> &[Note]
        ensures { result.now ≡ self.now }
    {
        self.notes.as_slice()
    }
}

/// Returns whether a note is among these.
pub fn has_note(notes: &[Note], note: &Note) -> bool
    ensures { result ≡ has notes.now note.now }
{
    notes.iter().any(|other| is_same_note(note, other))
}

/// Returns whether one of these workers has this note.
pub fn have_note(lists: &[WorkerNotes], note: &Note) -> bool
    ensures { result ≡ list_any (λ notes. has notes note.now) lists.now }
{
    lists.iter().any(|notes| has_note(notes.as_slice(), note))
}

pub fn is_same_note(note: &Note, other: &Note) -> bool
    ensures { result ≡ is_same note.now other.now }
{
    note.event == other.event
        && note.task == other.task
        && is_same_outcome(&note.outcome, &other.outcome)
}

fn is_same_outcome(one: &Outcome, other: &Outcome) -> bool
    ensures { result ≡ is_same_outcome one.now other.now }
{
    match (one, other) {
        (Outcome::Success, Outcome::Success) => true,
        (Outcome::Failure(one), Outcome::Failure(other)) => one == other,
        _ => false,
    }
}
