//! Laws about the notes of each worker, which follow from the contract of
//! [`run_night`](crate::run_night).

ghost use Rattle.std.specs.Prelude.{ℕ, All, List};
ghost use Rattle.run_crew.specs.Courses.{Call, IsOfShift, IsShift};
ghost use Rattle.run_crew.specs.Nights.{OfDesk};
ghost use Rattle.run_crew.specs.Turns.{AreDone, TurnsFollow, WasDurable};
ghost use Rattle.run_crew.specs.declared.notes.Note.{Note};

use crate::jobs::{Gate, Job};
use crate::openings::Opening;
use run_disk::RunDisk;

/// Each task in a worker's notes was started, and then run by the first of the worker's jobs that
/// handles its name. The outcome in the note is the answer of the job's last turn, or the failure
/// `gate`, `turn limit` or `no such job`. Every turn was made once, by the job as the turn before
/// had left it.
pub fn notes_are_what_the_jobs_answered<D: RunDisk, O: Opening, G: Gate, J: Job>()
    ensures { (gate : G) (jobs : List J) (notes : List Note) (starts : ℕ)
        → IsOfShift (OfDesk D.state O.opening (G.lets gate) (G.reported gate)) J.answers J.turns
        jobs notes starts
        → AreDone J.answers J.turns (OfDesk D.state O.opening (G.lets gate) (G.reported gate))
        notes jobs }
{}

/// A worker makes no turn of a task before it has learned that the task's start is durable. By then
/// some desk, whose book carries on from the facts known at its opening, has counted the start
/// among its durable events.
pub fn each_start_is_durable_before_its_turns<D: RunDisk, O: Opening, G: Gate, J: Job>()
    ensures order { (jobs : ℕ) (notes : List Note) (calls : List Call) → IsShift jobs notes calls
        → TurnsFollow calls }
    ensures desk { (gate : G) (jobs : List J) (notes : List Note) (starts : ℕ)
        → IsOfShift (OfDesk D.state O.opening (G.lets gate) (G.reported gate)) J.answers J.turns
        jobs notes starts
        → All (λ note. WasDurable D.state O.opening note) notes }
{}
