//! No task is noted twice in nights whose audit is ok, however many there are.

ghost use Rattle.std.specs.Prelude.{◌≡◌, ◌≤◌, ℕ, All, AllPairs, List, Ok, Option, Some, true};
ghost use Rattle.run_model.specs.Allowed.{run};
ghost use Rattle.run_model.specs.Event.{Event};
ghost use Rattle.run_model.specs.State.{State};
ghost use Rattle.run_disk.specs.Disk.{IsAtRest};
ghost use Rattle.book_model.specs.Stores.{Stores};
ghost use Rattle.run_crew.specs.Crews.{CrewEnds};
ghost use Rattle.run_crew.specs.Nights.{AreShifts, OfDesk};
ghost use Rattle.run_crew.specs.Courses.{Call};
ghost use Rattle.run_crew.specs.declared.notes.Note.{Note};
ghost use Rattle.crew_laws.specs.Audits.{AreWholeShifts, GoesUp, HasEnded, IsAudited, IsOfNoted};
ghost use Rattle.crew_laws.specs.Audits.{IsWholeShift, notes_of};

use run_crew::{Gate, Job};
use run_disk::RunDisk;

/// If a crew returns `Ok(true)`, its workers have noted no task twice: neither has one worker two
/// notes of a task, nor have two workers a note of the same one. Each noted task has ended in the
/// state that every crash leaves, and hadn't ended when the night began. No worker has started a
/// task that it hasn't noted (`night`). A task that has ended stays so, whatever events come after
/// it, even restarts (`later`). So over any number of such nights, no task is noted in two of them,
/// if no renewal between them renumbers the tasks.
///
/// This follows from the contract of `crew` alone: that the calls under the lock are the steps of
/// one book is no premise.
pub fn no_task_is_noted_twice<D: RunDisk, G: Gate, J: Job, L>()
    ensures night { (gate : G) (items : L → List J) (jobs : List L) (given left : D) (p : State)
        (workers : ℕ) (w0 w1 : Option (List ℕ))
        → CrewEnds D.state (λ known lists starts.
        AreShifts (OfDesk D.state known (G.lets gate) (G.reported gate)) J.answers J.turns
        items jobs lists starts) given workers (Ok true) left w0 w1
        → (D.state given).honest → IsAtRest (D.state given) → Stores (D.state given).now p
        → IsAudited D.state (λ known lists.
        AreWholeShifts (OfDesk D.state known (G.lets gate) (G.reported gate)) J.answers J.turns
        items jobs lists) p workers given left }
    ensures later { (p q : State) (task : ℕ) (events : List Event) → HasEnded p task
        → run p events ≡ Some q → HasEnded q task }
{}

/// In a whole shift, each turn is a turn of a task that the worker has noted (`noted`). If no task
/// has two notes, the turns of a task have greater numbers one after another, so none is made twice
/// (`once`).
///
/// With [`no_task_is_noted_twice`] this is about any number of nights for which `crew` returned
/// `Ok(true)`: no turn of a task is made twice, neither by two workers nor in two nights.
pub fn each_audited_turn_is_made_once()
    ensures noted { (jobs : ℕ) (notes : List Note) (calls : List Call)
        → IsWholeShift jobs notes calls → All (IsOfNoted notes) calls }
    ensures once { (jobs : ℕ) (notes : List Note) (calls : List Call)
        → IsWholeShift jobs notes calls → ((task : ℕ) → notes_of task notes ≤ 1)
        → AllPairs GoesUp calls }
{}
