//! A book over a disk is a machine. These laws say so, and say to which state many sessions lead.

ghost use Rattle.std.specs.Prelude.{◌≡◌, ◌≤◌, ◌++◌, ◌∷◌, List, ℕ, false, length, Some};
ghost use Rattle.std.specs.List.{flat_map};
ghost use Rattle.run_model.specs.declared.answers.Reply.{Reply};
ghost use Rattle.run_model.specs.declared.commands.Step.{Step};
ghost use Rattle.run_model.specs.Allowed.{allowed, run};
ghost use Rattle.run_model.specs.Event.{Event, Start};
ghost use Rattle.run_model.specs.Session.{acknowledged};
ghost use Rattle.run_model.specs.State.{State};
ghost use Rattle.book_model.specs.Machines.{GoesOn, Machine, Move, Running, Stored, TakesAll};
ghost use Rattle.book_model.specs.Machines.{opened_at};
ghost use Rattle.book_model.specs.ManyNights.{LeadOver, Night, Spent, StoresAfterNights};
ghost use Rattle.book_model.specs.ManyNights.{answers_of, moves_of, steps_of};
ghost use Rattle.book_model.specs.Nights.{opened_from};
ghost use Rattle.book_model.specs.Standing.{Closed, DoesAll, GoesAs, LiesWith, Standing, StandsAs};

use run_disk::RunDisk;

/// A book over a disk does what the machine does. Take any calls, crashes and openings, one after
/// another, where each opening finds an honest disk at rest that holds what a crash may have left.
/// Then the machine makes the same moves, reply for reply. The same is true of a book and a machine
/// that start in the same situation.
pub fn a_book_is_a_machine<D: RunDisk>()
    ensures store { (given : D) (p : State) (moves : List Move) (new : Standing D)
        → LiesWith D.state given p → DoesAll D.state (Closed given) moves new
        → GoesAs D.state (Stored p) moves new }
    ensures anywhere { (old new : Standing D) (m : Machine) (moves : List Move)
        → StandsAs D.state old m → DoesAll D.state old moves new → GoesAs D.state m moves new }
{}

/// The machine answers from its history. The state of its session is the one to which all events
/// since its opening have led, and no more events are acknowledged than there are.
pub fn a_machine_answers_from_its_history()
    ensures state { (p : State) (m : Running) (steps : List Step) (answers : List Reply)
        → TakesAll (opened_at p) steps answers m
        → run m.book.session.start m.book.session.history ≡ Some m.book.session.state }
    ensures acked { (p : State) (m : Running) (steps : List Step) (answers : List Reply)
        → TakesAll (opened_at p) steps answers m → m.acked ≤ length m.book.session.history }
{}

/// However many sessions follow one another, nothing that was acknowledged is lost. The state after
/// the last session is that of the first store, changed session by session: by a restart, by every
/// event that the replies of the session acknowledged, and perhaps by some more of the events that
/// it accepted, in order and without a gap. This holds for a machine that models a book without a
/// disk (`machine`). It also holds for real books (`books`), if the disk of each session holds what
/// a crash has left of the disk before it.
pub fn many_nights_lose_nothing_acknowledged<D: RunDisk>()
    ensures machine { (p q : State) (nights : List Night)
        → GoesOn (Stored p) (flat_map moves_of nights) (Stored q) → LeadOver p nights q }
    ensures books { (given next : D) (p : State) (nights : List Night) → LiesWith D.state given p
        → DoesAll D.state (Closed given) (flat_map moves_of nights) (Closed next)
        → StoresAfterNights p nights (D.state next).now }
{}

/// If the start of a task was acknowledged in one session, no later session starts that task,
/// however many follow.
pub fn no_later_night_starts_a_task_again()
    ensures { (p q : State) (calls : List (Step × Reply)) (more : List Step)
        (nights : List Night) (n : ℕ) (before later : List Event)
        → acknowledged (opened_from p) (steps_of calls) (answers_of calls)
        ≡ before ++ Start n ∷ later
        → LeadOver p (Spent calls more ∷ nights) q → allowed q (Start n) ≡ false }
{}
