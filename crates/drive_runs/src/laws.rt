//! Laws of what a run reports, and of what it leaves of a store.

ghost use Rattle.std.specs.Prelude.{◌≡◌, ℕ, List, Ok, Option, Some, true};
ghost use Rattle.run_model.specs.declared.answers.Reply.{Reply};
ghost use Rattle.book_model.specs.Books.{BookView, IsReached, acked};
ghost use Rattle.book_model.specs.Openings.{Opens};
ghost use Rattle.book_model.specs.Standing.{CutsOpening, Finds, LiesWith};
ghost use Rattle.book_model.specs.Steps.{StepsOn};
ghost use Rattle.book_model.specs.Stores.{StoresOpened, StoresPrefix, restarted};
ghost use Rattle.night_drive.specs.declared.names.Names.{Names as NamesOf};
ghost use Rattle.night_plan.specs.declared.commands.Command.{Command};
ghost use Rattle.night_plan.specs.declared.standings.Standing.{Standing};
ghost use Rattle.night_plan.specs.Nights.{Night};
ghost use Rattle.drive_steps.specs.declared.reported.Begun.{Begun};
ghost use Rattle.drive_steps.specs.Reported.{begins_reported};
ghost use Rattle.drive_steps.specs.Starts.{row_of};
ghost use Rattle.run_model.specs.State.{State};
ghost use Rattle.drive_runs.specs.declared.living.Living.{Living};
ghost use Rattle.drive_runs.specs.Laws.{IsOver, IsPlayedWhole, Reaches};
ghost use Rattle.drive_runs.specs.Moving.{Moves};
ghost use Rattle.drive_runs.specs.Rounds.{AreStandings, is_over};
ghost use Rattle.drive_runs.specs.Runs.{Answers, Place, Sittings};

use run_disk::RunDisk;

/// If a begin is reported of a row of steps that a book has played, then no step met a fault: the
/// book wasn't broken, it replied as its session does, and all its events are acknowledged. So the
/// laws of rows hold of it.
pub fn what_is_reported_was_played_whole<D: RunDisk>()
    ensures { (old new : BookView D) (p : State) (names : NamesOf) (commands : List Command)
        (chosen : List ℕ) (answers : List Reply) (begun : List Begun) → IsReached old
        → StepsOn D.state old (row_of p names commands chosen) answers new
        → begins_reported chosen answers ≡ Some begun
        → IsPlayedWhole old (row_of p names commands chosen) answers new }
{}

/// If the answer to a round says that the night is over, each command is final, and no try lives.
pub fn a_night_is_over_when_all_is_final()
    ensures { (n : Night) (now : ℕ) (all : List Standing) (living : List Living)
        → AreStandings n now all → is_over all living ≡ true → IsOver n living }
{}

/// Suppose that a run begins on an honest disk at rest, which stores state `p`. Each time the run
/// opens the store again, the disk stores all that was recorded before, and nothing else. Whenever
/// a crash comes, the next opening finds a prefix of what was recorded. The prefix contains all
/// that was acknowledged when the last answer was made, so all that an answer reports as durable.
pub fn a_run_loses_nothing_acknowledged<D: RunDisk>()
    ensures openings { (input : Option (List ℕ)) (n : ℕ) (given left : D) (at to : Place)
        (p : State) → LiesWith D.state given p → Sittings D.state input n given at left to
        → Reaches n p (λ q. LiesWith D.state left q) }
    ensures in_opening { (input : Option (List ℕ)) (n : ℕ) (given middle next : D) (at to : Place)
        (p : State) → LiesWith D.state given p → Sittings D.state input n given at middle to
        → CutsOpening D.state middle next
        → Reaches n p (λ q. StoresOpened q (D.state next).now) }
    ensures after_answers { (input : Option (List ℕ)) (n k : ℕ) (given middle next : D)
        (at between to : Place) (p : State) (b m c : BookView D)
        → LiesWith D.state given p → Sittings D.state input n given at middle between
        → Opens D.state middle (Ok b) → Answers D.state input k between b to m
        → Moves D.state m c
        → Finds D.state ((D.state c.journal.disk).since (D.state m.journal.disk).clock) next
        → Reaches n p (λ q. (m.session.start ≡ restarted q)
        × StoresPrefix (restarted q) c.session.history (acked m) (D.state next).now) }
{}
