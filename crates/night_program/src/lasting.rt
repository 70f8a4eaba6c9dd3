//! Laws about what one run of the program leaves of a store, and what the next one finds.

ghost use Rattle.std.specs.Prelude.{◌≡◌, ℕ, List, Bool, Option, Ok, Result, ⊤};
ghost use Rattle.std.specs.Io.KnownBytes.{Appends};
ghost use Rattle.run_model.specs.State.{State, formatted};
ghost use Rattle.book_model.specs.Books.{CarriesOn, BookView, acked};
ghost use Rattle.book_model.specs.Openings.{HasFormatted, Opens};
ghost use Rattle.book_model.specs.Standing.{LiesWith};
ghost use Rattle.book_model.specs.Stores.{Stores, StoresPrefix, restarted};
ghost use Rattle.console_lines.specs.declared.faults.RunFault.{RunFault};
ghost use Rattle.console_lines.specs.declared.rejections.RejectedLine.{RejectedLine};
ghost use Rattle.run_crew.specs.Crews.{CrewEnds, StoresNight};
ghost use Rattle.run_console.specs.declared.untils.Until.{Until};
ghost use Rattle.night_program.specs.Crews.{AreOpenShifts};
ghost use Rattle.night_program.specs.CutScripts.{IsRunOver};
ghost use Rattle.night_program.specs.Lasting.{Run, RunsLeave, StoresAfterRuns, StoresWork};
ghost use Rattle.night_program.specs.Scripts.{ScriptEnds};
ghost use Rattle.night_program.specs.Timed.{TimedEnds};
ghost use Rattle.state_views.specs.declared.views.View.{View};
ghost use Rattle.store_words.specs.Lasting.{FindsLeft, IsReadAlone};
ghost use Rattle.store_words.specs.Sources.{Serves};
ghost use Rattle.store_words.specs.Stores.{InspectEnds, view_text};

use run_disk::RunDisk;

/// The next run of the program finds what the one before it has left of a store, if each opening
/// finds what a crash of the disk may have left. After a format this is the state that has no row
/// but root. After a script that was cut off at any moment it is the state that was there, or the
/// state after its restart and a prefix of the accepted events; if the script was cut off after
/// some moment, the prefix contains everything that was acknowledged by then. The same holds after
/// a crew, whose events are starts and finishes. An inspection that succeeds prints what its view
/// shows of the state that it finds.
pub fn a_store_lasts_from_run_to_run<D: RunDisk>()
    ensures format { (given left next : D) → (made : HasFormatted (D.state given) (D.state left))
        → (D.state given).honest → FindsLeft D.state left left next
        → Stores (D.state next).now (formatted made.layout) }
    ensures cut { (given next : D) (p : State) (b c : BookView D) → LiesWith D.state given p
        → Opens D.state given (Ok b) → CarriesOn D.state b c
        → FindsLeft D.state given c.journal.disk next
        → StoresNight p c.session.history (D.state next).now }
    ensures held { (given next : D) (p : State) (b m c : BookView D) → LiesWith D.state given p
        → Opens D.state given (Ok b) → CarriesOn D.state b m → CarriesOn D.state m c
        → FindsLeft D.state m.journal.disk c.journal.disk next
        → StoresPrefix (restarted p) c.session.history (acked m) (D.state next).now }
    ensures crew { (given left next : D) (p : State) (workers : ℕ) (answer : Result Bool RunFault)
        (w0 w1 : Option (List ℕ)) → LiesWith D.state given p
        → CrewEnds D.state (AreOpenShifts D.state) given workers answer left w0 w1
        → FindsLeft D.state given left next
        → StoresWork p (D.state next).now }
    ensures inspect { (view : View) (found read : D) (p : State) (done : ⊤)
        (w0 w1 : Option (List ℕ)) → LiesWith D.state found p
        → InspectEnds view D.state found (Ok done) read w0 w1
        → Appends w0 w1 (view_text view p) }
{}

/// Take any number of runs of the program over a store, one after another, each of which may end at
/// any moment. They lose nothing that they have printed as acknowledged, if each opening finds what
/// a crash may have left of the disk. The state after them is the one that was stored, changed run
/// by run. A script and a crew change it by a restart and a prefix of their events, which contains
/// every acknowledged one. A driven night does the same at each of its openings, and all that its
/// answers reported as durable is in the state. A format makes it a state that has no row but root,
/// a migration puts it into the large layout, and a renewal renews it. Whatever only reads a store
/// changes nothing: an inspection, and the reading of an old store before a new one is made of it.
pub fn many_runs_lose_nothing_acknowledged<D: RunDisk>()
    ensures runs { (given next : D) (p : State) (runs : List Run) → LiesWith D.state given p
        → RunsLeave D.state given runs next → StoresAfterRuns p runs (D.state next).now }
    ensures inspect { (view : View) (given left : D) (done : Result ⊤ RunFault)
        (w0 w1 : Option (List ℕ)) → InspectEnds view D.state given done left w0 w1
        → IsReadAlone (D.state given) (D.state left) }
    ensures source { (given read : D) → Serves (D.state given) (D.state read)
        → IsReadAlone (D.state given) (D.state read) }
{}

/// A script runs lines over the store if the store can be opened, as
/// [`many_runs_lose_nothing_acknowledged`] assumes. This holds for strict runs and others, with the
/// machine's time before the lines or without.
pub fn a_script_runs_lines<D: RunDisk>()
    ensures script { (until : Until) (done : Result (Option RejectedLine) RunFault)
        (given left : D) (r0 r1 w0 w1 : Option (List ℕ))
        → ScriptEnds D.state until given done left r0 r1 w0 w1
        → IsRunOver D.state given left }
    ensures timed { (moments : Option (List ℕ)) (until : Until)
        (done : Result (Option RejectedLine) RunFault) (given left : D)
        (r0 r1 w0 w1 : Option (List ℕ))
        → TimedEnds moments D.state until given done left r0 r1 w0 w1
        → IsRunOver D.state given left }
{}
