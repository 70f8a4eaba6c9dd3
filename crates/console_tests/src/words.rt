//! Tests of the words of the command line: what each asks for, and which are mistakes.

mod cases;
mod mistakes;
mod own;

use crate::asserts::{done, given, holds};
use crate::words::cases::{
    CREWS, Case, DEMO, FLAGS, HELP, JSON_TASKS, MIGRATIONS, PLAN, RENEWALS, RENEWALS_IN_PLACE,
    RUNS, Reported, SOME_TASKS, STORES, TWO_VIEWS, VERSION, VIEWS,
};
use crate::words::mistakes::{MISTAKES, STRAY_FLAGS};
use night_words::{Request, WordsFault, read_words};
use run_model::{Name, Phase, TaskLook, Text};
use state_views::{Row, View};
use std::alloc::{AllocError, Global};
use std::process::Abort;

/// The words whose input is lines.
static READERS: [&str; 2] = ["demo", "script"];

/// The lines that there are, as help has them.
static LINES: [&str; 22] = [
    "\n  derive NAME PARENT cancel|cause|detached  ",
    "\n  derive NAME PARENT deadline MOMENT [CAUSE]  ",
    "\n  derive NAME PARENT timeout NUMBER [CAUSE]  ",
    "\n  derive NAME PARENT value KEY TEXT  ",
    "\n  cancel SCOPE [CAUSE]  ",
    "\n  advance MOMENT  ",
    "\n  group NAME PARENT  ",
    "\n  bare NAME SCOPE  ",
    "\n  limit GROUP NUMBER|none  ",
    "\n  go GROUP JOB ARG  ",
    "\n  try GROUP JOB ARG  ",
    "\n  start  ",
    "\n  finish NUMBER ok|error TEXT  ",
    "\n  retry NUMBER  ",
    "\n  wait GROUP  ",
    "\n  scope SCOPE  ",
    "\n  value SCOPE KEY  ",
    "\n  task NUMBER  ",
    "\n  result GROUP  ",
    "\n  tally  ",
    "\n  flush  ",
    "\n  checkpoint  ",
];

fn push_text(alloc: Global, texts: &mut Vec<String>, word: &str) -> Result<(), AllocError> {
    texts.push(word.to_string(alloc)?)?;
    Ok(())
}

/// The program's own name, and the words.
fn texts_of(alloc: Global, words: &[&str]) -> Result<Vec<String>, AllocError> {
    let mut texts = Vec::new(alloc);
    push_text(alloc, &mut texts, "night")?;
    for word in words.iter() {
        push_text(alloc, &mut texts, word)?;
    }
    Ok(texts)
}

/// Whether the request is this word over this store, with its flag or without one.
fn is_store(reported: &Reported, word: &str, store: &str, is_set: bool) -> bool {
    match reported {
        Reported::Store(its, name, flag) => *its == word && *name == store && *flag == is_set,
        _ => false,
    }
}

/// Whether the request is a run over this store, strict or not, and by the machine's time or not.
fn is_script(reported: &Reported, store: &str, strict: bool, is_timed: bool) -> bool {
    match reported {
        Reported::Script(name, s, t) => *name == store && *s == strict && *t == is_timed,
        _ => false,
    }
}

/// Says whether two views are one.
fn is_view(view: View, other: View) -> bool {
    match (view, other) {
        (View::Whole, View::Whole) => true,
        (View::Tasks { phase, group }, View::Tasks { phase: p, group: g }) => {
            phase == p && group == g
        }
        (View::Json { phase, group }, View::Json { phase: p, group: g }) => {
            phase == p && group == g
        }
        (View::Tree { no_tasks }, View::Tree { no_tasks: n }) => no_tasks == n,
        (View::Summary, View::Summary) => true,
        _ => false,
    }
}

/// Says whether this view of this store is told.
fn is_inspect(reported: &Reported, store: &str, view: View) -> bool {
    match reported {
        Reported::Inspect(name, its) => *name == store && is_view(*its, view),
        Reported::Tasks(name, phase, group) => {
            let its = View::Tasks {
                phase: *phase,
                group: *group,
            };
            *name == store && is_view(its, view)
        }
        Reported::Json(name, phase, group) => {
            let its = View::Json {
                phase: *phase,
                group: *group,
            };
            *name == store && is_view(its, view)
        }
        _ => false,
    }
}

/// Says whether a demo is told, strict or not.
fn is_demo(reported: &Reported, strict: bool) -> bool {
    match reported {
        Reported::Demo(flag) => *flag == strict,
        _ => false,
    }
}

/// Says whether a crew of this many workers over this store is told, of known jobs or not.
fn is_crew(reported: &Reported, store: &str, workers: u8, known: bool) -> bool {
    match reported {
        Reported::Crew(name, number, flag) => {
            *name == store && *number == workers && *flag == known
        }
        _ => false,
    }
}

/// Says whether a migration from this store to that one is told, in a new file alone or in any.
fn is_migration(reported: &Reported, old: &str, new: &str, is_new: bool) -> bool {
    match reported {
        Reported::Migration(from, to, flag) => *from == old && *to == new && *flag == is_new,
        _ => false,
    }
}

/// Says whether a renewal of this store to that one is told, in the same way.
fn is_renewal(reported: &Reported, old: &str, new: &str, is_new: bool) -> bool {
    match reported {
        Reported::Renewal(from, to, flag) => *from == old && *to == new && *flag == is_new,
        _ => false,
    }
}

/// Says whether a renewal of this store in its place is told.
fn is_in_place(reported: &Reported, store: &str) -> bool {
    match reported {
        Reported::InPlace(name) => *name == store,
        _ => false,
    }
}

/// Says whether this text for help is told, or a part of it.
fn is_help(reported: &Reported, text: &str) -> bool {
    match reported {
        Reported::Help(part) => text.contains(*part),
        Reported::Text(whole) => text == *whole,
        _ => false,
    }
}

/// Says whether the words ask for what they should.
fn is_asked(asked: &Request, reported: &Reported) -> bool {
    match asked {
        Request::Demo { strict } => is_demo(reported, *strict),
        Request::Format { store, is_new } => is_store(reported, "format", store, *is_new),
        Request::Script {
            store,
            strict,
            is_timed,
        } => is_script(reported, store, *strict, *is_timed),
        Request::Inspect { store, view } => is_inspect(reported, store, *view),
        Request::Crew {
            store,
            workers,
            known,
        } => is_crew(reported, store, *workers, *known),
        Request::Migrate { old, new, is_new } => is_migration(reported, old, new, *is_new),
        Request::Renew { old, new, is_new } => is_renewal(reported, old, new, *is_new),
        Request::RenewInPlace(store) => is_in_place(reported, store),
        Request::Plan => matches!(reported, Reported::Plan),
        Request::Drive { store } => is_store(reported, "drive", store, false),
        Request::Help(text) => is_help(reported, text),
    }
}

/// Says whether a text has this part, and ends with a line feed.
fn has_part(text: &str, part: &str) -> bool {
    text.contains(part) && text.ends_with("\n")
}

/// Says whether the words are the mistake that they should be.
fn is_mistake(alloc: Global, fault: &WordsFault, reported: &Reported) -> Result<bool, AllocError> {
    match (fault, reported) {
        (WordsFault::SameStores, Reported::SameStores) => Ok(true),
        (WordsFault::Workers, Reported::Workers) => Ok(true),
        (WordsFault::Views, Reported::Views) => Ok(true),
        (WordsFault::NoTree, Reported::NoTree) => Ok(true),
        (WordsFault::Phase, Reported::Phase) => Ok(true),
        (WordsFault::Place, Reported::Place) => Ok(true),
        (WordsFault::Mistake(_), Reported::Mistake(part)) => {
            Ok(has_part(&fault.to_string(alloc)?, part))
        }
        _ => Ok(false),
    }
}

/// Says whether the words are answered so.
fn is_reported(alloc: Global, words: &[&str], reported: &Reported) -> Result<bool, AllocError> {
    let texts = texts_of(alloc, words)?;
    match read_words(alloc, texts.as_slice()) {
        Ok(asked) => Ok(is_asked(&asked, reported)),
        Err(fault) => is_mistake(alloc, &fault, reported),
    }
}

/// Asserts that the words of each row are answered so.
fn assert_reported(rt: &impl Abort, alloc: Global, cases: &[Case]) {
    for (n, case) in cases.iter().enumerate() {
        let is_so = done(rt, is_reported(alloc, case.0, &case.1), "memory");
        holds(rt, is_so, "row", n);
    }
}

#[test]
fn a_command_without_a_store_is_asked_for(rt: HostRuntime) {
    assert_reported(&rt, rt.alloc(), &DEMO);
    assert_reported(&rt, rt.alloc(), &PLAN);
}

#[test]
fn a_store_is_named(rt: HostRuntime) {
    assert_reported(&rt, rt.alloc(), &STORES);
}

#[test]
fn a_flag_may_stand_there(rt: HostRuntime) {
    assert_reported(&rt, rt.alloc(), &FLAGS);
    assert_reported(&rt, rt.alloc(), &RUNS);
}

#[test]
fn a_view_may_be_asked_for(rt: HostRuntime) {
    assert_reported(&rt, rt.alloc(), &VIEWS);
    assert_reported(&rt, rt.alloc(), &TWO_VIEWS);
}

#[test]
fn some_tasks_may_be_asked_for(rt: HostRuntime) {
    assert_reported(&rt, rt.alloc(), &SOME_TASKS);
    assert_reported(&rt, rt.alloc(), &JSON_TASKS);
}

#[test]
fn two_stores_are_named(rt: HostRuntime) {
    assert_reported(&rt, rt.alloc(), &MIGRATIONS);
    assert_reported(&rt, rt.alloc(), &RENEWALS);
}

/// The words of the phases.
static PHASES: [&str; 6] = [
    "held",
    "ready",
    "running",
    "success",
    "error",
    "interrupted",
];

/// The phase whose word has this place.
fn phase_of(place: usize) -> Option<Phase> {
    match place {
        0 => Some(Phase::Held),
        1 => Some(Phase::Ready),
        2 => Some(Phase::Running),
        3 => Some(Phase::Success),
        4 => Some(Phase::Failure(Text::read(b"held")?)),
        5 => Some(Phase::Interrupted),
        _ => None,
    }
}

/// The row of a task in this phase.
fn row_in(phase: Phase) -> Option<Row> {
    let look = TaskLook {
        group: 0,
        job: Name::read(b"copy")?,
        argument: Name::read(b"a")?,
        phase,
        retry_of: None,
    };
    Some(Row::Task(0, Name::read(b"g")?, look))
}

/// Says whether the row of a task in the phase of this place is listed by this word.
fn is_listed(place: usize, word: &str) -> Option<bool> {
    let row = row_in(phase_of(place)?)?;
    Some(row.is_listed(Some(word), None))
}

/// Each word that is taken for a phase lists the tasks in one phase, and each phase has a word.
#[test]
fn each_phase_has_its_word(rt: HostRuntime) {
    for place in 0..6 {
        for (n, word) in PHASES.iter().enumerate() {
            let listed = given(&rt, is_listed(place, word), "row");
            holds(&rt, listed == (place == n), "phase", place);
        }
    }
}

#[test]
fn a_store_may_be_renewed_in_place(rt: HostRuntime) {
    assert_reported(&rt, rt.alloc(), &RENEWALS_IN_PLACE);
}

#[test]
fn a_crew_is_named(rt: HostRuntime) {
    assert_reported(&rt, rt.alloc(), &CREWS);
}

#[test]
fn help_is_shown(rt: HostRuntime) {
    assert_reported(&rt, rt.alloc(), &HELP);
}

/// How many of all lines the help of this word has, in their order, up to the first that it leaves
/// out.
fn listed(alloc: Global, word: &str) -> Result<usize, AllocError> {
    let texts = texts_of(alloc, &[word, "--help"])?;
    match read_words(alloc, texts.as_slice()) {
        Ok(Request::Help(text)) => Ok(lines_in(&text)),
        _ => Ok(0),
    }
}

fn lines_in(text: &str) -> usize {
    for (n, line) in LINES.iter().enumerate() {
        if !text.contains(*line) {
            return n;
        }
    }
    LINES.len()
}

#[test]
fn all_lines_are_listed(rt: HostRuntime) {
    for (n, word) in READERS.iter().enumerate() {
        let lines = done(&rt, listed(rt.alloc(), word), "memory");
        holds(&rt, lines == 22, "the help of word", n);
    }
}

#[test]
fn the_version_is_shown(rt: HostRuntime) {
    assert_reported(&rt, rt.alloc(), &VERSION);
}

#[test]
fn mistakes_say_what_is_wrong(rt: HostRuntime) {
    assert_reported(&rt, rt.alloc(), &MISTAKES);
}

#[test]
fn other_flags_are_mistakes(rt: HostRuntime) {
    assert_reported(&rt, rt.alloc(), &STRAY_FLAGS);
}
