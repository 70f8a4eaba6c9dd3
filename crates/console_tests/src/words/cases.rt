//! Words of the command line, and what they are answered.

use state_views::View;

/// What words are answered.
pub enum Reported {
    /// They ask for the demo, strict or not.
    Demo(bool),
    /// They ask for this word over this store, with its flag or without one.
    Store(&'static str, &'static str, bool),
    /// They ask for a run over this store, strict or not, and by the machine's time or not.
    Script(&'static str, bool, bool),
    /// They ask for the tasks of this store, in this phase and of this group.
    Tasks(&'static str, Option<&'static str>, Option<&'static str>),
    /// They ask for JSON of this store, with its tasks in this phase and of this group.
    Json(&'static str, Option<&'static str>, Option<&'static str>),
    /// They ask for this view of this store.
    Inspect(&'static str, View<'static>),
    /// They ask for a migration from this store to that one, in a new file alone or in any.
    Migration(&'static str, &'static str, bool),
    /// They ask for a renewal, in the same way.
    Renewal(&'static str, &'static str, bool),
    /// They ask for a renewal of this store in its place.
    InPlace(&'static str),
    /// A text for help that has this part.
    Help(&'static str),
    /// This text for help.
    Text(&'static str),
    /// They ask for the answers to a plan.
    Plan,
    /// They ask for a crew of this many workers over this store, of known jobs or not.
    Crew(&'static str, u8, bool),
    /// A migration or a renewal from a store to itself.
    SameStores,
    /// Another number of workers than a crew may have.
    Workers,
    /// More than one view.
    Views,
    /// No tasks, but no tree.
    NoTree,
    /// A word that is no phase.
    Phase,
    /// A renewal with neither a new store nor a place, or with both, or with a new file in place.
    Place,
    /// A mistake whose text has this part, and ends with a line feed.
    Mistake(&'static str),
}

/// The words that follow the program's own name, and what they are answered.
pub type Case = (&'static [&'static str], Reported);

pub static PLAN: [Case; 2] = [
    (&["plan"], Reported::Plan),
    (&["plan", "--"], Reported::Plan),
];

pub static DEMO: [Case; 4] = [
    (&["demo"], Reported::Demo(false)),
    (&["demo", "--"], Reported::Demo(false)),
    (&["demo", "--strict"], Reported::Demo(true)),
    (&["demo", "--strict", "--"], Reported::Demo(true)),
];

pub static STORES: [Case; 11] = [
    (
        &["format", "a.disk"],
        Reported::Store("format", "a.disk", false),
    ),
    (
        &["script", "a.disk"],
        Reported::Script("a.disk", false, false),
    ),
    (
        &["inspect", "a.disk"],
        Reported::Inspect("a.disk", View::Whole),
    ),
    (
        &["format", "--", "-a"],
        Reported::Store("format", "-a", false),
    ),
    (
        &["format", "a", "--"],
        Reported::Store("format", "a", false),
    ),
    (
        &["script", "--", "-a"],
        Reported::Script("-a", false, false),
    ),
    (&["script", "a", "--"], Reported::Script("a", false, false)),
    (&["script", ""], Reported::Script("", false, false)),
    (
        &["drive", "a.disk"],
        Reported::Store("drive", "a.disk", false),
    ),
    (
        &["drive", "--", "-a"],
        Reported::Store("drive", "-a", false),
    ),
    (&["drive", "a", "--"], Reported::Store("drive", "a", false)),
];

/// A flag before and after the store; after `--` it is the name of a store.
pub static FLAGS: [Case; 12] = [
    (
        &["format", "--new", "a"],
        Reported::Store("format", "a", true),
    ),
    (
        &["format", "a", "--new"],
        Reported::Store("format", "a", true),
    ),
    (
        &["format", "--new", "--", "-a"],
        Reported::Store("format", "-a", true),
    ),
    (
        &["format", "a", "--new", "--"],
        Reported::Store("format", "a", true),
    ),
    (
        &["format", "--", "--new"],
        Reported::Store("format", "--new", false),
    ),
    (
        &["script", "--strict", "a"],
        Reported::Script("a", true, false),
    ),
    (
        &["script", "a", "--strict"],
        Reported::Script("a", true, false),
    ),
    (
        &["script", "--", "--strict"],
        Reported::Script("--strict", false, false),
    ),
    (&["crew", "--known", "a"], Reported::Crew("a", 4, true)),
    (&["crew", "a", "--known"], Reported::Crew("a", 4, true)),
    (
        &["crew", "a", "--known", "--workers", "2"],
        Reported::Crew("a", 2, true),
    ),
    (
        &["crew", "--workers=2", "--known", "--", "-a"],
        Reported::Crew("-a", 2, true),
    ),
];

/// `--now` and `--strict`, together or one alone; after `--` each is the name of a store.
pub static RUNS: [Case; 8] = [
    (
        &["script", "--now", "a"],
        Reported::Script("a", false, true),
    ),
    (
        &["script", "a", "--now"],
        Reported::Script("a", false, true),
    ),
    (
        &["script", "--now", "--strict", "a"],
        Reported::Script("a", true, true),
    ),
    (
        &["script", "--strict", "a", "--now"],
        Reported::Script("a", true, true),
    ),
    (
        &["script", "--now", "--", "-a"],
        Reported::Script("-a", false, true),
    ),
    (
        &["script", "--", "--now"],
        Reported::Script("--now", false, false),
    ),
    (
        &["script", "--strict", "--", "--now"],
        Reported::Script("--now", true, false),
    ),
    (
        &["script", "a", "--now", "--"],
        Reported::Script("a", false, true),
    ),
];

/// The lines of all tasks.
const TASKS: View<'static> = View::Tasks {
    phase: None,
    group: None,
};

/// A tree, with its tasks and without them.
const TREE: View<'static> = View::Tree { no_tasks: false };

const BRANCHES: View<'static> = View::Tree { no_tasks: true };

/// The flags of a view, one alone; after `--` each is the name of a store.
pub static VIEWS: [Case; 19] = [
    (&["inspect", "--tasks", "a"], Reported::Inspect("a", TASKS)),
    (&["inspect", "a", "--tasks"], Reported::Inspect("a", TASKS)),
    (
        &["inspect", "--tasks", "--", "--tasks"],
        Reported::Inspect("--tasks", TASKS),
    ),
    (
        &["inspect", "--", "--tasks"],
        Reported::Inspect("--tasks", View::Whole),
    ),
    (&["inspect", "--json", "a"], Reported::Json("a", None, None)),
    (&["inspect", "a", "--json"], Reported::Json("a", None, None)),
    (
        &["inspect", "--json", "--", "--tasks"],
        Reported::Json("--tasks", None, None),
    ),
    (&["inspect", "--tree", "a"], Reported::Inspect("a", TREE)),
    (&["inspect", "a", "--tree"], Reported::Inspect("a", TREE)),
    (
        &["inspect", "--tree", "--", "--json"],
        Reported::Inspect("--json", TREE),
    ),
    (
        &["inspect", "--no-tasks", "a", "--tree"],
        Reported::Inspect("a", BRANCHES),
    ),
    (
        &["inspect", "--tree", "--no-tasks", "--", "--tasks"],
        Reported::Inspect("--tasks", BRANCHES),
    ),
    (
        &["inspect", "--tree", "--", "--no-tasks"],
        Reported::Inspect("--no-tasks", TREE),
    ),
    (
        &["inspect", "--", "--tree"],
        Reported::Inspect("--tree", View::Whole),
    ),
    (
        &["inspect", "--summary", "a"],
        Reported::Inspect("a", View::Summary),
    ),
    (
        &["inspect", "a", "--summary"],
        Reported::Inspect("a", View::Summary),
    ),
    (
        &["inspect", "--", "--summary"],
        Reported::Inspect("--summary", View::Whole),
    ),
    (
        &["inspect", "--", "--phase"],
        Reported::Inspect("--phase", View::Whole),
    ),
    (
        &["inspect", "a", "--tree", "--"],
        Reported::Inspect("a", TREE),
    ),
];

/// More than one view.
pub static TWO_VIEWS: [Case; 14] = [
    (&["inspect", "--json", "--tasks", "a"], Reported::Views),
    (&["inspect", "--tasks", "a", "--json"], Reported::Views),
    (&["inspect", "--tasks", "--tree", "a"], Reported::Views),
    (&["inspect", "--tree", "a", "--json"], Reported::Views),
    (
        &["inspect", "--tree", "--json", "--tasks", "a"],
        Reported::Views,
    ),
    (
        &["inspect", "--json", "a", "--tasks", "--phase=x"],
        Reported::Views,
    ),
    (&["inspect", "--tree", "a", "--phase=held"], Reported::Views),
    (&["inspect", "--group", "g", "a", "--tree"], Reported::Views),
    (
        &["inspect", "--json", "--group=g", "--tree", "a"],
        Reported::Views,
    ),
    (
        &["inspect", "--tree", "--no-tasks", "--summary", "a"],
        Reported::Views,
    ),
    (&["inspect", "--summary", "--tree", "a"], Reported::Views),
    (&["inspect", "--json", "a", "--summary"], Reported::Views),
    (&["inspect", "--tasks", "--summary", "a"], Reported::Views),
    (
        &["inspect", "--summary", "--phase=held", "a"],
        Reported::Views,
    ),
];

/// The tasks of a phase or of a group, with `--tasks` or without it.
pub static SOME_TASKS: [Case; 18] = [
    (
        &["inspect", "--phase", "held", "a"],
        Reported::Tasks("a", Some("held"), None),
    ),
    (
        &["inspect", "a", "--phase", "ready"],
        Reported::Tasks("a", Some("ready"), None),
    ),
    (
        &["inspect", "--phase=running", "a"],
        Reported::Tasks("a", Some("running"), None),
    ),
    (
        &["inspect", "--tasks", "--phase=success", "a"],
        Reported::Tasks("a", Some("success"), None),
    ),
    (
        &["inspect", "--phase", "error", "--tasks", "a"],
        Reported::Tasks("a", Some("error"), None),
    ),
    (
        &["inspect", "a", "--phase=interrupted", "--tasks"],
        Reported::Tasks("a", Some("interrupted"), None),
    ),
    (
        &["inspect", "--group", "g", "a"],
        Reported::Tasks("a", None, Some("g")),
    ),
    (
        &["inspect", "a", "--group=held"],
        Reported::Tasks("a", None, Some("held")),
    ),
    (
        &["inspect", "--group=", "a"],
        Reported::Tasks("a", None, Some("")),
    ),
    (
        &["inspect", "--group", "No Group", "a"],
        Reported::Tasks("a", None, Some("No Group")),
    ),
    (
        &["inspect", "--group=ready", "--phase=held", "a"],
        Reported::Tasks("a", Some("held"), Some("ready")),
    ),
    (
        &[
            "inspect", "--phase", "held", "a", "--group", "ready", "--tasks",
        ],
        Reported::Tasks("a", Some("held"), Some("ready")),
    ),
    (
        &["inspect", "--phase=held", "--", "--phase=held"],
        Reported::Tasks("--phase=held", Some("held"), None),
    ),
    (&["inspect", "--phase", "Held", "a"], Reported::Phase),
    (&["inspect", "--phase=", "a"], Reported::Phase),
    (
        &["inspect", "--phase", "failure", "a", "--group=g"],
        Reported::Phase,
    ),
    (
        &["inspect", "--tasks", "--phase=held ", "a"],
        Reported::Phase,
    ),
    (&["inspect", "--phase", "error no", "a"], Reported::Phase),
];

/// The tasks of a phase or of a group as JSON, and a tree's tasks that aren't wanted, but no tree.
pub static JSON_TASKS: [Case; 9] = [
    (
        &["inspect", "--phase", "held", "--json", "a"],
        Reported::Json("a", Some("held"), None),
    ),
    (
        &["inspect", "a", "--json", "--group", "No Group"],
        Reported::Json("a", None, Some("No Group")),
    ),
    (
        &["inspect", "--group=g", "--json", "--phase=error", "a"],
        Reported::Json("a", Some("error"), Some("g")),
    ),
    (&["inspect", "--json", "--phase=Held", "a"], Reported::Phase),
    (
        &["inspect", "--json", "--group=g", "--phase=x", "a"],
        Reported::Phase,
    ),
    (&["inspect", "--no-tasks", "a"], Reported::NoTree),
    (&["inspect", "a", "--json", "--no-tasks"], Reported::NoTree),
    (
        &["inspect", "--no-tasks", "--phase=x", "a"],
        Reported::NoTree,
    ),
    (
        &["inspect", "--no-tasks", "--tasks", "--summary", "a"],
        Reported::NoTree,
    ),
];

pub static MIGRATIONS: [Case; 13] = [
    (
        &["migrate", "a.disk", "b.disk"],
        Reported::Migration("a.disk", "b.disk", false),
    ),
    (
        &["migrate", "--", "-a", "-b"],
        Reported::Migration("-a", "-b", false),
    ),
    (
        &["migrate", "a", "--", "-b"],
        Reported::Migration("a", "-b", false),
    ),
    (
        &["migrate", "a", "b", "--"],
        Reported::Migration("a", "b", false),
    ),
    (&["migrate", "a", ""], Reported::Migration("a", "", false)),
    (&["migrate", "a.disk", "a.disk"], Reported::SameStores),
    (&["migrate", "--", "-a", "-a"], Reported::SameStores),
    (
        &["migrate", "--new", "a", "b"],
        Reported::Migration("a", "b", true),
    ),
    (
        &["migrate", "a", "--new", "b"],
        Reported::Migration("a", "b", true),
    ),
    (
        &["migrate", "a", "b", "--new"],
        Reported::Migration("a", "b", true),
    ),
    (
        &["migrate", "--new", "--", "-a", "--new"],
        Reported::Migration("-a", "--new", true),
    ),
    (
        &["migrate", "a", "--", "--new"],
        Reported::Migration("a", "--new", false),
    ),
    (&["migrate", "--new", "a", "a"], Reported::SameStores),
];

pub static RENEWALS: [Case; 13] = [
    (
        &["renew", "a.disk", "b.disk"],
        Reported::Renewal("a.disk", "b.disk", false),
    ),
    (
        &["renew", "--", "-a", "-b"],
        Reported::Renewal("-a", "-b", false),
    ),
    (
        &["renew", "a", "--", "-b"],
        Reported::Renewal("a", "-b", false),
    ),
    (
        &["renew", "a", "b", "--"],
        Reported::Renewal("a", "b", false),
    ),
    (&["renew", "a", ""], Reported::Renewal("a", "", false)),
    (&["renew", "a.disk", "a.disk"], Reported::SameStores),
    (&["renew", "--", "-a", "-a"], Reported::SameStores),
    (
        &["renew", "--new", "a", "b"],
        Reported::Renewal("a", "b", true),
    ),
    (
        &["renew", "a", "--new", "b"],
        Reported::Renewal("a", "b", true),
    ),
    (
        &["renew", "a", "b", "--new"],
        Reported::Renewal("a", "b", true),
    ),
    (
        &["renew", "--new", "--", "-a", "--new"],
        Reported::Renewal("-a", "--new", true),
    ),
    (
        &["renew", "a", "--", "--new"],
        Reported::Renewal("a", "--new", false),
    ),
    (&["renew", "a", "a", "--new"], Reported::SameStores),
];

/// A renewal in its place, and one with neither a place nor a new store, or with both, or with a
/// new file in place.
pub static RENEWALS_IN_PLACE: [Case; 14] = [
    (
        &["renew", "--in-place", "a.disk"],
        Reported::InPlace("a.disk"),
    ),
    (
        &["renew", "a.disk", "--in-place"],
        Reported::InPlace("a.disk"),
    ),
    (
        &["renew", "--in-place", "--", "-a"],
        Reported::InPlace("-a"),
    ),
    (&["renew", "a", "--in-place", "--"], Reported::InPlace("a")),
    (
        &["renew", "--", "--in-place", "a"],
        Reported::Renewal("--in-place", "a", false),
    ),
    (
        &["renew", "a", "--", "--in-place"],
        Reported::Renewal("a", "--in-place", false),
    ),
    (&["renew", "a.disk"], Reported::Place),
    (&["renew", "--", "a.disk"], Reported::Place),
    (&["renew", "--in-place", "a", "b"], Reported::Place),
    (&["renew", "a", "b", "--in-place"], Reported::Place),
    (&["renew", "a", "--in-place", "a"], Reported::Place),
    (&["renew", "--new", "a"], Reported::Place),
    (&["renew", "--new", "--in-place", "a"], Reported::Place),
    (&["renew", "a", "--in-place", "b", "--new"], Reported::Place),
];

pub static CREWS: [Case; 13] = [
    (&["crew", "a.disk"], Reported::Crew("a.disk", 4, false)),
    (
        &["crew", "a.disk", "--workers", "1"],
        Reported::Crew("a.disk", 1, false),
    ),
    (
        &["crew", "--workers", "8", "a.disk"],
        Reported::Crew("a.disk", 8, false),
    ),
    (
        &["crew", "--workers=2", "a.disk"],
        Reported::Crew("a.disk", 2, false),
    ),
    (&["crew", "a", "--workers=3"], Reported::Crew("a", 3, false)),
    (
        &["crew", "--workers=3", "--", "-a"],
        Reported::Crew("-a", 3, false),
    ),
    (
        &["crew", "a", "--workers", "5", "--"],
        Reported::Crew("a", 5, false),
    ),
    (&["crew", "a", "--workers", "0"], Reported::Workers),
    (&["crew", "a", "--workers", "9"], Reported::Workers),
    (&["crew", "a", "--workers", "04"], Reported::Workers),
    (&["crew", "a", "--workers", "+4"], Reported::Workers),
    (&["crew", "a", "--workers="], Reported::Workers),
    (&["crew", "a", "--workers", "two"], Reported::Workers),
];

pub static HELP: [Case; 31] = [
    (&["--help"], Reported::Help("Usage: night <COMMAND>")),
    (
        &["--help"],
        Reported::Help("A request is one line, such as `go g copy a`"),
    ),
    (
        &["--help"],
        Reported::Help("the manual page\nnight(1) describes them."),
    ),
    (&["-h"], Reported::Help("Usage: night <COMMAND>")),
    (&["help"], Reported::Help("Usage: night <COMMAND>")),
    (&["demo", "--help"], Reported::Help("Usage: night demo")),
    (&["drive", "--help"], Reported::Help("Usage: night drive")),
    (
        &["demo", "--help"],
        Reported::Help("Ends at the first line that is bad or refused, with status 1\n"),
    ),
    (
        &["script", "--help"],
        Reported::Help("Ends at the first line that is bad or refused, with status 1\n"),
    ),
    (
        &["format", "--help"],
        Reported::Help("Example: night format --new jobs.store"),
    ),
    (
        &["format", "--help"],
        Reported::Help("      --new   Refuses if there is a file of that name\n"),
    ),
    (
        &["demo", "--help"],
        Reported::Help("  NAME, KEY, JOB, ARG     1 to 32 of a-z, 0-9, - and _"),
    ),
    (
        &["script", "--help"],
        Reported::Help("| night script jobs.store\n"),
    ),
    (
        &["inspect", "--help"],
        Reported::Help("Example: night inspect jobs.store"),
    ),
    (
        &["migrate", "--help"],
        Reported::Help("Usage: night migrate [OPTIONS] <OLD> <NEW>"),
    ),
    (
        &["migrate", "--help"],
        Reported::Help("      --new   Refuses if there is a file NEW\n"),
    ),
    (
        &["migrate", "--help"],
        Reported::Help("Example: night migrate --new small.store large.store"),
    ),
    (
        &["renew", "--help"],
        Reported::Help("Refuses if there is a file NEW\n"),
    ),
    (
        &["inspect", "--help"],
        Reported::Help(
            "      --phase <PHASE>  Prints only tasks in this phase: held, ready, running,",
        ),
    ),
    (
        &["inspect", "--help"],
        Reported::Help("      --group <GROUP>  Prints only tasks of this group\n"),
    ),
    (
        &["inspect", "--help"],
        Reported::Help("      --tree           Draws its scopes as a tree, with their groups"),
    ),
    (
        &["script", "--help"],
        Reported::Help("Moves the clock to the machine's time"),
    ),
    (
        &["renew", "--help"],
        Reported::Help("Usage: night renew [OPTIONS] <OLD> [NEW]"),
    ),
    (
        &["renew", "--help"],
        Reported::Help("Replaces OLD by the new store; no NEW is given then\n"),
    ),
    (
        &["renew", "--help"],
        Reported::Help(
            "  night renew --new old.store new.store\n  night renew --in-place jobs.store\n",
        ),
    ),
    (
        &["script", "--help"],
        Reported::Help("\n  refused 25 AlreadyRetried    another task is a retry of it already\n"),
    ),
    (
        &["crew", "--help"],
        Reported::Help("  night crew --known jobs.store\n  night crew jobs.store --workers 2\n"),
    ),
    (
        &["crew", "--help"],
        Reported::Help("three jobs: `spin`, `copy` and `fail`"),
    ),
    (
        &["crew", "--help"],
        Reported::Help("good: it fails as `no such job`, and can't be retried.\n"),
    ),
    (
        &["crew", "--help"],
        Reported::Help(
            "With `--known` it refuses to\nstart if an unfinished task has another job.",
        ),
    ),
    (
        &["crew", "--help"],
        Reported::Help("Refuses to start if an unfinished task has a job that the crew"),
    ),
];

pub static VERSION: [Case; 2] = [
    (&["--version"], Reported::Text("night 0.3.0\n")),
    (&["-V"], Reported::Text("night 0.3.0\n")),
];
