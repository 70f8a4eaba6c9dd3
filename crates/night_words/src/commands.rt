//! The subcommands and flags of `night`, as they are declared to the parser, and their help texts.

ghost use Rattle.std.specs.Prelude.{◌≡◌, [], false, true, IfOk};
ghost use Rattle.clap.specs.Words.{App, Rule, app_of, rule_of, with_rule, with_subcommand};
ghost use Rattle.night_words.specs.Commands.{crew_line, demo_line, drive_line, flag, format_line};
ghost use Rattle.night_words.specs.Commands.{free, inspect_line, migrate_line, night, night_alone};
ghost use Rattle.night_words.specs.Commands.{plan_line, renew_line, script_line, store_line};
ghost use Rattle.night_words.specs.Commands.{value_option};

use clap::{Arg, ArgAction, Command};
use std::alloc::{AllocError, Global};

/// The version that `--version` shows.
const VERSION: &str = "0.3.0";

/// The end of the program's help: an example, what a line is, and where lines are described.
const EXAMPLE: &str = "\
    Example: printf 'derive a root cause\\nscope a\\n' | night demo\n\n\
    A request is one line, such as `go g copy a`, and its reply is one line, such as\n\
    `task 0 ready`. `night script --help` lists all requests, and the manual page\n\
    night(1) describes them.";

/// The end of the help of `demo` and of `script`, whose input is lines.
const LINES: &str = "\
    A request is one line, and its reply is one line. A request consists of words\n\
    with one space between them, at most 256 bytes, and a line feed:\n\n  \
    derive NAME PARENT cancel|cause|detached    a scope below a scope; `root` is there\n  \
    derive NAME PARENT deadline MOMENT [CAUSE]  .. that is done at a moment\n  \
    derive NAME PARENT timeout NUMBER [CAUSE]   .. NUMBER seconds after the clock\n  \
    derive NAME PARENT value KEY TEXT           .. that holds a value\n  \
    cancel SCOPE [CAUSE]                        cancels it, and what is below it\n  \
    advance MOMENT                              moves the clock\n  \
    group NAME PARENT                           a group of tasks, with a scope of its own\n  \
    bare NAME SCOPE                             .. in a scope that is there\n  \
    limit GROUP NUMBER|none                     how many unfinished tasks are admitted\n  \
    go GROUP JOB ARG                            submits a task\n  \
    try GROUP JOB ARG                           .. unless the limit would hold it\n  \
    start                                       starts the ready task of the least number\n  \
    finish NUMBER ok|error TEXT                 ends a running task\n  \
    retry NUMBER                                submits an interrupted task again\n  \
    wait GROUP                                  ends it once all its tasks have\n  \
    scope SCOPE                                 whether it is done, and why\n  \
    value SCOPE KEY                             the nearest value of the key\n  \
    task NUMBER                                 how far a task is\n  \
    result GROUP                                how far a group is\n  \
    tally                                       how many tasks of each job ended, and how\n  \
    flush                                       makes all events so far durable\n  \
    checkpoint                                  .. as an image of the whole state\n\n\
    What their words are:\n\n  \
    NAME, KEY, JOB, ARG     1 to 32 of a-z, 0-9, - and _: no capital, no dot\n  \
    PARENT, SCOPE, GROUP    the name of one that is there\n  \
    TEXT, CAUSE             the rest of the line: 1 to 64 bytes of printable ASCII\n  \
    NUMBER                  1 to 12 digits; a limit is 0 to 64\n  \
    MOMENT                  seconds since 1970, or a date and its offset:\n\
    \x20                         2024-01-01T02:00:00Z, 2024-01-01T03:00:00+01:00\n\n\
    The reply to any other line is `bad line`; a carriage return belongs to its line.\n\
    A request that is refused changes nothing, and the reply names the refusal:\n\n  \
    refused 1 NoSuchScope        no scope has this name\n  \
    refused 2 NoSuchGroup        no group has this name\n  \
    refused 3 NoSuchTask         no task has this number\n  \
    refused 4 NameTaken          the name is taken\n  \
    refused 5 BadName            one of the words isn't a name, as above\n  \
    refused 6 BadText            the text or the cause isn't one, as above\n  \
    refused 7 TooManyScopes      the store has no room for another scope\n  \
    refused 8 TooManyGroups      the store has no room for another group\n  \
    refused 9 TooManyTasks       the store has no room for another task\n  \
    refused 10 NotCancellable    a scope of this kind isn't cancelled by a line\n  \
    refused 11 CauseNotTaken     a cancel of a scope of this kind takes no cause\n  \
    refused 12 AlreadyDone       the scope is done already\n  \
    refused 13 LimitWhileActive  a task of the group hasn't ended: its limit stays\n  \
    refused 14 AtLimit           the limit of the group admits no task now\n  \
    refused 15 Waited            the group was waited for\n  \
    refused 16 Unfinished N      N tasks of the group haven't ended\n  \
    refused 17 ClockNotForward   the moment isn't later than the clock\n  \
    refused 18 MomentOutOfRange  the moment is before 1970, or too late\n  \
    refused 19 NothingReady      no task is ready\n  \
    refused 20 NotRunning        the task isn't running\n  \
    refused 21 SessionFull       this run has no room for it: run the rest after it\n  \
    refused 22 Broken            the device failed: open the store again\n  \
    refused 23 NoValue           the scope has no value of this key\n  \
    refused 24 NotInterrupted    the task wasn't interrupted\n  \
    refused 25 AlreadyRetried    another task is a retry of it already\n\n\
    At a terminal `flush` keeps what was typed, and Ctrl-D keeps it and ends; Ctrl-C\n\
    ends, and drops what was typed since the last flush.\n\n\
    The manual page night(1) describes each request.\n\n\
    Examples:\n  \
    printf 'derive a root cause\\ncancel a disk\\nscope a\\n' | night demo\n  \
    printf 'group g root\\ngo g copy a\\n' | night script jobs.store";

/// What `--strict` does, of `demo` and of `script`.
const STRICT: &str = "Ends at the first line that is bad or refused, with status 1";

/// What STORE is, of each command over one store.
const STORE: &str = "The file of the store";

/// What `--new` does, of `format`, and then of `migrate` and of `renew`.
const NEW_STORE: &str = "Refuses if there is a file of that name";

const NEW: &str = "Refuses if there is a file NEW";

/// What NEW is, of `migrate` and of `renew`.
const NEW_FILE: &str = "The new file; if it exists, it is erased";

/// What `--now` does, of `script`.
const NOW: &str = "Moves the clock to the machine's time, at most once a second";

/// What the flags and the options of `inspect` do.
const TASKS: &str = "Prints only its tasks";

const PHASE: &str =
    "Prints only tasks in this phase: held, ready, running, success, error or interrupted";

const GROUP: &str = "Prints only tasks of this group";

const JSON: &str =
    "Prints everything as one JSON object, with only those tasks that were asked for";

const TREE: &str = "Draws its scopes as a tree, with their groups and tasks";

const NO_TASKS: &str = "Draws the tree without tasks, and counts those of each group by phase";

const SUMMARY: &str = "Prints how full it is, a line for each group, and the scopes that are done";

/// What the option and the flag of `crew` do.
const WORKERS: &str = "How many threads run tasks, 1 to 8 (4 if not given)";

const KNOWN: &str = "Refuses to start if an unfinished task has a job that the crew doesn't know";

/// What `--in-place` does, of `renew`.
const IN_PLACE: &str = "Replaces OLD by the new store; no NEW is given then";

/// What help shows of a command over a store, and what it calls the store and says of it.
#[derive(Clone, Copy)]
struct Page<'a> {
    about: &'a str,
    ending: &'a str,
    store: &'a str,
    help: &'a str,
}

const FORMAT: Page = Page {
    about: "Creates the store STORE, and prints `formatted`; if the file exists, it is erased",
    ending: "Example: night format --new jobs.store",
    store: "STORE",
    help: STORE,
};

const SCRIPT: Page = Page {
    about: "Opens a store, and answers the requests of standard input",
    ending: LINES,
    store: "STORE",
    help: STORE,
};

const INSPECT: Page = Page {
    about: "Prints a store, also while it is in use, and writes nothing to it",
    ending: "Example: night inspect jobs.store",
    store: "STORE",
    help: STORE,
};

const MIGRATE: Page = Page {
    about: "Copies a small store OLD into a large store NEW; if NEW exists, it is erased",
    ending: "Example: night migrate --new small.store large.store",
    store: "OLD",
    help: "The small store, which is only read",
};

const CREW: Page = Page {
    about: "Runs the ready tasks of a store, and prints how many were started and finished",
    ending: "\
    The crew knows three jobs: `spin`, `copy` and `fail`. With `--known` it refuses to\n\
    start if an unfinished task has another job. Without it, such a task ends for\n\
    good: it fails as `no such job`, and can't be retried.\n\n\
    Examples:\n  \
    night crew --known jobs.store\n  \
    night crew jobs.store --workers 2",
    store: "STORE",
    help: STORE,
};

const RENEW: Page = Page {
    about: "Copies everything unfinished of OLD into a store NEW; if NEW exists, it is erased",
    ending: "Examples:\n  night renew --new old.store new.store\n  \
        night renew --in-place jobs.store",
    store: "OLD",
    help: "The old store, which is only read unless it is renewed in place",
};

/// What follows the help of `plan`.
const PLAN: &str = "\
    Standard input has a plan, and then rounds of what happens; each ends with an empty\n\
    line, and is answered on standard output.\n\n\
    The lines of a plan. Pools, groups and commands are numbered from 0:\n\n  \
    pool SIZE                                      a pool\n  \
    group PRIORITY go-on|stop|cancel               a group, and what a failure does to it\n  \
    command GROUP PRIORITY RETRIES WAIT FACTOR CAP a command, and how it is tried again\n  \
    need well|failed|ended command|group NUMBER    what the command before it comes after\n  \
    take POOL AMOUNT                               what the command before it takes\n\n\
    The lines of a round:\n\n  \
    now MOMENT                                     the time, in seconds\n  \
    size POOL SIZE                                 a pool has another size\n  \
    done GROUP                                     a group was canceled, or is overdue\n  \
    cancel COMMAND                                 a command was canceled\n  \
    fresh|busy|ok|interrupted|cut COMMAND          how far a command is\n  \
    failed COMMAND MOMENT FAILURES                 its last try failed then\n  \
    group, command, need, take                     the plan grows\n  \
    standings                                      asks how each command stands\n\n\
    The answers:\n\n  \
    plan COMMANDS                                  the plan is taken\n  \
    unknown COMMAND                                the command names what isn't there\n  \
    too-much COMMAND                               it takes more than a pool has\n  \
    circle                                         each `member` comes after the next\n  \
    begin COMMAND                                  it may begin now\n  \
    stop COMMAND                                   it runs, and has to stop\n  \
    later MOMENT                                   when to ask again\n  \
    stands COMMAND STANDING                        how it stands\n  \
    bad LINE                                       the line can't be taken\n\n\
    Example:\n  \
    printf 'group 0 go-on\\ncommand 0 0 0 0 1 0\\n\\n\\n' | night plan";

/// What help shows of `drive`. Its lines are those of both sides.
const DRIVE: Page = Page {
    about: "Drives a night over a store: reads a plan and what happens, and answers what to do",
    ending: "\
    Standard input is written by an executor, which begins and stops processes. It has a\n\
    plan, and then rounds of what happens; each ends with an empty line, and is answered\n\
    on standard output.\n\n\
    The lines of a plan. Pools, groups and commands are numbered from 0:\n\n  \
    pool SIZE                            a pool\n  \
    group PRIORITY WAY NAME              a group, and what a failure does to it: `go-on`,\n  \
    \x20                                    `stop` or `cancel`\n  \
    until MOMENT WORDS                   the deadline of the group before it, and its text\n  \
    command GROUP PRIORITY RETRIES WAIT FACTOR CAP KEY\n  \
    \x20                                    a command, and how it is tried again\n  \
    need well|failed|ended command|group NUMBER\n  \
    \x20                                    what the command before it comes after\n  \
    take POOL AMOUNT                     what the command before it takes\n  \
    all MOMENT WORDS                     the deadline of all groups together\n  \
    next                                 another night begins, even if the last isn't over\n\n\
    The lines of a round:\n\n  \
    now MOMENT                           the time\n  \
    ended TASK ok                        the try ended well\n  \
    ended TASK error WHY                 it failed\n  \
    gone TASK                            it is over, and nobody knows how it ended\n  \
    cancel COMMAND WHY                   the command was canceled\n  \
    done GROUP WHY                       the group was canceled\n  \
    size POOL SIZE                       a pool has another size\n  \
    hurry                                no retry waits for its time any longer\n  \
    ask COMMAND                          asks for the error of its last try\n  \
    first GROUP                          asks for the first error of the group\n  \
    pool, group, until, command, need, take\n  \
    \x20                                    the plan grows\n  \
    standings                            asks how each command stands\n  \
    lives GROUP KEY TRY                  in the first round: this try still runs\n\n\
    The answers:\n\n  \
    plan COMMANDS                        the plan is taken\n  \
    night NIGHT                          this night begins or goes on\n  \
    unknown, too-much, circle, member    the plan is refused, as by `night plan`\n  \
    name GROUP                           it is refused: no group can have this name, or an\n  \
    \x20                                    earlier one has it\n  \
    twice COMMAND                        it is refused: the group and key stand before\n  \
    other TASK                           the store is refused: this task isn't a drive's\n  \
    begin COMMAND TASK GROUP KEY TRY     begin the command; its try is this task\n  \
    rebound COMMAND TASK GROUP KEY TRY   it runs already, and is this task from now on\n  \
    stop TASK WHY                        stop the try\n  \
    error COMMAND TEXT                   the last try of the command has failed so\n  \
    first GROUP TEXT                     the first error of the group\n  \
    later MOMENT                         when to report the time again\n  \
    stands COMMAND STANDING              how a command stands\n  \
    durable                              all lines so far are recorded\n  \
    over                                 the night has ended\n  \
    full                                 the store is full, so nothing more begins\n  \
    bad LINE                             the line can't be taken\n  \
    fault N NAME                         the store can't be used any more\n\n\
    Example:\n  \
    printf 'group 0 go-on g\\ncommand 0 0 0 0 1 0 k\\n\\n\\n' | night drive jobs.store",
    store: "STORE",
    help: STORE,
};

/// The command line of the program, with all of its commands.
pub fn night_command<'a>(alloc: Global) -> Result<Command<'a>, AllocError>
    ensures { IfOk result (λ command. app_of command ≡ night) }
{
    let demo = with_command(Ok(night_alone(alloc)), demo_command(alloc));
    let format = with_command(demo, format_command(alloc));
    let script = with_command(format, script_command(alloc));
    let inspect = with_command(script, inspect_command(alloc));
    let migrate = with_command(inspect, migrate_command(alloc));
    let crew = with_command(migrate, crew_command(alloc));
    let renew = with_command(crew, renew_command(alloc));
    let plan = with_command(renew, Ok(plan_command(alloc)));
    with_command(plan, drive_command(alloc))
}

/// The command line without its commands.
fn night_alone<'a>(alloc: Global) -> Command<'a>
    ensures { app_of result ≡ record { top = night_alone; subs = [] } }
{
    Command::new(alloc, "night")
        .about("Keeps a record of scopes, groups and tasks that survives any crash")
        .version(VERSION)
        .after_help(EXAMPLE)
        .subcommand_required(true)
        .arg_required_else_help(true)
}

/// A command line with one more command, if there was memory for both.
fn with_command<'a>(
    line: Result<Command<'a>, AllocError>,
    command: Result<Command<'a>, AllocError>,
) -> Result<Command<'a>, AllocError>
    ensures { (before added : App) → added.top.is_plain ≡ true
        → IfOk line.entry (λ line. app_of line ≡ before)
        → IfOk command.entry (λ command. app_of command ≡ added)
        → IfOk result (λ line. app_of line ≡ with_subcommand before added.top) }
{
    let Ok(command) = command else {
        drop(line);
        return Err(AllocError);
    };
    let Ok(line) = line else {
        drop(command);
        return Err(AllocError);
    };
    line.subcommand(command)
}

/// The command over a book in memory.
fn demo_command<'a>(alloc: Global) -> Result<Command<'a>, AllocError>
    ensures { IfOk result (λ command. app_of command ≡ demo_line) }
{
    let demo = Command::new(alloc, "demo")
        .about("Answers the requests of standard input over a store in memory; keeps nothing")
        .after_help(LINES);
    with_flag(alloc, Ok(demo), "strict", STRICT)
}

/// The command that makes a store of a file.
fn format_command<'a>(alloc: Global) -> Result<Command<'a>, AllocError>
    ensures { IfOk result (λ command. app_of command ≡ format_line) }
{
    let store = store_command(alloc, "format", FORMAT);
    with_flag(alloc, store, "new", NEW_STORE)
}

/// The command that runs the input over a store.
fn script_command<'a>(alloc: Global) -> Result<Command<'a>, AllocError>
    ensures { IfOk result (λ command. app_of command ≡ script_line) }
{
    let store = store_command(alloc, "script", SCRIPT);
    let strict = with_flag(alloc, store, "strict", STRICT);
    with_flag(alloc, strict, "now", NOW)
}

/// The command that reads a store.
fn inspect_command<'a>(alloc: Global) -> Result<Command<'a>, AllocError>
    ensures { IfOk result (λ command. app_of command ≡ inspect_line) }
{
    let store = store_command(alloc, "inspect", INSPECT);
    let tasks = with_flag(alloc, store, "tasks", TASKS);
    let phase = with_value(alloc, tasks, "phase", "PHASE", PHASE);
    let group = with_value(alloc, phase, "group", "GROUP", GROUP);
    let json = with_flag(alloc, group, "json", JSON);
    let tree = with_flag(alloc, json, "tree", TREE);
    let no_tasks = with_flag(alloc, tree, "no-tasks", NO_TASKS);
    with_flag(alloc, no_tasks, "summary", SUMMARY)
}

/// The command that makes a large store of a small one.
fn migrate_command<'a>(alloc: Global) -> Result<Command<'a>, AllocError>
    ensures { IfOk result (λ command. app_of command ≡ migrate_line) }
{
    let old = store_command(alloc, "migrate", MIGRATE);
    let new = with_word(old, place_word(alloc, "NEW", "NEW", true, NEW_FILE));
    with_flag(alloc, new, "new", NEW)
}

/// The command that works off the tasks of a store.
fn crew_command<'a>(alloc: Global) -> Result<Command<'a>, AllocError>
    ensures { IfOk result (λ command. app_of command ≡ crew_line) }
{
    let store = store_command(alloc, "crew", CREW);
    let workers = with_value(alloc, store, "workers", "N", WORKERS);
    with_flag(alloc, workers, "known", KNOWN)
}

/// The command that makes a store of what another one still needs.
fn renew_command<'a>(alloc: Global) -> Result<Command<'a>, AllocError>
    ensures { IfOk result (λ command. app_of command ≡ renew_line) }
{
    let old = store_command(alloc, "renew", RENEW);
    let new = with_word(old, place_word(alloc, "NEW", "NEW", false, NEW_FILE));
    let to_new = with_flag(alloc, new, "new", NEW);
    with_flag(alloc, to_new, "in-place", IN_PLACE)
}

/// The command that answers a plan and its rounds.
fn plan_command<'a>(alloc: Global) -> Command<'a>
    ensures { app_of result ≡ plan_line }
{
    Command::new(alloc, "plan")
        .about("Reads a plan and what happens, and answers what may begin; needs no store")
        .after_help(PLAN)
}

/// The command that drives a night over a store.
fn drive_command<'a>(alloc: Global) -> Result<Command<'a>, AllocError>
    ensures { IfOk result (λ command. app_of command ≡ drive_line) }
{
    store_command(alloc, "drive", DRIVE)
}

/// A command over a store.
fn store_command<'a>(
    alloc: Global,
    name: &'a str,
    page: Page<'a>,
) -> Result<Command<'a>, AllocError>
    ensures { IfOk result (λ command. app_of command ≡ store_line name.now) }
{
    let command = Command::new(alloc, name)
        .about(page.about)
        .after_help(page.ending);
    with_word(
        Ok(command),
        place_word(alloc, "STORE", page.store, true, page.help),
    )
}

/// A command with one more flag.
fn with_flag<'a>(
    alloc: Global,
    command: Result<Command<'a>, AllocError>,
    id: &'a str,
    help: &'a str,
) -> Result<Command<'a>, AllocError>
    ensures { (before : App) → IfOk command.entry (λ command. app_of command ≡ before)
        → IfOk result (λ command. app_of command ≡ with_rule before (flag id.now)) }
{
    with_word(command, flag_word(alloc, id, help))
}

/// A command with one more option, and what help calls its value.
fn with_value<'a>(
    alloc: Global,
    command: Result<Command<'a>, AllocError>,
    id: &'a str,
    name: &'a str,
    help: &'a str,
) -> Result<Command<'a>, AllocError>
    ensures { (before : App) → IfOk command.entry (λ command. app_of command ≡ before)
        → IfOk result (λ command. app_of command ≡ with_rule before (value_option id.now)) }
{
    with_word(command, value_word(alloc, id, name, help))
}

/// A command with one more word, if there was memory for both.
fn with_word<'a>(
    command: Result<Command<'a>, AllocError>,
    word: Arg<'a>,
) -> Result<Command<'a>, AllocError>
    ensures { (before : App) (rule : Rule) → word.entry.global ≡ false
        → rule_of word.entry ≡ rule
        → IfOk command.entry (λ command. app_of command ≡ before)
        → IfOk result (λ command. app_of command ≡ with_rule before rule) }
{
    let Ok(command) = command else {
        drop(word);
        return Err(AllocError);
    };
    command.arg(word)
}

/// An option with a value, which `readers` reads, and what help calls the value.
fn value_word<'a>(alloc: Global, id: &'a str, name: &'a str, help: &'a str) -> Arg<'a>
    ensures rule { rule_of result ≡ value_option id.now }
    ensures local { result.global ≡ false }
{
    place_word(alloc, id, name, false, help).long(id)
}

/// A flag, which stands alone.
fn flag_word<'a>(alloc: Global, id: &'a str, help: &'a str) -> Arg<'a>
    ensures rule { rule_of result ≡ flag id.now }
    ensures local { result.global ≡ false }
{
    Arg::new(alloc, id)
        .long(id)
        .action(ArgAction::SetTrue)
        .help(help)
}

/// A word with a value, which its command needs or may do without, and what help calls the value.
fn place_word<'a>(
    alloc: Global,
    id: &'a str,
    name: &'a str,
    is_wanted: bool,
    help: &'a str,
) -> Arg<'a>
    ensures rule { rule_of result ≡ record (free id.now) { required = is_wanted } }
    ensures local { result.global ≡ false }
{
    Arg::new(alloc, id)
        .value_name(name)
        .required(is_wanted)
        .action(ArgAction::Set)
        .help(help)
}
