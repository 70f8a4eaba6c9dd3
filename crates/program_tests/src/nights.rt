//! A night that is stopped, inspected, opened again, migrated and renewed.

use crate::asserts::{done, holds};
use crate::runs::{End, assert_run};
use crate::shelves::Shelf;
use crate::stores::{SIZES, copied, kept, left, scripted, shelved, typed, zeros};
use run_disk::MemoryDisk;
use std::alloc::Global;
use std::process::Abort;
use std::sync::Wait;
use std::thread::Threads;
use store_words::migrate;

/// What is typed before the stop, and what is printed: the first of two tasks runs.
const STOPPED: (&str, &str) = (
    "group g root\nlimit g 1\ngo g copy a\ngo g copy b\nstart\nflush\n",
    "formatted\ngroup 0 scope 1\nok\ntask 0 ready\ntask 1 held\nstart 0 copy a\nacked 6\nacked 6\n",
);

const INSPECTED: &str = "events 6; clock 0\n\
     scope 0 root live; deadline none\n\
     scope 1 g live; deadline none\n\
     group 0 g unfinished 2; limit 1; waited no; error none\n\
     task 0 g copy a running\n\
     task 1 g copy b held\n";

/// The lines of its tasks alone.
const TASKS: &str = "task 0 g copy a running\ntask 1 g copy b held\n";

/// All of it as one object of JSON.
const JSON: &str = "{\"version\":1,\"count\":6,\"clock\":0,\"layout\":\"small\",\
     \"room\":{\"scopes\":1024,\"groups\":128,\"tasks\":2048},\n\
     \"scopes\":[\n\
     {\"number\":0,\"name\":\"root\",\"parent\":null,\"kind\":\"root\",\"key\":null,\
     \"value\":null,\"deadline\":null,\"done\":false,\"reason\":null,\"cause\":null},\n\
     {\"number\":1,\"name\":\"g\",\"parent\":0,\"kind\":\"group\",\"key\":null,\
     \"value\":null,\"deadline\":null,\"done\":false,\"reason\":null,\"cause\":null}],\n\
     \"groups\":[\n\
     {\"number\":0,\"name\":\"g\",\"scope\":1,\"limit\":1,\"waited\":false,\
     \"unfinished\":2,\"error\":null}],\n\
     \"tasks\":[\n\
     {\"number\":0,\"group\":0,\"group_name\":\"g\",\"job\":\"copy\",\"argument\":\"a\",\
     \"phase\":\"running\",\"error\":null,\"retry_of\":null},\n\
     {\"number\":1,\"group\":0,\"group_name\":\"g\",\"job\":\"copy\",\"argument\":\"b\",\
     \"phase\":\"held\",\"error\":null,\"retry_of\":null}]}\n";

/// Of its tasks the one that is held.
const HELD: &str = "{\"version\":1,\"count\":6,\"clock\":0,\"layout\":\"small\",\
     \"room\":{\"scopes\":1024,\"groups\":128,\"tasks\":2048},\n\
     \"scopes\":[\n\
     {\"number\":0,\"name\":\"root\",\"parent\":null,\"kind\":\"root\",\"key\":null,\
     \"value\":null,\"deadline\":null,\"done\":false,\"reason\":null,\"cause\":null},\n\
     {\"number\":1,\"name\":\"g\",\"parent\":0,\"kind\":\"group\",\"key\":null,\
     \"value\":null,\"deadline\":null,\"done\":false,\"reason\":null,\"cause\":null}],\n\
     \"groups\":[\n\
     {\"number\":0,\"name\":\"g\",\"scope\":1,\"limit\":1,\"waited\":false,\
     \"unfinished\":2,\"error\":null}],\n\
     \"tasks\":[\n\
     {\"number\":1,\"group\":0,\"group_name\":\"g\",\"job\":\"copy\",\"argument\":\"b\",\
     \"phase\":\"held\",\"error\":null,\"retry_of\":null}]}\n";

/// A tree without its tasks.
const BRANCHES: &str = "events 6; clock 0; scopes 2 of 1024; groups 1 of 128; tasks 2 of 2048\n\
     scope 0 root root; live; deadline none\n\
     \u{2514}\u{2500}scope 1 g group; live; deadline none\n\
     \x20 \u{2514}\u{2500}group 0 g unfinished 2; limit 1; waited no; error none; \
     tasks held 1, ready 0, running 1, success 0, error 0, interrupted 0\n";

/// Its summary.
const SUMMARY: &str = "events 6; clock 0; scopes 2 of 1024; groups 1 of 128; tasks 2 of 2048\n\
     group 0 g unfinished 2; limit 1; waited no; error none; tasks held 1, ready 0, running 1, \
     success 0, error 0, interrupted 0; scope 1 live; deadline none\n";

/// What is typed after the stop.
const AGAIN: &str = "task 0\ntask 1\nresult g\nscope g\n";

/// What is printed then.
const GOES_ON: &str = "task 0 interrupted\n\
     task 1 ready\n\
     unfinished 1; limit 1; waited no; error interrupted\n\
     done; deadline none; err context canceled; cause interrupted\n\
     acked 7\n";

/// Words over the stopped night, what is typed, and how it ends.
type Over = (&'static [&'static str], &'static str, End);

/// Asserts how a run over the stopped night ends, also while another program has it open.
fn assert_over<R: Threads + Wait + Sync + Abort>(rt: &R, alloc: Global, is_used: bool, row: &Over) {
    let mut shelf = scripted(rt, alloc, STOPPED.0);
    shelf.is_used = is_used;
    assert_run(rt, alloc, row.0, &mut shelf, row.1, &row.2);
}

static VIEWS: [Over; 8] = [
    (&["inspect", "jobs.store"], "", (0, INSPECTED, "")),
    (&["inspect", "--tasks", "jobs.store"], "", (0, TASKS, "")),
    (&["inspect", "jobs.store", "--tasks"], "", (0, TASKS, "")),
    (&["inspect", "--json", "jobs.store"], "", (0, JSON, "")),
    (&["inspect", "jobs.store", "--json"], "", (0, JSON, "")),
    (
        &["inspect", "--json", "--phase=held", "jobs.store"],
        "",
        (0, HELD, ""),
    ),
    (
        &["inspect", "--tree", "--no-tasks", "jobs.store"],
        "",
        (0, BRANCHES, ""),
    ),
    (
        &["inspect", "--summary", "jobs.store"],
        "",
        (0, SUMMARY, ""),
    ),
];

#[test]
fn a_stopped_night_is_inspected(rt: HostRuntime) {
    let printed = typed(&rt, rt.alloc(), STOPPED.0).1;
    holds(&rt, printed.as_slice() == STOPPED.1.as_bytes(), "night", 0);
    for row in VIEWS.iter() {
        assert_over(&rt, rt.alloc(), false, row);
    }
}

/// A stopped night goes on, and another one is migrated.
static LATER: [Over; 3] = [
    (&["script", "jobs.store"], AGAIN, (0, GOES_ON, "")),
    (
        &["migrate", "jobs.store", "new.store"],
        "",
        (0, "migrated; events 6\n", ""),
    ),
    (
        &["migrate", "jobs.store", "--new", "new.store"],
        "",
        (0, "migrated; events 6\n", ""),
    ),
];

#[test]
fn a_stopped_night_is_opened_again(rt: HostRuntime) {
    assert_over(&rt, rt.alloc(), false, &LATER[0]);
}

#[test]
fn a_migration_goes_by_its_words(rt: HostRuntime) {
    assert_over(&rt, rt.alloc(), false, &LATER[1]);
    assert_over(&rt, rt.alloc(), false, &LATER[2]);
}

/// The large store that a small one is migrated to; and how many events were read in it, and what
/// is left of the small one.
fn migrated(rt: &impl Abort, alloc: Global, small: &[u8]) -> (Shelf, u64, Vec<u8>) {
    let bytes = copied(rt, alloc, small);
    let mut old = done(rt, MemoryDisk::from_bytes(alloc, bytes), "disk");
    let (answer, new) = migrate(alloc, &mut old, zeros(rt, alloc, SIZES.1));
    let count = done(rt, answer, "migration");
    let large = shelved(rt, alloc, "new.store", new);
    (large, count, left(rt, alloc, &old))
}

/// What is done with the large store, one after the other.
static MIGRATED: [Over; 2] = [
    (&["inspect", "new.store"], "", (0, INSPECTED, "")),
    (&["script", "new.store"], AGAIN, (0, GOES_ON, "")),
];

#[test]
fn a_stopped_night_is_migrated(rt: HostRuntime) {
    let small = scripted(&rt, rt.alloc(), STOPPED.0);
    let small = kept(&rt, &small, "jobs.store");
    let (mut large, count, old) = migrated(&rt, rt.alloc(), small.as_slice());
    holds(&rt, count == 6, "count", 0);
    holds(&rt, old.as_slice() == small.as_slice(), "old store", 0);
    for row in MIGRATED.iter() {
        assert_run(&rt, rt.alloc(), row.0, &mut large, row.1, &row.2);
    }
}

/// What a crew prints: the opening interrupts task 0 and lets task 1 be ready.
const WORKED: &str = "audit ok; starts 1; finishes 1\nacked 9\n";

/// Crews over the stopped night, by how many workers there are. There are two lists of jobs.
static CREWS: [Over; 3] = [
    (&["crew", "jobs.store", "--workers=1"], "", (0, WORKED, "")),
    (&["crew", "jobs.store", "--workers=2"], "", (0, WORKED, "")),
    (
        &["crew", "jobs.store", "--workers=3"],
        "",
        (4, "", "night: fault 1 Memory\n"),
    ),
];

#[test]
fn a_crew_works_off_a_stopped_night(rt: HostRuntime) {
    for row in CREWS.iter() {
        assert_over(&rt, rt.alloc(), false, row);
    }
}

/// What is told of a store that another program has open.
const IN_USE: &str = "night: fault 2 DiskFailed\nnight: jobs.store: in use by another program\n";

/// Words over the stopped night while another program has it open.
static USED: [Over; 8] = [
    (&["inspect", "jobs.store"], "", (0, INSPECTED, "")),
    (&["inspect", "--tasks", "jobs.store"], "", (0, TASKS, "")),
    (&["inspect", "--json", "jobs.store"], "", (0, JSON, "")),
    (&["script", "jobs.store"], "", (3, "", IN_USE)),
    (&["crew", "jobs.store", "--workers=1"], "", (3, "", IN_USE)),
    (&["migrate", "jobs.store", "new.store"], "", (3, "", IN_USE)),
    (&["renew", "jobs.store", "new.store"], "", (3, "", IN_USE)),
    (&["renew", "--in-place", "jobs.store"], "", (3, "", IN_USE)),
];

#[test]
fn a_store_in_use_is_shown_and_not_opened(rt: HostRuntime) {
    for row in USED.iter() {
        assert_over(&rt, rt.alloc(), true, row);
    }
}

/// A night of which one group is waited for.
const ENDED: &str =
    "bare a root\ngo a copy x\nstart\nfinish 0 ok\nwait a\ngroup g root\ngo g copy b\n";

/// How its renewal ends.
const RENEWAL: End = (
    0,
    "renewed; events 8; scopes 2 of 2; groups 1 of 2; tasks 1 of 2\n",
    "",
);

/// What is printed when the same is typed once more.
const GOES_FURTHER: &str = "task 0 interrupted\n\
     task 1 ready\n\
     unfinished 1; limit 1; waited no; error interrupted\n\
     done; deadline none; err context canceled; cause interrupted\n\
     acked 8\n";

/// Runs over the stopped night, one after the other.
static IN_A_ROW: [Over; 2] = [
    (&["script", "jobs.store"], AGAIN, (0, GOES_ON, "")),
    (&["script", "jobs.store"], AGAIN, (0, GOES_FURTHER, "")),
];

#[test]
fn each_run_finds_what_the_one_before_it_left(rt: HostRuntime) {
    let mut shelf = scripted(&rt, rt.alloc(), STOPPED.0);
    for row in IN_A_ROW.iter() {
        assert_run(&rt, rt.alloc(), row.0, &mut shelf, row.1, &row.2);
    }
}

/// A group of six tasks of which one ended, one runs and two are held; the crews know `copy` alone
/// of their jobs.
const MIXED: &str = "group g root\nlimit g 3\ngo g mail a\ngo g copy b\ngo g mail c\n\
     go g page d\ngo g copy e\ngo g mail f\nstart\nfinish 0 ok\nstart\nstart\n";

/// Lines, words over the store over which they were run, what is typed, and how it ends.
type Night = (&'static str, &'static [&'static str], &'static str, End);

/// Words that renew a night of which one group is waited for.
static RENEWED: [Night; 4] = [
    (ENDED, &["renew", "jobs.store", "new.store"], "", RENEWAL),
    (
        ENDED,
        &["renew", "--new", "jobs.store", "new.store"],
        "",
        RENEWAL,
    ),
    (ENDED, &["renew", "--in-place", "jobs.store"], "", RENEWAL),
    (ENDED, &["renew", "jobs.store", "--in-place"], "", RENEWAL),
];

#[test]
fn a_night_is_renewed(rt: HostRuntime) {
    assert_nights(&rt, rt.alloc(), &RENEWED);
}

/// Asserts how each of these nights ends.
fn assert_nights<R: Threads + Wait + Sync + Abort>(rt: &R, alloc: Global, nights: &[Night]) {
    for night in nights {
        let mut shelf = scripted(rt, alloc, night.0);
        assert_run(rt, alloc, night.1, &mut shelf, night.2, &night.3);
    }
}

/// Words of a crew that looks first.
const LOOKING: [&str; 4] = ["crew", "--known", "jobs.store", "--workers=1"];

static KNOWN: [Night; 3] = [
    (
        MIXED,
        &LOOKING,
        "",
        (3, "", "night: unknown job mail; tasks 3\n"),
    ),
    (
        "group g root\ngo g mail a\nstart\nfinish 0 ok\ngo g copy b\n",
        &LOOKING,
        "",
        (0, WORKED, ""),
    ),
    (
        "group g root\ngo g copy a\nlimit g none\ngo g spinn 3\n",
        &LOOKING,
        "",
        (3, "", "night: unknown job spinn; tasks 1\n"),
    ),
];

#[test]
fn a_crew_that_looks_first_begins_nothing_unknown(rt: HostRuntime) {
    assert_nights(&rt, rt.alloc(), &KNOWN);
}

/// Strict runs. The store was opened once before.
static STRICT: [Night; 5] = [
    (
        "",
        &["script", "--strict", "jobs.store"],
        "derive a root cancel\ncancel a\ncancel a\nderive b root cancel\n",
        (
            1,
            "scope 1\nok\nrefused 12 AlreadyDone\nacked 4\n",
            "night: line 3: refused 12 AlreadyDone\n",
        ),
    ),
    (
        "",
        &["script", "jobs.store", "--strict"],
        "\ngroup g root\nnonsense\ngo g copy a\n",
        (
            1,
            "group 0 scope 1\nbad line\nacked 3\n",
            "night: line 3: bad line\n",
        ),
    ),
    (
        "",
        &["script", "--strict", "jobs.store"],
        "derive a root cancel\n",
        (0, "scope 1\nacked 3\n", ""),
    ),
    (
        "",
        &["demo", "--strict"],
        "nonsense\nderive a root cancel\n",
        (1, "bad line\nacked 1\n", "night: line 1: bad line\n"),
    ),
    (
        "",
        &["demo", "--strict"],
        "derive a root cancel\n",
        (0, "scope 1\nacked 2\n", ""),
    ),
];

#[test]
fn a_strict_run_ends_at_the_first_mistake(rt: HostRuntime) {
    assert_nights(&rt, rt.alloc(), &STRICT);
}
