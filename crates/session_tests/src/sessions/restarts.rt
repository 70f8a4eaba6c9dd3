//! Sessions that begin after a restart: what was running is interrupted, and can be retried once.

use crate::asserts::{done, holds};
use crate::sessions::steps::Step::{Count, Records, Refuses, Running, Says, Scopes, Task, Tasks};
use crate::sessions::steps::{Step, play, take};
use record_view::EventView;
use run_model::{Command, Layout, Refusal};
use run_session::{Session, State};
use std::alloc::Global;
use std::process::Abort;
use test_fixtures::Call::{Bare, Go, Group, Limit, Retry, Start, Succeed, Wait};
use test_fixtures::{Call, Going, Replied, Seen, command_of};

/// Changes a state by what a command asks for.
fn obey(state: &mut State, command: &Command) -> Result<(), Refusal> {
    if 1_000 <= state.count() {
        return Err(Refusal::SessionFull);
    }
    if let Some(event) = state.asked(command)? {
        state.apply(&event);
    }
    Ok(())
}

/// Starts the least ready task of a state.
fn start(state: &mut State) -> Result<u16, Refusal> {
    if 1_000 <= state.count() {
        return Err(Refusal::SessionFull);
    }
    let task = state.asked_start()?.info.task;
    state.apply(&EventView::Start { task });
    Ok(task)
}

/// A session that begins after a restart of a state.
fn restarted(rt: &impl Abort, alloc: Global, mut state: State) -> Session {
    assert!(rt; state.count() < 1_000);
    state.restart();
    assert!(rt; state.count() < 1_000);
    done(rt, Session::begin(alloc, state), "session")
}

/// A session that begins after a restart of a state, which these commands and so many starts led
/// to. The tasks start in the order of their numbers.
fn begun(rt: &impl Abort, alloc: Global, layout: Layout, calls: &[Call], starts: u16) -> Session {
    let mut state = done(rt, State::new(alloc, layout), "state");
    for call in calls.iter() {
        let command = command_of(*call).expect(rt, "a command");
        done(rt, obey(&mut state, &command), "event");
    }
    for task in 0..starts {
        holds(rt, start(&mut state) == Ok(task), "start", task as usize);
    }
    restarted(rt, alloc, state)
}

static LIMIT_OF_ONE: [Call; 4] = [
    Group(b"g", b"root"),
    Limit(b"g", Some(1)),
    Go(b"g", b"copy", b"a"),
    Go(b"g", b"copy", b"b"),
];

static ONE_RETRY: [Step; 10] = [
    Tasks(&[Going::Interrupted, Going::Ready]),
    Scopes(&[(1, Seen::Canceled(b"interrupted"), None)]),
    Step::Group(b"g", (1, 1, Some(1), false, Some(b"interrupted"))),
    Count(7),
    Says(&[
        (Retry(0), Replied::Held(2)),
        (Retry(0), Replied::Refused(Refusal::AlreadyRetried)),
        (Retry(1), Replied::Refused(Refusal::NotInterrupted)),
        (Retry(3), Replied::Refused(Refusal::NoSuchTask)),
    ]),
    Tasks(&[Going::Interrupted, Going::Ready, Going::Held]),
    Task((2, b"copy", b"a", Some(0))),
    Count(8),
    Records(b"\x0c\x00\x02\x00\x00"),
    Says(&[
        (Start, Replied::Started(9, 1, b"copy", b"b", true)),
        (Succeed(1), Replied::Finished(10)),
        (Start, Replied::Started(11, 2, b"copy", b"a", true)),
        (Succeed(2), Replied::Finished(12)),
        (Wait(b"g"), Replied::Waited(Some(b"interrupted"))),
        (Retry(0), Replied::Refused(Refusal::AlreadyRetried)),
    ]),
];

#[test]
fn an_interrupted_task_is_retried_once(rt: HostRuntime) {
    let mut session = begun(&rt, rt.alloc(), Layout::Small, &LIMIT_OF_ONE, 1);
    take(&rt, &mut session, &ONE_RETRY);
    drop(session);
}

static FOUR_GROUPS: [Call; 9] = [
    Group(b"g", b"root"),
    Group(b"h", b"root"),
    Group(b"i", b"root"),
    Bare(b"j", b"root"),
    Go(b"h", b"copy", b"a"),
    Go(b"g", b"copy", b"a"),
    Go(b"h", b"copy", b"a"),
    Go(b"j", b"copy", b"a"),
    Go(b"i", b"copy", b"a"),
];

static THREE_ENDED: [Step; 7] = [
    Step::Group(b"g", (1, 0, None, false, Some(b"interrupted"))),
    Step::Group(b"h", (2, 0, None, false, Some(b"interrupted"))),
    Step::Group(b"i", (3, 1, None, false, None)),
    Step::Group(b"j", (0, 0, None, false, Some(b"interrupted"))),
    Scopes(&[
        (0, Seen::Live, None),
        (1, Seen::Canceled(b"interrupted"), None),
        (2, Seen::Canceled(b"interrupted"), None),
        (3, Seen::Live, None),
    ]),
    Running(0),
    Says(&[
        (Wait(b"j"), Replied::Waited(Some(b"interrupted"))),
        (Retry(3), Replied::Refused(Refusal::Waited)),
        (Retry(2), Replied::Ready(5)),
    ]),
];

#[test]
fn a_restart_ends_each_group_that_has_a_running_task(rt: HostRuntime) {
    let mut session = begun(&rt, rt.alloc(), Layout::Large, &FOUR_GROUPS, 4);
    take(&rt, &mut session, &THREE_ENDED);
    drop(session);
}

static NO_RETRIES: [Step; 4] = [
    Says(&[
        (Group(b"g", b"root"), Replied::Group(0, Some(1))),
        (Go(b"g", b"copy", b"a"), Replied::Ready(0)),
    ]),
    Refuses(&[(Retry(0), Refusal::NotInterrupted)]),
    Says(&[(Start, Replied::Started(4, 0, b"copy", b"a", false))]),
    Refuses(&[
        (Retry(0), Refusal::NotInterrupted),
        (Retry(1), Refusal::NoSuchTask),
    ]),
];

#[test]
fn no_task_of_a_new_session_is_interrupted(rt: HostRuntime) {
    play(&rt, rt.alloc(), &NO_RETRIES)
}
