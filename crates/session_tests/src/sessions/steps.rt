//! Tests as tables of steps: calls with what they are answered, and what a session shows after
//! them.

use crate::asserts::done;
use crate::sessions::calls::{first_unlike, first_unrefused, reply};
use crate::sessions::fills::{Fill, first_unfilled};
use crate::sessions::looks::{
    ScopeRow, TaskRow, first_event_unlike, first_scope_unlike, first_task_unlike, has_group,
    has_task, has_value,
};
use record_view::EventView;
use run_model::{Layout, Refusal};
use run_session::Session;
use std::alloc::{Allocator, Global};
use std::process::Abort;
use test_fixtures::{Call, Going, GroupSeen, Replied};

/// A step of a test.
#[derive(Clone, Copy)]
pub enum Step {
    /// Calls, and what each is answered.
    Says(&'static [(Call, Replied<'static>)]),
    /// Calls, each of which is refused so and changes nothing.
    Refuses(&'static [(Call, Refusal)]),
    /// Calls, each with the record that it appends.
    Appends(&'static [(Call, &'static [u8])]),
    /// Many calls of one kind.
    Fills(Fill),
    /// How scopes are.
    Scopes(&'static [ScopeRow]),
    /// How far the tasks are, by ascending number; there are no more.
    Tasks(&'static [Going<'static>]),
    /// A task.
    Task(TaskRow),
    /// How many tasks run.
    Running(usize),
    /// A group by its name.
    Group(&'static [u8], GroupSeen),
    /// The value of a key at a scope.
    Value(u16, &'static [u8], Option<&'static [u8]>),
    /// How many events there were.
    Count(u64),
    /// How many bytes the log has.
    Log(usize),
    /// The records of the log.
    Records(&'static [u8]),
    /// The events of the history; there are no more.
    Events(&'static [EventView<'static>]),
}

/// Takes a step. Gives the first row that is otherwise: 0 where the step has no rows.
fn first_wrong<A: Allocator>(
    rt: &impl Abort,
    session: &mut Session<A>,
    step: &Step,
) -> Option<usize> {
    match *step {
        Step::Says(rows) => first_unlike(rt, session, rows),
        Step::Refuses(rows) => first_unrefused(rt, session, rows),
        Step::Appends(rows) => first_unappended(rt, session, rows),
        Step::Fills(fill) => first_unfilled(rt, session, fill),
        Step::Scopes(rows) => first_scope_unlike(session.state(), rows),
        Step::Tasks(rows) => first_task_unlike(session.state(), rows),
        Step::Events(rows) => first_event_unlike(session, rows),
        _ => (!shows(rt, session, step)).then_some(0),
    }
}

/// Says whether a step of one row is as the session shows it.
fn shows<A: Allocator>(rt: &impl Abort, session: &Session<A>, step: &Step) -> bool {
    match step {
        Step::Task(row) => has_task(session.state(), row),
        Step::Running(count) => session.state().running() == *count,
        Step::Group(called, seen) => has_group(rt, session.state(), called, seen),
        Step::Value(scope, key, value) => has_value(rt, session.state(), *scope, key, *value),
        Step::Count(count) => session.count() == *count,
        Step::Log(len) => session.log_len() == *len,
        Step::Records(records) => session.history().rest() == *records,
        _ => false,
    }
}

/// The first call of a table that appends another record.
fn first_unappended<A: Allocator>(
    rt: &impl Abort,
    session: &mut Session<A>,
    rows: &[(Call, &[u8])],
) -> Option<usize> {
    for (n, row) in rows.iter().enumerate() {
        let before = session.log_len();
        let _ = reply(rt, session, row.0);
        if session.history().rest().get(before..) != Some(row.1) {
            return Some(n);
        }
    }
    None
}

/// Takes the steps of a test over a session.
pub fn take<A: Allocator>(rt: &impl Abort, session: &mut Session<A>, steps: &[Step]) {
    for (n, step) in steps.iter().enumerate() {
        let wrong = first_wrong(rt, session, step);
        assert!(rt; wrong.is_none(), "step {n}, row {wrong:?}");
    }
}

/// A new session.
pub fn begun<A: Allocator + Copy>(rt: &impl Abort, alloc: A, layout: Layout) -> Session<A> {
    done(rt, Session::new(alloc, layout), "session")
}

/// Takes the steps of a test over a new session of a layout.
pub fn play_in(rt: &impl Abort, alloc: Global, layout: Layout, steps: &[Step]) {
    let mut session = begun(rt, alloc, layout);
    take(rt, &mut session, steps);
    drop(session);
}

/// Takes the steps of a test over a new session of the small layout.
pub fn play(rt: &impl Abort, alloc: Global, steps: &[Step]) {
    play_in(rt, alloc, Layout::Small, steps)
}
