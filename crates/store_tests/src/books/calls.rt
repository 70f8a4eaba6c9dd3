//! The steps of tables, each by the book's call for it, and what their replies must say.

use crate::asserts::{done, given, holds};
use run_book::Book;
use run_disk::RunDisk;
use run_model::{Name, Reply, Step, Trouble};
use std::alloc::{Allocator, Global};
use std::process::Abort;
use test_fixtures::{Call, Replied, answered, finished, replied_by, started, step_of};

pub fn name(rt: &impl Abort, bytes: &[u8]) -> Name {
    given(rt, Name::read(bytes), "name")
}

/// The step that a call is.
pub fn step(rt: &impl Abort, call: Call) -> Step {
    given(rt, step_of(call), "step")
}

fn saved(answer: Result<u64, Trouble>) -> Reply {
    match answer {
        Ok(event) => Reply::Acked(event),
        Err(Trouble::Refused(refusal)) => Reply::Refused(refusal),
        Err(Trouble::Faulty(fault)) => Reply::Faulty(fault),
    }
}

/// Takes one step, by the book's call for it.
pub fn take<D: RunDisk, A: Allocator>(book: &mut Book<D, A>, step: &Step) -> Reply {
    match step {
        Step::Command(command) => answered(book.command(command)),
        Step::Start => started(book.start()),
        Step::Finish(task, outcome) => finished(book.finish(*task, outcome)),
        Step::Flush => saved(book.flush()),
        Step::Checkpoint => saved(book.checkpoint()),
    }
}

/// The steps of tables, one after the other.
pub fn steps_of(
    rt: &impl Abort,
    alloc: Global,
    lists: &[&[(Call, Replied<'static>)]],
) -> Vec<Step> {
    let mut steps = Vec::new(alloc);
    for rows in lists.iter() {
        add_steps(rt, &mut steps, rows);
    }
    steps
}

/// Adds a step.
pub fn add(rt: &impl Abort, steps: &mut Vec<Step>, step: Step) {
    done(rt, steps.push(step), "memory");
}

/// Adds the steps of a table.
pub fn add_steps(rt: &impl Abort, steps: &mut Vec<Step>, rows: &[(Call, Replied<'static>)]) {
    for row in rows.iter() {
        add(rt, steps, step(rt, row.0));
    }
}

/// Asserts that there is one reply for each step of the tables, which says what stands there.
pub fn assert_replies(rt: &impl Abort, replies: &[Reply], lists: &[&[(Call, Replied<'static>)]]) {
    let mut rest = replies;
    for rows in lists.iter() {
        let (prefix, back) = rest.split_at_checked(rows.len()).expect(rt, "replies");
        assert_rows(rt, prefix, rows);
        rest = back;
    }
    holds(rt, rest.is_empty(), "replies too many", rest.len() as u64);
}

/// Asserts that the last replies are those of this table.
pub fn assert_last(rt: &impl Abort, replies: &[Reply], rows: &[(Call, Replied<'static>)]) {
    let prefix = replies.len().checked_sub(rows.len()).expect(rt, "replies");
    let (_, last) = replies.split_at_checked(prefix).expect(rt, "replies");
    assert_rows(rt, last, rows);
}

fn assert_rows(rt: &impl Abort, replies: &[Reply], rows: &[(Call, Replied<'static>)]) {
    for (n, (reply, row)) in replies.iter().zip(rows.iter()).enumerate() {
        holds(rt, replied_by(reply) == row.1, "row", n as u64);
    }
}

/// Takes the steps of a table one by one, and asserts what each is answered.
pub fn assert_replied<D: RunDisk, A: Allocator>(
    rt: &impl Abort,
    book: &mut Book<D, A>,
    rows: &[(Call, Replied<'static>)],
) {
    for (n, row) in rows.iter().enumerate() {
        let reply = take(book, &step(rt, row.0));
        holds(rt, replied_by(&reply) == row.1, "row", n as u64);
    }
}
