//! What is asked of a tree, one step after another, and what its scopes answer then.

use crate::asserts::holds_in;
use crate::runners::{Look, Runner};
use crate::values::{moment, name, text};
use run_model::{Kind, Reason, Refusal, Text};
use std::alloc::Allocator;
use std::process::Abort;

/// A step. A cause of no bytes is none.
#[derive(Clone, Copy)]
pub enum Step {
    /// A scope of this name below this one.
    Derive(&'static [u8], u16, Ask),
    /// The cancel of a scope, with this cause.
    Cancel(u16, &'static [u8]),
    /// The end of two groups' scopes by one event with one error.
    HitGroups(u16, u16, &'static [u8]),
    /// The clock to this moment.
    Advance(u64),
}

/// The kind of a scope.
#[derive(Clone, Copy)]
pub enum Ask {
    Cancel,
    Cause,
    Deadline(u64, &'static [u8]),
    Value(&'static [u8], &'static [u8]),
    Detached,
    Group,
}

/// What a scope answers: its number; the cause where it is done; its deadline.
#[derive(Clone, Copy)]
pub enum Answer {
    Live(u16, Option<u64>),
    Canceled(u16, &'static [u8], Option<u64>),
    Exceeded(u16, &'static [u8], Option<u64>),
    /// Its number, a key, and the value, which is none where it has no bytes.
    Value(u16, &'static [u8], &'static [u8]),
}

/// A cause, if it has bytes.
fn cause(rt: &impl Abort, bytes: &[u8]) -> Option<Text> {
    if bytes.is_empty() {
        return None;
    }
    Some(text(rt, bytes))
}

/// The kind that is asked for.
pub fn kind(rt: &impl Abort, ask: Ask) -> Kind {
    match ask {
        Ask::Cancel => Kind::Cancel,
        Ask::Cause => Kind::Cause,
        Ask::Deadline(seconds, bytes) => Kind::Deadline(moment(rt, seconds), cause(rt, bytes)),
        Ask::Value(key, value) => Kind::Value(name(rt, key), text(rt, value)),
        Ask::Detached => Kind::Detached,
        Ask::Group => Kind::Group,
    }
}

/// Derives a scope, which has the next number unless it is refused.
fn derive<A: Allocator>(
    rt: &impl Abort,
    runner: &mut Runner<A>,
    called: &[u8],
    parent: u16,
    ask: Ask,
) -> Result<(), Refusal> {
    let next = runner.len();
    let number = runner.derive(&name(rt, called), parent, &kind(rt, ask))?;
    holds_in(rt, number as usize == next, "derived", "scope", next);
    Ok(())
}

/// Takes a step, and says why it was refused, if it was. A scope that is derived has the next
/// number.
pub fn take<A: Allocator>(rt: &impl Abort, runner: &mut Runner<A>, step: Step) -> Option<Refusal> {
    let reported = match step {
        Step::Derive(called, parent, ask) => derive(rt, runner, called, parent, ask),
        Step::Cancel(s, bytes) => runner.cancel(s, cause(rt, bytes).as_ref()),
        Step::HitGroups(a, b, bytes) => runner.hit_groups(a, b, cause(rt, bytes).as_ref()),
        Step::Advance(seconds) => runner.advance(moment(rt, seconds)),
    };
    reported.err()
}

/// Takes each step, of which none is refused.
pub fn take_all<A: Allocator>(rt: &impl Abort, runner: &mut Runner<A>, steps: &[Step], what: &str) {
    for (n, step) in steps.iter().enumerate() {
        holds_in(rt, take(rt, runner, *step).is_none(), what, "step", n);
    }
}

/// Takes each step, of which each is refused so.
pub fn refuse_all<A: Allocator>(
    rt: &impl Abort,
    runner: &mut Runner<A>,
    steps: &[(Step, Refusal)],
    what: &str,
) {
    for (n, (step, refusal)) in steps.iter().enumerate() {
        let reported = take(rt, runner, *step);
        holds_in(rt, reported == Some(*refusal), what, "refused step", n);
    }
}

/// Says whether a scope answers so.
fn has_answer<A: Allocator>(runner: &Runner<A>, answer: Answer) -> bool {
    let (s, reason, cause, deadline) = match answer {
        Answer::Live(s, deadline) => (s, None, None, deadline),
        Answer::Canceled(s, cause, deadline) => {
            (s, Some(Reason::Canceled), Some(cause), deadline)
        }
        Answer::Exceeded(s, cause, deadline) => {
            (s, Some(Reason::DeadlineExceeded), Some(cause), deadline)
        }
        Answer::Value(s, key, value) => return has_value(runner, s, key, value),
    };
    let look = Look {
        reason,
        cause,
        deadline,
    };
    runner.look(s) == Some(look)
}

/// Says whether a key has this value at a scope; none where it has no bytes.
fn has_value<A: Allocator>(runner: &Runner<A>, s: u16, key: &[u8], value: &[u8]) -> bool {
    let value = if value.is_empty() { None } else { Some(value) };
    runner.value(s, key) == Some(value)
}

/// Asserts each answer.
pub fn assert_answers<A: Allocator>(
    rt: &impl Abort,
    runner: &Runner<A>,
    answers: &[Answer],
    what: &str,
) {
    for (n, answer) in answers.iter().enumerate() {
        holds_in(rt, has_answer(runner, *answer), what, "answer", n);
    }
}
