//! Calls of a session, and the first of a table that is answered otherwise.

use run_model::{Refusal, Reply, Step};
use run_session::Session;
use std::alloc::Allocator;
use std::process::Abort;
use test_fixtures::{Call, Replied, answered, finished, replied_by, started, step_of};

/// Makes a call, which is one of a session's.
pub fn reply<A: Allocator>(rt: &impl Abort, session: &mut Session<A>, call: Call) -> Reply {
    match step_of(call) {
        Some(Step::Command(command)) => answered(session.command(&command)),
        Some(Step::Finish(task, outcome)) => finished(session.finish(task, &outcome)),
        Some(Step::Start) => started(session.start()),
        _ => panic!(rt; "no call of a session"),
    }
}

/// The first call of a table that is answered otherwise. None after it is made.
pub fn first_unlike<A: Allocator>(
    rt: &impl Abort,
    session: &mut Session<A>,
    rows: &[(Call, Replied<'static>)],
) -> Option<usize> {
    for (n, row) in rows.iter().enumerate() {
        if replied_by(&reply(rt, session, row.0)) != row.1 {
            return Some(n);
        }
    }
    None
}

/// The first call of a table that isn't refused so, or that changes something.
pub fn first_unrefused<A: Allocator>(
    rt: &impl Abort,
    session: &mut Session<A>,
    rows: &[(Call, Refusal)],
) -> Option<usize> {
    let before = (session.count(), session.log_len());
    for (n, row) in rows.iter().enumerate() {
        let refused = replied_by(&reply(rt, session, row.0)) == Replied::Refused(row.1);
        if !refused || (session.count(), session.log_len()) != before {
            return Some(n);
        }
    }
    None
}
