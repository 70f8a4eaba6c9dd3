//! Many calls of one kind, which fill a session.

use crate::values::{name, numbered};
use run_model::{Command, Wish};
use run_session::Session;
use std::alloc::Allocator;
use std::process::Abort;
use test_fixtures::{Call, Replied, answered, command_of, replied_by};

/// Many calls of one kind.
#[derive(Clone, Copy)]
pub enum Fill {
    /// The same call so many times, each of which is done.
    Again(Call, u64),
    /// The clock by one second at a time, from 1 to the last: 11 bytes each.
    Advances(u64),
    /// Scopes in root, named `s0001` and so on by their numbers, from the first to the last.
    Scopes(u16, u16),
    /// Bare groups in root, named `b0001` and so on by their numbers, from the first to the last.
    Groups(u16, u16),
    /// So many tasks of group `g`, numbered from 0, each of which is ready.
    Tasks(u16),
}

/// The numbers of the calls: the first and the last.
fn numbers(fill: Fill) -> (u64, u64) {
    match fill {
        Fill::Again(_, last) | Fill::Advances(last) => (1, last),
        Fill::Scopes(first, last) | Fill::Groups(first, last) => (first as u64, last as u64),
        Fill::Tasks(count) => (0, count.saturating_sub(1) as u64),
    }
}

/// The call of a number.
fn command(rt: &impl Abort, fill: Fill, number: u16, second: u64) -> Command {
    let call = match fill {
        Fill::Again(call, _) => command_of(call),
        Fill::Advances(_) => command_of(Call::Advance(second)),
        Fill::Scopes(_, _) => Some(Command::Derive {
            name: numbered(rt, b's', number),
            parent: name(rt, b"root"),
            wish: Wish::Cause,
        }),
        Fill::Groups(_, _) => Some(Command::Bare {
            name: numbered(rt, b'b', number),
            scope: name(rt, b"root"),
        }),
        Fill::Tasks(_) => command_of(Call::Go(b"g", b"copy", b"a")),
    };
    call.expect(rt, "a command")
}

/// What the call of a number is answered.
fn replied(fill: Fill, number: u16) -> Replied<'static> {
    match fill {
        Fill::Again(_, _) | Fill::Advances(_) => Replied::Done,
        Fill::Scopes(_, _) => Replied::Scope(number),
        Fill::Groups(_, _) => Replied::Group(number, None),
        Fill::Tasks(_) => Replied::Ready(number),
    }
}

/// Makes the calls. Gives the first that is answered otherwise.
pub fn first_unfilled<A: Allocator>(
    rt: &impl Abort,
    session: &mut Session<A>,
    fill: Fill,
) -> Option<usize> {
    let (first, last) = numbers(fill);
    for n in first..=last {
        let number = n.min(65_535) as u16;
        let reply = answered(session.command(&command(rt, fill, number, n)));
        if replied_by(&reply) != replied(fill, number) {
            return Some(n as usize);
        }
    }
    None
}
