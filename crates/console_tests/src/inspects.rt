//! What is seen of a store that a night left.

use crate::asserts::{done, holds};
use crate::books::formatted;
use crate::runs::{Night, night_on};
use run_book::Book;
use run_console::inspect;
use run_disk::MemoryDisk;
use run_model::Layout;
use std::alloc::Global;
use std::process::Abort;

/// What is typed after an opening, and what is seen then: a night that stops with a running and a
/// held task, and one that submits the interrupted task anew.
static SEEN: [Night; 2] = [
    (
        b"group g root\nlimit g 1\ngo g copy a\ngo g copy b\nstart\nflush\n",
        b"events 6; clock 0\n\
          scope 0 root live; deadline none\n\
          scope 1 g live; deadline none\n\
          group 0 g unfinished 2; limit 1; waited no; error none\n\
          task 0 g copy a running\n\
          task 1 g copy b held\n",
    ),
    (
        b"retry 0\n",
        b"events 8; clock 0\n\
          scope 0 root live; deadline none\n\
          scope 1 g done; deadline none; err context canceled; cause interrupted\n\
          group 0 g unfinished 2; limit 1; waited no; error interrupted\n\
          task 0 g copy a interrupted\n\
          task 1 g copy b ready\n\
          task 2 g copy a held retry of 0\n",
    ),
];

/// What is seen of what a disk stores.
fn seen(rt: &impl Abort, alloc: Global, disk: &mut MemoryDisk) -> Vec<u8> {
    let mut printed = Vec::new(alloc);
    let state = done(rt, Book::recover(alloc, disk), "store");
    done(rt, inspect(&state, &mut printed), "room");
    drop(state);
    printed
}

#[test]
fn a_stopped_night_is_inspected(rt: HostRuntime) {
    let mut disk = formatted(&rt, rt.alloc(), Layout::Small);
    for (n, night) in SEEN.iter().enumerate() {
        let (_, mut left) = night_on(&rt, rt.alloc(), disk, night.0);
        let printed = seen(&rt, rt.alloc(), &mut left);
        holds(&rt, printed.as_slice() == night.1, "night", n);
        disk = left;
    }
    drop(disk);
}
