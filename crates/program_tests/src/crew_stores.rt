//! Books with one group of tasks, and how the tasks of a state have ended.

use crate::asserts::{done, holds_at};
use run_book::{Book, State};
use run_disk::{MemoryDisk, RunDisk};
use run_model::Name;
use std::alloc::Global;
use std::process::Abort;
use test_fixtures::{Ask, Call, Going, command_of, going_of};

/// The job of a task and its argument.
pub type Task = (&'static [u8], &'static [u8]);

pub fn name(rt: &impl Abort, bytes: &[u8]) -> Name {
    Name::read(bytes).expect(rt, "a name")
}

/// A book over a disk that holds a store.
pub fn opened<D: RunDisk + Drop>(rt: &impl Abort, alloc: Global, disk: D) -> Book<D> {
    match Book::open(alloc, disk) {
        Ok(book) => book,
        Err(_) => panic!(rt; "no book"),
    }
}

/// A book over a small store that is new.
fn fresh(rt: &impl Abort, alloc: Global) -> Book<MemoryDisk> {
    let disk = done(rt, MemoryDisk::new(alloc, 1_572_864), "memory");
    match Book::format(disk) {
        Ok(disk) => opened(rt, alloc, disk),
        Err(_) => panic!(rt; "no format"),
    }
}

/// Obeys a call, which is a command.
fn obey(rt: &impl Abort, book: &mut Book<MemoryDisk>, call: Call) {
    let is_done = match command_of(call) {
        Some(command) => book.command(&command).is_ok(),
        None => false,
    };
    assert!(rt; is_done);
}

/// Obeys the calls of a table.
fn obey_all(rt: &impl Abort, book: &mut Book<MemoryDisk>, calls: &[Call]) {
    for call in calls.iter() {
        obey(rt, book, *call);
    }
}

fn flush(rt: &impl Abort, book: &mut Book<MemoryDisk>) {
    let done = book.flush().is_ok();
    assert!(rt; done);
}

/// Makes group `g` under root, of this limit, and its tasks, and flushes them.
fn fill(rt: &impl Abort, book: &mut Book<MemoryDisk>, most: Option<u8>, tasks: &[Task]) {
    obey(rt, book, Call::Group(b"g", b"root"));
    if most.is_some() {
        obey(rt, book, Call::Limit(b"g", most));
    }
    for task in tasks.iter() {
        obey(rt, book, Call::Go(b"g", task.0, task.1));
    }
    flush(rt, book);
}

/// A small store with group `g` under root, of this limit, and its tasks: events 1, the group, the
/// limit where there is one, and a go for each task.
pub fn stored(rt: &impl Abort, alloc: Global, most: Option<u8>, tasks: &[Task]) -> MemoryDisk {
    let mut book = fresh(rt, alloc);
    fill(rt, &mut book, most, tasks);
    book.into_disk()
}

/// A book over such a store, whose group has no limit.
pub fn book_of(rt: &impl Abort, alloc: Global, tasks: &[Task]) -> Book<MemoryDisk> {
    opened(rt, alloc, stored(rt, alloc, None, tasks))
}

/// Task 0 in root, and task 1 in a group below a scope that is canceled.
static CANCELLED: [Call; 6] = [
    Call::Bare(b"b", b"root"),
    Call::Derive(b"s", b"root", Ask::Cancel),
    Call::Group(b"g", b"s"),
    Call::Go(b"b", b"a", b"x"),
    Call::Go(b"g", b"a", b"x"),
    Call::Cancel(b"s", b""),
];

/// A small store with task 0 in root, and task 1 in a group below a scope that was canceled.
pub fn with_a_cancelled_group(rt: &impl Abort, alloc: Global) -> MemoryDisk {
    let mut book = fresh(rt, alloc);
    obey_all(rt, &mut book, &CANCELLED);
    flush(rt, &mut book);
    book.into_disk()
}

/// Says whether a task of a state is so far.
fn is_at(state: &State, task: u16, going: Going<'static>) -> bool {
    match state.phase(task) {
        Some(phase) => going_of(&phase) == going,
        None => false,
    }
}

/// Asserts how far the tasks of a state are, by ascending number, and that there are no more.
pub fn assert_tasks(rt: &impl Abort, state: &State, rows: &[Going<'static>]) {
    let count = state.task_count();
    holds_at(rt, count == rows.len(), "tasks", count as u64);
    for (n, row) in rows.iter().enumerate() {
        let is_so = is_at(state, n.min(65_535) as u16, *row);
        holds_at(rt, is_so, "task", n as u64);
    }
}
