//! Who may open a store, and what an opening leaves of its name, in memory.

use file_calls::{FileLocks, Folder, Lock, MemoryFolder, MemoryLocks, MemoryNumber};
use std::alloc::Global;
use std::process::Abort;
use store_files::FileError;
use store_replacement::{is_marked, lock_named, lock_shared, settle_names};

/// The name of the store, the name of its mark, and another name.
const STORE: &str = "s";

const MARK: &str = "s.failed";

const OTHER: &str = "o";

/// The number of the store's file, and of its opening.
const FILE: u64 = 0;

/// The number of an opening of another program.
const ANOTHER: u64 = 9;

/// A folder with a store whose name isn't durable yet.
fn folder_of(rt: &impl Abort, alloc: Global) -> (MemoryFolder, MemoryNumber) {
    let mut folder = MemoryFolder::new(alloc);
    match folder.create_new(STORE) {
        Ok(file) => (folder, file),
        Err(_) => panic!(rt; "no memory for a store"),
    }
}

/// Returns whether this lock of another program is free.
fn is_free(locks: &mut MemoryLocks, is_alone: bool) -> bool {
    let lock = Lock {
        file: FILE,
        holder: ANOTHER,
        is_alone,
    };
    matches!(locks.ask(lock), Ok(true))
}

#[test]
fn an_opening_for_writing_holds_its_file_alone(rt: HostRuntime) {
    let (mut folder, file) = folder_of(&rt, rt.alloc());
    let mut locks = MemoryLocks::new(rt.alloc());
    let is_locked = lock_named(&mut folder, &mut locks, &file, STORE).is_ok();
    assert!(rt; is_locked, "the lock is free");
    let is_taken = [is_free(&mut locks, false), is_free(&mut locks, true)];
    assert!(rt; !is_taken[0] && !is_taken[1], "nobody else gets one");
    locks.close(file);
    assert!(rt; is_free(&mut locks, true), "it is given back");
}

#[test]
fn a_file_that_another_program_holds_is_in_use(rt: HostRuntime) {
    for is_alone in [false, true] {
        let (mut folder, file) = folder_of(&rt, rt.alloc());
        let mut locks = MemoryLocks::new(rt.alloc());
        assert!(rt; is_free(&mut locks, is_alone), "the lock of the other");
        let opened = lock_named(&mut folder, &mut locks, &file, STORE);
        assert!(rt;
            matches!(opened, Err(FileError::InUse)),
            "to write, {is_alone}"
        );
        let shown = lock_shared(&mut locks, &file);
        assert!(rt; shown.is_err() == is_alone, "to read, {is_alone}");
    }
}

#[test]
fn a_file_that_lost_its_name_is_in_use(rt: HostRuntime) {
    let (mut folder, file) = folder_of(&rt, rt.alloc());
    let is_moved = folder.rename(STORE, OTHER).is_ok() && folder.create_new(STORE).is_ok();
    assert!(rt; is_moved, "another file has the name");
    let mut locks = MemoryLocks::new(rt.alloc());
    let opened = lock_named(&mut folder, &mut locks, &file, STORE);
    assert!(rt; matches!(opened, Err(FileError::InUse)), "it lost its name");
}

#[test]
fn names_are_durable_or_the_mark_is_left(rt: HostRuntime) {
    for is_failing in [false, true] {
        let (mut folder, _file) = folder_of(&rt, rt.alloc());
        assert!(rt; folder.names().may_lead(STORE, None), "it may be lost");
        if is_failing {
            folder.fail_after(0);
        }
        let done = settle_names(&mut folder, STORE, MARK);
        assert!(rt; done.is_err() == is_failing, "the sync, {is_failing}");
        assert!(rt;
            folder.names().may_lead(STORE, None) == is_failing,
            "a crash takes the name, {is_failing}"
        );
        let is_left = matches!(folder.look_up(MARK), Ok(found) if found.is_file);
        assert!(rt; is_left == is_failing, "the mark, {is_failing}");
    }
}

#[test]
fn a_mark_that_cannot_be_looked_for_is_no_answer(rt: HostRuntime) {
    let (mut folder, _file) = folder_of(&rt, rt.alloc());
    let is_left = is_marked(&mut folder, MARK);
    assert!(rt; is_left.is_err(), "no answer");
    let is_made = folder.create_new(MARK).is_ok();
    let is_left = is_marked(&mut folder, MARK);
    assert!(rt; is_made && matches!(is_left, Ok(true)), "the mark");
}
