//! A new file is made in memory, and one call of it fails: what is there then, and after a crash.

use file_calls::{Folder, MemoryFolder};
use std::alloc::Global;
use std::process::Abort;
use store_files::FileError;
use store_replacement::{NotMade, make_new};

/// The name of the new file, and a name that it isn't.
const NEW: &str = "n";

const OTHER: &str = "s";

/// What the new file holds.
const ZEROS: &[u8] = b"\0\0\0\0\0";

/// What the other file holds.
const BYTES: &[u8] = b"abcd";

/// How many calls make a file: its creation, a write, a sync, and a sync of its folder.
const CALLS: u64 = 4;

/// A folder with a durable file of the other name.
fn folder_of(rt: &impl Abort, alloc: Global) -> MemoryFolder {
    let mut folder = MemoryFolder::new(alloc);
    let Ok(file) = folder.create_new(OTHER) else {
        panic!(rt; "no memory for a file");
    };
    let is_written = folder.write_at(&file, 0, BYTES).is_ok()
        && folder.sync_file(&file).is_ok()
        && folder.sync_names(OTHER).is_ok();
    assert!(rt; is_written, "a file");
    folder
}

/// Returns whether a crash leaves this file under this name, with these bytes and no others.
fn is_durable(folder: &MemoryFolder, name: &str, file: usize, bytes: &[u8]) -> bool {
    let names = folder.names();
    let files = folder.files();
    !names.may_lead(name, None)
        && names.may_lead(name, Some(file as u64))
        && file < files.len()
        && files[file].may_leave(bytes)
        && !files[file].may_leave(b"X")
        && !files[file].may_leave(b"")
}

#[test]
fn a_new_file_is_whole_or_gone(rt: HostRuntime) {
    for calls in 0..CALLS + 1 {
        let mut folder = folder_of(&rt, rt.alloc());
        folder.fail_after(calls);
        let made = make_new(&mut folder, NEW, 5, |_file| Ok(()), |_file| Ok(()));
        folder.fail_after(u64::MAX);
        let is_left = match &made {
            Ok(_) => true,
            Err(not) => not.is_left,
        };
        assert!(rt; made.is_ok() == (calls >= CALLS), "{calls} calls succeed");
        assert!(rt;
            is_left == made.is_ok(),
            "it is removed again after {calls}"
        );
        assert!(rt;
            folder.look_up(NEW).is_ok() == made.is_ok(),
            "the name after {calls}"
        );
        assert!(rt;
            is_durable(&folder, NEW, 1, ZEROS) == made.is_ok(),
            "what a crash leaves after {calls}"
        );
        assert!(rt; is_durable(&folder, OTHER, 0, BYTES), "the other file");
    }
}

#[test]
fn a_file_that_is_there_stays(rt: HostRuntime) {
    let mut folder = folder_of(&rt, rt.alloc());
    let made = make_new(&mut folder, OTHER, 5, |_file| Ok(()), |_file| Ok(()));
    assert!(rt;
        matches!(made, Err(NotMade { is_left: false, .. })),
        "none is made"
    );
    assert!(rt; is_durable(&folder, OTHER, 0, BYTES), "the file");
    assert!(rt; folder.look_up(OTHER).is_ok(), "its name");
}

#[test]
fn a_file_that_another_program_has_locked_stays(rt: HostRuntime) {
    let mut folder = folder_of(&rt, rt.alloc());
    let busy = |_file: &_| Err(FileError::InUse);
    let made = make_new(&mut folder, NEW, 5, busy, |_file| Ok(()));
    assert!(rt;
        matches!(made, Err(NotMade { is_left: true, .. })),
        "it is left"
    );
    assert!(rt; folder.look_up(NEW).is_ok(), "its name");
    let denied = |_file: &_| Err(FileError::NotAFile);
    let made = make_new(&mut folder, "m", 5, |_file| Ok(()), denied);
    assert!(rt;
        matches!(made, Err(NotMade { is_left: false, .. })),
        "it is removed"
    );
    assert!(rt; folder.look_up("m").is_err(), "no name");
}
