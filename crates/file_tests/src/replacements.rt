//! A store in memory is replaced by its copy, and one call of it fails: what a crash leaves then.

use file_calls::{Folder, MemoryFolder, MemoryNumber};
use std::alloc::Global;
use std::process::Abort;
use store_replacement::replace_by_copy;

/// The name of the store, and the name of its copy.
const STORE: &str = "s";

const BESIDE: &str = "s.renewing";

/// What the store holds.
const BYTES: &[u8] = b"abcd";

/// Other contents that a crash could leave: nothing, half, more, and other bytes.
const OTHERS: [&[u8]; 4] = [b"", b"ab", b"abcdX", b"aXcd"];

/// How many calls a replacement makes: a new file, the size, a read, a write, a sync, two
/// identities, two looks, a renaming, the mark, a sync of the folder, a look at the mark, and its
/// removal.
const CALLS: u64 = 14;

/// How many calls come before the sync of the folder.
const SYNC: u64 = 11;

/// A folder with a store that is durable, as is its name.
fn folder_of(rt: &impl Abort, alloc: Global) -> (MemoryFolder, MemoryNumber) {
    let mut folder = MemoryFolder::new(alloc);
    let Ok(file) = folder.create_new(STORE) else {
        panic!(rt; "no memory for a store");
    };
    let is_written = folder.write_at(&file, 0, BYTES).is_ok()
        && folder.sync_file(&file).is_ok()
        && folder.sync_names(STORE).is_ok();
    assert!(rt; is_written, "a store");
    (folder, file)
}

/// Returns whether a crash may leave the name of the store leading to a file with these bytes.
fn may_hold(folder: &MemoryFolder, bytes: &[u8]) -> bool {
    let files = folder.files();
    for i in 0..files.len() {
        if folder.names().may_lead(STORE, Some(i as u64)) && files[i].may_leave(bytes) {
            return true;
        }
    }
    false
}

/// The number of the files to which a crash may leave the name of the store leading.
fn count(folder: &MemoryFolder) -> usize {
    let numbers = [0, 1, 2];
    numbers
        .iter()
        .filter(|number| folder.names().may_lead(STORE, Some(**number)))
        .count()
}

#[test]
fn a_crash_leaves_the_old_store_or_a_whole_copy(rt: HostRuntime) {
    for calls in 0..CALLS + 1 {
        let (mut folder, file) = folder_of(&rt, rt.alloc());
        folder.fail_after(calls);
        let alloc = rt.alloc();
        let ready = |_made: &MemoryNumber| Ok(());
        let done = replace_by_copy(&mut folder, alloc, &file, BESIDE, STORE, ready, ready);
        folder.fail_after(u64::MAX);
        assert!(rt;
            folder.look_up(BESIDE).is_err(),
            "the copy has no name after {calls}"
        );
        // (a mark that couldn't be left, looked at or removed is no failure)
        let is_marking = calls == SYNC - 1 || calls > SYNC;
        assert!(rt;
            done.is_ok() == (calls >= CALLS || is_marking),
            "{calls} calls succeed"
        );
        assert!(rt;
            !folder.names().may_lead(STORE, None),
            "the name after {calls}"
        );
        assert!(rt; may_hold(&folder, BYTES), "the store after {calls}");
        for other in OTHERS {
            assert!(rt; !may_hold(&folder, other), "something else after {calls}");
        }
        // (after a renaming whose sync failed, either)
        let left = count(&folder);
        assert!(rt;
            left == if calls == SYNC { 2 } else { 1 },
            "{left} after {calls}"
        );
    }
}
