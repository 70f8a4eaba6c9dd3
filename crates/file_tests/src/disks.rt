//! A disk over a file in memory, one of whose calls fails.

use file_calls::MemoryFile;
use file_disk::FileDisk;
use run_disk::RunDisk;
use std::alloc::Global;
use std::process::Abort;

/// A disk over a file of four bytes, of which these calls succeed and the next one fails; `None` if
/// it couldn't be made. A disk takes two calls to be made.
fn disk_of(rt: &impl Abort, alloc: Global, calls: u64) -> Option<FileDisk<MemoryFile>> {
    let Ok(bytes) = Vec::from_slice(alloc, b"abcd") else {
        panic!(rt; "no memory for a file");
    };
    let mut file = MemoryFile::new(alloc, bytes);
    file.fail_after(calls);
    FileDisk::settled(file).ok()
}

/// How many of five calls of a disk succeed: a write, a sync, a read of what was written, another
/// write, and another sync.
fn successes(rt: &impl Abort, disk: &mut FileDisk<MemoryFile>) -> usize {
    assert_eq!(rt; disk.size(), 4, "the size");
    let mut read = [0; 2];
    let is_fine = [
        disk.write_at(1, b"XY").is_ok(),
        disk.sync().is_ok(),
        disk.read_at(1, &mut read).is_ok(),
        disk.write_at(0, b"A").is_ok(),
        disk.sync().is_ok(),
    ];
    assert!(rt; !is_fine[2] || read == *b"XY", "what was written is read");
    is_fine.iter().filter(|is_fine| **is_fine).count()
}

#[test]
fn a_disk_makes_no_call_after_one_that_failed(rt: HostRuntime) {
    for calls in 0..2 {
        assert!(rt;
            disk_of(&rt, rt.alloc(), calls).is_none(),
            "no disk after {calls}"
        );
    }
    for calls in 2..8 {
        let Some(mut disk) = disk_of(&rt, rt.alloc(), calls) else {
            panic!(rt; "no disk after {calls}");
        };
        let count = successes(&rt, &mut disk);
        assert_eq!(rt; count as u64, calls - 2, "after {calls}");
        assert_eq!(rt;
            disk.error().is_some(),
            calls < 7,
            "the first error after {calls}"
        );
    }
}

#[test]
fn a_crash_leaves_what_was_synced(rt: HostRuntime) {
    let Some(mut disk) = disk_of(&rt, rt.alloc(), 5) else {
        panic!(rt; "no disk");
    };
    let count = successes(&rt, &mut disk);
    assert_eq!(rt; count, 3, "a write, a sync and a read");
    let file = disk.into_inner();
    assert!(rt;
        file.may_leave(b"aXYd") && file.may_leave(b"AXYd"),
        "what was synced"
    );
    assert!(rt;
        !file.may_leave(b"abcd") && !file.may_leave(b"aXYdZ"),
        "nothing else"
    );
}
