//! Disks in files: what was synced is there when the file is opened again, and what fails.

use crate::asserts::holds;
use crate::disks::{Call, play};
use run_disk::FileDisk;
use std::fs;
use std::fs::File;

/// A file: its path and its bytes, whether it is written, the calls of a disk over it, the length
/// that it is given after them, the calls then, and those once it is opened again.
type Story = (
    &'static str,
    &'static [u8],
    bool,
    &'static [Call],
    u64,
    &'static [Call],
    &'static [Call],
);

static FILES: [Story; 3] = [
    // At the front, in its midst and at its end.
    (
        "synced.disk",
        &[0; 4096],
        true,
        &[
            Call::Size(4096),
            Call::Write(0, &[1, 2], true),
            Call::Write(2047, &[3, 4, 5], true),
            Call::Write(4095, &[6], true),
            Call::Sync(true),
        ],
        4096,
        &[],
        &[
            Call::Size(4096),
            Call::Read(0, &[1, 2, 0]),
            Call::Read(2047, &[3, 4, 5]),
            Call::Read(4093, &[0, 0, 6]),
        ],
    ),
    // A read that the file is too short for.
    (
        "cut.disk",
        &[7; 64],
        true,
        &[Call::Size(64)],
        40,
        &[
            Call::Read(16, &[7; 16]),
            Call::NoRead(32, 16),
            Call::NoRead(48, 16),
        ],
        &[Call::Size(40)],
    ),
    // A write of what is read alone.
    (
        "read.disk",
        &[7; 8],
        false,
        &[
            Call::Size(8),
            Call::Write(2, &[1], false),
            Call::Read(0, &[7; 8]),
        ],
        8,
        &[],
        &[Call::Read(0, &[7; 8])],
    ),
];

/// The disk over the file of this path, which is read, and written too if so.
fn opened(rt: &HostRuntime, path: &str, writes: bool) -> Option<FileDisk> {
    let file = File::options()
        .read(true)
        .write(writes)
        .open(rt, path)
        .ok()?;
    FileDisk::new(file).ok()
}

/// Writes a file of these bytes.
fn write_file(rt: &HostRuntime, path: &str, bytes: &[u8]) -> Option<()> {
    fs::write(rt, path, bytes).ok()
}

/// Gives the file of this path a length.
fn cut(rt: &HostRuntime, path: &str, length: u64) -> Option<()> {
    let file = File::options().write(true).open(rt, path).ok()?;
    file.set_len(length).ok()
}

/// The length of the file of this path.
fn length_of(rt: &HostRuntime, path: &str) -> Option<u64> {
    Some(fs::metadata(rt, path).ok()?.len())
}

#[test]
fn a_file_keeps_what_was_synced_and_reports_what_fails(rt: HostRuntime) {
    for (row, (path, bytes, writes, first, length, then, again)) in FILES.iter().enumerate() {
        holds(
            &rt,
            write_file(&rt, path, bytes) == Some(()),
            "file",
            row as u64,
        );
        let mut disk = opened(&rt, path, *writes).expect(&rt, "a disk");
        play(&rt, &mut disk, path, first);
        holds(
            &rt,
            cut(&rt, path, *length) == Some(()),
            "cut of file",
            row as u64,
        );
        play(&rt, &mut disk, path, then);
        drop(disk);
        let mut disk = opened(&rt, path, false).expect(&rt, "a disk");
        play(&rt, &mut disk, path, again);
        holds(
            &rt,
            length_of(&rt, path) == Some(*length),
            "length of file",
            row as u64,
        );
    }
}
