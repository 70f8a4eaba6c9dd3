//! What a crash may leave of a file: rows of calls, and after them rows of contents.

use file_calls::{MemoryFile, OpenFile};
use std::alloc::Global;
use std::process::Abort;

/// A call of a file, and whether it succeeds.
#[derive(Clone, Copy, Debug)]
enum Call {
    Write(u64, &'static [u8]),
    /// The next call fails, and it is this write.
    FailedWrite(u64, &'static [u8]),
    Empty,
    Sync,
    /// The next call fails, and it is a sync.
    FailedSync,
}

/// Calls on a file that holds `abcd`, what reads return after them, and what a crash may leave and
/// what not.
#[derive(Clone, Copy)]
struct Row {
    calls: &'static [Call],
    now: &'static [u8],
    may: &'static [&'static [u8]],
    never: &'static [&'static [u8]],
}

fn rows() -> [Row; 13] {
    [
        Row {
            calls: &[],
            now: b"abcd",
            may: &[b"abcd"],
            never: &[b"abc", b"abcde", b"Xbcd", b""],
        },
        Row {
            calls: &[Call::Write(1, b"XY")],
            now: b"aXYd",
            may: &[b"abcd", b"aXYd", b"aXcd", b"abYd", b"a??d"],
            never: &[b"XXYd", b"aXYZ", b"aXY", b"aXYdd", b"a"],
        },
        Row {
            calls: &[Call::Write(1, b"XY"), Call::Sync],
            now: b"aXYd",
            may: &[b"aXYd"],
            never: &[b"abcd", b"aXcd"],
        },
        Row {
            calls: &[Call::Write(3, b"DE")],
            now: b"abcDE",
            may: &[b"abcd", b"abcDE", b"abc", b"abcD"],
            never: &[b"ab", b"abcDEF"],
        },
        Row {
            calls: &[Call::Write(2, b"XY")],
            now: b"abXY",
            may: &[b"abcd", b"abXY", b"abX?"],
            never: &[b"ab", b"abX", b"abXYZ"],
        },
        Row {
            calls: &[Call::Write(3, b"DE"), Call::Sync],
            now: b"abcDE",
            may: &[b"abcDE"],
            never: &[b"abcd", b"abcD", b"abc"],
        },
        Row {
            calls: &[Call::Write(3, b"DE"), Call::FailedSync, Call::Sync],
            now: b"abcDE",
            may: &[b"abcd", b"abcDE", b"abc"],
            never: &[b"ab", b"abcDEF"],
        },
        Row {
            calls: &[Call::FailedWrite(3, b"DE")],
            now: b"abcd",
            may: &[b"abcd", b"abcDE", b"abc"],
            never: &[b"ab", b"abcDEF"],
        },
        Row {
            calls: &[Call::Write(1, b"XY"), Call::FailedSync],
            now: b"aXYd",
            may: &[b"abcd", b"aXYd"],
            never: &[b"XXYd"],
        },
        Row {
            calls: &[Call::Write(1, b"XY"), Call::FailedSync, Call::Sync],
            now: b"aXYd",
            may: &[b"abcd", b"aXYd", b"aXcd"],
            never: &[b"XXYd"],
        },
        Row {
            calls: &[
                Call::Write(1, b"XY"),
                Call::FailedSync,
                Call::Write(1, b"XY"),
                Call::Sync,
            ],
            now: b"aXYd",
            may: &[b"aXYd"],
            never: &[b"abcd", b"aXcd"],
        },
        Row {
            calls: &[Call::FailedWrite(1, b"XY"), Call::Write(0, b"A")],
            now: b"Abcd",
            may: &[b"abcd", b"AXYd", b"Abcd"],
            never: &[b"AbcX"],
        },
        Row {
            calls: &[Call::Empty],
            now: b"",
            may: &[b"abcd", b"", b"ab"],
            never: &[b"abcde"],
        },
    ]
}

/// Makes a call, and returns whether it ended as it says.
fn is_made(file: &mut MemoryFile, call: Call) -> bool {
    match call {
        Call::Write(at, bytes) => file.write_at(at, bytes).is_ok(),
        Call::FailedWrite(at, bytes) => {
            file.fail_after(0);
            file.write_at(at, bytes).is_err()
        }
        Call::Empty => file.empty().is_ok(),
        Call::Sync => file.sync().is_ok(),
        Call::FailedSync => {
            file.fail_after(0);
            file.sync().is_err()
        }
    }
}

/// A file that holds these bytes.
fn file_of(rt: &impl Abort, alloc: Global, bytes: &[u8]) -> MemoryFile {
    match Vec::from_slice(alloc, bytes) {
        Ok(bytes) => MemoryFile::new(alloc, bytes),
        Err(_) => panic!(rt; "no memory for a file"),
    }
}

/// Asserts that reads return these bytes, and no more.
fn assert_reads(rt: &impl Abort, file: &mut MemoryFile, bytes: &[u8], row: usize) {
    let is_size = matches!(file.size(), Ok(size) if size == bytes.len() as u64);
    assert!(rt; is_size, "the size, {row}");
    for i in 0..bytes.len() {
        let mut byte = [0];
        let is_read = file.read_at(i as u64, &mut byte).is_ok();
        assert!(rt; is_read && byte[0] == bytes[i], "byte {i}, {row}");
    }
    let is_behind = file.read_at(bytes.len() as u64, &mut [0]).is_ok();
    assert!(rt; !is_behind, "behind the end, {row}");
}

#[test]
fn a_crash_leaves_what_its_row_says(rt: HostRuntime) {
    let rows = rows();
    for i in 0..rows.len() {
        let row = &rows[i];
        let mut file = file_of(&rt, rt.alloc(), b"abcd");
        for call in row.calls {
            let is_made = is_made(&mut file, *call);
            assert!(rt; is_made, "{call:?}, {i}");
        }
        assert_reads(&rt, &mut file, row.now, i);
        for left in row.may {
            assert!(rt; file.may_leave(left), "may leave {left:?}, {i}");
        }
        for left in row.never {
            assert!(rt; !file.may_leave(left), "never leaves {left:?}, {i}");
        }
    }
}

#[test]
fn each_call_fails_once(rt: HostRuntime) {
    let mut file = file_of(&rt, rt.alloc(), b"abcd");
    file.fail_after(1);
    let ends = [
        file.size().is_ok(),
        file.size().is_ok(),
        file.size().is_ok(),
    ];
    assert!(rt; ends[0] && !ends[1] && ends[2], "the second call");
    file.fail_after(0);
    let is_read = file.read_at(0, &mut [0]).is_ok();
    assert!(rt; !is_read, "a read");
    file.fail_after(0);
    let is_empty = file.empty().is_ok();
    assert!(rt; !is_empty, "an emptying");
    let is_beyond = file.write_at(5, b"x").is_ok();
    assert!(rt; !is_beyond, "a write behind the end");
}
