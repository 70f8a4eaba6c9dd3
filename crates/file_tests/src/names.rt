//! Where a crash may leave a name leading: rows of calls, and after them rows of names.

use file_calls::{FolderNames, MemoryNames};
use std::process::Abort;

/// A call on names, and whether it succeeds.
#[derive(Clone, Copy, Debug)]
enum Call {
    /// A file is created, and gets this number.
    Create(&'static str, u64),
    NoCreate(&'static str),
    Rename(&'static str, &'static str),
    NoRename(&'static str, &'static str),
    Remove(&'static str),
    Sync,
    /// The next call fails, and it is a sync.
    FailedSync,
}

/// A name, the file to which it leads, and those to which a crash may leave it leading (of none,
/// and of files 0 and 1).
#[derive(Clone, Copy)]
struct Name {
    name: &'static str,
    now: Option<u64>,
    may: [bool; 3],
}

/// Calls on names, after which these lead so.
#[derive(Clone, Copy)]
struct Row {
    calls: &'static [Call],
    names: &'static [Name],
}

/// File 0 has the durable name `s`, and file 1 is `n`.
const BEFORE: [Call; 3] = [Call::Create("s", 0), Call::Sync, Call::Create("n", 1)];

const ROWS: [Row; 7] = [
    Row {
        calls: &[],
        names: &[
            Name {
                name: "s",
                now: Some(0),
                may: [false, true, false],
            },
            Name {
                name: "n",
                now: Some(1),
                may: [true, false, true],
            },
            Name {
                name: "other",
                now: None,
                may: [true, false, false],
            },
        ],
    },
    Row {
        calls: &[Call::Rename("n", "s")],
        names: &[
            Name {
                name: "s",
                now: Some(1),
                may: [false, true, true],
            },
            Name {
                name: "n",
                now: None,
                may: [true, false, true],
            },
        ],
    },
    Row {
        calls: &[Call::Rename("n", "s"), Call::Sync],
        names: &[
            Name {
                name: "s",
                now: Some(1),
                may: [false, false, true],
            },
            Name {
                name: "n",
                now: None,
                may: [true, false, false],
            },
        ],
    },
    Row {
        calls: &[Call::Rename("n", "s"), Call::FailedSync, Call::Sync],
        names: &[
            Name {
                name: "s",
                now: Some(1),
                may: [false, true, true],
            },
            Name {
                name: "n",
                now: None,
                may: [true, false, true],
            },
        ],
    },
    Row {
        calls: &[Call::Remove("s"), Call::Sync, Call::NoRename("s", "t")],
        names: &[
            Name {
                name: "s",
                now: None,
                may: [true, false, false],
            },
            Name {
                name: "t",
                now: None,
                may: [true, false, false],
            },
        ],
    },
    Row {
        calls: &[Call::Remove("s"), Call::Remove("n"), Call::Create("s", 2)],
        names: &[Name {
            name: "s",
            now: Some(2),
            may: [true, true, false],
        }],
    },
    Row {
        calls: &[Call::NoCreate("s"), Call::NoCreate("n")],
        names: &[Name {
            name: "s",
            now: Some(0),
            may: [false, true, false],
        }],
    },
];

/// Makes a call, and returns whether it ended as it says.
fn is_made(names: &mut MemoryNames, call: Call) -> bool {
    match call {
        Call::Create(name, file) => matches!(names.create_new(name), Ok(made) if made == file),
        Call::NoCreate(name) => names.create_new(name).is_err(),
        Call::Rename(from, to) => names.rename(from, to).is_ok(),
        Call::NoRename(from, to) => names.rename(from, to).is_err(),
        Call::Remove(name) => names.remove(name).is_ok(),
        Call::Sync => names.sync().is_ok(),
        Call::FailedSync => {
            names.fail_after(0);
            names.sync().is_err()
        }
    }
}

/// Makes the calls, each of which ends as it says.
fn make_all(rt: &impl Abort, names: &mut MemoryNames, calls: &[Call], row: usize) {
    for call in calls {
        let is_made = is_made(names, *call);
        assert!(rt; is_made, "{call:?}, {row}");
    }
}

#[test]
fn names_lead_as_their_row_says(rt: HostRuntime) {
    for i in 0..ROWS.len() {
        let row = &ROWS[i];
        let mut names = MemoryNames::new(rt.alloc());
        make_all(&rt, &mut names, &BEFORE, i);
        make_all(&rt, &mut names, row.calls, i);
        for name in row.names {
            let is_found = matches!(names.found(name.name), Ok(file) if file == name.now);
            assert!(rt; is_found, "{} now, {i}", name.name);
            let may = [
                names.may_lead(name.name, None),
                names.may_lead(name.name, Some(0)),
                names.may_lead(name.name, Some(1)),
            ];
            assert!(rt; may == name.may, "{} after a crash, {i}", name.name);
        }
    }
}
