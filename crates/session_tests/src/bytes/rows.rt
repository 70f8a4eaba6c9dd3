//! Rows and heads of images from outside: the worked image of the format, rows of each kind, and
//! bytes that are none.

use crate::asserts::{holds, same};
use record_view::{put_head, read_head};
use row_view::{
    GroupRow, HitView, ImageHead, ImageVersion, KindView, ScopeRow, StageView, TaskRow, put_group,
    put_scope, put_task, read_group, read_scope, read_task,
};
use run_model::{Layout, Reason};

/// The head of the worked image, in version 2: clock 0, four events, two scopes.
const HEAD: &[u8; 23] = b"\x02\x00\x00\x00\x00\x00\x00\x00\x00\x00\x00\x00\x00\x00\x00\x00\x04\
    \x00\x02\x00\x00\x00\x00";

const WORKED: ImageHead = ImageHead {
    version: ImageVersion::Two,
    clock: 0,
    count: 4,
    scopes: 2,
    groups: 0,
    tasks: 0,
};

/// Says whether these bytes were put at the front of bytes of 0xEE, of which some are left, and end
/// there.
pub fn is_put(out: &[u8], end: usize, bytes: &[u8]) -> bool {
    for (n, byte) in out.iter().enumerate() {
        if end <= n && *byte != 0xee {
            return false;
        }
    }
    end < out.len() && end == bytes.len() && out.starts_with(bytes)
}

#[test]
fn heads(rt: HostRuntime) {
    let read = read_head(HEAD, Layout::Small);
    same(&rt, &read, &Some((WORKED, b"".as_slice())), "the head", 0);
    let mut out = [0xee; 24];
    let end = put_head(&mut out, 0, &WORKED);
    holds(&rt, is_put(&out, end, HEAD), "head up to", end);
}

/// A place in the head, the byte there, and whether a small and a large store can have it.
static RANGES: [(&str, usize, u8, bool, bool); 13] = [
    ("version 0", 0, 0, false, false),
    ("version 1", 0, 1, true, true),
    ("version 3", 0, 3, false, false),
    ("a clock of 2^40 seconds", 3, 1, false, false),
    ("2^63 events", 9, 128, false, false),
    ("2^62 events", 9, 64, true, true),
    ("1,026 scopes", 17, 4, false, true),
    ("4,098 scopes", 17, 16, false, false),
    ("128 groups", 20, 128, true, true),
    ("129 groups", 20, 129, false, false),
    ("2,048 tasks", 21, 8, true, true),
    ("2,304 tasks", 21, 9, false, true),
    ("8,448 tasks", 21, 33, false, false),
];

/// The head with a byte at a place.
fn head_with(place: usize, byte: u8) -> [u8; 23] {
    let mut bytes = *HEAD;
    if let Some(at) = bytes.get_mut(place) {
        *at = byte;
    }
    bytes
}

/// Says whether bytes are the head of a small store and of a large one.
fn are_heads(bytes: &[u8]) -> (bool, bool) {
    let small = read_head(bytes, Layout::Small);
    (small.is_some(), read_head(bytes, Layout::Large).is_some())
}

#[test]
fn head_fields_have_ranges(rt: HostRuntime) {
    for (row, (what, place, byte, small, large)) in RANGES.iter().enumerate() {
        let bytes = head_with(*place, *byte);
        holds(&rt, are_heads(&bytes) == (*small, *large), what, row);
    }
    let short = are_heads(&HEAD[..22]);
    holds(&rt, short == (false, false), "a byte too few", 0);
}

const SCOPE: ScopeRow = ScopeRow {
    name: b"a",
    parent: 0,
    kind: KindView::Cause,
    hit: Some(HitView {
        event: 4,
        moment: 0,
        reason: Reason::Canceled,
        cause: b"disk",
    }),
};

const GROUP_SCOPE: ScopeRow = ScopeRow {
    name: b"g",
    parent: 0,
    kind: KindView::Group,
    hit: None,
};

/// The row of a scope that is hit, and of a group's scope with a byte after it.
static SCOPES: [(&[u8], ScopeRow, &[u8]); 2] = [
    (
        b"\x01a\x00\x00\x02\x01\x00\x00\x00\x00\x00\x00\x00\x04\x00\x00\x00\x00\x00\x00\x00\
        \x00\x01\x04disk",
        SCOPE,
        b"",
    ),
    (b"\x01g\x00\x00\x06\x00!", GROUP_SCOPE, b"!"),
];

#[test]
fn scopes(rt: HostRuntime) {
    for (row, (bytes, scope, rest)) in SCOPES.iter().enumerate() {
        same(
            &rt,
            &read_scope(bytes),
            &Some((*scope, *rest)),
            "scope",
            row,
        );
    }
    let mut out = [0xee; 30];
    let end = put_scope(&mut out, 0, &SCOPE);
    holds(&rt, is_put(&out, end, SCOPES[0].0), "scope up to", end);
    same(&rt, &end, &28, "the end", 1);
}

const GROUP: GroupRow = GroupRow {
    name: b"g",
    scope: 1,
    bare: true,
    limit: Some(64),
    waited: false,
    error: Some(b"interrupted"),
};

/// The row of the group.
const GROUP_BYTES: &[u8; 19] = b"\x01g\x00\x01\x01\x40\x00\x0binterrupted";

#[test]
fn groups(rt: HostRuntime) {
    let read = read_group(GROUP_BYTES);
    same(&rt, &read, &Some((GROUP, b"".as_slice())), "group", 0);
    let mut out = [0xee; 24];
    let end = put_group(&mut out, 0, &GROUP);
    holds(&rt, is_put(&out, end, GROUP_BYTES), "group up to", end);
}

static NO_GROUPS: [(&str, &[u8]); 8] = [
    ("bare 2", b"\x01g\x00\x01\x02\xff\x00\x00"),
    ("limit 65", b"\x01g\x00\x01\x00\x41\x00\x00"),
    ("limit 254", b"\x01g\x00\x01\x00\xfe\x00\x00"),
    ("waited 2", b"\x01g\x00\x01\x00\xff\x02\x00"),
    (
        "an error of 65 bytes' length",
        b"\x01g\x00\x01\x00\xff\x00\x41",
    ),
    (
        "an error of a byte that no text has",
        b"\x01g\x00\x01\x00\xff\x00\x01\x7f",
    ),
    ("a byte too few", b"\x01g\x00\x01\x00\xff\x00"),
    ("no name", b"\x00\x00\x01\x00\xff\x00\x00"),
];

#[test]
fn bytes_that_are_no_group(rt: HostRuntime) {
    for (row, (what, bytes)) in NO_GROUPS.iter().enumerate() {
        same(&rt, &read_group(bytes), &None, what, row);
    }
}

const TASK: TaskRow = TaskRow {
    group: 0,
    job: b"copy",
    argument: b"a",
    stage: StageView::Interrupted,
    retry_of: Some(2),
};

/// The row of the task.
const TASK_BYTES: &[u8; 12] = b"\x00\x00\x04copy\x01a\x04\x00\x02";

const FIRST: TaskRow = TaskRow {
    group: 0,
    job: b"copy",
    argument: b"a",
    stage: StageView::Interrupted,
    retry_of: None,
};

/// Rows of a version, the task, and what comes after it.
static TASKS: [(&[u8], ImageVersion, TaskRow, &[u8]); 3] = [
    (TASK_BYTES, ImageVersion::Two, TASK, b""),
    (
        b"\x00\x00\x04copy\x01a\x04\xff\xff",
        ImageVersion::Two,
        FIRST,
        b"",
    ),
    (
        b"\x00\x00\x04copy\x01a\x04\xff\xff",
        ImageVersion::One,
        FIRST,
        b"\xff\xff",
    ),
];

#[test]
fn tasks(rt: HostRuntime) {
    for (row, (bytes, version, task, rest)) in TASKS.iter().enumerate() {
        same(
            &rt,
            &read_task(bytes, *version),
            &Some((*task, *rest)),
            "task",
            row,
        );
    }
    let mut out = [0xee; 16];
    let end = put_task(&mut out, 0, &TASK);
    holds(&rt, is_put(&out, end, TASK_BYTES), "task up to", end);
}

static STAGES: [(&str, &[u8], Option<StageView>); 10] = [
    (
        "not started",
        b"\x00\x00\x04copy\x01a\x00\xff\xff",
        Some(StageView::Fresh),
    ),
    (
        "running",
        b"\x00\x00\x04copy\x01a\x01\xff\xff",
        Some(StageView::Running),
    ),
    (
        "success",
        b"\x00\x00\x04copy\x01a\x02\xff\xff",
        Some(StageView::Success),
    ),
    (
        "failure",
        b"\x00\x00\x04copy\x01a\x03\x01x\xff\xff",
        Some(StageView::Failure(b"x")),
    ),
    (
        "interrupted",
        b"\x00\x00\x04copy\x01a\x04\xff\xff",
        Some(StageView::Interrupted),
    ),
    ("stage 5", b"\x00\x00\x04copy\x01a\x05\xff\xff", None),
    (
        "a failure without a text",
        b"\x00\x00\x04copy\x01a\x03\x00\xff\xff",
        None,
    ),
    ("no link", b"\x00\x00\x04copy\x01a\x00", None),
    ("half a link", b"\x00\x00\x04copy\x01a\x00\xff", None),
    ("no job", b"\x00\x00\x00\x01a\x00\xff\xff", None),
];

#[test]
fn task_stages(rt: HostRuntime) {
    for (row, (what, bytes, stage)) in STAGES.iter().enumerate() {
        let read = read_task(bytes, ImageVersion::Two).map(|x| x.0.stage);
        same(&rt, &read, stage, what, row);
    }
}
