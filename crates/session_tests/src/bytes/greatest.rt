//! The greatest images, and images with as many rows of a kind as there can be, and one more.

use crate::asserts::holds;
use crate::bytes::images::{Counts, Head, image, is_kept, is_refused, push_all, read_again};
use row_view::ImageVersion;
use run_model::Layout;
use std::alloc::Global;
use std::process::Abort;
use test_fixtures::digits;

/// No link.
const LINK: &[u8] = b"\xff\xff";

/// As many bytes as a text can have, and as the rest of a name.
const TEXT: &[u8] = &[b'x'; 64];

const REST: &[u8] = &[b'x'; 28];

/// Appends the row of a scope, of 192 bytes: its name of 32 begins with its number, and event 1
/// found its deadline of 0 exceeded, with two causes of 64 bytes.
pub fn push_greatest_scope(rt: &impl Abort, image: &mut Vec<u8>, n: u16) {
    push_all(rt, image, &[b"\x20", &digits(n), REST]);
    push_all(rt, image, EXCEEDED);
}

/// What stands after the name in the row of the greatest scope.
const EXCEEDED: &[&[u8]] = &[
    b"\x00\x00\x03\x00\x00\x00\x00\x00\x00\x00\x00\x40",
    TEXT,
    b"\x01\x00\x00\x00\x00\x00\x00\x00\x01",
    b"\x00\x00\x00\x00\x00\x00\x00\x00\x02\x40",
    TEXT,
];

/// Appends the row of a group, of 103 bytes: its name of 32 begins with its number, and it is bare,
/// in root, without a limit, with an error.
fn push_greatest_group(rt: &impl Abort, image: &mut Vec<u8>, n: u16) {
    let fields = b"\x00\x00\x01\xff\x00\x40";
    push_all(rt, image, &[b"\x20", &digits(n), REST, fields, TEXT]);
}

/// A job, an argument and an error, each as long as it can be, of a task that failed.
const FAILURE: &[&[u8]] = &[
    b"\x20xxxxxxxxxxxxxxxxxxxxxxxxxxxxxxxx",
    b"\x20xxxxxxxxxxxxxxxxxxxxxxxxxxxxxxxx",
    b"\x03\x40",
    TEXT,
];

/// Appends the row of a task of group `n % 128`, of 134 bytes and its link: it failed.
pub fn push_greatest_task(rt: &impl Abort, image: &mut Vec<u8>, n: u16, link: &[u8]) {
    push_all(rt, image, &[&[0, (n % 128) as u8]]);
    push_all(rt, image, FAILURE);
    push_all(rt, image, &[link]);
}

/// The image of so many of the greatest scopes and tasks and of 128 groups, at the greatest clock
/// and count.
fn greatest(
    rt: &impl Abort,
    alloc: Global,
    version: u8,
    scopes: u16,
    tasks: u16,
    link: &[u8],
) -> Vec<u8> {
    let head = Head {
        version,
        clock: 253_000_000_000,
        count: 0x7fff_ffff_ffff_ffff,
        rows: (scopes, 128, tasks),
    };
    let mut bytes = image(rt, alloc, head, &[]);
    for n in 0..scopes {
        push_greatest_scope(rt, &mut bytes, n);
    }
    for n in 0..128 {
        push_greatest_group(rt, &mut bytes, n);
    }
    for n in 0..tasks {
        push_greatest_task(rt, &mut bytes, n, link);
    }
    bytes
}

/// A layout and a version, how many scopes and tasks, and the length of their greatest image.
type Greatest = (Layout, ImageVersion, (u16, u16), usize);

/// Asserts that the greatest image of a version is read, and written again in version 2.
fn assert_greatest(rt: &impl Abort, alloc: Global, kind: Greatest) {
    let (layout, version, (scopes, tasks), len) = kind;
    let (number, link) = match version {
        ImageVersion::One => (1, b"".as_slice()),
        ImageVersion::Two => (2, LINK),
    };
    let image = greatest(rt, alloc, number, scopes, tasks, link);
    holds(rt, image.len() == len, "bytes", len);
    let again = greatest(rt, alloc, 2, scopes, tasks, LINK);
    let read = read_again(rt, alloc, layout, &image, &again);
    holds(rt, read == Ok((version, true)), "again of bytes", len);
}

static GREATEST: [Greatest; 4] = [
    (Layout::Small, ImageVersion::One, (1_023, 2_048), 484_055),
    (Layout::Small, ImageVersion::Two, (1_023, 2_048), 488_151),
    (Layout::Large, ImageVersion::One, (1_023, 2_048), 484_055),
    (Layout::Large, ImageVersion::Two, (4_095, 8_192), 1_913_559),
];

#[test]
fn greatest_images(rt: HostRuntime) {
    for kind in GREATEST.iter() {
        assert_greatest(&rt, rt.alloc(), *kind);
    }
    // A small store refuses the greatest image of a large one.
    let large = greatest(&rt, rt.alloc(), 2, 4_095, 8_192, LINK);
    holds(
        &rt,
        is_refused(rt.alloc(), Layout::Small, &large),
        "large",
        0,
    );
}

/// Appends a row whose name is its number.
fn push_least(rt: &impl Abort, image: &mut Vec<u8>, n: u16, fields: &[u8]) {
    push_all(rt, image, &[b"\x04", &digits(n), fields]);
}

/// The image of so many of the least rows: cancel scopes, bare groups, and tasks of group 0.
fn least(rt: &impl Abort, alloc: Global, rows: Counts) -> Vec<u8> {
    let head = Head {
        version: 2,
        clock: 0,
        count: 1,
        rows,
    };
    let mut bytes = image(rt, alloc, head, &[]);
    for n in 0..rows.0 {
        push_least(rt, &mut bytes, n, b"\x00\x00\x01\x00");
    }
    for n in 0..rows.1 {
        push_least(rt, &mut bytes, n, b"\x00\x00\x01\xff\x00\x00");
    }
    for _ in 0..rows.2 {
        push_all(rt, &mut bytes, &[b"\x00\x00\x01j\x01a\x00\xff\xff"]);
    }
    bytes
}

/// A layout, as many rows as there can be, and one more.
static FULL: [(Layout, Counts, Counts); 7] = [
    (Layout::Small, (1_023, 0, 0), (1_024, 0, 0)),
    (Layout::Small, (0, 128, 0), (0, 129, 0)),
    (Layout::Small, (0, 1, 2_048), (0, 1, 2_049)),
    (Layout::Large, (4_095, 0, 0), (4_096, 0, 0)),
    (Layout::Large, (0, 128, 0), (0, 129, 0)),
    (Layout::Large, (0, 1, 8_192), (0, 1, 8_193)),
    (Layout::Small, (1_023, 128, 2_048), (1_024, 128, 2_048)),
];

#[test]
fn a_row_too_many(rt: HostRuntime) {
    for (n, (layout, full, more)) in FULL.iter().enumerate() {
        let full = least(&rt, rt.alloc(), *full);
        let more = least(&rt, rt.alloc(), *more);
        holds(
            &rt,
            is_kept(&rt, rt.alloc(), *layout, &full),
            "full, row",
            n,
        );
        holds(
            &rt,
            is_refused(rt.alloc(), *layout, &more),
            "one more, row",
            n,
        );
    }
}
