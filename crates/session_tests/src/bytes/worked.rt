//! Images whose bytes are known from outside, stores that were damaged, and states that keep the
//! rules though no history gives them.

use crate::asserts::holds;
use crate::bytes::images::{Counts, Head, Pieces, image, is_read, is_refused, read, read_again};
use row_view::ImageVersion;
use run_model::Layout;
use run_session::State;
use std::alloc::Global;
use std::process::Abort;
use test_fixtures::{Seen, seen_of};

/// Scope a, which was canceled by event 4 with the cause `disk`, and its child b, in version 2.
const CANCELED: &[u8; 57] = b"\x02\x00\x00\x00\x00\x00\x00\x00\x00\x00\x00\x00\x00\x00\x00\x00\x04\
    \x00\x02\x00\x00\x00\x00\x01a\x00\x00\x02\x01\x00\x00\x00\x00\x00\x00\x00\x04\x00\x00\x00\x00\
    \x00\x00\x00\x00\x01\x04disk\x01b\x00\x01\x01\x00";

/// Says whether a scope is canceled with this cause.
fn is_canceled(state: &State, scope: u16, cause: &'static [u8]) -> bool {
    match state.look(scope) {
        Some(look) => seen_of(&look) == Seen::Canceled(cause),
        None => false,
    }
}

/// The state of an image, read in a small store.
fn read_state(rt: &impl Abort, alloc: Global, image: &[u8]) -> State {
    match read(alloc, Layout::Small, image) {
        Ok((state, _)) => state,
        Err(_) => panic!(rt; "no state"),
    }
}

/// How many events there were, and whether scopes a and b are canceled with a's cause.
fn seen(rt: &impl Abort, alloc: Global, image: &[u8]) -> (u64, bool, bool) {
    let state = read_state(rt, alloc, image);
    let (a, b) = (
        is_canceled(&state, 1, b"disk"),
        is_canceled(&state, 2, b"disk"),
    );
    let seen = (state.count(), a, b);
    drop(state);
    seen
}

/// The image of 57 bytes in the version of this byte.
fn image_of(byte: u8) -> [u8; 57] {
    let mut image = *CANCELED;
    image[0] = byte;
    image
}

/// Asserts that the image of 57 bytes is read in the version of this byte.
fn assert_image_of_57_bytes(rt: &impl Abort, alloc: Global, byte: u8, version: ImageVersion) {
    let image = image_of(byte);
    let read = read_again(rt, alloc, Layout::Small, &image, CANCELED);
    holds(rt, read == Ok((version, true)), "version", byte as usize);
    let is_seen = seen(rt, alloc, &image) == (4, true, true);
    holds(rt, is_seen, "events and scopes in version", byte as usize);
}

#[test]
fn image_of_57_bytes(rt: HostRuntime) {
    assert_image_of_57_bytes(&rt, rt.alloc(), 1, ImageVersion::One);
    assert_image_of_57_bytes(&rt, rt.alloc(), 2, ImageVersion::Two);
}

/// A group whose first task was interrupted, that task, and one more of its job and argument, each
/// up to its link; no link, and one to task 0.
const GROUP: &[u8] = b"\x01g\x00\x00\x01\xff\x00\x0binterrupted";

const TASK: &[u8] = b"\x00\x00\x04copy\x01a\x04";

const FRESH: &[u8] = b"\x00\x00\x04copy\x01a\x00";

const NO_LINK: &[u8] = b"\xff\xff";

const LINK: &[u8] = b"\x00\x00";

/// The task that a task of this image retries.
fn retry_of(rt: &impl Abort, alloc: Global, image: &[u8], task: u16) -> Option<u16> {
    let state = read_state(rt, alloc, image);
    let retried = match state.task(task) {
        Some(task) => task.retry_of,
        None => None,
    };
    drop(state);
    retried
}

#[test]
fn a_link_is_kept(rt: HostRuntime) {
    let pieces: Pieces = &[GROUP, TASK, NO_LINK, FRESH, LINK];
    let image = image(&rt, rt.alloc(), Head::of((0, 1, 2)), pieces);
    holds(&rt, is_read(&rt, rt.alloc(), &image, true), "a link", 0);
    let retried = retry_of(&rt, rt.alloc(), &image, 1);
    holds(&rt, retried == Some(0), "retry", 1);
}

#[test]
fn rows_of_version_1_have_no_links(rt: HostRuntime) {
    let new = Head::of((0, 1, 2));
    let old = Head { version: 1, ..new };
    let linked: Pieces = &[GROUP, TASK, NO_LINK, FRESH, NO_LINK];
    let again = image(&rt, rt.alloc(), new, linked);
    let without = image(&rt, rt.alloc(), old, &[GROUP, TASK, FRESH]);
    let read = read_again(&rt, rt.alloc(), Layout::Small, &without, &again);
    holds(&rt, read == Ok((ImageVersion::One, true)), "version", 1);
}

/// Says whether this is no image in a small store.
fn is_image_refused(rt: &impl Abort, alloc: Global, head: Head, pieces: Pieces) -> bool {
    let image = image(rt, alloc, head, pieces);
    is_refused(alloc, Layout::Small, &image)
}

/// A version, and rows that it does not have.
static LINKS: [(u8, Pieces); 3] = [
    (1, &[GROUP, TASK, NO_LINK, FRESH, LINK]),
    (1, &[GROUP, TASK, NO_LINK, FRESH, NO_LINK]),
    (2, &[GROUP, TASK, FRESH]),
];

#[test]
fn links_stand_in_version_2_alone(rt: HostRuntime) {
    for (n, (version, pieces)) in LINKS.iter().enumerate() {
        let head = Head {
            version: *version,
            ..Head::of((0, 1, 2))
        };
        holds(
            &rt,
            is_image_refused(&rt, rt.alloc(), head, pieces),
            "row",
            n,
        );
    }
}

/// The image of a store after its first opening, in version 1: one event, and no row.
const OPENED: Head = Head {
    version: 1,
    clock: 0,
    count: 1,
    rows: (0, 0, 0),
};

/// What is damaged, and whether it is an image still.
static DAMAGED: [(&str, Head, Pieces, bool); 11] = [
    ("as it is", OPENED, &[], true),
    (
        "version 9",
        Head {
            version: 9,
            ..OPENED
        },
        &[],
        false,
    ),
    ("00 after it", OPENED, &[b"\x00"], false),
    (
        "event count 2^63",
        Head {
            count: 0x8000_0000_0000_0000,
            ..OPENED
        },
        &[],
        false,
    ),
    (
        "event count 2^62",
        Head {
            count: 0x4000_0000_0000_0000,
            ..OPENED
        },
        &[],
        true,
    ),
    (
        "a scope that is its own parent",
        Head {
            rows: (1, 0, 0),
            ..OPENED
        },
        &[b"\x01a\x00\x01\x01\x00"],
        false,
    ),
    (
        "a scope called root",
        Head {
            rows: (1, 0, 0),
            ..OPENED
        },
        &[b"\x04root\x00\x00\x01\x00"],
        false,
    ),
    (
        "a hit of event 2",
        Head {
            rows: (1, 0, 0),
            ..OPENED
        },
        &[
            b"\x01a\x00\x00\x01\x01\x00\x00\x00\x00\x00\x00\x00\x02\x00\x00\x00\x00\x00\x00\x00\
        \x00\x01\x01x",
        ],
        false,
    ),
    (
        "a hit of event 1",
        Head {
            rows: (1, 0, 0),
            ..OPENED
        },
        &[
            b"\x01a\x00\x00\x01\x01\x00\x00\x00\x00\x00\x00\x00\x01\x00\x00\x00\x00\x00\x00\x00\
        \x00\x01\x01x",
        ],
        true,
    ),
    (
        "a running task that is not admitted",
        Head {
            rows: (0, 1, 1),
            ..OPENED
        },
        &[b"\x01h\x00\x00\x01\x00\x00\x00\x00\x00\x04copy\x01a\x01"],
        false,
    ),
    (
        "a held task",
        Head {
            rows: (0, 1, 1),
            ..OPENED
        },
        &[b"\x01h\x00\x00\x01\x00\x00\x00\x00\x00\x04copy\x01a\x00"],
        true,
    ),
];

#[test]
fn damaged_images_of_an_opened_store(rt: HostRuntime) {
    for (n, (what, head, pieces, read)) in DAMAGED.iter().enumerate() {
        let refused = is_image_refused(&rt, rt.alloc(), *head, pieces);
        holds(&rt, refused != *read, what, n);
    }
    let mut short = image(&rt, rt.alloc(), OPENED, &[]);
    short.truncate(22);
    holds(&rt, is_read(&rt, rt.alloc(), &short, false), "bytes", 22);
}

/// Cancel scope a below root, its child b, and a group's scope, each up to its hit.
const A: &[u8] = b"\x01a\x00\x00\x01";

const B: &[u8] = b"\x01b\x00\x01\x01";

const GROUPS: &[u8] = b"\x01g\x00\x00\x06";

/// Hits by their event, their moment and their cause.
const HIT_1_9_X: &[u8] =
    b"\x01\x00\x00\x00\x00\x00\x00\x00\x01\x00\x00\x00\x00\x00\x00\x00\x09\x01\x01x";

const HIT_1_9_Y: &[u8] =
    b"\x01\x00\x00\x00\x00\x00\x00\x00\x01\x00\x00\x00\x00\x00\x00\x00\x09\x01\x01y";

const HIT_1_8_Y: &[u8] =
    b"\x01\x00\x00\x00\x00\x00\x00\x00\x01\x00\x00\x00\x00\x00\x00\x00\x08\x01\x01y";

const HIT_2_8_Y: &[u8] =
    b"\x01\x00\x00\x00\x00\x00\x00\x00\x02\x00\x00\x00\x00\x00\x00\x00\x08\x01\x01y";

const HIT_2_9_Y: &[u8] =
    b"\x01\x00\x00\x00\x00\x00\x00\x00\x02\x00\x00\x00\x00\x00\x00\x00\x09\x01\x01y";

/// Causes of scopes by their number.
type Causes = &'static [(u16, &'static [u8])];

/// What is shown, and how many rows there are, these rows, and the causes of their scopes.
type Caused = (&'static str, Counts, Pieces, Causes);

static STATES: [Caused; 7] = [
    (
        "a cancel below a done scope",
        (2, 0, 0),
        &[A, HIT_1_9_X, B, HIT_2_9_Y],
        &[(1, b"x"), (2, b"x")],
    ),
    (
        "two hits of one event at one moment",
        (2, 0, 0),
        &[A, HIT_1_9_X, B, HIT_1_9_Y],
        &[(1, b"x"), (2, b"x")],
    ),
    (
        "two hits of one event at two moments",
        (2, 0, 0),
        &[A, HIT_1_9_X, B, HIT_1_8_Y],
        &[(1, b"x"), (2, b"y")],
    ),
    (
        "moments that fall while events rise",
        (2, 0, 0),
        &[A, HIT_1_9_X, B, HIT_2_8_Y],
        &[(1, b"x"), (2, b"x")],
    ),
    (
        "moments that rise while events fall",
        (2, 0, 0),
        &[A, HIT_2_8_Y, B, HIT_1_9_X],
        &[(1, b"y"), (2, b"x")],
    ),
    (
        "a cause on a cancel scope",
        (1, 0, 0),
        &[A, HIT_1_9_X],
        &[(1, b"x")],
    ),
    (
        "a group's scope that is done without an error or a wait",
        (1, 1, 0),
        &[GROUPS, HIT_1_9_X, b"\x01g\x00\x01\x00\xff\x00\x00"],
        &[(1, b"x")],
    ),
];

/// Asserts that the scopes of a state are canceled with these causes.
fn assert_causes(rt: &impl Abort, state: &State, causes: Causes, what: &str) {
    for (scope, cause) in causes.iter() {
        holds(rt, is_canceled(state, *scope, cause), what, *scope as usize);
    }
}

/// Asserts that an image is kept, and that its scopes are canceled with these causes.
fn assert_caused(rt: &impl Abort, alloc: Global, caused: &Caused) {
    let image = image(rt, alloc, Head::of(caused.1), caused.2);
    holds(rt, is_read(rt, alloc, &image, true), caused.0, 0);
    let state = read_state(rt, alloc, &image);
    assert_causes(rt, &state, caused.3, caused.0);
    drop(state);
}

#[test]
fn states_that_no_history_gives(rt: HostRuntime) {
    for caused in STATES.iter() {
        assert_caused(&rt, rt.alloc(), caused);
    }
}
