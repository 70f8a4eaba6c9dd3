//! Six events, as steps and as bytes: the opening's, three that are flushed, and two that are
//! pending.

use test_fixtures::Call::{Cancel, Derive, Flush};
use test_fixtures::{Ask, Call, Replied};

/// Events 2 to 4.
pub const FIRST: [(Call, Replied<'static>); 3] = [
    (Derive(b"a", b"root", Ask::Cause), Replied::Scope(1)),
    (Derive(b"b", b"a", Ask::Cancel), Replied::Scope(2)),
    (Cancel(b"a", b"disk"), Replied::Done),
];

/// Their batch: its gate, its length and their records.
pub const FIRST_BATCH: &[u8; 31] = b"\xa7\0\0\0\x1a\x01\0\x05\x01a\0\0\x02\
\x01\0\x05\x01b\0\x01\x01\x02\0\x07\0\x01\x04disk";

/// Their flush, and events 5 and 6.
pub const SECOND: [(Call, Replied<'static>); 3] = [
    (Flush, Replied::Acked(4)),
    (Derive(b"c", b"root", Ask::Cancel), Replied::Scope(3)),
    (Derive(b"d", b"root", Ask::Cancel), Replied::Scope(4)),
];

/// All of them, with a second flush.
pub static FLUSHED: [&[(Call, Replied<'static>)]; 3] = [
    &FIRST,
    &SECOND,
    &[(Flush, Replied::Acked(6))],
];

/// The batch of events 5 and 6.
pub const SECOND_BATCH: &[u8; 21] = b"\xa7\0\0\0\x10\x01\0\x05\x01c\0\0\x01\
\x01\0\x05\x01d\0\0\x01";
