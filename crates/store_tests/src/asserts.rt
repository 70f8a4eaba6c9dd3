//! What a test takes for granted: one call each, so that its branch and its message are proved
//! once.

use run_disk::Torn;
use std::process::Abort;

/// What is there, and must be.
pub fn given<T>(rt: &impl Abort, it: Option<T>, what: &str) -> T {
    match it {
        Some(it) => it,
        None => panic!(rt; "no {what}"),
    }
}

/// What was made, and must have been.
pub fn done<T, E: Drop>(rt: &impl Abort, it: Result<T, E>, what: &str) -> T {
    match it {
        Ok(it) => it,
        Err(_) => panic!(rt; "no {what}"),
    }
}

/// Asserts that something holds. The message names it, and the number of its row.
pub fn holds(rt: &impl Abort, it: bool, what: &str, row: u64) {
    assert!(rt; it, "{what}, {row}");
}

/// Asserts that something holds after this many calls, torn in this way.
pub fn holds_after(rt: &impl Abort, it: bool, calls: u64, torn: Torn) {
    assert!(rt; it, "after call {calls}, {torn:?}");
}
