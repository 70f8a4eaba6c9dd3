//! What a test takes for granted, and what it holds: one call each, so that its branch and its
//! message are proved once.

use std::process::Abort;

/// What was made, and must have been.
pub fn done<T, E: Drop>(rt: &impl Abort, it: Result<T, E>, what: &str) -> T {
    match it {
        Ok(it) => it,
        Err(_) => panic!(rt; "no {what}"),
    }
}

/// Asserts that something holds. The message names the row.
pub fn holds(rt: &impl Abort, it: bool, what: &str, row: usize) {
    assert!(rt; it, "{what} {row}");
}
