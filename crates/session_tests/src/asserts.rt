//! What a test holds: one call each, so that its branch and its message are proved once.

use std::process::Abort;

/// Asserts that two values are the same. The message names the row.
pub fn same<T: PartialEq>(rt: &impl Abort, one: &T, other: &T, what: &str, row: usize) {
    assert!(rt; one == other, "{what} {row}");
}

/// Asserts that something holds. The message names the row.
pub fn holds(rt: &impl Abort, it: bool, what: &str, row: usize) {
    assert!(rt; it, "{what} {row}");
}

/// Asserts that something holds. The message names the table, the part and its row.
pub fn holds_in(rt: &impl Abort, it: bool, what: &str, part: &str, row: usize) {
    assert!(rt; it, "{what}: {part} {row}");
}

/// What is there, and must be.
pub fn given<T>(rt: &impl Abort, it: Option<T>, what: &str) -> T {
    match it {
        Some(it) => it,
        None => panic!(rt; "no {what}"),
    }
}

/// What was made, and must have been.
pub fn done<T, E: Drop>(rt: &impl Abort, it: Result<T, E>, what: &str) -> T {
    match it {
        Ok(it) => it,
        Err(_) => panic!(rt; "no {what}"),
    }
}
