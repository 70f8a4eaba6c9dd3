//! What a test takes for granted, and what it holds: one call each, so that its branch and its
//! message are proved once.

use run_model::Name;
use std::process::Abort;

/// What is there, and must be.
pub fn given<T>(rt: &impl Abort, it: Option<T>, what: &str) -> T {
    match it {
        Some(it) => it,
        None => panic!(rt; "no {what}"),
    }
}

/// What was made, and must have been.
pub fn done<T, E: Drop>(rt: &impl Abort, it: Result<T, E>, what: &str) -> T {
    match it {
        Ok(it) => it,
        Err(_) => panic!(rt; "no {what}"),
    }
}

/// The name of these bytes.
pub fn name(rt: &impl Abort, bytes: &[u8]) -> Name {
    given(rt, Name::read(bytes), "name")
}

/// Asserts that something holds. The message names the row.
pub fn holds(rt: &impl Abort, it: bool, what: &str, row: usize) {
    assert!(rt; it, "{what} {row}");
}
