//! Names, texts, moments and limits of a test's bytes and numbers, and each call of the values.

mod each;

use run_model::{Limit, Moment, Name, Text};
use std::process::Abort;

/// The name of these bytes.
pub fn name(rt: &impl Abort, bytes: &[u8]) -> Name {
    Name::read(bytes).expect(rt, "a name")
}

/// The text of these bytes.
pub fn text(rt: &impl Abort, bytes: &[u8]) -> Text {
    Text::read(bytes).expect(rt, "a text")
}

/// The moment of so many seconds.
pub fn moment(rt: &impl Abort, seconds: u64) -> Moment {
    Moment::new(seconds).expect(rt, "a moment")
}

/// This limit, or none.
pub fn limit(rt: &impl Abort, most: Option<u8>) -> Limit {
    match most {
        Some(most) => Limit::new(most).expect(rt, "a limit"),
        None => Limit::none(),
    }
}

/// The name of a letter and the last four digits of a number.
pub fn numbered(rt: &impl Abort, letter: u8, n: u16) -> Name {
    name(rt, &test_fixtures::numbered(letter, n))
}
