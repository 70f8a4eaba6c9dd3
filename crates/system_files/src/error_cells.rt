//! An [`ErrorCell`] keeps the first error of a file.

ghost use Rattle.std.specs.Prelude.{⊤};

use std::io;
use std::sync::atomic::{AtomicI64, Ordering};
use store_files::{FileError, FirstError};

/// The number of no error: no call failed.
const NOTHING: i64 = 0;

/// The number of an error that isn't the system's: the file had fewer bytes than were asked for.
const ENDED_EARLY: i64 = -1;

/// The error of the first call of a file that failed. The disk over the file notes it, in whichever
/// thread, and whoever opened the file reads it when the disk is gone.
#[derive(Drop)]
pub struct ErrorCell(AtomicI64);

impl ErrorCell {
    /// Returns a cell without an error.
    pub fn new() -> ErrorCell {
        ErrorCell(AtomicI64::new(NOTHING))
    }

    /// Notes the error of a call, unless another one failed before.
    pub fn note(&self, error: &io::Error) {
        let number = match error.raw_os_error() {
            Some(number) => i64::from(number),
            None => ENDED_EARLY,
        };
        let _before = self
            .0
            .compare_exchange(NOTHING, number, Ordering::SeqCst, Ordering::SeqCst);
    }
}

impl FirstError for &ErrorCell {
    // What the system's calls return isn't known.
    ghost notes = { λ cell error. ⊤ };

    fn first_error(&self) -> Option<FileError> {
        match self.0.load(Ordering::SeqCst) {
            NOTHING => None,
            number => Some(match i32::try_from(number) {
                Ok(number) if number > 0 => FileError::of(&io::Error::from_raw_os_error(number)),
                _ => FileError::EndedEarly,
            }),
        }
    }
}
