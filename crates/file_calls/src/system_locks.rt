//! [`SystemLocks`] are the locks of the system's files.
//!
//! What is believed of the system's locks stands here. No proof reaches the system, so `keeps`
//! can't be proved, and its definition here makes no use of the clauses. Each method is one call of
//! `std`.

ghost use Rattle.std.specs.Prelude.{[], ⊤};

use crate::locks::FileLocks;
use std::fs::{File, TryLockError};
use std::io;

/// The locks of the system's files, which `flock` takes.
#[derive(Drop)]
pub struct SystemLocks;

impl FileLocks for SystemLocks {
    type File = File;

    type Error = io::Error;

    // Which locks the system's files have isn't known.
    ghost lock = { λ file is_alone. record { file = 0; holder = 0; is_alone = is_alone } };

    ghost held = { λ locks. [] };

    // What is believed.
    ghost keeps = { λ locks. ⊥ };

    ghost refuses = { λ locks lock error. ⊤ };

    fn try_lock(&mut self, file: &File) -> io::Result<bool> {
        is_free(file.try_lock())
    }

    fn try_lock_shared(&mut self, file: &File) -> io::Result<bool> {
        is_free(file.try_lock_shared())
    }

    fn close(&mut self, file: File) {
        drop(file);
    }
}

/// Whether a lock was free, as the system returns it.
fn is_free(asked: Result<(), TryLockError>) -> io::Result<bool> {
    match asked {
        Ok(()) => Ok(true),
        Err(TryLockError::WouldBlock) => Ok(false),
        Err(TryLockError::Error(error)) => Err(error),
    }
}
