//! Results of calls of the system as errors of a file.

ghost use Rattle.std.specs.Prelude.{◌≡◌, IfOk, Ok, is_ok};

use std::alloc::AllocError;
use std::io;
use store_files::FileError;

/// Printed for a store with a mark, before the error that kept a copy from replacing it.
const UNCOPIED: &str = "a sync of it failed, and so did a copy of it";

/// The result of a call of the system, or its error.
pub fn or_error<T>(done: io::Result<T>) -> Result<T, FileError>
    ensures same { is_ok result ≡ is_ok done }
    ensures value { IfOk done (λ value. result ≡ Ok value) }
{
    match done {
        Ok(value) => Ok(value),
        Err(error) => Err(FileError::of(&error)),
    }
}

/// A value in memory, or the error that there was no memory for it.
pub fn or_no_memory<T>(made: Result<T, AllocError>) -> Result<T, FileError>
    ensures same { is_ok result ≡ is_ok made }
    ensures value { IfOk made (λ value. result ≡ Ok value) }
{
    match made {
        Ok(value) => Ok(value),
        Err(_) => Err(FileError::NoMemory),
    }
}

/// The result of a call for the copy of a store, or its error after [`UNCOPIED`].
pub fn or_uncopied<T>(done: io::Result<T>) -> Result<T, FileError>
    ensures same { is_ok result ≡ is_ok done }
    ensures value { IfOk done (λ value. result ≡ Ok value) }
{
    match done {
        Ok(value) => Ok(value),
        Err(error) => Err(FileError::of_other(UNCOPIED, &error)),
    }
}
