//! The files that hold stores, and where their errors go.
//!
//! There are three traits. [`Files`] opens, makes and replaces the files of stores, [`FirstError`]
//! returns the first error of a file, and [`ErrorSink`] prints messages. A [`FileError`] says why a
//! file couldn't be opened, or why a call of it failed.
#![tactic(auto)]

mod error_sinks;
mod file_errors;
mod files;

pub use error_sinks::ErrorSink;
pub use file_errors::FileError;
pub use files::{BESIDE, Files, FirstError, Made, Opened};
