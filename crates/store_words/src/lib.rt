//! The subcommands of `night` that work on stores, except for those that run lines or a crew.
//!
//! [`format`] and [`inspect`] work on one disk, and [`migrate`] and [`renew`] on two.
//! [`format_file`], [`inspect_file`], [`migrate_file`], [`renew_file`] and [`renew_in_place`] do
//! the same with the files that the arguments name.
//!
//! The result of a subcommand is a [`Done`], or a [`Failure`]: the fault that ended it, and the
//! file that is to blame. [`end`] prints it, and returns the exit status.
#![tactic(auto)]

mod endings;
mod failures;
mod file_problems;
mod hints;
mod looks;
mod makings;
mod migrations;
mod renewals;
mod replacements;
mod sources;
mod stores;
mod streams;
mod words;

pub use endings::{Done, Ended, UnknownJob, end};
pub use failures::{
    Failure, FileFailure, FileName, done_alone, done_over, failed_of, failed_over, failed_source,
    no_file, not_put, strict_alone, strict_over, unopened,
};
pub use file_problems::FileProblem;
pub use hints::hint;
pub use migrations::migrate;
pub use renewals::{Kept, renew};
pub use replacements::renew_in_place;
pub use stores::{format, inspect};
pub use streams::Streams;
pub use words::{format_file, inspect_file, migrate_file, renew_file};
