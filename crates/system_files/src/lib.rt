//! The system's files, behind the trait `Files`: with locks, syncs, marks of failed syncs, and a
//! file beside a store that replaces it. [`WatchedStream`] keeps the first error of a stream.
#![tactic(auto)]

mod contents;
mod disks;
mod error_cells;
mod marks;
mod streams;
mod system;

pub use disks::{MarkedDisk, settle, settle_under};
pub use error_cells::ErrorCell;
pub use marks::Mark;
pub use streams::{Errors, WatchedStream};
pub use system::{ErrorCells, SystemFiles};
