//! The head of an image. `record_view` reads and writes it.

/// The version of an image. Images of both versions are read, but only version 2 is written.
#[derive(Clone, Copy, PartialEq, Eq)]
pub enum ImageVersion {
    /// Rows have no links, so no task is a retry.
    One,
    /// The row of each task ends with its link.
    Two,
}

/// The fields before the rows of an image.
#[derive(Clone, Copy, PartialEq, Eq)]
pub struct ImageHead {
    /// The version, which decides how the rows are spelled.
    pub version: ImageVersion,
    /// The clock, in whole seconds.
    pub clock: u64,
    /// The number of events so far.
    pub count: u64,
    /// The number of scopes, not counting root.
    pub scopes: u16,
    /// The number of groups.
    pub groups: u16,
    /// The number of tasks.
    pub tasks: u16,
}
