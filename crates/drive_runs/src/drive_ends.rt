//! How a run ends that drives a night.

/// How a run has ended that no fault has stopped.
#[derive(Clone, Copy)]
pub enum DriveEnd {
    /// The input ended.
    InputEnded,
    /// The night is over.
    Over,
    /// The store has no room left.
    Full,
    /// The plan was refused.
    Refused,
    /// The line of this number can't be taken.
    Bad(u64),
}
