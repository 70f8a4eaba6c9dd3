//! What is known about a night so far.

/// How far a command has come.
#[derive(Clone, Copy)]
pub enum Phase {
    /// It hasn't begun yet.
    Fresh,
    /// A try of it runs, or the end of the try isn't recorded yet.
    Busy,
    /// It ended well.
    EndedOk,
    /// Its last try failed, at this moment.
    Failed(u64),
    /// Its last try was interrupted, which is no failure.
    Interrupted,
    /// Its last try was canceled, which is no failure, either. It doesn't begin again.
    Canceled,
}

/// What is known about a command.
#[derive(Clone, Copy)]
pub struct Known {
    pub phase: Phase,
    /// How many of its tries have failed, not counting those that are forgiven.
    pub failures: u32,
    /// Whether the command itself was canceled. Then it doesn't begin again, and has to stop if it
    /// runs.
    pub canceled: bool,
}

/// The facts on which the decisions about a plan rest: one for each of its commands, groups and
/// pools.
#[derive(Drop)]
pub struct Facts {
    pub known: Vec<Known>,
    /// Whether each group is done: canceled, or past its deadline.
    pub done: Vec<bool>,
    /// The size of each pool now. The running commands may have taken more, if the size was greater
    /// before.
    pub sizes: Vec<u32>,
}
