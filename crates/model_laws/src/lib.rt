//! Laws of the plain state: what every state keeps, what every event changes, and how calls are
//! answered.
//!
//! Each function has an empty body, and its clauses are the law. The laws rest only on the
//! definitions of `run_model`, on which every promise of the layers above rests. They hold for
//! every state that meets their premises, whether or not a history leads to it.
//!
//! - Scopes and runs: what holds in every well formed state (parents have lower numbers, and hits
//!   are in the past), and through every event.
//! - States: what every event keeps of groups, tasks and retries, and what a restart changes.
//! - Replies: what is decided is what is allowed, what is refused changes nothing, and the finishes
//!   of running tasks always fit into the log.
#![tactic(auto)]

// Scopes and runs.
pub mod endings;
pub mod hits;
pub mod runs;
pub mod searches;

// States.
pub mod group_ends;
pub mod layouts;
pub mod restarts;
pub mod retries;
pub mod rules;

// Replies.
pub mod answers;
pub mod decisions;
pub mod queues;
pub mod sessions;
