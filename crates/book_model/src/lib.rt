//! What a store means, and what a book promises about it: the definitions on which the contracts of
//! the durable book rest, their first laws, and worked [`examples`].
//!
//! Each function has an empty body, and its clauses are the law. [`MigrateFault`] is here, too,
//! because definitions refer to it.
#![tactic(auto)]

pub mod books;
pub mod examples;
pub mod machines;
pub mod meanings;
pub mod migrations;
pub mod openings;
pub mod plays;
pub mod prefixes;
pub mod steps;
pub mod stores;

pub use migrations::MigrateFault;
