//! Laws of the calls of a book, derived from their clauses only: what several calls, one after
//! another, leave of a store, and what a renewal returns.
#![tactic(auto)]

pub mod laws;
pub mod renewals;
