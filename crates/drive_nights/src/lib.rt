//! Opens a night in a store.
//!
//! A driver of nights finds out which night of a store goes on or begins, and makes the scopes and
//! groups of the store that the night needs. [`night_of_store`](nights::night_of_store) returns the
//! number of the night, and [`opening_of`](openings::opening_of) the steps that open it. `rooms`
//! says which scope and group of the store a group of the plan needs, `names` how they are called,
//! and `owners` whether a store can be opened at all. [`are_taken`](replies::are_taken) returns
//! whether the store took all steps. [`mark_of`](marks::mark_of) returns the step that ends a
//! night, and [`endings_of`](endings::endings_of) those that end what is left of older nights.
//! [`next_moment`](deadlines::next_moment) returns when a retry or a deadline comes. `effects` says
//! what all this does to a night, and `examples` opens some.
#![tactic(auto)]

pub mod deadlines;
pub mod effects;
pub mod endings;
pub mod examples;
pub mod marks;
pub mod names;
pub mod nights;
pub mod openings;
pub mod owners;
pub mod replies;
pub mod rooms;
pub mod untils;
