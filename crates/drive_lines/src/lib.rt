//! Reads and spells the lines between a program that drives a night and its executor.
//!
//! An executor begins and stops processes, and does what it is told. [`reports`] has its lines, and
//! reads them. [`orders`] has the lines of the program, and appends them. Both kinds are defined by
//! their spelling: `specs/Reports.antt` and `specs/Orders.antt`. A [`Phrase`](phrases::Phrase) is a
//! line as it is spelled, before anyone asks what it means.
#![tactic(auto)]

mod cuts;
pub mod examples;
pub mod fields;
pub mod inputs;
pub mod laws;
pub mod orders;
mod phrases;
pub mod reports;
mod words;
