//! A renewed state is the part of a state that a renewal keeps. A renewal drops whatever is
//! finished.
//!
//! Each function in [`examples`], [`images`], [`renewals`], [`renewal_laws`] and [`days`] has an
//! empty body, and its clauses are the law or the example. They use only the definitions of
//! `run_model` and of this crate. [`renewal_laws`] say that the old and the renewed store give the
//! same answers from then on.
//!
//! The other files are the code of a renewal. [`flags`] says which rows are kept. [`marks`] holds
//! these flags, and the new numbers of the kept rows. [`renewed_rows`] writes the kept rows into an
//! image, with their new numbers. A [`Renewal`] does this for a whole state.
#![tactic(auto)]

pub mod days;
pub mod examples;
pub mod flags;
pub mod images;
pub mod marks;
pub mod renewal_laws;
pub mod renewals;
pub mod renewed_rows;
mod wholes;

pub use wholes::Renewal;
