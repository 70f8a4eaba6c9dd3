//! Laws of a crew's nights over one store, one after another, with crashes, openings, sessions of
//! commands and renewals between them. They follow from the courses of the workers, which
//! `run_crew` proves, and from the machine that a book is.
#![tactic(auto)]

pub mod audits;
pub mod examples;
pub mod nights;
