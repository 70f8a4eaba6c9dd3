//! Laws of books over open files: what an opening of a file finds after a crash.
#![tactic(auto)]

pub mod laws;
