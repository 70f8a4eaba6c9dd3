//! Reads the command line of `night`.
//!
//! [`own_words`] returns the arguments that the program was started with, and [`read_words`] reads
//! them: it returns the [`Request`], or a [`WordsFault`] that says why there is none.
//! `specs/Commands.antt` defines which arguments are accepted.
#![tactic(auto)]

mod commands;
pub mod examples;
mod faults;
pub mod laws;
mod readers;
mod requests;

pub use faults::WordsFault;
pub use readers::{own_words, read_words};
pub use requests::Request;
