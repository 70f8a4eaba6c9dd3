//! The durable book: a state over a disk, and the records that make it durable.
//!
//! A [`Book`] is opened over a disk that holds a store. It takes commands, starts and finishes as a
//! session does, in memory only. A flush or a checkpoint makes all of them so far durable. A crash
//! of an honest disk, at any moment, leaves a store that holds the state after a prefix of the
//! accepted events, and the prefix contains every acknowledged event.
#![tactic(auto)]

mod books;
pub mod copies;
mod images;
mod migrations;
mod openings;
mod replays;

pub use book_model::MigrateFault;
pub use books::Book;
pub use migrations::migrate;
pub use run_session::State;
