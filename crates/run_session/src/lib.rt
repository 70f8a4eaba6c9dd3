//! The state in memory, and a session: a state together with the records of the events since an
//! opening.
//!
//! A [`State`] joins the tree of scopes, the groups with their tasks, and the count of events. Only
//! events change it, and it takes each event in the form of its record. So a command that is
//! accepted now and a record that is read back change it by the same code. A state answers
//! questions. It also decides which event a call becomes, or why the call is refused. It knows
//! nothing about a log.
//!
//! A [`Session`] takes commands, starts and finishes. A call that is refused changes nothing. A
//! call that is accepted appends its record to the log, and changes the state by its event. So the
//! log shows how the state came about. A state and a session take memory only when they are made.
#![tactic(auto)]

mod answers;
mod asking;
mod changes;
mod group_hits;
mod logs;
mod outcomes;
mod questions;
mod sessions;
mod states;
mod wishes;

pub use questions::ScopeStatusRef;
pub use sessions::Session;
pub use states::State;
