//! Reads the lines of a plan and of what happens to it, and writes the lines of the answers.
#![tactic(auto)]

pub mod answers;
pub mod drafts;
pub mod flushes;
pub mod hearing;
pub mod lines;
pub mod notes;
pub mod numbers;
pub mod readers;
pub mod rounds;
pub mod runs;
pub mod states;
pub mod tokens;
