//! Prints a whole state.
//!
//! [`inspect`] prints a line for each scope, group and task, and [`list_tasks`] only those of some
//! tasks. [`print_json`] prints one object of JSON, [`print_tree`] a tree, and [`print_summary`] a
//! line for each group. None of them takes memory: lines are collected in a buffer of fixed size,
//! and written many at a time. If a write fails, the output holds a prefix of the text.
#![tactic(auto)]

pub mod entry_nights;
mod forms;
mod inspects;
mod json;
mod json_entries;
pub mod listed_nights;
mod listings;
mod row_kinds;
mod row_lines;
mod sheets;
mod summaries;
mod summary_lines;
pub mod summary_nights;
pub mod tree_laws;
mod tree_lines;
pub mod tree_nights;
mod tree_walks;
mod trees;
mod views;

pub use inspects::{inspect, list_tasks};
pub use json::print_json;
pub use row_lines::Row;
pub use summaries::print_summary;
pub use trees::print_tree;
pub use views::View;
