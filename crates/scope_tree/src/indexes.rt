//! The rows of a tree, with indexes that spare every question and change a walk through all rows.
//!
//! A row is added under its parent, and never removed. It gets at most one hit of its own, from
//! [`IndexedRows::end`], or from [`IndexedRows::expire`] when its deadline comes. Nothing else in a
//! row changes. The rows have no clock and no root of their own: the tree decides which hits come.
//!
//! The indexes are chains of the scopes whose names have the same hash, chains of the scopes that
//! end together with another one, the mark, deadline and nearest value of each scope, and a heap of
//! the deadlines that haven't passed. Each has a file, whose head says how the index changes.

mod ancestors;
mod chains;
mod changes;
mod deadlines;
mod indexed_rows;
mod links;
mod marks;
mod names;
mod reaches;

pub use indexed_rows::IndexedRows;
