//! The tree of scopes: its worked examples.

mod examples;
mod steps;
