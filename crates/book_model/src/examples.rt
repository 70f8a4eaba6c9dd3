//! Worked examples: the replies to the steps of a short session, and what the questions answer
//! after them; what a store means; and what a book answers. Each example is computed from the
//! definitions only, without any of the code that runs a store.
//!
//! Each function has an empty body, and its clauses are the example.

pub mod bounds;
pub mod fulls;
pub mod groups;
pub mod nights;
pub mod plays;
pub mod records;
pub mod retries;
pub mod runs;
pub mod scopes;
pub mod sessions;
pub mod steps;
pub mod stores;
