//! Drives a night over a book: what an executor reports goes in, and what it has to do comes out.
#![tactic(auto)]

pub mod answers;
pub mod asks;
pub mod begins;
pub mod bindings;
pub mod drive_ends;
pub mod faults;
pub mod laws;
pub mod living;
pub mod nights;
pub mod openings;
pub mod parts;
mod plan_parts;
pub mod plays;
pub mod rebounds;
pub mod records;
mod round_parts;
pub mod rounds;
pub mod runs;
mod settings;
pub mod sittings;
pub mod stops;
pub mod tries;
