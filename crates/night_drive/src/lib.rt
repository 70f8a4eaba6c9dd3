//! Reads from a store what has happened to the commands of a plan.
//!
//! A driver of nights records each try of a command as a task of a store. After a crash only the
//! store knows how far a night had come. [`seen`](seen::seen) reads the rows of a state, and
//! returns the facts on which the decisions of `night_plan` rest: how far each command has come,
//! how often it has failed, and which groups are done. For this it goes through the tasks once:
//! `index` finds the command of a task, and `tallies` counts its tries. `names` says how commands
//! are named in a store, `tries` what a task shows of its command, `turns` what each event changes,
//! and `openings` what an opening changes. `plan_turns` says the same of a whole plan. `examples`
//! has a store with the tasks of two nights.
#![tactic(auto)]

pub mod ends;
pub mod examples;
pub mod guessed;
pub mod guesses;
mod index;
mod keys;
pub mod names;
pub mod nights;
pub mod openings;
pub mod plan_turns;
pub mod seen;
mod tallies;
pub mod tries;
pub mod turns;
