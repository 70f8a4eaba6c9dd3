//! Everything that the program `night` does, over any arguments, files, input and outputs.
//!
//! [`night`] reads the arguments, and runs the subcommand that they ask for. `demo`, `script` and
//! `crew` are in this crate: [`script`] runs lines over a store, and `crew` runs a crew over one.
//! So are `plan` and `drive`, which open what other crates run.
//! The subcommands that only work on stores are in `store_words`. The jobs of a crew are
//! [`SpinJob`], [`FailJob`] and [`CopyJob`], which the caller boxes.
#![tactic(auto)]

mod crews;
mod demos;
mod drives;
mod jobs;
mod known;
mod lasting;
mod limits;
mod plans;
mod process_ends;
mod programs;
mod scripts;
mod timed;

pub use jobs::{CopyJob, FailJob, SpinJob};
pub use lasting::{
    a_script_runs_lines, a_store_lasts_from_run_to_run, many_runs_lose_nothing_acknowledged,
};
pub use limits::an_input_has_at_most_16777216_bytes;
pub use process_ends::ProcessEnd;
pub use programs::night;
pub use scripts::script;
pub use store_words::{Ended, Streams};
