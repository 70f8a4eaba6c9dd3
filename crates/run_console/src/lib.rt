//! The console: it runs lines over a store, and prints the replies.
//!
//! [`run`] runs a whole input over a book, and [`run_strict`] an input up to its first rejected
//! line. Both do so through [`run_until`], and [`line`] runs a single line. The text that is
//! written for a whole input is its *script*, which `console_lines` defines. A [`TimedInput`] reads
//! another input, and puts the time of a [`MachineTime`] before its lines. [`inspect`] prints a
//! state.
#![tactic(auto)]

mod book_lines;
pub mod clock_laws;
mod line_answers;
mod line_inputs;
pub mod line_laws;
mod machine_times;
mod reply_writes;
mod runs;
mod tally_replies;
mod timed_inputs;
mod untils;
mod weaves;

pub use book_lines::line;
pub use console_lines::{RejectedLine, Rejection, RunFault};
pub use machine_times::MachineTime;
pub use runs::{run, run_strict, run_until};
pub use state_views::inspect;
pub use timed_inputs::TimedInput;
pub use untils::Until;
