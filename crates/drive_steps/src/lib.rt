//! Makes the steps of a round of a night, and reads from the replies what may be reported.
//!
//! A driver of nights hears which tries have ended and what was canceled. It records that, and
//! begins what may begin then. [`record_of`](heard::record_of) returns the steps that record it,
//! and `cancels` makes those of cancels. [`begins`](begins::begins) chooses these commands by the
//! rows of a store, and returns the steps in which they begin. [`reported`](reported::reported)
//! reads from the replies to these steps which begins the driver may report to whoever runs the
//! commands. `starts` makes the steps of each command, `rooms` finds the group of the store in
//! which it gets a new task, and `rows` says what such a row of steps does to a night. `living`
//! says which tries live between two rounds, `stops` which of them have to stop, `fits` whether
//! there is room for more, and `many_rounds` what many rounds do.
#![tactic(auto)]

pub mod begins;
mod called;
pub mod cancels;
pub mod errors;
pub mod examples;
pub mod fits;
pub mod heard;
pub mod living;
pub mod many_rounds;
pub mod reported;
pub mod rooms;
pub mod rounds;
pub mod rows;
pub mod starts;
pub mod stops;
