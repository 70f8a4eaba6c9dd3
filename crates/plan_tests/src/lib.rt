//! Tests of plans: what begins, what waits, what is stopped, and which plans are refused; and of
//! sessions, in which lines are read and answered; and of the lines of a driven night.
#![tactic(auto)]

#[cfg(test)]
mod asserts;
#[cfg(test)]
mod drive;
#[cfg(test)]
mod plans;
#[cfg(test)]
mod sessions;
