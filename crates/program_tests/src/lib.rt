//! Tests of the program, over words, files, an input and outputs in memory, and of its crews.
#![tactic(auto)]

#[cfg(test)]
mod asserts;
#[cfg(test)]
mod closed;
#[cfg(test)]
mod crew_nights;
#[cfg(test)]
mod crew_stores;
#[cfg(test)]
mod crews;
#[cfg(test)]
mod failures;
#[cfg(test)]
mod gates;
#[cfg(test)]
mod jobs;
pub mod keeping;
#[cfg(test)]
mod locks;
#[cfg(test)]
mod nights;
#[cfg(test)]
mod runs;
pub mod shelves;
#[cfg(test)]
mod slow_syncs;
#[cfg(test)]
mod stores;
#[cfg(test)]
mod times;
#[cfg(test)]
mod turns;
#[cfg(test)]
mod words;
