//! Tests of what the console reads and prints, and of a console over a book on a disk in memory:
//! the words of the command line, lines and replies; whole nights, runs that stop, and what a stop
//! leaves.
#![tactic(auto)]

#[cfg(test)]
mod asserts;
#[cfg(test)]
mod books;
#[cfg(test)]
mod crews;
#[cfg(test)]
mod groups;
#[cfg(test)]
mod inspects;
#[cfg(test)]
mod limits;
#[cfg(test)]
mod lines;
#[cfg(test)]
mod nights;
#[cfg(test)]
mod parts;
#[cfg(test)]
mod readers;
#[cfg(test)]
mod replies;
#[cfg(test)]
mod restarts;
#[cfg(test)]
mod runs;
#[cfg(test)]
mod scopes;
#[cfg(test)]
mod stops;
#[cfg(test)]
mod stores;
#[cfg(test)]
mod stricts;
#[cfg(test)]
mod times;
#[cfg(test)]
mod words;
#[cfg(test)]
mod writers;
