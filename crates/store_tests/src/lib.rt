//! Tests of stores: disks, the places of both layouts, a journal over a disk that forgets, and the
//! durable book, each of its calls on its way over a disk in memory, and the bytes that it leaves.
//! Their contracts say what slots, segments and journals leave.
#![tactic(auto)]

#[cfg(test)]
mod asserts;
#[cfg(test)]
mod books;
#[cfg(test)]
mod bytes;
#[cfg(test)]
mod disks;
#[cfg(test)]
mod files;
#[cfg(test)]
mod forgetful;
#[cfg(test)]
mod layouts;
#[cfg(test)]
mod pairs;
