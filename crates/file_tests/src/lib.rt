//! Tests of the calls of files in memory: what a crash may leave of bytes and of names, who gets a
//! lock, what a disk over a file does, who may open a store, when its mark is left, and how it is
//! replaced or made while a call fails. The contracts of `file_calls`, `file_disk` and
//! `store_replacement` say it for every file; these tests show that calls succeed, and that a crash
//! really loses something.
#![tactic(auto)]

#[cfg(test)]
mod bytes;
#[cfg(test)]
mod disks;
#[cfg(test)]
mod locks;
#[cfg(test)]
mod names;
#[cfg(test)]
mod new_files;
#[cfg(test)]
mod openings;
#[cfg(test)]
mod replacements;
