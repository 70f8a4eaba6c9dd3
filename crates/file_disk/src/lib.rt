//! A disk over an open file. Over any file that keeps the clauses of [`file_calls::OpenFile`] it is
//! an honest [`run_disk::RunDisk`], unless a sync of the file failed before.
#![tactic(auto)]

mod call_counts;
mod file_disks;

pub use file_disks::FileDisk;
