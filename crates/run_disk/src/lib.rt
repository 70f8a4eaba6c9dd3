//! Disks of a fixed size, with four calls: size, read, write and sync.
//!
//! The ghost side of [`RunDisk`] says what reads return, what a crash may leave now, and what a
//! crash since an earlier moment may have left. A gate ([`OPEN`], [`CLOSED`]) is a single byte of a
//! disk, so no crash can leave it half written.
#![tactic(auto)]

pub mod disk_laws;
mod disks;
mod durable;
mod failing_disks;
mod file_disks;
mod gates;
mod histories;
mod memory_disks;
mod settled;
mod tallies;
mod tears;

pub use disks::{DiskFailed, RunDisk};
pub use durable::write_durably;
pub use failing_disks::{FailOnce, FailingDisk, ForGood, Fuse, Once};
pub use file_disks::FileDisk;
pub use gates::{CLOSED, OPEN};
pub use memory_disks::MemoryDisk;
pub use settled::settle;
pub use tears::Torn;
