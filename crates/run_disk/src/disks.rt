//! A [`RunDisk`] is a sequence of bytes that can be read, written and synced. A [`DiskFailed`]
//! reports that a call failed.
//!
//! After a write that wasn't synced, a crash may leave any bytes in the written range, and leaves
//! the other places as they were. After a sync, a crash leaves what reads return.

ghost use Rattle.std.specs.Prelude.{◌≡◌, ◌≤◌, ◌+◌, length, OnOk, Some, slice_range};
ghost use Rattle.run_disk.specs.Disk.{DiskState, IsDisk};
ghost use Rattle.run_disk.specs.Calls.{Calls, Reads, Writes, Syncs};

use run_model::Fault;
use std::error::Error;
use std::fmt;

/// Reports that a call of the device failed. It is printed as `fault 2 DiskFailed`.
#[derive(Clone, Copy, Debug, PartialEq, Eq)]
pub struct DiskFailed;

impl From<DiskFailed> for Fault {
    ghost use Rattle.run_model.specs.declared.faults.Fault.TheVariants.{DiskFailed};

    ghost from_gives = { λ _ fault. fault ≡ DiskFailed };

    fn from(_: DiskFailed) -> Self {
        Fault::DiskFailed
    }
}

impl fmt::Display for DiskFailed {
    ghost use Rattle.run_model.specs.declared.faults.Fault.TheVariants.{DiskFailed};
    ghost use Rattle.run_model.specs.Faults.{fault_text};

    ghost output = { λ _. Some (fault_text DiskFailed) };

    fn fmt<W: fmt::Write>(&self, f: &mut fmt::Formatter<W>) -> fmt::Result {
        write!(f, "{}", Fault::from(*self))
    }
}

impl Error for DiskFailed {}

/// A disk of a fixed size. It counts its reads, writes and syncs, and also those that fail. After
/// 2^64 - 1 of them the disk is spent: each further call fails and changes nothing.
pub trait RunDisk {
    /// What contracts see of the disk.
    ghost state: { Self → DiskState };

    /// Returns the number of the disk's bytes. This call is not counted.
    fn size(&self) -> u64
        ensures { result ≡ (state self.now).size };

    /// Fills `out` with the bytes from the place `at` on. After an error `out` may hold anything.
    fn read_at(&mut self, at: u64, out: &mut [u8]) -> Result<(), DiskFailed>
        requires { at + length out.old ≤ (state self.old).size }
        ensures call { Calls (state self.old) (state self.new) result }
        ensures reads { (state self.old).honest → Reads (state self.old) (state self.new) }
        ensures bytes { (state self.old).honest
            → OnOk result (out.new ≡ slice_range (state self.old).now at (at + length out.old)) };

    /// Writes these bytes, beginning at the place `at`. Until a sync, a crash may leave anything
    /// there. After an error the bytes there are unknown until they are written again.
    fn write_at(&mut self, at: u64, bytes: &[u8]) -> Result<(), DiskFailed>
        requires { at + length bytes.now ≤ (state self.old).size }
        ensures call { Calls (state self.old) (state self.new) result }
        ensures writes { (state self.old).honest
            → Writes at bytes.now (state self.old) (state self.new) result };

    /// Makes what was written durable. After it, a crash leaves what reads return, except in the
    /// ranges of failed writes that weren't written again.
    fn sync(&mut self) -> Result<(), DiskFailed>
        ensures call { Calls (state self.old) (state self.new) result }
        ensures syncs { (state self.old).honest → Syncs (state self.old) (state self.new) result };

    /// What is true of the disk at every moment.
    ghost is_disk: { (d : Self) → IsDisk (state d) };
}
