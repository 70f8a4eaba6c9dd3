//! A settled disk: a crash can lose nothing that was written to it before.

ghost use Rattle.std.specs.Prelude.{ℕ, OnOk};
ghost use Rattle.run_disk.specs.Disk.{IsAtRest};
ghost use Rattle.run_disk.specs.Runs.{OnlyReads, Ran, Took};

use crate::disks::{DiskFailed, RunDisk};

/// Syncs a disk before it is opened: one call, which changes no byte. At `Ok` an honest disk on
/// which no failed write waits is at rest, whatever wrote to it before.
///
/// What a killed program wrote can be read, but a power failure may still lose it. So settle a disk
/// before you open it, unless you know that it is at rest. A file whose sync has failed isn't an
/// honest disk any more: see [`crate::FileDisk`].
#[tactic(auto, using(crate::proofs::RunLemmas::settled))]
pub fn settle<D: RunDisk>(disk: &mut D) -> Result<(), DiskFailed>
    ensures ran { Ran (D.state disk.old) (D.state disk.new) result }
    ensures took { Took 1 (D.state disk.old) (D.state disk.new) result }
    ensures unchanged { (D.state disk.old).honest
        → OnlyReads (D.state disk.old) (D.state disk.new) }
    ensures rest { (D.state disk.old).honest
        → ((i : ℕ) → (D.state disk.old).unsure i → ⊥) → OnOk result (IsAtRest (D.state disk.new)) }
{
    disk.sync()
}
