//! Laws of disks and gates. Each function has an empty body, and its clauses are the law.

ghost use Rattle.std.specs.Prelude.{◌≡◌, ◌≤◌, ◌↔◌, ℕ, List};
ghost use Rattle.run_disk.specs.declared.gates.TheConstants.{CLOSED, OPEN};
ghost use Rattle.run_disk.specs.Disk.{IsAtRest, IsSynced};
ghost use Rattle.run_disk.specs.Writes.{Write, History, and_write, and_sync};
ghost use Rattle.run_disk.specs.History.{IsImage};

use crate::disks::RunDisk;

/// Later writes and syncs don't change what a crash after the first k calls may have left. So an
/// image that a disk shows of an earlier moment is one that a crash could have left then.
pub fn later_calls_change_no_earlier_image()
    ensures write { (h : History) (w : Write) (k : ℕ) (x : List ℕ) → k ≤ w.moment
        → IsImage (and_write h w) k x ↔ IsImage h k x }
    ensures sync { (h : History) (moment k : ℕ) (x : List ℕ) → k ≤ moment
        → IsImage (and_sync h moment) k x ↔ IsImage h k x }
{}

/// An honest disk is at rest if it is synced and no failed write waits to be written again. So a
/// store on it can be opened again without a crash in between.
pub fn a_synced_disk_is_at_rest<D: RunDisk>(disk: &D)
    ensures { (D.state disk.now).honest → IsSynced (D.state disk.now)
        → ((i : ℕ) → (D.state disk.now).unsure i → ⊥) → IsAtRest (D.state disk.now) }
{}

/// A gate is open when it is 0xA7, in a slot as in a segment, and 0 is written to close it.
pub fn a_gate_is_one_byte()
    ensures open { OPEN ≡ 167 }
    ensures closed { CLOSED ≡ 0 }
{}
