//! A kill, an opening and a cut of the power: a book that is killed leaves writes that no sync
//! followed, the next opening reads them, and a cut after any call of that opening tears them.
//!
//! A disk that is settled first keeps what was acknowledged. This rests on `settle` (the disk is at
//! rest then), on `Opens`, whose premise that is, and on `IsTornImage` of the disk in memory. One
//! that isn't settled may lose all, and does where the last test says so.

use crate::asserts::holds;
use crate::books::calls::steps_of;
use crate::books::disks::{TEARS, counted, now, opened_over, played_on, recovered};
use crate::books::failures::play_over_fuse;
use crate::books::nights::{NIGHT, left, opens};
use crate::bytes::torn_image;
use run_disk::{MemoryDisk, Torn, settle};
use run_model::{Fault, Step};
use std::alloc::Global;
use std::process::Abort;
use test_fixtures::{Listing, are_same};

/// A book is killed after so many calls of the night, the next opening is cut after so many of
/// its own ten, and that tears each write which no sync followed.
type Cut = (u64, u64, Torn);

/// The disk of a book that is killed after so many calls of the night: those of an opening, three
/// flushes and a checkpoint.
fn killed(rt: &impl Abort, alloc: Global, steps: &[Step], kill: u64) -> MemoryDisk {
    play_over_fuse(rt, alloc, steps, kill.saturating_add(1)).0
}

/// The same disk, settled.
fn settled(rt: &impl Abort, alloc: Global, steps: &[Step], kill: u64) -> MemoryDisk {
    let mut disk = killed(rt, alloc, steps, kill);
    let is_settled = settle(&mut disk).is_ok();
    // A format's eight calls, those of the night, and the sync.
    let is_one_call = disk.calls() == kill.saturating_add(9);
    holds(rt, is_settled && is_one_call, "settled after call", kill);
    disk
}

/// What a cut leaves of a disk whose last ten calls are the opening's.
fn cut_image(rt: &impl Abort, alloc: Global, disk: &MemoryDisk, cut: Cut) -> Vec<u8> {
    let before = disk.calls().checked_sub(10).expect(rt, "an opening");
    torn_image(rt, alloc, disk, before.saturating_add(cut.1), cut.2)
}

/// What is stored before an opening, and after it.
#[derive(Drop)]
struct Stored {
    before: Listing,
    after: Listing,
}

impl Stored {
    /// The one that a cut leaves: the opening's last call syncs the gate that the one before wrote.
    fn after(&self, cut: Cut) -> &Listing {
        if cut.1 == 10 || (cut.1 == 9 && opens(cut.2)) {
            return &self.after;
        }
        &self.before
    }
}

/// What a disk at rest stores that was killed after so many calls, and what an opening makes of
/// it: nothing acknowledged is lost of either.
fn both_of(rt: &impl Abort, alloc: Global, disk: &MemoryDisk, kill: u64) -> Stored {
    let before = recovered(rt, alloc, now(rt, alloc, disk));
    let (_, after) = opened_over(rt, alloc, now(rt, alloc, disk));
    // A gate that was written is read as it is, synced or not.
    let is_read = before.count == left(kill, Torn::Take);
    let is_kept = left(kill, Torn::Keep) <= before.count;
    let is_next = after.count == before.count.saturating_add(1);
    holds(rt, is_read && is_kept && is_next, "killed after", kill);
    Stored { before, after }
}

fn assert_cut(rt: &impl Abort, alloc: Global, disk: &MemoryDisk, stored: &Stored, cut: Cut) {
    let found = recovered(rt, alloc, cut_image(rt, alloc, disk, cut));
    assert!(rt; are_same(&found, stored.after(cut)), "cut {cut:?}");
}

/// Asserts what each cut of the opening leaves, where the disk is settled before.
fn assert_kept(rt: &impl Abort, alloc: Global, steps: &[Step], kill: u64) {
    let disk = settled(rt, alloc, steps, kill);
    let stored = both_of(rt, alloc, &disk, kill);
    let disk = played_on(rt, alloc, disk, &[]);
    for calls in 0..11 {
        for torn in TEARS.iter() {
            assert_cut(rt, alloc, &disk, &stored, (kill, calls, *torn));
        }
    }
}

#[test]
fn a_settled_disk_loses_nothing(rt: HostRuntime) {
    let steps = steps_of(&rt, rt.alloc(), &[&NIGHT]);
    for kill in 0..36 {
        assert_kept(&rt, rt.alloc(), &steps, kill);
    }
}

/// Says whether a cut loses all where the disk isn't settled. Call 9 of the night opens a slot's
/// gate, and so does call 28, each before its sync; call 4 of an opening closes the gate of the
/// other slot. The cut loses the first write and keeps the second.
fn loses_all(cut: Cut) -> bool {
    let (kill, calls, torn) = cut;
    let is_after_a_gate = kill == 9 || kill == 28;
    is_after_a_gate && calls == 4 && matches!(torn, Torn::Fill(0))
}

/// Asserts that a cut leaves what was acknowledged, or no store at all where that is said of it.
fn assert_lost_or_kept(rt: &impl Abort, alloc: Global, disk: &MemoryDisk, cut: Cut) {
    let found = counted(rt, alloc, cut_image(rt, alloc, disk, cut));
    let is_so = match found {
        Ok(count) => !loses_all(cut) && left(cut.0, Torn::Keep) <= count,
        Err(fault) => loses_all(cut) && fault == Fault::NotAStore,
    };
    assert!(rt; is_so, "cut {cut:?}: {found:?}");
}

/// Asserts what each cut of the opening leaves, where the disk isn't settled before.
fn assert_unsettled(rt: &impl Abort, alloc: Global, steps: &[Step], kill: u64) {
    let disk = played_on(rt, alloc, killed(rt, alloc, steps, kill), &[]);
    for calls in 0..11 {
        for torn in TEARS.iter() {
            assert_lost_or_kept(rt, alloc, &disk, (kill, calls, *torn));
        }
    }
}

#[test]
fn an_unsettled_disk_may_lose_all(rt: HostRuntime) {
    let steps = steps_of(&rt, rt.alloc(), &[&NIGHT]);
    for kill in 0..36 {
        assert_unsettled(&rt, rt.alloc(), &steps, kill);
    }
}
