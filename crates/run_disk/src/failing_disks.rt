//! A [`FailingDisk`] wraps another disk, and makes some of its calls fail. A [`Fuse`] fails all
//! calls after the first ones, and a [`FailOnce`] fails a single call.

ghost use Rattle.std.specs.Prelude.{◌≡◌, ◌≤◌, ◌+◌, ◌-◌, [], length, OnOk, slice_range, List, ℕ};
ghost use Rattle.std.specs.Bool.{OnFalse, OnTrue};
ghost use Rattle.run_disk.specs.Calls.{Calls, Reads, Writes, Syncs};
ghost use Rattle.run_disk.specs.Disk.{last_moment};
ghost use Rattle.run_disk.specs.Over.{IsOver, LeftSame, Relays, ShowsSame, over_is_disk};

use crate::disks::{DiskFailed, RunDisk};
use crate::tallies::Tally;
use std::marker::PhantomData;
use std::snapshot::Snapshot;

/// The calls fail for good.
pub struct ForGood;

/// One call fails.
pub struct Once;

/// Passes its first calls on to the disk below, and fails all calls after them.
pub type Fuse<D> = FailingDisk<D, ForGood>;

/// Fails one call, and passes all others on to the disk below.
pub type FailOnce<D> = FailingDisk<D, Once>;

/// Passes its calls on to the disk below, except for one range of calls. Each of these fails, and
/// doesn't reach the disk below. `W` says which calls they are.
#[derive(Drop)]
pub struct FailingDisk<D: RunDisk, W> {
    disk: D,
    // the disk below as it was when this one was made
    made: Snapshot<D>,
    // the first call that fails, and the first one after them, counted from 0
    first: u64,
    behind: u64,
    tally: Tally,
    which: PhantomData<W>,
    ghost kept: { IsOver (record { first = first; behind = behind }) (D.state made.value).clock
        (D.state disk) tally.calls tally.failures },
}

impl<D: RunDisk> FailingDisk<D, ForGood> {
    ghost use Rattle.run_disk.specs.FailingDisks.{below, calls_cut, clock_below, state_of};

    /// Makes a fuse over this disk, which passes the first `limit` calls on.
    pub fn new(disk: D, limit: u64) -> Fuse<D>
        ensures limit { calls_cut result ≡ record { first = limit; behind = last_moment } }
        ensures below { below result ≡ disk }
        ensures clock_below { clock_below result ≡ (D.state disk).clock }
        ensures calls { (state_of result).clock ≡ 0 }
        ensures failures { (state_of result).failures ≡ 0 }
        ensures same { ShowsSame (D.state disk) (state_of result) }
    {
        FailingDisk::over(disk, limit, u64::MAX)
    }
}

impl<D: RunDisk> FailingDisk<D, Once> {
    ghost use Rattle.run_disk.specs.FailingDisks.{below, calls_cut, clock_below, state_of};

    /// Makes a disk over this one that fails the call with the number `call`. Calls are counted
    /// from 1, so 0 fails none.
    pub fn new(disk: D, call: u64) -> FailOnce<D>
        ensures call { calls_cut result ≡ record { first = call - 1; behind = call } }
        ensures below { below result ≡ disk }
        ensures clock_below { clock_below result ≡ (D.state disk).clock }
        ensures calls { (state_of result).clock ≡ 0 }
        ensures failures { (state_of result).failures ≡ 0 }
        ensures same { ShowsSame (D.state disk) (state_of result) }
    {
        FailingDisk::over(disk, call.saturating_sub(1), call)
    }
}

impl<D: RunDisk, W> FailingDisk<D, W> {
    ghost use Rattle.run_disk.specs.FailingDisks.{below, calls_cut, clock_below, moment_below};
    ghost use Rattle.run_disk.specs.FailingDisks.{PassesNext, state_of};

    /// Makes a disk over this one that fails the calls from `first` up to the one before `behind`.
    fn over(disk: D, first: u64, behind: u64) -> FailingDisk<D, W>
        requires { first ≤ behind }
        ensures cut { calls_cut result ≡ record { first = first; behind = behind } }
        ensures below { below result ≡ disk }
        ensures clock_below { clock_below result ≡ (D.state disk).clock }
        ensures calls { (state_of result).clock ≡ 0 }
        ensures failures { (state_of result).failures ≡ 0 }
        ensures same { ShowsSame (D.state disk) (state_of result) }
    {
        FailingDisk {
            made: Snapshot::of(&disk),
            disk,
            first,
            behind,
            tally: Tally::new(),
            which: PhantomData,
        }
    }

    /// Returns the disk below.
    pub fn into_inner(self) -> D
        ensures below { result ≡ below self }
        ensures same { ShowsSame (state_of self) (D.state result) }
        ensures since { LeftSame (moment_below self) (state_of self) (D.state result) }
    {
        self.disk
    }

    /// Returns whether the disk passes the next call on.
    fn passes_next(&self) -> bool
        ensures passes { OnTrue result (PassesNext self.now) }
        ensures fails { OnFalse result (PassesNext self.now → ⊥) }
    {
        !self.tally.is_spent() && (self.tally.calls < self.first || self.behind <= self.tally.calls)
    }
}

impl<D: RunDisk, W> RunDisk for FailingDisk<D, W> {
    ghost use Rattle.run_disk.specs.FailingDisks.{below, calls_cut, clock_below, state_of};
    ghost use Rattle.run_disk.specs.FailingDisks.{IsSetAs, PassesNext};

    ghost state = { λ f. state_of f };

    ghost is_disk = { λ f. over_is_disk (calls_cut f) (clock_below f) (D.state f.disk)
        f.tally.calls f.tally.failures (D.is_disk f.disk) f.kept };

    fn size(&self) -> u64 {
        self.disk.size()
    }

    fn read_at(&mut self, at: u64, out: &mut [u8]) -> Result<(), DiskFailed>
        requires { at + length out.old ≤ (state_of self.old).size }
        ensures call { Calls (state_of self.old) (state_of self.new) result }
        ensures reads { (state_of self.old).honest → Reads (state_of self.old) (state_of self.new) }
        ensures bytes { (state_of self.old).honest
            → OnOk result (out.new ≡ slice_range (state_of self.old).now at (at + length out.old)) }
        ensures relays { Relays D.state (PassesNext self.old)
            (below self.old) (below self.new) result }
        ensures same { IsSetAs self.old self.new }
    {
        if !self.passes_next() {
            return Err(self.tally.refuse());
        }
        let done = self.disk.read_at(at, out);
        self.tally.count(done)
    }

    fn write_at(&mut self, at: u64, bytes: &[u8]) -> Result<(), DiskFailed>
        requires { at + length bytes.now ≤ (state_of self.old).size }
        ensures call { Calls (state_of self.old) (state_of self.new) result }
        ensures writes { (state_of self.old).honest
            → Writes at bytes.now (state_of self.old) (state_of self.new) result }
        ensures relays { Relays D.state (PassesNext self.old)
            (below self.old) (below self.new) result }
        ensures same { IsSetAs self.old self.new }
        ensures nothing { (state_of self.old).honest → bytes.now ≡ []
            → (x : List ℕ) → (state_of self.new).images x → (state_of self.old).images x }
    {
        if !self.passes_next() {
            // the disk below stays as it is, even if there is nothing to write
            return Err(self.tally.refuse());
        }
        let done = self.disk.write_at(at, bytes);
        self.tally.count(done)
    }

    fn sync(&mut self) -> Result<(), DiskFailed>
        ensures call { Calls (state_of self.old) (state_of self.new) result }
        ensures syncs { (state_of self.old).honest
            → Syncs (state_of self.old) (state_of self.new) result }
        ensures relays { Relays D.state (PassesNext self.old)
            (below self.old) (below self.new) result }
        ensures same { IsSetAs self.old self.new }
    {
        if !self.passes_next() {
            return Err(self.tally.refuse());
        }
        let done = self.disk.sync();
        self.tally.count(done)
    }
}
