//! A [`MemoryDisk`] is a disk in memory. It remembers the bytes with which it began, and each write
//! and sync since then. From these it computes what a read returns, and what a crash after any of
//! its calls leaves.

ghost use Rattle.std.specs.Prelude.{◌≡◌, ◌≤◌, ◌+◌, length, slice_range, IfOk, IfErr, OnOk, OnErr};
ghost use Rattle.std.specs.List.{All};
ghost use Rattle.run_model.specs.declared.faults.Fault.TheVariants.{Memory};
ghost use Rattle.run_disk.specs.Calls.{Calls, Reads, Syncs, Writes};
ghost use Rattle.run_disk.specs.Disk.{Begins, last_moment};
ghost use Rattle.run_disk.specs.Writes.{and_sync, and_write, beginning};
ghost use Rattle.run_disk.specs.History.{IsTornImage, IsImage};
ghost use Rattle.run_disk.specs.Memory.{IsKept, is_memory_disk};

use crate::disks::{DiskFailed, RunDisk};
use crate::histories::History;
use crate::tallies::Tally;
use crate::tears::Torn;
use run_model::Fault;
use std::alloc::{Allocator, Global};

/// A disk in memory, which is honest. If memory for a write or a sync is refused, the call fails
/// and is counted, but changes neither the bytes nor what a crash may leave. The cost of a read
/// grows with the number of writes so far.
#[derive(Drop)]
pub struct MemoryDisk<A: Allocator = Global> {
    history: History<A>,
    tally: Tally,
    ghost kept: { IsKept history tally.calls tally.failures },
}

impl<A: Allocator + Copy> MemoryDisk<A> {
    ghost use Rattle.run_disk.specs.MemoryDisks.{history_of};

    /// Makes a disk at rest with `size` zero bytes. The only fault is `Memory`.
    pub fn new(alloc: A, size: usize) -> Result<MemoryDisk<A>, Fault>
        ensures begins { IfOk result (λ disk.
            let state = ⟦<MemoryDisk<A> as RunDisk>⟧.state disk in Begins state.now state) }
        ensures size { IfOk result (λ disk.
            (⟦<MemoryDisk<A> as RunDisk>⟧.state disk).size ≡ size) }
        ensures zero { IfOk result (λ disk.
            All (λ byte. byte ≡ 0) (⟦<MemoryDisk<A> as RunDisk>⟧.state disk).now) }
        ensures history { IfOk result (λ disk.
            history_of disk ≡ beginning (⟦<MemoryDisk<A> as RunDisk>⟧.state disk).now) }
        ensures fault { IfErr result (λ fault. fault ≡ Memory) }
    {
        Ok(MemoryDisk {
            history: History::new(alloc, Vec::new(alloc), size),
            tally: Tally::new(),
        })
    }

    /// Makes a disk at rest with these bytes. The only fault is `Memory`.
    pub fn from_bytes(alloc: A, bytes: Vec<u8, A>) -> Result<MemoryDisk<A>, Fault>
        ensures begins { IfOk result (λ disk.
            Begins bytes.items (⟦<MemoryDisk<A> as RunDisk>⟧.state disk)) }
        ensures history { IfOk result (λ disk. history_of disk ≡ beginning bytes.items) }
        ensures fault { IfErr result (λ fault. fault ≡ Memory) }
    {
        let size = bytes.len();
        Ok(MemoryDisk {
            history: History::new(alloc, bytes, size),
            tally: Tally::new(),
        })
    }

    /// Returns the number of reads, writes and syncs so far, including those that failed.
    pub fn calls(&self) -> u64
        ensures { result ≡ (⟦<MemoryDisk<A> as RunDisk>⟧.state self.now).clock }
    {
        self.tally.calls
    }

    /// Returns what a crash after the first `after_calls` calls leaves, if it tears each unsynced
    /// write in this way. `after_calls` must be at most [`calls`](MemoryDisk::calls). The result is
    /// one of the contents that a crash at that moment might have left. The call copies the disk
    /// once, and searches for a sync after each write. `Memory` if the memory for the copy is
    /// refused.
    pub fn image(&self, alloc: A, after_calls: u64, torn: Torn) -> Result<Vec<u8, A>, Fault>
        requires { after_calls ≤ (⟦<MemoryDisk<A> as RunDisk>⟧.state self.now).clock }
        ensures bytes { IfOk result (λ image.
            IsTornImage torn (history_of self.now) after_calls image.items) }
        ensures image { IfOk result (λ image.
            IsImage (history_of self.now) after_calls image.items) }
        ensures since { IfOk result (λ image.
            (⟦<MemoryDisk<A> as RunDisk>⟧.state self.now).since after_calls image.items) }
        ensures size { IfOk result (λ image.
            length image.items ≡ (⟦<MemoryDisk<A> as RunDisk>⟧.state self.now).size) }
        ensures fault { IfErr result (λ fault. fault ≡ Memory) }
    {
        match self.history.image(alloc, after_calls, torn) {
            Ok(image) => Ok(image),
            Err(_) => Err(Fault::Memory),
        }
    }
}

impl<A: Allocator + Copy> RunDisk for MemoryDisk<A> {
    ghost use Rattle.run_disk.specs.MemoryDisks.{history_of, state_of};

    ghost state = { λ d. state_of d };

    ghost is_disk = { λ d.
        is_memory_disk d.history d.tally.calls d.tally.failures d.kept };

    fn size(&self) -> u64 {
        self.history.size() as u64
    }

    fn read_at(&mut self, at: u64, out: &mut [u8]) -> Result<(), DiskFailed>
        requires { at + length out.old ≤ (state_of self.old).size }
        ensures call { Calls (state_of self.old) (state_of self.new) result }
        ensures reads { (state_of self.old).honest → Reads (state_of self.old) (state_of self.new) }
        ensures bytes { (state_of self.old).honest
            → OnOk result (out.new ≡ slice_range (state_of self.old).now at (at + length out.old)) }
        ensures history { history_of self.new ≡ history_of self.old }
        ensures spent { OnErr result ((state_of self.old).clock ≡ last_moment) }
    {
        if self.tally.is_spent() {
            return Err(DiskFailed);
        }
        self.history.read(self.tally.calls, at as usize, out);
        self.tally.pass();
        Ok(())
    }

    fn write_at(&mut self, at: u64, bytes: &[u8]) -> Result<(), DiskFailed>
        requires { at + length bytes.now ≤ (state_of self.old).size }
        ensures call { Calls (state_of self.old) (state_of self.new) result }
        ensures writes { (state_of self.old).honest
            → Writes at bytes.now (state_of self.old) (state_of self.new) result }
        ensures kept { OnOk result (history_of self.new ≡ and_write (history_of self.old)
            (record { moment = (state_of self.old).clock; at = at; bytes = bytes.now })) }
        ensures same { OnErr result (history_of self.new ≡ history_of self.old) }
    {
        if self.tally.is_spent() {
            return Err(DiskFailed);
        }
        let at = at as usize;
        match self.history.keep_write(self.tally.calls, at, bytes) {
            Ok(()) => {
                self.tally.pass();
                Ok(())
            }
            Err(_) => Err(self.tally.fail()),
        }
    }

    fn sync(&mut self) -> Result<(), DiskFailed>
        ensures call { Calls (state_of self.old) (state_of self.new) result }
        ensures syncs { (state_of self.old).honest
            → Syncs (state_of self.old) (state_of self.new) result }
        ensures kept { OnOk result (history_of self.new
            ≡ and_sync (history_of self.old) (state_of self.old).clock) }
        ensures same { OnErr result (history_of self.new ≡ history_of self.old) }
    {
        if self.tally.is_spent() {
            return Err(DiskFailed);
        }
        match self.history.keep_sync(self.tally.calls) {
            Ok(()) => {
                self.tally.pass();
                Ok(())
            }
            Err(_) => Err(self.tally.fail()),
        }
    }
}
