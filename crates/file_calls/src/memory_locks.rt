//! [`MemoryLocks`] are locks in memory, for tests.

ghost use Rattle.std.specs.Prelude.{◌≡◌, [], ⊤, IfOk, OnErr};
ghost use Rattle.std.specs.Bool.{OnFalse, OnTrue};
ghost use Rattle.std.specs.List.{list_any};
ghost use Rattle.file_calls.specs.Locks.{IsBusy, Takes, excludes, without};

use crate::locks::{FileLocks, Lock};
use crate::memory_folders::MemoryNumber;
use crate::open_files::CallFailed;
use std::alloc::Global;

/// The locks that are held. A call fails if memory for it is refused. A file of a
/// [`crate::MemoryFolder`] has one opening, whose number is the file's. Other openings, as of other
/// programs, ask by [`MemoryLocks::ask`].
#[derive(Drop)]
pub struct MemoryLocks {
    held: Vec<Lock>,
}

impl MemoryLocks {
    /// Returns no locks.
    pub fn new(alloc: Global) -> MemoryLocks
        ensures { ⟦<MemoryLocks as FileLocks>⟧.held result ≡ [] }
    {
        MemoryLocks {
            held: Vec::new(alloc),
        }
    }

    /// Takes this lock, and returns whether it was free.
    pub fn ask(&mut self, lock: Lock) -> Result<bool, CallFailed>
        ensures free { IfOk result (λ is_free. OnTrue is_free
            (Takes lock self.old.held.items self.new.held.items)) }
        ensures busy { IfOk result (λ is_free. OnFalse is_free
            (IsBusy lock self.old.held.items self.new.held.items)) }
        ensures failed { OnErr result (self.new.held.items ≡ self.old.held.items) }
    {
        if is_excluded(&self.held, lock) {
            return Ok(false);
        }
        match self.held.push(lock) {
            Ok(()) => Ok(true),
            Err(_) => Err(CallFailed),
        }
    }

    /// Gives back the locks of the opening with this number.
    pub fn give_back(&mut self, holder: u64)
        ensures { self.new.held.items ≡ without holder self.old.held.items }
    {
        self.held.retain(|lock| lock.holder != holder);
    }
}

impl FileLocks for MemoryLocks {
    type File = MemoryNumber;

    type Error = CallFailed;

    ghost lock = { λ file is_alone.
        record { file = file.0; holder = file.0; is_alone = is_alone } };

    ghost held = { λ locks. locks.held.items };

    ghost keeps = { λ locks. ⊤ };

    ghost refuses = { λ locks lock error. ⊤ };

    fn try_lock(&mut self, file: &MemoryNumber) -> Result<bool, CallFailed> {
        self.ask(lock_of(*file, true))
    }

    fn try_lock_shared(&mut self, file: &MemoryNumber) -> Result<bool, CallFailed> {
        self.ask(lock_of(*file, false))
    }

    fn close(&mut self, file: MemoryNumber) {
        self.give_back(file.number());
    }
}

/// The lock that the opening of a file may hold.
fn lock_of(file: MemoryNumber, is_alone: bool) -> Lock
    ensures file { result.file ≡ file.0 }
    ensures holder { result.holder ≡ file.0 }
    ensures alone { result.is_alone ≡ is_alone }
{
    Lock {
        file: file.number(),
        holder: file.number(),
        is_alone,
    }
}

/// Returns whether a lock can't be taken while these are held.
fn is_excluded(held: &[Lock], lock: Lock) -> bool
    ensures { result ≡ list_any (excludes lock) held.now }
{
    held.iter().any(|held| is_excluding(lock, *held))
}

/// Returns whether a lock can't be taken while the other one is held.
fn is_excluding(lock: Lock, held: Lock) -> bool
    ensures { result ≡ excludes lock held }
{
    held.file == lock.file && (lock.is_alone || held.is_alone)
}
