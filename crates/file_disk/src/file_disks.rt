//! A [`FileDisk`] is a disk over an open file.
//!
//! It is honest if the file keeps the clauses of [`OpenFile`], if nothing of the file was lost when
//! the disk was made, and if a crash then left its size. A sync that failed before has lost what it
//! should have written. From then on, the only safe use of such a file is to copy it.

ghost use Rattle.std.specs.Prelude.{◌≡◌, ◌↔◌, ℕ, List, IfOk, length};
ghost use Rattle.file_calls.specs.OpenFiles.{IsAtRest as FileIsAtRest, IsIntact, MayLeave};
ghost use Rattle.run_disk.specs.Disk.{IsAtRest};
ghost use Rattle.file_disk.specs.FileDisks.{IsHonest, IsKept, disk_state, is_file_disk};

use crate::call_counts::CallCounts;
use file_calls::OpenFile;
use run_disk::{DiskFailed, RunDisk};
use std::snapshot::Snapshot;

/// A disk over an open file. It has the size that the file had when the disk was made. If a call of
/// the file fails, the device has failed, and no further call is made: each one fails.
#[derive(Drop)]
pub struct FileDisk<F: OpenFile> {
    file: F,
    // the file when the disk was made
    made: Snapshot<F>,
    size: u64,
    counts: CallCounts<F::Error>,
    ghost kept: { IsKept (F.keeps file) (F.state made.value) (F.state file)
        (length (F.past made.value)) (F.past file) size counts.calls counts.failures },
}

impl<F: OpenFile + Drop> FileDisk<F> {
    /// Makes a disk over this file. The file is synced first, in a call that isn't counted. So
    /// whatever another program left in the system's memory is on the device before any of it is
    /// read. The error is that of the sync, or of the question for the file's size.
    pub fn settled(file: F) -> Result<FileDisk<F>, F::Error>
        ensures calls { IfOk result (λ d. (⟦<FileDisk<F> as RunDisk>⟧.state d).clock ≡ 0) }
        ensures failures { IfOk result (λ d. (⟦<FileDisk<F> as RunDisk>⟧.state d).failures ≡ 0) }
        ensures honest { IfOk result (λ d. (⟦<FileDisk<F> as RunDisk>⟧.state d).honest
            ↔ (F.keeps file × IsIntact (F.state file))) }
        ensures rest { IfOk result (λ d. (⟦<FileDisk<F> as RunDisk>⟧.state d).honest
            → IsAtRest (⟦<FileDisk<F> as RunDisk>⟧.state d)) }
        ensures same { IfOk result (λ d. F.keeps file
            → (⟦<FileDisk<F> as RunDisk>⟧.state d).now ≡ (F.state file).now) }
    {
        let mut file = file;
        file.sync()?;
        FileDisk::unsettled(file)
    }

    /// Makes a disk over this file without a sync. Reads may return bytes that another program left
    /// in the system's memory, and a power failure would lose these bytes. The error is that of the
    /// question for the file's size.
    pub fn unsettled(file: F) -> Result<FileDisk<F>, F::Error>
        ensures calls { IfOk result (λ d. (⟦<FileDisk<F> as RunDisk>⟧.state d).clock ≡ 0) }
        ensures failures { IfOk result (λ d. (⟦<FileDisk<F> as RunDisk>⟧.state d).failures ≡ 0) }
        ensures honest { IfOk result (λ d. (⟦<FileDisk<F> as RunDisk>⟧.state d).honest
            ↔ IsHonest (F.keeps file) (F.state file)) }
        ensures rest { IfOk result (λ d. (⟦<FileDisk<F> as RunDisk>⟧.state d).honest
            → FileIsAtRest (F.state file) → IsAtRest (⟦<FileDisk<F> as RunDisk>⟧.state d)) }
        ensures same { IfOk result (λ d. F.keeps file
            → (⟦<FileDisk<F> as RunDisk>⟧.state d).now ≡ (F.state file).now) }
    {
        let mut file = file;
        let size = file.size()?;
        Ok(FileDisk {
            made: Snapshot::of(&file),
            file,
            size,
            counts: CallCounts::new(),
        })
    }

    /// Returns the file. A crash may leave of it what it may leave of the disk.
    pub fn into_inner(self) -> F
        ensures keeps { (⟦<FileDisk<F> as RunDisk>⟧.state self).honest → F.keeps result }
        ensures now { (F.state result).now ≡ (⟦<FileDisk<F> as RunDisk>⟧.state self).now }
        ensures leaves { (⟦<FileDisk<F> as RunDisk>⟧.state self).honest → (x : List ℕ)
            → MayLeave (F.state result) x ↔ (⟦<FileDisk<F> as RunDisk>⟧.state self).images x }
    {
        self.file
    }

    /// Returns the error of the first call that failed, if one did.
    pub fn error(&self) -> Option<&F::Error> {
        self.counts.error.as_ref()
    }
}

impl<F: OpenFile> RunDisk for FileDisk<F> {
    ghost state = { λ d. disk_state (F.keeps d.file) (F.state d.made.value) (F.state d.file)
        (length (F.past d.made.value)) (F.past d.file) d.size d.counts.calls d.counts.failures };

    ghost is_disk = { λ d. is_file_disk (F.keeps d.file) (F.state d.made.value) (F.state d.file)
        (length (F.past d.made.value)) (F.past d.file) d.size d.counts.calls d.counts.failures
        d.kept };

    fn size(&self) -> u64 {
        self.size
    }

    fn read_at(&mut self, at: u64, out: &mut [u8]) -> Result<(), DiskFailed> {
        if self.counts.is_stopped() {
            return Err(self.counts.refuse());
        }
        let done = self.file.read_at(at, out);
        self.counts.count(done)
    }

    fn write_at(&mut self, at: u64, bytes: &[u8]) -> Result<(), DiskFailed> {
        if self.counts.is_stopped() {
            return Err(self.counts.refuse());
        }
        let done = self.file.write_at(at, bytes);
        self.counts.count(done)
    }

    fn sync(&mut self) -> Result<(), DiskFailed> {
        if self.counts.is_stopped() {
            return Err(self.counts.refuse());
        }
        let done = self.file.sync();
        self.counts.count(done)
    }
}
