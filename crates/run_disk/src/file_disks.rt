//! A [`FileDisk`] is a disk over a file.
//!
//! Nothing is known here about the bytes of a file. So such a disk isn't called honest: its
//! contracts promise only its size, its counts, and that no call panics. A program that relies on
//! such a disk has to assume that nobody else writes to the file, and that the file behaves like a
//! disk.
//!
//! A Linux file behaves like a disk only until a sync of it fails. After that the system treats the
//! pages that it couldn't write as if they were written: reads still return them, a later sync
//! succeeds without writing them, and a power failure loses them. From then on, the only safe use
//! of such a file is to copy it.

ghost use Rattle.std.specs.Prelude.{◌≡◌, IfOk, is_ok};
ghost use Rattle.run_disk.specs.Files.{IsFileDisk, file_state, is_file_disk};

use crate::disks::{DiskFailed, RunDisk};
use crate::tallies::Tally;
use std::fs::File;
use std::io;
use std::os::unix::fs::FileExt;

/// A disk over a file. It has the size that the file had when the disk was made. If a call of the
/// file fails, or a read or a write isn't complete, the device has failed.
#[derive(Drop)]
pub struct FileDisk {
    file: File,
    size: u64,
    tally: Tally,
    // what the system reported of the first call that failed
    error: Option<io::Error>,
    ghost kept: { IsFileDisk size tally.calls tally.failures },
}

impl FileDisk {
    /// Makes a disk over this file, which must be open for reading and writing. If it is open for
    /// reading only, each write fails. The file is synced first, in a call that isn't counted. So
    /// whatever another program left in the system's memory is on the device before any of it is
    /// read. `DiskFailed` if the sync fails, or if the system doesn't return the file's size.
    ///
    /// The sync doesn't help if an earlier sync of the file failed, in whichever program. Then open
    /// a copy of the file in its place: what is written to a new file is on the device once a sync
    /// of it has succeeded.
    pub fn new(file: File) -> Result<FileDisk, DiskFailed>
        ensures calls { IfOk result (λ d. (⟦<FileDisk as RunDisk>⟧.state d).clock ≡ 0) }
        ensures failures { IfOk result (λ d. (⟦<FileDisk as RunDisk>⟧.state d).failures ≡ 0) }
    {
        match FileDisk::settled(file) {
            Ok(disk) => Ok(disk),
            Err(_) => Err(DiskFailed),
        }
    }

    /// Does the same as [`FileDisk::new`], but returns the system's error.
    pub fn settled(file: File) -> io::Result<FileDisk>
        ensures calls { IfOk result (λ d. (⟦<FileDisk as RunDisk>⟧.state d).clock ≡ 0) }
        ensures failures { IfOk result (λ d. (⟦<FileDisk as RunDisk>⟧.state d).failures ≡ 0) }
    {
        file.sync_data()?;
        FileDisk::unsettled(file)
    }

    /// Makes a disk over this file without a sync. Reads may return bytes that another program left
    /// in the system's memory, and a power failure would lose these bytes. The error is the
    /// system's, if it doesn't return the file's size.
    pub fn unsettled(file: File) -> io::Result<FileDisk>
        ensures calls { IfOk result (λ d. (⟦<FileDisk as RunDisk>⟧.state d).clock ≡ 0) }
        ensures failures { IfOk result (λ d. (⟦<FileDisk as RunDisk>⟧.state d).failures ≡ 0) }
    {
        let metadata = file.metadata()?;
        Ok(FileDisk {
            size: metadata.len(),
            file,
            tally: Tally::new(),
            error: None,
        })
    }

    /// Returns the system's error for the first call that failed, if one did.
    pub fn error(&self) -> Option<&io::Error> {
        self.error.as_ref()
    }
}

impl RunDisk for FileDisk {
    ghost state = { λ d. file_state d.size d.tally.calls d.tally.failures };

    ghost is_disk = { λ d. is_file_disk d.size d.tally.calls d.tally.failures d.kept };

    fn size(&self) -> u64 {
        self.size
    }

    fn read_at(&mut self, at: u64, out: &mut [u8]) -> Result<(), DiskFailed> {
        if self.tally.is_spent() {
            return Err(DiskFailed);
        }
        let done = or_failed(self.file.read_exact_at(out, at), &mut self.error);
        self.tally.count(done)
    }

    fn write_at(&mut self, at: u64, bytes: &[u8]) -> Result<(), DiskFailed> {
        if self.tally.is_spent() {
            return Err(DiskFailed);
        }
        let done = or_failed(self.file.write_all_at(bytes, at), &mut self.error);
        self.tally.count(done)
    }

    fn sync(&mut self) -> Result<(), DiskFailed> {
        if self.tally.is_spent() {
            return Err(DiskFailed);
        }
        let done = or_failed(self.file.sync_data(), &mut self.error);
        self.tally.count(done)
    }
}

/// Returns `DiskFailed` for an error of the system, and keeps the first such error.
fn or_failed(done: io::Result<()>, first: &mut Option<io::Error>) -> Result<(), DiskFailed>
    ensures { is_ok result ≡ is_ok done }
{
    match done {
        Ok(()) => Ok(()),
        Err(error) => {
            if first.is_none() {
                *first = Some(error);
            }
            Err(DiskFailed)
        }
    }
}
