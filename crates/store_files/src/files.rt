//! [`Files`] is the trait of files that hold stores, and [`FirstError`] is the first error of one.

ghost use Rattle.std.specs.Prelude.{◌≡◌, ◌⊎◌, ◌+◌, Option, length, slice_range, true};
ghost use Rattle.std.specs.Prelude.{IfErr, IfOk, OnOk};
ghost use Rattle.run_disk.specs.Calls.{Calls, Reads};
ghost use Rattle.store_files.specs.declared.file_errors.FileError.{FileError as Error};
ghost use Rattle.store_files.specs.Files.{AreNoted, FilesView, IsFilled, IsKept, IsReplaced};
ghost use Rattle.store_files.specs.Files.{IsSettled};
ghost use Rattle.store_files.specs.Files.{ToLook, ToMake, ToOpen, ToRead, ToReplace};

use crate::file_errors::FileError;
use run_disk::{DiskFailed, RunDisk};

/// The ending that is added to the name of a store to get the name of the file beside it.
pub const BESIDE: &str = ".renewing";

/// The first error of a file. It can be read even after the file's disk is gone.
pub trait FirstError {
    /// Which error it may be; `None` if no call has failed.
    ghost notes: { Self → Option Error → Type 0 };

    /// The error of the first call that failed; `None` if none did.
    fn first_error(&self) -> Option<FileError>
        ensures { notes self.now result };
}

/// An open file: a disk, and the first error of its calls.
#[derive(Drop)]
pub struct Opened<D: Drop, Y: Drop> {
    pub disk: D,
    pub why: Y,
}

/// A file that was just made, and whether no file had its name before.
#[derive(Drop)]
pub struct Made<D: Drop, Y: Drop> {
    pub disk: D,
    pub why: Y,
    pub is_new: bool,
}

/// The files that hold stores. Each is known by its name. An open file is a disk. If it is honest,
/// it is at rest when it is opened, whatever wrote to the file before. Whoever opened or made a
/// file gives it back by `close`, unless the file is removed or renamed.
///
/// A file that is open for writing is locked. `InUse` means that another program holds the lock.
///
/// The program opens the system's files. A test may pass its own files, in memory.
pub trait Files {
    /// An open file.
    type Disk: RunDisk + Drop + Send;

    /// The first error of its calls.
    type FirstError: FirstError + Drop;

    /// What contracts see of the files.
    ghost seen: { FilesView Self Self.Disk };

    /// Opens the file of this name for reading and writing.
    fn open(&mut self, name: &str) -> Result<Opened<Self::Disk, Self::FirstError>, FileError>
        ensures opens { IfOk result (λ opened.
            seen.opens self.old name.now opened.disk self.new) }
        ensures settled { IfOk result (λ opened. IsSettled (Self.Disk.state opened.disk)) }
        ensures noted { IfOk result (λ opened. AreNoted (Self.FirstError.notes opened.why)
            (seen.notes opened.disk)) }
        ensures not { IfErr result (λ error.
            seen.refuses ToOpen self.old name.now error × (self.new ≡ self.old)) };

    /// Opens the file of this name for reading alone.
    fn open_to_read(
        &mut self,
        name: &str,
    ) -> Result<Opened<Self::Disk, Self::FirstError>, FileError>
        ensures shows { IfOk result (λ opened.
            seen.shows self.old name.now opened.disk self.new) }
        ensures settled { IfOk result (λ opened. IsSettled (Self.Disk.state opened.disk)) }
        ensures noted { IfOk result (λ opened. AreNoted (Self.FirstError.notes opened.why)
            (seen.notes opened.disk)) }
        ensures not { IfErr result (λ error.
            seen.refuses ToRead self.old name.now error × (self.new ≡ self.old)) };

    /// Opens the file of this name for reading alone, even if another program has it open.
    fn look(&mut self, name: &str) -> Result<Opened<Self::Disk, Self::FirstError>, FileError>
        ensures shows { IfOk result (λ opened.
            seen.shows self.old name.now opened.disk self.new) }
        ensures noted { IfOk result (λ opened. AreNoted (Self.FirstError.notes opened.why)
            (seen.notes opened.disk)) }
        ensures not { IfErr result (λ error.
            seen.refuses ToLook self.old name.now error × (self.new ≡ self.old)) };

    /// Gives back the file of this name, whose disk is left so. No call of the disk is made.
    fn close(&mut self, name: &str, disk: Self::Disk)
        ensures { seen.puts self.old name.now disk self.new };

    /// Waits for a moment, so that another program may write.
    fn pause(&self);

    /// Reads all bytes of a disk as they are at the moment, even if another program writes to it.
    fn read_all(&self, disk: &mut Self::Disk, out: &mut [u8]) -> Result<(), DiskFailed>
        requires { length out.old ≡ (Self.Disk.state disk.old).size }
        ensures gives { OnOk result (seen.gives disk.old out.new disk.new) }
        ensures call { Calls (Self.Disk.state disk.old) (Self.Disk.state disk.new) result }
        ensures reads { (Self.Disk.state disk.old).honest
            → Reads (Self.Disk.state disk.old) (Self.Disk.state disk.new) }
        ensures bytes { (Self.Disk.state disk.old).honest → OnOk result (out.new
            ≡ slice_range (Self.Disk.state disk.old).now 0 (0 + length out.old)) };

    /// Creates the file of this name, or empties it, and fills it with `size` zero bytes. After Ok
    /// a crash leaves the file its name (tested, not proved). After an error, a file that this call
    /// created is removed again, unless another program has opened it.
    fn create(
        &mut self,
        name: &str,
        size: u64,
    ) -> Result<Made<Self::Disk, Self::FirstError>, FileError>
        ensures put { IfOk result (λ made. seen.puts self.old name.now made.disk self.new) }
        ensures filled { IfOk result (λ made. IsFilled size (Self.Disk.state made.disk)) }
        ensures new { IfOk result (λ made. made.is_new ≡ true → seen.lacks self.old name.now) }
        ensures noted { IfOk result (λ made. AreNoted (Self.FirstError.notes made.why)
            (seen.notes made.disk)) }
        ensures not { IfErr result (λ error. seen.refuses ToMake self.old name.now error
            × seen.remakes self.old name.now self.new) };

    /// Like `create`, but fails if there is a file of this name. Before a byte is written, the new
    /// file gets the owner and the rights of the file `like`, if one is named.
    fn create_new(
        &mut self,
        name: &str,
        like: Option<&str>,
        size: u64,
    ) -> Result<Made<Self::Disk, Self::FirstError>, FileError>
        ensures put { IfOk result (λ made. seen.puts self.old name.now made.disk self.new) }
        ensures filled { IfOk result (λ made. IsFilled size (Self.Disk.state made.disk)) }
        ensures new { IfOk result (λ made. (made.is_new ≡ true) × seen.lacks self.old name.now) }
        ensures noted { IfOk result (λ made. AreNoted (Self.FirstError.notes made.why)
            (seen.notes made.disk)) }
        ensures not { IfErr result (λ error. seen.refuses ToMake self.old name.now error
            × ((self.new ≡ self.old) ⊎ seen.removes self.new name.now self.old)) };

    /// Renames the file `from`, which is `disk`, to `to`, the name of the file `over`, and closes
    /// both. At every moment `to` leads to one of the two files. After Ok, a power failure leaves
    /// it leading to `disk` (tested, not proved). `to` has to be the only name of `over`, and no
    /// link.
    fn replace(
        &mut self,
        disk: Self::Disk,
        over: Self::Disk,
        from: &str,
        to: &str,
    ) -> Result<(), FileError>
        requires settled { IsSettled (Self.Disk.state disk) }
        ensures done { OnOk result
            (IsReplaced seen disk from.now to.now self.old self.new) }
        ensures left { IfErr result (λ error. seen.refuses ToReplace self.old to.now error
            × (IsKept seen disk over from.now to.now self.old self.new
            ⊎ IsReplaced seen disk from.now to.now self.old self.new)) };

    /// Removes the file of this name, if the system lets it.
    fn remove(&mut self, name: &str)
        ensures { seen.removes self.old name.now self.new };
}
