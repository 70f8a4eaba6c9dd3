//! A [`MarkedDisk`] is a disk over an open file. It keeps the file's first error, and leaves the
//! store's mark if a sync fails, and while a sync opens the gate of a slot.

ghost use Rattle.std.specs.Prelude.{◌≡◌, ◌↔◌, length, IfOk, OnErr};
ghost use Rattle.std.specs.String.{string_bytes};
ghost use Rattle.file_calls.specs.Folders.{ToCreate};
ghost use Rattle.file_calls.specs.OpenFiles.{IsIntact};
ghost use Rattle.file_disk.specs.FileDisks.{is_file_disk};
ghost use Rattle.run_disk.specs.Calls.{Calls, Syncs};
ghost use Rattle.run_disk.specs.Disk.{IsAtRest};
ghost use Rattle.store_replacement.specs.Marks.{IsMarked};

use crate::error_cells::ErrorCell;
use crate::marks::Mark;
use file_calls::{Folder, Inode, OpenFile};
use file_disk::FileDisk;
use run_disk::{DiskFailed, OPEN, RunDisk};
use std::io;
use store_files::FileError;
use store_replacement::has_no_sync;

/// A store's slots are the first two of three equal parts.
const PARTS: u64 = 3;

/// A disk over an open file, and honest where the [`FileDisk`] is. It notes the error of the first
/// call that fails, for whoever opened the file. If a sync fails, it leaves the store's mark before
/// anything else is done. The mark also exists while a sync opens a slot: if the program is killed
/// in the meantime, it never learns that the sync failed, and the system reports that to nobody
/// else.
#[derive(Drop)]
pub struct MarkedDisk<'a, C, F: OpenFile> {
    disk: FileDisk<F>,
    inode: Inode,
    mark: Mark<C>,
    // the gate of a slot was written open, and not synced yet
    opens_slot: bool,
    error_cell: &'a ErrorCell,
}

impl<'a, C: Folder<Error = io::Error> + Drop, F: OpenFile<Error = io::Error> + Drop> MarkedDisk<
    'a,
    C,
    F,
> {
    pub fn new(
        disk: FileDisk<F>,
        inode: Inode,
        mark: Mark<C>,
        error_cell: &'a ErrorCell,
    ) -> MarkedDisk<'a, C, F>
        ensures disk { result.disk ≡ disk }
        ensures mark { result.mark ≡ mark }
    {
        MarkedDisk {
            disk,
            inode,
            mark,
            opens_slot: false,
            error_cell,
        }
    }

    /// The identity of the file.
    pub fn inode(&self) -> Inode {
        self.inode
    }

    /// Removes the store's mark, because the whole file was written again and synced.
    pub fn clear_mark(&mut self)
        ensures { self.new.disk ≡ self.old.disk }
    {
        self.mark.remove();
    }

    /// Returns whether a write of these bytes opens a slot.
    fn is_opening(&self, at: u64, bytes: &[u8]) -> bool {
        let is_gate = at == 0 || at == self.disk.size() / PARTS;
        is_gate && bytes.len() == 1 && bytes[0] == OPEN
    }

    /// Notes the error of a call that failed, and returns its result.
    fn noted(&self, done: Result<(), DiskFailed>) -> Result<(), DiskFailed>
        ensures { result ≡ done }
    {
        if done.is_err()
            && let Some(error) = self.disk.error()
        {
            self.error_cell.note(error);
        }
        done
    }
}

impl<C: Folder<Error = io::Error> + Drop, F: OpenFile<Error = io::Error> + Drop> RunDisk
    for MarkedDisk<'_, C, F> {
    ghost state = { λ d. ⟦<FileDisk<F> as RunDisk>⟧.state d.disk };

    ghost is_disk = { λ d. is_file_disk (F.keeps d.disk.file) (F.state d.disk.made.value)
        (F.state d.disk.file) (length (F.past d.disk.made.value)) (F.past d.disk.file) d.disk.size
        d.disk.counts.calls d.disk.counts.failures d.disk.kept };

    fn size(&self) -> u64 {
        self.disk.size()
    }

    fn read_at(&mut self, at: u64, out: &mut [u8]) -> Result<(), DiskFailed> {
        let done = self.disk.read_at(at, out);
        self.noted(done)
    }

    fn write_at(&mut self, at: u64, bytes: &[u8]) -> Result<(), DiskFailed> {
        self.opens_slot = self.opens_slot || self.is_opening(at, bytes);
        let done = self.disk.write_at(at, bytes);
        self.noted(done)
    }

    fn sync(&mut self) -> Result<(), DiskFailed>
        ensures call { Calls (⟦<FileDisk<F> as RunDisk>⟧.state self.old.disk)
            (⟦<FileDisk<F> as RunDisk>⟧.state self.new.disk) result }
        ensures syncs { (⟦<FileDisk<F> as RunDisk>⟧.state self.old.disk).honest
            → Syncs (⟦<FileDisk<F> as RunDisk>⟧.state self.old.disk)
            (⟦<FileDisk<F> as RunDisk>⟧.state self.new.disk) result }
        ensures kept { C.keeps self.old.mark.folder → C.keeps self.new.mark.folder }
        ensures name { self.new.mark.name ≡ self.old.mark.name }
        ensures marked { C.keeps self.old.mark.folder → OnErr result
            (IsMarked (C.refuses self.new.mark.folder (ToCreate (string_bytes self.old.mark.name)))
            (string_bytes self.old.mark.name) (C.state self.new.mark.folder)) }
    {
        let is_left = self.opens_slot && self.mark.leave();
        let done = self.disk.sync();
        if done.is_err() {
            self.mark.leave();
        } else {
            self.opens_slot = false;
            if is_left {
                self.mark.remove();
            }
        }
        self.noted(done)
    }
}

/// A disk over a file that is synced first, under the mark of its store, which stays if the sync
/// fails.
pub fn settle<C: Folder<Error = io::Error> + Drop, F: OpenFile<Error = io::Error> + Drop>(
    mark: &mut Mark<C>,
    file: F,
) -> Result<FileDisk<F>, FileError>
    ensures kept { C.keeps mark.old.folder → C.keeps mark.new.folder }
    ensures name { mark.new.name ≡ mark.old.name }
    ensures marked { C.keeps mark.old.folder → OnErr result
        (IsMarked (C.refuses mark.new.folder (ToCreate (string_bytes mark.old.name)))
        (string_bytes mark.old.name) (C.state mark.new.folder)) }
    ensures honest { IfOk result (λ d. (⟦<FileDisk<F> as RunDisk>⟧.state d).honest
        ↔ (F.keeps file × IsIntact (F.state file))) }
    ensures rest { IfOk result (λ d. (⟦<FileDisk<F> as RunDisk>⟧.state d).honest
        → IsAtRest (⟦<FileDisk<F> as RunDisk>⟧.state d)) }
{
    let is_left = mark.leave();
    match FileDisk::settled(file) {
        Ok(disk) => {
            if is_left {
                mark.remove();
            }
            Ok(disk)
        }
        Err(error) => {
            mark.leave();
            Err(FileError::of(&error))
        }
    }
}

/// Syncs a file that is only read, if its mark can be left first. The system reports a failed sync
/// once, so without a mark the next program would never learn of it. A mark that was left before
/// stays, and nothing is synced.
pub fn settle_under<C: Folder<Error = io::Error> + Drop, F: OpenFile<Error = io::Error>>(
    mark: &mut Mark<C>,
    file: &mut F,
) -> Result<(), FileError>
    ensures kept { C.keeps mark.old.folder → C.keeps mark.new.folder }
    ensures name { mark.new.name ≡ mark.old.name }
    ensures marked { C.keeps mark.old.folder → OnErr result
        (IsMarked (C.refuses mark.new.folder (ToCreate (string_bytes mark.old.name)))
        (string_bytes mark.old.name) (C.state mark.new.folder)) }
{
    if !mark.leave() {
        return Ok(());
    }
    match file.sync() {
        Err(error) if !has_no_sync(error.kind()) => Err(FileError::of(&error)),
        _ => {
            mark.remove();
            Ok(())
        }
    }
}
