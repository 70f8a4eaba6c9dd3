//! [`SystemFiles`] implements the trait [`Files`] for the system's files.

ghost use Rattle.std.specs.Prelude.{◌≡◌, ⊤, IfOk};
ghost use Rattle.store_files.specs.Files.{FilesView, IsFilled};

use crate::contents::fill;
use crate::disks::{MarkedDisk, settle, settle_under};
use crate::error_cells::ErrorCell;
use crate::marks::Mark;
use file_calls::{Folder, Inode, SystemFile, SystemFolder, SystemLocks};
use file_disk::FileDisk;
use run_disk::{DiskFailed, RunDisk};
use std::alloc::Global;
use std::fs::{File, Metadata, OpenOptions};
use std::os::unix::fs::{MetadataExt, fchown};
use std::path::PathBuf;
use std::time::{Clock, Duration};
use std::{fs, io, thread};
use store_files::{BESIDE, FileError, Files, Made, Opened};
use store_replacement::{
    lock_named, lock_shared, look_named, make_new, or_error, or_no_memory, or_uncopied, put,
    replace_by_copy, settle_names,
};

/// The file that reads as empty and takes every write.
const NULL: &str = "/dev/null";

/// The milliseconds of a pause.
const PAUSE: u64 = 10;

/// The first errors of a file that was opened, and of one that was created.
#[derive(Drop)]
pub struct ErrorCells {
    opened: ErrorCell,
    created: ErrorCell,
}

impl ErrorCells {
    pub fn new() -> ErrorCells {
        ErrorCells {
            opened: ErrorCell::new(),
            created: ErrorCell::new(),
        }
    }
}

/// The files of a system. No file of a store ever gets the descriptor of a standard stream: the
/// three descriptors are filled before the first file is opened, and stay so.
#[derive(Drop)]
pub struct SystemFiles<'a, S> {
    system: &'a S,
    alloc: Global,
    error_cells: &'a ErrorCells,
    streams: io::Result<[File; 3]>,
    // the file that was opened or created last: it stays locked when its disk is gone, so that it
    // is removed under its lock
    held: Option<File>,
}

impl<'a, S: fs::Files<File = File>> SystemFiles<'a, S> {
    /// Fills the descriptors of the standard streams that are closed.
    pub fn new(system: &'a S, alloc: Global, error_cells: &'a ErrorCells) -> Self {
        SystemFiles {
            system,
            alloc,
            error_cells,
            streams: filled(system),
            held: None,
        }
    }

    /// Makes sure that the standard streams are filled, and that this is no name of a pipe or of a
    /// device, which may not even be opened.
    fn admit(&self, name: &str) -> Result<(), FileError> {
        match &self.streams {
            Err(error) => Err(FileError::of_other(NULL, error)),
            Ok(_) if fs::metadata(self.system, name).is_ok_and(|it| is_special(&it)) => {
                Err(FileError::NotAFile)
            }
            Ok(_) => Ok(()),
        }
    }

    /// Opens the file of this name. The system refuses a folder.
    fn with(&self, how: &OpenOptions, name: &str) -> Result<File, FileError> {
        self.admit(name)?;
        let file = or_error(how.open(self.system, name))?;
        if or_error(file.metadata())?.is_file() {
            Ok(file)
        } else {
            Err(FileError::NotAFile)
        }
    }

    /// Opens the file of this name for reading alone. A folder is opened for writing, too, so that
    /// the system refuses it.
    fn with_reading(&self, name: &str) -> Result<File, FileError> {
        let is_folder = fs::metadata(self.system, name).is_ok_and(|it| it.is_dir());
        let mut how = OpenOptions::new();
        how.read(true).write(is_folder);
        self.with(&how, name)
    }

    /// Locks the file until it is closed, if the file system has locks. `InUse` if another program
    /// holds the lock, or the name no longer leads to this file.
    fn lock(&self, file: &File, name: &str) -> Result<(), FileError> {
        lock_named(&mut self.folder(), &mut SystemLocks, file, name)
    }

    /// Makes sure that the name leads to this file. `InUse` if not.
    fn look_at(&self, file: &File, name: &str) -> Result<(), FileError> {
        look_named(&mut self.folder(), file, name)
    }

    /// Keeps a file locked until another one is opened or created.
    fn hold(&mut self, file: &File) -> Result<(), FileError> {
        self.held = Some(or_error(file.try_clone())?);
        Ok(())
    }

    /// Removes the file of this name, if it is this one, and its mark, under its lock.
    fn take_away(&self, file: &File, name: &str) {
        if self.look_at(file, name).is_ok() {
            let mark = self.mark_of(name);
            let _gone = fs::remove_file(self.system, name);
            if let Ok(mut mark) = mark {
                mark.remove();
            }
        }
    }

    /// Removes the file that is held, if it has this name.
    fn take_held(&self, name: &str) {
        if let Some(file) = &self.held {
            self.take_away(file, name);
        }
    }

    /// The path of the file of this name without a link in it. If the system can't tell the path,
    /// it is the name itself, unless that is a link.
    fn path(&self, name: &str) -> Result<PathBuf, FileError> {
        match self.system.canonicalize(self.alloc, name) {
            Ok(path) => Ok(path),
            Err(error) if self.is_link(name) => Err(FileError::of(&error)),
            Err(_) => or_no_memory(PathBuf::from_str(self.alloc, name)),
        }
    }

    /// Returns whether this is the name of a link.
    fn is_link(&self, name: &str) -> bool {
        fs::symlink_metadata(self.system, name).is_ok_and(|it| it.is_symlink())
    }

    /// The place of the mark of the store in the file of this path.
    fn mark(&self, path: &str) -> Result<Mark<SystemFolder<'a, S>>, FileError> {
        or_no_memory(Mark::beside(self.folder(), self.alloc, path))
    }

    /// The place of the mark of the store in the file of this name.
    fn mark_of(&self, name: &str) -> Result<Mark<SystemFolder<'a, S>>, FileError> {
        let path = self.path(name)?;
        self.mark(path.as_str())
    }

    /// Gives a file the owner and the rights of the file `like`, if one is named.
    fn liken(&self, file: &File, like: Option<&str>) -> io::Result<()> {
        let Some(name) = like else {
            return Ok(());
        };
        let (own, wanted) = (file.metadata()?, fs::metadata(self.system, name)?);
        let (owner, group) = (wanted.uid(), wanted.gid());
        if own.uid() != owner || own.gid() != group {
            fchown(file, Some(owner), Some(group))?;
        }
        file.set_permissions(wanted.permissions())
    }

    /// A disk over a file that is synced first, under its mark, which stays if the sync fails.
    fn settled(
        &self,
        file: File,
        mark: Mark<SystemFolder<'a, S>>,
        why: &'a ErrorCell,
    ) -> Result<MarkedDisk<'a, SystemFolder<'a, S>, SystemFile>, FileError> {
        let inode = or_error(inode(&file))?;
        let mut mark = mark;
        let disk = settle(&mut mark, SystemFile::new(file))?;
        Ok(MarkedDisk::new(disk, inode, mark, why))
    }

    /// A disk over a file that is only read, without a sync.
    fn shown(
        &self,
        file: SystemFile,
        inode: Inode,
        mark: Mark<SystemFolder<'a, S>>,
    ) -> Result<Opened<MarkedDisk<'a, SystemFolder<'a, S>, SystemFile>, &'a ErrorCell>, FileError> {
        let why = &self.error_cells.opened;
        let disk = or_error(FileDisk::unsettled(file))?;
        Ok(Opened {
            disk: MarkedDisk::new(disk, inode, mark, why),
            why,
        })
    }

    /// Locks a file that was created or is to be emptied, and fills it with `size` zero bytes. A
    /// new file is removed again if that fails.
    fn made(
        &mut self,
        file: File,
        name: &str,
        size: u64,
        is_new: bool,
    ) -> Result<Made<MarkedDisk<'a, SystemFolder<'a, S>, SystemFile>, &'a ErrorCell>, FileError>
        ensures filled { IfOk result (λ made. IsFilled size
            (⟦<MarkedDisk<'a, SystemFolder<'a, S>, SystemFile> as RunDisk>⟧.state made.disk)) }
        ensures new { IfOk result (λ made. made.is_new ≡ is_new) }
    {
        self.lock(&file, name)?;
        self.hold(&file)?;
        let done = self.zeros(file, name, size);
        if is_new && done.is_err() {
            self.take_held(name);
        }
        Ok(Made {
            disk: done?,
            why: &self.error_cells.created,
            is_new,
        })
    }

    /// A disk over a file that is filled with `size` zero bytes.
    fn zeros(
        &self,
        file: File,
        name: &str,
        size: u64,
    ) -> Result<MarkedDisk<'a, SystemFolder<'a, S>, SystemFile>, FileError>
        ensures { IfOk result (λ made. IsFilled size
            (⟦<MarkedDisk<'a, SystemFolder<'a, S>, SystemFile> as RunDisk>⟧.state made)) }
    {
        let mut file = file;
        self.prepare(&file, name, None)?;
        or_error(fill(&mut file, size))?;
        or_error(self.sync_folder(name))?;
        self.filled(file, name, size)
    }

    /// Makes sure that the system can look for the mark of a new file, and gives the file the owner
    /// and the rights of `like`.
    fn prepare(&self, file: &File, name: &str, like: Option<&str>) -> Result<(), FileError> {
        let mut mark = self.mark_of(name)?;
        let _to_clear = or_error(mark.is_left())?;
        or_error(self.liken(file, like))
    }

    /// A disk over a file of `size` zero bytes. What an earlier failed sync left in it is gone, and
    /// so is the mark.
    fn filled(
        &self,
        file: File,
        name: &str,
        size: u64,
    ) -> Result<MarkedDisk<'a, SystemFolder<'a, S>, SystemFile>, FileError>
        ensures { IfOk result (λ made. IsFilled size
            (⟦<MarkedDisk<'a, SystemFolder<'a, S>, SystemFile> as RunDisk>⟧.state made)) }
    {
        let mark = self.mark_of(name)?;
        let mut disk = self.settled(file, mark, &self.error_cells.created)?;
        if disk.size() != size {
            return Err(FileError::EndedEarly);
        }
        disk.clear_mark();
        Ok(disk)
    }

    /// The system's calls on names.
    fn folder(&self) -> SystemFolder<'a, S> {
        SystemFolder::new(self.system)
    }

    /// Syncs the folder of the file of this name, so that a power failure leaves a new file its
    /// name. If the name is a link, it is the folder of the link.
    fn sync_folder(&self, name: &str) -> io::Result<()> {
        self.folder().sync_names(name)
    }

    /// Syncs the folder of a store, or passes over one that has no sync. If that fails, the store's
    /// mark is left.
    fn settle_folder(&self, name: &str, mark: &Mark<SystemFolder<'a, S>>) -> Result<(), FileError> {
        settle_names(&mut self.folder(), name, mark.name())
    }

    /// Replaces the file of this path by a copy, and returns the copy. The bytes that reads of the
    /// old file returned are on the device then; they may not have been before.
    fn renewed(&self, file: &File, path: &str) -> Result<File, FileError> {
        let beside = or_no_memory([path, BESIDE].concat(self.alloc))?;
        let beside = beside.as_str();
        self.clear(beside)?;
        let done = replace_by_copy(
            &mut self.folder(),
            self.alloc,
            file,
            beside,
            path,
            |made| self.lock(made, beside),
            |made| or_uncopied(self.liken(made, Some(path))),
        );
        match done {
            Err(FileError::OtherName) => Err(FileError::Unsynced),
            done => done,
        }
    }

    /// Removes what a killed renewal left under this name, unless another program has it open.
    fn clear(&self, name: &str) -> Result<(), FileError> {
        let mut how = OpenOptions::new();
        match self.with(how.read(true).write(true), name) {
            Ok(left) => {
                self.lock(&left, name)?;
                self.take_away(&left, name);
                Ok(())
            }
            Err(_) => Ok(()),
        }
    }

    /// Renames `from`, which has to be the file `new` that is held, to `to`, which has to be the
    /// only name of the file `old`, and no link.
    fn replaced(&self, new: Inode, old: Inode, from: &str, to: &str) -> Result<(), FileError> {
        if let Some(file) = &self.held {
            // (of its owner and rights, too, which no sync of a disk asks for)
            or_error(file.sync_all())?;
        }
        put(&mut self.folder(), self.alloc, new, old, from, to)
    }
}

impl<'a, S: fs::Files<File = File> + Clock + Sync> Files for SystemFiles<'a, S> {
    type Disk = MarkedDisk<'a, SystemFolder<'a, S>, SystemFile>;

    type FirstError = &'a ErrorCell;

    // What the system's files hold isn't known.
    ghost seen = { record {
      opens = λ files name disk after. ⊤;
      shows = λ files name disk after. ⊤;
      lacks = λ files name. ⊤;
      puts = λ files name disk after. ⊤;
      removes = λ files name after. ⊤;
      remakes = λ files name after. ⊤;
      gives = λ disk bytes left. ⊤;
      refuses = λ call files name error. ⊤;
      notes = λ disk error. ⊤;
    } };

    fn open(
        &mut self,
        name: &str,
    ) -> Result<Opened<MarkedDisk<'a, SystemFolder<'a, S>, SystemFile>, &'a ErrorCell>, FileError> {
        let mut how = OpenOptions::new();
        let file = self.with(how.read(true).write(true), name)?;
        self.lock(&file, name)?;
        let path = self.path(name)?;
        let mut mark = self.mark(path.as_str())?;
        let file = if or_error(mark.is_left())? {
            let made = self.renewed(&file, path.as_str())?;
            mark.remove();
            made
        } else {
            file
        };
        self.settle_folder(path.as_str(), &mark)?;
        if self.is_link(name) {
            self.settle_folder(name, &mark)?;
        }
        let held = or_error(file.try_clone())?;
        let why = &self.error_cells.opened;
        let disk = self.settled(file, mark, why)?;
        self.held = Some(held);
        Ok(Opened { disk, why })
    }

    fn open_to_read(
        &mut self,
        name: &str,
    ) -> Result<Opened<MarkedDisk<'a, SystemFolder<'a, S>, SystemFile>, &'a ErrorCell>, FileError> {
        let file = self.with_reading(name)?;
        lock_shared(&mut SystemLocks, &file)?;
        let path = self.path(name)?;
        // (a mark beside another file that has its name by now would be that one's)
        self.look_at(&file, path.as_str())?;
        let mut mark = self.mark(path.as_str())?;
        let inode = or_error(inode(&file))?;
        let mut file = SystemFile::new(file);
        settle_under(&mut mark, &mut file)?;
        self.shown(file, inode, mark)
    }

    fn look(
        &mut self,
        name: &str,
    ) -> Result<Opened<MarkedDisk<'a, SystemFolder<'a, S>, SystemFile>, &'a ErrorCell>, FileError> {
        let file = self.with_reading(name)?;
        let mark = self.mark_of(name)?;
        let inode = or_error(inode(&file))?;
        self.shown(SystemFile::new(file), inode, mark)
    }

    fn close(&mut self, _name: &str, _disk: MarkedDisk<'a, SystemFolder<'a, S>, SystemFile>) {}

    fn pause(&self) {
        thread::sleep(self.system, Duration::from_millis(PAUSE));
    }

    fn read_all(
        &self,
        disk: &mut MarkedDisk<'a, SystemFolder<'a, S>, SystemFile>,
        out: &mut [u8],
    ) -> Result<(), DiskFailed> {
        disk.read_at(0, out)
    }

    fn create(
        &mut self,
        name: &str,
        size: u64,
    ) -> Result<Made<MarkedDisk<'a, SystemFolder<'a, S>, SystemFile>, &'a ErrorCell>, FileError> {
        let mut how = OpenOptions::new();
        how.read(true).write(true);
        match self.with(how.create_new(true), name) {
            Ok(file) => self.made(file, name, size, true),
            Err(_) => {
                let file = self.with(how.create_new(false).create(true), name)?;
                self.made(file, name, size, false)
            }
        }
    }

    fn create_new(
        &mut self,
        name: &str,
        like: Option<&str>,
        size: u64,
    ) -> Result<Made<MarkedDisk<'a, SystemFolder<'a, S>, SystemFile>, &'a ErrorCell>, FileError> {
        self.admit(name)?;
        let mut folder = match like {
            Some(_) => SystemFolder::new(self.system),
            None => SystemFolder::by_umask(self.system),
        };
        let made = make_new(
            &mut folder,
            name,
            size,
            |file| self.lock(file, name),
            |file| self.prepare(file, name, like),
        );
        let file = match made {
            Ok(file) => file,
            Err(not) => return Err(not.error),
        };
        if let Err(error) = self.hold(&file) {
            self.take_away(&file, name);
            return Err(error);
        }
        let done = self.filled(file, name, size);
        if done.is_err() {
            self.take_held(name);
        }
        Ok(Made {
            disk: done?,
            why: &self.error_cells.created,
            is_new: true,
        })
    }

    fn replace(
        &mut self,
        disk: MarkedDisk<'a, SystemFolder<'a, S>, SystemFile>,
        over: MarkedDisk<'a, SystemFolder<'a, S>, SystemFile>,
        from: &str,
        to: &str,
    ) -> Result<(), FileError> {
        self.replaced(disk.inode(), over.inode(), from, to)
    }

    fn remove(&mut self, name: &str) {
        self.take_held(name);
    }
}

/// Returns whether this is a pipe or a device, and so neither a file nor a folder.
fn is_special(found: &Metadata) -> bool {
    !found.is_file() && !found.is_dir()
}

/// The identity of a file.
fn inode(file: &File) -> io::Result<Inode> {
    Ok(Inode::of(&file.metadata()?))
}

/// Fills the descriptors below 3 that are closed: a new file takes the least free number.
fn filled<S: fs::Files<File = File>>(system: &S) -> io::Result<[File; 3]> {
    let null = || OpenOptions::new().read(true).write(true).open(system, NULL);
    Ok([null()?, null()?, null()?])
}
