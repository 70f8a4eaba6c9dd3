//! A [`MemoryFolder`] is a folder in memory, for tests.

ghost use Rattle.std.specs.Prelude.{◌≡◌, ◌≤◌, ◌+◌, ◌∷◌, [], ◌++◌, ◌⊎◌, ℕ, false, length, map};
ghost use Rattle.std.specs.Prelude.{nat_eq, slice_range, ⊤, IfOk, OnErr, OnOk, Ok};
ghost use Rattle.file_calls.specs.Folders.{CreatesFile, IsSameFolder};
ghost use Rattle.file_calls.specs.MemoryFolders.{file_in, folder_at, folder_state};
ghost use Rattle.file_calls.specs.OpenFiles.{IsAtRest, IsSame, Settles, Writes};
ghost use Rattle.file_calls.specs.declared.places.Place.TheVariants.{Durable, Lost};

use crate::folder_moments::FolderMoment;
use crate::folders::{Folder, Found, Inode};
use crate::memory_files::MemoryFile;
use crate::memory_names::MemoryNames;
use crate::names::FolderNames;
use crate::open_files::{CallFailed, OpenFile};
use std::alloc::Global;
use std::io;
use std::io::ErrorKind;
use std::snapshot::Snapshot;

/// An open file of a folder in memory: its number.
#[derive(Clone, Copy, Debug)]
pub struct MemoryNumber(u64);

impl MemoryNumber {
    pub(crate) fn number(self) -> u64
        ensures { result ≡ self.0 }
    {
        self.0
    }
}

/// A folder in memory, and the files in it. A call fails if memory for it is refused, and one call
/// fails that was chosen by [`MemoryFolder::fail_after`].
#[derive(Drop)]
pub struct MemoryFolder {
    alloc: Global,
    names: MemoryNames,
    files: Vec<MemoryFile>,
    // what the folder was before each call
    past: Vec<FolderMoment>,
    // how many calls succeed until one fails
    calls_left: u64,
}

impl MemoryFolder {
    /// Returns an empty folder.
    pub fn new(alloc: Global) -> MemoryFolder {
        MemoryFolder {
            alloc,
            names: MemoryNames::new(alloc),
            files: Vec::new(alloc),
            past: Vec::new(alloc),
            calls_left: u64::MAX,
        }
    }

    /// Lets the next `calls` calls succeed, and the one after them fail.
    pub fn fail_after(&mut self, calls: u64)
        ensures state { ⟦<MemoryFolder as Folder>⟧.state self.new
            ≡ ⟦<MemoryFolder as Folder>⟧.state self.old }
        ensures past { ⟦<MemoryFolder as Folder>⟧.past self.new
            ≡ ⟦<MemoryFolder as Folder>⟧.past self.old }
    {
        self.calls_left = calls;
    }

    /// Returns the names.
    pub fn names(&self) -> &MemoryNames {
        &self.names
    }

    /// Returns the files, by their numbers.
    pub fn files(&self) -> &[MemoryFile] {
        &self.files
    }

    /// Keeps what the folder is before a call, and returns whether the call is to succeed. At `Err`
    /// no memory was left for it.
    fn begin(&mut self) -> io::Result<bool>
        ensures names { self.new.names ≡ self.old.names }
        ensures files { self.new.files ≡ self.old.files }
        ensures past { OnOk result (map folder_at self.new.past.items
            ≡ map folder_at self.old.past.items
            ++ folder_state self.old.names.steps.items self.old.files.items ∷ []) }
        ensures refused { OnErr result (self.new.past.items ≡ self.old.past.items) }
    {
        let moment = FolderMoment {
            names: Snapshot::of(&self.names),
            files: Snapshot::of(&self.files),
        };
        keep(&mut self.past, moment)?;
        let succeeds = self.calls_left != 0;
        self.calls_left = self.calls_left.wrapping_sub(1);
        Ok(succeeds)
    }

    /// Begins a call on names.
    fn begin_names(&mut self) -> io::Result<()>
        ensures names { self.new.names.steps.items ≡ self.old.names.steps.items }
        ensures files { self.new.files ≡ self.old.files }
        ensures past { OnOk result (map folder_at self.new.past.items
            ≡ map folder_at self.old.past.items
            ++ folder_state self.old.names.steps.items self.old.files.items ∷ []) }
        ensures refused { OnErr result (self.new.past.items ≡ self.old.past.items) }
    {
        if !self.begin()? {
            self.names.fail_after(0);
        }
        Ok(())
    }
}

impl Folder for MemoryFolder {
    type File = MemoryNumber;

    type Error = io::Error;

    ghost state = { λ folder. folder_state folder.names.steps.items folder.files.items };

    ghost past = { λ folder. map folder_at folder.past.items };

    ghost number = { λ file. file.0 };

    ghost device = { 0 };

    ghost keeps = { λ folder. ⊤ };

    ghost refuses = { λ folder call error. ⊤ };

    fn look_up(&mut self, name: &str) -> io::Result<Found> {
        self.begin_names()?;
        match self.names.found(name) {
            Ok(Some(number)) => Ok(found(number)),
            _ => Err(failed()),
        }
    }

    fn follow(&mut self, name: &str) -> io::Result<Inode> {
        self.begin_names()?;
        match self.names.found(name) {
            Ok(Some(number)) => Ok(inode(number)),
            _ => Err(failed()),
        }
    }

    fn inode(&mut self, file: &MemoryNumber) -> io::Result<Inode> {
        if !self.begin()? {
            return Err(failed());
        }
        Ok(inode(file.0))
    }

    fn create_new(&mut self, name: &str) -> io::Result<MemoryNumber> {
        if !self.begin()? {
            return Err(failed());
        }
        create(&mut self.names, &mut self.files, self.alloc, name)
    }

    fn size(&mut self, file: &MemoryNumber) -> io::Result<u64> {
        let succeeds = self.begin()?;
        or_failed(size(&mut self.files, file.0, succeeds))
    }

    fn read_at(&mut self, file: &MemoryNumber, at: u64, out: &mut [u8]) -> io::Result<()> {
        let succeeds = self.begin()?;
        or_failed(read(&mut self.files, file.0, succeeds, at, out))
    }

    fn write_at(&mut self, file: &MemoryNumber, at: u64, bytes: &[u8]) -> io::Result<()> {
        let succeeds = self.begin()?;
        or_failed(write(&mut self.files, file.0, succeeds, at, bytes))
    }

    fn sync_file(&mut self, file: &MemoryNumber) -> io::Result<()> {
        let succeeds = self.begin()?;
        or_failed(sync(&mut self.files, file.0, succeeds))
    }

    fn rename(&mut self, from: &str, to: &str) -> io::Result<()> {
        self.begin_names()?;
        or_failed(self.names.rename(from, to))
    }

    fn remove(&mut self, name: &str) -> io::Result<()> {
        self.begin_names()?;
        or_failed(self.names.remove(name))
    }

    fn sync_names(&mut self, _name: &str) -> io::Result<()> {
        self.begin_names()?;
        or_failed(self.names.sync())
    }
}

/// The error of a call that failed.
fn failed() -> io::Error {
    io::Error::from(ErrorKind::Other)
}

/// The result of a call of a file or of names.
fn or_failed<T>(done: Result<T, CallFailed>) -> io::Result<T>
    ensures ok { IfOk done (λ value. result ≡ Ok value) }
    ensures err { OnErr done (OnOk result ⊥) }
{
    match done {
        Ok(value) => Ok(value),
        Err(CallFailed) => Err(failed()),
    }
}

/// The identity of the file with this number.
fn inode(number: u64) -> Inode
    ensures number { result.number ≡ number }
    ensures device { result.device ≡ 0 }
{
    Inode { device: 0, number }
}

/// What is known of the file with this number, which has one name and isn't empty.
fn found(number: u64) -> Found
    ensures number { result.inode.number ≡ number }
    ensures device { result.inode.device ≡ 0 }
{
    Found {
        inode: inode(number),
        is_file: true,
        links: 1,
        size: 1,
    }
}

/// Keeps one more moment. At `Err` no memory was left for it.
fn keep(past: &mut Vec<FolderMoment>, moment: FolderMoment) -> io::Result<()>
    ensures ok { OnOk result (past.new.items ≡ past.old.items ++ moment ∷ []) }
    ensures err { OnErr result (past.new.items ≡ past.old.items) }
{
    match past.push(moment) {
        Ok(()) => Ok(()),
        Err(_) => Err(failed()),
    }
}

/// Lets the name lead to a new file without bytes, and returns the file's number.
fn create(
    names: &mut MemoryNames,
    files: &mut Vec<MemoryFile>,
    alloc: Global,
    name: &str,
) -> io::Result<MemoryNumber>
    ensures created { IfOk result (λ file. CreatesFile name.now file.0
        (folder_state names.old.steps.items files.old.items)
        (folder_state names.new.steps.items files.new.items)) }
    ensures failed { OnErr result (IsSameFolder
        (folder_state names.old.steps.items files.old.items)
        (folder_state names.new.steps.items files.new.items)) }
{
    add(files, alloc)?;
    match names.create_new(name) {
        Ok(number) => {
            clear(files, alloc, number);
            Ok(MemoryNumber(number))
        }
        Err(CallFailed) => Err(failed()),
    }
}

/// Adds a file without bytes. At `Err` no memory was left for it.
fn add(files: &mut Vec<MemoryFile>, alloc: Global) -> io::Result<()>
    ensures { (n : ℕ) → IsSame (file_in files.old.items n) (file_in files.new.items n) }
{
    let empty = MemoryFile::new(alloc, Vec::new(alloc));
    match files.push(empty) {
        Ok(()) => Ok(()),
        Err(_) => Err(failed()),
    }
}

/// Replaces the file with this number by one without bytes.
fn clear(files: &mut [MemoryFile], alloc: Global, number: u64)
    ensures others { (n : ℕ) → nat_eq n number ≡ false
        → file_in files.new n ≡ file_in files.old n }
    ensures empty { (file_in files.new number).now ≡ [] }
    ensures rest { IsAtRest (file_in files.new number) }
{
    let i = number as usize;
    if i < files.len() {
        files[i] = MemoryFile::new(alloc, Vec::new(alloc));
    }
}

/// Returns the number of bytes of the file with this number, if the call is to succeed.
fn size(files: &mut [MemoryFile], number: u64, succeeds: bool) -> Result<u64, CallFailed>
    ensures same { (n : ℕ) → IsSame (file_in files.old n) (file_in files.new n) }
    ensures size { IfOk result (λ size. size ≡ length (file_in files.old number).now) }
{
    let i = number as usize;
    if files.len() <= i {
        return Err(CallFailed);
    }
    let file = &mut files[i];
    file.fail_unless(succeeds);
    file.size()
}

/// Reads the file with this number, if the call is to succeed.
fn read(
    files: &mut [MemoryFile],
    number: u64,
    succeeds: bool,
    at: u64,
    out: &mut [u8],
) -> Result<(), CallFailed>
    ensures same { (n : ℕ) → IsSame (file_in files.old n) (file_in files.new n) }
    ensures within { OnOk result (at + length out.old ≤ length (file_in files.old number).now) }
    ensures bytes { OnOk result
        (out.new ≡ slice_range (file_in files.old number).now at (at + length out.old)) }
{
    let i = number as usize;
    if files.len() <= i {
        return Err(CallFailed);
    }
    let file = &mut files[i];
    file.fail_unless(succeeds);
    file.read_at(at, out)
}

/// Writes to the file with this number, if the call is to succeed.
fn write(
    files: &mut [MemoryFile],
    number: u64,
    succeeds: bool,
    at: u64,
    bytes: &[u8],
) -> Result<(), CallFailed>
    ensures others { (n : ℕ) → nat_eq n number ≡ false
        → file_in files.new n ≡ file_in files.old n }
    ensures writes { at ≤ length (file_in files.old number).now
        → Writes at bytes.now (file_in files.old number) (file_in files.new number) result }
{
    let i = number as usize;
    if files.len() <= i {
        return Err(CallFailed);
    }
    let file = &mut files[i];
    file.fail_unless(succeeds);
    file.write_at(at, bytes)
}

/// Syncs the file with this number, if the call is to succeed.
fn sync(files: &mut [MemoryFile], number: u64, succeeds: bool) -> Result<(), CallFailed>
    ensures others { (n : ℕ) → nat_eq n number ≡ false
        → file_in files.new n ≡ file_in files.old n }
    ensures durable { OnOk result
        (Settles Durable (file_in files.old number) (file_in files.new number)) }
    ensures lost { OnErr result
        (Settles Lost (file_in files.old number) (file_in files.new number)
        ⊎ IsSame (file_in files.old number) (file_in files.new number)) }
{
    let i = number as usize;
    if files.len() <= i {
        return Err(CallFailed);
    }
    let file = &mut files[i];
    file.fail_unless(succeeds);
    file.sync()
}
