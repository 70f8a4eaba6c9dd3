//! Files in memory, which keep what is written.

ghost use Rattle.std.specs.Prelude.{◌≡◌, ◌≢◌, IfErr, IfNone, IfOk, IfSome, OnErr, OnOk};
ghost use Rattle.std.specs.Bool.{OnFalse, OnTrue};
ghost use Rattle.std.specs.String.{string_bytes};
ghost use Rattle.run_disk.specs.Disk.{IsAtRest};
ghost use Rattle.program_tests.specs.Zeros.{IsOfZeros};

use arrayvec::ArrayString;
use run_disk::{DiskFailed, Fuse, MemoryDisk, RunDisk, Torn};
use std::alloc::Global;
use store_files::{FileError, Files, FirstError, Made, Opened};

const NO_FILE: &str = "no such file";

/// What a place of a shelf has.
#[derive(Drop)]
pub enum Kept {
    /// No file.
    Gone,
    /// A file that is open for writing.
    Open,
    /// A file, as the disk that it was when it was given back.
    File(MemoryDisk),
}

/// A place of a shelf, for the file of this name.
#[derive(Drop)]
pub struct Place {
    pub name: String,
    pub kept: Kept,
}

/// Files in memory: one that is there, and one of another name, which may be made. An opening
/// gives a copy of what a file has, at rest, and what is given back stays.
#[derive(Drop)]
pub struct Shelf {
    pub alloc: Global,
    pub first: Place,
    pub second: Place,
    /// Whether another program has them open.
    pub is_used: bool,
    /// How many calls of each disk pass, and then each fails.
    pub passes: u64,
    /// Whether no file can be replaced.
    pub is_kept: bool,
    /// Whether a file was made or emptied.
    pub has_made: bool,
    /// Whether a file was taken away.
    pub has_removed: bool,
}

impl Kept {
    ghost use Rattle.program_tests.specs.Shelves.{Held, Lies, Nothing, spot_of};

    /// The bytes of a file that is not open.
    fn bytes(&self, alloc: Global) -> Result<Vec<u8>, FileError>
        ensures had { IfOk result (λ bytes. spot_of self.now ≡ Lies bytes.items) }
        ensures held { IfErr result (λ error. error ≡ FileError.InUse → spot_of self.now ≡ Held) }
    {
        match self {
            Kept::File(disk) => bytes_of(alloc, disk),
            Kept::Open => Err(FileError::InUse),
            Kept::Gone => Err(as_printed(NO_FILE)),
        }
    }

    /// Says whether there is a file.
    fn is_there(&self) -> bool
        ensures none { OnFalse result (spot_of self.now ≡ Nothing) }
    {
        !matches!(self, Kept::Gone)
    }
}

impl Place {
    /// Says whether it is for the file of this name.
    fn is_of(&self, name: &str) -> bool
        ensures named { OnTrue result (name.now ≡ string_bytes self.now.name) }
        ensures other { OnFalse result (name.now ≢ string_bytes self.now.name) }
    {
        name == self.name.as_str()
    }
}

impl Shelf {
    ghost use Rattle.run_disk.specs.FailingDisks.{calls_cut};
    ghost use Rattle.program_tests.specs.Shelves.{Gets, Held, IsElsewhereSame, Lies, Nothing};
    ghost use Rattle.program_tests.specs.Shelves.{spot_at, spot_of};

    /// A shelf with this disk as the file of this name, which nobody uses, and whose disks are
    /// whole.
    pub fn new(alloc: Global, name: &str, disk: MemoryDisk) -> Result<Shelf, FileError>
        ensures has { IfOk result (λ shelf. spot_at shelf name.now
            ≡ Lies (⟦<MemoryDisk as RunDisk>⟧.state disk).now) }
    {
        let Ok(name) = String::from_str(alloc, name) else {
            return Err(FileError::NoMemory);
        };
        let kept = Kept::File(disk);
        Ok(Shelf {
            alloc,
            first: Place { name, kept },
            second: Place {
                name: String::new(alloc),
                kept: Kept::Gone,
            },
            is_used: false,
            passes: u64::MAX,
            is_kept: false,
            has_made: false,
            has_removed: false,
        })
    }

    /// What the place of this name has, if there is one.
    fn kept_at(&self, name: &str) -> Option<&Kept>
        ensures has { IfSome result (λ kept. spot_at self.now name.now ≡ spot_of kept.now) }
        ensures none { IfNone result (spot_at self.now name.now ≡ Nothing) }
    {
        if self.first.is_of(name) {
            return Some(&self.first.kept);
        }
        if self.second.is_of(name) {
            return Some(&self.second.kept);
        }
        None
    }

    /// The bytes of the file of this name, if it is there and not open.
    pub fn bytes(&self, name: &str) -> Result<Vec<u8>, FileError>
        ensures had { IfOk result (λ bytes. spot_at self.now name.now ≡ Lies bytes.items) }
        ensures held { IfErr result (λ error. error ≡ FileError.InUse
            → spot_at self.now name.now ≡ Held) }
    {
        match self.kept_at(name) {
            Some(kept) => Ok(kept.bytes(self.alloc)?),
            None => Err(as_printed(NO_FILE)),
        }
    }

    /// Says whether there is a file of this name.
    fn has(&self, name: &str) -> bool
        ensures none { OnFalse result (spot_at self.now name.now ≡ Nothing) }
    {
        match self.kept_at(name) {
            Some(kept) => kept.is_there(),
            None => false,
        }
    }

    /// A copy of the file of this name, as a disk at rest.
    fn opened(&self, name: &str) -> Result<Opened<Fuse<MemoryDisk>, Broken>, FileError>
        ensures had { IfOk result (λ opened. spot_at self.now name.now
            ≡ Lies (⟦<Fuse<MemoryDisk> as RunDisk>⟧.state opened.disk).now) }
        ensures rest { IfOk result (λ opened.
            IsAtRest (⟦<Fuse<MemoryDisk> as RunDisk>⟧.state opened.disk)) }
        ensures noted { IfOk result (λ opened.
            (calls_cut opened.disk).first ≡ opened.why.passes) }
        ensures held { IfErr result (λ error. error ≡ FileError.InUse
            → spot_at self.now name.now ≡ Held) }
    {
        match MemoryDisk::from_bytes(self.alloc, self.bytes(name)?) {
            Ok(disk) => Ok(Opened {
                disk: Fuse::new(disk, self.passes),
                why: Broken {
                    passes: self.passes,
                },
            }),
            Err(_) => Err(as_printed("no memory")),
        }
    }

    /// Puts something into the place of this name, if there is one.
    fn put(&mut self, name: &str, kept: Kept)
        ensures { Gets self.old name.now (spot_of kept) self.new }
    {
        if self.first.is_of(name) {
            self.first.kept = kept;
            return;
        }
        if !self.second.is_of(name) {
            return;
        }
        self.second.kept = kept;
    }

    /// Puts a disk there as the file of this name. If no place is for it, the second one is taken,
    /// if that is free.
    pub fn lay(&mut self, name: &str, disk: MemoryDisk) -> Result<(), FileError>
        ensures laid { OnOk result (spot_at self.new name.now
            ≡ Lies (⟦<MemoryDisk as RunDisk>⟧.state disk).now) }
        ensures elsewhere { OnOk result (IsElsewhereSame name.now self.old self.new) }
        ensures same { OnErr result (self.new ≡ self.old) }
    {
        if self.first.is_of(name) {
            self.first.kept = Kept::File(disk);
            return Ok(());
        }
        if self.second.is_of(name) {
            self.second.kept = Kept::File(disk);
            return Ok(());
        }
        if self.second.kept.is_there() {
            return Err(as_printed("no place"));
        }
        let Ok(name) = String::from_str(self.alloc, name) else {
            return Err(FileError::NoMemory);
        };
        let kept = Kept::File(disk);
        self.second = Place { name, kept };
        Ok(())
    }

    /// Makes a file of this many zeros.
    fn make(
        &mut self,
        name: &str,
        size: u64,
        is_new: bool,
    ) -> Result<Made<Fuse<MemoryDisk>, Broken>, FileError>
        ensures laid { IfOk result (λ made. spot_at self.new name.now
            ≡ Lies (⟦<Fuse<MemoryDisk> as RunDisk>⟧.state made.disk).now) }
        ensures elsewhere { OnOk result (IsElsewhereSame name.now self.old self.new) }
        ensures made { IfOk result (λ made.
            IsOfZeros size (⟦<Fuse<MemoryDisk> as RunDisk>⟧.state made.disk)) }
        ensures new { IfOk result (λ made. made.is_new ≡ is_new) }
        ensures noted { IfOk result (λ made. (calls_cut made.disk).first ≡ made.why.passes) }
        ensures same { OnErr result (self.new ≡ self.old) }
    {
        let disk = zeros(self.alloc, size)?;
        let laid = copied(self.alloc, &disk)?;
        self.lay(name, laid)?;
        self.has_made = true;
        Ok(Made {
            disk: Fuse::new(disk, self.passes),
            why: Broken {
                passes: self.passes,
            },
            is_new,
        })
    }
}

/// The bytes of a disk in memory.
fn bytes_of(alloc: Global, disk: &MemoryDisk) -> Result<Vec<u8>, FileError>
    ensures whole { IfOk result (λ bytes.
        bytes.items ≡ (⟦<MemoryDisk as RunDisk>⟧.state disk.now).now) }
    ensures unused { IfErr result (λ error. error ≢ FileError.InUse) }
{
    match disk.image(alloc, disk.calls(), Torn::Take) {
        Ok(bytes) => Ok(bytes),
        Err(_) => Err(as_printed("no memory")),
    }
}

/// A disk with the bytes of this one.
fn copied(alloc: Global, disk: &MemoryDisk) -> Result<MemoryDisk, FileError>
    ensures same { IfOk result (λ copy. (⟦<MemoryDisk as RunDisk>⟧.state copy).now
        ≡ (⟦<MemoryDisk as RunDisk>⟧.state disk.now).now) }
    ensures unused { IfErr result (λ error. error ≢ FileError.InUse) }
{
    match MemoryDisk::from_bytes(alloc, bytes_of(alloc, disk)?) {
        Ok(copy) => Ok(copy),
        Err(_) => Err(as_printed("no memory")),
    }
}

/// A disk at rest with this many zeros.
fn zeros(alloc: Global, size: u64) -> Result<MemoryDisk, FileError>
    ensures made { IfOk result (λ disk.
        IsOfZeros size (⟦<MemoryDisk as RunDisk>⟧.state disk)) }
{
    match MemoryDisk::new(alloc, size as usize) {
        Ok(disk) => Ok(disk),
        Err(_) => Err(as_printed("no memory")),
    }
}

impl Files for Shelf {
    ghost use Rattle.run_disk.specs.FailingDisks.{calls_cut};
    ghost use Rattle.program_tests.specs.Shelves.{shelf_view};

    type Disk = Fuse<MemoryDisk>;

    type FirstError = Broken;

    ghost seen = { shelf_view (⟦<Fuse<MemoryDisk> as RunDisk>⟧.state)
        (λ disk. (calls_cut disk).first) };

    fn open(&mut self, name: &str) -> Result<Opened<Fuse<MemoryDisk>, Broken>, FileError> {
        if self.is_used {
            return Err(FileError::InUse);
        }
        let opened = self.opened(name)?;
        self.put(name, Kept::Open);
        Ok(opened)
    }

    fn open_to_read(&mut self, name: &str) -> Result<Opened<Fuse<MemoryDisk>, Broken>, FileError> {
        if self.is_used {
            return Err(FileError::InUse);
        }
        self.opened(name)
    }

    fn look(&mut self, name: &str) -> Result<Opened<Fuse<MemoryDisk>, Broken>, FileError> {
        self.opened(name)
    }

    fn close(&mut self, name: &str, disk: Fuse<MemoryDisk>) {
        self.put(name, Kept::File(disk.into_inner()));
    }

    fn pause(&self) {}

    fn read_all(&self, disk: &mut Fuse<MemoryDisk>, out: &mut [u8]) -> Result<(), DiskFailed> {
        disk.read_at(0, out)
    }

    fn create(
        &mut self,
        name: &str,
        size: u64,
    ) -> Result<Made<Fuse<MemoryDisk>, Broken>, FileError> {
        let is_new = !self.has(name);
        self.make(name, size, is_new)
    }

    fn create_new(
        &mut self,
        name: &str,
        _like: Option<&str>,
        size: u64,
    ) -> Result<Made<Fuse<MemoryDisk>, Broken>, FileError> {
        if self.has(name) {
            return Err(as_printed("there is one"));
        }
        self.make(name, size, true)
    }

    fn replace(
        &mut self,
        disk: Fuse<MemoryDisk>,
        over: Fuse<MemoryDisk>,
        from: &str,
        to: &str,
    ) -> Result<(), FileError> {
        if self.is_kept {
            self.close(from, disk);
            self.close(to, over);
            return Err(FileError::InUse);
        }
        self.put(from, Kept::Gone);
        self.close(to, disk);
        Ok(())
    }

    fn remove(&mut self, name: &str) {
        self.has_removed = true;
        self.put(name, Kept::Gone);
    }
}

/// Tells why a call of a disk failed that fails after this many.
#[derive(Drop)]
pub struct Broken {
    passes: u64,
}

impl FirstError for Broken {
    ghost use Rattle.program_tests.specs.Shelves.{IsBroken};

    ghost notes = { λ broken error. IsBroken broken.passes error };

    fn first_error(&self) -> Option<FileError> {
        if self.passes < u64::MAX {
            Some(as_printed("broken"))
        } else {
            None
        }
    }
}

/// What a system says.
pub fn as_printed(text: &str) -> FileError
    ensures { result ≢ FileError.InUse }
{
    let mut as_printed = ArrayString::new();
    let _fits = as_printed.try_push_str(text);
    FileError::System(as_printed)
}
