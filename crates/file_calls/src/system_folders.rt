//! A [`SystemFolder`] makes the calls of the system on names, and on files that are copied.
//!
//! What is believed of the system's names stands here, as what is believed of its open files stands
//! in [`crate::SystemFile`]. No proof reaches the system, so `keeps` can't be proved, and its
//! definition here makes no use of the clauses. Each method is one call of `std`, but for the sync
//! of a folder, which has to be opened first.

ghost use Rattle.std.specs.Prelude.{[], ⊤};
ghost use Rattle.file_calls.specs.declared.places.Place.TheVariants.{Durable};

use crate::folders::{Folder, Found, Inode};
use std::fs::{File, Metadata, OpenOptions};
use std::os::unix::fs::{FileExt, MetadataExt, OpenOptionsExt};
use std::path::Path;
use std::{fs, io};

/// The rights of a file that only its owner may use.
const PRIVATE: u32 = 0o600;

/// The rights of a file that everybody may read and write whom the umask lets.
const USUAL: u32 = 0o666;

/// The names of the system's files, each of which is a path.
#[derive(Drop)]
pub struct SystemFolder<'a, S> {
    system: &'a S,
    // of new files
    rights: u32,
}

impl<'a, S> SystemFolder<'a, S> {
    /// Only their owner may use new files.
    pub fn new(system: &'a S) -> SystemFolder<'a, S> {
        SystemFolder {
            system,
            rights: PRIVATE,
        }
    }

    /// The umask decides who may use new files.
    pub fn by_umask(system: &'a S) -> SystemFolder<'a, S> {
        SystemFolder {
            system,
            rights: USUAL,
        }
    }
}

impl Inode {
    /// The identity of the file of which the system says this.
    pub fn of(found: &Metadata) -> Inode {
        Inode {
            device: found.dev(),
            number: found.ino(),
        }
    }
}

impl<S: fs::Files<File = File>> Folder for SystemFolder<'_, S> {
    type File = File;

    type Error = io::Error;

    // What the system's folders hold isn't known.
    ghost state = { λ folder. record {
      steps = [];
      file = λ n. record { now = []; place = λ i. Durable; end = Durable };
    } };

    ghost past = { λ folder. [] };

    ghost number = { λ file. 0 };

    ghost device = { 0 };

    // What is believed.
    ghost keeps = { λ folder. ⊥ };

    ghost refuses = { λ folder call error. ⊤ };

    fn look_up(&mut self, name: &str) -> io::Result<Found> {
        let found = fs::symlink_metadata(self.system, name)?;
        Ok(Found {
            inode: Inode::of(&found),
            is_file: found.is_file(),
            links: found.nlink(),
            size: found.len(),
        })
    }

    fn follow(&mut self, name: &str) -> io::Result<Inode> {
        Ok(Inode::of(&fs::metadata(self.system, name)?))
    }

    fn inode(&mut self, file: &File) -> io::Result<Inode> {
        Ok(Inode::of(&file.metadata()?))
    }

    fn create_new(&mut self, name: &str) -> io::Result<File> {
        let mut how = OpenOptions::new();
        how.read(true)
            .write(true)
            .create_new(true)
            .mode(self.rights);
        how.open(self.system, name)
    }

    fn size(&mut self, file: &File) -> io::Result<u64> {
        Ok(file.metadata()?.len())
    }

    fn read_at(&mut self, file: &File, at: u64, out: &mut [u8]) -> io::Result<()> {
        file.read_exact_at(out, at)
    }

    fn write_at(&mut self, file: &File, at: u64, bytes: &[u8]) -> io::Result<()> {
        file.write_all_at(bytes, at)
    }

    fn sync_file(&mut self, file: &File) -> io::Result<()> {
        file.sync_all()
    }

    fn rename(&mut self, from: &str, to: &str) -> io::Result<()> {
        fs::rename(self.system, from, to)
    }

    fn remove(&mut self, name: &str) -> io::Result<()> {
        fs::remove_file(self.system, name)
    }

    fn sync_names(&mut self, name: &str) -> io::Result<()> {
        let here = Path::new(".");
        let path = Path::new(name);
        let folder = match path.parent() {
            Some(folder) if !folder.as_str().is_empty() => folder,
            _ => here,
        };
        File::open(self.system, folder)?.sync_all()
    }
}
