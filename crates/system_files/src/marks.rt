//! A [`Mark`] is the file `STORE.failed`: while it is there, a sync of the store has failed.
//!
//! After a failed sync the system treats the lost bytes as written: reads return them, they may not
//! be on the device, and no later sync brings them there. So whoever sees the sync fail leaves the
//! mark, and the next opening for writing replaces the store by a copy. The mark isn't synced: a
//! restart of the machine, which may remove it, also drops the bytes that the system kept.

ghost use Rattle.std.specs.Prelude.{◌≡◌, IfOk};
ghost use Rattle.std.specs.String.{string_bytes};
ghost use Rattle.file_calls.specs.Folders.{ToCreate};
ghost use Rattle.store_replacement.specs.Marks.{IsMarked};
ghost use Rattle.store_replacement.specs.Replacements.{mark_of};

use file_calls::Folder;
use std::alloc::{AllocError, Global};
use std::io;
use store_replacement::{is_marked, leave_mark, name_of_mark, remove_mark};

/// The place of the mark of a store, in any folder. If the folder lets no file be made there, no
/// mark is left.
#[derive(Drop)]
pub struct Mark<C> {
    folder: C,
    name: String,
}

impl<C: Folder<Error = io::Error> + Drop> Mark<C> {
    /// Beside the file of this path, in this folder.
    pub fn beside(folder: C, alloc: Global, path: &str) -> Result<Mark<C>, AllocError>
        ensures folder { IfOk result (λ mark. mark.folder ≡ folder) }
        ensures name { IfOk result (λ mark. string_bytes mark.name ≡ mark_of path.now) }
    {
        Ok(Mark {
            folder,
            name: name_of_mark(alloc, path)?,
        })
    }

    /// The name of the mark.
    pub fn name(&self) -> &str {
        self.name.as_str()
    }

    /// Leaves the mark, and returns whether there was none before. It follows no link. Nobody needs
    /// to open the mark, so only its owner may, whatever the umask or a default access control list
    /// of the directory would allow.
    pub fn leave(&mut self) -> bool
        ensures kept { C.keeps self.old.folder → C.keeps self.new.folder }
        ensures name { self.new.name ≡ self.old.name }
        ensures left { C.keeps self.old.folder
            → IsMarked (C.refuses self.new.folder (ToCreate (string_bytes self.old.name)))
            (string_bytes self.old.name) (C.state self.new.folder) }
    {
        leave_mark(&mut self.folder, self.name.as_str())
    }

    /// Returns whether there is a mark. If the system can't tell, because the name is too long for
    /// it, there can't be one.
    pub fn is_left(&mut self) -> io::Result<bool>
        ensures kept { C.keeps self.old.folder → C.keeps self.new.folder }
        ensures name { self.new.name ≡ self.old.name }
    {
        is_marked(&mut self.folder, self.name.as_str())
    }

    /// Removes the mark. A file of this name that isn't empty is no mark, and stays.
    pub fn remove(&mut self)
        ensures kept { C.keeps self.old.folder → C.keeps self.new.folder }
        ensures name { self.new.name ≡ self.old.name }
    {
        remove_mark(&mut self.folder, self.name.as_str());
    }
}
