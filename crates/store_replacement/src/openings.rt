//! An opening of a store's file: who holds it, over any [`Folder`] and any [`FileLocks`].

ghost use Rattle.std.specs.Prelude.{◌≡◌, ◌⊎◌, Some, false, true, OnOk};
ghost use Rattle.file_calls.specs.Folders.{IsAlways, IsSameFolder};
ghost use Rattle.file_calls.specs.Names.{leads};
ghost use Rattle.store_replacement.specs.Openings.{IsLocked};

use file_calls::{FileLocks, Folder};
use std::io;
use store_files::FileError;

/// Locks an open file alone until it is closed, if the file system has locks. `InUse` if another
/// program holds a lock on it, or the name no longer leads to this file.
pub fn lock_named<C: Folder<Error = io::Error>, K: FileLocks<File = C::File>>(
    folder: &mut C,
    locks: &mut K,
    file: &C::File,
    name: &str,
) -> Result<(), FileError>
    ensures kept { (C.keeps folder.old → C.keeps folder.new)
        × (K.keeps locks.old → K.keeps locks.new) }
    ensures always { C.keeps folder.old
        → IsAlways (IsSameFolder (C.state folder.old)) (C.past folder.old)
        (C.past folder.new) (C.state folder.new) }
    ensures locked { K.keeps locks.old → OnOk result (IsLocked
        (K.refuses locks.new) (K.lock file.now true) (K.held locks.old) (K.held locks.new)) }
    ensures named { C.keeps folder.old
        → OnOk result (leads (C.state folder.old).steps name.now ≡ Some (C.number file.now)) }
{
    if let Ok(false) = locks.try_lock(file) {
        return Err(FileError::InUse);
    }
    look_named(folder, file, name)
}

/// Locks an open file for reading until it is closed, if the file system has locks. Others may read
/// it, too. `InUse` if another program holds a lock on it alone.
pub fn lock_shared<K: FileLocks>(locks: &mut K, file: &K::File) -> Result<(), FileError>
    ensures kept { K.keeps locks.old → K.keeps locks.new }
    ensures locked { K.keeps locks.old → OnOk result (IsLocked
        (K.refuses locks.new) (K.lock file.now false) (K.held locks.old) (K.held locks.new)) }
{
    match locks.try_lock_shared(file) {
        Ok(false) => Err(FileError::InUse),
        _ => Ok(()),
    }
}

/// Makes sure that the name leads to this file. `InUse` if not.
pub fn look_named<C: Folder<Error = io::Error>>(
    folder: &mut C,
    file: &C::File,
    name: &str,
) -> Result<(), FileError>
    ensures kept { C.keeps folder.old → C.keeps folder.new }
    ensures always { C.keeps folder.old
        → IsAlways (IsSameFolder (C.state folder.old)) (C.past folder.old)
        (C.past folder.new) (C.state folder.new) }
    ensures named { C.keeps folder.old
        → OnOk result (leads (C.state folder.old).steps name.now ≡ Some (C.number file.now)) }
{
    match (folder.inode(file), folder.follow(name)) {
        (Ok(own), Ok(named)) if own == named => Ok(()),
        _ => Err(FileError::InUse),
    }
}
