//! A replacement of a store by another file, over any [`Folder`].
//!
//! A crash leaves the store's name leading to the old file or to the new one, whole, whichever call
//! it comes before. After Ok it leaves the new one.

ghost use Rattle.std.specs.Prelude.{◌≡◌, ℕ, Some, false, bytes_eq, IfOk, OnErr, OnOk};
ghost use Rattle.file_calls.specs.Folders.{IsAlways, IsNew, IsOldOrNew, IsSameFolder, ToLookUp};
ghost use Rattle.file_calls.specs.Names.{leads};
ghost use Rattle.file_calls.specs.OpenFiles.{IsAtRest};
ghost use Rattle.std.specs.declared.io.Error.{Error};
ghost use Rattle.store_replacement.specs.Replacements.{LeavesNoMore, mark_of, synced};

use crate::marks::{has_failed, leave_mark, name_of_mark, settle_mark};
use crate::results::or_error;
use file_calls::{Folder, Found, Inode};
use std::alloc::Global;
use std::io;
use store_files::FileError;

/// Syncs the names in the folder of this one after a renaming. The mark is there during the sync,
/// and stays if the sync fails.
fn sync_renamed<C: Folder<Error = io::Error>>(
    folder: &mut C,
    name: &str,
    mark: &str,
) -> io::Result<()>
    ensures kept { C.keeps folder.old → C.keeps folder.new }
    ensures always { C.keeps folder.old → bytes_eq mark.now name.now ≡ false
        → IsAlways (LeavesNoMore name.now (C.state folder.old)) (C.past folder.old)
        (C.past folder.new) (C.state folder.new) }
    ensures done { C.keeps folder.old → bytes_eq mark.now name.now ≡ false
        → OnOk result (LeavesNoMore name.now (synced (C.state folder.old))
        (C.state folder.new)) }
{
    let is_left = leave_mark(folder, mark);
    let done = folder.sync_names(name);
    settle_mark(folder, mark, is_left, has_failed(&done));
    done
}

/// Returns what is known of the file of this name.
fn look<C: Folder<Error = io::Error>>(folder: &mut C, name: &str) -> Result<Found, FileError>
    ensures kept { C.keeps folder.old → C.keeps folder.new }
    ensures always { C.keeps folder.old
        → IsAlways (IsSameFolder (C.state folder.old)) (C.past folder.old)
        (C.past folder.new) (C.state folder.new) }
    ensures found { C.keeps folder.old → IfOk result (λ found.
        leads (C.state folder.old).steps name.now ≡ Some found.inode.number) }
    ensures device { C.keeps folder.old → IfOk result (λ found. found.inode.device ≡ C.device) }
    ensures refused { C.keeps folder.old → OnErr result
        ((error : Error) × C.refuses folder.new (ToLookUp name.now) error) }
{
    or_error(folder.look_up(name))
}

/// Makes sure that `from` leads to the file `new`.
pub(crate) fn look_at_new<C: Folder<Error = io::Error>>(
    folder: &mut C,
    new: Inode,
    from: &str,
) -> Result<(), FileError>
    ensures kept { C.keeps folder.old → C.keeps folder.new }
    ensures always { C.keeps folder.old
        → IsAlways (IsSameFolder (C.state folder.old)) (C.past folder.old)
        (C.past folder.new) (C.state folder.new) }
    ensures from { C.keeps folder.old
        → OnOk result (leads (C.state folder.old).steps from.now ≡ Some new.number) }
    ensures refused { C.keeps folder.old → new.device ≡ C.device
        → leads (C.state folder.old).steps from.now ≡ Some new.number → OnErr result
        ((error : Error) × C.refuses folder.new (ToLookUp from.now) error) }
{
    match look(folder, from) {
        Ok(found) if new == found.inode => Ok(()),
        Ok(_) => Err(FileError::InUse),
        Err(error) => Err(error),
    }
}

/// Makes sure that `to` is the only name of the file `old`, and no link. One that was moved away
/// meanwhile has another name now.
fn look_at_old<C: Folder<Error = io::Error>>(
    folder: &mut C,
    old: Inode,
    to: &str,
) -> Result<(), FileError>
    ensures kept { C.keeps folder.old → C.keeps folder.new }
    ensures always { C.keeps folder.old
        → IsAlways (IsSameFolder (C.state folder.old)) (C.past folder.old)
        (C.past folder.new) (C.state folder.new) }
{
    match look(folder, to) {
        Ok(found) if found.is_file && found.links == 1 && old == found.inode => Ok(()),
        Ok(_) => Err(FileError::OtherName),
        Err(error) => Err(error),
    }
}

/// Renames `from`, which has to be the file `new`, to `to`, which has to be the only name of the
/// file `old`, and no link. If the file `new` is at rest, a crash leaves `to` leading to the old
/// file or to the new one at each moment, and after Ok to the new one.
pub fn put<C: Folder<Error = io::Error>>(
    folder: &mut C,
    alloc: Global,
    new: Inode,
    old: Inode,
    from: &str,
    to: &str,
) -> Result<(), FileError>
    ensures kept { C.keeps folder.old → C.keeps folder.new }
    ensures always { C.keeps folder.old → bytes_eq from.now to.now ≡ false
        → IsAtRest ((C.state folder.old).file new.number)
        → IsAlways (IsOldOrNew to.now ((C.state folder.old).file new.number).now
        (C.state folder.old)) (C.past folder.old) (C.past folder.new) (C.state folder.new) }
    ensures done { C.keeps folder.old → bytes_eq from.now to.now ≡ false
        → IsAtRest ((C.state folder.old).file new.number)
        → OnOk result (IsNew to.now ((C.state folder.old).file new.number).now
        (C.state folder.new)) }
{
    look_at_new(folder, new, from)?;
    look_at_old(folder, old, to)?;
    rename(folder, alloc, from, to)
}

/// Renames `from` to `to`, and syncs the folder under the mark.
fn rename<C: Folder<Error = io::Error>>(
    folder: &mut C,
    alloc: Global,
    from: &str,
    to: &str,
) -> Result<(), FileError>
    ensures kept { C.keeps folder.old → C.keeps folder.new }
    ensures always { C.keeps folder.old → bytes_eq from.now to.now ≡ false
        → (file : ℕ) → leads (C.state folder.old).steps from.now ≡ Some file
        → IsAtRest ((C.state folder.old).file file)
        → IsAlways (IsOldOrNew to.now ((C.state folder.old).file file).now
        (C.state folder.old)) (C.past folder.old) (C.past folder.new) (C.state folder.new) }
    ensures done { C.keeps folder.old → bytes_eq from.now to.now ≡ false
        → (file : ℕ) → leads (C.state folder.old).steps from.now ≡ Some file
        → IsAtRest ((C.state folder.old).file file)
        → OnOk result (IsNew to.now ((C.state folder.old).file file).now
        (C.state folder.new)) }
{
    let Ok(mark) = name_of_mark(alloc, to) else {
        return Err(FileError::NoMemory);
    };
    or_error(rename_under(folder, from, to, mark.as_str()))
}

/// Renames `from` to `to`, and syncs the folder under the mark of this name.
fn rename_under<C: Folder<Error = io::Error>>(
    folder: &mut C,
    from: &str,
    to: &str,
    mark: &str,
) -> io::Result<()>
    ensures kept { C.keeps folder.old → C.keeps folder.new }
    ensures always { C.keeps folder.old → bytes_eq from.now to.now ≡ false
        → mark.now ≡ mark_of to.now
        → (file : ℕ) → leads (C.state folder.old).steps from.now ≡ Some file
        → IsAtRest ((C.state folder.old).file file)
        → IsAlways (IsOldOrNew to.now ((C.state folder.old).file file).now
        (C.state folder.old)) (C.past folder.old) (C.past folder.new) (C.state folder.new) }
    ensures done { C.keeps folder.old → bytes_eq from.now to.now ≡ false
        → mark.now ≡ mark_of to.now
        → (file : ℕ) → leads (C.state folder.old).steps from.now ≡ Some file
        → IsAtRest ((C.state folder.old).file file)
        → OnOk result (IsNew to.now ((C.state folder.old).file file).now
        (C.state folder.new)) }
{
    folder.rename(from, to)?;
    sync_renamed(folder, to, mark)
}
