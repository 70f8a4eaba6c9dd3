//! The mark of a store is the file `STORE.failed`. While it is there, a sync of the store has
//! failed.

ghost use Rattle.std.specs.Prelude.{◌≡◌, List, ℕ, false, true, bytes_eq, IfErr, IfOk, OnErr, OnOk};
ghost use Rattle.std.specs.Bool.{OnFalse, OnTrue};
ghost use Rattle.std.specs.String.{string_bytes};
ghost use Rattle.std.specs.IoError.{error_kind};
ghost use Rattle.file_calls.specs.Folders.{IsAlways, IsSameFolder, ToCreate, ToLookUp, ToSync};
ghost use Rattle.store_replacement.specs.Marks.{AreSettled, HasNoSync, IsLeft, IsMarked, SaysNone};
ghost use Rattle.store_replacement.specs.Marks.{IsUnsynced};
ghost use Rattle.store_replacement.specs.Replacements.{KeepsName, mark_of};

use file_calls::Folder;
use std::alloc::{AllocError, Global};
use std::io;
use store_files::FileError;

/// The name of a store's mark is the store's name and this.
const FAILED: &str = ".failed";

/// Leaves the mark of this name, and returns whether there was none before.
pub fn leave_mark<C: Folder>(folder: &mut C, mark: &str) -> bool
    ensures kept { C.keeps folder.old → C.keeps folder.new }
    ensures always { C.keeps folder.old → (name : List ℕ) → bytes_eq mark.now name ≡ false
        → IsAlways (KeepsName name (C.state folder.old)) (C.past folder.old)
        (C.past folder.new) (C.state folder.new) }
    ensures marked { C.keeps folder.old → IsMarked (C.refuses folder.new (ToCreate mark.now))
        mark.now (C.state folder.new) }
{
    folder.create_new(mark).is_ok()
}

/// Returns whether there is a mark of this name. If the system can't tell, because the name is too
/// long for it, there can't be one.
pub fn is_marked<C: Folder<Error = io::Error>>(folder: &mut C, mark: &str) -> io::Result<bool>
    ensures kept { C.keeps folder.old → C.keeps folder.new }
    ensures always { C.keeps folder.old
        → IsAlways (IsSameFolder (C.state folder.old)) (C.past folder.old)
        (C.past folder.new) (C.state folder.new) }
    ensures there { C.keeps folder.old → IfOk result (λ is_left. OnTrue is_left
        (IsLeft mark.now (C.state folder.old))) }
    ensures none { C.keeps folder.old → IfOk result (λ is_left. OnFalse is_left
        (SaysNone (C.refuses folder.new (ToLookUp mark.now)))) }
{
    match folder.look_up(mark) {
        Ok(_) => Ok(true),
        Err(error) if matches!(error.kind(), io::ErrorKind::NotFound) => Ok(false),
        Err(error) => Err(error),
    }
}

/// Removes the mark of this name. A file of this name that isn't empty is no mark, and stays.
pub fn remove_mark<C: Folder>(folder: &mut C, mark: &str)
    ensures kept { C.keeps folder.old → C.keeps folder.new }
    ensures always { C.keeps folder.old → (name : List ℕ) → bytes_eq mark.now name ≡ false
        → IsAlways (KeepsName name (C.state folder.old)) (C.past folder.old)
        (C.past folder.new) (C.state folder.new) }
{
    if !is_full(folder, mark) {
        let _gone = folder.remove(mark);
    }
}

/// Returns whether there is a file of this name that isn't empty.
fn is_full<C: Folder>(folder: &mut C, name: &str) -> bool
    ensures kept { C.keeps folder.old → C.keeps folder.new }
    ensures always { C.keeps folder.old
        → IsAlways (IsSameFolder (C.state folder.old)) (C.past folder.old)
        (C.past folder.new) (C.state folder.new) }
{
    match folder.look_up(name) {
        Ok(found) => found.is_file && found.size > 0,
        Err(_) => false,
    }
}

/// Returns whether a sync of a folder failed, and wasn't impossible.
pub fn has_failed(done: &io::Result<()>) -> bool
    ensures { result ≡ false → IfErr done.now (λ error. IsUnsynced (error_kind error)) }
{
    match done {
        Ok(()) => false,
        Err(error) => !is_unsynced(error.kind()),
    }
}

/// Returns whether a sync of a folder was impossible, and not failed: the folder may not be read,
/// or its file system has no sync.
pub fn is_unsynced(kind: io::ErrorKind) -> bool
    ensures { result ≡ true → IsUnsynced kind }
{
    matches!(kind, io::ErrorKind::PermissionDenied) || has_no_sync(kind)
}

/// Returns whether a sync failed because the file system has no sync, or is read-only. A denied
/// write is another failure: its bytes may be what a program wrote before.
pub fn has_no_sync(kind: io::ErrorKind) -> bool
    ensures { result ≡ true → HasNoSync kind }
{
    matches!(
        kind,
        io::ErrorKind::InvalidInput | io::ErrorKind::Unsupported | io::ErrorKind::ReadOnlyFilesystem
    )
}

/// Syncs the names in the folder of this one, so that a power failure leaves a store its name. If
/// that fails, the mark is left: the system may treat the folder as written, but the copy that
/// replaces the store at the next opening changes the folder once more. A folder that may not be
/// read, or that has no sync, is passed over.
pub fn settle_names<C: Folder<Error = io::Error>>(
    folder: &mut C,
    name: &str,
    mark: &str,
) -> Result<(), FileError>
    ensures kept { C.keeps folder.old → C.keeps folder.new }
    ensures settled { C.keeps folder.old → OnOk result (AreSettled
        (C.refuses folder.new (ToSync name.now)) (C.state folder.old) (C.state folder.new)) }
    ensures marked { C.keeps folder.old → OnErr result (IsMarked
        (C.refuses folder.new (ToCreate mark.now)) mark.now (C.state folder.new)) }
{
    match folder.sync_names(name) {
        Ok(()) => Ok(()),
        Err(error) if is_unsynced(error.kind()) => Ok(()),
        Err(error) => {
            leave_mark(folder, mark);
            Err(FileError::of(&error))
        }
    }
}

/// Leaves the mark if a sync failed, and else removes it if it was left for the sync.
pub(crate) fn settle_mark<C: Folder>(folder: &mut C, mark: &str, is_left: bool, has_failed: bool)
    ensures kept { C.keeps folder.old → C.keeps folder.new }
    ensures always { C.keeps folder.old → (name : List ℕ) → bytes_eq mark.now name ≡ false
        → IsAlways (KeepsName name (C.state folder.old)) (C.past folder.old)
        (C.past folder.new) (C.state folder.new) }
    ensures marked { C.keeps folder.old → has_failed ≡ true → IsMarked
        (C.refuses folder.new (ToCreate mark.now)) mark.now (C.state folder.new) }
{
    if has_failed {
        leave_mark(folder, mark);
    } else if is_left {
        remove_mark(folder, mark);
    }
}

/// The name of the mark of the store of this name.
pub fn name_of_mark(alloc: Global, name: &str) -> Result<String, AllocError>
    ensures { IfOk result (λ mark. string_bytes mark ≡ mark_of name.now) }
{
    [name, FAILED].concat(alloc)
}
