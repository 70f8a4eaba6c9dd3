//! A copy of a store that replaces it, over any [`Folder`].

ghost use Rattle.std.specs.Prelude.{◌≡◌, ◌+◌, List, ℕ, Some, false, length, bytes_eq};
ghost use Rattle.std.specs.Prelude.{take, IfOk, Ok, OnErr, OnOk};
ghost use Rattle.std.specs.Fn.{FnOnceReturnsAt};
ghost use Rattle.file_calls.specs.Folders.{IsAlways, IsNew, IsOldOrNew, IsOnly, IsSameFolder};
ghost use Rattle.file_calls.specs.Folders.{ToIdentify};
ghost use Rattle.file_calls.specs.Names.{leads};
ghost use Rattle.file_calls.specs.OpenFiles.{IsAtRest, IsIntact};
ghost use Rattle.std.specs.declared.io.Error.{Error};
ghost use Rattle.store_replacement.specs.Replacements.{IsCopied, IsForCopy, IsWhole};

use crate::new_files::take_away;
use crate::replacements::put;
use crate::results::{or_error, or_uncopied};
use file_calls::{Folder, Inode};
use std::alloc::Global;
use std::io;
use store_files::FileError;

/// How many bytes are read and written at a time.
const PART: usize = 4096;

/// Copies a file into a new one, through reads.
fn copy<C: Folder>(folder: &mut C, from: &C::File, to: &C::File) -> Result<(), C::Error>
    ensures kept { C.keeps folder.old → C.keeps folder.new }
    ensures always { C.keeps folder.old
        → IsAlways (IsOnly (C.number to.now) (C.state folder.old)) (C.past folder.old)
        (C.past folder.new) (C.state folder.new) }
    ensures done { C.keeps folder.old → (name : List ℕ)
        → IsForCopy (C.number from.now) (C.number to.now) name (C.state folder.old)
        → OnOk result (IsCopied ((C.state folder.old).file (C.number from.now)).now
        (C.number to.now) (C.state folder.old) (C.state folder.new)) }
{
    let size = folder.size(from)?;
    copy_all(folder, from, to, size)
}

/// Copies so many bytes of a file into a new one.
fn copy_all<C: Folder>(
    folder: &mut C,
    from: &C::File,
    to: &C::File,
    size: u64,
) -> Result<(), C::Error>
    ensures kept { C.keeps folder.old → C.keeps folder.new }
    ensures always { C.keeps folder.old
        → IsAlways (IsOnly (C.number to.now) (C.state folder.old)) (C.past folder.old)
        (C.past folder.new) (C.state folder.new) }
    ensures done { C.keeps folder.old → (name : List ℕ)
        → IsForCopy (C.number from.now) (C.number to.now) name (C.state folder.old)
        → OnOk result (IsCopied (take size ((C.state folder.old).file (C.number from.now)).now)
        (C.number to.now) (C.state folder.old) (C.state folder.new)) }
{
    let mut at = 0;
    while at < size {
        let mut part = [0u8; PART];
        let count = (size - at).min(PART as u64) as usize;
        copy_part(folder, from, to, at, &mut part[..count])?;
        at += count as u64;
    }
    Ok(())
}

/// Copies the bytes from the place `at` on that fill `part`.
fn copy_part<C: Folder>(
    folder: &mut C,
    from: &C::File,
    to: &C::File,
    at: u64,
    part: &mut [u8],
) -> Result<(), C::Error>
    ensures kept { C.keeps folder.old → C.keeps folder.new }
    ensures always { C.keeps folder.old
        → IsAlways (IsOnly (C.number to.now) (C.state folder.old)) (C.past folder.old)
        (C.past folder.new) (C.state folder.new) }
    ensures done { C.keeps folder.old
        → ((C.state folder.old).file (C.number to.now)).now
        ≡ take at ((C.state folder.old).file (C.number from.now)).now
        → IsIntact ((C.state folder.old).file (C.number to.now))
        → OnOk result (IsCopied
        (take (at + length part.old) ((C.state folder.old).file (C.number from.now)).now)
        (C.number to.now) (C.state folder.old) (C.state folder.new)) }
{
    folder.read_at(from, at, part)?;
    folder.write_at(to, at, part)
}

/// Copies a file into a new one, and syncs the new one.
fn copy_synced<C: Folder>(folder: &mut C, from: &C::File, to: &C::File) -> Result<(), C::Error>
    ensures kept { C.keeps folder.old → C.keeps folder.new }
    ensures always { C.keeps folder.old
        → IsAlways (IsOnly (C.number to.now) (C.state folder.old)) (C.past folder.old)
        (C.past folder.new) (C.state folder.new) }
    ensures done { C.keeps folder.old → (name : List ℕ)
        → IsForCopy (C.number from.now) (C.number to.now) name (C.state folder.old)
        → OnOk result (IsWhole ((C.state folder.old).file (C.number from.now)).now
        ((C.state folder.new).file (C.number to.now))) }
{
    copy(folder, from, to)?;
    folder.sync_file(to)
}

/// Returns the identity of an open file.
pub(crate) fn inode_of<C: Folder<Error = io::Error>>(
    folder: &mut C,
    file: &C::File,
) -> Result<Inode, FileError>
    ensures kept { C.keeps folder.old → C.keeps folder.new }
    ensures always { C.keeps folder.old
        → IsAlways (IsSameFolder (C.state folder.old)) (C.past folder.old)
        (C.past folder.new) (C.state folder.new) }
    ensures inode { C.keeps folder.old → IfOk result (λ inode.
        inode.number ≡ C.number file.now) }
    ensures device { C.keeps folder.old → IfOk result (λ inode. inode.device ≡ C.device) }
    ensures refused { C.keeps folder.old → OnErr result
        ((error : Error) × C.refuses folder.new (ToIdentify (C.number file.now)) error) }
{
    or_error(folder.inode(file))
}

/// Replaces the file with the name `to` by the file `made`, with the name `from`.
fn put_made<C: Folder<Error = io::Error>>(
    folder: &mut C,
    alloc: Global,
    file: &C::File,
    made: &C::File,
    from: &str,
    to: &str,
) -> Result<(), FileError>
    ensures kept { C.keeps folder.old → C.keeps folder.new }
    ensures always { C.keeps folder.old → bytes_eq from.now to.now ≡ false
        → IsAtRest ((C.state folder.old).file (C.number made.now))
        → IsAlways (IsOldOrNew to.now ((C.state folder.old).file (C.number made.now)).now
        (C.state folder.old)) (C.past folder.old) (C.past folder.new) (C.state folder.new) }
    ensures done { C.keeps folder.old → bytes_eq from.now to.now ≡ false
        → IsAtRest ((C.state folder.old).file (C.number made.now))
        → OnOk result (IsNew to.now ((C.state folder.old).file (C.number made.now)).now
        (C.state folder.new)) }
{
    let new = inode_of(folder, made)?;
    let old = inode_of(folder, file)?;
    put(folder, alloc, new, old, from, to)
}

/// Copies the file with the name `to` into a new one, `made`, with the name `from`, and replaces it
/// by the copy.
fn put_copy<C: Folder<Error = io::Error>>(
    folder: &mut C,
    alloc: Global,
    file: &C::File,
    made: &C::File,
    from: &str,
    to: &str,
) -> Result<(), FileError>
    ensures kept { C.keeps folder.old → C.keeps folder.new }
    ensures always { C.keeps folder.old → bytes_eq from.now to.now ≡ false
        → IsForCopy (C.number file.now) (C.number made.now) to.now (C.state folder.old)
        → IsAlways (IsOldOrNew to.now ((C.state folder.old).file (C.number file.now)).now
        (C.state folder.old)) (C.past folder.old) (C.past folder.new) (C.state folder.new) }
    ensures done { C.keeps folder.old → bytes_eq from.now to.now ≡ false
        → IsForCopy (C.number file.now) (C.number made.now) to.now (C.state folder.old)
        → OnOk result (IsNew to.now ((C.state folder.old).file (C.number file.now)).now
        (C.state folder.new)) }
{
    or_uncopied(copy_synced(folder, file, made))?;
    put_made(folder, alloc, file, made, from, to)
}

/// Prepares a new file, and replaces the file with the name `to` by a copy in it.
fn put_prepared<C: Folder<Error = io::Error>, P>(
    folder: &mut C,
    alloc: Global,
    file: &C::File,
    made: &C::File,
    from: &str,
    to: &str,
    prepare: P,
) -> Result<(), FileError>
where
    P: FnOnce(&C::File) -> Result<(), FileError>,
    requires prepare { P.IsAlwaysCallable prepare }
    ensures kept { C.keeps folder.old → C.keeps folder.new }
    ensures always { C.keeps folder.old → bytes_eq from.now to.now ≡ false
        → IsForCopy (C.number file.now) (C.number made.now) to.now (C.state folder.old)
        → IsAlways (IsOldOrNew to.now ((C.state folder.old).file (C.number file.now)).now
        (C.state folder.old)) (C.past folder.old) (C.past folder.new) (C.state folder.new) }
    ensures done { C.keeps folder.old → bytes_eq from.now to.now ≡ false
        → IsForCopy (C.number file.now) (C.number made.now) to.now (C.state folder.old)
        → OnOk result (IsNew to.now ((C.state folder.old).file (C.number file.now)).now
        (C.state folder.new)) }
    ensures prepared { OnOk result (FnOnceReturnsAt P.FnOnce prepare made.now (Ok tt)) }
{
    prepare(made)?;
    put_copy(folder, alloc, file, made, from, to)
}

/// Replaces the file with the name `to`, which is open, by a copy of it, and returns the copy. The
/// copy is made under the name `from`, where no file may be. Before its first byte is written,
/// `lock` takes its lock, and `prepare` gives it its owner and its rights. At each moment a crash
/// leaves `to` leading to the old file or to a whole copy, and after Ok to the copy. If this fails,
/// the copy is removed, unless another program has its lock.
pub fn replace_by_copy<C: Folder<Error = io::Error>, L, P>(
    folder: &mut C,
    alloc: Global,
    file: &C::File,
    from: &str,
    to: &str,
    lock: L,
    prepare: P,
) -> Result<C::File, FileError>
where
    L: FnOnce(&C::File) -> Result<(), FileError>,
    P: FnOnce(&C::File) -> Result<(), FileError>,
    requires ready { L.IsAlwaysCallable lock × P.IsAlwaysCallable prepare }
    ensures kept { C.keeps folder.old → C.keeps folder.new }
    ensures always { C.keeps folder.old → bytes_eq from.now to.now ≡ false
        → leads (C.state folder.old).steps to.now ≡ Some (C.number file.now)
        → IsAlways (IsOldOrNew to.now ((C.state folder.old).file (C.number file.now)).now
        (C.state folder.old)) (C.past folder.old) (C.past folder.new) (C.state folder.new) }
    ensures done { C.keeps folder.old → bytes_eq from.now to.now ≡ false
        → leads (C.state folder.old).steps to.now ≡ Some (C.number file.now)
        → OnOk result (IsNew to.now ((C.state folder.old).file (C.number file.now)).now
        (C.state folder.new)) }
    ensures locked { IfOk result (λ made. FnOnceReturnsAt L.FnOnce lock made (Ok tt)
        × FnOnceReturnsAt P.FnOnce prepare made (Ok tt)) }
{
    let made = match folder.create_new(from) {
        Ok(made) => made,
        Err(error) => return or_uncopied(Err(error)),
    };
    lock(&made)?;
    match put_prepared(folder, alloc, file, &made, from, to, prepare) {
        Ok(()) => Ok(made),
        Err(error) => {
            let _left = take_away(folder, &made, from);
            Err(error)
        }
    }
}
