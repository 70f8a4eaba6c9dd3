//! A new file of zeros, over any [`Folder`].
//!
//! No file that was there is changed, whichever call a crash comes before. If the file can't be
//! made whole, it is removed again.

ghost use Rattle.std.specs.Prelude.{◌≡◌, ◌⊎◌, [], List, ℕ, None, Some, false, true, bytes_eq};
ghost use Rattle.std.specs.Prelude.{replicate, Err, IfErr, IfOk, MatchResult, Ok, OnErr, OnOk};
ghost use Rattle.std.specs.Fn.{FnOnceReturnsAt};
ghost use Rattle.file_calls.specs.Folders.{CreatesFile, FolderState, IsAlways, IsOnly};
ghost use Rattle.file_calls.specs.Folders.{IsSameFolder};
ghost use Rattle.file_calls.specs.Names.{leads};
ghost use Rattle.file_calls.specs.OpenFiles.{IsIntact};
ghost use Rattle.store_replacement.specs.NewFiles.{IsMade, IsStuck, OnlyMakes};
ghost use Rattle.store_replacement.specs.Replacements.{IsCopied, IsWhole, KeepsName};

use crate::copies::inode_of;
use crate::replacements::look_at_new;
use crate::results::or_error;
use file_calls::Folder;
use std::io;
use store_files::FileError;

/// How many bytes are written at a time.
const PART: usize = 4096;

/// Says why a file wasn't made.
#[derive(Drop)]
pub struct NotMade {
    pub error: FileError,
    /// The name may lead to the new file nevertheless: another program has it open, or it couldn't
    /// be removed.
    pub is_left: bool,
}

/// Makes the file of this name, fills it with `size` zero bytes, and syncs it and its folder. It
/// fails if there is a file. Before the first byte is written, `lock` takes the lock of the new
/// file, and `prepare` gives it its owner and its rights. A file whose lock another program has
/// isn't removed.
pub fn make_new<C: Folder<Error = io::Error>, L, P>(
    folder: &mut C,
    name: &str,
    size: u64,
    lock: L,
    prepare: P,
) -> Result<C::File, NotMade>
where
    L: FnOnce(&C::File) -> Result<(), FileError>,
    P: FnOnce(&C::File) -> Result<(), FileError>,
    requires ready { L.IsAlwaysCallable lock × P.IsAlwaysCallable prepare }
    ensures kept { C.keeps folder.old → C.keeps folder.new }
    ensures always { C.keeps folder.old → IsAlways (OnlyMakes name.now (C.state folder.old))
        (C.past folder.old) (C.past folder.new) (C.state folder.new) }
    ensures there { C.keeps folder.old → (file : ℕ)
        → leads (C.state folder.old).steps name.now ≡ Some file
        → IsAlways (IsSameFolder (C.state folder.old)) (C.past folder.old) (C.past folder.new)
        (C.state folder.new) }
    ensures ends { C.keeps folder.old → MatchResult result
        (λ file. IsMade name.now (replicate size 0) (C.number file) (C.state folder.old)
        (C.state folder.new))
        (λ not. not.is_left ≡ false
        → leads (C.state folder.new).steps name.now ≡ leads (C.state folder.old).steps name.now) }
    ensures left { C.keeps folder.old → IfErr result (λ not. not.is_left ≡ true → (file : C.File)
        × (FnOnceReturnsAt L.FnOnce lock file (Err not.error)
        ⊎ IsStuck (C.refuses folder.new) name.now (C.number file))) }
    ensures locked { IfOk result (λ file. FnOnceReturnsAt L.FnOnce lock file (Ok tt)
        × FnOnceReturnsAt P.FnOnce prepare file (Ok tt)) }
{
    let file = match folder.create_new(name) {
        Ok(file) => file,
        Err(error) => {
            return Err(NotMade {
                error: FileError::of(&error),
                is_left: false,
            });
        }
    };
    match make_whole(folder, &file, name, size, lock, prepare) {
        Ok(()) => Ok(file),
        Err(not) => Err(not),
    }
}

/// Locks and fills a file that was just created, and removes it again if it can't be filled.
fn make_whole<C: Folder<Error = io::Error>, L, P>(
    folder: &mut C,
    file: &C::File,
    name: &str,
    size: u64,
    lock: L,
    prepare: P,
) -> Result<(), NotMade>
where
    L: FnOnce(&C::File) -> Result<(), FileError>,
    P: FnOnce(&C::File) -> Result<(), FileError>,
    requires ready { L.IsAlwaysCallable lock × P.IsAlwaysCallable prepare }
    ensures kept { C.keeps folder.old → C.keeps folder.new }
    ensures always { C.keeps folder.old → (s : FolderState)
        → CreatesFile name.now (C.number file.now) s (C.state folder.old)
        → IsAlways (OnlyMakes name.now s) (C.past folder.old) (C.past folder.new)
        (C.state folder.new) }
    ensures made { C.keeps folder.old → (s : FolderState)
        → CreatesFile name.now (C.number file.now) s (C.state folder.old)
        → OnOk result (IsMade name.now (replicate size 0) (C.number file.now) s
        (C.state folder.new)) }
    ensures gone { C.keeps folder.old → (s : FolderState)
        → CreatesFile name.now (C.number file.now) s (C.state folder.old)
        → IfErr result (λ not. not.is_left ≡ false
        → leads (C.state folder.new).steps name.now ≡ leads s.steps name.now) }
    ensures left { C.keeps folder.old → (s : FolderState)
        → CreatesFile name.now (C.number file.now) s (C.state folder.old)
        → IfErr result (λ not. not.is_left ≡ true
        → FnOnceReturnsAt L.FnOnce lock file.now (Err not.error)
        ⊎ IsStuck (C.refuses folder.new) name.now (C.number file.now)) }
    ensures locked { OnOk result (FnOnceReturnsAt L.FnOnce lock file.now (Ok tt)
        × FnOnceReturnsAt P.FnOnce prepare file.now (Ok tt)) }
{
    if let Err(error) = lock(file) {
        return Err(NotMade {
            error,
            is_left: true,
        });
    }
    match fill_named(folder, file, name, size, prepare) {
        Ok(()) => Ok(()),
        Err(error) => Err(NotMade {
            error,
            is_left: take_away(folder, file, name).is_err(),
        }),
    }
}

/// Fills a file that was just created, and syncs it and its folder.
fn fill_named<C: Folder<Error = io::Error>, P>(
    folder: &mut C,
    file: &C::File,
    name: &str,
    size: u64,
    prepare: P,
) -> Result<(), FileError>
where
    P: FnOnce(&C::File) -> Result<(), FileError>,
    requires prepare { P.IsAlwaysCallable prepare }
    ensures kept { C.keeps folder.old → C.keeps folder.new }
    ensures always { C.keeps folder.old → (s : FolderState)
        → CreatesFile name.now (C.number file.now) s (C.state folder.old)
        → IsAlways (OnlyMakes name.now s) (C.past folder.old) (C.past folder.new)
        (C.state folder.new) }
    ensures made { C.keeps folder.old → (s : FolderState)
        → CreatesFile name.now (C.number file.now) s (C.state folder.old)
        → OnOk result (IsMade name.now (replicate size 0) (C.number file.now) s
        (C.state folder.new)) }
    ensures named { C.keeps folder.old → (s : FolderState)
        → CreatesFile name.now (C.number file.now) s (C.state folder.old)
        → leads (C.state folder.new).steps name.now ≡ Some (C.number file.now) }
    ensures prepared { OnOk result (FnOnceReturnsAt P.FnOnce prepare file.now (Ok tt)) }
{
    prepare(file)?;
    or_error(fill_synced(folder, file, size))?;
    or_error(folder.sync_names(name))
}

/// Fills a file that has no bytes, and syncs it.
fn fill_synced<C: Folder>(folder: &mut C, file: &C::File, size: u64) -> Result<(), C::Error>
    ensures kept { C.keeps folder.old → C.keeps folder.new }
    ensures always { C.keeps folder.old
        → IsAlways (IsOnly (C.number file.now) (C.state folder.old)) (C.past folder.old)
        (C.past folder.new) (C.state folder.new) }
    ensures done { C.keeps folder.old → ((C.state folder.old).file (C.number file.now)).now ≡ []
        → IsIntact ((C.state folder.old).file (C.number file.now))
        → OnOk result (IsWhole (replicate size 0)
        ((C.state folder.new).file (C.number file.now))) }
{
    fill(folder, file, size)?;
    folder.sync_file(file)
}

/// Fills a file that has no bytes with `size` zeros.
fn fill<C: Folder>(folder: &mut C, file: &C::File, size: u64) -> Result<(), C::Error>
    ensures kept { C.keeps folder.old → C.keeps folder.new }
    ensures always { C.keeps folder.old
        → IsAlways (IsOnly (C.number file.now) (C.state folder.old)) (C.past folder.old)
        (C.past folder.new) (C.state folder.new) }
    ensures done { C.keeps folder.old → ((C.state folder.old).file (C.number file.now)).now ≡ []
        → IsIntact ((C.state folder.old).file (C.number file.now))
        → OnOk result (IsCopied (replicate size 0) (C.number file.now) (C.state folder.old)
        (C.state folder.new)) }
{
    let mut at = 0;
    while at < size {
        let part = [0u8; PART];
        let count = (size - at).min(PART as u64) as usize;
        folder.write_at(file, at, &part[..count])?;
        at += count as u64;
    }
    Ok(())
}

/// Removes the name, which has to lead to this file.
pub(crate) fn take_away<C: Folder<Error = io::Error>>(
    folder: &mut C,
    file: &C::File,
    name: &str,
) -> Result<(), FileError>
    ensures kept { C.keeps folder.old → C.keeps folder.new }
    ensures always { C.keeps folder.old → (s : FolderState)
        → OnlyMakes name.now s (C.state folder.old)
        → IsAlways (OnlyMakes name.now s) (C.past folder.old) (C.past folder.new)
        (C.state folder.new) }
    ensures others { C.keeps folder.old → (other : List ℕ) → bytes_eq name.now other ≡ false
        → IsAlways (KeepsName other (C.state folder.old)) (C.past folder.old)
        (C.past folder.new) (C.state folder.new) }
    ensures gone { C.keeps folder.old
        → OnOk result (leads (C.state folder.new).steps name.now ≡ None) }
    ensures stuck { C.keeps folder.old
        → leads (C.state folder.old).steps name.now ≡ Some (C.number file.now)
        → OnErr result (IsStuck (C.refuses folder.new) name.now (C.number file.now)) }
{
    let new = inode_of(folder, file)?;
    look_at_new(folder, new, name)?;
    or_error(folder.remove(name))
}
