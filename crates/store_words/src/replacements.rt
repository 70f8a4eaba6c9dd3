//! A renewal in place makes a new store next to the old one, and replaces the old store by it.

ghost use Rattle.std.specs.Prelude.{◌≡◌, IfErr, IfOk, OnOk};
ghost use Rattle.std.specs.String.{string_bytes};
ghost use Rattle.store_files.specs.Files.{AreNoted, IsReplaced, IsSettled, beside};
ghost use Rattle.store_words.specs.Replacements.{DoesRenewInPlace, EndsInPlace, IsNotPut};
ghost use Rattle.store_words.specs.Replacements.{LacksBeside, MakesBeside};

use crate::renewals::{print_sizes, renew};
use crate::{
    Done, Failure, FileName, done_alone, failed_of, failed_over, no_file, not_put, unopened,
};
use console_lines::RunFault;
use run_disk::RunDisk;
use run_model::{Fault, Layout};
use std::alloc::{AllocError, Global};
use std::io::Write;
use store_files::{BESIDE, FileError, Files, Made, Opened};

/// Opens the store in the file with this name, and locks it. Makes a store of the same size next to
/// it, which holds everything that isn't finished in it. Replaces the store by the new one, and
/// prints how much is left. Until the replacement, the store is only read. If anything fails, the
/// new store is removed again.
pub fn renew_in_place<'a, F: Files, O: Write>(
    alloc: Global,
    store: &'a str,
    files: &mut F,
    output: &mut O,
) -> Result<Done, Failure<'a>>
    ensures { DoesRenewInPlace F.Disk.state F.seen store.now result files.old files.new
        (O.contents output.old) (O.contents output.new) }
{
    let Opened { disk, why } = match files.open(store) {
        Ok(opened) => opened,
        Err(error) => return Err(no_file(store, error)),
    };
    let Some(layout) = Layout::of(disk.size()) else {
        files.close(store, disk);
        return Err(failed_over(RunFault::from(Fault::WrongSize), store, &why));
    };
    let Ok(name) = name_beside(alloc, store) else {
        files.close(store, disk);
        return done_alone(Err(RunFault::Memory));
    };
    match make_beside(name.as_str(), store, layout, files) {
        Ok(made) => {
            let stored = Opened { disk, why };
            put_renewed(alloc, store, stored, name.as_str(), made, files, output)
        }
        Err(error) => {
            files.close(store, disk);
            Err(unopened(FileName::Beside(store), error))
        }
    }
}

/// The name of the file beside the one of this name.
fn name_beside(alloc: Global, store: &str) -> Result<String, AllocError>
    ensures { IfOk result (λ name. string_bytes name ≡ beside store.now) }
{
    [store, BESIDE].concat(alloc)
}

/// Makes the file of this name with the size of a store of this layout, and with the owner and the
/// rights of `store`. A file that a killed renewal left is removed first, unless another program
/// has it open.
fn make_beside<F: Files>(
    name: &str,
    store: &str,
    layout: Layout,
    files: &mut F,
) -> Result<Made<F::Disk, F::FirstError>, FileError>
    ensures made { IfOk result (λ made. MakesBeside F.Disk.state F.seen name.now layout
        made.disk files.old files.new) }
    ensures not { IfErr result (λ error.
        LacksBeside F.Disk.state F.seen name.now error files.old files.new) }
    ensures noted { IfOk result (λ made. AreNoted (F.FirstError.notes made.why)
        (F.seen.notes made.disk)) }
{
    match files.open(name) {
        Ok(_left) => files.remove(name),
        Err(FileError::InUse) => return Err(FileError::InUse),
        Err(_) => (),
    }
    files.create_new(name, Some(store), layout.store_len())
}

/// Makes of the new file, which has this name, a store of what isn't finished in the open one, and
/// replaces the open one by it; then prints how much is left. If either fails, the new file is
/// removed again.
fn put_renewed<'a, F: Files, O: Write>(
    alloc: Global,
    store: &'a str,
    stored: Opened<F::Disk, F::FirstError>,
    name: &str,
    made: Made<F::Disk, F::FirstError>,
    files: &mut F,
    output: &mut O,
) -> Result<Done, Failure<'a>>
    requires settled { IsSettled (F.Disk.state made.disk) }
    requires named { name.now ≡ beside store.now }
    requires old { AreNoted (F.FirstError.notes stored.why)
        (F.seen.notes stored.disk) }
    requires new { AreNoted (F.FirstError.notes made.why)
        (F.seen.notes made.disk) }
    ensures { EndsInPlace F.Disk.state F.seen store.now stored.disk made.disk result
        files.old files.new (O.contents output.old) (O.contents output.new) }
{
    let Opened {
        disk: mut source,
        why: why_old,
    } = stored;
    let Made { disk, why, .. } = made;
    let (done, left) = renew(alloc, &mut source, disk);
    match done {
        Ok(kept) => match put(left, source, name, store, files) {
            Ok(()) => done_alone(print_sizes(kept, output)),
            Err(error) => Err(not_put(store, error)),
        },
        Err(fault) => {
            files.remove(name);
            files.close(store, source);
            let beside = FileName::Beside(store);
            Err(failed_of(fault, FileName::Own(store), &why_old, beside, &why))
        }
    }
}

/// Replaces `over`, the file of the second name, by `disk`, the file of the first, or removes that.
fn put<F: Files>(
    disk: F::Disk,
    over: F::Disk,
    from: &str,
    to: &str,
    files: &mut F,
) -> Result<(), FileError>
    requires settled { IsSettled (F.Disk.state disk) }
    ensures put { OnOk result (IsReplaced F.seen disk from.now to.now files.old files.new) }
    ensures not { IfErr result (λ error.
        IsNotPut F.Disk.state F.seen disk over from.now to.now error files.old files.new) }
{
    let done = files.replace(disk, over, from, to);
    if done.is_err() {
        files.remove(from);
    }
    done
}
