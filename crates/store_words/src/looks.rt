//! A store that another program has open is printed.

ghost use Rattle.std.specs.Prelude.{◌≡◌, IfErr, IfOk, IfSome};
ghost use Rattle.run_disk.specs.Runs.{OnlyReads};
ghost use Rattle.store_files.specs.Files.{AreNoted, IsReadTwice};
ghost use Rattle.store_words.specs.Looks.{IsCopy, IsUnread, LookEnds};

use crate::stores::inspect;
use crate::{Done, Failure, done_over, failed_over, no_file};
use console_lines::RunFault;
use run_disk::{MemoryDisk, RunDisk};
use run_model::{Fault, Layout};
use state_views::View;
use std::alloc::Global;
use std::io::Write;
use store_files::{FileError, Files, Opened};

/// How often the store is read at most.
const MOST_READINGS: usize = 100;

/// Prints a view of a store to which another program may be writing. It reads the store, with
/// pauses, until two reads in a row return the same bytes. If no two do, the store is reported as
/// in use.
pub fn look<'a, F: Files, W: Write>(
    alloc: Global,
    files: &F,
    opened: Opened<F::Disk, F::FirstError>,
    store: &'a str,
    view: View<'_>,
    output: &mut W,
) -> (Result<Done, Failure<'a>>, F::Disk)
    requires noted { AreNoted (F.FirstError.notes opened.why)
        (F.seen.notes opened.disk) }
    ensures { LookEnds view.entry F.Disk.state F.seen store.now opened.disk result.0 result.1
        (W.contents output.old) (W.contents output.new) }
{
    let Opened { mut disk, why } = opened;
    if Layout::of(disk.size()).is_none() {
        let done = inspect(alloc, &mut disk, view, output);
        return (done_over(done, store, &why), disk);
    }
    let answer = match steady_copy(alloc, files, &mut disk) {
        Ok(Some(mut copy)) => done_over(inspect(alloc, &mut copy, view, output), store, &why),
        Ok(None) => Err(no_file(store, FileError::InUse)),
        Err(fault) => Err(failed_over(RunFault::from(fault), store, &why)),
    };
    (answer, disk)
}

/// A disk in memory with the bytes that two reads in a row returned, if two did.
fn steady_copy<F: Files>(
    alloc: Global,
    files: &F,
    disk: &mut F::Disk,
) -> Result<Option<MemoryDisk>, Fault>
    ensures copies { IfOk result (λ found. IfSome found (λ copy.
        IsCopy F.seen (F.Disk.state disk.old) disk.new (⟦<MemoryDisk as RunDisk>⟧.state copy))) }
    ensures only { (F.Disk.state disk.old).honest
        → OnlyReads (F.Disk.state disk.old) (F.Disk.state disk.new) }
    ensures fault { IfErr result IsUnread }
{
    match steady_bytes(alloc, files, disk)? {
        Some(bytes) => Ok(Some(MemoryDisk::from_bytes(alloc, bytes)?)),
        None => Ok(None),
    }
}

/// The bytes that two reads in a row returned, if two did.
fn steady_bytes<F: Files>(
    alloc: Global,
    files: &F,
    disk: &mut F::Disk,
) -> Result<Option<Vec<u8>>, Fault>
    ensures twice { IfOk result (λ found. IfSome found (λ bytes.
        IsReadTwice F.seen bytes.items disk.new)) }
    ensures bytes { IfOk result (λ found. IfSome found (λ bytes.
        (F.Disk.state disk.old).honest → bytes.items ≡ (F.Disk.state disk.old).now)) }
    ensures only { (F.Disk.state disk.old).honest
        → OnlyReads (F.Disk.state disk.old) (F.Disk.state disk.new) }
    ensures fault { IfErr result IsUnread }
{
    let mut before = read_whole(alloc, files, disk)?;
    for _ in 1..MOST_READINGS {
        files.pause();
        let bytes = read_whole(alloc, files, disk)?;
        if bytes.as_slice() == before.as_slice() {
            return Ok(Some(bytes));
        }
        before = bytes;
    }
    Ok(None)
}

/// All bytes of a disk.
fn read_whole<F: Files>(alloc: Global, files: &F, disk: &mut F::Disk) -> Result<Vec<u8>, Fault>
    ensures gives { IfOk result (λ bytes. F.seen.gives disk.old bytes.items disk.new) }
    ensures bytes { IfOk result (λ bytes.
        (F.Disk.state disk.old).honest → bytes.items ≡ (F.Disk.state disk.old).now) }
    ensures only { (F.Disk.state disk.old).honest
        → OnlyReads (F.Disk.state disk.old) (F.Disk.state disk.new) }
    ensures honest { (F.Disk.state disk.old).honest → (F.Disk.state disk.new).honest }
    ensures fault { IfErr result IsUnread }
{
    let Ok(mut bytes) = vec![in alloc; 0; disk.size() as usize] else {
        return Err(Fault::Memory);
    };
    files.read_all(disk, bytes.as_mut_slice())?;
    Ok(bytes)
}
