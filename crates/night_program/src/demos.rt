//! `demo` runs the input over a book in memory, which keeps nothing.

ghost use Rattle.std.specs.Prelude.{◌≡◌, ◌⊎◌, IfErr, IfOk};
ghost use Rattle.run_model.specs.declared.faults.Fault.TheVariants.{DiskFailed, Memory};
ghost use Rattle.run_model.specs.declared.layouts.Layout.TheVariants.{Small};
ghost use Rattle.run_model.specs.Layouts.{store_len};
ghost use Rattle.night_program.specs.Demos.{DemoEnds, IsNew};

use crate::scripts::script;
use console_lines::{RejectedLine, RunFault};
use run_book::Book;
use run_console::Until;
use run_disk::{MemoryDisk, RunDisk};
use run_model::{Fault, Layout};
use std::alloc::Global;
use std::io::{Read, Write};

/// Formats and opens a book in memory, and runs the lines of the input over it; `until` says when
/// the run ends. If memory for the book is refused, nothing is read or written.
pub fn demo<R: Read, W: Write>(
    alloc: Global,
    until: Until,
    input: &mut R,
    output: &mut W,
) -> Result<Option<RejectedLine>, RunFault>
    ensures { DemoEnds until result (R.remaining input.old) (R.remaining input.new)
        (W.contents output.old) (W.contents output.new) }
{
    match small_store(alloc) {
        Ok(disk) => script(alloc, disk, until, input, output).0,
        Err(fault) => Err(RunFault::from(fault)),
    }
}

/// A new small store in memory.
fn small_store(alloc: Global) -> Result<MemoryDisk, Fault>
    ensures made { IfOk result (λ disk. IsNew (⟦<MemoryDisk as RunDisk>⟧.state disk)) }
    ensures fault { IfErr result (λ fault. (fault ≡ Memory) ⊎ (fault ≡ DiskFailed)) }
{
    let disk = MemoryDisk::new(alloc, Layout::Small.store_len() as usize)?;
    format(disk)
}

/// Makes a small store of a disk.
fn format<D: RunDisk + Drop>(disk: D) -> Result<D, Fault>
    requires honest { (D.state disk).honest }
    requires size { (D.state disk).size ≡ store_len Small }
    ensures made { IfOk result (λ made. IsNew (D.state made)) }
    ensures fault { IfErr result (λ fault. (fault ≡ Memory) ⊎ (fault ≡ DiskFailed)) }
{
    match Book::format(disk) {
        Ok(disk) => Ok(disk),
        Err((fault, _)) => Err(fault),
    }
}
