//! What the subcommands do with a store, over its disk.

ghost use Rattle.std.specs.Io.KnownBytes.{Appends};
ghost use Rattle.std.specs.Prelude.{◌≡◌, IfErr, OnErr, OnOk};
ghost use Rattle.console_lines.specs.Progress.{WritesPart};
ghost use Rattle.store_words.specs.Stores.{FormatEnds, InspectEnds, view_text};

use console_lines::{RunFault, write_whole};
use run_book::Book;
use run_disk::RunDisk;
use run_session::State;
use state_views::{View, list_tasks, print_json, print_summary, print_tree};
use std::alloc::{Allocator, Global};
use std::io::Write;

/// Makes a store of a disk, and prints `formatted`. Whatever was on the disk is lost. The disk is
/// returned.
pub fn format<D: RunDisk, W: Write>(disk: D, output: &mut W) -> (Result<(), RunFault>, D)
    ensures { FormatEnds D.state disk result.0 result.1
        (W.contents output.old) (W.contents output.new) }
{
    match Book::format(disk) {
        Ok(disk) => (write_whole(output, b"formatted\n"), disk),
        Err((fault, disk)) => (Err(RunFault::from(fault)), disk),
    }
}

/// Prints this view of the state in the store on a disk. The disk is only read.
pub fn inspect<D: RunDisk, W: Write>(
    alloc: Global,
    disk: &mut D,
    view: View<'_>,
    output: &mut W,
) -> Result<(), RunFault>
    ensures { InspectEnds view.entry D.state disk.old result disk.new
        (W.contents output.old) (W.contents output.new) }
{
    match Book::recover(alloc, disk) {
        Ok(state) => show(&state, view, output),
        Err(fault) => Err(RunFault::from(fault)),
    }
}

/// Prints this view of a state.
fn show<W: Write, B: Allocator>(
    state: &State<B>,
    view: View<'_>,
    output: &mut W,
) -> Result<(), RunFault>
    ensures whole { OnOk result (Appends (W.contents output.old) (W.contents output.new)
        (view_text view.entry state.now)) }
    ensures cut { OnErr result (WritesPart (W.contents output.old) (W.contents output.new)
        (view_text view.entry state.now)) }
    ensures fault { IfErr result (λ fault. fault ≡ RunFault.Output) }
{
    match view {
        View::Whole => state_views::inspect(state, output),
        View::Tasks { phase, group } => list_tasks(state, phase, group, output),
        View::Json { phase, group } => print_json(state, phase, group, output),
        View::Tree { no_tasks } => print_tree(state, no_tasks, output),
        View::Summary => print_summary(state, output),
    }
}
