//! What a run of the program leaves on a shelf, the next one finds: so what the law on many runs
//! takes of files can be met.

ghost use Rattle.std.specs.Prelude.{ℕ};
ghost use Rattle.program_tests.specs.Keeping.{KeepsWhatIsLeft, ReadingsAreRuns, ScriptsAreRuns};
ghost use Rattle.program_tests.specs.Shelves.{shelf_view};

use crate::shelves::Shelf;
use run_disk::{Fuse, MemoryDisk, RunDisk};
use store_files::Files;

/// A shelf of honest disks keeps what is left in its files.
fn honest_disks_are_kept<D: RunDisk>()
    ensures found { (passes : D → ℕ) → ((disk : D) → (D.state disk).honest)
        → KeepsWhatIsLeft D.state (shelf_view D.state passes) }
    ensures readings { (passes : D → ℕ) → ((disk : D) → (D.state disk).honest)
        → ReadingsAreRuns D.state (shelf_view D.state passes) }
    ensures scripts { (passes : D → ℕ) → ((disk : D) → (D.state disk).honest)
        → ScriptsAreRuns D.state (shelf_view D.state passes) }
{}

/// An opening of a file on a shelf finds what the run before it left there. So a file that was only
/// read, and a store over which lines were run up to their end, are left as
/// `many_runs_lose_nothing_acknowledged` takes them.
pub fn a_shelf_keeps_what_is_left()
    ensures found { KeepsWhatIsLeft (⟦<Fuse<MemoryDisk> as RunDisk>⟧.state)
        (⟦<Shelf as Files>⟧.seen) }
    ensures readings { ReadingsAreRuns (⟦<Fuse<MemoryDisk> as RunDisk>⟧.state)
        (⟦<Shelf as Files>⟧.seen) }
    ensures scripts { ScriptsAreRuns (⟦<Fuse<MemoryDisk> as RunDisk>⟧.state)
        (⟦<Shelf as Files>⟧.seen) }
{
    honest_disks_are_kept::<Fuse<MemoryDisk>>();
}
