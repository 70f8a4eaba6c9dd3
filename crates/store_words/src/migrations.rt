//! A migration reads a small store, and makes a large one that holds the same state.

ghost use Rattle.store_words.specs.Sources.{migrated_layout};
ghost use Rattle.store_words.specs.Stores.{MigratesRead, Prints, migrated_line};

use crate::makings::Making;
use crate::renewals::sizes_on;
use crate::sources::migrated_layout;
use arrayvec::ArrayVec;
use console_lines::{RunFault, push, push_number, write_whole};
use run_book::MigrateFault;
use run_disk::RunDisk;
use run_model::Layout;
use std::alloc::Global;
use std::io::Write;

/// Makes a large store of `new`, a disk of that size, with the state in the small store on `old`.
/// Reads in the new store how many events it has. The old disk is only read. The new one is
/// returned.
pub fn migrate<D: RunDisk, E: RunDisk>(
    alloc: Global,
    old: &mut D,
    new: E,
) -> (Result<u64, MigrateFault>, E)
    ensures { MigratesRead D.state E.state old.old new result.0 old.new result.1 }
{
    let mut made = match run_book::migrate(alloc, old, new) {
        Ok(made) => made,
        Err((fault, left)) => return (Err(fault), left),
    };
    match sizes_on(alloc, &mut made) {
        Ok(sizes) => (Ok(sizes.events), made),
        Err(fault) => (Err(MigrateFault::New(fault)), made),
    }
}

/// A migration.
pub struct Migration;

impl<D: RunDisk> Making<D> for Migration {
    type Made = u64;

    ghost layout = { migrated_layout };

    ghost line = { migrated_line };

    ghost ends = { MigratesRead D.state D.state };

    fn layout_for(&self, size: u64) -> Option<Layout> {
        migrated_layout(size)
    }

    fn make(&self, alloc: Global, old: &mut D, new: D) -> (Result<u64, MigrateFault>, D) {
        migrate(alloc, old, new)
    }

    fn print<W: Write>(&self, count: u64, output: &mut W) -> Result<(), RunFault> {
        print_count(count, output)
    }
}

/// Prints the line of a migration. It takes no memory.
fn print_count<W: Write>(count: u64, output: &mut W) -> Result<(), RunFault>
    ensures { Prints (migrated_line count) result (W.contents output.old) (W.contents output.new) }
{
    let mut line: ArrayVec<u8, 38> = ArrayVec::new();
    push_number(&mut line, b"migrated; events ", count);
    push(&mut line, b"\n");
    write_whole(output, line.as_slice())
}
