//! A [`Making`] is a way to make a new store from an old one: a migration or a renewal.

ghost use Rattle.std.specs.Prelude.{◌≡◌, ℕ, List, Option, Result};
ghost use Rattle.run_model.specs.declared.layouts.Layout.{Layout};
ghost use Rattle.book_model.specs.declared.migrations.MigrateFault.{MigrateFault};
ghost use Rattle.store_words.specs.Stores.{Prints};

use console_lines::RunFault;
use run_book::MigrateFault;
use run_disk::RunDisk;
use run_model::Layout;
use std::alloc::Global;
use std::io::Write;

/// A way to make a new store from an old one, over disks of a kind.
pub trait Making<D: RunDisk> {
    /// The numbers that are read in the new store, and printed.
    type Made: Drop;

    /// The layout of the new store, by the number of bytes of the old one.
    ghost layout: { ℕ → Option Layout };

    /// The line that is printed.
    ghost line: { Self.Made → List ℕ };

    /// What is left of the old disk and of the new one.
    ghost ends: { D → D → Result Self.Made MigrateFault → D → D → Type 0 };

    /// The layout of the store that is made of one of this many bytes; `None` if none is.
    fn layout_for(&self, size: u64) -> Option<Layout>
        ensures { result ≡ layout size };

    /// Makes a store of `new` out of the one on `old`, which is only read.
    fn make(&self, alloc: Global, old: &mut D, new: D) -> (Result<Self::Made, MigrateFault>, D)
        ensures { ends old.old new result.0 old.new result.1 };

    /// Prints the line of the store that was made. It takes no memory.
    fn print<W: Write>(&self, made: Self::Made, output: &mut W) -> Result<(), RunFault>
        ensures { Prints (line made) result (W.contents output.old) (W.contents output.new) };
}
