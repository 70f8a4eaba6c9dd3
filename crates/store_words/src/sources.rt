//! The source of a migration or a renewal is the old store. It is read whole before the file of the
//! new store is opened or made.

ghost use Rattle.std.specs.Prelude.{◌≡◌, IfErr, IfOk, Some};
ghost use Rattle.store_words.specs.Sources.{Serves, ServesNot, migrated_layout};

use crate::renewals::sizes_on;
use run_disk::RunDisk;
use run_model::{Fault, Layout};
use std::alloc::Global;

/// Returns the layout of the store that a migration makes from one of `size` bytes: large for a
/// small store.
pub fn migrated_layout(size: u64) -> Option<Layout>
    ensures { result ≡ migrated_layout size }
{
    match Layout::of(size) {
        Some(Layout::Small) => Some(Layout::Large),
        Some(Layout::Large) | None => None,
    }
}

/// Reads the store on a disk whole, if a store of this layout can be made from it, and returns the
/// layout. `WrongSize` if none can be made from a store of its size, `NumbersSpent` if it has 2^62
/// events or more, and otherwise the faults of a recovery.
pub fn read_source<D: RunDisk>(
    alloc: Global,
    disk: &mut D,
    to: Option<Layout>,
) -> Result<Layout, Fault>
    ensures layout { IfOk result (λ layout. to ≡ Some layout) }
    ensures serves { IfOk result (λ layout. Serves (D.state disk.old) (D.state disk.new)) }
    ensures not { IfErr result (λ why. ServesNot D.state to disk.old why disk.new) }
{
    let Some(layout) = to else {
        return Err(Fault::WrongSize);
    };
    if sizes_on(alloc, disk)?.events >= 1 << 62 {
        return Err(Fault::NumbersSpent);
    }
    Ok(layout)
}
