//! A migration makes a large store from a small one. [`migrate`] reads the small store, and makes
//! the large one from the state in it.

ghost use Rattle.std.specs.Prelude.{◌≡◌, ◌<◌, ◌+◌, ◌^◌, length, IfErr, OnOk};
ghost use Rattle.run_model.specs.declared.faults.Fault.TheVariants.{DiskFailed};
ghost use Rattle.run_model.specs.declared.layouts.Layout.TheVariants.{Small, Large};
ghost use Rattle.run_model.specs.Layouts.{store_len};
ghost use Rattle.run_model.specs.Rules.{HasLayout};
ghost use Rattle.row_view.specs.declared.heads.ImageVersion.TheVariants.{Two};
ghost use Rattle.row_view.specs.Image.{greatest_image};
ghost use Rattle.book_model.specs.declared.migrations.MigrateFault.TheVariants as why;
ghost use Rattle.book_model.specs.Migrations.{AreSized, HasMigrated, Migrates, MigratesNot};
ghost use Rattle.book_model.specs.Migrations.{Writes, widened};

use crate::copies::{CopyMemory, read_stored, take_copy_memory};
use crate::images::fill;
use book_model::MigrateFault;
use run_disk::RunDisk;
use run_journal::{HEAD, Journal};
use run_model::{Fault, Layout};
use run_session::State;
use std::alloc::Allocator;

/// Makes a large store from a small one. The new disk has the size of a large store. It is returned
/// with the state that the old disk stores, including the number of events and the running tasks:
/// there is no restart. The old disk is read by three calls, and nothing is written to it. The new
/// one takes the eight calls of a format. All memory is taken before the first call.
///
/// It reports the first of these faults that applies: `Old(WrongSize)` if the old disk doesn't have
/// the size of a small store; `New(WrongSize)` if the new one doesn't have that of a large store;
/// `Memory`; the other faults of [`Book::recover`](crate::Book::recover), as `Old`;
/// `Old(NumbersSpent)` if there were 2^62 events or more; and `New(DiskFailed)` if a call of the
/// new disk failed. The new disk is returned with each fault. It is untouched, except after
/// `New(DiskFailed)`: then it may hold no store. If it held zeros, a migration that ends early
/// leaves nothing stored in it, or the new store.
pub fn migrate<D: RunDisk, E: RunDisk, A: Allocator + Copy>(
    alloc: A,
    old: &mut D,
    new: E,
) -> Result<E, (MigrateFault, E)>
    ensures migrates { Migrates D.state E.state old.old new result old.new }
{
    let mut new = new;
    if old.size() != Layout::Small.store_len() {
        return Err((MigrateFault::Old(Fault::WrongSize), new));
    }
    if new.size() != Layout::Large.store_len() {
        return Err((MigrateFault::New(Fault::WrongSize), new));
    }
    match migrate_sized(alloc, old, &mut new) {
        Ok(()) => Ok(new),
        Err(fault) => Err((fault, new)),
    }
}

/// Makes a large store from a small one, on disks of their sizes.
fn migrate_sized<D: RunDisk, E: RunDisk, A: Allocator + Copy>(
    alloc: A,
    old: &mut D,
    new: &mut E,
) -> Result<(), MigrateFault>
    requires sized { AreSized (D.state old.old) (E.state new.old) }
    ensures migrated { OnOk result (HasMigrated (D.state old.old) (D.state old.new)
        (E.state new.old) (E.state new.new)) }
    ensures not { IfErr result (λ fault.
        MigratesNot D.state E.state old.old new.old fault old.new new.new) }
{
    let CopyMemory { state, mut body } = take_copy_memory(alloc, Layout::Small, Layout::Small)?;
    let stored = read_stored(alloc, old, state)?;
    let written = write_large(new, &stored, &mut body);
    drop(stored);
    written
}

/// Makes a large store of a small state. The capacity of the buffer is that of the journal's head
/// and the greatest image.
fn write_large<E: RunDisk, A: Allocator>(
    new: &mut E,
    state: &State<A>,
    body: &mut [u8],
) -> Result<(), MigrateFault>
    requires size { (E.state new.old).size ≡ store_len Large }
    requires layout { HasLayout state.now Small }
    requires few { state.now.count < 2 ^ 62 }
    requires room { length body.old ≡ 12 + greatest_image Two Small }
    ensures writes { Writes Large (widened state.now) (E.state new.old) result (E.state new.new) }
    ensures fault { IfErr result (λ fault. fault ≡ why.New DiskFailed) }
{
    // its clause says that the image fits into the buffer
    let _bound = state.image_bound();
    let count = fill(state, body);
    match Journal::format(new, &mut body[..HEAD + count]) {
        Ok(()) => Ok(()),
        Err(fault) => Err(MigrateFault::New(fault)),
    }
}
