//! A renewal makes a store that holds everything that isn't finished in another one. [`renew`]
//! reads the old store, and makes the new one.

ghost use Rattle.std.specs.Prelude.{◌≡◌, ◌≤◌, ◌<◌, ◌+◌, ◌^◌, drop, length, take, true, IfOk, IfErr};
ghost use Rattle.std.specs.Prelude.{OnOk};
ghost use Rattle.run_model.specs.declared.faults.Fault.TheVariants.{DiskFailed};
ghost use Rattle.run_model.specs.Layouts.{store_len};
ghost use Rattle.row_view.specs.declared.heads.ImageVersion.TheVariants.{Two};
ghost use Rattle.row_view.specs.Image.{greatest_image, image};
ghost use Rattle.row_view.specs.Keeping.{IsImage};
ghost use Rattle.state_renewal.specs.Marks.{AreMarks};
ghost use Rattle.state_renewal.specs.Renewed.{fits_in, renewed, renewed_in};
ghost use Rattle.book_model.specs.declared.migrations.MigrateFault.TheVariants as why;
ghost use Rattle.book_model.specs.Migrations.{HasWritten, Writes};
ghost use Rattle.book_renewal.specs.Renewals.{HasRenewed, Renews, RenewsNot, WritesNot};

use book_model::MigrateFault;
use run_book::copies::{CopyMemory, read_stored, take_copy_memory};
use run_disk::RunDisk;
use run_journal::{HEAD, Journal};
use run_model::{Fault, Layout};
use run_session::State;
use state_renewal::Renewal;
use std::alloc::Allocator;

/// Makes a store that holds everything that isn't finished in another one, and everything on which
/// that depends. The new disk is returned with the renewed state, which is the part that a
/// [`Renewal`] keeps of the state on the old disk, with the same clock and number of events.
/// Running tasks stay running: there is no restart. Either store may be small or large, if the kept
/// part fits into the new one. The old disk is read by three calls, and nothing is written to it.
/// The new one takes the eight calls of a format.
///
/// It reports the first of these faults that applies: `Old(WrongSize)` if the old disk doesn't have
/// the size of a store; `New(WrongSize)` if the new one doesn't; `Memory` if memory for a state or
/// an image is refused; the other faults of [`Book::recover`](run_book::Book::recover), as `Old`;
/// `Old(NumbersSpent)` if the old store has 2^62 events or more; `Memory` if memory for the marks
/// of kept rows, two bytes a row, is refused; `New(WrongSize)` if the kept part doesn't fit into
/// the new store; and `New(DiskFailed)` if a call of the new disk failed. The new disk is returned
/// with each fault. It is untouched, except after `New(DiskFailed)`: then it may hold no store. If
/// it held zeros, a renewal that ends early leaves nothing stored in it, or the new store.
pub fn renew<D: RunDisk, E: RunDisk, A: Allocator + Copy>(
    alloc: A,
    old: &mut D,
    new: E,
) -> Result<E, (MigrateFault, E)>
    ensures renews { Renews D.state E.state old.old new result old.new }
{
    let mut new = new;
    let Some(from) = Layout::of(old.size()) else {
        return Err((MigrateFault::Old(Fault::WrongSize), new));
    };
    let Some(to) = Layout::of(new.size()) else {
        return Err((MigrateFault::New(Fault::WrongSize), new));
    };
    match renew_sized(alloc, old, from, &mut new, to) {
        Ok(()) => Ok(new),
        Err(fault) => Err((fault, new)),
    }
}

/// Makes a store from the kept part of another one, on disks of their layouts.
fn renew_sized<D: RunDisk, E: RunDisk, A: Allocator + Copy>(
    alloc: A,
    old: &mut D,
    from: Layout,
    new: &mut E,
    to: Layout,
) -> Result<(), MigrateFault>
    requires from { (D.state old.old).size ≡ store_len from }
    requires to { (E.state new.old).size ≡ store_len to }
    ensures renewed { OnOk result (HasRenewed (D.state old.old) (D.state old.new)
        (E.state new.old) (E.state new.new)) }
    ensures not { IfErr result (λ fault.
        RenewsNot D.state E.state old.old new.old fault old.new new.new) }
{
    let CopyMemory { state, mut body } = take_copy_memory(alloc, from, to)?;
    let stored = read_stored(alloc, old, state)?;
    let written = write_left(alloc, new, &stored, to, &mut body);
    drop(stored);
    written
}

/// Makes a store from the kept part of a state. The capacity of the buffer is that of the journal's
/// head and an image.
fn write_left<E: RunDisk, A: Allocator + Copy>(
    alloc: A,
    new: &mut E,
    state: &State<A>,
    to: Layout,
    body: &mut [u8],
) -> Result<(), MigrateFault>
    requires size { (E.state new.old).size ≡ store_len to }
    requires few { state.now.count < 2 ^ 62 }
    requires room { length body.old ≡ 12 + greatest_image Two to }
    ensures written { OnOk result (HasWritten to (renewed_in to state.now) (E.state new.old)
        (E.state new.new)) }
    ensures not { IfErr result (λ fault. WritesNot E.state state.now new.old fault new.new) }
{
    let Ok(renewal) = Renewal::new(alloc, state) else {
        return Err(MigrateFault::Memory);
    };
    if !renewal.fits(state, to) {
        drop(renewal);
        return Err(MigrateFault::New(Fault::WrongSize));
    }
    let written = write_fitting(new, state, &renewal, to, body);
    drop(renewal);
    match written {
        Ok(()) => Ok(()),
        Err(fault) => Err(MigrateFault::New(fault)),
    }
}

/// Makes a store from the kept part of a state, which must fit into it.
fn write_fitting<E: RunDisk, A: Allocator>(
    new: &mut E,
    state: &State<A>,
    renewal: &Renewal<A>,
    to: Layout,
    body: &mut [u8],
) -> Result<(), Fault>
    requires size { (E.state new.old).size ≡ store_len to }
    requires marks { AreMarks state.now renewal.now.scopes renewal.now.groups renewal.now.tasks }
    requires few { state.now.count < 2 ^ 62 }
    requires fits { fits_in to (renewed state.now) ≡ true }
    requires room { length body.old ≡ 12 + greatest_image Two to }
    ensures writes { Writes to (renewed_in to state.now) (E.state new.old) result
        (E.state new.new) }
    ensures fault { IfErr result (λ fault. fault ≡ DiskFailed) }
{
    let count = fill_renewed(state, renewal, to, body);
    Journal::format(new, &mut body[..HEAD + count])
}

/// Writes the image of the renewed state after the place for the journal's head, and returns its
/// length.
fn fill_renewed<A: Allocator>(
    state: &State<A>,
    renewal: &Renewal<A>,
    to: Layout,
    body: &mut [u8],
) -> usize
    requires marks { AreMarks state.now renewal.now.scopes renewal.now.groups renewal.now.tasks }
    requires few { state.now.count < 2 ^ 63 }
    requires fits { fits_in to (renewed state.now) ≡ true }
    requires size { length body.old ≡ 12 + greatest_image Two to }
    ensures size { length body.new ≡ length body.old }
    ensures most { result ≤ greatest_image Two to }
    ensures image { take result (drop 12 body.new) ≡ image (renewed state.now) }
    ensures is_image { IsImage Two to (image (renewed state.now)) (renewed_in to state.now) }
{
    renewal.write_image(state, to, &mut body[HEAD..])
}
