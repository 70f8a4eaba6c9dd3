//! The first two steps of a copy, which makes a new store from an old one: a migration, or a
//! renewal in the crate above. [`take_copy_memory`] takes all memory, and [`read_stored`] reads the
//! state that the old disk stores.

ghost use Rattle.std.specs.Prelude.{◌≡◌, ◌+◌, length, IfOk, IfErr};
ghost use Rattle.run_model.specs.Layouts.{store_len};
ghost use Rattle.run_model.specs.Rules.{HasLayout};
ghost use Rattle.run_model.specs.Session.{opened};
ghost use Rattle.row_view.specs.declared.heads.ImageVersion.TheVariants.{Two};
ghost use Rattle.row_view.specs.Image.{greatest_image};
ghost use Rattle.book_model.specs.declared.migrations.MigrateFault.TheVariants as why;
ghost use Rattle.book_model.specs.Migrations.{HasReadStore, ReadsNot};
ghost use Rattle.run_book.specs.Migrating.{of_old};

use crate::openings::{body_len, read_state};
use book_model::MigrateFault;
use run_disk::RunDisk;
use run_model::{Fault, Layout};
use run_session::State;
use std::alloc::Allocator;

/// The memory of a copy.
#[derive(Drop)]
pub struct CopyMemory<A: Allocator> {
    /// A new state of the old store's layout.
    pub state: State<A>,
    /// Zeros, whose capacity is that of the journal's head, which takes [`HEAD`](run_journal::HEAD)
    /// bytes, and of the greatest image in the new store's layout.
    pub body: Vec<u8, A>,
}

/// Takes the memory of a copy from a store of the layout `from` to one of the layout `to`. `Memory`
/// if memory is refused.
pub fn take_copy_memory<A: Allocator + Copy>(
    alloc: A,
    from: Layout,
    to: Layout,
) -> Result<CopyMemory<A>, MigrateFault>
    ensures state { IfOk result (λ memory. memory.state ≡ (opened from).state) }
    ensures body { IfOk result (λ memory.
        length memory.body.items ≡ 12 + greatest_image Two to) }
    ensures fault { IfErr result (λ fault. fault ≡ why.Memory) }
{
    let Ok(body) = vec![in alloc; 0u8; body_len(to)] else {
        return Err(MigrateFault::Memory);
    };
    let Ok(state) = State::new(alloc, from) else {
        return Err(MigrateFault::Memory);
    };
    Ok(CopyMemory { state, body })
}

/// Returns the state that a store holds, by three reads; nothing is written. `state`, a new state
/// of the store's layout, becomes the result.
///
/// It reports the first of these faults that applies: `Memory`; the other faults of
/// [`Book::recover`](crate::Book::recover) for a disk that has the size of a store, as `Old`; and
/// `Old(NumbersSpent)` if there were 2^62 events or more.
pub fn read_stored<D: RunDisk, A: Allocator + Copy>(
    alloc: A,
    old: &mut D,
    state: State<A>,
) -> Result<State<A>, MigrateFault>
    requires new { state ≡ (opened state.tree.layout).state }
    requires size { (D.state old.old).size ≡ store_len state.tree.layout }
    ensures found { IfOk result (λ p. HasReadStore p (D.state old.old) (D.state old.new)) }
    ensures layout { IfOk result (λ p. HasLayout p state.tree.layout) }
    ensures none { IfErr result (λ fault. ReadsNot D.state old.old fault old.new) }
{
    let (stored, state) = match read_state(alloc, old, state) {
        Ok(read) => read,
        Err(fault) => return Err(of_old(fault)),
    };
    drop(stored);
    if state.count() >= 1 << 62 {
        drop(state);
        return Err(MigrateFault::Old(Fault::NumbersSpent));
    }
    Ok(state)
}

/// Returns the fault that a copy reports if the recovery of the old disk has this fault.
fn of_old(fault: Fault) -> MigrateFault
    ensures { result ≡ of_old fault }
{
    match fault {
        Fault::Memory => MigrateFault::Memory,
        fault => MigrateFault::Old(fault),
    }
}
