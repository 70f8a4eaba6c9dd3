//! Laws of several calls of a book, one after another. Each function makes such calls, and its
//! clauses are the law. They follow from the clauses of the calls.

ghost use Rattle.std.specs.Prelude.{◌≡◌, ◌+◌, ◌≤◌, length, vec_capacity, vec_len};
ghost use Rattle.std.specs.Prelude.{IfOk, IfErr, OnErr};
ghost use Rattle.run_model.specs.declared.faults.Trouble.TheVariants.{Faulty};
ghost use Rattle.run_model.specs.declared.layouts.Layout.{Layout};
ghost use Rattle.run_model.specs.Layouts.{store_len};
ghost use Rattle.run_model.specs.State.{State, formatted};
ghost use Rattle.run_disk.specs.Disk.{IsAtRest};
ghost use Rattle.run_disk.specs.Runs.{LeavesOnly};
ghost use Rattle.run_journal.specs.Pairs.{AreZeros};
ghost use Rattle.run_session.specs.Replays.{Replays};
ghost use Rattle.book_model.specs.Stores.{Stores, StoresOpened};
ghost use Rattle.book_laws.specs.Chains.{HasLasted, HasStayed, HasStayedNew};
ghost use Rattle.book_laws.specs.Chains.{IsPlayed, StopsFor, disk_in};

use run_book::Book;
use run_disk::{MemoryDisk, RunDisk};
use run_model::{Fault, Layout, Reply, Step, Trouble};
use std::alloc::Allocator;

/// Opens a store of state p, plays steps over it, flushes their events, and opens the store again
/// from the book's disk.
///
/// If all this succeeds, the book begins with the state to which all accepted events led, after a
/// restart: no event is lost, whatever the steps were. If a crash comes at any moment since the
/// start, even during a call, the disk holds one of three states: state p; the state to which a
/// restart of p and a prefix of these events (perhaps an empty one) led; or, once it has all of
/// them, that state after the second restart.
///
/// The calls end early if memory is refused, if the store's numbers are used up, or if a device
/// call failed. They return that fault, or `Broken` if a step met it.
pub fn use_store<D: RunDisk, A: Allocator + Copy, B: Allocator>(
    alloc: A,
    disk: D,
    steps: &[Step],
    replies: &mut Vec<Reply, B>,
) -> Result<Book<D, A>, (Trouble, D)>
    requires room { vec_len replies.old + length steps.now ≤ vec_capacity replies.old }
    ensures lasts { (D.state disk).honest → IsAtRest (D.state disk) → (p : State)
        → Stores (D.state disk).now p
        → IfOk result (λ b. HasLasted p steps.now replies.old.items replies.new.items b.session) }
    ensures any_moment { (D.state disk).honest → IsAtRest (D.state disk) → (p : State)
        → Stores (D.state disk).now p → HasStayed p steps.now replies.old.items replies.new.items
        (D.state disk) (D.state (disk_in result)) }
    ensures why { (D.state disk).honest → IsAtRest (D.state disk) → (p : State)
        → Stores (D.state disk).now p
        → IfErr result (λ e. StopsFor (D.state disk) (D.state e.1) e.0) }
{
    let mut book = match open_and_play(alloc, disk, steps, replies) {
        Ok(book) => book,
        Err(stopped) => return Err((Trouble::Faulty(stopped.0), stopped.1)),
    };
    if let Err(trouble) = book.flush() {
        return Err((trouble, book.into_disk()));
    }
    match Book::open(alloc, book.into_disk()) {
        Ok(book) => Ok(book),
        Err(stopped) => Err((Trouble::Faulty(stopped.0), stopped.1)),
    }
}

/// The same for a disk that is formatted first. If the disk held zeros, it stores nothing or only
/// root until the format is done. The calls end early for the same reasons, if the disk has the
/// size of a store.
pub fn use_new_store<D: RunDisk, A: Allocator + Copy, B: Allocator>(
    alloc: A,
    disk: D,
    steps: &[Step],
    replies: &mut Vec<Reply, B>,
) -> Result<Book<D, A>, (Trouble, D)>
    requires room { vec_len replies.old + length steps.now ≤ vec_capacity replies.old }
    ensures lasts { (D.state disk).honest → IsAtRest (D.state disk) → (layout : Layout)
        → (D.state disk).size ≡ store_len layout
        → IfOk result (λ b. HasLasted (formatted layout) steps.now replies.old.items
        replies.new.items b.session) }
    ensures any_moment { (D.state disk).honest → IsAtRest (D.state disk)
        → AreZeros (D.state disk).now → (layout : Layout)
        → (D.state disk).size ≡ store_len layout
        → HasStayedNew (formatted layout) steps.now replies.old.items replies.new.items
        (D.state disk) (D.state (disk_in result)) }
    ensures why { (D.state disk).honest → IsAtRest (D.state disk) → (layout : Layout)
        → (D.state disk).size ≡ store_len layout
        → IfErr result (λ e. StopsFor (D.state disk) (D.state e.1) e.0) }
{
    match Book::format(disk) {
        Ok(disk) => use_store(alloc, disk, steps, replies),
        Err(stopped) => Err((Trouble::Faulty(stopped.0), stopped.1)),
    }
}

/// The same for a new store in memory, of either layout. It shows that the premises of these laws
/// can be met.
pub fn use_new_store_in_memory<A: Allocator + Copy, B: Allocator>(
    alloc: A,
    layout: Layout,
    steps: &[Step],
    replies: &mut Vec<Reply, B>,
) -> Result<Book<MemoryDisk<A>, A>, Trouble>
    requires room { vec_len replies.old + length steps.now ≤ vec_capacity replies.old }
    ensures lasts { IfOk result (λ b. HasLasted (formatted layout) steps.now replies.old.items
        replies.new.items b.session) }
{
    let disk = match MemoryDisk::new(alloc, layout.store_len() as usize) {
        Ok(disk) => disk,
        Err(fault) => return Err(Trouble::Faulty(fault)),
    };
    match use_new_store(alloc, disk, steps, replies) {
        Ok(book) => Ok(book),
        Err((trouble, _)) => Err(trouble),
    }
}

/// Opens a store, and plays steps over it.
fn open_and_play<D: RunDisk, A: Allocator + Copy, B: Allocator>(
    alloc: A,
    disk: D,
    steps: &[Step],
    replies: &mut Vec<Reply, B>,
) -> Result<Book<D, A>, (Fault, D)>
    requires room { vec_len replies.old + length steps.now ≤ vec_capacity replies.old }
    ensures played { (D.state disk).honest → IsAtRest (D.state disk) → (p : State)
        → Stores (D.state disk).now p
        → IfOk result (λ b. IsPlayed D.state disk p steps.now replies.old.items b
        replies.new.items) }
    ensures replays { IfOk result (λ b. Replays b.session) }
    ensures unplayed { OnErr result (replies.new ≡ replies.old) }
    ensures stopped { (D.state disk).honest → IsAtRest (D.state disk) → (p : State)
        → Stores (D.state disk).now p
        → IfErr result (λ e. LeavesOnly (StoresOpened p) (D.state disk) (D.state e.1)) }
    ensures why { (D.state disk).honest → (p : State) → Stores (D.state disk).now p
        → IfErr result (λ e. StopsFor (D.state disk) (D.state e.1) (Faulty e.0)) }
{
    let mut book = match Book::open(alloc, disk) {
        Ok(book) => book,
        Err(stopped) => return Err(stopped),
    };
    book.play(steps, replies);
    let _state = book.state();
    Ok(book)
}
