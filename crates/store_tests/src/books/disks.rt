//! Disks in memory with a store on them, and what a book of them is.

ghost use Rattle.std.specs.Prelude.{◌≡◌, ◌≤◌, [], length, vec_capacity};

use crate::asserts::{done, holds};
use crate::books::calls::{assert_replies, steps_of};
use crate::books::looks::listed;
use crate::bytes::{disk_of, torn_image};
use linked_list_allocator::LocalHeap;
use record_view::Events;
use run_book::{Book, State};
use run_disk::{MemoryDisk, RunDisk, Torn};
use run_model::{Fault, Layout, Reply, Step};
use std::alloc::{Allocator, Global};
use std::process::Abort;
use test_fixtures::{Call, Listing, Replied};

/// How a crash may tear what was not synced.
pub static TEARS: [Torn; 6] = [
    Torn::Keep,
    Torn::Take,
    Torn::Fill(0),
    Torn::Fill(0xA7),
    Torn::Prefix(0),
    Torn::Prefix(1),
];

/// A disk of a layout's size, formatted by eight calls.
pub fn formatted(rt: &impl Abort, alloc: Global, layout: Layout) -> MemoryDisk {
    let disk = done(
        rt,
        MemoryDisk::new(alloc, layout.store_len() as usize),
        "memory",
    );
    match Book::format(disk) {
        Ok(disk) => disk,
        Err(_) => panic!(rt; "no format"),
    }
}

/// A book over a disk that holds a store.
pub fn book_of<D: RunDisk + Drop, A: Allocator + Copy>(
    rt: &impl Abort,
    alloc: A,
    disk: D,
) -> Book<D, A> {
    match Book::open(alloc, disk) {
        Ok(book) => book,
        Err(_) => panic!(rt; "no book"),
    }
}

/// A book over a formatted disk, opened by ten calls.
pub fn fresh(rt: &impl Abort, alloc: Global, layout: Layout) -> Book<MemoryDisk> {
    book_of(rt, alloc, formatted(rt, alloc, layout))
}

/// Room for a reply to each step.
pub fn room(rt: &impl Abort, alloc: Global, steps: &[Step]) -> Vec<Reply>
    ensures room { length steps.now ≤ vec_capacity result }
    ensures empty { result.items ≡ [] }
{
    match Vec::with_capacity(alloc, steps.len()) {
        Ok(replies) => replies,
        Err(_) => panic!(rt; "no memory"),
    }
}

/// Opens a disk and plays steps, and gives the disk back, and a reply for each.
pub fn play<D: RunDisk + Drop>(
    rt: &impl Abort,
    alloc: Global,
    disk: D,
    steps: &[Step],
) -> (D, Vec<Reply>) {
    let mut replies = room(rt, alloc, steps);
    let mut book = book_of(rt, alloc, disk);
    book.play(steps, &mut replies);
    (book.into_disk(), replies)
}

/// Opens a disk and plays lists of steps, each with its answer, and gives the disk back.
pub fn played_on<D: RunDisk + Drop>(
    rt: &impl Abort,
    alloc: Global,
    disk: D,
    lists: &[&[(Call, Replied<'static>)]],
) -> D {
    let steps = steps_of(rt, alloc, lists);
    let (disk, replies) = play(rt, alloc, disk, &steps);
    assert_replies(rt, &replies, lists);
    disk
}

/// The disk of a book that was just opened over a new store, after lists of steps, each with its
/// answer.
pub fn played(
    rt: &impl Abort,
    alloc: Global,
    layout: Layout,
    lists: &[&[(Call, Replied<'static>)]],
) -> MemoryDisk {
    played_on(rt, alloc, formatted(rt, alloc, layout), lists)
}

/// What a book shows beside its rows: its layout, how many events there were and are durable,
/// whether it is broken, how many scopes it has, and how many bytes its history.
pub type Shown = (Layout, u64, u64, bool, usize, usize);

/// What a book shows beside its rows.
pub fn shown_by<D: RunDisk>(book: &Book<D>) -> Shown {
    let (durable, broken) = (book.durable(), book.is_broken());
    let bytes = bytes_of(book.history());
    let (layout, count, scopes) = numbers_of(book.state());
    (layout, count, durable, broken, scopes, bytes)
}

fn bytes_of(events: Events<'_>) -> usize {
    events.rest().len()
}

fn numbers_of(state: &State) -> (Layout, u64, usize) {
    (state.layout(), state.count(), state.scope_count())
}

/// All that a book over a disk with these bytes shows, as it is opened.
pub fn opened_over(rt: &impl Abort, alloc: Global, bytes: Vec<u8>) -> (Shown, Listing) {
    let book = book_of(rt, alloc, disk_of(rt, alloc, bytes));
    let reported = (shown_by(&book), listed(rt, alloc, book.state()));
    drop(book);
    reported
}

/// A heap of so many bytes.
pub fn heap(rt: &impl Abort, alloc: Global, bytes: usize) -> LocalHeap {
    done(rt, LocalHeap::new(alloc, bytes), "memory")
}

/// More bytes than any book takes while it is opened.
pub const AMPLE: usize = 16_000_000;

/// How many events there are in what a disk stores.
pub fn counted_on<D: RunDisk, A: Allocator + Copy>(alloc: A, disk: &mut D) -> Result<u64, Fault> {
    let state = Book::recover(alloc, disk)?;
    let count = state.count();
    drop(state);
    Ok(count)
}

/// All that a disk stores.
pub fn found_on(rt: &impl Abort, alloc: Global, disk: &mut MemoryDisk) -> Result<Listing, Fault> {
    let state = Book::recover(alloc, disk)?;
    let found = listed(rt, alloc, &state);
    drop(state);
    Ok(found)
}

/// All that a disk with these bytes stores.
pub fn recovered(rt: &impl Abort, alloc: Global, bytes: Vec<u8>) -> Listing {
    let mut disk = disk_of(rt, alloc, bytes);
    done(rt, found_on(rt, alloc, &mut disk), "store")
}

/// How many events there are in what a disk with these bytes stores.
pub fn counted(rt: &impl Abort, alloc: Global, bytes: Vec<u8>) -> Result<u64, Fault> {
    let mut disk = disk_of(rt, alloc, bytes);
    counted_on(alloc, &mut disk)
}

/// A disk of a small store's size with zeros, but for these bytes from their places on.
pub fn small_disk(rt: &impl Abort, alloc: Global, rows: &[(usize, &[u8])]) -> Vec<u8> {
    let mut bytes = done(rt, vec![in alloc; 0u8; 1_572_864], "memory");
    for row in rows.iter() {
        put(rt, &mut bytes, row.0, row.1);
    }
    bytes
}

/// Why a disk isn't opened, if it isn't, and how many calls it counts.
pub fn reported_by_opening<A: Allocator + Copy>(
    alloc: A,
    disk: MemoryDisk,
) -> (Option<Fault>, u64) {
    match Book::open(alloc, disk) {
        Ok(book) => (None, book.into_disk().calls()),
        Err((fault, disk)) => (Some(fault), disk.calls()),
    }
}

/// What reads of a disk give.
pub fn now(rt: &impl Abort, alloc: Global, disk: &MemoryDisk) -> Vec<u8> {
    torn_image(rt, alloc, disk, disk.calls(), Torn::Keep)
}

/// Puts bytes in place of those from a place on.
pub fn put(rt: &impl Abort, bytes: &mut [u8], place: usize, with: &[u8]) {
    let (_, rest) = bytes.split_at_mut_checked(place).expect(rt, "a place");
    let (part, _) = rest.split_at_mut_checked(with.len()).expect(rt, "room");
    part.copy_from_slice(with);
}

/// What stands at a place, where it begins, and its bytes.
pub type At = (&'static str, usize, &'static [u8]);

fn stands_at(bytes: &[u8], place: usize, wanted: &[u8]) -> bool {
    match bytes.get(place..) {
        Some(rest) => rest.starts_with(wanted),
        None => false,
    }
}

/// Asserts the bytes at their places.
pub fn assert_bytes(rt: &impl Abort, bytes: &[u8], rows: &[At]) {
    for row in rows.iter() {
        holds(rt, stands_at(bytes, row.1, row.2), row.0, row.1 as u64);
    }
}
