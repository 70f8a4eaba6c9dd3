//! Books over disks in memory, and the console over them: a thin call each. Their own contracts are
//! not told on, so that no test's proof carries them.

use crate::asserts::done;
use run_book::Book;
use run_console::{RejectedLine, RunFault, line, run, run_strict};
use run_disk::{MemoryDisk, RunDisk, Torn};
use run_model::{Fault, Layout};
use std::alloc::{Allocator, Global};
use std::io::{Read, Write};
use std::process::Abort;

/// A disk of a layout's size, formatted by eight calls.
pub fn formatted(rt: &impl Abort, alloc: Global, layout: Layout) -> MemoryDisk {
    let size = match layout {
        Layout::Small => 1_572_864,
        Layout::Large => 6_291_456,
    };
    match Book::format(done(rt, MemoryDisk::new(alloc, size), "memory")) {
        Ok(disk) => disk,
        Err(_) => panic!(rt; "no store"),
    }
}

/// A book over a disk, opened by ten calls.
pub fn opened<D: RunDisk + Drop>(rt: &impl Abort, alloc: Global, disk: D) -> Book<D> {
    match Book::open(alloc, disk) {
        Ok(book) => book,
        Err(_) => panic!(rt; "no book"),
    }
}

/// A book over a small disk that was just formatted.
pub fn fresh(rt: &impl Abort, alloc: Global) -> Book<MemoryDisk> {
    opened(rt, alloc, formatted(rt, alloc, Layout::Small))
}

/// Runs an input over a book.
pub fn ran<A: Allocator + Copy, R: Read, W: Write, D: RunDisk, B: Allocator>(
    alloc: A,
    input: &mut R,
    output: &mut W,
    book: &mut Book<D, B>,
) -> Result<(), RunFault> {
    run(alloc, input, output, book)
}

/// Runs an input over a book, up to the first rejected line.
pub fn ran_strictly<R: Read, W: Write, D: RunDisk>(
    alloc: Global,
    input: &mut R,
    output: &mut W,
    book: &mut Book<D>,
) -> Result<Option<RejectedLine>, RunFault> {
    run_strict(alloc, input, output, book)
}

/// Runs a line over a book.
pub fn as_printed<A: Allocator + Copy, W: Write, D: RunDisk, B: Allocator>(
    alloc: A,
    typed: &[u8],
    output: &mut W,
    book: &mut Book<D, B>,
) -> Result<(), RunFault> {
    line(alloc, typed, output, book)
}

/// How many events there are, and how many of them are durable.
pub fn counts<D: RunDisk>(book: &Book<D>) -> (u64, u64) {
    (book.state().count(), book.durable())
}

/// The bytes of the records since the opening.
pub fn records<D: RunDisk>(rt: &impl Abort, alloc: Global, book: &Book<D>) -> Vec<u8> {
    done(rt, Vec::from_slice(alloc, book.history().rest()), "memory")
}

/// What a crash after this many calls leaves, torn in this way.
pub fn image(rt: &impl Abort, alloc: Global, disk: &MemoryDisk, calls: u64, torn: Torn) -> Vec<u8> {
    assert!(rt; calls <= disk.calls());
    done(rt, disk.image(alloc, calls, torn), "memory")
}

/// How many events there are in what a disk stores.
pub fn counted<A: Allocator + Copy, D: RunDisk>(alloc: A, disk: &mut D) -> Result<u64, Fault> {
    let state = Book::recover(alloc, disk)?;
    let count = state.count();
    drop(state);
    Ok(count)
}

/// How many events there are in what a disk with these bytes stores.
pub fn count_in(rt: &impl Abort, alloc: Global, bytes: Vec<u8>) -> Result<u64, Fault> {
    let mut disk = done(rt, MemoryDisk::from_bytes(alloc, bytes), "memory");
    let count = counted(alloc, &mut disk);
    drop(disk);
    count
}

/// How many events there are in what such a crash leaves.
pub fn stored(rt: &impl Abort, alloc: Global, disk: &MemoryDisk, calls: u64, torn: Torn) -> u64 {
    let image = image(rt, alloc, disk, calls, torn);
    done(rt, count_in(rt, alloc, image), "store")
}
