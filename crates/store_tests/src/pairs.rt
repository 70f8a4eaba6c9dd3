//! What a store holds, a [`Pair`], and the journals that the tests of stores make it by.

use crate::asserts::holds;
use crate::bytes::{disk_of, filled, put};
use run_disk::{MemoryDisk, RunDisk};
use run_journal::{Journal, Stored};
use run_model::{Fault, Layout};
use std::alloc::Global;
use std::process::Abort;

/// The state with root alone, at event count 0 and at event count 1.
pub const FORMATTED: [u8; 23] = *b"\x01\0\0\0\0\0\0\0\0\0\0\0\0\0\0\0\0\0\0\0\0\0\0";

pub const OPENED: [u8; 23] = *b"\x01\0\0\0\0\0\0\0\0\0\0\0\0\0\0\0\x01\0\0\0\0\0\0";

/// `derive a root cause`, `derive b a cancel` and `cancel a disk`.
pub const FIRST: [u8; 26] = *b"\x01\x00\x05\x01a\x00\x00\x02\x01\x00\x05\x01b\x00\x01\x01\
\x02\x00\x07\x00\x01\x04disk";

/// `derive c root cancel` and `derive d root cancel`.
pub const SECOND: [u8; 16] = *b"\x01\x00\x05\x01c\x00\x00\x01\x01\x00\x05\x01d\x00\x00\x01";

/// What a store holds: its generation and its tail, its image and its batches.
#[derive(Clone, Copy)]
pub struct Pair<'a> {
    pub numbers: (u64, u64),
    pub image: &'a [u8],
    pub batches: &'a [&'a [u8]],
}

pub const AS_FORMATTED: Pair = Pair {
    numbers: (0, 0),
    image: &FORMATTED,
    batches: &[],
};

pub const AS_OPENED: Pair = Pair {
    numbers: (1, 0),
    image: &OPENED,
    batches: &[],
};

pub const ONE_BATCH: Pair = Pair {
    numbers: (1, 31),
    image: &OPENED,
    batches: &[&FIRST],
};

pub const BOTH_BATCHES: Pair = Pair {
    numbers: (1, 52),
    image: &OPENED,
    batches: &[&FIRST, &SECOND],
};

pub const CHECKPOINTED: Pair = Pair {
    numbers: (2, 0),
    image: &FORMATTED,
    batches: &[],
};

/// Says whether a store holds this pair, and this batch after its own, if any.
pub fn is_grown(stored: &Stored, pair: &Pair, added: Option<&[u8]>) -> bool {
    let mut lent = stored.batches();
    for batch in pair.batches.iter() {
        if lent.next() != Some(*batch) {
            return false;
        }
    }
    lent.next() == added
        && lent.next().is_none()
        && (stored.generation(), stored.tail()) == pair.numbers
        && stored.image() == pair.image
}

/// What a recovery of a disk gives, or its fault.
pub fn recovered<D: RunDisk>(alloc: Global, disk: &mut D) -> Result<Stored, Fault> {
    Journal::recover(alloc, disk)
}

/// A call of a journal.
#[derive(Clone, Copy)]
pub enum Call {
    /// A checkpoint of this image.
    Checkpoint(&'static [u8; 23]),
    /// A flush of this batch.
    Flush(&'static [u8]),
}

/// A body with this image from place 12 on.
fn body_of(image: &[u8; 23]) -> [u8; 35] {
    let mut body = [0xEE; 35];
    put(&mut body, 12, image);
    body
}

/// A checkpoint of this image, which leaves the body as it was where no number is left.
fn checkpoint<D: RunDisk>(
    rt: &impl Abort,
    journal: &mut Journal<D>,
    image: &[u8; 23],
) -> Result<(), Fault> {
    let mut body = body_of(image);
    assert!(rt; !journal.is_broken());
    let reported = journal.checkpoint(&mut body);
    let is_kept = reported != Err(Fault::NumbersSpent) || body == body_of(image);
    holds(rt, is_kept, "the body of image", image.len() as u64);
    reported
}

/// A flush of a batch that fits.
fn flush<D: RunDisk>(
    rt: &impl Abort,
    journal: &mut Journal<D>,
    pending: &[u8],
) -> Result<(), Fault> {
    assert!(rt; !journal.is_broken() && !pending.is_empty());
    assert!(rt; pending.len() as u64 <= journal.room());
    journal.flush(pending)
}

/// Makes a call.
pub fn called<D: RunDisk>(
    rt: &impl Abort,
    journal: &mut Journal<D>,
    call: Call,
) -> Result<(), Fault> {
    match call {
        Call::Checkpoint(image) => checkpoint(rt, journal, image),
        Call::Flush(pending) => flush(rt, journal, pending),
    }
}

/// A disk that holds a store of this layout, formatted over bytes of this value.
pub fn formatted(rt: &impl Abort, alloc: Global, layout: Layout, value: u8) -> MemoryDisk {
    let bytes = filled(rt, alloc, value, layout.store_len() as usize);
    let mut disk = disk_of(rt, alloc, bytes);
    assert!(rt; disk.size() == 1_572_864 || disk.size() == 6_291_456);
    let reported = Journal::format(&mut disk, &mut body_of(&FORMATTED));
    holds(rt, reported == Ok(()), "format over", value as u64);
    disk
}
