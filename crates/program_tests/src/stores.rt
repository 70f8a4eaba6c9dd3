//! Stores in memory, as a run left them.

use crate::asserts::done;
use crate::shelves::Shelf;
use night_program::script;
use run_console::Until;
use run_disk::{MemoryDisk, Torn};
use std::alloc::Global;
use std::process::Abort;
use store_words::format;

/// How many bytes a small and a large store have.
pub const SIZES: (usize, usize) = (1_572_864, 6_291_456);

/// A disk of zeros.
pub fn zeros(rt: &impl Abort, alloc: Global, size: usize) -> MemoryDisk {
    done(rt, MemoryDisk::new(alloc, size), "disk")
}

/// A disk as it is left at rest.
pub fn left(rt: &impl Abort, alloc: Global, disk: &MemoryDisk) -> Vec<u8> {
    let image = disk.image(alloc, disk.calls(), Torn::Take);
    done(rt, image, "image")
}

/// A copy of some bytes.
pub fn copied(rt: &impl Abort, alloc: Global, bytes: &[u8]) -> Vec<u8> {
    done(rt, Vec::from_slice(alloc, bytes), "copy")
}

/// A shelf with this disk as the file of this name.
pub fn shelved(rt: &impl Abort, alloc: Global, name: &str, disk: MemoryDisk) -> Shelf {
    done(rt, Shelf::new(alloc, name, disk), "shelf")
}

/// What the file of this name has.
pub fn kept(rt: &impl Abort, shelf: &Shelf, name: &str) -> Vec<u8> {
    done(rt, shelf.bytes(name), "file")
}

/// A small store that was just formatted.
fn small(rt: &impl Abort, alloc: Global, output: &mut Vec<u8>) -> MemoryDisk {
    let (made, disk) = format(zeros(rt, alloc, SIZES.0), output);
    done(rt, made, "store");
    disk
}

/// The file of a small store that was just formatted.
pub fn formatted(rt: &impl Abort, alloc: Global, name: &str) -> Shelf {
    let disk = small(rt, alloc, &mut Vec::new(alloc));
    shelved(rt, alloc, name, disk)
}

/// A small store over which these lines were run, and what was printed.
pub fn typed(rt: &impl Abort, alloc: Global, lines: &str) -> (Shelf, Vec<u8>) {
    let mut output = Vec::new(alloc);
    let disk = small(rt, alloc, &mut output);
    let (ran, disk) = script(alloc, disk, Until::End, &mut lines.as_bytes(), &mut output);
    done(rt, ran, "night");
    (shelved(rt, alloc, "jobs.store", disk), output)
}

/// A small store over which these lines were run.
pub fn scripted(rt: &impl Abort, alloc: Global, lines: &str) -> Shelf {
    typed(rt, alloc, lines).0
}
