//! Bytes at places, disks of bytes, and what a crash leaves.

use crate::asserts::done;
use run_disk::{MemoryDisk, Torn};
use std::alloc::Global;
use std::process::Abort;

/// So many bytes of one value.
pub fn filled(rt: &impl Abort, alloc: Global, value: u8, count: usize) -> Vec<u8> {
    done(rt, Vec::from_elem(alloc, value, count), "memory")
}

/// Puts bytes from a place on, as far as they are inside.
pub fn put(bytes: &mut [u8], from: usize, new: &[u8]) {
    let mut place = from;
    for byte in new.iter() {
        if let Some(old) = bytes.get_mut(place) {
            *old = *byte;
        }
        place = place.saturating_add(1);
    }
}

/// A disk of these bytes.
pub fn disk_of(rt: &impl Abort, alloc: Global, bytes: Vec<u8>) -> MemoryDisk {
    done(rt, MemoryDisk::from_bytes(alloc, bytes), "memory")
}

/// A disk of so many bytes, all 0.
pub fn blank(rt: &impl Abort, alloc: Global, size: usize) -> MemoryDisk {
    done(rt, MemoryDisk::new(alloc, size), "memory")
}

/// What a crash after so many calls leaves, torn in this way.
pub fn torn_image(
    rt: &impl Abort,
    alloc: Global,
    disk: &MemoryDisk,
    calls: u64,
    torn: Torn,
) -> Vec<u8> {
    assert!(rt; calls <= disk.calls());
    done(rt, disk.image(alloc, calls, torn), "memory")
}

/// What a crash now leaves, torn in this way.
pub fn now(rt: &impl Abort, alloc: Global, disk: &MemoryDisk, torn: Torn) -> Vec<u8> {
    torn_image(rt, alloc, disk, disk.calls(), torn)
}
