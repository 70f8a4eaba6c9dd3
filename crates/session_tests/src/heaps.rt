//! Heaps of so many bytes, over which memory can be refused.

use crate::asserts::done;
use linked_list_allocator::LocalHeap;
use std::alloc::Global;
use std::process::Abort;

/// A heap of so many bytes.
pub fn heap_of(rt: &impl Abort, alloc: Global, bytes: usize) -> LocalHeap {
    done(rt, LocalHeap::new(alloc, bytes), "heap")
}

/// Says whether a heap has no byte left.
pub fn is_full(heap: &LocalHeap) -> bool {
    Vec::<u8, _>::with_capacity(heap, 1).is_err()
}
