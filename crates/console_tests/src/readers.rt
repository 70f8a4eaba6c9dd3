//! Readers that tests hand to the console.

use linked_list_allocator::LocalHeap;
use std::cell::Cell;
use std::io::{self, ErrorKind, Read};

/// What a reader does after its last byte.
#[derive(Clone, Copy)]
pub enum Then {
    /// It is at its end.
    Ends,
    /// It fails once, and then is at its end.
    Fails,
}

/// Gives its bytes, at most `part` at a time.
#[derive(Drop)]
pub struct PartReader<'a> {
    bytes: &'a [u8],
    part: usize,
    then: Then,
}

impl<'a> PartReader<'a> {
    pub fn new(bytes: &'a [u8], part: usize, then: Then) -> PartReader<'a> {
        PartReader { bytes, part, then }
    }
}

impl Read for PartReader<'_> {
    fn read(&mut self, room: &mut [u8]) -> io::Result<usize> {
        if self.bytes.is_empty() && matches!(self.then, Then::Fails) {
            self.then = Then::Ends;
            return Err(io::Error::from(ErrorKind::Interrupted));
        }
        let most = room.len().min(self.part);
        self.bytes.read(&mut room[..most])
    }
}

/// Gives its bytes, and then `x` again and again, this many times.
#[derive(Drop)]
pub struct RepeatingReader<'a> {
    bytes: &'a [u8],
    left: usize,
}

impl<'a> RepeatingReader<'a> {
    pub fn new(bytes: &'a [u8], left: usize) -> RepeatingReader<'a> {
        RepeatingReader { bytes, left }
    }

    /// How many it has not given.
    pub fn left(&self) -> usize {
        self.left
    }
}

impl Read for RepeatingReader<'_> {
    fn read(&mut self, room: &mut [u8]) -> io::Result<usize> {
        if !self.bytes.is_empty() {
            return self.bytes.read(room);
        }
        let count = room.len().min(self.left);
        room[..count].fill(b'x');
        self.left -= count;
        Ok(count)
    }
}

/// Gives its bytes. Before the first read it takes the heap's memory, but for this many bytes.
#[derive(Drop)]
pub struct HoardingReader<'a, 'h> {
    bytes: &'a [u8],
    heap: &'h LocalHeap,
    spared: usize,
    taken: Vec<u8, &'h LocalHeap>,
}

impl<'a, 'h> HoardingReader<'a, 'h> {
    pub fn new(bytes: &'a [u8], heap: &'h LocalHeap, spared: usize) -> HoardingReader<'a, 'h> {
        HoardingReader {
            bytes,
            heap,
            spared,
            taken: Vec::new(heap),
        }
    }
}

impl Read for HoardingReader<'_, '_> {
    fn read(&mut self, room: &mut [u8]) -> io::Result<usize> {
        if self.taken.capacity() == 0 {
            let most = self.heap.free().saturating_sub(self.spared);
            self.taken = Vec::with_capacity(self.heap, most)?;
        }
        self.bytes.read(room)
    }
}

/// Gives a line at a read, and notes how many bytes were written before each read.
#[derive(Drop)]
pub struct WatchingReader<'a> {
    bytes: &'a [u8],
    written: &'a Cell<usize>,
    seen: Vec<usize>,
}

impl<'a> WatchingReader<'a> {
    pub fn new(bytes: &'a [u8], written: &'a Cell<usize>, seen: Vec<usize>) -> WatchingReader<'a> {
        WatchingReader {
            bytes,
            written,
            seen,
        }
    }

    /// How many bytes were written before each read.
    pub fn seen(&self) -> &[usize] {
        self.seen.as_slice()
    }
}

impl Read for WatchingReader<'_> {
    fn read(&mut self, room: &mut [u8]) -> io::Result<usize> {
        self.seen.push(self.written.get())?;
        let most = room.len().min(line_len(self.bytes));
        self.bytes.read(&mut room[..most])
    }
}

/// How many bytes the first line has, with its LF.
fn line_len(bytes: &[u8]) -> usize {
    match bytes.iter().position(|byte| *byte == b'\n') {
        Some(end) => end + 1,
        None => bytes.len(),
    }
}
