//! What a disk in memory remembers of its calls: a [`History`].
//!
//! A moment is the number of calls that were made before it.

ghost use Rattle.std.specs.Prelude.{◌≡◌, ◌<◌, ◌≤◌, ◌+◌, ℕ, length, get_or, replicate, slice_range};
ghost use Rattle.std.specs.Prelude.{unwrap_or, IfOk, OnErr, OnOk};
ghost use Rattle.run_disk.specs.History.{IsTornImage, PutsOver, bytes_after, is_synced, left_of};
ghost use Rattle.run_disk.specs.History.{newest, torn_bytes};
ghost use Rattle.run_disk.specs.Writes.{and_sync, and_write, beginning, filled_up};

use crate::tears::Torn;
use std::alloc::{AllocError, Allocator};
use std::marker::Model;

/// A write that succeeded.
#[derive(Drop)]
struct Written<A: Allocator> {
    moment: u64,
    at: usize,
    bytes: Vec<u8, A>,
}

impl<A: Allocator> Model for Written<A> {
    ghost use Rattle.run_disk.specs.Writes.{Write};

    ghost Value = { Write };

    ghost view = { λ w. record { moment = w.moment; at = w.at; bytes = w.bytes.items } };
}

impl<A: Allocator> Written<A> {
    /// Puts what a crash after the first `calls` calls leaves of this write over `window`, which
    /// begins at the place `from`.
    fn leave(&self, from: usize, window: &mut [u8], syncs: &[u64], calls: u64, torn: Torn)
        ensures { PutsOver from self.now.at (left_of torn syncs.now calls self.now)
            window.old window.new }
    {
        if self.moment >= calls {
            return;
        }
        if matches!(torn, Torn::Take) || is_followed(self.moment, syncs, calls) {
            put(window, from, self.at, &self.bytes);
        } else {
            tear(window, from, self.at, &self.bytes, torn);
        }
    }
}

/// Returns whether one of the first `calls` calls was a sync, made after this moment.
fn is_followed(moment: u64, syncs: &[u64], calls: u64) -> bool
    ensures { result ≡ is_synced syncs.now calls moment }
{
    syncs.iter().any(|sync| moment < *sync && *sync < calls)
}

/// Puts what the tearing leaves of these bytes, which begin at the place `at`, over `window`, which
/// begins at the place `from`.
fn tear(window: &mut [u8], from: usize, at: usize, bytes: &[u8], torn: Torn)
    ensures { PutsOver from at (torn_bytes torn bytes.now) window.old window.new }
{
    match torn {
        Torn::Keep => {}
        Torn::Take => put(window, from, at, bytes),
        Torn::Fill(value) => put_value(window, from, at, bytes.len(), value),
        Torn::Prefix(count) => put(window, from, at, &bytes[..count.min(bytes.len())]),
    }
}

/// Puts these bytes, which begin at the place `at`, over `window`, which begins at `from`.
fn put(window: &mut [u8], from: usize, at: usize, bytes: &[u8])
    ensures { PutsOver from at bytes.now window.old window.new }
{
    let start = at.saturating_sub(from);
    let skip = from.saturating_sub(at);
    if start < window.len() && skip < bytes.len() {
        let count = (window.len() - start).min(bytes.len() - skip);
        window[start..start + count].copy_from_slice(&bytes[skip..skip + count]);
    }
}

/// Puts this value `times` times, from the place `at` on, over `window`, which begins at `from`.
fn put_value(window: &mut [u8], from: usize, at: usize, times: usize, value: u8)
    ensures { PutsOver from at (replicate times value) window.old window.new }
{
    let start = at.saturating_sub(from);
    let skip = from.saturating_sub(at);
    if start < window.len() && skip < times {
        let count = (window.len() - start).min(times - skip);
        window[start..start + count].fill(value);
    }
}

/// What a disk in memory remembers: the bytes with which it began, and the writes and syncs that
/// succeeded. Zeros at the end of those bytes need no memory.
#[derive(Drop)]
pub struct History<A: Allocator> {
    // zeros fill them up to the disk's size
    first: Vec<u8, A>,
    size: usize,
    writes: Vec<Written<A>, A>,
    syncs: Vec<u64, A>,
}

impl<A: Allocator> Model for History<A> {
    ghost use Rattle.run_disk.specs.Writes.{History, filled_up};

    ghost Value = { History };

    ghost view = { λ h. record {
      first = filled_up h.size h.first.items;
      writes = h.writes.items;
      syncs = h.syncs.items;
    } };
}

/// Puts what a crash after the first `calls` calls leaves of these writes over `window`, which
/// begins at the place `from`.
fn leave_all<A: Allocator>(
    writes: &[Written<A>],
    from: usize,
    window: &mut [u8],
    syncs: &[u64],
    calls: u64,
    torn: Torn,
)
    ensures size { length window.new ≡ length window.old }
    ensures bytes { (i : ℕ) → i < length window.old → get_or window.new i 0
        ≡ unwrap_or (newest (left_of torn syncs.now calls) writes.now (from + i))
        (get_or window.old i 0) }
{
    for write in writes {
        write.leave(from, window, syncs, calls, torn);
    }
}

impl<A: Allocator> History<A> {
    /// Returns the history of a disk of this size before its first call. The disk holds these
    /// bytes, and zeros after them.
    pub fn new(alloc: A, first: Vec<u8, A>, size: usize) -> History<A>
    where
        A: Copy,
        ensures { result ≡ beginning (filled_up size first.items) }
    {
        History {
            first,
            size,
            writes: Vec::new(alloc),
            syncs: Vec::new(alloc),
        }
    }

    /// Returns the number of the disk's bytes.
    pub fn size(&self) -> usize
        ensures { result ≡ length self.now.first }
    {
        self.size
    }

    /// Records a write. An error means that memory for it was refused, and nothing has changed.
    pub fn keep_write(&mut self, moment: u64, at: usize, bytes: &[u8]) -> Result<(), AllocError>
    where
        A: Copy,
        ensures ok { OnOk result (self.new
            ≡ and_write self.old (record { moment = moment; at = at; bytes = bytes.now })) }
        ensures err { OnErr result (self.new ≡ self.old) }
    {
        let bytes = Vec::from_slice(*self.first.allocator(), bytes)?;
        self.writes.push(Written { moment, at, bytes })?;
        Ok(())
    }

    /// Records a sync. An error means that memory for it was refused, and nothing has changed.
    pub fn keep_sync(&mut self, moment: u64) -> Result<(), AllocError>
        ensures ok { OnOk result (self.new ≡ and_sync self.old moment) }
        ensures err { OnErr result (self.new ≡ self.old) }
    {
        self.syncs.push(moment)?;
        Ok(())
    }

    /// Reads what the first `calls` calls left, from the place `at` on.
    pub fn read(&self, calls: u64, at: usize, out: &mut [u8])
        requires { at + length out.old ≤ length self.now.first }
        ensures { out.new ≡ slice_range (bytes_after self.now calls) at (at + length out.old) }
    {
        out.fill(0);
        put(out, at, 0, &self.first);
        leave_all(&self.writes, at, out, &self.syncs, calls, Torn::Take);
    }

    /// Returns what a crash after the first `calls` calls leaves, if it tears each unsynced write
    /// this way. `AllocError` if the memory for it is refused.
    pub fn image(&self, alloc: A, calls: u64, torn: Torn) -> Result<Vec<u8, A>, AllocError>
        ensures { IfOk result (λ image. IsTornImage torn self.now calls image.items) }
    {
        let mut image = Vec::from_slice(alloc, &self.first)?;
        image.resize(self.size, 0)?;
        leave_all(&self.writes, 0, &mut image, &self.syncs, calls, torn);
        Ok(image)
    }
}
