//! A [`MemoryFile`] is a file in memory, for tests.

ghost use Rattle.std.specs.Prelude.{◌≡◌, ◌≤◌, ◌+◌, ◌<◌, ◌^◌, ◌∷◌, [], ◌++◌, ℕ, false, true};
ghost use Rattle.std.specs.Prelude.{get_or, length, map, slice_get, vec_len, ⊤, OnErr, OnOk};
ghost use Rattle.std.specs.Bool.{OnFalse, OnTrue};
ghost use Rattle.file_calls.specs.OpenFiles.{IsAtRest, MayLeave, grown, is_within, put_at};
ghost use Rattle.file_calls.specs.OpenFiles.{settled, written};
ghost use Rattle.file_calls.specs.MemoryFiles.{memory_state, state_at};
ghost use Rattle.file_calls.specs.declared.places.Place.TheVariants.{Dirty, Durable};

use crate::moments::Moment;
use crate::open_files::{CallFailed, OpenFile};
use crate::places::Place;
use std::alloc::Global;
use std::snapshot::Snapshot;

/// A file in memory. A call fails if memory for it is refused, and one call fails that was chosen
/// by [`MemoryFile::fail_after`].
#[derive(Drop)]
pub struct MemoryFile {
    bytes: Vec<u8>,
    // of the first places; the others are durable
    places: Vec<Place>,
    end: Place,
    // what the file was before each call
    past: Vec<Moment>,
    // how many calls succeed until one fails
    calls_left: u64,
}

impl MemoryFile {
    /// Returns a file with these bytes, which are durable.
    pub fn new(alloc: Global, bytes: Vec<u8>) -> MemoryFile
        ensures now { (⟦<MemoryFile as OpenFile>⟧.state result).now ≡ bytes.items }
        ensures rest { IsAtRest (⟦<MemoryFile as OpenFile>⟧.state result) }
    {
        MemoryFile {
            bytes,
            places: Vec::new(alloc),
            end: Place::Durable,
            past: Vec::new(alloc),
            calls_left: u64::MAX,
        }
    }

    /// Lets the next `calls` calls succeed, and the one after them fail.
    pub fn fail_after(&mut self, calls: u64)
        ensures state { ⟦<MemoryFile as OpenFile>⟧.state self.new
            ≡ ⟦<MemoryFile as OpenFile>⟧.state self.old }
        ensures past { ⟦<MemoryFile as OpenFile>⟧.past self.new
            ≡ ⟦<MemoryFile as OpenFile>⟧.past self.old }
    {
        self.calls_left = calls;
    }

    /// Lets the next call fail, unless it is to succeed.
    pub fn fail_unless(&mut self, succeeds: bool)
        ensures state { ⟦<MemoryFile as OpenFile>⟧.state self.new
            ≡ ⟦<MemoryFile as OpenFile>⟧.state self.old }
        ensures past { ⟦<MemoryFile as OpenFile>⟧.past self.new
            ≡ ⟦<MemoryFile as OpenFile>⟧.past self.old }
    {
        if !succeeds {
            self.fail_after(0);
        }
    }

    /// Returns whether a crash now may leave these bytes.
    pub fn may_leave(&self, left: &[u8]) -> bool
        ensures left { OnTrue result
            (MayLeave (⟦<MemoryFile as OpenFile>⟧.state self.now) left.now) }
        ensures not { OnFalse result
            (MayLeave (⟦<MemoryFile as OpenFile>⟧.state self.now) left.now → ⊥) }
    {
        if matches!(self.end, Place::Durable) && left.len() != self.bytes.len() {
            return false;
        }
        let end = left.len().max(self.bytes.len());
        for i in 0..end {
            if is_durable(&self.places, i) && byte_at(left, i) != byte_at(&self.bytes, i) {
                return false;
            }
        }
        true
    }

    /// Keeps what the file is before a call, and returns whether the call is to succeed. At `Err`
    /// no memory was left for it.
    fn begin(&mut self) -> Result<bool, CallFailed>
        ensures bytes { self.new.bytes ≡ self.old.bytes }
        ensures places { self.new.places ≡ self.old.places }
        ensures end { self.new.end ≡ self.old.end }
        ensures past { OnOk result (map state_at self.new.past.items
            ≡ map state_at self.old.past.items ++ memory_state self.old.bytes.items
            self.old.places.items self.old.end ∷ []) }
        ensures refused { OnErr result (self.new.past.items ≡ self.old.past.items) }
    {
        let moment = Moment {
            bytes: Snapshot::of(&self.bytes),
            places: Snapshot::of(&self.places),
            end: self.end,
        };
        keep(&mut self.past, moment)?;
        let succeeds = self.calls_left != 0;
        self.calls_left = self.calls_left.wrapping_sub(1);
        Ok(succeeds)
    }
}

impl OpenFile for MemoryFile {
    type Error = CallFailed;

    ghost state = { λ file. memory_state file.bytes.items file.places.items file.end };

    ghost past = { λ file. map state_at file.past.items };

    ghost keeps = { λ file. ⊤ };

    fn size(&mut self) -> Result<u64, CallFailed> {
        if !self.begin()? {
            return Err(CallFailed);
        }
        Ok(self.bytes.len() as u64)
    }

    fn read_at(&mut self, at: u64, out: &mut [u8]) -> Result<(), CallFailed> {
        let at = at as usize;
        if !self.begin()? || self.bytes.len() < at || self.bytes.len() - at < out.len() {
            return Err(CallFailed);
        }
        out.copy_from_slice(&self.bytes[at..at + out.len()]);
        Ok(())
    }

    fn write_at(&mut self, at: u64, bytes: &[u8]) -> Result<(), CallFailed> {
        let at = at as usize;
        let succeeds = self.begin()?;
        if self.bytes.len() < at || usize::MAX - at < bytes.len() {
            return Err(CallFailed);
        }
        mark(&mut self.places, at, bytes.len())?;
        if self.bytes.len() < at + bytes.len() {
            self.end = Place::Dirty;
        }
        if !succeeds {
            return Err(CallFailed);
        }
        put(&mut self.bytes, at, bytes)
    }

    fn empty(&mut self) -> Result<(), CallFailed> {
        let succeeds = self.begin()?;
        mark(&mut self.places, 0, self.bytes.len())?;
        self.end = Place::Dirty;
        if !succeeds {
            return Err(CallFailed);
        }
        self.bytes.clear();
        Ok(())
    }

    fn sync(&mut self) -> Result<(), CallFailed> {
        if !self.begin()? {
            settle(&mut self.places, Place::Lost);
            self.end = self.end.settled(Place::Lost);
            return Err(CallFailed);
        }
        settle(&mut self.places, Place::Durable);
        self.end = self.end.settled(Place::Durable);
        Ok(())
    }
}

/// Keeps one more moment. At `Err` no memory was left for it.
fn keep(past: &mut Vec<Moment>, moment: Moment) -> Result<(), CallFailed>
    ensures ok { OnOk result (past.new.items ≡ past.old.items ++ moment ∷ []) }
    ensures err { OnErr result (past.new.items ≡ past.old.items) }
{
    match past.push(moment) {
        Ok(()) => Ok(()),
        Err(_) => Err(CallFailed),
    }
}

/// Returns whether a place is durable.
fn is_durable(places: &[Place], i: usize) -> bool
    ensures yes { OnTrue result (get_or places.now i Durable ≡ Durable) }
    ensures no { OnFalse result (get_or places.now i Durable ≡ Durable → ⊥) }
{
    match places.get(i) {
        Some(Place::Dirty) | Some(Place::Lost) => false,
        Some(Place::Durable) | None => true,
    }
}

/// Returns the byte at a place, if the contents reach it.
fn byte_at(bytes: &[u8], i: usize) -> Option<u8>
    ensures { result ≡ slice_get bytes.now i }
{
    bytes.get(i).copied()
}

/// Makes n places dirty, from `at` on. At `Err` no memory was left for it, and nothing has changed.
fn mark(places: &mut Vec<Place>, at: usize, n: usize) -> Result<(), CallFailed>
    requires { at + n < 2 ^ 64 }
    ensures ok { OnOk result ((i : ℕ) → get_or places.new.items i Durable
        ≡ written at n i (get_or places.old.items i Durable)) }
    ensures err { OnErr result (places.new.items ≡ places.old.items) }
{
    extend(places, at + n)?;
    make_dirty(places, at, n);
    Ok(())
}

/// Lets the list of places reach as far as `end`. At `Err` no memory was left for it.
fn extend(places: &mut Vec<Place>, end: usize) -> Result<(), CallFailed>
    ensures long { OnOk result (end ≤ length places.new.items) }
    ensures same { (i : ℕ) → get_or places.new.items i Durable ≡ get_or places.old.items i Durable }
    ensures err { OnErr result (places.new.items ≡ places.old.items) }
{
    if end <= places.len() {
        return Ok(());
    }
    match places.resize(end, Place::Durable) {
        Ok(()) => Ok(()),
        Err(_) => Err(CallFailed),
    }
}

/// Makes n places dirty, from `at` on.
fn make_dirty(places: &mut [Place], at: usize, n: usize)
    requires { at + n ≤ length places.old }
    ensures { (i : ℕ) → get_or places.new i Durable
        ≡ written at n i (get_or places.old i Durable) }
{
    for i in at..at + n {
        places[i] = Place::Dirty;
    }
}

/// Makes `to` of each dirty place.
fn settle(places: &mut [Place], to: Place)
    ensures { (i : ℕ) → get_or places.new i Durable ≡ settled to (get_or places.old i Durable) }
{
    for i in 0..places.len() {
        places[i] = places[i].settled(to);
    }
}

/// Puts these bytes into the contents, from `at` on.
fn put(contents: &mut Vec<u8>, at: usize, bytes: &[u8]) -> Result<(), CallFailed>
    requires inside { at ≤ vec_len contents.old }
    requires fits { at + length bytes.now < 2 ^ 64 }
    ensures put { OnOk result (contents.new.items ≡ put_at at bytes.now contents.old.items) }
    ensures outside { (i : ℕ) → is_within at (length bytes.now) i ≡ false
        → slice_get contents.new.items i ≡ slice_get contents.old.items i }
    ensures size { at + length bytes.now ≤ length contents.old.items
        → length contents.new.items ≡ length contents.old.items }
{
    let end = at + bytes.len();
    if end <= contents.len() {
        contents[at..end].copy_from_slice(bytes);
        return Ok(());
    }
    contents.truncate(at);
    match contents.extend_from_slice(bytes) {
        Ok(()) => Ok(()),
        Err(_) => Err(CallFailed),
    }
}
