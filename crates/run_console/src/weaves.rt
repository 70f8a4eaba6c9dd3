//! A [`Weave`] takes the bytes of an input, and puts advances before its lines.

ghost use Rattle.std.specs.Io.KnownBytes.{Consumes, Keeps};
ghost use Rattle.std.specs.Prelude.{◌≡◌, ◌+◌, ◌∷◌, ◌++◌, ◌≤◌, ◌<◌, [], List, false, length};
ghost use Rattle.std.specs.Prelude.{min, take, true, ℕ};
ghost use Rattle.arrayvec.specs.ArrayVec.{array_vec_len};
ghost use Rattle.run_console.specs.Timed.{advance_line, latest_asked, latest_after};
ghost use Rattle.run_console.specs.Weaving.{left_in};

use crate::machine_times::MachineTime;
use arrayvec::ArrayVec;
use console_lines::{LONGEST_LINE, LineRequest, push, push_moment, read_line};
use run_model::{Command, Moment, Step};

/// The most bytes that are taken at a time.
pub const PART: usize = 256;

/// The most bytes of an advance, with its LF.
const LONGEST_ADVANCE: usize = 21;

/// Each byte that is taken readies at most an advance and itself, and the end one advance more.
const ROOM: usize = (LONGEST_ADVANCE + 1) * PART + LONGEST_ADVANCE;

/// The most bytes of a line that are kept: they show that it is too long.
const KEPT: usize = LONGEST_LINE + 1;

/// The bytes that are ready, the open line, and the latest moment so far: the greatest of the
/// advances that were put before lines or that lines ask for.
#[derive(Drop)]
pub struct Weave<C> {
    clock: C,
    latest: Moment,
    line: ArrayVec<u8, KEPT>,
    is_asked: bool,
    ready: ArrayVec<u8, ROOM>,
}

impl<C: MachineTime> Weave<C> {
    /// Nothing was taken yet.
    pub fn new(latest: Moment, clock: C) -> Weave<C>
        ensures clock { result.clock ≡ clock }
        ensures latest { result.latest ≡ latest }
        ensures line { result.line.items ≡ [] }
        ensures unasked { result.is_asked ≡ false }
        ensures ready { result.ready.items ≡ [] }
    {
        Weave {
            clock,
            latest,
            line: ArrayVec::new(),
            is_asked: false,
            ready: ArrayVec::new(),
        }
    }

    /// Returns whether no byte is ready.
    pub fn is_empty(&self) -> bool
        ensures none { result ≡ true → self.now.ready.items ≡ [] }
        ensures some { result ≡ false → 0 < array_vec_len self.now.ready }
    {
        self.ready.is_empty()
    }

    /// Takes these bytes.
    pub fn take(&mut self, part: &[u8])
        requires none { self.old.ready.items ≡ [] }
        requires few { length part.now ≤ PART }
        ensures left { (bytes : List ℕ) → Keeps (left_in C.moments self.old (part.now ++ bytes))
            (left_in C.moments self.new bytes) }
        ensures room { array_vec_len self.new.ready + 21 ≤ ROOM }
        ensures some { length part.now ≤ array_vec_len self.new.ready }
    {
        for byte in part {
            self.take_byte(*byte);
        }
    }

    /// Takes a byte.
    fn take_byte(&mut self, byte: u8)
        requires { array_vec_len self.old.ready + 22 ≤ ROOM }
        ensures left { (bytes : List ℕ) → Keeps (left_in C.moments self.old (byte ∷ bytes))
            (left_in C.moments self.new bytes) }
        ensures room { array_vec_len self.new.ready ≤ array_vec_len self.old.ready + 22 }
        ensures more { array_vec_len self.old.ready + 1 ≤ array_vec_len self.new.ready }
    {
        self.begin_line();
        self.ready.push(byte);
        if byte == b'\n' {
            self.end_line();
        } else if !self.line.is_full() {
            self.line.push(byte);
        }
    }

    /// Begins a line, if none is open. If the current moment is later than the latest so far, an
    /// advance to it is readied.
    pub fn begin_line(&mut self)
        requires { array_vec_len self.old.ready + 21 ≤ ROOM }
        ensures left { (bytes : List ℕ) → Keeps (left_in C.moments self.old bytes)
            (left_in C.moments self.new bytes) }
        ensures asked { self.new.is_asked ≡ true }
        ensures room { array_vec_len self.new.ready ≤ array_vec_len self.old.ready + 21 }
        ensures more { array_vec_len self.old.ready ≤ array_vec_len self.new.ready }
    {
        if self.is_asked {
            return;
        }
        self.is_asked = true;
        if let Some(moment) = self.clock.now()
            && self.latest.get() < moment.get()
        {
            self.latest = moment;
            append_advance(&mut self.ready, moment);
        }
    }

    /// Ends the line that was begun.
    fn end_line(&mut self)
        ensures clock { self.new.clock ≡ self.old.clock }
        ensures latest { self.new.latest ≡ latest_after self.old.latest self.old.line.items }
        ensures line { self.new.line.items ≡ [] }
        ensures unasked { self.new.is_asked ≡ false }
        ensures ready { self.new.ready ≡ self.old.ready }
    {
        let asked = read_line(self.line.as_slice());
        self.latest = latest_asked(self.latest, &asked);
        self.line.clear();
        self.is_asked = false;
    }

    /// Moves as many of the ready bytes as fit into `out`, and returns how many.
    pub fn give(&mut self, out: &mut [u8]) -> usize
        ensures count { result ≡ min (length out.old) (array_vec_len self.old.ready) }
        ensures given { self.old.ready.items ≡ take result out.new ++ self.new.ready.items }
        ensures clock { self.new.clock ≡ self.old.clock }
        ensures latest { self.new.latest ≡ self.old.latest }
        ensures line { self.new.line ≡ self.old.line }
        ensures asked { self.new.is_asked ≡ self.old.is_asked }
    {
        let count = out.len().min(self.ready.len());
        out[..count].copy_from_slice(&self.ready.as_slice()[..count]);
        let mut rest = ArrayVec::new();
        if rest
            .try_extend_from_slice(&self.ready.as_slice()[count..])
            .is_err()
        {
            unreachable!();
        }
        self.ready = rest;
        count
    }
}

/// The latest moment after what a line asks for.
fn latest_asked(latest: Moment, asked: &LineRequest) -> Moment
    ensures { result ≡ latest_asked latest asked.now }
{
    match asked {
        LineRequest::Step(Step::Command(Command::Advance { moment }))
            if latest.get() < moment.get() => { *moment }
        _ => latest,
    }
}

/// Appends the line of an advance to this moment, with its LF.
fn append_advance(out: &mut ArrayVec<u8, ROOM>, moment: Moment)
    requires { array_vec_len out.old + 21 ≤ ROOM }
    ensures text { out.new.items ≡ out.old.items ++ advance_line moment ++ 10 ∷ [] }
    ensures room { array_vec_len out.new ≤ array_vec_len out.old + 21 }
{
    push_moment(out, b"advance ", moment);
    push(out, b"\n");
}
