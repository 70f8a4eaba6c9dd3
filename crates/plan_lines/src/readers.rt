//! A [`LineReader`] reads an input line by line.

ghost use Rattle.std.specs.Prelude.{◌≡◌, ◌≤◌, ◌++◌, [], IfErr, take};
ghost use Rattle.std.specs.Io.KnownBytes.{ReadConsumes};
ghost use Rattle.std.specs.Io.{ReadsAtMost};

use arrayvec::ArrayVec;
use console_lines::RunFault;
use memchr::memchr;
use std::io::Read;

/// The most bytes of one read.
const PART: usize = 4096;

/// How many bytes of a line are returned at most: one more than the longest line has.
const KEPT: usize = 256;

/// A line without its LF, or the first 256 bytes of a line that is too long.
pub type Line = ArrayVec<u8, KEPT>;

/// Reads an input in parts, and returns its lines.
#[derive(Drop)]
pub struct LineReader {
    buffer: [u8; PART],
    start: usize,
    end: usize,
    ghost ordered: { start ≤ end },
    ghost within: { end ≤ 4096 },
}

impl LineReader {
    ghost use Rattle.plan_lines.specs.Reading.{Fills, Reads, TakesPart, held};

    /// A reader of an input of which nothing was read.
    pub fn new() -> Self
        ensures { held result ≡ [] }
    {
        LineReader {
            buffer: [0u8; PART],
            start: 0,
            end: 0,
        }
    }

    /// Reads the next line that an LF ends, and returns whether there is one. What comes after the
    /// last LF of the input is no line.
    pub fn next_line<R: Read>(&mut self, input: &mut R, line: &mut Line) -> Result<bool, RunFault>
        ensures { Reads result self.old self.new
            (R.remaining input.old) (R.remaining input.new) line.new.items }
    {
        line.clear();
        for _turn in 0..u64::MAX {
            let some = self.fill(input)?;
            if !some {
                return Ok(false);
            }
            if self.take_part(line) {
                return Ok(true);
            }
        }
        Err(RunFault::InputTooLong)
    }

    /// Reads on if no bytes are held. Returns whether any are held afterwards. At the end of the
    /// input, none are.
    fn fill<R: Read>(&mut self, input: &mut R) -> Result<bool, RunFault>
        ensures { Fills result self.old self.new (R.remaining input.old) (R.remaining input.new) }
    {
        if self.start < self.end {
            return Ok(true);
        }
        let count = read_some(input, &mut self.buffer)?;
        self.start = 0;
        self.end = count;
        Ok(count > 0)
    }

    /// Appends the bytes that are held to a line, up to the next LF. Returns whether there is one.
    fn take_part(&mut self, line: &mut Line) -> bool
        ensures { TakesPart result self.old self.new line.old.items line.new.items }
    {
        let rest = &self.buffer[self.start..self.end];
        match memchr(b'\n', rest) {
            Some(at) => {
                keep(&rest[..at], line);
                self.start = self.start + at + 1;
                true
            }
            None => {
                keep(rest, line);
                self.start = self.end;
                false
            }
        }
    }
}

/// Appends as many of these bytes as fit.
fn keep(bytes: &[u8], line: &mut Line)
    ensures { line.new.items ≡ take 256 (line.old.items ++ bytes.now) }
{
    let most = line.remaining_capacity().min(bytes.len());
    match line.try_extend_from_slice(&bytes[..most]) {
        Ok(()) => (),
        Err(_) => unreachable!(),
    }
}

/// Reads some bytes, or none at the end of the input.
fn read_some<R: Read>(input: &mut R, buffer: &mut [u8]) -> Result<usize, RunFault>
    ensures bound { ReadsAtMost result buffer.new }
    ensures bytes { ReadConsumes (R.remaining input.old) (R.remaining input.new) result buffer.new }
    ensures fault { IfErr result (λ fault. fault ≡ RunFault.Input) }
{
    match input.read(buffer) {
        Ok(count) => Ok(count),
        Err(_) => Err(RunFault::Input),
    }
}
