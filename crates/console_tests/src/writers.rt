//! Writers that tests hand to the console.

ghost use Rattle.std.specs.Prelude.{Some};

use std::cell::Cell;
use std::io::{self, ErrorKind, Write};

/// What a writer does once instead of a write.
#[derive(Clone, Copy)]
pub enum End {
    /// The write fails.
    Fails,
    /// The write takes nothing.
    TakesNothing,
}

/// Takes at most `part` bytes at a write. After so many writes one fails or takes nothing, and the
/// later ones are like the first.
#[derive(Drop)]
pub struct EndingWriter {
    bytes: Vec<u8>,
    part: usize,
    left: usize,
    end: End,
}

impl EndingWriter {
    pub fn new(bytes: Vec<u8>, part: usize, left: usize, end: End) -> EndingWriter {
        EndingWriter {
            bytes,
            part,
            left,
            end,
        }
    }

    /// What it took.
    pub fn into_written(self) -> Vec<u8> {
        self.bytes
    }
}

impl Write for EndingWriter {
    ghost contents = { λ writer. Some writer.bytes.items };

    fn write(&mut self, bytes: &[u8]) -> io::Result<usize> {
        if self.left == 0 {
            self.left = usize::MAX;
            return match self.end {
                End::Fails => Err(io::Error::from(ErrorKind::Interrupted)),
                End::TakesNothing => Ok(0),
            };
        }
        self.left -= 1;
        let count = bytes.len().min(self.part);
        self.bytes.extend_from_slice(&bytes[..count])?;
        Ok(count)
    }

    fn flush(&mut self) -> io::Result<()> {
        Ok(())
    }
}

/// Counts what is written.
#[derive(Drop)]
pub struct CountingWriter<'a> {
    written: &'a Cell<usize>,
}

impl<'a> CountingWriter<'a> {
    pub fn new(written: &'a Cell<usize>) -> CountingWriter<'a> {
        CountingWriter { written }
    }
}

impl Write for CountingWriter<'_> {
    fn write(&mut self, bytes: &[u8]) -> io::Result<usize> {
        self.written
            .set(self.written.get().saturating_add(bytes.len()));
        Ok(bytes.len())
    }

    fn flush(&mut self) -> io::Result<()> {
        Ok(())
    }
}
