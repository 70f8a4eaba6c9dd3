//! A [`WatchedStream`] is a stream that keeps its first error; [`Errors`] is a stream of messages.

ghost use Rattle.std.specs.Prelude.{◌≡◌};

use crate::error_cells::ErrorCell;
use std::fmt::Display;
use std::io;
use std::io::{ErrorKind, Read, Write};
use store_files::ErrorSink;

/// A stream that keeps the error of its first call that failed. A call that was interrupted doesn't
/// count: its caller repeats it.
#[derive(Drop)]
pub struct WatchedStream<'a, T> {
    stream: T,
    why: &'a ErrorCell,
}

impl<'a, T> WatchedStream<'a, T> {
    pub fn new(stream: T, why: &'a ErrorCell) -> WatchedStream<'a, T> {
        WatchedStream { stream, why }
    }
}

impl<T: Read> Read for WatchedStream<'_, T> {
    ghost remaining = { λ heard. T.remaining heard.stream };

    fn read(&mut self, buf: &mut [u8]) -> io::Result<usize> {
        let done = self.stream.read(buf);
        if let Err(error) = &done {
            note(error, self.why);
        }
        done
    }
}

impl<T: Write> Write for WatchedStream<'_, T> {
    ghost contents = { λ heard. T.contents heard.stream };

    fn write(&mut self, buf: &[u8]) -> io::Result<usize> {
        let done = self.stream.write(buf);
        if let Err(error) = &done {
            note(error, self.why);
        }
        done
    }

    fn flush(&mut self) -> io::Result<()> {
        let done = self.stream.flush();
        if let Err(error) = &done {
            note(error, self.why);
        }
        done
    }
}

/// Notes the error of a call, unless the call was interrupted.
fn note(error: &io::Error, why: &ErrorCell) {
    if error.kind() != ErrorKind::Interrupted {
        why.note(error);
    }
}

/// A stream of messages that counts those that couldn't be written.
#[derive(Drop)]
pub struct Errors<T> {
    stream: T,
    failures: u64,
}

impl<T: Write> Errors<T> {
    pub fn new(stream: T) -> Errors<T>
        ensures { (⟦<Errors<T> as ErrorSink>⟧.state result).failures ≡ 0 }
    {
        Errors {
            stream,
            failures: 0,
        }
    }

    /// Returns how many messages couldn't be written.
    pub fn failures(&self) -> u64
        ensures { result ≡ (⟦<Errors<T> as ErrorSink>⟧.state self.now).failures }
    {
        self.failures
    }
}

impl<T: Write> ErrorSink for Errors<T> {
    ghost use Rattle.store_files.specs.ErrorSinks.{SinkState};

    ghost state = { λ errors.
        record { contents = T.contents errors.stream; failures = errors.failures } };

    fn print<D: Display + Drop>(&mut self, text: D) -> bool {
        let is_printed = self.stream.write_fmt(text).is_ok();
        if !is_printed {
            self.failures = self.failures.wrapping_add(1);
        }
        is_printed
    }
}
