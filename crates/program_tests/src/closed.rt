//! An input that can't be read, and an output that takes nothing.

use std::io;
use std::io::{ErrorKind, Read, Write};

/// Each read and each write of it fails.
#[derive(Drop)]
pub struct Closed;

impl Read for Closed {
    fn read(&mut self, _buf: &mut [u8]) -> io::Result<usize> {
        Err(io::Error::from(ErrorKind::BrokenPipe))
    }
}

impl Write for Closed {
    fn write(&mut self, _buf: &[u8]) -> io::Result<usize> {
        Err(io::Error::from(ErrorKind::BrokenPipe))
    }

    fn flush(&mut self) -> io::Result<()> {
        Ok(())
    }
}
