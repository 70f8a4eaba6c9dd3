//! The content of a new file: zeros.

use std::fs::File;
use std::io;
use std::io::Write;

/// How many bytes are written at a time.
const PART: usize = 4096;

/// Empties a file, and fills it with `size` zero bytes.
pub fn fill(file: &mut File, size: u64) -> io::Result<()> {
    file.set_len(0)?;
    let part = [0u8; PART];
    for _ in 0..size / PART as u64 {
        file.write_all(&part)?;
    }
    file.write_all(&part[..(size % PART as u64) as usize])
}
