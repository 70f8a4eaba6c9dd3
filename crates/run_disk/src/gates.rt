//! A gate is a single byte on a disk, so a crash leaves it open or closed, and nothing in between.
//!
//! The byte 0xA7 opens a gate. Every other byte closes it, and 0 is the one that is written.

/// The byte of an open gate.
pub const OPEN: u8 = 0xA7;

/// The byte that is written to close a gate. A gate with any byte other than [`OPEN`] is closed.
pub const CLOSED: u8 = 0;
