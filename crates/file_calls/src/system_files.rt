//! A [`SystemFile`] is an open file of the system.
//!
//! What is believed of the system stands here, and nowhere else. No proof reaches the system: what
//! its calls return and leave isn't known to the prover, so `keeps` can't be proved of a file of
//! the system, and its definition here makes no use of the clauses. Whoever believes that each
//! method below, which is one call of `std`, keeps the clauses of [`OpenFile`], may read `keeps` as
//! true of each file that nobody else writes to. What is proved of every [`OpenFile`] that keeps
//! its clauses is then true of the system's files.

ghost use Rattle.std.specs.Prelude.{[]};
ghost use Rattle.file_calls.specs.declared.places.Place.TheVariants.{Durable};

use crate::open_files::OpenFile;
use std::fs::File;
use std::io;
use std::os::unix::fs::FileExt;

/// An open file of the system.
#[derive(Drop)]
pub struct SystemFile {
    file: File,
}

impl SystemFile {
    /// Takes a file that was opened for reading and writing. If it was opened for reading only,
    /// each write fails.
    pub fn new(file: File) -> SystemFile {
        SystemFile { file }
    }
}

impl OpenFile for SystemFile {
    type Error = io::Error;

    // What a file of the system holds isn't known.
    ghost state = { λ file. record { now = []; place = λ i. Durable; end = Durable } };

    ghost past = { λ file. [] };

    // What is believed.
    ghost keeps = { λ file. ⊥ };

    fn size(&mut self) -> io::Result<u64> {
        Ok(self.file.metadata()?.len())
    }

    fn read_at(&mut self, at: u64, out: &mut [u8]) -> io::Result<()> {
        self.file.read_exact_at(out, at)
    }

    fn write_at(&mut self, at: u64, bytes: &[u8]) -> io::Result<()> {
        self.file.write_all_at(bytes, at)
    }

    fn empty(&mut self) -> io::Result<()> {
        self.file.set_len(0)
    }

    fn sync(&mut self) -> io::Result<()> {
        self.file.sync_data()
    }
}
