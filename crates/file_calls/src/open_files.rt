//! An [`OpenFile`] is a file that was opened for reading and writing.

ghost use Rattle.std.specs.Prelude.{◌≡◌, ◌≤◌, ◌↔◌, ◌⊎◌, ◌+◌, List, length, slice_range};
ghost use Rattle.std.specs.Prelude.{IfOk, OnErr, OnOk};
ghost use Rattle.file_calls.specs.OpenFiles.{Empties, FileState, GoesOn, IsSame, Settles, Writes};
ghost use Rattle.file_calls.specs.declared.places.Place.TheVariants.{Durable, Lost};

/// A call failed.
#[derive(Clone, Copy, Debug, PartialEq, Eq)]
pub struct CallFailed;

/// An open file. Nobody else writes to it.
///
/// What is written can be read at once, but is durable only after a sync. If a sync fails, whatever
/// it should have written is lost for good: reads still return it, and later syncs succeed without
/// writing it.
pub trait OpenFile {
    /// What a call that failed returns.
    type Error: Drop;

    /// What contracts see of the file.
    ghost state: { Self → FileState };

    /// What it was before each of its calls, oldest first.
    ghost past: { Self → List FileState };

    /// Whether it keeps the promises about its bytes, at every call.
    ghost keeps: { Self → Type 0 };

    /// Returns the number of bytes.
    fn size(&mut self) -> Result<u64, Self::Error>
        ensures kept { keeps self.old ↔ keeps self.new }
        ensures goes_on { keeps self.old
            → GoesOn (state self.old) (state self.new) (past self.old) (past self.new) result }
        ensures same { keeps self.old → IsSame (state self.old) (state self.new) }
        ensures size { keeps self.old
            → IfOk result (λ size. size ≡ length (state self.old).now) };

    /// Fills `out` with the bytes from the place `at` on. It fails if the file ends before that.
    fn read_at(&mut self, at: u64, out: &mut [u8]) -> Result<(), Self::Error>
        ensures kept { keeps self.old ↔ keeps self.new }
        ensures goes_on { keeps self.old
            → GoesOn (state self.old) (state self.new) (past self.old) (past self.new) result }
        ensures same { keeps self.old → IsSame (state self.old) (state self.new) }
        ensures within { keeps self.old
            → OnOk result (at + length out.old ≤ length (state self.old).now) }
        ensures bytes { keeps self.old
            → OnOk result (out.new ≡ slice_range (state self.old).now at (at + length out.old)) };

    /// Writes these bytes, beginning at the place `at`. The file grows if they reach behind its
    /// end. Nothing is said of a write that begins behind the end.
    fn write_at(&mut self, at: u64, bytes: &[u8]) -> Result<(), Self::Error>
        ensures kept { keeps self.old ↔ keeps self.new }
        ensures goes_on { keeps self.old
            → GoesOn (state self.old) (state self.new) (past self.old) (past self.new) result }
        ensures writes { keeps self.old → at ≤ length (state self.old).now
            → Writes at bytes.now (state self.old) (state self.new) result };

    /// Removes all bytes.
    fn empty(&mut self) -> Result<(), Self::Error>
        ensures kept { keeps self.old ↔ keeps self.new }
        ensures goes_on { keeps self.old
            → GoesOn (state self.old) (state self.new) (past self.old) (past self.new) result }
        ensures empties { keeps self.old
            → Empties (state self.old) (state self.new) result };

    /// Makes durable what was written. If it was made and fails, that is lost.
    fn sync(&mut self) -> Result<(), Self::Error>
        ensures kept { keeps self.old ↔ keeps self.new }
        ensures goes_on { keeps self.old
            → GoesOn (state self.old) (state self.new) (past self.old) (past self.new) result }
        ensures durable { keeps self.old
            → OnOk result (Settles Durable (state self.old) (state self.new)) }
        ensures lost { keeps self.old
            → OnErr result (Settles Lost (state self.old) (state self.new)
            ⊎ (past self.new ≡ past self.old)) };
}
