//! A [`Sheet`] buffers text, and remembers that a write has failed.
//!
//! After a write that fails or takes nothing, nothing more is written, whatever is added. The
//! output then holds a prefix of the text.

ghost use Rattle.std.specs.Io.KnownBytes.{Appends};
ghost use Rattle.std.specs.Prelude.{◌≡◌, ◌+◌, ◌≤◌, ℕ, List, [], Option, OnOk, OnErr, IfErr};
ghost use Rattle.arrayvec.specs.ArrayVec.{array_vec_len};
ghost use Rattle.state_views.specs.declared.json_entries.TheConstants.{LONGEST_ENTRY};
ghost use Rattle.console_lines.specs.Progress.{WritesPart};
ghost use Rattle.state_views.specs.Forms.{first_of};
ghost use Rattle.state_views.specs.Sheets.{Adds, Holds};

use crate::forms::{Form, append_first};
use crate::json_entries::LONGEST_ENTRY;
use console_lines::{OutputBuffer, RunFault, append_bytes, write_whole};
use run_session::State;
use std::alloc::Allocator;
use std::io::Write;

/// The bytes that aren't written yet, and whether a write failed.
#[derive(Drop)]
pub struct Sheet {
    pub(crate) buffer: OutputBuffer,
    failed: bool,
}

impl Sheet {
    /// Returns a sheet with the text that precedes the rows.
    pub(crate) fn new<B: Allocator>(form: Form<'_>, state: &State<B>) -> Sheet
        ensures { (w : Option (List ℕ)) → Holds (first_of form.entry state.now) result w w }
    {
        let mut buffer = OutputBuffer::new();
        append_first(form, state, &mut buffer);
        let failed = false;
        Sheet { buffer, failed }
    }

    /// Adds these bytes.
    pub(crate) fn add<W: Write>(&mut self, bytes: &[u8], output: &mut W)
        ensures { Adds bytes.now self.old self.new (W.contents output.old) (W.contents output.new) }
    {
        if self.failed {
            return;
        }
        self.failed = append_bytes(bytes, &mut self.buffer, output).is_err();
    }

    /// Ensures that another line or entry fits: if it might not, all buffered bytes are written.
    pub(crate) fn make_room<W: Write>(&mut self, output: &mut W)
        ensures none { Adds [] self.old self.new (W.contents output.old) (W.contents output.new) }
        ensures room { array_vec_len self.new.buffer + LONGEST_ENTRY ≤ 8192 }
    {
        if self.buffer.remaining_capacity() < LONGEST_ENTRY {
            self.write(output);
        }
    }

    /// Writes the rest. If this write or an earlier one failed, only a proper prefix of the text
    /// was written.
    pub(crate) fn end<W: Write>(&mut self, output: &mut W) -> Result<(), RunFault>
        ensures whole { OnOk result ((text : List ℕ) (w : Option (List ℕ))
            → Holds text self.old w (W.contents output.old)
            → Appends w (W.contents output.new) text) }
        ensures cut { OnErr result ((text : List ℕ) (w : Option (List ℕ))
            → Holds text self.old w (W.contents output.old)
            → WritesPart w (W.contents output.new) text) }
        ensures fault { IfErr result (λ fault. fault ≡ RunFault.Output) }
    {
        self.write(output);
        if self.failed {
            return Err(RunFault::Output);
        }
        Ok(())
    }

    /// Writes all buffered bytes, unless a write failed before, and empties the buffer.
    fn write<W: Write>(&mut self, output: &mut W)
        ensures none { Adds [] self.old self.new (W.contents output.old) (W.contents output.new) }
        ensures empty { self.new.buffer.items ≡ [] }
    {
        if self.failed {
            self.buffer.clear();
            return;
        }
        self.failed = write_whole(output, self.buffer.as_slice()).is_err();
        self.buffer.clear();
    }
}
