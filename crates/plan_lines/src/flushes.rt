//! The end of an answer: what is buffered is written, and the output is flushed.

ghost use Rattle.std.specs.Prelude.{◌≡◌, [], IfErr, OnErr, OnOk};
ghost use Rattle.std.specs.Io.KnownBytes.{Appends};
ghost use Rattle.plan_lines.specs.Writing.{WritesPrefix};

use console_lines::{OutputBuffer, RunFault, write_out};
use std::io::Write;

/// Writes all buffered bytes, empties the buffer, and flushes the output. `Output` if a write fails
/// or takes nothing, or if the flush fails; then a prefix of the bytes was written.
pub fn flush_out<W: Write>(buffer: &mut OutputBuffer, output: &mut W) -> Result<(), RunFault>
    ensures whole { OnOk result
        (Appends (W.contents output.old) (W.contents output.new) buffer.old.items) }
    ensures none { OnOk result (buffer.new.items ≡ []) }
    ensures prefix { OnErr result
        (WritesPrefix (W.contents output.old) (W.contents output.new) buffer.old.items) }
    ensures fault { IfErr result (λ fault. fault ≡ RunFault.Output) }
{
    write_out(buffer, output)?;
    match output.flush() {
        Ok(()) => Ok(()),
        Err(_) => Err(RunFault::Output),
    }
}
