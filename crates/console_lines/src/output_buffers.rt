//! An [`OutputBuffer`] collects lines, so that many are written at once.
//!
//! A write that fails or takes nothing is a fault. The output then holds a prefix of the bytes.

ghost use Rattle.std.specs.Prelude.{◌≡◌, ◌+◌, ◌≤◌, ◌++◌, [], OnOk, OnErr, IfErr};
ghost use Rattle.std.specs.Io.KnownBytes.{Appends};
ghost use Rattle.arrayvec.specs.ArrayVec.{array_vec_len};
ghost use Rattle.console_lines.specs.declared.reply_texts.TheConstants.{LONGEST_REPLY};
ghost use Rattle.console_lines.specs.Progress.{WritesPart};
ghost use Rattle.console_lines.specs.Buffered.{Buffered};

use crate::faults::RunFault;
use crate::reply_texts::LONGEST_REPLY;
use arrayvec::ArrayVec;
use std::io::Write;

/// A buffer holds at most this many bytes.
const CAPACITY: usize = 8192;

/// Bytes that aren't written yet.
pub type OutputBuffer = ArrayVec<u8, CAPACITY>;

/// Ensures that another reply fits: if it might not, all buffered bytes are written. `Output` if a
/// write fails or takes nothing.
pub fn make_room<W: Write>(buffer: &mut OutputBuffer, output: &mut W) -> Result<(), RunFault>
    ensures buffered { OnOk result (Buffered [] buffer.old.items buffer.new.items
        (W.contents output.old) (W.contents output.new)) }
    ensures room { OnOk result (array_vec_len buffer.new + LONGEST_REPLY ≤ 8192) }
    ensures cut { OnErr result
        (WritesPart (W.contents output.old) (W.contents output.new) buffer.old.items) }
    ensures fault { IfErr result (λ fault. fault ≡ RunFault.Output) }
{
    if buffer.remaining_capacity() < LONGEST_REPLY {
        write_out(buffer, output)?;
    }
    Ok(())
}

/// Appends these bytes. If they don't fit, the buffered bytes are written first, and then these
/// directly. `Output` if a write fails or takes nothing.
pub fn append_bytes<W: Write>(
    bytes: &[u8],
    buffer: &mut OutputBuffer,
    output: &mut W,
) -> Result<(), RunFault>
    ensures buffered { OnOk result (Buffered bytes.now buffer.old.items buffer.new.items
        (W.contents output.old) (W.contents output.new)) }
    ensures cut { OnErr result (WritesPart (W.contents output.old) (W.contents output.new)
        (buffer.old.items ++ bytes.now)) }
    ensures fault { IfErr result (λ fault. fault ≡ RunFault.Output) }
{
    if buffer.remaining_capacity() < bytes.len() {
        write_out(buffer, output)?;
        return write_whole(output, bytes);
    }
    buffer.try_extend_from_slice(bytes).unwrap();
    Ok(())
}

/// Writes all buffered bytes, and empties the buffer. `Output` if a write fails or takes nothing.
pub fn write_out<W: Write>(buffer: &mut OutputBuffer, output: &mut W) -> Result<(), RunFault>
    ensures whole { OnOk result
        (Appends (W.contents output.old) (W.contents output.new) buffer.old.items) }
    ensures none { OnOk result (buffer.new.items ≡ []) }
    ensures cut { OnErr result
        (WritesPart (W.contents output.old) (W.contents output.new) buffer.old.items) }
    ensures fault { IfErr result (λ fault. fault ≡ RunFault.Output) }
{
    write_whole(output, buffer.as_slice())?;
    buffer.clear();
    Ok(())
}

/// Writes all of these bytes. `Output` if a write fails or takes nothing; then a prefix was
/// written.
pub fn write_whole<W: Write>(output: &mut W, bytes: &[u8]) -> Result<(), RunFault>
    ensures whole { OnOk result
        (Appends (W.contents output.old) (W.contents output.new) bytes.now) }
    ensures cut { OnErr result
        (WritesPart (W.contents output.old) (W.contents output.new) bytes.now) }
    ensures fault { IfErr result (λ fault. fault ≡ RunFault.Output) }
{
    let mut rest = bytes;
    while !rest.is_empty() {
        match output.write(rest) {
            Ok(0) => return Err(RunFault::Output),
            Ok(count) => rest = &rest[count..],
            Err(_) => return Err(RunFault::Output),
        }
    }
    Ok(())
}
