//! Replies are appended to the buffer. A trouble that ends a run is written.

ghost use Rattle.std.specs.Option.{option_to_list};
ghost use Rattle.std.specs.Prelude.{◌≡◌, ◌+◌, ◌≤◌, ◌++◌};
ghost use Rattle.arrayvec.specs.ArrayVec.{array_vec_len};
ghost use Rattle.console_lines.specs.declared.reply_texts.TheConstants.{LONGEST_REPLY};
ghost use Rattle.console_lines.specs.Replies.{reply_lines};
ghost use Rattle.run_console.specs.RunProgress.{Troubled};

use console_lines::{LineReply, OutputBuffer, RunFault, write_out};
use run_model::Trouble;
use std::io::Write;

/// Appends a reply, if there is one.
pub fn append_reply(reply: Option<LineReply>, buffer: &mut OutputBuffer)
    requires { array_vec_len buffer.old + LONGEST_REPLY ≤ 8192 }
    ensures { buffer.new.items ≡ buffer.old.items ++ reply_lines (option_to_list reply) }
{
    if let Some(reply) = reply {
        reply.append(buffer);
    }
}

/// Writes the buffered bytes, and after them the line of a trouble. The fault is the trouble,
/// unless a write before its line failed.
pub fn stop<W: Write>(trouble: Trouble, buffer: &mut OutputBuffer, output: &mut W) -> RunFault
    ensures { Troubled result trouble buffer.old.items
        (W.contents output.old) (W.contents output.new) }
{
    if let Err(fault) = write_out(buffer, output) {
        return fault;
    }
    LineReply::Failed(trouble).append(buffer);
    let _written = write_out(buffer, output);
    RunFault::Store(trouble)
}
