//! An [`Order`] is a line that the program writes, and the executor reads.

ghost use Rattle.std.specs.Prelude.{◌≡◌, ◌+◌, ◌≤◌, ◌++◌, ◌∷◌, [], IfErr, OnErr, OnOk, codes};
ghost use Rattle.std.specs.Prelude.{length};
ghost use Rattle.std.specs.Fmt.{decimal};
ghost use Rattle.arrayvec.specs.ArrayVec.{array_vec_len};
ghost use Rattle.run_model.specs.Texts.{IsText};
ghost use Rattle.console_lines.specs.Appended.{Appended};
ghost use Rattle.console_lines.specs.Buffered.{Buffered};
ghost use Rattle.console_lines.specs.Progress.{WritesPart};
ghost use Rattle.drive_lines.specs.Fields.{try_text};
ghost use Rattle.drive_lines.specs.Orders.{order_line};
ghost use Rattle.drive_lines.specs.Spaces.{spaced};

use crate::fields::TryName;
use arrayvec::ArrayVec;
use console_lines::{
    LineReply, OutputBuffer, RunFault, make_room, push, push_count, push_name, push_number,
    push_text,
};
use plan_lines::answers::AnswerLine;
use run_model::{Fault, Text, Trouble};
use std::io::Write;

/// A line of the program.
#[derive(Drop)]
pub enum Order {
    /// `plan`, `unknown`, `too-much`, `circle`, `member`, `later`, `stands`, `bad`, or the empty
    /// line, as `night plan` writes them.
    Answer(AnswerLine),
    /// `night NIGHT`: the number of the night that has begun or goes on.
    Night(u64),
    /// `name GROUP`: no group can have the name of this one, or an earlier one has it.
    Name(u64),
    /// `twice COMMAND`: the group and the key of this command stand before it.
    Twice(u64),
    /// `other TASK`: this task of the store is one of another job.
    Other(u64),
    /// `begin COMMAND TASK GROUP KEY TRY`: the executor begins the command.
    Begin(u64, u16, TryName),
    /// `rebound COMMAND TASK GROUP KEY TRY`: a try that lives has this task from now on.
    Rebound(u64, u16, TryName),
    /// `stop TASK WHY`: the executor stops the try.
    Stop(u16, Text),
    /// `error COMMAND TEXT`: the last try of the command has ended with this error.
    Error(u64, Text),
    /// `first GROUP TEXT`: this is the first error of the group.
    First(u64, Text),
    /// `durable`: all that was heard is recorded.
    Durable,
    /// `over`: the night has ended.
    Over,
    /// `full`: nothing more begins, because the store has no row left.
    Full,
    /// `fault N NAME`
    Fault(Fault),
}

/// The length of the longest line, with its LF.
pub const LONGEST_ORDER: usize = 131;

impl Order {
    /// Appends the bytes of the line, with its LF.
    pub fn append<const N: usize>(&self, out: &mut ArrayVec<u8, N>)
        requires { array_vec_len out.old + LONGEST_ORDER ≤ N }
        ensures { Appended out.old.items out.new.items (order_line self.now) LONGEST_ORDER }
    {
        match self {
            Order::Answer(line) => line.append(out),
            Order::Night(night) => append_number(out, b"night ", *night),
            Order::Name(group) => append_number(out, b"name ", *group),
            Order::Twice(command) => append_number(out, b"twice ", *command),
            Order::Other(task) => append_number(out, b"other ", *task),
            Order::Begin(command, task, named) => append_try(out, b"begin", *command, *task, named),
            Order::Rebound(command, task, named) => {
                append_try(out, b"rebound", *command, *task, named)
            }
            Order::Stop(task, why) => append_text(out, b"stop", u64::from(*task), why),
            Order::Error(command, text) => append_text(out, b"error", *command, text),
            Order::First(group, text) => append_text(out, b"first", *group, text),
            Order::Durable => append_word(out, b"durable"),
            Order::Over => append_word(out, b"over"),
            Order::Full => append_word(out, b"full"),
            Order::Fault(fault) => LineReply::Failed(Trouble::Faulty(*fault)).append(out),
        }
    }
}

/// Appends a line to a buffer. If there might be no room for it, the buffer is written before.
/// `Output` if a write fails or takes nothing.
pub fn write_order<W: Write>(
    order: &Order,
    buffer: &mut OutputBuffer,
    output: &mut W,
) -> Result<(), RunFault>
    ensures buffered { OnOk result (Buffered (order_line order.now) buffer.old.items
        buffer.new.items (W.contents output.old) (W.contents output.new)) }
    ensures cut { OnErr result
        (WritesPart (W.contents output.old) (W.contents output.new) buffer.old.items) }
    ensures fault { IfErr result (λ fault. fault ≡ RunFault.Output) }
{
    make_room(buffer, output)?;
    order.append(buffer);
    Ok(())
}

/// Appends a word, and the LF.
fn append_word<const N: usize>(out: &mut ArrayVec<u8, N>, word: &[u8])
    requires { array_vec_len out.old + (length word.now + 1) ≤ N }
    ensures { Appended out.old.items out.new.items (word.now ++ 10 ∷ []) (length word.now + 1) }
{
    push(out, word);
    push(out, b"\n");
}

/// Appends a word, a number, and the LF.
fn append_number<const N: usize>(out: &mut ArrayVec<u8, N>, word: &[u8], number: u64)
    requires { array_vec_len out.old + (length word.now + 21) ≤ N }
    ensures { Appended out.old.items out.new.items (word.now ++ decimal number ++ 10 ∷ [])
        (length word.now + 21) }
{
    push_number(out, word, number);
    push(out, b"\n");
}

/// Appends a word, a number, a text, and the LF.
fn append_text<const N: usize>(out: &mut ArrayVec<u8, N>, word: &[u8], number: u64, text: &Text)
    requires { array_vec_len out.old + (length word.now + 87) ≤ N }
    ensures { Appended out.old.items out.new.items
        (spaced word.now (spaced (decimal number) text.now) ++ 10 ∷ []) (length word.now + 87) }
{
    push(out, word);
    push_number(out, b" ", number);
    push_text(out, b" ", text);
    push(out, b"\n");
}

/// Appends a word, a command, a task, its try, and the LF.
fn append_try<const N: usize>(
    out: &mut ArrayVec<u8, N>,
    word: &[u8],
    command: u64,
    task: u16,
    named: &TryName,
)
    requires { array_vec_len out.old + (length word.now + 100) ≤ N }
    ensures { Appended out.old.items out.new.items
        (spaced word.now (spaced (decimal command) (spaced (decimal task) (try_text named.now)))
        ++ 10 ∷ []) (length word.now + 100) }
{
    push(out, word);
    push_number(out, b" ", command);
    push_count(out, b" ", task);
    push_name(out, b" ", &named.group);
    push_name(out, b" ", &named.key);
    push_count(out, b" ", named.number);
    push(out, b"\n");
}
