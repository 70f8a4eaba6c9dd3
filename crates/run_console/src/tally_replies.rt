//! The reply to `tally`: a line for each job, which says how many tasks it has and how they have
//! ended.
//!
//! It is the only reply that takes memory, for each job. All of its lines are made before the first
//! one is appended, so lack of memory never leaves a part of the reply.

ghost use Rattle.std.specs.Prelude.{◌≡◌, ◌≢◌, ◌<◌, [], length, map, IfErr, IfOk, OnErr, OnOk, Some};
ghost use Rattle.std.specs.String.{string_bytes};
ghost use Rattle.console_lines.specs.Replies.{reply_lines};
ghost use Rattle.console_lines.specs.Tallies.{tallies_of};
ghost use Rattle.console_lines.specs.declared.line_replies.LineReply.TheVariants as printed;
ghost use Rattle.run_console.specs.RunProgress.{NotAppended};
ghost use Rattle.console_lines.specs.Buffered.{Buffered};

use console_lines::{OutputBuffer, RunFault, Tallies, append_bytes, write_out};
use run_session::State;
use std::alloc::{AllocError, Allocator};
use std::io::Write;

/// Appends the tally of a state's tasks. If memory for it is refused, the replies that were
/// buffered before are written, and no line of the tally.
pub fn append_tally<A: Allocator + Copy, W: Write, B: Allocator>(
    alloc: A,
    state: &State<B>,
    buffer: &mut OutputBuffer,
    output: &mut W,
) -> Result<(), RunFault>
    ensures buffered { OnOk result
        (Buffered (reply_lines (map printed.Tally (tallies_of state.now.work.tasks)))
        buffer.old.items buffer.new.items
        (W.contents output.old) (W.contents output.new)) }
    ensures not_appended { IfErr result (λ fault. NotAppended fault
        (reply_lines (map printed.Tally (tallies_of state.now.work.tasks))) buffer.old.items
        (W.contents output.old) (W.contents output.new)) }
{
    let Ok(lines) = tally_lines(alloc, state) else {
        write_out(buffer, output)?;
        return Err(RunFault::Memory);
    };
    append_bytes(lines.as_bytes(), buffer, output)
}

/// The lines of the tally, each with its LF. It fails only for lack of memory, and only if there is
/// a line.
#[tactic(auto, using(crate::proofs::Counting::has_line, crate::proofs::Counting::has_tally))]
fn tally_lines<A: Allocator + Copy, B: Allocator>(
    alloc: A,
    state: &State<B>,
) -> Result<String<A>, AllocError>
    ensures lines { IfOk result (λ lines. string_bytes lines
        ≡ reply_lines (map printed.Tally (tallies_of state.now.work.tasks))) }
    ensures some { OnErr result
        (reply_lines (map printed.Tally (tallies_of state.now.work.tasks)) ≢ []) }
{
    let tallies = count_tasks(alloc, state)?;
    tallies.to_lines(alloc)
}

/// The tallies of the tasks of a state. It fails only for lack of memory, and only if there is a
/// task.
fn count_tasks<A: Allocator + Copy, B: Allocator>(
    alloc: A,
    state: &State<B>,
) -> Result<Tallies<A>, AllocError>
    ensures counted { IfOk result (λ tallies. tallies ≡ tallies_of state.now.work.tasks) }
    ensures some { OnErr result (0 < length state.now.work.tasks) }
{
    let mut tallies = Tallies::new(alloc);
    for task in 0..state.task_count() as u16 {
        let look = state.task(task).unwrap();
        tallies.add(&look.job, &look.phase)?;
    }
    Ok(tallies)
}
