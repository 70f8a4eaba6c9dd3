//! A [`JobTally`] says how many tasks a job has, and how they have ended.

ghost use Rattle.std.specs.Prelude.{◌≡◌, IfOk};
ghost use Rattle.std.specs.String.{string_bytes};
ghost use Rattle.console_lines.specs.Replies.{reply_line};
ghost use Rattle.console_lines.specs.declared.line_replies.LineReply.TheVariants as printed;

use crate::reply_texts::{LONGEST_REPLY, push, push_tally};
use arrayvec::ArrayVec;
use run_model::Name;
use std::alloc::{AllocError, Allocator};
use std::str;

/// How many tasks a job has, and how they have ended.
#[derive(Drop)]
pub struct JobTally {
    /// The job.
    pub job: Name,
    /// How many tasks it has, and how they have ended.
    pub counts: TaskCounts,
}

impl JobTally {
    /// Returns the line of this tally, with its LF. An error means that memory was refused.
    pub fn to_line<A: Allocator>(&self, alloc: A) -> Result<String<A>, AllocError>
        ensures { IfOk result (λ line. string_bytes line ≡ reply_line (printed.Tally self.now)) }
    {
        // a name, and counts of two bytes each, are written in ASCII
        let _name = self.job.as_bytes();
        let _total = self.counts.total;
        let _success = self.counts.success;
        let _failure = self.counts.failure;
        let _interrupted = self.counts.interrupted;
        let mut line = ArrayVec::<u8, LONGEST_REPLY>::new();
        push_tally(&mut line, self);
        push(&mut line, b"\n");
        match str::from_utf8(line.as_slice()) {
            Ok(line) => String::from_str(alloc, line),
            Err(_) => unreachable!(),
        }
    }
}

/// How many tasks there are, and how many of them have ended in each way. The others are held,
/// ready or running.
#[derive(Clone, Copy)]
pub struct TaskCounts {
    /// All of them.
    pub total: u16,
    /// Those that finished without an error.
    pub success: u16,
    /// Those that finished with an error.
    pub failure: u16,
    /// Those that were running when the program crashed or ended.
    pub interrupted: u16,
}
