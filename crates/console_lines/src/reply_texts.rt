//! The text of a [`LineReply`] and of its parts, appended to a fixed array.

ghost use Rattle.std.specs.Option.{option_map};
ghost use Rattle.std.specs.Prelude.{◌≡◌, ◌++◌, ◌+◌, ◌≤◌, [], ◌∷◌, IfSome, None};
ghost use Rattle.std.specs.Prelude.{Some, codes, length};
ghost use Rattle.std.specs.Fmt.{decimal};
ghost use Rattle.arrayvec.specs.ArrayVec.{array_vec_len};
ghost use Rattle.run_model.specs.Faults.{fault_text};
ghost use Rattle.run_model.specs.Refusals.{refusal_text};
ghost use Rattle.run_model.specs.Texts.{IsText};
ghost use Rattle.console_lines.specs.declared.reply_texts.TheConstants.{LONGEST_REPLY};
ghost use Rattle.console_lines.specs.Appended.{Appended, AppendedAfter};
ghost use Rattle.console_lines.specs.Replies.{answer_text, deadline_text, ending_text};
ghost use Rattle.console_lines.specs.Replies.{error_text, group_text, limit_text, phase_text};
ghost use Rattle.console_lines.specs.Replies.{reply_line, reply_text, scope_text, started_text};
ghost use Rattle.console_lines.specs.Replies.{step_text, tally_text, task_text, yes_or_no};

use crate::line_replies::LineReply;
use crate::phases::phase_word;
use crate::tallies::JobTally;
use arrayvec::ArrayVec;
use itoa::Buffer;
use run_model::{
    Answer, Fault, GroupLook, Limit, Look, Moment, Name, Phase, Reason, Refusal, TaskInfo, Text,
    Trouble,
};

/// The number of bytes in the longest reply, including its LF. It is that of a scope that is done,
/// with a deadline and a cause.
pub const LONGEST_REPLY: usize = 131;

impl LineReply {
    /// Appends the reply as it is written, with its LF.
    pub fn append<const N: usize>(&self, out: &mut ArrayVec<u8, N>)
        requires { array_vec_len out.old + LONGEST_REPLY ≤ N }
        ensures { Appended out.old.items out.new.items (reply_line self.now) LONGEST_REPLY }
    {
        push_reply(out, self);
        push(out, b"\n");
    }
}

/// Appends the state of a scope, as [`LineReply::Scope`] is printed, with its LF: its deadline,
/// and, if it is done, the reason and the cause. Here the cause is lent.
pub fn append_scope<const N: usize>(
    done: Option<(Reason, &[u8])>,
    deadline: Option<Moment>,
    out: &mut ArrayVec<u8, N>,
)
    requires room { array_vec_len out.old + LONGEST_REPLY ≤ N }
    requires text { IfSome done (λ ending. IsText ending.1.now) }
    ensures { Appended out.old.items out.new.items
        (scope_text (option_map (λ ending. (ending.0, ending.1.now)) done.entry) deadline
        ++ 10 ∷ []) LONGEST_REPLY }
{
    match done {
        None => push_live(out, deadline),
        Some((reason, cause)) => push_done(out, reason, cause, deadline),
    }
    push(out, b"\n");
}

/// A reply without its LF.
fn push_reply<const N: usize>(out: &mut ArrayVec<u8, N>, reply: &LineReply)
    requires { array_vec_len out.old + 130 ≤ N }
    ensures { Appended out.old.items out.new.items (reply_text reply.now) 130 }
{
    match reply {
        LineReply::BadLine => push(out, b"bad line"),
        LineReply::Refused(refusal) => push_refusal(out, *refusal),
        LineReply::Step(answer) => push_step(out, answer),
        LineReply::Scope(look) => push_look(out, look),
        LineReply::Value(text) => push_text(out, b"value ", text),
        LineReply::Task(task, phase) => push_task(out, *task, phase),
        LineReply::Group(look) => push_group(out, look),
        LineReply::Tally(tally) => push_tally(out, tally),
        LineReply::Failed(Trouble::Refused(refusal)) => push_refusal(out, *refusal),
        LineReply::Failed(Trouble::Faulty(fault)) => push_fault(out, *fault),
    }
}

/// What a step is answered.
fn push_step<const N: usize>(out: &mut ArrayVec<u8, N>, answer: &run_model::Reply)
    requires { array_vec_len out.old + 130 ≤ N }
    ensures { Appended out.old.items out.new.items (step_text answer.now) 130 }
{
    match answer {
        run_model::Reply::Answer(answer) => push_answer(out, answer),
        run_model::Reply::Started(started) => push_start(out, &started.info),
        run_model::Reply::Finished(_) => push(out, b"ok"),
        run_model::Reply::Acked(count) => push_number(out, b"acked ", *count),
        run_model::Reply::Refused(refusal) => push_refusal(out, *refusal),
        run_model::Reply::Faulty(fault) => push_fault(out, *fault),
    }
}

/// Appends the phase of a task.
pub fn push_phase<const N: usize>(out: &mut ArrayVec<u8, N>, phase: &Phase)
    requires { array_vec_len out.old + 70 ≤ N }
    ensures { Appended out.old.items out.new.items (phase_text phase.now) 70 }
{
    match phase {
        Phase::Failure(error) => push_text(out, b"error ", error),
        _ => push(out, phase_word(phase).as_bytes()),
    }
}

/// Appends the state of a scope.
pub fn push_look<const N: usize>(out: &mut ArrayVec<u8, N>, look: &Look)
    requires { array_vec_len out.old + 130 ≤ N }
    ensures { Appended out.old.items out.new.items
        (scope_text look.now.done look.now.deadline) 130 }
{
    match &look.done {
        None => push_live(out, look.deadline),
        Some(ending) => push_done(out, ending.0, ending.1.as_bytes(), look.deadline),
    }
}

/// Appends the state of a group.
pub fn push_group<const N: usize>(out: &mut ArrayVec<u8, N>, look: &GroupLook)
    requires { array_vec_len out.old + 113 ≤ N }
    ensures { Appended out.old.items out.new.items (group_text look.now) 113 }
{
    push_count(out, b"unfinished ", look.unfinished);
    push_limit(out, b"; limit ", look.limit);
    push_yes_or_no(out, b"; waited ", look.waited);
    push_error(out, b"; error ", &look.error);
}

/// Appends a word, and a moment, which has at most 12 digits.
#[tactic(auto, using(crate::proofs::Digits::moment_digits))]
pub fn push_moment<const N: usize>(out: &mut ArrayVec<u8, N>, word: &[u8], moment: Moment)
    requires { array_vec_len out.old + (length word.now + 12) ≤ N }
    ensures { AppendedAfter out.old.items out.new.items word.now (decimal moment) 12 }
{
    let mut digits = Buffer::new();
    push_after(out, word, digits.format(moment.get()).as_bytes());
}

/// Appends a word, and a number, which has at most 20 digits.
pub fn push_number<const N: usize>(out: &mut ArrayVec<u8, N>, word: &[u8], number: u64)
    requires { array_vec_len out.old + (length word.now + 20) ≤ N }
    ensures { AppendedAfter out.old.items out.new.items word.now (decimal number) 20 }
{
    let mut digits = Buffer::new();
    push_after(out, word, digits.format(number).as_bytes());
}

/// Appends a word, and a name.
pub fn push_name<const N: usize>(out: &mut ArrayVec<u8, N>, word: &[u8], name: &Name)
    requires { array_vec_len out.old + (length word.now + 32) ≤ N }
    ensures { AppendedAfter out.old.items out.new.items word.now name.now 32 }
{
    push_after(out, word, name.as_bytes());
}

/// Appends a word, and all of these bytes.
pub fn push_after<const N: usize>(out: &mut ArrayVec<u8, N>, word: &[u8], bytes: &[u8])
    requires { array_vec_len out.old + (length word.now + length bytes.now) ≤ N }
    ensures { AppendedAfter out.old.items out.new.items word.now bytes.now (length bytes.now) }
{
    push(out, word);
    push(out, bytes);
}

/// Appends all of these bytes.
pub fn push<const N: usize>(out: &mut ArrayVec<u8, N>, bytes: &[u8])
    requires { array_vec_len out.old + length bytes.now ≤ N }
    ensures { Appended out.old.items out.new.items bytes.now (length bytes.now) }
{
    out.try_extend_from_slice(bytes).unwrap();
}

/// A refusal. The unfinished tasks are counted after the name.
fn push_refusal<const N: usize>(out: &mut ArrayVec<u8, N>, refusal: Refusal)
    requires { array_vec_len out.old + 70 ≤ N }
    ensures { Appended out.old.items out.new.items (refusal_text refusal) 70 }
{
    push_numbered(out, b"refused ", refusal.number(), refusal.name());
    if let Refusal::Unfinished(count) = refusal {
        push_count(out, b" ", count);
    }
}

/// Why a flush or a checkpoint was not done.
fn push_fault<const N: usize>(out: &mut ArrayVec<u8, N>, fault: Fault)
    requires { array_vec_len out.old + 43 ≤ N }
    ensures { Appended out.old.items out.new.items (fault_text fault) 43 }
{
    push_numbered(out, b"fault ", fault.number(), fault.name());
}

/// A word, and a number with its name.
fn push_numbered<const N: usize>(out: &mut ArrayVec<u8, N>, word: &[u8], number: u8, name: &str)
    requires few { length name.now ≤ 16 }
    requires room { array_vec_len out.old + (length word.now + 37) ≤ N }
    ensures { Appended out.old.items out.new.items
        (word.now ++ decimal number ++ codes " " ++ name.now) (length word.now + 37) }
{
    push_number(out, word, u64::from(number));
    push(out, b" ");
    push(out, name.as_bytes());
}

/// The answer of an accepted command.
fn push_answer<const N: usize>(out: &mut ArrayVec<u8, N>, answer: &Answer)
    requires { array_vec_len out.old + 130 ≤ N }
    ensures { Appended out.old.items out.new.items (answer_text answer.now) 130 }
{
    match answer {
        Answer::Scope(scope) => push_count(out, b"scope ", *scope),
        Answer::Group(group, None) => push_count(out, b"group ", *group),
        Answer::Group(group, Some(scope)) => {
            push_count(out, b"group ", *group);
            push_count(out, b" scope ", *scope);
        }
        Answer::Done => push(out, b"ok"),
        Answer::Task(task, phase) => push_task(out, *task, phase),
        Answer::Waited(None) => push(out, b"wait ok"),
        Answer::Waited(Some(error)) => push_text(out, b"wait error ", error),
    }
}

/// A task's number, and how far it is.
fn push_task<const N: usize>(out: &mut ArrayVec<u8, N>, task: u16, phase: &Phase)
    requires { array_vec_len out.old + 81 ≤ N }
    ensures { Appended out.old.items out.new.items (task_text task phase.now) 81 }
{
    push_count(out, b"task ", task);
    push(out, b" ");
    push_phase(out, phase);
}

/// A task that was started: its number, its job and its argument.
fn push_start<const N: usize>(out: &mut ArrayVec<u8, N>, info: &TaskInfo)
    requires { array_vec_len out.old + 77 ≤ N }
    ensures { Appended out.old.items out.new.items (started_text info.now) 77 }
{
    push_count(out, b"start ", info.task);
    push_name(out, b" ", &info.job);
    push_name(out, b" ", &info.argument);
}

/// A scope that is live.
fn push_live<const N: usize>(out: &mut ArrayVec<u8, N>, deadline: Option<Moment>)
    requires { array_vec_len out.old + 130 ≤ N }
    ensures { Appended out.old.items out.new.items (scope_text None deadline) 130 }
{
    push_deadline(out, b"live; deadline ", deadline);
}

/// A scope that is done.
fn push_done<const N: usize>(
    out: &mut ArrayVec<u8, N>,
    reason: Reason,
    cause: &[u8],
    deadline: Option<Moment>,
)
    requires room { array_vec_len out.old + 130 ≤ N }
    requires text { IsText cause.now }
    ensures { Appended out.old.items out.new.items (scope_text (Some (reason, cause.now)) deadline)
        130 }
{
    push_deadline(out, b"done; deadline ", deadline);
    push_ending(out, reason, cause);
}

/// Appends why a scope is done, and its cause.
pub fn push_ending<const N: usize>(out: &mut ArrayVec<u8, N>, reason: Reason, cause: &[u8])
    requires room { array_vec_len out.old + 103 ≤ N }
    requires text { IsText cause.now }
    ensures { Appended out.old.items out.new.items (ending_text reason cause.now) 103 }
{
    push(out, b"; err ");
    push(out, reason.text().as_bytes());
    push_after(out, b"; cause ", cause);
}

/// A word, and a deadline in seconds, or `none`.
fn push_deadline<const N: usize>(out: &mut ArrayVec<u8, N>, word: &[u8], deadline: Option<Moment>)
    requires { array_vec_len out.old + (length word.now + 12) ≤ N }
    ensures { AppendedAfter out.old.items out.new.items word.now (deadline_text deadline) 12 }
{
    match deadline {
        Some(moment) => push_moment(out, word, moment),
        None => push_after(out, word, b"none"),
    }
}

/// A word, and a limit, or `none`.
fn push_limit<const N: usize>(out: &mut ArrayVec<u8, N>, word: &[u8], limit: Limit)
    requires { array_vec_len out.old + (length word.now + 5) ≤ N }
    ensures { AppendedAfter out.old.items out.new.items word.now (limit_text limit) 5 }
{
    match limit.get() {
        Some(most) => push_count(out, word, u16::from(most)),
        None => push_after(out, word, b"none"),
    }
}

/// A word, and whether something was done.
fn push_yes_or_no<const N: usize>(out: &mut ArrayVec<u8, N>, word: &[u8], done: bool)
    requires { array_vec_len out.old + (length word.now + 3) ≤ N }
    ensures { AppendedAfter out.old.items out.new.items word.now (yes_or_no done) 3 }
{
    if done {
        push_after(out, word, b"yes");
    } else {
        push_after(out, word, b"no");
    }
}

/// A word, and a first error, or `none`.
fn push_error<const N: usize>(out: &mut ArrayVec<u8, N>, word: &[u8], error: &Option<Text>)
    requires { array_vec_len out.old + (length word.now + 64) ≤ N }
    ensures { AppendedAfter out.old.items out.new.items word.now (error_text error.now) 64 }
{
    match error {
        Some(error) => push_text(out, word, error),
        None => push_after(out, word, b"none"),
    }
}

/// Appends the counts of the tasks of one job.
pub fn push_tally<const N: usize>(out: &mut ArrayVec<u8, N>, tally: &JobTally)
    requires { array_vec_len out.old + 99 ≤ N }
    ensures { Appended out.old.items out.new.items (tally_text tally.now) 99 }
{
    push_name(out, b"tally ", &tally.job);
    push_count(out, b" total ", tally.counts.total);
    push_count(out, b"; success ", tally.counts.success);
    push_count(out, b"; failure ", tally.counts.failure);
    push_count(out, b"; interrupted ", tally.counts.interrupted);
}

/// Appends a word, and a count, which has at most 5 digits.
#[tactic(auto, using(crate::proofs::Digits::count_digits))]
pub fn push_count<const N: usize>(out: &mut ArrayVec<u8, N>, word: &[u8], count: u16)
    requires { array_vec_len out.old + (length word.now + 5) ≤ N }
    ensures { AppendedAfter out.old.items out.new.items word.now (decimal count) 5 }
{
    let mut digits = Buffer::new();
    push_after(out, word, digits.format(count).as_bytes());
}

/// Appends a word, and a text.
pub fn push_text<const N: usize>(out: &mut ArrayVec<u8, N>, word: &[u8], text: &Text)
    requires { array_vec_len out.old + (length word.now + 64) ≤ N }
    ensures { AppendedAfter out.old.items out.new.items word.now text.now 64 }
{
    push_after(out, word, text.as_bytes());
}
