//! A [`Row`] is one line of a printed state.

ghost use Rattle.std.specs.Fmt.{decimal};
ghost use Rattle.std.specs.Prelude.{◌≡◌, ◌++◌, ◌+◌, ◌≤◌, codes, length};
ghost use Rattle.arrayvec.specs.ArrayVec.{array_vec_len};
ghost use Rattle.state_views.specs.declared.row_lines.TheConstants.{LONGEST_ROW};
ghost use Rattle.console_lines.specs.Appended.{Appended};
ghost use Rattle.state_views.specs.Inspected.{named, retry_text, row_line, row_text, work_text};

use arrayvec::ArrayVec;
use console_lines::{
    push, push_count, push_group, push_look, push_moment, push_name, push_number, push_phase,
};
use run_model::{GroupLook, Look, Moment, Name, TaskLook};

/// The greatest number of bytes in a row, including its LF.
pub const LONGEST_ROW: usize = 230;

/// One line of a printed state.
#[derive(Drop)]
pub enum Row {
    /// The number of events, and the clock: `events 6; clock 0`.
    Counts(u64, Moment),
    /// A scope: `scope 1 g live; deadline none`.
    Scope(u16, Look),
    /// A group: `group 0 g unfinished 2; limit 1; waited no; error none`.
    Group(u16, GroupLook),
    /// A task, with the name of its group: `task 0 g copy a running`.
    Task(u16, Name, TaskLook),
}

impl Row {
    /// Appends the row as it is printed, with its LF. It takes no memory.
    pub fn append<const N: usize>(&self, out: &mut ArrayVec<u8, N>)
        requires { array_vec_len out.old + LONGEST_ROW ≤ N }
        ensures { Appended out.old.items out.new.items (row_line self.now) LONGEST_ROW }
    {
        push_row(out, self);
        push(out, b"\n");
    }
}

/// Appends a row without its LF.
fn push_row<const N: usize>(out: &mut ArrayVec<u8, N>, row: &Row)
    requires { array_vec_len out.old + 229 ≤ N }
    ensures { Appended out.old.items out.new.items (row_text row.now) 229 }
{
    match row {
        Row::Counts(count, clock) => push_counts(out, *count, *clock),
        Row::Scope(scope, look) => {
            push_named(out, b"scope", *scope, &look.name);
            push_look(out, look);
        }
        Row::Group(group, look) => {
            push_named(out, b"group", *group, &look.name);
            push_group(out, look);
        }
        Row::Task(task, group, look) => {
            push_named(out, b"task", *task, group);
            push_work(out, look);
        }
    }
}

/// Appends the number of events, and the clock.
pub(crate) fn push_counts<const N: usize>(out: &mut ArrayVec<u8, N>, count: u64, clock: Moment)
    requires { array_vec_len out.old + 47 ≤ N }
    ensures { Appended out.old.items out.new.items
        (codes "events " ++ decimal count ++ (codes "; clock " ++ decimal clock)) 47 }
{
    push_number(out, b"events ", count);
    push_moment(out, b"; clock ", clock);
}

/// Appends a word, a number and a name, as in `scope 1 a `.
pub(crate) fn push_named<const N: usize>(
    out: &mut ArrayVec<u8, N>,
    word: &[u8],
    number: u16,
    name: &Name,
)
    requires word { length word.now ≤ 5 }
    requires room { array_vec_len out.old + 45 ≤ N }
    ensures { Appended out.old.items out.new.items (named word.now number name.now) 45 }
{
    push(out, word);
    push_count(out, b" ", number);
    push_name(out, b" ", name);
    push(out, b" ");
}

/// Appends the job and the argument of a task, and how far it has come.
fn push_work<const N: usize>(out: &mut ArrayVec<u8, N>, look: &TaskLook)
    requires { array_vec_len out.old + 166 ≤ N }
    ensures { Appended out.old.items out.new.items (work_text look.now) 166 }
{
    push_name(out, b"", &look.job);
    push_name(out, b" ", &look.argument);
    push(out, b" ");
    push_phase(out, &look.phase);
    push_retry(out, look.retry_of);
}

/// Appends the number of the task that this one retries, if it is a retry.
fn push_retry<const N: usize>(out: &mut ArrayVec<u8, N>, retry_of: Option<u16>)
    requires { array_vec_len out.old + 30 ≤ N }
    ensures { Appended out.old.items out.new.items (retry_text retry_of) 30 }
{
    if let Some(task) = retry_of {
        push_count(out, b" retry of ", task);
    }
}
