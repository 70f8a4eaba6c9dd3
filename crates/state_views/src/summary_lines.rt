//! The lines of a summary: a group with its tasks by phase and its scope, and a scope that is done.
//! Also the line of a group in a tree without tasks.

ghost use Rattle.std.specs.Prelude.{◌≡◌, ◌+◌, ◌≤◌};
ghost use Rattle.arrayvec.specs.ArrayVec.{array_vec_len};
ghost use Rattle.state_views.specs.declared.summary_lines.TheConstants.{LONGEST_SUMMARY};
ghost use Rattle.state_views.specs.Branches.{tree_group};
ghost use Rattle.console_lines.specs.Appended.{Appended};
ghost use Rattle.state_views.specs.Summaries.{counted_group, dated_text, group_summary};
ghost use Rattle.state_views.specs.Summaries.{is_in_phase, is_summed, phases_text};
ghost use Rattle.state_views.specs.Summaries.{scope_summary, state_text};

use crate::row_lines::push_named;
use crate::tree_lines::append_tree_scope;
use arrayvec::ArrayVec;
use console_lines::{
    moment_text, phase_word, push, push_after, push_count, push_ending, push_group, push_moment,
};
use run_model::{GroupLook, Kind, Look, Moment, TaskLook};

/// The greatest number of bytes in a line of a summary, including its LF.
pub const LONGEST_SUMMARY: usize = 444;

/// How many tasks of a group are in each phase.
#[derive(Clone, Copy)]
pub struct Phases {
    pub held: u16,
    pub ready: u16,
    pub running: u16,
    pub success: u16,
    pub error: u16,
    pub interrupted: u16,
}

/// Returns whether a task is in this group, and in the phase with this keyword.
pub fn is_in_phase(group: u16, word: &str, look: &TaskLook) -> bool
    ensures { result ≡ is_in_phase group word.now look.now }
{
    look.group == group && phase_word(&look.phase) == word
}

/// Appends the line of a group: `group 0 g unfinished 2; limit 1; waited no; error none; tasks held
/// 1, ready 0, running 1, success 0, error 0, interrupted 0; scope 1 live; deadline none`.
pub fn append_group_summary<const N: usize>(
    number: u16,
    group: &GroupLook,
    phases: &Phases,
    scope: &Look,
    out: &mut ArrayVec<u8, N>,
)
    requires { array_vec_len out.old + LONGEST_SUMMARY ≤ N }
    ensures { Appended out.old.items out.new.items
        (group_summary number group.now phases.now scope.now) LONGEST_SUMMARY }
{
    push_counted_group(out, number, group, phases);
    push_count(out, b"; scope ", group.scope);
    push(out, b" ");
    push_state(out, scope);
    push(out, b"\n");
}

/// Appends the line of a group in a tree without tasks. It is like that of a summary, but without
/// the scope.
pub fn append_tree_group<const N: usize>(
    number: u16,
    group: &GroupLook,
    phases: &Phases,
    out: &mut ArrayVec<u8, N>,
)
    requires { array_vec_len out.old + LONGEST_SUMMARY ≤ N }
    ensures { Appended out.old.items out.new.items (tree_group number group.now phases.now)
        LONGEST_SUMMARY }
{
    push_counted_group(out, number, group, phases);
    push(out, b"\n");
}

/// Appends a group, and how many of its tasks are in each phase.
fn push_counted_group<const N: usize>(
    out: &mut ArrayVec<u8, N>,
    number: u16,
    group: &GroupLook,
    phases: &Phases,
)
    requires { array_vec_len out.old + 251 ≤ N }
    ensures { Appended out.old.items out.new.items
        (counted_group number group.now phases.now) 251 }
{
    push_named(out, b"group", number, &group.name);
    push_group(out, group);
    push_phases(out, phases);
}

/// Appends the line of a scope, if the scope is done and doesn't belong to a group.
pub fn append_scope_summary<const N: usize>(
    number: u16,
    kind: &Kind,
    look: &Look,
    out: &mut ArrayVec<u8, N>,
)
    requires { array_vec_len out.old + LONGEST_SUMMARY ≤ N }
    ensures { Appended out.old.items out.new.items (scope_summary number kind.now look.now)
        LONGEST_SUMMARY }
{
    if is_summed(kind, look) {
        append_tree_scope(number, kind, look, out);
    }
}

/// Returns whether a scope has a line.
fn is_summed(kind: &Kind, look: &Look) -> bool
    ensures { result ≡ is_summed kind.now look.now }
{
    match kind {
        Kind::Group => false,
        _ => look.done.is_some(),
    }
}

/// Appends how many tasks are in each phase.
fn push_phases<const N: usize>(out: &mut ArrayVec<u8, N>, phases: &Phases)
    requires { array_vec_len out.old + 93 ≤ N }
    ensures { Appended out.old.items out.new.items (phases_text phases.now) 93 }
{
    push_count(out, b"; tasks held ", phases.held);
    push_count(out, b", ready ", phases.ready);
    push_count(out, b", running ", phases.running);
    push_count(out, b", success ", phases.success);
    push_count(out, b", error ", phases.error);
    push_count(out, b", interrupted ", phases.interrupted);
}

/// Appends the state of a scope.
fn push_state<const N: usize>(out: &mut ArrayVec<u8, N>, look: &Look)
    requires { array_vec_len out.old + 151 ≤ N }
    ensures { Appended out.old.items out.new.items (state_text look.now) 151 }
{
    match &look.done {
        None => {
            push(out, b"live; deadline ");
            push_dated(out, look.deadline);
        }
        Some(ending) => {
            push(out, b"done; deadline ");
            push_dated(out, look.deadline);
            push_ending(out, ending.0, ending.1.as_bytes());
        }
    }
}

/// Appends a deadline in seconds, and its date and time, or `none`.
fn push_dated<const N: usize>(out: &mut ArrayVec<u8, N>, deadline: Option<Moment>)
    requires { array_vec_len out.old + 33 ≤ N }
    ensures { Appended out.old.items out.new.items (dated_text deadline) 33 }
{
    match deadline {
        Some(moment) => {
            push_moment(out, b"", moment);
            let text = moment_text(moment);
            push_after(out, b" ", text.as_str().as_bytes());
        }
        None => push(out, b"none"),
    }
}
