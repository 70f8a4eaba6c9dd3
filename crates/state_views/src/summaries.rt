//! A state as a summary.

ghost use Rattle.std.specs.Io.KnownBytes.{Appends};
ghost use Rattle.std.specs.Option.{option_map_or};
ghost use Rattle.std.specs.Prelude.{◌≡◌, ◌+◌, ◌≤◌, ◌++◌, false, IfErr, OnErr, OnOk};
ghost use Rattle.arrayvec.specs.ArrayVec.{array_vec_len};
ghost use Rattle.run_model.specs.Questions.{task_look_of};
ghost use Rattle.state_views.specs.declared.json_entries.TheConstants.{LONGEST_ENTRY};
ghost use Rattle.console_lines.specs.Progress.{WritesPart};
ghost use Rattle.state_views.specs.Summaries.{group_summed, is_in_phase, phases_of, scope_summed};
ghost use Rattle.state_views.specs.Summaries.{summary_text, tasks_in};

use crate::forms::{Form, add_rows};
use crate::row_kinds::{RowKind, scope_row};
use crate::sheets::Sheet;
use crate::summary_lines::{Phases, append_group_summary, append_scope_summary, is_in_phase};
use console_lines::{OutputBuffer, RunFault};
use run_session::State;
use std::alloc::Allocator;
use std::io::Write;

/// Prints a summary of a state: the number of events, the clock and how full the store is; a line
/// for each group, with its tasks by phase and its scope; and a line for each other scope that is
/// done. It takes no memory. If a write fails or takes nothing (`Output`), only a part of the text
/// was written, from its beginning.
pub fn print_summary<W: Write, B: Allocator>(
    state: &State<B>,
    output: &mut W,
) -> Result<(), RunFault>
    ensures whole { OnOk result (Appends (W.contents output.old) (W.contents output.new)
        (summary_text state.now)) }
    ensures cut { OnErr result (WritesPart (W.contents output.old) (W.contents output.new)
        (summary_text state.now)) }
    ensures fault { IfErr result (λ fault. fault ≡ RunFault.Output) }
{
    let mut sheet = Sheet::new(Form::Sum, state);
    add_rows(Form::Sum, RowKind::Groups, state, &mut sheet, output);
    add_rows(Form::Sum, RowKind::Scopes, state, &mut sheet, output);
    sheet.end(output)
}

/// Appends the line of a scope, if it has one.
pub(crate) fn append_scope_sum<B: Allocator>(
    number: u16,
    state: &State<B>,
    buffer: &mut OutputBuffer,
)
    requires { array_vec_len buffer.old + LONGEST_ENTRY ≤ 8192 }
    ensures { buffer.new.items ≡ buffer.old.items ++ scope_summed state.now number }
{
    if let Some(row) = scope_row(number, state) {
        if let Some(look) = state.look(number) {
            append_scope_summary(number, &row.kind, &look, buffer);
        }
    }
}

/// Appends the line of a group.
pub(crate) fn append_group_sum<B: Allocator>(
    number: u16,
    state: &State<B>,
    buffer: &mut OutputBuffer,
)
    requires { array_vec_len buffer.old + LONGEST_ENTRY ≤ 8192 }
    ensures { buffer.new.items ≡ buffer.old.items ++ group_summed state.now number }
{
    if let Some(group) = state.group(number) {
        if let Some(scope) = state.look(group.scope) {
            let phases = phases_of(number, state);
            append_group_summary(number, &group, &phases, &scope, buffer);
        }
    }
}

/// Returns how many tasks of a group are in each phase.
pub(crate) fn phases_of<B: Allocator>(group: u16, state: &State<B>) -> Phases
    ensures { result ≡ phases_of state.now group }
{
    Phases {
        held: tasks_in(group, "held", state),
        ready: tasks_in(group, "ready", state),
        running: tasks_in(group, "running", state),
        success: tasks_in(group, "success", state),
        error: tasks_in(group, "error", state),
        interrupted: tasks_in(group, "interrupted", state),
    }
}

/// Returns how many tasks of a group are in the phase with this keyword.
fn tasks_in<B: Allocator>(group: u16, word: &str, state: &State<B>) -> u16
    ensures { result ≡ tasks_in state.now group word.now }
{
    let mut count = 0;
    for number in 0..RowKind::Tasks.count(state) {
        if is_task_in(number, group, word, state) {
            count += 1;
        }
    }
    count
}

/// Returns whether the task with this number is in a group, and in the phase with this keyword.
fn is_task_in<B: Allocator>(number: u16, group: u16, word: &str, state: &State<B>) -> bool
    ensures { result ≡ option_map_or (is_in_phase group word.now)
        (task_look_of state.now number) false }
{
    match state.task(number) {
        Some(look) => is_in_phase(group, word, &look),
        None => false,
    }
}
