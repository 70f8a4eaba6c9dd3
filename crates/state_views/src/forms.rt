//! The [`Form`]s in which the rows of a state are printed, and the text that precedes the rows.

ghost use Rattle.std.specs.Prelude.{◌≡◌, ◌+◌, ◌≤◌, ◌++◌};
ghost use Rattle.arrayvec.specs.ArrayVec.{array_vec_len};
ghost use Rattle.state_views.specs.declared.json_entries.TheConstants.{LONGEST_ENTRY};
ghost use Rattle.state_views.specs.Inspected.{seen_line};
ghost use Rattle.state_views.specs.Trees.{head_line, taken_of};
ghost use Rattle.state_views.specs.Forms.{first_of, text_of, texts_of};
ghost use Rattle.state_views.specs.Sheets.{Adds};

use crate::json_entries::Entry;
use crate::row_kinds::{RowKind, listed_task};
use crate::row_lines::Row;
use crate::sheets::Sheet;
use crate::summaries::{append_group_sum, append_scope_sum};
use crate::tree_lines::{Taken, append_tree_head};
use crate::trees::{append_branch, append_counted};
use console_lines::OutputBuffer;
use run_session::State;
use std::alloc::Allocator;
use std::io::Write;

/// How rows are printed.
#[derive(Clone, Copy)]
pub enum Form<'a> {
    /// Each row as a line.
    Line,
    /// A line for each task in this phase and in the group with this name; `None` matches all.
    Listed(Option<&'a str>, Option<&'a str>),
    /// Each scope and group as an entry of a list in JSON. Tasks are listed separately.
    Entry,
    /// The lines of a summary.
    Sum,
    /// Each scope as a line of a tree, and each group with its tasks counted by phase.
    Branch,
}

/// Appends the text that precedes the rows.
pub(crate) fn append_first<B: Allocator>(
    form: Form<'_>,
    state: &State<B>,
    buffer: &mut OutputBuffer,
)
    requires { array_vec_len buffer.old + LONGEST_ENTRY ≤ 8192 }
    ensures { buffer.new.items ≡ buffer.old.items ++ first_of form.entry state.now }
{
    match form {
        Form::Line => Row::Counts(state.count(), state.clock()).append(buffer),
        Form::Listed(_, _) => {}
        Form::Entry => { Entry::Store(state.count(), state.clock(), state.layout()).append(buffer) }
        Form::Sum => append_head(state, buffer),
        Form::Branch => append_head(state, buffer),
    }
}

/// Appends the first line of a tree and of a summary.
fn append_head<B: Allocator>(state: &State<B>, buffer: &mut OutputBuffer)
    requires { array_vec_len buffer.old + LONGEST_ENTRY ≤ 8192 }
    ensures { buffer.new.items ≡ buffer.old.items
        ++ head_line state.now.count state.now.tree.clock state.now.tree.layout
        (taken_of state.now) }
{
    let taken = Taken {
        scopes: state.scope_count(),
        groups: state.group_count(),
        tasks: state.task_count(),
    };
    let layout = state.layout();
    append_tree_head(state.count(), state.clock(), layout, &taken, buffer);
}

/// Adds these rows of a state.
pub(crate) fn add_rows<W: Write, B: Allocator>(
    form: Form<'_>,
    rows: RowKind,
    state: &State<B>,
    sheet: &mut Sheet,
    output: &mut W,
)
    ensures { Adds (texts_of form.entry rows state.now) sheet.old sheet.new
        (W.contents output.old) (W.contents output.new) }
{
    for number in 0..rows.count(state) {
        sheet.make_room(output);
        append_one(form, rows, number, state, &mut sheet.buffer);
    }
}

/// Appends the row with this number, if there is one.
pub(crate) fn append_one<B: Allocator>(
    form: Form<'_>,
    rows: RowKind,
    number: u16,
    state: &State<B>,
    buffer: &mut OutputBuffer,
)
    requires { array_vec_len buffer.old + LONGEST_ENTRY ≤ 8192 }
    ensures { buffer.new.items
        ≡ buffer.old.items ++ text_of form.entry rows state.now number }
{
    match form {
        Form::Line => append_row(rows.seen(number, state), buffer),
        Form::Listed(phase, group) => {
            append_row(listed_task(number, state, phase, group), buffer)
        }
        Form::Entry => {
            if let Some(entry) = rows.entry(number, state) {
                entry.append_next(number == 0, buffer);
            }
        }
        Form::Sum => match rows {
            RowKind::Scopes => append_scope_sum(number, state, buffer),
            RowKind::Groups => append_group_sum(number, state, buffer),
            RowKind::Tasks => {}
        },
        Form::Branch => match rows {
            RowKind::Scopes => append_branch(number, state, buffer),
            RowKind::Groups => append_counted(number, state, buffer),
            RowKind::Tasks => {}
        },
    }
}

/// Appends a row, if there is one.
fn append_row(row: Option<Row>, buffer: &mut OutputBuffer)
    requires { array_vec_len buffer.old + LONGEST_ENTRY ≤ 8192 }
    ensures { buffer.new.items ≡ buffer.old.items ++ seen_line row }
{
    if let Some(row) = row {
        row.append(buffer);
    }
}
