//! A state as a tree.

ghost use Rattle.std.specs.Io.KnownBytes.{Appends};
ghost use Rattle.std.specs.List.{flat_map};
ghost use Rattle.std.specs.Prelude.{◌≡◌, ◌+◌, ◌≤◌, ◌++◌, [], IfErr, OnErr, OnOk, length, slice_get};
ghost use Rattle.arrayvec.specs.ArrayVec.{array_vec_len};
ghost use Rattle.state_views.specs.declared.json_entries.TheConstants.{LONGEST_ENTRY};
ghost use Rattle.state_views.specs.declared.tree_walks.TheConstants.{MOST_NODES};
ghost use Rattle.state_views.specs.Branches.{group_counted, node_line, nodes_of, own_line};
ghost use Rattle.state_views.specs.Branches.{tree_text};
ghost use Rattle.console_lines.specs.Progress.{WritesPart};
ghost use Rattle.state_views.specs.Trees.{drawn, tree_scope};
ghost use Rattle.state_views.specs.Walks.{IsAt};
ghost use Rattle.state_views.specs.RowKinds.{count_of, parents_in};
ghost use Rattle.state_views.specs.Sheets.{Adds};

use crate::forms::{Form, append_one};
use crate::row_kinds::{RowKind, scope_row};
use crate::sheets::Sheet;
use crate::summaries::phases_of;
use crate::summary_lines::append_tree_group;
use crate::tree_lines::append_tree_scope;
use crate::tree_walks::{Above, MOST_NODES, mark, next_node};
use arrayvec::ArrayVec;
use console_lines::{OutputBuffer, RunFault};
use run_session::State;
use std::alloc::Allocator;
use std::io::Write;

/// The parent of each node.
type Parents = ArrayVec<u16, MOST_NODES>;

/// Prints a state as a tree: the number of events, the clock and how full the store is, and a line
/// for each scope, group and task below the line of its parent. With `no_tasks` no task has a line,
/// and the line of a group says how many of its tasks are in each phase. It takes no memory. If a
/// write fails or takes nothing (`Output`), only a part of the text was written, from its
/// beginning.
pub fn print_tree<W: Write, B: Allocator>(
    state: &State<B>,
    no_tasks: bool,
    output: &mut W,
) -> Result<(), RunFault>
    ensures whole { OnOk result (Appends (W.contents output.old) (W.contents output.new)
        (tree_text no_tasks state.now)) }
    ensures cut { OnErr result (WritesPart (W.contents output.old) (W.contents output.new)
        (tree_text no_tasks state.now)) }
    ensures fault { IfErr result (λ fault. fault ≡ RunFault.Output) }
{
    let mut sheet = Sheet::new(Form::Branch, state);
    add_nodes(no_tasks, state, &mut sheet, output);
    sheet.end(output)
}

/// Adds the lines of all nodes, one after another.
fn add_nodes<W: Write, B: Allocator>(
    no_tasks: bool,
    state: &State<B>,
    sheet: &mut Sheet,
    output: &mut W,
)
    ensures { Adds (flat_map (node_line no_tasks state.now) (drawn (nodes_of no_tasks state.now)))
        sheet.old sheet.new (W.contents output.old) (W.contents output.new) }
{
    let _rules = state.count();
    let mut parents = Parents::new();
    push_parents(no_tasks, state, &mut parents);
    let parents = parents.as_slice();
    let mut above = Above::new();
    let mut next = Some(0);
    while let Some(node) = next {
        let lead = above.as_slice();
        add_node(no_tasks, node, parents, lead, state, sheet, output);
        next = next_node(parents, node, &mut above);
    }
}

/// Adds a node's line: its branches, its mark and its text.
fn add_node<W: Write, B: Allocator>(
    no_tasks: bool,
    node: u16,
    parents: &[u16],
    above: &[u8],
    state: &State<B>,
    sheet: &mut Sheet,
    output: &mut W,
)
    requires parents { parents.now ≡ nodes_of no_tasks state.now }
    requires few { length parents.now ≤ MOST_NODES }
    requires at { IsAt parents.now node above.now }
    ensures { Adds (node_line no_tasks state.now node) sheet.old sheet.new
        (W.contents output.old) (W.contents output.new) }
{
    if node == 0 {
        sheet.make_room(output);
        append_own(no_tasks, node, state, &mut sheet.buffer);
        return;
    }
    sheet.add(above, output);
    sheet.add(mark(parents, node), output);
    sheet.make_room(output);
    append_own(no_tasks, node, state, &mut sheet.buffer);
}

/// Appends the text of a node's line.
fn append_own<B: Allocator>(no_tasks: bool, node: u16, state: &State<B>, buffer: &mut OutputBuffer)
    requires { array_vec_len buffer.old + LONGEST_ENTRY ≤ 8192 }
    ensures { buffer.new.items ≡ buffer.old.items ++ own_line no_tasks state.now node }
{
    let scopes = RowKind::Scopes.count(state);
    let groups = RowKind::Groups.count(state);
    if node < scopes {
        append_one(Form::Branch, RowKind::Scopes, node, state, buffer);
    } else if no_tasks {
        append_one(Form::Branch, RowKind::Groups, node - scopes, state, buffer);
    } else if node - scopes < groups {
        append_one(Form::Line, RowKind::Groups, node - scopes, state, buffer);
    } else {
        let number = node - scopes - groups;
        append_one(Form::Line, RowKind::Tasks, number, state, buffer);
    }
}

/// Appends the line of a scope.
pub(crate) fn append_branch<B: Allocator>(number: u16, state: &State<B>, buffer: &mut OutputBuffer)
    requires { array_vec_len buffer.old + LONGEST_ENTRY ≤ 8192 }
    ensures { buffer.new.items ≡ buffer.old.items ++ tree_scope state.now number }
{
    if let Some(row) = scope_row(number, state) {
        if let Some(look) = state.look(number) {
            append_tree_scope(number, &row.kind, &look, buffer);
        }
    }
}

/// Appends the line of a group with its tasks by phase.
pub(crate) fn append_counted<B: Allocator>(number: u16, state: &State<B>, buffer: &mut OutputBuffer)
    requires { array_vec_len buffer.old + LONGEST_ENTRY ≤ 8192 }
    ensures { buffer.new.items ≡ buffer.old.items ++ group_counted state.now number }
{
    if let Some(group) = state.group(number) {
        let phases = phases_of(number, state);
        append_tree_group(number, &group, &phases, buffer);
    }
}

/// Appends the parent of each node.
fn push_parents<B: Allocator>(no_tasks: bool, state: &State<B>, parents: &mut Parents)
    requires { parents.old.items ≡ [] }
    ensures { parents.new.items ≡ nodes_of no_tasks state.now }
{
    let _rules = state.count();
    push_rows(RowKind::Scopes, state, parents);
    push_rows(RowKind::Groups, state, parents);
    if no_tasks {
        return;
    }
    push_rows(RowKind::Tasks, state, parents);
}

/// Appends the parent of each of these rows.
fn push_rows<B: Allocator>(rows: RowKind, state: &State<B>, parents: &mut Parents)
    requires { array_vec_len parents.old + count_of rows state.now ≤ MOST_NODES }
    ensures { parents.new.items ≡ parents.old.items ++ parents_in rows state.now }
{
    for number in 0..rows.count(state) {
        if let Some(parent) = rows.parent(number, state) {
            parents.push(parent);
        }
    }
}

impl RowKind {
    /// Returns the node that is the parent of the row with this number: the scope from which a
    /// scope was derived, the scope of a group, or the group of a task.
    fn parent<B: Allocator>(self, number: u16, state: &State<B>) -> Option<u16>
        ensures { result ≡ slice_get (parents_in self state.now) number }
    {
        let _rules = state.count();
        match self {
            RowKind::Scopes => Some(scope_row(number, state)?.parent),
            RowKind::Groups => Some(state.group(number)?.scope),
            RowKind::Tasks => Some(RowKind::Scopes.count(state) + state.task(number)?.group),
        }
    }
}
