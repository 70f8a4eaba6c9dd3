//! A [`RowKind`] names the rows of a state: its scopes, its groups or its tasks.

ghost use Rattle.std.specs.Prelude.{◌≡◌, option_map, slice_get};
ghost use Rattle.state_views.specs.Entries.{listed_entry};
ghost use Rattle.state_views.specs.Inspected.{seen_line, task_row};
ghost use Rattle.state_views.specs.Listed.{listed_row};
ghost use Rattle.state_views.specs.Forms.{item_of, line_of};
ghost use Rattle.state_views.specs.RowKinds.{count_of};

use crate::json_entries::Entry;
use crate::row_lines::Row;
use run_model::Scope;
use run_session::State;
use std::alloc::Allocator;

/// The kind of rows in a state.
#[derive(Clone, Copy)]
pub enum RowKind {
    Scopes,
    Groups,
    Tasks,
}

impl RowKind {
    /// Returns the number of rows of this kind.
    pub(crate) fn count<B: Allocator>(self, state: &State<B>) -> u16
        ensures { result ≡ count_of self state.now }
    {
        match self {
            RowKind::Scopes => state.scope_count() as u16,
            RowKind::Groups => state.group_count() as u16,
            RowKind::Tasks => state.task_count() as u16,
        }
    }

    /// Returns the row with this number, to be printed as a line.
    pub(crate) fn seen<B: Allocator>(self, number: u16, state: &State<B>) -> Option<Row>
        ensures { seen_line result ≡ line_of self state.now number }
    {
        match self {
            RowKind::Scopes => Some(Row::Scope(number, state.look(number)?)),
            RowKind::Groups => Some(Row::Group(number, state.group(number)?)),
            RowKind::Tasks => task_row(number, state),
        }
    }

    /// Returns the row with this number as an entry of JSON. Tasks have none here, because they are
    /// listed separately.
    pub(crate) fn entry<B: Allocator>(self, number: u16, state: &State<B>) -> Option<Entry>
        ensures { listed_entry number result ≡ item_of self state.now number }
    {
        match self {
            RowKind::Scopes => {
                let row = scope_row(number, state)?;
                let look = state.look(number)?;
                Some(Entry::Scope(number, row.parent, row.kind.copy(), look))
            }
            RowKind::Groups => Some(Entry::Group(number, state.group(number)?)),
            RowKind::Tasks => None,
        }
    }
}

/// Returns the row of the scope with this number, lent until the state changes.
pub(crate) fn scope_row<B: Allocator>(number: u16, state: &State<B>) -> Option<&Scope>
    ensures { option_map (λ row. row.now) result ≡ slice_get state.now.tree.scopes number }
{
    state.scopes().get(number as usize)
}

/// Returns the row of the task with this number.
fn task_row<B: Allocator>(number: u16, state: &State<B>) -> Option<Row>
    ensures { result ≡ task_row state.now number }
{
    let look = state.task(number)?;
    let group = state.group(look.group)?;
    Some(Row::Task(number, group.name, look))
}

/// Returns the row of the task with this number, if it is in `phase`, which is the keyword of a
/// phase, and in the group named `group`; `None` matches every task.
pub(crate) fn listed_task<B: Allocator>(
    number: u16,
    state: &State<B>,
    phase: Option<&str>,
    group: Option<&str>,
) -> Option<Row>
    ensures { result ≡ listed_row (option_map (λ word. word.now) phase.entry)
        (option_map (λ word. word.now) group.entry) state.now number }
{
    let row = task_row(number, state)?;
    if !row.is_listed(phase, group) {
        return None;
    }
    Some(row)
}
