//! A state as one object of JSON: an entry for the state itself, and one for each scope, group and
//! task.

ghost use Rattle.std.specs.Io.KnownBytes.{Appends};
ghost use Rattle.std.specs.Prelude.{◌≡◌, IfErr, OnErr, OnOk, option_map};
ghost use Rattle.state_views.specs.Entries.{json_text, task_entry, task_items};
ghost use Rattle.console_lines.specs.Progress.{WritesPart};
ghost use Rattle.state_views.specs.Sheets.{Adds};

use crate::forms::{Form, add_rows};
use crate::json_entries::Entry;
use crate::row_kinds::{RowKind, listed_task};
use crate::row_lines::Row;
use crate::sheets::Sheet;
use console_lines::RunFault;
use run_session::State;
use std::alloc::Allocator;
use std::io::Write;

/// Prints a state as one object of JSON: the number of events, the clock, the layout and its
/// limits, and lists of the scopes, the groups and the tasks. It lists the tasks in `phase`, which
/// is the keyword of a phase, and in the group named `group`; `None` matches every task. It takes
/// no memory. If a write fails or takes nothing (`Output`), only a part of the text was written,
/// from its beginning.
pub fn print_json<W: Write, B: Allocator>(
    state: &State<B>,
    phase: Option<&str>,
    group: Option<&str>,
    output: &mut W,
) -> Result<(), RunFault>
    ensures whole { OnOk result (Appends (W.contents output.old) (W.contents output.new)
        (json_text (option_map (λ word. word.now) phase.entry)
        (option_map (λ word. word.now) group.entry) state.now)) }
    ensures cut { OnErr result (WritesPart (W.contents output.old) (W.contents output.new)
        (json_text (option_map (λ word. word.now) phase.entry)
        (option_map (λ word. word.now) group.entry) state.now)) }
    ensures fault { IfErr result (λ fault. fault ≡ RunFault.Output) }
{
    let mut sheet = Sheet::new(Form::Entry, state);
    sheet.add(b",\n\"scopes\":[", output);
    add_rows(Form::Entry, RowKind::Scopes, state, &mut sheet, output);
    sheet.add(b"],\n\"groups\":[", output);
    add_rows(Form::Entry, RowKind::Groups, state, &mut sheet, output);
    sheet.add(b"],\n\"tasks\":[", output);
    add_tasks(state, phase, group, &mut sheet, output);
    sheet.add(b"]}\n", output);
    sheet.end(output)
}

/// Adds the entries of the tasks that are listed.
fn add_tasks<W: Write, B: Allocator>(
    state: &State<B>,
    phase: Option<&str>,
    group: Option<&str>,
    sheet: &mut Sheet,
    output: &mut W,
)
    ensures { Adds (task_items (option_map (λ word. word.now) phase.entry)
        (option_map (λ word. word.now) group.entry) state.now)
        sheet.old sheet.new (W.contents output.old) (W.contents output.new) }
{
    let mut place: u16 = 0;
    for number in 0..RowKind::Tasks.count(state) {
        if let Some(entry) = task_entry(number, state, phase, group) {
            sheet.make_room(output);
            entry.append_next(place == 0, &mut sheet.buffer);
            place += 1;
        }
    }
}

/// Returns the entry of the task with this number, if it is listed.
fn task_entry<B: Allocator>(
    number: u16,
    state: &State<B>,
    phase: Option<&str>,
    group: Option<&str>,
) -> Option<Entry>
    ensures { result ≡ task_entry (option_map (λ word. word.now) phase.entry)
        (option_map (λ word. word.now) group.entry) state.now number }
{
    match listed_task(number, state, phase, group)? {
        Row::Task(number, name, look) => Some(Entry::Task(number, name, look)),
        _ => None,
    }
}
