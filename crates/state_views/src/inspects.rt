//! A state as lines: all of its rows, or only its tasks.

ghost use Rattle.std.specs.Io.KnownBytes.{Appends};
ghost use Rattle.std.specs.Prelude.{◌≡◌, IfErr, OnErr, OnOk, option_map};
ghost use Rattle.state_views.specs.Inspected.{inspected};
ghost use Rattle.state_views.specs.Listed.{listed};
ghost use Rattle.console_lines.specs.Progress.{WritesPart};

use crate::forms::{Form, add_rows};
use crate::row_kinds::RowKind;
use crate::sheets::Sheet;
use console_lines::RunFault;
use run_session::State;
use std::alloc::Allocator;
use std::io::Write;

/// Prints a state: the number of events and the clock, and a line for each scope, group and task.
/// It takes no memory. If a write fails or takes nothing (`Output`), only a part of the text was
/// written, from its beginning.
pub fn inspect<W: Write, B: Allocator>(state: &State<B>, output: &mut W) -> Result<(), RunFault>
    ensures whole { OnOk result (Appends (W.contents output.old) (W.contents output.new)
        (inspected state.now)) }
    ensures cut { OnErr result (WritesPart (W.contents output.old) (W.contents output.new)
        (inspected state.now)) }
    ensures fault { IfErr result (λ fault. fault ≡ RunFault.Output) }
{
    let mut sheet = Sheet::new(Form::Line, state);
    add_rows(Form::Line, RowKind::Scopes, state, &mut sheet, output);
    add_rows(Form::Line, RowKind::Groups, state, &mut sheet, output);
    add_rows(Form::Line, RowKind::Tasks, state, &mut sheet, output);
    sheet.end(output)
}

/// Prints the tasks in `phase`, which is the keyword of a phase, and in the group named `group`,
/// with the same lines as [`inspect`](crate::inspect). `None` matches every task. It takes no
/// memory. If a write fails or takes nothing (`Output`), only a part of the text was written, from
/// its beginning.
pub fn list_tasks<W: Write, B: Allocator>(
    state: &State<B>,
    phase: Option<&str>,
    group: Option<&str>,
    output: &mut W,
) -> Result<(), RunFault>
    ensures whole { OnOk result (Appends (W.contents output.old) (W.contents output.new)
        (listed (option_map (λ word. word.now) phase.entry)
        (option_map (λ word. word.now) group.entry) state.now)) }
    ensures cut { OnErr result (WritesPart (W.contents output.old) (W.contents output.new)
        (listed (option_map (λ word. word.now) phase.entry)
        (option_map (λ word. word.now) group.entry) state.now)) }
    ensures fault { IfErr result (λ fault. fault ≡ RunFault.Output) }
{
    let form = Form::Listed(phase, group);
    let mut sheet = Sheet::new(form, state);
    add_rows(form, RowKind::Tasks, state, &mut sheet, output);
    sheet.end(output)
}
