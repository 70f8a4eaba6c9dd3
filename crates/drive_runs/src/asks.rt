//! The executor asks with which errors commands have failed. The rows of the book answer.

ghost use Rattle.std.specs.List.{filter_map};
ghost use Rattle.std.specs.Prelude.{◌≡◌, IfOk};
ghost use Rattle.drive_runs.specs.Asks.{error_line, error_lines, error_of, first_line, first_of};
ghost use Rattle.drive_runs.specs.Asks.{questions_of};

use crate::sittings::Sitting;
use drive_lines::orders::Order;
use drive_parts::heard::Heard;
use drive_steps::errors::{first_error, last_error};
use run_model::Text;
use run_session::State;
use std::alloc::{AllocError, Allocator, Global};

/// Returns the lines that answer the questions of a round about errors: those of commands, and then
/// those of groups, each kind in the order in which the executor asked.
pub fn error_lines<A: Allocator>(
    alloc: Global,
    state: &State<A>,
    sitting: &Sitting,
    heard: &Heard,
) -> Result<Vec<Order>, AllocError>
    ensures { IfOk result (λ lines. lines.items
        ≡ error_lines state.now sitting.now.plan sitting.now.names (questions_of heard.now)) }
{
    let mut lines = errors_in(alloc, state, sitting, heard.asks.as_slice())?;
    let mut firsts = firsts_in(alloc, state, sitting, heard.firsts.as_slice())?;
    lines.append(&mut firsts)?;
    Ok(lines)
}

/// Returns a line with the error of each of these commands whose last try has failed.
#[tactic(auto, using(crate::proofs::Recording::some_more, crate::proofs::Recording::none_more))]
fn errors_in<A: Allocator>(
    alloc: Global,
    state: &State<A>,
    sitting: &Sitting,
    asks: &[usize],
) -> Result<Vec<Order>, AllocError>
    ensures { IfOk result (λ lines. lines.items
        ≡ filter_map (error_line state.now sitting.now.plan sitting.now.names) asks.now) }
{
    let mut lines = Vec::new(alloc);
    for command in asks {
        if let Some(line) = error_line(state, sitting, *command) {
            lines.push(line)?;
        }
    }
    Ok(lines)
}

/// Returns a line with the first error of each of these groups that has one.
#[tactic(auto, using(crate::proofs::Recording::some_more, crate::proofs::Recording::none_more))]
fn firsts_in<A: Allocator>(
    alloc: Global,
    state: &State<A>,
    sitting: &Sitting,
    firsts: &[usize],
) -> Result<Vec<Order>, AllocError>
    ensures { IfOk result (λ lines. lines.items
        ≡ filter_map (first_line state.now sitting.now.names) firsts.now) }
{
    let mut lines = Vec::new(alloc);
    for group in firsts {
        if let Some(line) = first_line(state, sitting, *group) {
            lines.push(line)?;
        }
    }
    Ok(lines)
}

/// Returns the line with the error of a command, if its last try has failed.
fn error_line<A: Allocator>(state: &State<A>, sitting: &Sitting, c: usize) -> Option<Order>
    ensures { result ≡ error_line state.now sitting.now.plan sitting.now.names c }
{
    Some(Order::Error(c as u64, error_of(state, sitting, c)?))
}

/// Returns the error of a command, if its last try has failed.
fn error_of<A: Allocator>(state: &State<A>, sitting: &Sitting, c: usize) -> Option<Text>
    ensures { result ≡ error_of state.now sitting.now.plan sitting.now.names c }
{
    let command = sitting.plan.commands.get(c)?;
    let group = sitting.names.groups.get(command.group)?;
    let key = sitting.names.keys.get(c)?;
    last_error(state, &sitting.names.night, group, key)
}

/// Returns the line with the first error of a group, if it has one.
fn first_line<A: Allocator>(state: &State<A>, sitting: &Sitting, g: usize) -> Option<Order>
    ensures { result ≡ first_line state.now sitting.now.names g }
{
    Some(Order::First(g as u64, first_of(state, sitting, g)?))
}

/// Returns the first error of a group, if it has one.
fn first_of<A: Allocator>(state: &State<A>, sitting: &Sitting, g: usize) -> Option<Text>
    ensures { result ≡ first_of state.now sitting.now.names g }
{
    let group = sitting.names.groups.get(g)?;
    first_error(state, &sitting.names.night, group)
}
