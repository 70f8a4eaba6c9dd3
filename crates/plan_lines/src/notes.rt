//! What a line says of a command, a group or a pool is noted among the facts.

ghost use Rattle.std.specs.Prelude.{true};
ghost use Rattle.plan_lines.specs.Facts.{ChangesAt, Notes, SetsAt, with_cancel, with_failure};
ghost use Rattle.plan_lines.specs.Facts.{with_phase};

use crate::lines::PlanLine;
use night_plan::facts::{Facts, Known, Phase};

/// Notes a fact, and returns whether there is anything that it is about.
pub fn note(facts: &mut Facts, line: PlanLine) -> bool
    ensures { Notes result line facts.old facts.new }
{
    match line {
        PlanLine::Size(pool, size) => note_size(&mut facts.sizes, pool, size),
        PlanLine::Done(group) => note_done(&mut facts.done, group),
        PlanLine::Cancel(command) => note_cancel(&mut facts.known, command),
        PlanLine::Stands(command, phase) => note_phase(&mut facts.known, command, phase),
        PlanLine::Failed(command, moment, failures) => {
            note_failure(&mut facts.known, command, moment, failures)
        }
        _ => false,
    }
}

/// Sets the size of a pool, if there is one of this number.
fn note_size(sizes: &mut Vec<u32>, pool: usize, size: u32) -> bool
    ensures { SetsAt result pool size sizes.old.items sizes.new.items }
{
    if pool >= sizes.len() {
        return false;
    }
    sizes[pool] = size;
    true
}

/// Notes that a group is done, if there is one of this number.
fn note_done(done: &mut Vec<bool>, group: usize) -> bool
    ensures { SetsAt result group true done.old.items done.new.items }
{
    if group >= done.len() {
        return false;
    }
    done[group] = true;
    true
}

/// Notes that a command was canceled, if there is one of this number.
fn note_cancel(known: &mut Vec<Known>, command: usize) -> bool
    ensures { ChangesAt result command with_cancel known.old.items known.new.items }
{
    if command >= known.len() {
        return false;
    }
    let before = known[command];
    known[command] = Known {
        phase: before.phase,
        failures: before.failures,
        canceled: true,
    };
    true
}

/// Notes how far a command is, if there is one of this number.
fn note_phase(known: &mut Vec<Known>, command: usize, phase: Phase) -> bool
    ensures { ChangesAt result command (with_phase phase) known.old.items known.new.items }
{
    if command >= known.len() {
        return false;
    }
    let before = known[command];
    known[command] = Known {
        phase,
        failures: before.failures,
        canceled: before.canceled,
    };
    true
}

/// Notes the failure of a command, if there is one of this number.
fn note_failure(known: &mut Vec<Known>, command: usize, moment: u64, failures: u32) -> bool
    ensures { ChangesAt result command (with_failure moment failures) known.old.items
        known.new.items }
{
    if command >= known.len() {
        return false;
    }
    let before = known[command];
    known[command] = Known {
        phase: Phase::Failed(moment),
        failures,
        canceled: before.canceled,
    };
    true
}
