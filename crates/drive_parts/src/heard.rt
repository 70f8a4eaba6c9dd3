//! What the executor reported in a round, besides how the plan grows.

ghost use Rattle.std.specs.Prelude.{◌≡◌, ◌<◌, ◌≤◌, ◌==◌, [], IfOk, List, MatchOption, ℕ};
ghost use Rattle.std.specs.List.{list_any};
ghost use Rattle.drive_lines.specs.declared.reports.Report.{Report as ReportOf};
ghost use Rattle.drive_lines.specs.declared.reports.Report.TheVariants as report;
ghost use Rattle.drive_parts.specs.Heard.{AreHeard, HearsLine, Reads, ReadsTask, line_of};
ghost use Rattle.drive_parts.specs.Heard.{names_task};

use drive_lines::reports::Report;
use drive_steps::cancels::{CommandCancel, GroupCancel};
use drive_steps::heard::{Ended, has_ended};
use plan_lines::lines::PlanLine;
use run_model::Moment;
use std::alloc::{AllocError, Global};

/// A size that a pool has from now on.
#[derive(Clone, Copy)]
pub struct PoolSize {
    pub pool: usize,
    pub size: u32,
}

/// What was reported, each kind in the order of its lines.
#[derive(Drop)]
pub struct Heard {
    pub ends: Vec<Ended>,
    /// The tasks of the tries that are over, and of which nobody knows how they ended.
    pub gone: Vec<u16>,
    pub cancels: Vec<CommandCancel>,
    pub done: Vec<GroupCancel>,
    /// The time that was reported last.
    pub time: Option<Moment>,
    pub sizes: Vec<PoolSize>,
    /// Whether no retry waits for its time any longer.
    pub hurry: bool,
    /// Whether the executor asked how each command stands.
    pub asked: bool,
    /// The commands of which the executor asked for the last error.
    pub asks: Vec<usize>,
    /// The groups of which it asked for the first error.
    pub firsts: Vec<usize>,
}

/// What a line reports.
#[derive(Drop)]
pub enum Fact {
    End(Ended),
    Gone(u16),
    Cancel(CommandCancel),
    Done(GroupCancel),
    Now(Moment),
    Size(PoolSize),
    Question,
    Hurry,
    Ask(usize),
    First(usize),
}

impl Heard {
    /// Nothing.
    pub fn new(alloc: Global) -> Heard
        ensures { AreHeard [] result }
    {
        Heard {
            ends: Vec::new(alloc),
            gone: Vec::new(alloc),
            cancels: Vec::new(alloc),
            done: Vec::new(alloc),
            time: None,
            sizes: Vec::new(alloc),
            hurry: false,
            asked: false,
            asks: Vec::new(alloc),
            firsts: Vec::new(alloc),
        }
    }
}

/// Notes a fact. If memory is refused, it may be noted or not.
pub(crate) fn note(heard: &mut Heard, fact: Fact) -> Result<(), AllocError>
    ensures { IfOk result (λ _. HearsLine (line_of fact) heard.old heard.new) }
{
    match fact {
        Fact::End(end) => heard.ends.push(end)?,
        Fact::Gone(task) => heard.gone.push(task)?,
        Fact::Cancel(cancel) => heard.cancels.push(cancel)?,
        Fact::Done(cancel) => heard.done.push(cancel)?,
        Fact::Now(moment) => heard.time = Some(moment),
        Fact::Size(size) => heard.sizes.push(size)?,
        Fact::Question => heard.asked = true,
        Fact::Hurry => heard.hurry = true,
        Fact::Ask(command) => heard.asks.push(command)?,
        Fact::First(group) => heard.firsts.push(group)?,
    }
    Ok(())
}

/// How many groups, commands and pools there are.
#[derive(Clone, Copy)]
pub struct Counts {
    pub groups: usize,
    pub commands: usize,
    pub pools: usize,
}

/// Returns what a line reports, or `None` if it is no such line, or if it names nothing that there
/// is.
pub(crate) fn fact_of(counts: Counts, living: &[u16], heard: &Heard, report: Report) -> Option<Fact>
    ensures { (reports : List ReportOf) → AreHeard reports heard.now
        → Reads counts living.now reports report result }
{
    match report {
        Report::Plan(line) => plan_fact(counts, line),
        Report::Ended(task, outcome) => Some(Fact::End(Ended {
            task: over(living, heard, task)?,
            outcome,
        })),
        Report::Gone(task) => Some(Fact::Gone(over(living, heard, task)?)),
        Report::Cancel(command, why) => Some(Fact::Cancel(CommandCancel {
            command: within(command, counts.commands)?,
            why,
        })),
        Report::Done(group, why) => Some(Fact::Done(GroupCancel {
            group: within(group, counts.groups)?,
            why,
        })),
        Report::Hurry => Some(Fact::Hurry),
        Report::Ask(command) => Some(Fact::Ask(within(command, counts.commands)?)),
        Report::First(group) => Some(Fact::First(within(group, counts.groups)?)),
        _ => None,
    }
}

/// The fact of a line that is spelled as in a plan.
fn plan_fact(counts: Counts, line: PlanLine) -> Option<Fact>
    ensures { (living : List ℕ) (reports : List ReportOf)
        → Reads counts living reports (report.Plan line) result }
{
    match line {
        PlanLine::Now(moment) => Some(Fact::Now(Moment::new(moment)?)),
        PlanLine::Size(pool, size) => {
            if pool < counts.pools {
                Some(Fact::Size(PoolSize { pool, size }))
            } else {
                None
            }
        }
        PlanLine::Standings => Some(Fact::Question),
        _ => None,
    }
}

/// Returns a number, if it is less than this one.
fn within(number: u64, end: usize) -> Option<usize>
    ensures { MatchOption result (end ≤ number) (λ n. (n ≡ number) × (number < end)) }
{
    if number < end as u64 {
        Some(number as usize)
    } else {
        None
    }
}

/// Returns the task of a try that is over, if it is one of those that live, and if it wasn't named
/// before.
fn over(living: &[u16], heard: &Heard, task: u64) -> Option<u16>
    ensures { (reports : List ReportOf) → AreHeard reports heard.now
        → ReadsTask living.now reports task result }
{
    let task = short(task)?;
    if !is_in(living, task) {
        return None;
    }
    if is_named(heard, task) {
        return None;
    }
    Some(task)
}

/// Returns whether a line named this task.
fn is_named(heard: &Heard, task: u16) -> bool
    ensures { result ≡ names_task heard.now task }
{
    has_ended(&heard.ends, task) || is_in(&heard.gone, task)
}

/// Returns whether one of these tasks is this one.
fn is_in(tasks: &[u16], task: u16) -> bool
    ensures { result ≡ list_any (λ (other : ℕ). other == task) tasks.now }
{
    tasks.iter().any(|other| *other == task)
}

/// Returns the number of a task, if a task can have it.
fn short(task: u64) -> Option<u16>
    ensures { MatchOption result (65536 ≤ task) (λ t. t ≡ task) }
{
    if task < 65536 {
        Some(task as u16)
    } else {
        None
    }
}
