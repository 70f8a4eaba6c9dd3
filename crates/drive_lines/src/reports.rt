//! A [`Report`] is a line that the executor writes, and the program reads.

ghost use Rattle.std.specs.Prelude.{◌≡◌, IfSome, MatchOption, Some};
ghost use Rattle.drive_lines.specs.Reports.{SaysReport, report_phrase};
ghost use Rattle.drive_lines.specs.declared.reports.Report.{Report as ReportOf};

use crate::fields::{Fields, TryName};
use crate::phrases::{Phrase, read_phrase};
use crate::words::LineWord;
use night_plan::commands::Group;
use plan_lines::lines::{Outline, PlanLine};
use run_model::{Name, Outcome, Text};

/// A line of the executor.
#[derive(Drop)]
pub enum Report {
    /// `pool`, `need`, `take`, `now`, `size` and `standings`, as in a plan.
    Plan(PlanLine),
    /// `group PRIORITY WAY NAME`
    Group(Group, Name),
    /// `command GROUP PRIORITY RETRIES WAIT FACTOR CAP KEY`
    Command(Outline, Name),
    /// `until MOMENT WORDS`: the deadline of the group before it, and how the operator put it.
    Until(u64, Text),
    /// `all MOMENT WORDS`: the deadline of all groups together.
    All(u64, Text),
    /// `next`: another night begins.
    Next,
    /// `lives GROUP KEY TRY`: a try of an earlier sitting still runs, or its end isn't recorded.
    Lives(TryName),
    /// `ended TASK ok`, `ended TASK error WHY`
    Ended(u64, Outcome),
    /// `gone TASK`: the try is over, and nothing says how it ended.
    Gone(u64),
    /// `cancel COMMAND WHY`
    Cancel(u64, Text),
    /// `done GROUP WHY`
    Done(u64, Text),
    /// `hurry`: no retry waits any longer.
    Hurry,
    /// `ask COMMAND`: with which error did the last try of the command end?
    Ask(u64),
    /// `first GROUP`: what is the first error of the group?
    First(u64),
}

/// Reads a line of the executor, and returns `None` if no report is spelled so.
pub fn read_report(line: &[u8]) -> Option<Report>
    ensures read { MatchOption result ((r : ReportOf) → SaysReport r line.now → ⊥)
        (λ r. SaysReport r line.now) }
    ensures back { (r : ReportOf) → SaysReport r line.now → result ≡ Some r }
{
    let phrase = read_phrase(line)?;
    report_of(phrase)
}

/// The report that is spelled as this phrase.
fn report_of(phrase: Phrase) -> Option<Report>
    ensures says { IfSome result (λ r. report_phrase r ≡ phrase) }
    ensures back { (r : ReportOf) → report_phrase r ≡ phrase → result ≡ Some r }
{
    match phrase {
        Phrase::Plan(line) => Some(Report::Plan(line)),
        Phrase::Named(PlanLine::Group(group), name) => Some(Report::Group(group, name)),
        Phrase::Named(PlanLine::Command(outline), key) => Some(Report::Command(outline, key)),
        Phrase::Named(_, _) => None,
        Phrase::Own(word, fields) => own_report(word, fields),
    }
}

/// The report of a word and its fields.
fn own_report(word: LineWord, fields: Fields) -> Option<Report>
    ensures says { IfSome result (λ r. report_phrase r ≡ Phrase.Own word fields) }
    ensures back { (r : ReportOf) → report_phrase r ≡ Phrase.Own word fields → result ≡ Some r }
{
    match (word, fields) {
        (LineWord::Until, Fields::NumberText(moment, words)) => Some(Report::Until(moment, words)),
        (LineWord::All, Fields::NumberText(moment, words)) => Some(Report::All(moment, words)),
        (LineWord::Next, Fields::Alone) => Some(Report::Next),
        (LineWord::Lives, Fields::Lives(living)) => Some(Report::Lives(living)),
        (LineWord::Ended, Fields::Ended(task, outcome)) => Some(Report::Ended(task, outcome)),
        (LineWord::Gone, Fields::Number(task)) => Some(Report::Gone(task)),
        (LineWord::Cancel, Fields::NumberText(command, why)) => Some(Report::Cancel(command, why)),
        (LineWord::Done, Fields::NumberText(group, why)) => Some(Report::Done(group, why)),
        (LineWord::Hurry, Fields::Alone) => Some(Report::Hurry),
        (LineWord::Ask, Fields::Number(command)) => Some(Report::Ask(command)),
        (LineWord::First, Fields::Number(group)) => Some(Report::First(group)),
        _ => None,
    }
}
