//! A [`Phrase`] is a line as it is spelled.

ghost use Rattle.std.specs.Prelude.{◌≡◌, IsTrue, MatchOption, Some, None};
ghost use Rattle.drive_lines.specs.Spaces.{after, first_of, lent};
ghost use Rattle.drive_lines.specs.Phrases.{FitsPhrase, IsNamedRead, IsOwnRead, IsPlanRead};
ghost use Rattle.drive_lines.specs.Phrases.{Spells, has_name, is_kept, takes_name};
ghost use Rattle.drive_lines.specs.declared.phrases.Phrase.{Phrase as PhraseOf};

use crate::cuts::{first_word, last_word};
use crate::fields::{Fields, read_fields};
use crate::words::{LineWord, read_word, shape_of};
use plan_lines::lines::{LONGEST_LINE, PlanLine, read_line};
use run_model::{Name, is_spelled};

/// A line as it is spelled.
#[derive(Drop)]
pub(crate) enum Phrase {
    /// A line that is spelled as in a plan.
    Plan(PlanLine),
    /// A group or a command that is spelled as in a plan, and its name.
    Named(PlanLine, Name),
    /// A word and its fields.
    Own(LineWord, Fields),
}

/// Reads a line, and returns `None` if no phrase is spelled so.
pub(crate) fn read_phrase(line: &[u8]) -> Option<Phrase>
    ensures { MatchOption result ((p : PhraseOf) → Spells p line.now → ⊥)
        (λ p. Spells p line.now) }
{
    if line.len() > LONGEST_LINE {
        return None;
    }
    let (word, rest) = first_word(line);
    if takes_name(word) {
        return read_named(line);
    }
    match read_word(word) {
        Some(word) => read_own(word, rest),
        None => read_plan(line),
    }
}

/// Returns whether a line with this first word is one of a plan with a name after it.
fn takes_name(word: &[u8]) -> bool
    ensures { result ≡ takes_name word.now }
{
    is_spelled(word, b"group") || is_spelled(word, b"command")
}

/// A group or a command with its name.
fn read_named(line: &[u8]) -> Option<Phrase>
    ensures { IsNamedRead line.now result }
{
    let (head, name) = last_word(line)?;
    let parsed = read_line(head)?;
    if !has_name(parsed) {
        return None;
    }
    Some(Phrase::Named(parsed, Name::read(name)?))
}

/// A word and its fields.
fn read_own(word: LineWord, left: Option<&[u8]>) -> Option<Phrase>
    ensures { IsOwnRead word (lent left.entry) result }
{
    Some(Phrase::Own(word, read_fields(shape_of(word), left)?))
}

/// A line that is spelled as in a plan.
fn read_plan(line: &[u8]) -> Option<Phrase>
    ensures { IsPlanRead line.now result }
{
    let parsed = read_line(line)?;
    if !is_kept(parsed) {
        return None;
    }
    Some(Phrase::Plan(parsed))
}

/// Returns whether a line is as in a plan.
fn is_kept(line: PlanLine) -> bool
    ensures { result ≡ is_kept line }
{
    match line {
        PlanLine::Pool(_)
        | PlanLine::Need(_)
        | PlanLine::Take(_)
        | PlanLine::Now(_)
        | PlanLine::Size(_, _)
        | PlanLine::Standings => true,
        _ => false,
    }
}

/// Returns whether a line is as in a plan, with a name after it.
fn has_name(line: PlanLine) -> bool
    ensures { result ≡ has_name line }
{
    match line {
        PlanLine::Group(_) | PlanLine::Command(_) => true,
        _ => false,
    }
}
