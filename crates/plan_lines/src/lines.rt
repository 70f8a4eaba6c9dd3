//! A [`PlanLine`] is what a line of a plan or of a round means.

ghost use Rattle.std.specs.Prelude.{◌≡◌, ◌∷◌, [], MatchOption};
ghost use Rattle.plan_lines.specs.Lines.{Means, Parses, phase_keyword, subject_tokens};
ghost use Rattle.plan_lines.specs.Lines.{way_keyword, when_keyword};
ghost use Rattle.night_plan.specs.declared.commands.Subject.{Subject as SubjectOf};
ghost use Rattle.night_plan.specs.declared.commands.Way.{Way as WayOf};
ghost use Rattle.night_plan.specs.declared.commands.When.{When as WhenOf};
ghost use Rattle.plan_lines.specs.declared.lines.PlanLine.{PlanLine as PlanLineOf};

use crate::tokens::{Keyword, Token, read_tokens};
use night_plan::commands::{Group, Need, Subject, Take, Way, When};
use night_plan::facts::Phase;

/// The length of the longest line, without its LF.
pub const LONGEST_LINE: usize = 255;

/// A command without what it needs and takes.
#[derive(Clone, Copy)]
pub struct Outline {
    pub group: usize,
    pub priority: u16,
    pub retries: u32,
    pub wait: u32,
    pub factor: u32,
    pub cap: u32,
}

/// What a line means.
#[derive(Clone, Copy)]
pub enum PlanLine {
    /// `pool SIZE`
    Pool(u32),
    /// `group PRIORITY WAY`
    Group(Group),
    /// `command GROUP PRIORITY RETRIES WAIT FACTOR CAP`
    Command(Outline),
    /// `need WHEN SUBJECT NUMBER`
    Need(Need),
    /// `take POOL AMOUNT`
    Take(Take),
    /// `now MOMENT`
    Now(u64),
    /// `size POOL SIZE`
    Size(usize, u32),
    /// `done GROUP`
    Done(usize),
    /// `cancel COMMAND`
    Cancel(usize),
    /// `fresh COMMAND`, `busy`, `ok`, `interrupted` and `cut` likewise: the phase of a command
    /// whose last try didn't fail.
    Stands(usize, Phase),
    /// `failed COMMAND MOMENT FAILURES`
    Failed(usize, u64, u32),
    /// `standings`
    Standings,
}

/// Reads a line, and returns `None` if no line of a plan or of a round is spelled so.
pub fn read_line(line: &[u8]) -> Option<PlanLine>
    ensures { MatchOption result ((parsed : PlanLineOf) → Means line.now parsed → ⊥)
        (λ parsed. Means line.now parsed) }
{
    if line.len() > LONGEST_LINE {
        return None;
    }
    let Some(tokens) = read_tokens(line) else {
        return None;
    };
    line_of(tokens.as_slice())
}

/// The line of these tokens.
fn line_of(tokens: &[Token]) -> Option<PlanLine>
    ensures { Parses tokens.now result }
{
    match tokens {
        [Token::Keyword(Keyword::Standings)] => Some(PlanLine::Standings),
        [Token::Keyword(keyword), Token::Number(number)] => number_line(*keyword, *number),
        [
            Token::Keyword(Keyword::Group),
            Token::Number(priority),
            Token::Keyword(way),
        ] => group_line(*priority, *way),
        [
            Token::Keyword(Keyword::Take),
            Token::Number(pool),
            Token::Number(amount),
        ] => take_line(*pool, *amount),
        [
            Token::Keyword(Keyword::Size),
            Token::Number(pool),
            Token::Number(size),
        ] => size_line(*pool, *size),
        [
            Token::Keyword(Keyword::Need),
            Token::Keyword(when),
            Token::Keyword(subject),
            Token::Number(number),
        ] => need_line(*when, *subject, *number),
        [
            Token::Keyword(Keyword::Failed),
            Token::Number(command),
            Token::Number(moment),
            Token::Number(failures),
        ] => failed_line(*command, *moment, *failures),
        [
            Token::Keyword(Keyword::Command),
            Token::Number(group),
            Token::Number(priority),
            Token::Number(retries),
            Token::Number(wait),
            Token::Number(factor),
            Token::Number(cap),
        ] => command_line(*group, *priority, *retries, *wait, *factor, *cap),
        _ => None,
    }
}

/// The line of a keyword and a number.
fn number_line(keyword: Keyword, number: u64) -> Option<PlanLine>
    ensures { Parses (Token.Keyword keyword ∷ Token.Number number ∷ []) result }
{
    let row = number as usize;
    match keyword {
        Keyword::Pool => pool_line(number),
        Keyword::Now => Some(PlanLine::Now(number)),
        Keyword::Done => Some(PlanLine::Done(row)),
        Keyword::Cancel => Some(PlanLine::Cancel(row)),
        Keyword::Fresh => Some(PlanLine::Stands(row, Phase::Fresh)),
        Keyword::Busy => Some(PlanLine::Stands(row, Phase::Busy)),
        Keyword::Ok => Some(PlanLine::Stands(row, Phase::EndedOk)),
        Keyword::Interrupted => Some(PlanLine::Stands(row, Phase::Interrupted)),
        Keyword::Cut => Some(PlanLine::Stands(row, Phase::Canceled)),
        _ => None,
    }
}

fn pool_line(size: u64) -> Option<PlanLine>
    ensures { Parses (Token.Keyword Keyword.Pool ∷ Token.Number size ∷ []) result }
{
    Some(PlanLine::Pool(u32::try_from(size).ok()?))
}

fn way_of(keyword: Keyword) -> Option<Way>
    ensures { MatchOption result ((w : WayOf) → way_keyword w ≡ keyword → ⊥)
        (λ w. way_keyword w ≡ keyword) }
{
    match keyword {
        Keyword::GoOn => Some(Way::GoOn),
        Keyword::Stop => Some(Way::Stop),
        Keyword::Cancel => Some(Way::Cancel),
        _ => None,
    }
}

fn group_line(priority: u64, way: Keyword) -> Option<PlanLine>
    ensures { Parses
        (Token.Keyword Keyword.Group ∷ Token.Number priority ∷ Token.Keyword way ∷ []) result }
{
    let priority = u16::try_from(priority).ok()?;
    let way = way_of(way)?;
    Some(PlanLine::Group(Group { priority, way }))
}

fn command_line(
    group: u64,
    priority: u64,
    retries: u64,
    wait: u64,
    factor: u64,
    cap: u64,
) -> Option<PlanLine>
    ensures { Parses (Token.Keyword Keyword.Command ∷ Token.Number group ∷ Token.Number priority
        ∷ Token.Number retries ∷ Token.Number wait ∷ Token.Number factor ∷ Token.Number cap ∷ [])
        result }
{
    Some(PlanLine::Command(Outline {
        group: group as usize,
        priority: u16::try_from(priority).ok()?,
        retries: u32::try_from(retries).ok()?,
        wait: u32::try_from(wait).ok()?,
        factor: u32::try_from(factor).ok()?,
        cap: u32::try_from(cap).ok()?,
    }))
}

fn when_of(keyword: Keyword) -> Option<When>
    ensures { MatchOption result ((w : WhenOf) → when_keyword w ≡ keyword → ⊥)
        (λ w. when_keyword w ≡ keyword) }
{
    match keyword {
        Keyword::Well => Some(When::Well),
        Keyword::Failed => Some(When::Failed),
        Keyword::Ended => Some(When::Ended),
        _ => None,
    }
}

fn subject_of(keyword: Keyword, number: u64) -> Option<Subject>
    ensures { MatchOption result
        ((of : SubjectOf)
        → subject_tokens of ≡ Token.Keyword keyword ∷ Token.Number number ∷ [] → ⊥)
        (λ of. subject_tokens of ≡ Token.Keyword keyword ∷ Token.Number number ∷ []) }
{
    match keyword {
        Keyword::Command => Some(Subject::Command(number as usize)),
        Keyword::Group => Some(Subject::Group(number as usize)),
        _ => None,
    }
}

fn need_line(when: Keyword, subject: Keyword, number: u64) -> Option<PlanLine>
    ensures { Parses (Token.Keyword Keyword.Need ∷ Token.Keyword when ∷ Token.Keyword subject
        ∷ Token.Number number ∷ []) result }
{
    let when = when_of(when)?;
    let of = subject_of(subject, number)?;
    Some(PlanLine::Need(Need { of, when }))
}

fn take_line(pool: u64, amount: u64) -> Option<PlanLine>
    ensures { Parses
        (Token.Keyword Keyword.Take ∷ Token.Number pool ∷ Token.Number amount ∷ []) result }
{
    let pool = pool as usize;
    let amount = u32::try_from(amount).ok()?;
    Some(PlanLine::Take(Take { pool, amount }))
}

fn size_line(pool: u64, size: u64) -> Option<PlanLine>
    ensures { Parses
        (Token.Keyword Keyword.Size ∷ Token.Number pool ∷ Token.Number size ∷ []) result }
{
    Some(PlanLine::Size(pool as usize, u32::try_from(size).ok()?))
}

fn failed_line(command: u64, moment: u64, failures: u64) -> Option<PlanLine>
    ensures { Parses (Token.Keyword Keyword.Failed ∷ Token.Number command ∷ Token.Number moment
        ∷ Token.Number failures ∷ []) result }
{
    let failures = u32::try_from(failures).ok()?;
    Some(PlanLine::Failed(command as usize, moment, failures))
}
