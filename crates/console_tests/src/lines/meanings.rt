//! What lines ask for, by bytes and numbers, as tables write it.

use console_lines::{LineRequest, read_line};
use run_model::{Command, Outcome, Refusal, Step, Text, Wish};
use std::process::Abort;

/// What a derive asks for.
#[derive(Clone, Copy, PartialEq, Eq)]
pub enum Kind<'a> {
    /// A scope that takes no cause.
    Cancel,
    /// A scope that takes a cause.
    Cause,
    /// A deadline, and its cause.
    Deadline(u64, Option<&'a [u8]>),
    /// A timeout of this many seconds, and its cause.
    Timeout(u64, Option<&'a [u8]>),
    /// A value under a key.
    Value(&'a [u8], &'a [u8]),
    /// A detached scope.
    Detached,
}

/// What a line asks for. Scopes and groups go by name, tasks by number.
#[derive(Clone, Copy, PartialEq, Eq)]
pub enum Meaning<'a> {
    /// Nothing.
    Nothing,
    /// It is no line of the console.
    BadLine,
    /// It is refused by itself.
    Refused(Refusal),
    /// A scope of this name below a parent.
    Derive(&'a [u8], &'a [u8], Kind<'a>),
    /// The cancel of a scope, with a cause.
    Cancel(&'a [u8], Option<&'a [u8]>),
    /// The clock to this moment.
    Advance(u64),
    /// A group of this name, and the parent of its scope.
    Group(&'a [u8], &'a [u8]),
    /// A bare group of this name in a scope.
    Bare(&'a [u8], &'a [u8]),
    /// The limit of a group, or none.
    Limit(&'a [u8], Option<u8>),
    /// A task of a group, with its job and argument.
    Go(&'a [u8], &'a [u8], &'a [u8]),
    /// The same, only if it is ready at once.
    Try(&'a [u8], &'a [u8], &'a [u8]),
    /// An interrupted task anew.
    Retry(u16),
    /// A wait for a group.
    Wait(&'a [u8]),
    /// A start.
    Start,
    /// The end of a task, and its error.
    Finish(u16, Option<&'a [u8]>),
    /// How a scope is.
    Scope(&'a [u8]),
    /// What a scope holds under a key.
    Value(&'a [u8], &'a [u8]),
    /// How far a task is.
    Task(u16),
    /// How a group is.
    Result(&'a [u8]),
    /// The tally.
    Tally,
    /// All events so far, by their records.
    Flush,
    /// All events so far, by an image.
    Checkpoint,
}

fn bytes_of(cause: &Option<Text>) -> Option<&[u8]> {
    cause.as_ref().map(|text| text.as_bytes())
}

fn kind_of(wish: &Wish) -> Kind<'_> {
    match wish {
        Wish::Cancel => Kind::Cancel,
        Wish::Cause => Kind::Cause,
        Wish::Deadline(moment, cause) => Kind::Deadline(moment.get(), bytes_of(cause)),
        Wish::Timeout(seconds, cause) => Kind::Timeout(*seconds, bytes_of(cause)),
        Wish::Value(key, value) => Kind::Value(key.as_bytes(), value.as_bytes()),
        Wish::Detached => Kind::Detached,
    }
}

fn of_command(command: &Command) -> Meaning<'_> {
    match command {
        Command::Derive { name, parent, wish } => {
            Meaning::Derive(name.as_bytes(), parent.as_bytes(), kind_of(wish))
        }
        Command::Cancel { scope, cause } => Meaning::Cancel(scope.as_bytes(), bytes_of(cause)),
        Command::Advance { moment } => Meaning::Advance(moment.get()),
        Command::Group { name, parent } => Meaning::Group(name.as_bytes(), parent.as_bytes()),
        Command::Bare { name, scope } => Meaning::Bare(name.as_bytes(), scope.as_bytes()),
        Command::SetLimit { group, limit } => Meaning::Limit(group.as_bytes(), limit.get()),
        Command::Go {
            group,
            job,
            argument,
        } => Meaning::Go(group.as_bytes(), job.as_bytes(), argument.as_bytes()),
        Command::TryGo {
            group,
            job,
            argument,
        } => Meaning::Try(group.as_bytes(), job.as_bytes(), argument.as_bytes()),
        Command::Retry(task) => Meaning::Retry(*task),
        Command::Wait { group } => Meaning::Wait(group.as_bytes()),
    }
}

fn of_step(step: &Step) -> Meaning<'_> {
    match step {
        Step::Command(command) => of_command(command),
        Step::Start => Meaning::Start,
        Step::Finish(task, Outcome::Success) => Meaning::Finish(*task, None),
        Step::Finish(task, Outcome::Failure(error)) => {
            Meaning::Finish(*task, Some(error.as_bytes()))
        }
        Step::Flush => Meaning::Flush,
        Step::Checkpoint => Meaning::Checkpoint,
    }
}

/// What is asked for, by bytes and numbers.
fn meaning_of(asked: &LineRequest) -> Meaning<'_> {
    match asked {
        LineRequest::Nothing => Meaning::Nothing,
        LineRequest::BadLine => Meaning::BadLine,
        LineRequest::Refused(refusal) => Meaning::Refused(*refusal),
        LineRequest::Step(step) => of_step(step),
        LineRequest::Scope(name) => Meaning::Scope(name.as_bytes()),
        LineRequest::Value { scope, key } => Meaning::Value(scope.as_bytes(), key.as_bytes()),
        LineRequest::Task(task) => Meaning::Task(*task),
        LineRequest::Result(name) => Meaning::Result(name.as_bytes()),
        LineRequest::Tally => Meaning::Tally,
    }
}

/// A line, and what it asks for.
pub type Row = (&'static [u8], Meaning<'static>);

/// Asserts what lines ask for.
pub fn assert_read(rt: &impl Abort, rows: &[Row]) {
    for (n, row) in rows.iter().enumerate() {
        assert!(rt; meaning_of(&read_line(row.0)) == row.1, "row {n}");
    }
}

/// Asserts that each of these lines asks for the same.
pub fn assert_all(rt: &impl Abort, lines: &[&[u8]], wanted: &Meaning<'static>) {
    for (n, line) in lines.iter().enumerate() {
        assert!(rt; meaning_of(&read_line(line)) == *wanted, "line {n}");
    }
}
