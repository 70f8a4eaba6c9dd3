//! The tries that live: they have begun, and their ends aren't recorded yet.

ghost use Rattle.std.specs.Prelude.{◌≡◌, IfOk};
ghost use Rattle.drive_runs.specs.Living.{after_ends, as_recorded, is_among, lives, outcome_of};
ghost use Rattle.drive_runs.specs.Living.{once_asked, reason_of, with_begun, with_reason};
ghost use Rattle.drive_runs.specs.Living.{with_task, without};

use drive_steps::cancels::canceled_text;
use drive_steps::heard::{Ended, has_ended};
use drive_steps::reported::Begun;
use run_model::{Outcome, Text};
use std::alloc::{AllocError, Global};

/// A try that lives.
#[derive(Drop)]
pub struct Living {
    pub command: usize,
    pub task: u16,
    /// Why it has to stop, if it has.
    pub stop: Option<Text>,
    /// Whether the executor was asked to stop it.
    pub asked: bool,
}

impl Living {
    /// Returns a copy.
    pub fn copy(&self) -> Living
        ensures { result ≡ self.now }
    {
        Living {
            command: self.command,
            task: self.task,
            stop: copy_of(&self.stop),
            asked: self.asked,
        }
    }
}

impl Living {
    /// The same try, which has to stop for this reason, if there is one, and if it hasn't to
    /// already.
    pub fn with_reason(&self, reason: Option<Text>) -> Living
        ensures { result ≡ with_reason reason self.now }
    {
        Living {
            command: self.command,
            task: self.task,
            stop: match copy_of(&self.stop) {
                Some(stop) => Some(stop),
                None => reason,
            },
            asked: self.asked,
        }
    }

    /// The same try with another task.
    pub fn with_task(&self, task: u16) -> Living
        ensures { result ≡ with_task task self.now }
    {
        Living {
            command: self.command,
            task,
            stop: copy_of(&self.stop),
            asked: self.asked,
        }
    }

    /// The same try, once the executor was asked to stop it for this reason, if there is one.
    pub fn once_asked(&self, why: Option<Text>) -> Living
        ensures { result ≡ once_asked why self.now }
    {
        match why {
            Some(why) => Living {
                command: self.command,
                task: self.task,
                stop: Some(why),
                asked: true,
            },
            None => self.copy(),
        }
    }
}

/// Returns a copy of a text, if there is one.
fn copy_of(text: &Option<Text>) -> Option<Text>
    ensures { result ≡ text.now }
{
    match text {
        Some(text) => Some(text.copy()),
        None => None,
    }
}

/// Returns whether a try with this task lives.
pub fn lives(living: &[Living], task: u16) -> bool
    ensures { result ≡ lives living.now task }
{
    living.iter().any(|one| one.task == task)
}

/// Returns the tries that live after these ends.
pub fn after_ends(
    alloc: Global,
    living: &[Living],
    ended: &[Ended],
) -> Result<Vec<Living>, AllocError>
    ensures { IfOk result (λ left. left.items ≡ after_ends living.now ended.now) }
{
    let mut left = Vec::new(alloc);
    for one in living {
        if !has_ended(ended, one.task) {
            left.push(one.copy())?;
        }
    }
    Ok(left)
}

/// Returns the tries that live, without those of these tasks.
pub fn without(alloc: Global, living: &[Living], tasks: &[u16]) -> Result<Vec<Living>, AllocError>
    ensures { IfOk result (λ left. left.items ≡ without living.now tasks.now) }
{
    let mut left = Vec::new(alloc);
    for one in living {
        if !is_among(tasks, one.task) {
            left.push(one.copy())?;
        }
    }
    Ok(left)
}

/// Returns whether a task is one of these.
pub(crate) fn is_among(tasks: &[u16], task: u16) -> bool
    ensures { result ≡ is_among tasks.now task }
{
    tasks.iter().any(|other| *other == task)
}

/// Adds the tries that have begun.
pub fn add_begun(living: &mut Vec<Living>, begun: &[Begun]) -> Result<(), AllocError>
    ensures { IfOk result (λ _. living.new.items ≡ with_begun living.old.items begun.now) }
{
    for begin in begun {
        living.push(Living {
            command: begin.command,
            task: begin.task,
            stop: None,
            asked: false,
        })?;
    }
    Ok(())
}

/// Returns why the try with this task has to stop, if it lives and has to.
pub fn reason_of(living: &[Living], task: u16) -> Option<Text>
    ensures { result ≡ reason_of living.now task }
{
    match living.iter().find(|one| one.task == task) {
        Some(one) => copy_of(&one.stop),
        None => None,
    }
}

/// Returns how the end of a try is recorded. A failure of one that was to stop is a cancel.
pub fn as_recorded(living: &[Living], end: &Ended) -> Ended
    ensures { result ≡ as_recorded living.now end.now }
{
    Ended {
        task: end.task,
        outcome: outcome_of(&reason_of(living, end.task), &end.outcome),
    }
}

/// Returns how a try has ended, if the executor reported this, and was asked to stop it.
fn outcome_of(stop: &Option<Text>, outcome: &Outcome) -> Outcome
    ensures { result ≡ outcome_of stop.now outcome.now }
{
    match (stop, outcome) {
        (Some(why), Outcome::Failure(_)) => Outcome::Failure(canceled_text(why)),
        _ => outcome.copy(),
    }
}
