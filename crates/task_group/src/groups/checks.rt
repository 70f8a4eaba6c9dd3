//! Tests. Each returns why a change is refused, and `Ok` exactly if nothing refuses it. Reasons are
//! checked in a fixed order, and the first one that applies is returned. No test takes memory.

ghost use Rattle.std.specs.Prelude.{◌≡◌, ◌<◌, ◌∷◌, ℕ, List, Option, [], length, not, true, is_none};
ghost use Rattle.std.specs.Prelude.{IfOk};
ghost use Rattle.run_model.specs.declared.refusals.Refusal.TheVariants as refusal;
ghost use Rattle.run_model.specs.declared.tasks.Outcome.{Outcome};
ghost use Rattle.run_model.specs.Allowed.{refusals, tested, has_row, has_room, is_open};
ghost use Rattle.run_model.specs.Layouts.{most_tasks};
ghost use Rattle.run_model.specs.Event.{Bare, Finish, Go, Retry, SetLimit, TryGo, Wait};
ghost use Rattle.run_model.specs.State.{TreeState, group_named};
ghost use Rattle.run_model.specs.Tasks.{is_retried};
ghost use Rattle.run_model.specs.WorkChanges.{group_of_task};
ghost use Rattle.run_model.specs.declared.bounds.TheConstants.{MOST_GROUPS};
ghost use Rattle.task_group.specs.Checks.{Answers};

use crate::groups::Groups;
use crate::work_rows::is_interrupted;
use run_model::{MOST_GROUPS, Refusal};
use std::alloc::Allocator;

impl<A: Allocator> Groups<A> {
    /// Returns why a group with this name can't be made, which is the first of these that applies:
    /// `NameTaken`, `TooManyGroups`.
    pub fn check_make(&self, name: &[u8]) -> Result<(), Refusal>
        ensures { (count : ℕ) (tree : TreeState) (s : ℕ) → has_row tree.scopes s ≡ true
            → result ≡ tested (refusals
            (record { count = count; tree = tree; work = self.now }) (Bare name.now s)) }
    {
        self.check_name(name)?;
        self.check_capacity()
    }

    /// The first part of [`Groups::check_make`]: `NameTaken`.
    pub fn check_name(&self, name: &[u8]) -> Result<(), Refusal>
        ensures { result
            ≡ tested ((not (is_none (group_named self.now name.now)), refusal.NameTaken) ∷ []) }
    {
        if self.find(name).is_some() {
            return Err(Refusal::NameTaken);
        }
        Ok(())
    }

    /// The second part of [`Groups::check_make`]: `TooManyGroups`.
    pub fn check_capacity(&self) -> Result<(), Refusal>
        ensures { result
            ≡ tested ((not (has_room MOST_GROUPS self.now.groups), refusal.TooManyGroups) ∷ []) }
    {
        if MOST_GROUPS <= self.groups.len() {
            return Err(Refusal::TooManyGroups);
        }
        Ok(())
    }

    /// Returns why the limit of a group can't be set, which is the first of these that applies:
    /// `NoSuchGroup`, `Waited`, `LimitWhileActive`.
    pub fn check_limit(&self, group: u16) -> Result<(), Refusal>
        ensures { (limit : Option ℕ) → Answers self.now (SetLimit group limit) result }
    {
        self.check_open(group)?;
        if self.unfinished(group) != 0 {
            return Err(Refusal::LimitWhileActive);
        }
        Ok(())
    }

    /// Returns why a task can't be submitted to a group, which is the first of these that applies:
    /// `NoSuchGroup`, `Waited`, `TooManyTasks`.
    pub fn check_go(&self, group: u16) -> Result<(), Refusal>
        ensures { (job argument : List ℕ) → Answers self.now (Go group job argument) result }
    {
        self.check_open(group)?;
        self.check_task_capacity()
    }

    /// Returns why a task that has to be ready at once can't be submitted: first as
    /// [`Groups::check_go`], and then `AtLimit`.
    pub fn check_try(&self, group: u16) -> Result<(), Refusal>
        ensures { (job argument : List ℕ) → Answers self.now (TryGo group job argument) result }
    {
        self.check_go(group)?;
        if !self.admits_more(group) {
            return Err(Refusal::AtLimit);
        }
        Ok(())
    }

    /// Returns why a task can't be retried, which is the first of these that applies: `NoSuchTask`,
    /// `NotInterrupted`, `AlreadyRetried`, `Waited`, `TooManyTasks`.
    pub fn check_retry(&self, task: u16) -> Result<(), Refusal>
        ensures { Answers self.now (Retry task) result }
    {
        let Some(row) = self.task_row(task) else {
            return Err(Refusal::NoSuchTask);
        };
        if !is_interrupted(&row.stage) {
            return Err(Refusal::NotInterrupted);
        }
        if self.is_retried(task) {
            return Err(Refusal::AlreadyRetried);
        }
        self.check_go(self.group_of(task))
    }

    /// Returns why a group can't be waited for, which is the first of these that applies:
    /// `NoSuchGroup`, `Unfinished`, `Waited`. To answer a second wait like the first, call
    /// [`Groups::was_waited`] before.
    pub fn check_wait(&self, group: u16) -> Result<(), Refusal>
        ensures { Answers self.now (Wait group) result }
    {
        if self.group_count() <= group as usize {
            return Err(Refusal::NoSuchGroup);
        }
        let unfinished = self.unfinished(group);
        if unfinished != 0 {
            return Err(Refusal::Unfinished(unfinished));
        }
        if self.was_waited(group) {
            return Err(Refusal::Waited);
        }
        Ok(())
    }

    /// Returns why a task can't be finished, which is the first of these that applies:
    /// `NoSuchTask`, `NotRunning`.
    pub fn check_finish(&self, task: u16) -> Result<(), Refusal>
        ensures { (outcome : Outcome) → Answers self.now (Finish task outcome) result }
    {
        if self.task_count() <= task as usize {
            return Err(Refusal::NoSuchTask);
        }
        if !self.is_running(task) {
            return Err(Refusal::NotRunning);
        }
        Ok(())
    }

    /// The first part of [`Groups::check_limit`] and of [`Groups::check_go`]: `NoSuchGroup` or
    /// `Waited`.
    fn check_open(&self, group: u16) -> Result<(), Refusal>
        ensures first { result ≡ tested ((not (has_row self.now.groups group), refusal.NoSuchGroup)
            ∷ (not (is_open self.now group), refusal.Waited) ∷ []) }
        ensures known { IfOk result (λ _. group < length self.now.groups) }
    {
        let Some(row) = self.group_row(group) else {
            return Err(Refusal::NoSuchGroup);
        };
        if row.waited {
            return Err(Refusal::Waited);
        }
        Ok(())
    }

    /// The second part of [`Groups::check_go`]: `TooManyTasks`.
    fn check_task_capacity(&self) -> Result<(), Refusal>
        ensures { result ≡ tested ((
          not (has_room (most_tasks self.now.layout) self.now.tasks),
          refusal.TooManyTasks,
        ) ∷ []) }
    {
        if self.layout.most_tasks() <= self.tasks.len() {
            return Err(Refusal::TooManyTasks);
        }
        Ok(())
    }

    /// Returns whether a task was retried.
    pub(crate) fn is_retried(&self, task: u16) -> bool
        requires { task < length self.now.tasks }
        ensures { result ≡ is_retried self.now task }
    {
        self.retried[task as usize]
    }

    /// Returns the number of the group of a task.
    fn group_of(&self, task: u16) -> u16
        requires { task < length self.now.tasks }
        ensures group { result ≡ group_of_task self.now task }
        ensures known { result < length self.now.groups }
    {
        self.tasks[task as usize].group
    }
}
