//! Questions about groups and tasks. Each takes a number. Either the caller knows that the row
//! exists, or the answer is `None` if it doesn't.

ghost use Rattle.std.specs.Prelude.{◌≡◌, ◌<◌, ◌≤◌, ℕ, length, position, slice_get};
ghost use Rattle.std.specs.Option.{option_copied};
ghost use Rattle.std.specs.Str.{bytes_eq};
ghost use Rattle.run_model.specs.declared.bounds.TheConstants.{MOST_GROUPS};
ghost use Rattle.run_model.specs.Layouts.{most_tasks};
ghost use Rattle.run_model.specs.Questions.{group_look_of};
ghost use Rattle.run_model.specs.Replies.{has_waited};
ghost use Rattle.run_model.specs.State.{TreeState, group_named};
ghost use Rattle.run_model.specs.Tasks.{first_ready, phase_of, running_count};
ghost use Rattle.run_model.specs.Tasks.{unfinished_in, has_stage, is_running, admits, limit_of};

use crate::groups::Groups;
use crate::work_rows::{admits, group_look, is_from, is_running, phase_of as stage_phase};
use run_model::{Group, GroupLook, Layout, MOST_GROUPS, Phase, Task, is_spelled};
use std::alloc::Allocator;

impl<A: Allocator> Groups<A> {
    /// Returns the layout of the store, which limits the number of tasks.
    pub fn layout(&self) -> Layout
        ensures { result ≡ self.now.layout }
    {
        self.layout
    }

    /// Returns the number of groups.
    pub fn group_count(&self) -> usize
        ensures len { result ≡ length self.now.groups }
        ensures few { result ≤ MOST_GROUPS }
    {
        self.groups.len()
    }

    /// Returns the number of the group with this name; `None` exactly if there is none.
    pub fn find(&self, name: &[u8]) -> Option<u16>
        ensures { result ≡ group_named self.now name.now }
    {
        let n = place_of(&self.groups, name)?;
        Some(n as u16)
    }

    /// Returns the row of a group, which is lent until the groups change; `None` exactly if there
    /// is no such group.
    pub fn group_row(&self, group: u16) -> Option<&Group>
        ensures { option_copied result ≡ slice_get self.now.groups group }
    {
        let g = group as usize;
        self.groups.get(g)
    }

    /// Returns the name and the scope of a group, the number of its unfinished tasks, its limit,
    /// whether it was waited for, and its first error; `None` if there is no such group.
    pub fn result(&self, group: u16) -> Option<GroupLook>
        ensures { (count : ℕ) (tree : TreeState) → result
            ≡ group_look_of (record { count = count; tree = tree; work = self.now }) group }
    {
        let Some(row) = self.group_row(group) else {
            return None;
        };
        Some(group_look(row, self.unfinished(group)))
    }

    /// Returns whether there is a group with this number that was waited for.
    pub fn was_waited(&self, group: u16) -> bool
        ensures { result ≡ has_waited self.now group }
    {
        match self.group_row(group) {
            Some(row) => row.waited,
            None => false,
        }
    }

    /// Returns the number of unfinished tasks of a group.
    pub fn unfinished(&self, group: u16) -> u16
        requires { group < length self.now.groups }
        ensures { result ≡ unfinished_in group self.now.tasks }
    {
        self.counts[group as usize].unfinished
    }

    /// Returns whether a task that was submitted now would be ready.
    pub fn admits_more(&self, group: u16) -> bool
        requires { group < length self.now.groups }
        ensures { result ≡ admits (limit_of self.now group) (unfinished_in group self.now.tasks) }
    {
        let g = group as usize;
        admits(self.groups[g].limit, self.counts[g].unfinished as usize)
    }

    /// Returns the number of tasks.
    pub fn task_count(&self) -> usize
        ensures len { result ≡ length self.now.tasks }
        ensures few { result ≤ most_tasks self.now.layout }
    {
        self.tasks.len()
    }

    /// Returns the row of a task, which is lent until the groups change; `None` exactly if there is
    /// no such task.
    pub fn task_row(&self, task: u16) -> Option<&Task>
        ensures { option_copied result ≡ slice_get self.now.tasks task }
    {
        let n = task as usize;
        self.tasks.get(n)
    }

    /// Returns how far a task has come; `None` if there is no such task.
    pub fn phase(&self, task: u16) -> Option<Phase>
        ensures { result ≡ phase_of self.now task }
    {
        let Some(row) = self.task_row(task) else {
            return None;
        };
        let first = self.counts[row.group as usize].first;
        Some(stage_phase(&row.stage, is_from(first, task)))
    }

    /// Returns whether there is a task with this number that is running.
    pub fn is_running(&self, task: u16) -> bool
        ensures { result ≡ has_stage is_running self.now task }
    {
        match self.tasks.get(task as usize) {
            Some(row) => is_running(&row.stage),
            None => false,
        }
    }

    /// Returns the number of running tasks.
    pub fn running(&self) -> usize
        ensures count { result ≡ running_count self.now.tasks }
        ensures few { result ≤ most_tasks self.now.layout }
    {
        self.running
    }

    /// Returns the ready task with the lowest number, which is the one that [`Groups::start`]
    /// starts; `None` exactly if no task is ready. Then a start is refused as `NothingReady`.
    pub fn next_ready(&self) -> Option<u16>
        ensures { result ≡ first_ready self.now }
    {
        self.ready.first()
    }
}

/// Returns the place of the row with this name.
fn place_of(groups: &[Group], name: &[u8]) -> Option<usize>
    ensures { result ≡ position (λ row. bytes_eq name.now row.name) groups.now }
{
    groups
        .iter()
        .position(|row| is_spelled(name, row.name.as_bytes()))
}
