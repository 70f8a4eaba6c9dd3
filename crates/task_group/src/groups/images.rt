//! The rows of groups and tasks in an image. They are written in the order of their numbers. They
//! are read one by one, and each is tested against those before it. The counters and lists that are
//! kept next to the rows are built while reading.

ghost use Rattle.std.specs.List.{flat_map, AllByRecursion};
ghost use Rattle.std.specs.Option.{IfNone, IfSome};
ghost use Rattle.std.specs.Prelude.{◌≡◌, ◌+◌, ◌*◌, ◌<◌, ◌≤◌, ◌++◌, ◌∷◌, [], true, false, length};
ghost use Rattle.std.specs.Prelude.{IfOk, IfErr, IsTrue, List, Some, None, slice_get, ℕ};
ghost use Rattle.run_model.specs.declared.bounds.TheConstants.{MOST_GROUPS};
ghost use Rattle.run_model.specs.declared.faults.Fault.TheVariants.{BadImage};
ghost use Rattle.run_model.specs.declared.groups.Group.{Group as GroupOf};
ghost use Rattle.run_model.specs.Layouts.{most_tasks};
ghost use Rattle.run_model.specs.Rules.{has_task_error};
ghost use Rattle.run_model.specs.State.{new_work, WorkState};
ghost use Rattle.run_model.specs.Tasks.{is_running, is_unfinished, admits, limit_of};
ghost use Rattle.run_model.specs.Tasks.{unfinished_in};
ghost use Rattle.row_view.specs.declared.heads.ImageVersion.TheVariants.{Two};
ghost use Rattle.row_view.specs.Between.{fits_between};
ghost use Rattle.row_view.specs.Image.{group_bytes, task_bytes, is_kept_group, is_kept_task};
ghost use Rattle.row_view.specs.RowReading.{group_row_at, task_at};
ghost use Rattle.row_view.specs.WorkRows.{AreWorkRows, can_come, each_passes, has_new_name};
ghost use Rattle.row_view.specs.WorkRows.{has_work_room, is_linked, is_settled, more_at};
ghost use Rattle.row_view.specs.Writing.{put_at};
ghost use Rattle.task_group.specs.Rows.{HasPlace};

use super::Groups;
use crate::between::{fit_scopes, have_groups};
use crate::counts::{enter, push_counts, push_none};
use crate::flags::note_retry;
use crate::image_rows::{
    can_retry, group_copy, is_fresh, lost_groups, put_groups, put_tasks, task_copy,
};
use crate::work_rows::{is_running, push_group, push_task};
use row_view::{ImageHead, read_group, read_task};
use run_model::{Fault, Group, Layout, MOST_GROUPS, Scope, Task};
use std::alloc::Allocator;

impl<A: Allocator> Groups<A> {
    /// Writes the rows of the groups at a place, and after them those of the tasks, both in the
    /// order of their numbers and in version 2. Returns the place after them. The row of a group
    /// has at most 103 bytes, and that of a task 136. Takes no memory.
    pub fn write_rows(&self, out: &mut [u8], at: usize) -> usize
        requires room { at + 103 * length self.now.groups + 136 * length self.now.tasks
            ≤ length out.old }
        ensures end { result ≡ at + length (flat_map group_bytes self.now.groups
            ++ flat_map (task_bytes Two) self.now.tasks) }
        ensures written { out.new ≡ put_at out.old at (flat_map group_bytes self.now.groups
            ++ flat_map (task_bytes Two) self.now.tasks) }
        ensures kept_groups { AllByRecursion (λ row. IsTrue (is_kept_group row)) self.now.groups }
        ensures kept_tasks { AllByRecursion (λ row. IsTrue (is_kept_task Two row)) self.now.tasks }
        ensures most { result ≤ at + 103 * length self.now.groups + 136 * length self.now.tasks }
    {
        let end = put_groups(&self.groups, out, at);
        put_tasks(&self.tasks, out, end)
    }

    /// Returns the groups and tasks with whose rows these bytes begin, and the bytes after them.
    /// The bytes come after the scopes of an image. `self` has no group or task yet, and is filled
    /// with the rows. `BadImage` exactly if the bytes don't begin with as many rows as the head
    /// says, or if these don't keep the rules of the work. Takes no memory.
    pub fn read_rows<'a>(
        mut self,
        head: &ImageHead,
        bytes: &'a [u8],
    ) -> Result<(Groups<A>, &'a [u8]), Fault>
        requires new { self ≡ new_work self.layout }
        ensures read { IfOk result (λ x.
            AreWorkRows self.layout head.now bytes.now x.0 x.1.now) }
        ensures none { IfErr result (λ _. (w : WorkState) (rest : List ℕ) →
            AreWorkRows self.layout head.now bytes.now w rest → ⊥) }
        ensures fault { IfErr result (λ fault. fault ≡ BadImage) }
    {
        match self.read_work(head, bytes) {
            Some(rest) => Ok((self, rest)),
            None => {
                drop(self);
                Err(Fault::BadImage)
            }
        }
    }

    /// Returns whether these scopes and the groups fit together. The scope of each group has to
    /// exist. If a group isn't bare, its scope has kind Group and the group's name, and is hit if
    /// the group has an error or was waited for. Each scope of kind Group belongs to such a group.
    pub fn fits(&self, scopes: &[Scope]) -> bool
        ensures { result ≡ fits_between scopes.now self.now.groups }
    {
        fit_scopes(&self.groups, scopes) && have_groups(scopes, &self.groups)
    }

    /// Fills these groups, which are new, with the rows, and returns the bytes after those. `None`
    /// if the bytes don't begin with rows that keep the rules.
    fn read_work<'a>(&mut self, head: &ImageHead, bytes: &'a [u8]) -> Option<&'a [u8]>
        requires { self.old ≡ new_work self.old.layout }
        ensures read { IfSome result (λ rest.
            AreWorkRows self.old.layout head.now bytes.now self.new rest.now) }
        ensures none { IfNone result ((w : WorkState) (rest : List ℕ) →
            AreWorkRows self.old.layout head.now bytes.now w rest → ⊥) }
    {
        if !has_room(self.layout(), head) {
            return None;
        }
        let Some(rest) = self.read_groups(head.groups, bytes) else {
            return None;
        };
        let Some(rest) = self.read_tasks(head, rest) else {
            return None;
        };
        if !self.are_settled() {
            return None;
        }
        Some(rest)
    }

    /// Reads `many` groups after the existing ones. `None` if the bytes don't begin with that many
    /// rows, or if a group has the name of one before it.
    fn read_groups<'a>(&mut self, many: u16, bytes: &'a [u8]) -> Option<&'a [u8]>
        requires room { length self.old.groups + many ≤ MOST_GROUPS }
        ensures read { IfSome result (λ rest.
            more_at group_row_at has_new_name many self.old.groups bytes.now
            ≡ Some (self.new.groups, rest.now)) }
        ensures none { IfNone result
            (more_at group_row_at has_new_name many self.old.groups bytes.now ≡ None) }
        ensures tasks { self.new.tasks ≡ self.old.tasks }
        ensures layout { self.new.layout ≡ self.old.layout }
    {
        let mut rest = bytes;
        for n in 0..many {
            let Some((view, behind)) = read_group(rest) else {
                return None;
            };
            if self.find(view.name).is_some() {
                return None;
            }
            self.take_group(group_copy(&view));
            rest = behind;
        }
        Some(rest)
    }

    /// Reads as many tasks as the head says. `None` if the bytes don't begin with that many rows,
    /// or if one of them can't come at its place.
    fn read_tasks<'a>(&mut self, head: &ImageHead, bytes: &'a [u8]) -> Option<&'a [u8]>
        requires room { length self.old.tasks + head.now.tasks ≤ most_tasks self.old.layout }
        ensures read { IfSome result (λ rest.
            more_at (task_at head.now.version) (can_come self.old.layout self.old.groups)
            head.now.tasks self.old.tasks bytes.now ≡ Some (self.new.tasks, rest.now)) }
        ensures none { IfNone result
            (more_at (task_at head.now.version) (can_come self.old.layout self.old.groups)
            head.now.tasks self.old.tasks bytes.now ≡ None) }
        ensures groups { self.new.groups ≡ self.old.groups }
        ensures layout { self.new.layout ≡ self.old.layout }
    {
        let mut rest = bytes;
        for n in 0..head.tasks {
            let Some((view, behind)) = read_task(rest, head.version) else {
                return None;
            };
            let row = task_copy(&view);
            if !self.can_come(&row) {
                return None;
            }
            self.take_task(row);
            rest = behind;
        }
        Some(rest)
    }

    /// Returns whether this task can come after the existing ones.
    fn can_come(&self, row: &Task) -> bool
        ensures { result ≡ can_come self.now.layout self.now.groups self.now.tasks row.now }
    {
        if self.group_count() <= row.group as usize {
            return false;
        }
        if is_running(&row.stage) && !self.admits_more(row.group) {
            return false;
        }
        self.is_linked(row)
    }

    /// Returns whether the task isn't a retry, or retries a task that it can retry and that no
    /// other task retries.
    fn is_linked(&self, row: &Task) -> bool
        ensures { result ≡ is_linked self.now.tasks row.now }
    {
        let Some(m) = row.retry_of else {
            return true;
        };
        match self.task_row(m) {
            Some(old) => can_retry(row, old) && !self.is_retried(m),
            None => false,
        }
    }

    /// Appends a group.
    fn take_group(&mut self, row: Group)
        requires { length self.old.groups < MOST_GROUPS }
        ensures { self.new ≡ record self.old { groups = self.old.groups ++ row ∷ [] } }
    {
        push_group(&mut self.groups, row);
        push_counts(&mut self.counts);
    }

    /// Appends a task, which must be able to come after the existing ones.
    fn take_task(&mut self, row: Task)
        requires come { can_come self.old.layout self.old.groups self.old.tasks row ≡ true }
        requires room { length self.old.tasks < most_tasks self.old.layout }
        ensures { self.new ≡ record self.old { tasks = self.old.tasks ++ row ∷ [] } }
    {
        if is_fresh(&row.stage) {
            self.take_fresh(row);
        } else if is_running(&row.stage) {
            self.take_running(row);
        } else {
            self.take_ended(row);
        }
    }

    /// Appends a running task, which the limit admits.
    fn take_running(&mut self, row: Task)
        requires running { is_running row.stage ≡ true }
        requires admitted { admits (limit_of self.old row.group)
            (unfinished_in row.group self.old.tasks) ≡ true }
        requires place { HasPlace self.old row }
        ensures { self.new ≡ record self.old { tasks = self.old.tasks ++ row ∷ [] } }
    {
        let n = self.tasks.len() as u16;
        let g = row.group as usize;
        enter(&mut self.counts, g, true, n);
        push_none(&mut self.next);
        note_retry(&mut self.retried, row.retry_of);
        self.running += 1;
        push_task(&mut self.tasks, row);
    }

    /// Appends a task that has ended, and so doesn't count against the limit.
    fn take_ended(&mut self, row: Task)
        requires ended { is_unfinished row.stage ≡ false }
        requires place { HasPlace self.old row }
        ensures { self.new ≡ record self.old { tasks = self.old.tasks ++ row ∷ [] } }
    {
        push_none(&mut self.next);
        note_retry(&mut self.retried, row.retry_of);
        push_task(&mut self.tasks, row);
    }

    /// Returns whether each group that was waited for has no unfinished task, and each group has an
    /// error exactly if a task of it ended in one.
    fn are_settled(&self) -> bool
        ensures { result ≡ each_passes (is_settled self.now) 0 self.now.groups }
    {
        let lost = lost_groups(&self.tasks);
        for g in 0..self.group_count() {
            if !self.is_settled(g, lost[g]) {
                return false;
            }
        }
        true
    }

    /// Returns the same for one group. `lost` says whether a task of it ended in an error.
    fn is_settled(&self, g: usize, lost: bool) -> bool
        requires known { g < length self.now.groups }
        requires lost { lost ≡ has_task_error self.now g }
        ensures { (row : GroupOf) → slice_get self.now.groups g ≡ Some row →
            result ≡ is_settled self.now g row }
    {
        let row = &self.groups[g];
        if row.waited && self.unfinished(g as u16) != 0 {
            return false;
        }
        row.error.is_some() == lost
    }
}

/// Returns whether as many groups and tasks as the head says fit into a store of this layout.
fn has_room(layout: Layout, head: &ImageHead) -> bool
    ensures { result ≡ has_work_room layout head.now }
{
    head.groups as usize <= MOST_GROUPS && head.tasks as usize <= layout.most_tasks()
}
