//! The calls that change groups and tasks. The precondition of a change is what its test checks.

ghost use Rattle.std.specs.Prelude.{◌≡◌, ◌<◌, ◌≤◌, ◌+◌, ◌++◌, false, fold, length, is_some, IsTrue};
ghost use Rattle.std.specs.Prelude.{◌==◌, ◌&&◌, ◌∷◌, [], true, Some, not, is_none};
ghost use Rattle.std.specs.Option.{IfSome, option_copied, option_to_list};
ghost use Rattle.run_model.specs.declared.bounds.TheConstants.{MOST_GROUPS};
ghost use Rattle.run_model.specs.declared.tasks.Phase.TheVariants.{Ready};
ghost use Rattle.run_model.specs.Allowed.{is_open, has_room};
ghost use Rattle.run_model.specs.Layouts.{most_tasks};
ghost use Rattle.run_model.specs.Step.{own_scope};
ghost use Rattle.run_model.specs.Tasks.{first_ready, is_fresh, is_unfinished, phase_of};
ghost use Rattle.run_model.specs.Tasks.{is_retried, running_tasks, has_stage, is_running};
ghost use Rattle.run_model.specs.Tasks.{is_interrupted, unfinished_in, admits, limit_of};
ghost use Rattle.run_model.specs.Texts.{IsName, IsText};
ghost use Rattle.run_model.specs.WorkChanges.{after_make, after_limit, after_go, after_retry};
ghost use Rattle.run_model.specs.WorkChanges.{after_start, after_end, after_wait, after_interrupt};
ghost use Rattle.run_model.specs.WorkChanges.{group_of_task, interruption, stage_of, error_of};
ghost use Rattle.run_model.specs.State.{group_named};
ghost use Rattle.task_group.specs.Admitting.{AdmitsOldest, phase_new};
ghost use Rattle.task_group.specs.Lasting.{EndsStay};
ghost use Rattle.task_group.specs.Outcomes.{outcome_with};
ghost use Rattle.task_group.specs.Restarting.{RestartsTasks};
ghost use Rattle.task_group.specs.Rows.{HasPlace, submitted};
ghost use Rattle.task_group.specs.Cancels.{cancels_by_end, cancels_by_restart};

use crate::counts::{enter, leave, link, push_counts};
use crate::flags::note_retry;
use crate::groups::Groups;
use crate::work_rows::{
    admits, end_in_group, interruption, push_group, push_task, set_row_limit, set_stage,
    set_waited, stage_with,
};
use arrayvec::ArrayVec;
use row_view::copies::name_copy;
use run_model::{Group, Limit, MOST_GROUPS, Name, Stage, Task};
use std::alloc::Allocator;

impl<A: Allocator> Groups<A> {
    /// Makes a group with this name, without a limit, and returns its number. Its tasks belong to
    /// this scope, which is the group's own unless the group is bare. [`Groups::check_make`] tests
    /// whether that is allowed.
    pub fn make(&mut self, name: &[u8], scope: u16, bare: bool) -> u16
        requires name { IsName name.now }
        requires accepted { IsTrue (is_none (group_named self.old name.now)
            && has_room MOST_GROUPS self.old.groups) }
        ensures number { result ≡ length self.old.groups }
        ensures after { self.new ≡ after_make name.now scope bare self.old }
        ensures stays { EndsStay self.old self.new }
    {
        let n = self.groups.len() as u16;
        push_group(
            &mut self.groups,
            Group {
                name: name_copy(name),
                scope,
                bare,
                limit: Limit::none(),
                waited: false,
                error: None,
            },
        );
        push_counts(&mut self.counts);
        n
    }

    /// Changes the limit of a group that has no unfinished task. [`Groups::check_limit`] tests
    /// whether that is allowed.
    pub fn set_limit(&mut self, group: u16, limit: Limit)
        requires accepted { IsTrue
            (is_open self.old group && (unfinished_in group self.old.tasks == 0)) }
        ensures after { self.new ≡ after_limit group limit self.old }
        ensures stays { EndsStay self.old self.new }
    {
        set_row_limit(&mut self.groups, group as usize, limit);
    }

    /// Submits a task, and returns its number. The task is ready if the limit admits one more, and
    /// otherwise held. [`Groups::check_go`] tests whether that is allowed.
    pub fn go(&mut self, group: u16, job: &[u8], argument: &[u8]) -> u16
        requires names { IsName job.now × IsName argument.now }
        requires accepted { IsTrue
            (is_open self.old group && has_room (most_tasks self.old.layout) self.old.tasks) }
        ensures number { result ≡ length self.old.tasks }
        ensures after { self.new ≡ after_go group job.now argument.now self.old }
        ensures phase { phase_of self.new result ≡ Some (phase_new self.old group) }
        ensures stays { EndsStay self.old self.new }
    {
        self.submit(group, name_copy(job), name_copy(argument), None)
    }

    /// Submits a task that is ready at once, and returns its number. [`Groups::check_try`] tests
    /// whether that is allowed.
    pub fn try_go(&mut self, group: u16, job: &[u8], argument: &[u8]) -> u16
        requires names { IsName job.now × IsName argument.now }
        requires accepted { IsTrue
            (is_open self.old group && has_room (most_tasks self.old.layout) self.old.tasks
            && admits (limit_of self.old group) (unfinished_in group self.old.tasks)) }
        ensures number { result ≡ length self.old.tasks }
        ensures after { self.new ≡ after_go group job.now argument.now self.old }
        ensures phase { phase_of self.new result ≡ Some Ready }
        ensures stays { EndsStay self.old self.new }
    {
        self.go(group, job, argument)
    }

    /// Submits an interrupted task again, with the same job and argument in the same group. Returns
    /// the number of the new task. [`Groups::check_retry`] tests whether that is allowed.
    pub fn retry(&mut self, task: u16) -> u16
        requires accepted { IsTrue (has_stage is_interrupted self.old task
            && not (is_retried self.old task) && is_open self.old (group_of_task self.old task)
            && has_room (most_tasks self.old.layout) self.old.tasks) }
        ensures number { result ≡ length self.old.tasks }
        ensures after { self.new ≡ after_retry task self.old }
        ensures phase { phase_of self.new result
            ≡ Some (phase_new self.old (group_of_task self.old task)) }
        ensures stays { EndsStay self.old self.new }
    {
        let row = &self.tasks[task as usize];
        let group = row.group;
        let job = row.job.copy();
        let argument = row.argument.copy();
        self.submit(group, job, argument, Some(task))
    }

    /// Starts the ready task with the lowest number, and returns that number.
    /// [`Groups::next_ready`] tests whether there is one. If it returns `None`, the caller refuses
    /// the start as `NothingReady`.
    pub fn start(&mut self) -> u16
        requires { IsTrue (is_some (first_ready self.old)) }
        ensures least { first_ready self.old ≡ Some result }
        ensures after { self.new ≡ after_start result self.old }
        ensures stays { EndsStay self.old self.new }
    {
        let Some(n) = self.ready.first() else {
            unreachable!();
        };
        self.ready.set(n, false);
        self.running += 1;
        set_stage(&mut self.tasks, n as usize, Stage::Running);
        n
    }

    /// Ends a running task with this error, or, if there is none, as a success. Then the oldest
    /// held task of its group is ready, if there is one. Returns the scope that the caller must
    /// cancel with the error as its cause. This is the group's own scope, if the error is the first
    /// one of a group that isn't bare. [`Groups::check_finish`] tests whether that is allowed.
    pub fn finish(&mut self, task: u16, error: Option<&[u8]>) -> Option<u16>
        requires error { IfSome error (λ e. IsText e.now) }
        requires running { IsTrue (has_stage is_running self.old task) }
        ensures cancels { result ≡ cancels_by_end task (option_copied error.entry) self.old }
        ensures after { self.new
            ≡ after_end task (stage_of (outcome_with (option_copied error.entry)))
            (error_of (outcome_with (option_copied error.entry))) self.old }
        ensures admits { AdmitsOldest self.old task self.new }
        ensures stays { EndsStay self.old self.new }
    {
        self.end(task, stage_with(error), error)
    }

    /// Waits for a group whose tasks have all finished. Returns the scope that the caller must
    /// cancel, without a cause. This is the group's own scope, unless the group is bare. A group is
    /// waited for only once. [`Groups::check_wait`] tests whether that is allowed.
    pub fn wait(&mut self, group: u16) -> Option<u16>
        requires accepted { IsTrue
            (is_open self.old group && (unfinished_in group self.old.tasks == 0)) }
        ensures cancels { result ≡ own_scope self.old group }
        ensures after { self.new ≡ after_wait group self.old }
        ensures stays { EndsStay self.old self.new }
    {
        let row = &self.groups[group as usize];
        let cancels = (!row.bare).then_some(row.scope);
        set_waited(&mut self.groups, group as usize);
        cancels
    }

    /// Interrupts the running tasks, in the order of their numbers. Returns the scopes that the
    /// caller must cancel with the cause [`interruption`]: those of the groups that aren't bare and
    /// have just got their first error, each once and in that order. After that no task runs, and
    /// the held tasks that the limits admit are ready. Takes no memory.
    pub fn restart(&mut self) -> ArrayVec<u16, MOST_GROUPS>
        ensures cancels { result.items ≡ cancels_by_restart self.old }
        ensures after { self.new ≡ fold after_interrupt self.old (running_tasks self.old) }
        ensures tasks { RestartsTasks self.old self.new }
        ensures stays { EndsStay self.old self.new }
    {
        let mut cancels = ArrayVec::new();
        let count = self.task_count();
        for n in 0..count {
            if self.is_running(n as u16) {
                let scope = self.interrupt(n as u16);
                note(&mut cancels, scope);
            }
        }
        cancels
    }

    /// Appends a task, which may be a retry of another one.
    fn submit(&mut self, group: u16, job: Name, argument: Name, tried: Option<u16>) -> u16
        requires open { IsTrue (is_open self.old group) }
        requires room { length self.old.tasks < most_tasks self.old.layout }
        requires known { IfSome tried (λ m. m < length self.old.tasks) }
        ensures number { result ≡ length self.old.tasks }
        ensures after { self.new ≡ submitted group job argument tried self.old }
        ensures phase { phase_of self.new result ≡ Some (phase_new self.old group) }
        ensures stays { EndsStay self.old self.new }
    {
        let n = self.tasks.len() as u16;
        self.take_fresh(Task::new(group, job, argument, tried));
        n
    }

    /// Appends a task that wasn't started. It is ready if the limit admits one more, and otherwise
    /// held.
    pub(crate) fn take_fresh(&mut self, row: Task)
        requires fresh { is_fresh row.stage ≡ true }
        requires place { HasPlace self.old row }
        ensures { self.new ≡ record self.old { tasks = self.old.tasks ++ row ∷ [] } }
    {
        let n = self.tasks.len() as u16;
        let g = row.group as usize;
        let counts = self.counts[g];
        let admitted = admits(self.groups[g].limit, counts.unfinished as usize);
        link(&mut self.next, admitted, counts, n);
        enter(&mut self.counts, g, admitted, n);
        note_retry(&mut self.retried, row.retry_of);
        self.ready.set(n, admitted);
        push_task(&mut self.tasks, row);
    }

    /// Ends a running task at this stage, with this error or none. Returns the scope that must be
    /// canceled.
    fn end(&mut self, task: u16, stage: Stage, error: Option<&[u8]>) -> Option<u16>
        requires error { IfSome error (λ e. IsText e.now) }
        requires running { IsTrue (has_stage is_running self.old task) }
        requires done { is_unfinished stage ≡ false }
        ensures cancels { result ≡ cancels_by_end task (option_copied error.entry) self.old }
        ensures after { self.new ≡ after_end task stage (option_copied error.entry) self.old }
        ensures admits { AdmitsOldest self.old task self.new }
        ensures stays { EndsStay self.old self.new }
        ensures groups { length self.new.groups ≤ MOST_GROUPS }
    {
        let n = task as usize;
        let group = self.tasks[n].group;
        let g = group as usize;
        set_stage(&mut self.tasks, n, stage);
        let scope = self.groups[g].scope;
        let first = end_in_group(&mut self.groups, g, error);
        let next = leave(&mut self.counts, &self.next, g);
        self.ready.put(next);
        self.running -= 1;
        first.then_some(scope)
    }

    /// Interrupts a running task, which is an error of its group. Returns the scope that must be
    /// canceled.
    fn interrupt(&mut self, task: u16) -> Option<u16>
        requires { IsTrue (has_stage is_running self.old task) }
        ensures cancels { result ≡ cancels_by_end task (Some interruption) self.old }
        ensures after { self.new ≡ after_interrupt self.old task }
        ensures groups { length self.new.groups ≤ MOST_GROUPS }
        ensures stays { EndsStay self.old self.new }
    {
        self.end(task, Stage::Interrupted, Some(interruption()))
    }
}

/// Adds a scope that must be canceled to the list, if there is one.
fn note(cancels: &mut ArrayVec<u16, MOST_GROUPS>, scope: Option<u16>)
    requires { length cancels.old.items + length (option_to_list scope) ≤ MOST_GROUPS }
    ensures { cancels.new.items ≡ cancels.old.items ++ option_to_list scope }
{
    if let Some(scope) = scope {
        cancels.push(scope);
    }
}
