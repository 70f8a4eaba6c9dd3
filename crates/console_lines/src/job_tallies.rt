//! [`Tallies`] counts tasks: one count for each job, in the order of the jobs' first tasks.

ghost use Rattle.std.specs.Prelude.{◌≡◌, ◌<◌, ◌++◌, ◌∷◌, [], Bool, List, length, map};
ghost use Rattle.std.specs.Prelude.{IfOk, None, OnOk, OnErr, Some, slice_get, unwrap_or};
ghost use Rattle.std.specs.String.{string_bytes};
ghost use Rattle.run_model.specs.declared.tasks.Task.{Task};
ghost use Rattle.run_model.specs.Tasks.{phase_by};
ghost use Rattle.console_lines.specs.Replies.{reply_lines};
ghost use Rattle.console_lines.specs.Tallies.{tallies_of};
ghost use Rattle.console_lines.specs.declared.line_replies.LineReply.TheVariants as printed;
ghost use Rattle.console_lines.specs.Counted.{MOST, counted_at, no_tasks, one_more, with_tally};

use crate::job_keys::JobKey;
use crate::tallies::{JobTally, TaskCounts};
use indexmap::IndexMap;
use run_model::{Name, Phase};
use std::alloc::{AllocError, Allocator};
use std::hash::{BuildHasherDefault, FoldHasher};
use std::marker::Model;

/// The tallies of tasks, one for each job, in the order of the jobs' first tasks. They take memory
/// for each job.
#[derive(Drop)]
pub struct Tallies<A: Allocator> {
    jobs: IndexMap<JobKey, TaskCounts, BuildHasherDefault<FoldHasher>, A>,
}

impl<A: Allocator> Model for Tallies<A> {
    ghost use Rattle.std.specs.Prelude.{List, map};
    ghost use Rattle.console_lines.specs.declared.tallies.JobTally.{JobTally};
    ghost use Rattle.console_lines.specs.Counted.{shown};

    ghost Value = { List JobTally };

    ghost view = { λ t. map shown t.jobs.entries };
}

impl<A: Allocator + Copy> Tallies<A> {
    /// Returns the tallies of no task.
    pub fn new(alloc: A) -> Tallies<A>
        ensures { result ≡ tallies_of [] }
    {
        Tallies {
            jobs: IndexMap::new(alloc),
        }
    }

    /// Counts one more task, which has this job and is in this phase. A count stays at 65,535. An
    /// error means that memory was refused for a job of which no task was counted yet; then nothing
    /// is counted.
    pub fn add(&mut self, job: &Name, phase: &Phase) -> Result<(), AllocError>
        ensures added { (tasks : List Task) (task : Task) (admitted : Bool)
            → self.old ≡ tallies_of tasks
            → length tasks < MOST
            → task.job ≡ job.now
            → phase_by admitted task.stage ≡ phase.now
            → OnOk result (self.new ≡ tallies_of (tasks ++ task ∷ [])) }
        ensures counted { OnOk result (self.new ≡ with_tally job.now
            (one_more phase.now (unwrap_or (counted_at job.now self.old) no_tasks)) self.old) }
        ensures refused { OnErr result (self.new ≡ self.old) }
        ensures absent { OnErr result (counted_at job.now self.old ≡ None) }
    {
        let job = JobKey { name: job.copy() };
        let counts = with_task(self.counted(&job), phase);
        self.put(job, counts)
    }

    /// Returns the lines that a tally of the tasks prints, each with its LF. An error means that
    /// memory was refused, which is possible only if a task was counted.
    pub fn to_lines<B: Allocator + Copy>(&self, alloc: B) -> Result<String<B>, AllocError>
        ensures lines { IfOk result (λ lines.
            string_bytes lines ≡ reply_lines (map printed.Tally self.now)) }
        ensures some { OnErr result (0 < length self.now) }
    {
        let mut lines = String::new(alloc);
        for i in 0..self.len() {
            let line = self.tally(i).to_line(alloc)?;
            lines.push_str(line.as_str())?;
        }
        Ok(lines)
    }

    /// Returns the counts of a job so far.
    fn counted(&self, job: &JobKey) -> TaskCounts
        ensures { result ≡ unwrap_or (counted_at job.now.name self.now) no_tasks }
    {
        match self.jobs.get(job) {
            Some(counts) => *counts,
            None => NO_TASKS,
        }
    }

    /// Sets the counts of a job. If the memory for a new job is refused, nothing changes.
    #[tactic(auto, using(crate::proofs::Tallying::put_in))]
    fn put(&mut self, job: JobKey, counts: TaskCounts) -> Result<(), AllocError>
        ensures put { OnOk result (self.new ≡ with_tally job.name counts self.old) }
        ensures refused { OnErr result (self.new ≡ self.old) }
        ensures absent { OnErr result (counted_at job.name self.old ≡ None) }
    {
        self.jobs.insert(job, counts)?;
        Ok(())
    }

    /// Returns the number of jobs.
    fn len(&self) -> usize
        ensures { result ≡ length self.now }
    {
        self.jobs.len()
    }

    /// Returns the tally at this place.
    fn tally(&self, i: usize) -> JobTally
        requires { i < length self.now }
        ensures { slice_get self.now i ≡ Some result }
    {
        let (job, counts) = self.jobs.get_index(i).unwrap();
        JobTally {
            job: job.name.copy(),
            counts: *counts,
        }
    }
}

/// The counts of no task.
const NO_TASKS: TaskCounts = TaskCounts {
    total: 0,
    success: 0,
    failure: 0,
    interrupted: 0,
};

/// Returns the counts with one more task.
fn with_task(counts: TaskCounts, phase: &Phase) -> TaskCounts
    ensures { result ≡ one_more phase.now counts }
{
    let mut counts = counts;
    counts.total = counts.total.saturating_add(1);
    match phase {
        Phase::Success => counts.success = counts.success.saturating_add(1),
        Phase::Failure(_) => counts.failure = counts.failure.saturating_add(1),
        Phase::Interrupted => counts.interrupted = counts.interrupted.saturating_add(1),
        Phase::Held | Phase::Ready | Phase::Running => {}
    }
    counts
}
