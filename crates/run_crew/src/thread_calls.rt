//! [`ThreadCalls`] are the [`WorkerCalls`] of a worker that runs in a thread of a crew.

ghost use Rattle.std.specs.Prelude.{◌≡◌, vec_len};
ghost use Rattle.run_crew.specs.Courses.{IsAnswered, StepsJobs};

use crate::arrivals::Arrivals;
use crate::flush_signals::FlushSignal;
use crate::jobs::{Gate, Job, Turn};
use crate::own_counts::OwnCounts;
use crate::places::CountedPlace;
use crate::saves::save;
use crate::worker_calls::WorkerCalls;
use run_model::{Name, Outcome, Refusal, Started, TaskInfo, Trouble};
use std::sync::ledger::Ledger;
use std::sync::{Mutex, Wait};

/// The calls of a worker in a thread. Each goes to the value under the lock, which is released
/// after it, to the gate, which stays the same, to one of the worker's own jobs, or to the signal
/// of the flusher.
#[derive(Drop)]
pub struct ThreadCalls<'a, T, G, R, J> {
    pub rt: &'a R,
    pub shared: &'a Mutex<T>,
    pub arrivals: &'a Arrivals,
    pub signal: &'a FlushSignal,
    pub gate: &'a G,
    pub jobs: Vec<J>,
}

impl<'a, S: Ledger, F: Ledger, T: CountedPlace<S, F>, G: Gate, R: Wait, J: Job> WorkerCalls<S, F>
    for ThreadCalls<'a, T, G, R, J> {
    ghost step = { λ from call to. (to.gate.now ≡ from.gate.now)
        × IsAnswered T.starts T.holds T.flushes T.reports T.finishes
        (G.lets from.gate.now) (G.reported from.gate.now) call
        × StepsJobs J.answers J.turns from.jobs.items call to.jobs.items };

    ghost jobs = { λ place. vec_len place.jobs };

    fn jobs(&self) -> usize {
        self.jobs.len()
    }

    fn start(&mut self, own: &mut OwnCounts<S, F>) -> Result<Started, Refusal> {
        self.arrivals.come(self.rt);
        let mut place = self.shared.lock(self.rt);
        let started = place.start_as(own);
        if started.is_err() {
            self.arrivals.go(self.rt);
        }
        started
    }

    fn save(&mut self, event: u64) -> Result<u64, Trouble> {
        save(self.rt, self.shared, self.arrivals, event)
    }

    fn handles(&mut self, job: usize, name: &Name) -> bool {
        self.jobs[job].handles(name)
    }

    fn may_turn(&mut self, task: u16, turn: u32) -> bool {
        self.gate.before(task, turn)
    }

    fn is_done(&mut self, task: u16) -> bool {
        self.shared.lock(self.rt).is_done(task)
    }

    fn turn(&mut self, job: usize, info: &TaskInfo, turn: u32, done: bool) -> Turn {
        self.jobs[job].turn(info, turn, done)
    }

    fn finish(
        &mut self,
        own: &mut OwnCounts<S, F>,
        task: u16,
        outcome: &Outcome,
    ) -> Result<u64, Refusal> {
        self.arrivals.come(self.rt);
        let mut place = self.shared.lock(self.rt);
        let finished = place.finish_as(own, task, outcome);
        self.arrivals.go(self.rt);
        finished
    }

    fn report(&mut self, task: u16) {
        self.gate.finished(task);
    }

    fn wake(&mut self, event: u64) {
        self.signal.wake(self.rt, event);
    }
}
