//! A worker takes tasks and runs them, one after another, until none is ready. It begins with a
//! [`WorkerStart`], and leaves a [`WorkerEnd`].

ghost use Rattle.std.specs.Prelude.{◌≡◌, ◌+◌, ◌≤◌, [], length};
ghost use Rattle.run_crew.specs.Courses.{IsAnswered, IsOfShift};
ghost use Rattle.run_crew.specs.OwnCounts.{one_part};

use crate::arrivals::Arrivals;
use crate::courses::take_tasks;
use crate::flush_signals::FlushSignal;
use crate::jobs::{Gate, Job};
use crate::notes::WorkerNotes;
use crate::own_counts::OwnCounts;
use crate::places::CountedPlace;
use crate::thread_calls::ThreadCalls;
use std::marker::PhantomData;
use std::snapshot::Snapshot;
use std::sync::ledger::Ledger;
use std::sync::{Mutex, Wait};
use std::thread::Promise;

/// What a worker begins with: jobs, one part of each share, and no notes.
#[derive(Drop)]
pub struct WorkerStart<S: Ledger, F: Ledger, J> {
    pub jobs: Vec<J>,
    own: OwnCounts<S, F>,
    notes: WorkerNotes,
    ghost has_start_part: { own.start_parts ≡ 1 },
    ghost has_finish_part: { own.finish_parts ≡ 1 },
    ghost no_starts: { own.starts ≡ 0 },
    ghost no_finishes: { own.finishes ≡ 0 },
    ghost no_notes: { length notes ≡ 0 },
}

/// What a worker leaves: its part of each share, with one finish for each note, and as many starts
/// or one more.
#[derive(Drop)]
pub struct WorkerEnd<S: Ledger, F: Ledger> {
    pub own: OwnCounts<S, F>,
    pub notes: WorkerNotes,
    pub ghost has_start_part: { own.start_parts ≡ 1 },
    pub ghost has_finish_part: { own.finish_parts ≡ 1 },
    pub ghost each_is_noted: { own.finishes ≡ length notes },
    pub ghost each_was_started: { length notes ≤ own.starts },
    pub ghost one_more_at_most: { own.starts ≤ length notes + 1 },
}

/// Promises that a worker leaves the notes of a shift with these jobs, at this gate and at a lock
/// over a value of this type.
#[derive(Drop)]
pub struct ShiftOf<'a, T, G, J> {
    pub gate: &'a G,
    pub jobs: Snapshot<Vec<J>>,
    pub place: PhantomData<T>,
}

impl<'a, S: Ledger, F: Ledger, T: CountedPlace<S, F>, G: Gate, J: Job> Promise<WorkerEnd<S, F>>
    for ShiftOf<'a, T, G, J> {
    ghost kept_by = { λ p end. IsOfShift (IsAnswered T.starts T.holds T.flushes T.reports
        T.finishes (G.lets p.gate.now) (G.reported p.gate.now)) J.answers J.turns
        p.jobs.value.items end.notes end.own.starts };
}

impl<S: Ledger, F: Ledger, J: Job> WorkerStart<S, F, J> {
    /// Returns what a worker with these jobs begins with.
    pub fn new(jobs: Vec<J>, own: OwnCounts<S, F>, notes: WorkerNotes) -> WorkerStart<S, F, J>
        requires own { own ≡ one_part }
        requires notes { notes ≡ [] }
        ensures jobs { result.jobs ≡ jobs }
    {
        WorkerStart { jobs, own, notes }
    }

    /// Takes tasks until one of them isn't finished and noted, for example because no task is
    /// ready.
    pub fn work<T: CountedPlace<S, F>, G: Gate, R: Wait>(
        self,
        rt: &R,
        shared: &Mutex<T>,
        arrivals: &Arrivals,
        signal: &FlushSignal,
        gate: &G,
    ) -> WorkerEnd<S, F>
        ensures { IsOfShift (IsAnswered T.starts T.holds T.flushes T.reports T.finishes
            (G.lets gate.now) (G.reported gate.now)) J.answers J.turns self.jobs.items
            result.notes result.own.starts }
    {
        let WorkerStart {
            jobs,
            mut own,
            mut notes,
        } = self;
        let mut place = ThreadCalls {
            rt,
            shared,
            arrivals,
            signal,
            gate,
            jobs,
        };
        take_tasks(rt, &mut place, &mut own, &mut notes);
        WorkerEnd { own, notes }
    }
}
