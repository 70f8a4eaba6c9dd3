//! A run over a desk: one worker for each list of jobs, and one more thread that flushes.

ghost use Rattle.std.specs.Prelude.{◌≡◌, ◌⊎◌, ◌+◌, ◌-◌, ◌<◌, ◌≤◌, [], All, map, sum_by, vec_len};
ghost use Rattle.std.specs.Prelude.{vec_capacity};
ghost use Rattle.std.specs.Prelude.{IfOk, IfErr, OnOk};
ghost use Rattle.run_model.specs.declared.faults.Fault.TheVariants.{Memory};
ghost use Rattle.std.specs.List.{AllZip};
ghost use Rattle.run_crew.specs.Courses.{IsAnswered, IsOfShift};
ghost use Rattle.run_crew.specs.Nights.{AreShifts, FlushesNight, OfDesk};
ghost use Rattle.run_crew.specs.Notes.{noted};
ghost use Rattle.run_crew.specs.OwnCounts.{CountsNight, CountsSame, GivesParts, JoinsShifts};

use crate::arrivals::Arrivals;
use crate::desks::Desk;
use crate::flush_signals::FlushSignal;
use crate::flusher_calls::{ThreadFlusher, save_wakes};
use crate::jobs::{Gate, Job};
use crate::notes::WorkerNotes;
use crate::openings::Opening;
use crate::own_counts::OwnCounts;
use crate::places::{CountedPlace, Place};
use crate::workers::{ShiftOf, WorkerEnd, WorkerStart};
use run_disk::RunDisk;
use run_model::{Fault, Trouble};
use std::alloc::{AllocError, Global};
use std::marker::PhantomData;
use std::snapshot::Snapshot;
use std::sync::ledger::Ledger;
use std::sync::{Mutex, Wait};
use std::thread;
use std::thread::{PromisedHandle, Scope, Threads};

/// Runs the ready tasks of the book under the lock, by one thread for each list of jobs, and then
/// flushes. The counts must have one part for each list, and one more for the thread that makes
/// finishes durable. Returns the notes of the workers, in the order of the lists, and the result of
/// the last flush.
///
/// Each worker repeats these steps: it starts the ready task with the lowest number, makes the
/// start durable, makes the turns by the first of its jobs that handles the task, finishes the
/// task, and notes the finish. It ends when no task is ready, when a start, a flush of a start or a
/// finish is refused, or when its notes are full. One more thread makes the finishes durable. A
/// flush includes everything that is under way, so starts share flushes. No lock is held while a
/// job or the gate runs.
///
/// `Memory` if memory or the start of a thread was refused. Even then every thread that was started
/// has been joined; the counts may lack some parts.
pub fn run_night<
    D: RunDisk + Send,
    S: Ledger + Send + Sync,
    F: Ledger + Send + Sync,
    O: Opening + Send + Sync,
    G: Gate + Sync,
    R: Threads + Wait + Sync,
>(
    rt: &R,
    alloc: Global,
    shared: &Mutex<Desk<D, S, F, O>>,
    own: &mut OwnCounts<S, F>,
    jobs: Vec<Vec<Box<dyn Job + Send>>>,
    gate: &G,
) -> Result<(Vec<WorkerNotes>, Result<u64, Trouble>), Fault>
    requires start_parts { vec_len jobs < own.old.start_parts }
    requires finish_parts { vec_len jobs < own.old.finish_parts }
    ensures workers { IfOk result (λ r. vec_len r.0 ≡ vec_len jobs) }
    ensures own { IfOk result (λ r.
        CountsNight (vec_len jobs) (noted r.0.items) own.old own.new) }
    ensures shifts { IfOk result (λ r.
        AreShifts (OfDesk D.state O.opening (G.lets gate.now) (G.reported gate.now))
        ⟦<Box<dyn Job + Send> as Job>⟧.answers ⟦<Box<dyn Job + Send> as Job>⟧.turns
        (λ list. list.items) jobs.items r.0.items (own.new.starts - own.old.starts)) }
    ensures flushed { IfOk result (λ r. FlushesNight D.state O.opening own.new r.1) }
    ensures fault { IfErr result (λ fault. fault ≡ Memory) }
{
    let lists = run_shifts(rt, alloc, shared, own, jobs, gate);
    let last = shared.lock(rt).flush_as(own);
    Ok((lists?, last))
}

/// Does the same as [`run_night`], without the last flush.
pub fn run_shifts<
    T: CountedPlace<S, F> + Send,
    S: Ledger + Send + Sync,
    F: Ledger + Send + Sync,
    G: Gate + Sync,
    J: Job + Send,
    R: Threads + Wait + Sync,
>(
    rt: &R,
    alloc: Global,
    shared: &Mutex<T>,
    own: &mut OwnCounts<S, F>,
    jobs: Vec<Vec<J>>,
    gate: &G,
) -> Result<Vec<WorkerNotes>, Fault>
    requires start_parts { vec_len jobs < own.old.start_parts }
    requires finish_parts { vec_len jobs < own.old.finish_parts }
    ensures workers { IfOk result (λ lists. vec_len lists ≡ vec_len jobs) }
    ensures own { IfOk result (λ lists.
        CountsNight (vec_len jobs) (noted lists.items) own.old own.new) }
    ensures shifts { IfOk result (λ lists. AreShifts
        (IsAnswered T.starts T.holds T.flushes T.reports T.finishes
        (G.lets gate.now) (G.reported gate.now)) J.answers J.turns (λ list. list.items)
        jobs.items lists.items (own.new.starts - own.old.starts)) }
    ensures fault { IfErr result (λ fault. fault ≡ Memory) }
{
    let Ok(mut notes) = Vec::with_capacity(alloc, jobs.len()) else {
        return Err(Fault::Memory);
    };
    let Ok(workers) = workers_of(alloc, own, jobs) else {
        return Err(Fault::Memory);
    };
    let Ok(shifts) = shifts_of(rt, alloc, shared, workers, gate) else {
        return Err(Fault::Memory);
    };
    gather(own, shifts, &mut notes);
    Ok(notes)
}

/// Returns what each worker begins with: its list of jobs, and one part of the counts.
fn workers_of<S: Ledger, F: Ledger, J: Job>(
    alloc: Global,
    own: &mut OwnCounts<S, F>,
    jobs: Vec<Vec<J>>,
) -> Result<Vec<WorkerStart<S, F, J>>, Fault>
    requires start_parts { vec_len jobs < own.old.start_parts }
    requires finish_parts { vec_len jobs < own.old.finish_parts }
    ensures len { IfOk result (λ v. vec_len v ≡ vec_len jobs) }
    ensures jobs { IfOk result (λ v. map (λ worker. worker.jobs) v.items ≡ jobs.items) }
    ensures parts { OnOk result (GivesParts (vec_len jobs) own.old own.new) }
    ensures counts { CountsSame own.old own.new }
    ensures fault { IfErr result (λ fault. fault ≡ Memory) }
{
    let Ok(mut workers) = Vec::with_capacity(alloc, jobs.len()) else {
        return Err(Fault::Memory);
    };
    for list in jobs {
        let notes = WorkerNotes::with_room(alloc)?;
        workers.push_reserved(WorkerStart::new(list, own.split_one(), notes));
    }
    Ok(workers)
}

/// Returns what the workers leave. Each runs in a thread of its own, next to a thread that flushes.
/// All memory is taken before the first thread is started, and every thread is joined.
fn shifts_of<
    T: CountedPlace<S, F> + Send,
    S: Ledger + Send + Sync,
    F: Ledger + Send + Sync,
    G: Gate + Sync,
    J: Job + Send,
    R: Threads + Wait + Sync,
>(
    rt: &R,
    alloc: Global,
    shared: &Mutex<T>,
    workers: Vec<WorkerStart<S, F, J>>,
    gate: &G,
) -> Result<Vec<WorkerEnd<S, F>>, AllocError>
    ensures len { IfOk result (λ v. vec_len v ≡ vec_len workers) }
    ensures shifts { IfOk result (λ v. AllZip (λ worker end. IsOfShift
        (IsAnswered T.starts T.holds T.flushes T.reports T.finishes
        (G.lets gate.now) (G.reported gate.now)) J.answers J.turns worker.jobs.items end.notes
        end.own.starts) workers.items v.items) }
{
    let count = workers.len();
    let mut handles = Vec::with_capacity(alloc, count)?;
    let shifts = Vec::with_capacity(alloc, count)?;
    let signal = FlushSignal::new();
    let signal = &signal;
    let arrivals = Arrivals::new();
    let arrivals = &arrivals;
    thread::scope(
        thread::scope_env(),
        rt,
        |scope| -> Result<Vec<WorkerEnd<S, F>>, AllocError>
            requires workers { vec_len workers ≡ count }
            requires handles { (vec_len handles ≡ 0) × (count ≤ vec_capacity handles) }
            requires shifts { (vec_len shifts ≡ 0) × (count ≤ vec_capacity shifts) }
            ensures len { IfOk result (λ v. vec_len v ≡ count) }
            ensures shifts { IfOk result (λ v. AllZip (λ worker end. IsOfShift
                (IsAnswered T.starts T.holds T.flushes T.reports T.finishes
                (G.lets gate.entry.now) (G.reported gate.entry.now)) J.answers J.turns
                worker.jobs.items end.notes end.own.starts) workers.items v.items) }
        {
            let flusher = scope.spawn(move || save_at(rt, shared, arrivals, signal))?;
            start_each(
                scope,
                rt,
                shared,
                arrivals,
                signal,
                gate,
                workers,
                &mut handles,
            );
            let left = joined(rt, gate, handles, shifts, count);
            signal.close(rt);
            flusher.join(rt);
            left
        },
    )
}

/// Starts a thread for each worker.
fn start_each<
    'g: 's,
    's,
    E: 's,
    T: CountedPlace<S, F> + Send + 's,
    S: Ledger + Send + Sync + 's,
    F: Ledger + Send + Sync + 's,
    G: Gate + Sync + 's,
    J: Job + Send + 's,
    R: Threads + Wait + Sync + 's,
>(
    scope: &Scope<'s, E>,
    rt: &'s R,
    shared: &'s Mutex<T>,
    arrivals: &'s Arrivals,
    signal: &'s FlushSignal,
    gate: &'g G,
    workers: Vec<WorkerStart<S, F, J>>,
    handles: &mut Vec<PromisedHandle<WorkerEnd<S, F>, ShiftOf<'g, T, G, J>>>,
)
    requires empty { vec_len handles.old ≡ 0 }
    requires room { vec_len workers ≤ vec_capacity handles.old }
    ensures few { vec_len handles.new ≤ vec_len workers }
    ensures gate { All (λ h. h.promise.gate.now ≡ gate.now) handles.new.items }
    ensures jobs { (vec_len handles.new < vec_len workers)
        ⊎ (map (λ h. h.promise.jobs.value) handles.new.items
        ≡ map (λ worker. worker.jobs) workers.items) }
{
    for worker in workers {
        let promise = ShiftOf {
            gate,
            jobs: Snapshot::of(&worker.jobs),
            place: PhantomData::<T>,
        };
        match scope.spawn_with(
            promise,
            move || -> WorkerEnd<S, F>
                ensures { IsOfShift (IsAnswered T.starts T.holds T.flushes T.reports T.finishes
                    (G.lets gate.entry.now) (G.reported gate.entry.now)) J.answers J.turns
                    worker.jobs.items result.notes result.own.starts }
            { worker.work(rt, shared, arrivals, signal, gate) },
        ) {
            Ok(handle) => handles.push_reserved(handle),
            // a refused thread leaves no handle
            Err(_) => {}
        }
    }
}

/// Returns what the threads leave, if each of this many has left something.
fn joined<S: Ledger, F: Ledger, T: CountedPlace<S, F>, G: Gate, J: Job, R: Threads>(
    rt: &R,
    gate: &G,
    handles: Vec<PromisedHandle<WorkerEnd<S, F>, ShiftOf<'_, T, G, J>>>,
    mut shifts: Vec<WorkerEnd<S, F>>,
    count: usize,
) -> Result<Vec<WorkerEnd<S, F>>, AllocError>
    requires empty { vec_len shifts ≡ 0 }
    requires few { vec_len handles ≤ count }
    requires room { count ≤ vec_capacity shifts }
    requires gate { All (λ h. h.promise.gate.now ≡ gate.now) handles.items }
    ensures len { IfOk result (λ v. vec_len v ≡ count) }
    ensures shifts { IfOk result (λ v. AllZip (λ h end. IsOfShift
        (IsAnswered T.starts T.holds T.flushes T.reports T.finishes
        (G.lets gate.now) (G.reported gate.now)) J.answers J.turns h.promise.jobs.value.items
        end.notes end.own.starts) handles.entry.items v.items) }
{
    for handle in handles {
        shifts.push_reserved(handle.join(rt));
    }
    if shifts.len() < count {
        return Err(AllocError);
    }
    Ok(shifts)
}

/// Makes each event durable for which it is woken, until the signal is closed.
fn save_at<T: Place, R: Wait>(
    rt: &R,
    shared: &Mutex<T>,
    arrivals: &Arrivals,
    signal: &FlushSignal,
) {
    let mut flusher = ThreadFlusher {
        rt,
        shared,
        arrivals,
        signal,
    };
    save_wakes(rt, &mut flusher);
}

/// Takes the parts back, and moves the notes of the shifts into a list, which must have the
/// capacity.
fn gather<S: Ledger, F: Ledger>(
    own: &mut OwnCounts<S, F>,
    shifts: Vec<WorkerEnd<S, F>>,
    notes: &mut Vec<WorkerNotes>,
)
    requires empty { vec_len notes.old ≡ 0 }
    requires room { vec_len shifts ≤ vec_capacity notes.old }
    ensures len { vec_len notes.new ≡ vec_len shifts }
    ensures notes { notes.new.items ≡ map (λ shift. shift.notes) shifts.items }
    ensures own { JoinsShifts (vec_len notes.new) (noted notes.new.items) own.old own.new }
    ensures starts { own.new.starts
        ≡ own.old.starts + sum_by (λ shift. shift.own.starts) shifts.items }
{
    for shift in shifts {
        let WorkerEnd {
            own: part,
            notes: list,
        } = shift;
        own.join(part);
        notes.push_reserved(list);
    }
}
