//! [`FlusherCalls`] lists the calls that the flusher makes: it waits for the signal, and flushes.

ghost use Rattle.std.specs.Prelude.{◌≡◌, ◌<◌, ◌≤◌, ⊤, IfOk, IfSome};
ghost use Rattle.run_crew.specs.Courses.{Call, IsAnswered, IsFlusherRun, Went};
ghost use Rattle.run_crew.specs.Courses as call;

use crate::arrivals::Arrivals;
use crate::flush_signals::FlushSignal;
use crate::places::Place;
use crate::saves::save;
use run_model::Trouble;
use std::sync::{Mutex, Wait};

/// The calls of the flusher.
pub trait FlusherCalls {
    /// What a call may do, as a relation between the state before it, the call with its answer, and
    /// the state after it.
    ghost step: { Self → Call → Self → Type 0 };

    /// Waits until the flusher was woken for a later event than `heard`, and returns that event;
    /// `None` if the signal is closed.
    fn wait(&mut self, heard: u64) -> Option<u64>
        ensures step { step self.old (call.Wait heard result) self.new }
        ensures later { IfSome result (λ event. heard < event) };

    /// Waits until all events up to this one are durable, whichever thread flushes, and returns the
    /// number of durable events.
    fn save(&mut self, event: u64) -> Result<u64, Trouble>
        ensures step { step self.old (call.Save event result) self.new }
        ensures reached { IfOk result (λ durable. event ≤ durable) };
}

/// Makes each event durable for which it is woken, until the signal is closed. It continues
/// after a refused flush.
pub fn save_wakes<W: FlusherCalls, R: Wait>(rt: &R, flusher: &mut W)
    ensures calls { Went W.step IsFlusherRun flusher.old flusher.new }
{
    let mut heard = 0;
    for _ in rt.forever() {
        let Some(event) = flusher.wait(heard) else {
            return;
        };
        heard = event;
        let _ = flusher.save(event);
    }
    unreachable!()
}

/// The calls of a flusher in a crew. They go to the signal, and to the value under the lock, which
/// is released after each call.
#[derive(Drop)]
pub struct ThreadFlusher<'a, T, R> {
    pub rt: &'a R,
    pub shared: &'a Mutex<T>,
    pub arrivals: &'a Arrivals,
    pub signal: &'a FlushSignal,
}

impl<'a, T: Place, R: Wait> FlusherCalls for ThreadFlusher<'a, T, R> {
    ghost step = { λ _ call _. IsAnswered (λ _ _ _. ⊤) T.holds T.flushes (λ _ _ _. ⊤)
        (λ _ _ _ _ _. ⊤) (λ _ _ _. ⊤) (λ _. ⊤) call };

    fn wait(&mut self, heard: u64) -> Option<u64> {
        self.signal.wait(self.rt, heard)
    }

    fn save(&mut self, event: u64) -> Result<u64, Trouble> {
        self.arrivals.come(self.rt);
        save(self.rt, self.shared, self.arrivals, event)
    }
}
