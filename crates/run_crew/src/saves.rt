//! A thread makes an event durable by a flush of its own, or by the flush of another thread.

ghost use Rattle.std.specs.Prelude.{◌≤◌, IfOk};
ghost use Rattle.run_crew.specs.Courses.{IsReported};

use crate::arrivals::Arrivals;
use crate::places::Place;
use run_model::Trouble;
use std::sync::{Mutex, Wait};

/// Makes all events up to this one durable, and returns the number of durable events. The last
/// thread on its way to the lock flushes, while the others sleep. So one flush includes what all of
/// them did. If a flush fails, its trouble is returned. The calling thread must have called
/// `Arrivals::come`, and has left when this returns.
pub fn save<T: Place, R: Wait>(
    rt: &R,
    shared: &Mutex<T>,
    arrivals: &Arrivals,
    event: u64,
) -> Result<u64, Trouble>
    ensures reached { IfOk result (λ durable. event ≤ durable) }
    ensures reported { IsReported T.holds T.flushes result }
{
    let mut place = shared.lock(rt);
    for _ in rt.forever() {
        let durable = place.durable();
        if event <= durable {
            arrivals.go(rt);
            return Ok(durable);
        }
        if !arrivals.is_last(rt) {
            place = arrivals.sleep(rt, place);
            continue;
        }
        let flushed = place.flush();
        arrivals.wake(rt, &place);
        if let Err(trouble) = flushed {
            arrivals.go(rt);
            return Err(trouble);
        }
    }
    unreachable!()
}
