//! Whether a store and its log have room for the commands that begin.

ghost use Rattle.std.specs.Prelude.{◌≡◌, ◌≤◌};
ghost use Rattle.drive_steps.specs.Fits.{RowsThatFitHaveRoom, fits};

use run_session::State;
use std::alloc::Allocator;

/// Returns whether this many commands can begin: whether the store has a row for each of their
/// tasks, and the log, which has this many bytes now, room for their records and for their ends.
pub fn fits<A: Allocator>(state: &State<A>, log: usize, many: usize) -> bool
    requires log { log ≤ 1048576 }
    requires many { many ≤ 65535 }
    ensures { result ≡ fits state.now log many }
{
    let tasks = state.task_count() + many;
    let bytes = log + 126 * many + 80 * state.running();
    tasks <= state.layout().most_tasks() && bytes <= 1_048_576
}

/// If commands fit, no step of the row in which they begin is refused for want of room in the store
/// or in its log. So it is known before anything is tried whether a store is full.
pub fn a_row_that_fits_has_room()
    ensures { RowsThatFitHaveRoom }
{}
