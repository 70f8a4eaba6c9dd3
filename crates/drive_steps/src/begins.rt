//! The choice of the commands that begin in a round, and the steps in which they begin.

ghost use Rattle.std.specs.Prelude.{◌≡◌, IfOk, length, true};
ghost use Rattle.night_plan.specs.Choices.{GoesOn, HasCapacity, IsChoice, IsQuiet};
ghost use Rattle.night_drive.specs.Distinct.{AreDistinct};
ghost use Rattle.night_drive.specs.PlanTurns.{night_in};
ghost use Rattle.night_drive.specs.Seen.{AreNames};
ghost use Rattle.drive_steps.specs.Rooms.{are_housed};
ghost use Rattle.drive_steps.specs.Starts.{row_of};

use crate::starts::row_of;
use night_drive::ends::Ends;
use night_drive::guessed::seen_with;
use night_drive::guesses::Guesses;
use night_drive::names::Names;
use night_plan::choices::{Choice, choose};
use night_plan::commands::Plan;
use run_model::Step;
use run_session::State;
use std::alloc::{AllocError, Allocator, Global};

/// The commands that begin in a round, and the steps in which they do.
#[derive(Drop)]
pub struct Row {
    /// The commands, and the moment at which to ask again if nothing ends before.
    pub choice: Choice,
    /// For each command its next task and the start of that, and at the end a flush.
    pub steps: Vec<Step>,
}

/// Chooses which commands begin now, by the rows of a store, and returns the steps in which they
/// begin. The state is the one after the ends of the round, and its clock shows the time of the
/// round. So a group whose deadline comes in this round is done already. The guesses make this
/// faster, and nothing else.
pub fn begins<A: Allocator>(
    alloc: Global,
    state: &State<A>,
    ends: &Ends,
    plan: &Plan,
    names: &Names,
    guesses: &mut Guesses,
    sizes: &[u32],
) -> Result<Row, AllocError>
    requires named { AreNames plan.now names.now }
    requires distinct { AreDistinct plan.now names.now }
    requires housed { are_housed state.now names.now ≡ true }
    requires sized { length sizes.now ≡ length plan.now.pools.items }
    ensures chosen { IfOk result (λ row. IsChoice (night_in state.now ends.now plan.now names.now)
        state.now.tree.clock sizes.now row.choice) }
    ensures steps { IfOk result (λ row. row.steps.items ≡ row_of state.now names.now
        plan.now.commands.items row.choice.commands.items) }
    ensures moving { IfOk result (λ row.
        HasCapacity (night_in state.now ends.now plan.now names.now) sizes.now
        → IsQuiet (night_in state.now ends.now plan.now names.now)
        → GoesOn (night_in state.now ends.now plan.now names.now) state.now.tree.clock row.choice) }
{
    let mut facts = seen_with(alloc, state, ends, plan, names, guesses)?;
    let own = Vec::from_slice(alloc, sizes)?;
    facts.sizes = own;
    let choice = choose(alloc, plan, &facts, state.clock().get())?;
    let steps = row_of(alloc, state, plan, names, choice.commands.as_slice())?;
    Ok(Row { choice, steps })
}
