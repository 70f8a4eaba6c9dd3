//! Runs of events: they can be joined, they count their events, and they keep a state well formed.

ghost use Rattle.run_model.specs.declared.layouts.Layout.{Layout};
ghost use Rattle.run_model.specs.State.{State, formatted};
ghost use Rattle.run_model.specs.Rules.{IsWellFormed, IsConsistent};
ghost use Rattle.model_laws.specs.Runs.{RunsJoin, RunsCount, EventsKeep, RunsKeep};

/// Running two lists joined has the same result as running the first list, and then the second one
/// from the state to which the first one led.
pub fn runs_join()
    ensures { RunsJoin }
{}

/// Each event of a run adds one to the count.
pub fn runs_count_their_events()
    ensures { RunsCount }
{}

/// Through every event, parents have lower numbers than their children, and no hit is in the
/// future. Both hold for the state that has no row but root, and in each state that an image can
/// hold.
pub fn states_stay_well_formed()
    ensures root { (layout : Layout) → IsWellFormed (formatted layout) }
    ensures events { EventsKeep IsWellFormed }
    ensures runs { RunsKeep IsWellFormed }
    ensures consistent { (p : State) → IsConsistent p → IsWellFormed p }
{}
