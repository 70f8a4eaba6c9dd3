//! Examples of runs: which events are allowed, and the prefixes of a list of them.

ghost use Rattle.std.specs.Prelude.{◌≡◌, Some, None};
ghost use Rattle.run_model.specs.declared.layouts.Layout.TheVariants.{Small};
ghost use Rattle.run_model.specs.Allowed.{IsPrefix, after};
ghost use Rattle.run_model.specs.Event as event;
ghost use Rattle.run_model.specs.State.{State, formatted};
ghost use Rattle.book_model.specs.Examples.Nights.{new_store, reopened, state_of, crashed_night};
ghost use Rattle.book_model.specs.Examples.Runs.{at_seven, at_eight, two_advances};

/// Every state allows a restart. A start is allowed only of the ready task with the lowest number.
pub fn a_restart_is_always_allowed()
    ensures first { after (formatted Small) event.Restart ≡ Some new_store.state }
    ensures again { after (state_of crashed_night) event.Restart
        ≡ Some (reopened 1 crashed_night) }
    ensures start { after new_store.state (event.Start 0) ≡ None }
{}

/// If the first of two events is acknowledged, a crash leaves the state after one or both of them,
/// and never a state with a third event.
pub fn prefixes_hold_what_is_acknowledged()
    ensures one { IsPrefix new_store.state two_advances 1 at_seven }
    ensures both { IsPrefix new_store.state two_advances 1 at_eight }
    ensures all { IsPrefix new_store.state two_advances 2 at_eight }
    ensures third { (p : State) → IsPrefix new_store.state two_advances 3 p → ⊥ }
{}
