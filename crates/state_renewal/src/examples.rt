//! Examples of renewed states, computed row by row.

ghost use Rattle.std.specs.Prelude.{◌≡◌, [], ◌∷◌};
ghost use Rattle.run_model.specs.Rows.{root};
ghost use Rattle.state_renewal.specs.Renewed.{renewed};
ghost use Rattle.state_renewal.specs.Examples.{state, finished_night, detached_part};
ghost use Rattle.state_renewal.specs.Examples.{detached_part_left, retried, retried_left};
ghost use Rattle.state_renewal.specs.Examples.{cancelled_group, cancelled_group_left, waited_above};
ghost use Rattle.state_renewal.specs.Examples.{waited_above_left, bare_groups, bare_groups_left};

/// A finished run is dropped as a whole: its group was waited for, and its scope is done.
pub fn a_finished_night_goes_whole()
    ensures { renewed finished_night ≡ state (root ∷ []) [] [] }
{}

/// A live scope is kept with everything above it, even if that is done. Other scopes that are done
/// are dropped.
pub fn what_is_above_a_live_scope_stays()
    ensures { renewed detached_part ≡ detached_part_left }
{}

/// A retry and the task that it retries are kept together, and are linked by their new numbers.
pub fn a_retry_stays_with_what_it_retries()
    ensures { renewed retried ≡ retried_left }
{}

/// A group that wasn't waited for is kept in a scope that is done, with its ended tasks and its
/// held ones.
pub fn a_group_of_a_done_scope_stays_until_it_is_waited_for()
    ensures { renewed cancelled_group ≡ cancelled_group_left }
{}

/// A group that was waited for is kept while there is a live scope below its own.
pub fn a_group_stays_with_its_own_scope()
    ensures { renewed waited_above ≡ waited_above_left }
{}

/// A bare group is dropped once it was waited for. Its scope is then kept or dropped like any
/// other.
pub fn a_bare_group_keeps_its_scope_until_it_is_waited_for()
    ensures { renewed bare_groups ≡ bare_groups_left }
{}
