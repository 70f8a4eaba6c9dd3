//! The effect of each event on the night that a store shows, as turns of `night_plan`. So the laws
//! about nights that go from turn to turn hold for what a store records.

ghost use Rattle.night_drive.specs.PlanTurns.{AdvancesAreTurns, BeginsJoin, CancelsAreTurns};
ghost use Rattle.night_drive.specs.PlanTurns.{FinishesAreTurns, OpeningsReopen, OthersAreNoTurns};
ghost use Rattle.night_drive.specs.PlanTurns.{SeenIsShown, StartsAreTurns, TasksAreOfOneCommand};
ghost use Rattle.night_drive.specs.PlanTurns.{DerivesAreNoTurns, FailuresAreTurns, RowsAreOneTurn};
ghost use Rattle.night_drive.specs.PlanTurns.{WithdrawalsAreNoTurns};

/// The facts that are read from a store make up the night that it shows.
pub fn the_facts_make_up_the_night()
    ensures { SeenIsShown }
{}

/// A start is the turn in which the command of its task begins. The task belongs to this command
/// and to no other, wasn't started before, and no later task is a try of the command.
pub fn a_start_is_a_turn()
    ensures { StartsAreTurns }
{}

/// Two turns in which commands begin, at the same moment and with the same sizes of pools, have the
/// effect of one turn in which all of them begin.
pub fn begins_are_joined()
    ensures { BeginsJoin }
{}

/// A row of events that begins several commands is the one turn in which all of them begin. Each of
/// its events is the start of a task of one of these commands, as in `a_start_is_a_turn`, or is no
/// turn, as in `other_events_are_no_turns`.
pub fn a_row_of_begins_is_one_turn()
    ensures { RowsAreOneTurn }
{}

/// A finish is the turn in which the command of its task ends well, fails or is canceled. The task
/// belongs to this command and to no other, was running, and is its last try. Its group is bare.
pub fn a_finish_is_a_turn()
    ensures { FinishesAreTurns }
{}

/// A task that is started and then withdrawn is no turn. It wasn't started before, and its group is
/// bare.
pub fn a_withdrawal_is_no_turn()
    ensures { WithdrawalsAreNoTurns }
{}

/// A cancel is a turn for each group that it stops, and a clock that moves is one for each group
/// whose deadline has come.
pub fn each_stop_is_a_turn()
    ensures cancels { CancelsAreTurns }
    ensures advances { AdvancesAreTurns }
{}

/// A failure in a group that isn't bare is the turn in which the command of its task ends, and then
/// a turn for each group that the cancel of the group's scope stops.
pub fn a_failure_is_an_end_and_stops()
    ensures { FailuresAreTurns }
{}

/// A new scope is no turn, unless it changes whether a group of the plan is done. It changes that
/// if it becomes the last one of the group, its parent is done and the group isn't, or the other
/// way round.
pub fn a_new_scope_is_no_turn()
    ensures { DerivesAreNoTurns }
{}

/// Each other event that changes no scope is no turn. A restart isn't such an event.
pub fn other_events_are_no_turns()
    ensures { OthersAreNoTurns }
{}

/// After an opening a store shows the night with which the next session of `night_plan` begins. All
/// its groups are bare.
pub fn an_opening_begins_the_next_session()
    ensures { OpeningsReopen }
{}

/// A task of a command belongs to no other command of the plan. For that, no name of a group has
/// two hyphens in a row, no two groups have the same name, and no two commands of a group the same
/// key.
pub fn a_task_is_of_one_command()
    ensures { TasksAreOfOneCommand }
{}
