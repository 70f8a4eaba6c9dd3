//! The effect of each event on the facts about a night. It is the effect of a turn of `night_plan`.

ghost use Rattle.night_drive.specs.Turns.{AdvancesStop, BareFinishesLeaveScopes, CancelsStop};
ghost use Rattle.night_drive.specs.Turns.{DerivesStandLast, FinishesEnd, FinishesStop};
ghost use Rattle.night_drive.specs.Turns.{GroupsLeaveGroups, OthersLeaveCommands};
ghost use Rattle.night_drive.specs.Turns.{OthersLeaveGroups};
ghost use Rattle.night_drive.specs.Turns.{StartsBegin, WaitsStop, WithdrawalsLeaveCommands};

/// A start begins the command of its task, and changes no fact about any other command. The task
/// wasn't started before, and no later task is a try of its command.
pub fn a_start_begins_its_command()
    ensures { StartsBegin }
{}

/// A finish ends the command of its task. After that the command has ended well, has failed at that
/// moment, or is canceled, and no fact about any other command changes. The task was running and
/// isn't withdrawn, and no later task is a try of its command.
pub fn a_finish_ends_its_command()
    ensures { FinishesEnd }
{}

/// A task that is started and then withdrawn changes no fact about any command.
pub fn a_withdrawal_leaves_all_commands()
    ensures { WithdrawalsLeaveCommands }
{}

/// Starts, finishes and restarts are the only events that change a fact about a command. A cancel,
/// a clock that moves, a new scope or group, a limit, a wait and a new task don't.
pub fn other_events_leave_all_commands()
    ensures { OthersLeaveCommands }
{}

/// After a cancel the groups whose scope it reaches are done. All other groups are done if they
/// were before.
pub fn a_cancel_stops_what_it_reaches()
    ensures { CancelsStop }
{}

/// Once the clock has moved, the groups with a deadline that has come are done. All other groups
/// are done if they were before.
pub fn an_advance_stops_what_is_due()
    ensures { AdvancesStop }
{}

/// A new scope becomes the last one of the groups to which it belongs. These are done if its parent
/// is, and aren't if it isn't, even if they were before. All other groups are done if they were
/// before. A new group of the store, with a scope of its own, changes no fact about a group of the
/// plan.
pub fn a_new_scope_stands_last()
    ensures derived { DerivesStandLast }
    ensures group { GroupsLeaveGroups }
{}

/// A failure in a group that isn't bare cancels the group's own scope, and the groups that this
/// reaches are done. All other groups are done if they were before. A success changes no group.
pub fn a_failure_stops_what_its_scope_reaches()
    ensures { FinishesStop }
{}

/// A wait for a group that isn't bare cancels the group's own scope, and the groups that this
/// reaches are done. All other groups are done if they were before.
pub fn a_wait_stops_what_its_scope_reaches()
    ensures { WaitsStop }
{}

/// An event that changes no scope changes no fact about a group. A finish is such an event if the
/// group of its task is bare.
pub fn other_events_leave_all_groups()
    ensures leave { OthersLeaveGroups }
    ensures bare { BareFinishesLeaveScopes }
{}
