//! The effect of a whole round on a night, and what is acknowledged of it.

ghost use Rattle.drive_steps.specs.Deadlines.{NoneBeginsTooLate};
ghost use Rattle.drive_steps.specs.Rounds.{RoundsAreAcknowledged, RoundsAreTurns};
ghost use Rattle.drive_steps.specs.Rounds.{RoundsKeepTheLiving};

/// A round is the turns of the ends that were heard, one for each command that was canceled, one
/// for each group that is done then, and the one turn in which the chosen commands begin. No step
/// that begins a command was refused.
pub fn a_round_is_turns()
    ensures { RoundsAreTurns }
{}

/// After a round those tries live that lived before it and haven't ended, and those whose begins
/// are reported. No other task of a command of the plan runs. Before the first round that has to be
/// so; then it is so between any two.
pub fn a_round_keeps_the_living()
    ensures { RoundsKeepTheLiving }
{}

/// A command that is chosen once the deadline of its group has come is a cleanup. The clock of the
/// store says whether it has come, and the ends of a round are recorded before the choice. So no
/// other command begins in the round in which the deadline of its group comes, or later.
pub fn none_begins_too_late()
    ensures { NoneBeginsTooLate }
{}

/// One flush acknowledges a whole round, so all events to which its steps led. Where a begin is
/// reported, the start of its task is among them, and so are each end that was heard in the round,
/// and for each cancel of a command the end of a task. A cancel of a group is an event if its step
/// wasn't refused.
pub fn one_flush_acknowledges_a_round()
    ensures { RoundsAreAcknowledged }
{}
