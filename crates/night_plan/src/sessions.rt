//! Laws of a night with crashes. They have two premises. First, a driver reports a command to its
//! executor only when the beginning of the command is acknowledged. Second, a crash leaves a prefix
//! of the turns, and every acknowledged turn is in it.

ghost use Rattle.night_plan.specs.Sessions.{IsReportedNoMore, ReportsAreBounded};
ghost use Rattle.night_plan.specs.Sessions.{ReportsAreInOrder};

/// If it is acknowledged that a command ended well, no later session tells its executor to begin
/// the command.
pub fn what_ended_ok_is_reported_no_more()
    ensures { IsReportedNoMore }
{}

/// In a fresh night, an executor is told to begin a command at most once, and once more for each
/// retry, each interruption and each crash.
pub fn reports_are_bounded()
    ensures { ReportsAreBounded }
{}

/// If the beginning of a command is acknowledged, then each command that it needs to have ended
/// well had ended so when the session began, or its end is acknowledged, too.
pub fn reports_are_in_order()
    ensures { ReportsAreInOrder }
{}
