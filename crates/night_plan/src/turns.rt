//! Laws of a night over any sequence of turns, which begins with a fresh night. In a turn a driver
//! learns something (a command has ended, a group is done, a pool has another size), or begins
//! commands that were chosen.

ghost use Rattle.night_plan.specs.Standings.{FinalStandings};
ghost use Rattle.night_plan.specs.Turns.{BeginsInOrder, IsBegunNoMore, BeginsAreBounded};
ghost use Rattle.night_plan.specs.Turns.{KeepsPools, CleanupsBegin};

/// A command is final exactly if it ended well, failed, was canceled or is given up.
pub fn four_standings_are_final()
    ensures { FinalStandings }
{}

/// In a fresh night, a command begins only after all commands that it needs to have ended well have
/// done so.
pub fn commands_begin_in_order()
    ensures { BeginsInOrder }
{}

/// A command that has ended well doesn't begin again, whatever happens.
pub fn what_ended_ok_is_begun_no_more()
    ensures { IsBegunNoMore }
{}

/// In a fresh night, a command begins at most once, and once more for each retry and each
/// interruption.
pub fn begins_are_bounded()
    ensures { BeginsAreBounded }
{}

/// In a fresh night, no more of a pool is ever in use than the greatest size that it had.
pub fn pools_are_kept()
    ensures { KeepsPools }
{}

/// In a fresh night, a cleanup that is final has begun, unless it was canceled itself.
pub fn cleanups_begin()
    ensures { CleanupsBegin }
{}
