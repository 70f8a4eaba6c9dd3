//! Laws of a night whose plan may grow: over any row of steps, each a turn, or one more command or
//! group. A night that doesn't grow is one of these.

ghost use Rattle.night_plan.specs.Steps.{WellInOrder, FailedInOrder, EndedInOrder, EndsOnce};
ghost use Rattle.night_plan.specs.Steps.{IsCanceledForGood, StepsAreBounded, StepsKeepPools};
ghost use Rattle.night_plan.specs.Steps.{StepsBeginCleanups};

/// A command begins only after its needs are met: all commands that a need names have ended well,
/// or one of them has failed and has no more tries, or each of them is final.
pub fn needs_are_met_in_order()
    ensures well { WellInOrder }
    ensures failed { FailedInOrder }
    ensures ended { EndedInOrder }
{}

/// A command that has ended well doesn't begin again, even if the plan grows.
pub fn what_ended_ok_stays_so()
    ensures { EndsOnce }
{}

/// A command that was canceled itself doesn't begin any more, even if the plan grows.
pub fn what_was_canceled_stays_so()
    ensures { IsCanceledForGood }
{}

/// Even if the plan grows, a command begins at most once, and once more for each retry and each
/// interruption.
pub fn growth_keeps_begins_bounded()
    ensures { StepsAreBounded }
{}

/// Even if the plan grows, no more of a pool is ever in use than the greatest size that it had.
pub fn growth_keeps_pools()
    ensures { StepsKeepPools }
{}

/// Even if the plan grows, a cleanup that is final has begun, unless it was canceled itself.
pub fn growth_keeps_cleanups()
    ensures { StepsBeginCleanups }
{}
