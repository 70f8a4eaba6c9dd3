//! Many rounds of a night, one after another, in one session with a store.

ghost use Rattle.drive_steps.specs.ManyRounds.{ManyRoundsKeepTheLiving, NoTaskIsReportedTwice};
ghost use Rattle.drive_steps.specs.ManyRounds.{ReportsComeAfter, RoundsFollow, RoundsLead};

/// After any number of rounds those tries live that have begun and haven't ended, and no others.
pub fn rounds_keep_the_living()
    ensures { ManyRoundsKeepTheLiving }
{}

/// In rounds of one session, one after another, no task is reported twice.
pub fn no_task_is_reported_twice()
    ensures { NoTaskIsReportedTwice }
{}

/// When a round reports a begin, all events to which the steps of the session's rounds led so far
/// are acknowledged. The start of its task is among them, and so are each end that was heard in the
/// round, and for each cancel of a command the end of a task. A cancel of a group is an event if
/// its step wasn't refused.
pub fn reports_come_after_their_acknowledgement()
    ensures { ReportsComeAfter }
{}

/// Rounds change a night by their turns, and by nothing else.
pub fn rounds_are_their_turns()
    ensures { RoundsFollow }
{}

/// If no command is canceled while it doesn't run, the turns of rounds are turns that `night_plan`
/// allows: what ends runs before, and what begins was chosen. So its laws about turns hold for
/// rounds: commands begin in order, pools aren't exceeded, and what ended well doesn't begin again.
pub fn rounds_are_turns_that_may_come()
    ensures { RoundsLead }
{}
