//! The effect of an opening on a night, and that of the mark of its end.

ghost use Rattle.drive_nights.specs.Effects.{CanceledGroupsStay, GrowthsHouse, MarksEnd};
ghost use Rattle.drive_nights.specs.Effects.{NewNightsAreEmpty};
ghost use Rattle.drive_nights.specs.Effects.{NightsEnd, NightsGoOn, NothingIsLacking};
ghost use Rattle.drive_nights.specs.Effects.{OpeningsAreNoTurns};
ghost use Rattle.drive_nights.specs.Effects.{OpenedNightsGoOn, OpeningsOpen};
ghost use Rattle.drive_nights.specs.Effects.{SameDeadlinesStay};
ghost use Rattle.drive_nights.specs.Names.{NamesBelong};
ghost use Rattle.drive_nights.specs.Nights.{NoneIsLater};
ghost use Rattle.drive_nights.specs.Resting.{OpeningsRest};
ghost use Rattle.drive_nights.specs.Results.{OpeningsMakeAll};
ghost use Rattle.drive_nights.specs.Untouched.{EndingsLeaveNights};

/// After an opening no task waits to be started, and each group of the plan has a group of the
/// store for its tasks. Nothing that was known of a command has changed. A group that keeps its
/// scope is done if it was, and a new scope is done if the base of the night is, or if its deadline
/// has come. The night has a base, so it has begun, and its end can be marked. The last night of
/// the store is this one, unless it was a later one. No step of the opening was refused.
pub fn an_opening_opens_a_night()
    ensures { OpeningsOpen }
{}

/// After an opening all that the plan asks for is there. The night has its base. Each group of the
/// plan has a group of the store that takes tasks, in its last scope. That is the scope which it
/// had, if the words of its deadline and of that of all groups are the same, or if it was canceled,
/// and otherwise a new one with the deadline that the plan gives. All scopes, all groups and all
/// tasks that were there before are as they were, but for limits and errors of groups, and for
/// tasks that were withdrawn. No step of the opening was refused.
pub fn an_opening_makes_all()
    ensures { OpeningsMakeAll }
{}

/// After an opening the state is one between two rounds, if no task ran before it. So commands can
/// begin, and no try lives.
pub fn an_opening_leaves_the_state_at_rest()
    ensures { OpeningsRest }
{}

/// If each group of the plan keeps its scope, an opening is no turn: it changes nothing about the
/// night.
pub fn an_opening_is_no_turn()
    ensures { OpeningsAreNoTurns }
{}

/// A group that was canceled stays done for its night, whatever deadline the plan gives it. So does
/// a group whose deadline has the same words as before, if that of all groups is the same, too.
pub fn what_is_done_stays_done()
    ensures canceled { CanceledGroupsStay }
    ensures same { SameDeadlinesStay }
{}

/// The name of a group in any night and round belongs to the group, and to no other group of the
/// plan.
pub fn a_name_belongs_to_its_group()
    ensures { NamesBelong }
{}

/// No scope of a store is of a later night than the last one.
pub fn no_scope_is_of_a_later_night()
    ensures { NoneIsLater }
{}

/// The night that goes on or begins with an opening is the last one after it. So it goes on with
/// the next opening, too, unless it has ended then or another one is wanted.
pub fn an_opened_night_goes_on()
    ensures { OpenedNightsGoOn }
{}

/// A group for which an opening makes nothing takes tasks as it is: its last group of the store
/// stands in its last scope, wasn't waited for, and has no limit.
pub fn a_group_that_lacks_nothing_takes_tasks()
    ensures { NothingIsLacking }
{}

/// In a night with a greater number than the last one of a store no command has begun, and no group
/// has a scope yet.
pub fn a_new_night_is_empty()
    ensures { NewNightsAreEmpty }
{}

/// The mark of a night is recorded below its top, and nothing else. After it the night has ended.
/// If it was the last one of the store, the next opening begins another one.
pub fn a_mark_ends_a_night()
    ensures { MarksEnd }
{}

/// The next opening begins another night if and only if the last one has begun, and has its mark or
/// another one is wanted. Otherwise the last night goes on.
pub fn a_night_goes_on_until_its_mark()
    ensures ends { NightsEnd }
    ensures goes_on { NightsGoOn }
{}

/// After the steps in which a group is added to a night, it has a group of the store for its tasks.
/// No task, no command and no other group has changed. No step was refused.
pub fn a_group_is_added()
    ensures { GrowthsHouse }
{}

/// The steps that end what is left of other nights leave this night as it is: its scopes, all that
/// stands above them, its groups and its tasks. What is known of its commands doesn't change, and
/// neither does which of its groups are done. Steps may have been refused.
pub fn endings_leave_nights_as_they_are()
    ensures { EndingsLeaveNights }
{}
