//! Examples of the summary of a state, after the lines of a session.
//!
//! Each function has an empty body, and its clause is the example, as in `console_lines`.
#![tactic(auto, unfolding(console_lines::proofs::OnLiterals::nights_on_literals))]

ghost use Rattle.state_views.specs.ListedNights.{three_tasks};
ghost use Rattle.state_views.specs.SummaryNights.{IsSummed, backup_summed, leap_day};
ghost use Rattle.state_views.specs.SummaryNights.{leap_day_summed, tasks_summed};
ghost use Rattle.state_views.specs.TreeNights.{cancelled_backup};

/// The tasks of each group are counted by phase. No scope is done.
pub fn tasks_are_counted_by_group_and_phase()
    ensures { IsSummed three_tasks tasks_summed }
{}

/// Each scope that is done has a line, except for the scope of a group, which the line of the group
/// shows.
pub fn done_scopes_are_summed()
    ensures { IsSummed cancelled_backup backup_summed }
{}

/// A deadline is shown with its date and time.
pub fn a_deadline_has_its_date()
    ensures { IsSummed leap_day leap_day_summed }
{}
