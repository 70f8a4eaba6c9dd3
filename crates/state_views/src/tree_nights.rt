//! Examples of a state that is drawn as a tree, after the lines of a session.
//!
//! Each function has an empty body, and its clause is the example, as in `console_lines`.
#![tactic(auto, unfolding(console_lines::proofs::OnLiterals::nights_on_literals))]

ghost use Rattle.std.specs.Prelude.{false, true};
ghost use Rattle.state_views.specs.EntryNights.{all_kinds};
ghost use Rattle.state_views.specs.ListedNights.{three_tasks};
ghost use Rattle.state_views.specs.TreeNights.{IsDrawn, backup_drawn, branches_drawn};
ghost use Rattle.state_views.specs.TreeNights.{cancelled_backup, kinds_drawn, tasks_drawn};

/// Scopes of all kinds are drawn, each below another one, even a detached one.
pub fn scopes_of_all_kinds_are_drawn()
    ensures { IsDrawn false all_kinds kinds_drawn }
{}

/// Tasks are drawn below their groups. The last one of several siblings is drawn differently from
/// the others.
pub fn groups_and_tasks_are_drawn()
    ensures { IsDrawn false three_tasks tasks_drawn }
{}

/// If tasks aren't drawn, the line of each group says how many of its tasks are in each phase.
pub fn groups_are_drawn_without_tasks()
    ensures { IsDrawn true three_tasks branches_drawn }
{}

/// A done scope is drawn with a detached live scope below it, and with a group that was waited for.
pub fn a_cancelled_backup_is_drawn()
    ensures { IsDrawn false cancelled_backup backup_drawn }
{}
