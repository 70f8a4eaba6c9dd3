//! Examples of tasks that are listed after the lines of a session: by phase, by group and by both.
//!
//! Each function has an empty body, and its clauses are the example, as in
//! `console_lines`.
#![tactic(auto, unfolding(console_lines::proofs::OnLiterals::nights_on_literals))]

ghost use Rattle.std.specs.Prelude.{codes, Some, None};
ghost use Rattle.state_views.specs.ListedNights.{IsListed, three_tasks};
ghost use Rattle.console_lines.specs.Nights.{IsPrinted};

/// The lines of the session have these replies.
pub fn the_night_is_printed()
    ensures { IsPrinted three_tasks "acked 10" }
{}

/// Without a phase or a group, all tasks are listed.
pub fn all_tasks_are_listed()
    ensures { IsListed None None
        "task 0 g copy a running\ntask 1 g copy b held\ntask 2 h mail c error no room\n" }
{}

/// With a phase, the tasks in it are listed. The phase `error` matches whatever the error is.
pub fn tasks_are_listed_by_phase()
    ensures held { IsListed (Some (codes "held")) None "task 1 g copy b held\n" }
    ensures running { IsListed (Some (codes "running")) None "task 0 g copy a running\n" }
    ensures error { IsListed (Some (codes "error")) None "task 2 h mail c error no room\n" }
    ensures success { IsListed (Some (codes "success")) None "" }
{}

/// With a group, its tasks are listed, and none if there is no such group.
pub fn tasks_are_listed_by_group()
    ensures first { IsListed None (Some (codes "g"))
        "task 0 g copy a running\ntask 1 g copy b held\n" }
    ensures other { IsListed None (Some (codes "h")) "task 2 h mail c error no room\n" }
    ensures none { IsListed None (Some (codes "gh")) "" }
{}

/// With both, the tasks that match both are listed.
pub fn tasks_are_listed_by_both()
    ensures found { IsListed (Some (codes "held")) (Some (codes "g")) "task 1 g copy b held\n" }
    ensures none { IsListed (Some (codes "held")) (Some (codes "h")) "" }
{}
