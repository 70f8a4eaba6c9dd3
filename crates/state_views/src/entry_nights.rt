//! Examples of a state that is printed as JSON, after the lines of a session.
//!
//! Each function has an empty body, and its clauses are the example, as in
//! `console_lines`.
#![tactic(auto, unfolding(console_lines::proofs::OnLiterals::nights_on_literals))]

ghost use Rattle.std.specs.Prelude.{◌∷◌, ◌++◌, [], codes, None, Some};
ghost use Rattle.state_views.specs.EntryNights.{IsShown, IsShownOf, all_kinds, failed_one};
ghost use Rattle.state_views.specs.EntryNights.{held_one, kinds_shown, running_one, tasks_shown};

/// Scopes of all kinds are shown. One of them holds a value with bytes that have to be escaped.
pub fn scopes_of_all_kinds_are_shown()
    ensures { IsShown None None all_kinds kinds_shown }
{}

/// Groups and tasks are shown: a running task, a held one, and one that failed.
pub fn groups_and_tasks_are_shown()
    ensures { IsShownOf None None tasks_shown }
{}

/// Only the tasks in a phase, those of a group, or those that match both are shown. There is no
/// comma before the first of them.
pub fn some_tasks_are_shown()
    ensures phase { IsShownOf (Some (codes "error")) None
        ("\n" ∷ (failed_one ++ "]}\n" ∷ [])) }
    ensures group { IsShownOf None (Some (codes "g"))
        ("\n" ∷ (running_one ++ (",\n" ∷ (held_one ++ "]}\n" ∷ [])))) }
    ensures both { IsShownOf (Some (codes "held")) (Some (codes "g"))
        ("\n" ∷ (held_one ++ "]}\n" ∷ [])) }
    ensures none { IsShownOf (Some (codes "held")) (Some (codes "h")) ("]}\n" ∷ []) }
{}
