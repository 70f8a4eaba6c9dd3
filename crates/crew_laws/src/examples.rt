//! A worked example: a crash cuts off the first turn of a task, and the task is retried.
//!
//! The functions have empty bodies, and their clauses are the example.

ghost use Rattle.std.specs.Prelude.{◌≡◌, ◌∷◌, [], false, true};
ghost use Rattle.run_model.specs.Allowed.{allowed};
ghost use Rattle.run_model.specs.Event.{Start};
ghost use Rattle.book_model.specs.Stores.{restarted};
ghost use Rattle.crew_laws.specs.Examples.{after_start, left, loaded, retried, retry_session};
ghost use Rattle.crew_laws.specs.Examples.{up_to_turn};
ghost use Rattle.crew_laws.specs.Nights.{Crewed, Follow, HaveTurn, IsNight, Leads, Session};

/// Worker 0 makes the first turn of task 0, and then the power fails. So the task is interrupted,
/// and can't be started again. A retry of it is task 1, and the next night makes the first turn of
/// that task.
pub fn a_retry_is_another_task()
    ensures first { Leads loaded (Crewed (up_to_turn 5 0 false) []) left }
    ensures turn { HaveTurn (up_to_turn 5 0 false) 0 }
    ensures never { allowed (restarted left) (Start 0) ≡ false }
    ensures retried { Follow left 0 (Session retry_session ∷ []) retried 0 }
    ensures again { IsNight retried (up_to_turn 9 1 true) (after_start retried 9 1 true) }
    ensures other { HaveTurn (up_to_turn 9 1 true) 1 }
{}
