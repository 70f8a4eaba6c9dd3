//! Which task is started, and which tasks of a group are admitted.

ghost use Rattle.std.specs.Prelude.{◌≡◌, ◌↔◌, ℕ, List, false, true, take, None, Some, Ok};
ghost use Rattle.run_model.specs.Allowed.{allowed, run};
ghost use Rattle.run_model.specs.Event.{Event, Start};
ghost use Rattle.run_model.specs.State.{State, WorkState};
ghost use Rattle.run_model.specs.Step.{step};
ghost use Rattle.run_model.specs.Tasks.{first_ready, is_ready, limit_of};
ghost use Rattle.run_model.specs.Replies.{decide_start};
ghost use Rattle.model_laws.specs.Queues.{IsLeastReady, admitted_tasks, unfinished_tasks};

/// A start always starts the ready task with the lowest number. There is one exactly if some task
/// is ready.
pub fn the_least_ready_task_is_started()
    ensures started { (p : State) (log n : ℕ)
        → decide_start p log ≡ Ok (Some (Start n)) → IsLeastReady p.work n }
    ensures found { (w : WorkState) (n : ℕ) → (first_ready w ≡ Some n) ↔ IsLeastReady w n }
    ensures none { (w : WorkState)
        → (first_ready w ≡ None) ↔ ((n : ℕ) → is_ready w n ≡ false) }
{}

/// The admitted tasks of a group are its first unfinished ones, by number: as many as its limit
/// says, and all of them if it has none.
pub fn the_first_unfinished_tasks_are_admitted()
    ensures limited { (w : WorkState) (g most : ℕ)
        → limit_of w g ≡ Some most → admitted_tasks w g ≡ take most (unfinished_tasks w g) }
    ensures unlimited { (w : WorkState) (g : ℕ) → limit_of w g ≡ None
        → admitted_tasks w g ≡ unfinished_tasks w g }
{}

/// A task is started at most once, whatever events come after its start, even restarts.
pub fn a_task_is_started_once()
    ensures { (p q : State) (n : ℕ) (events : List Event) → allowed p (Start n) ≡ true
        → run (step p (Start n)) events ≡ Some q → allowed q (Start n) ≡ false }
{}
