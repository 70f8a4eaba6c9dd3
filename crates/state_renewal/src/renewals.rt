//! The promises of a renewal: it keeps the rules and everything that isn't finished, and the kept
//! rows give the same answers as before.

ghost use Rattle.std.specs.Option.{option_map};
ghost use Rattle.std.specs.Prelude.{◌≡◌, ℕ, true};
ghost use Rattle.run_model.specs.declared.groups.Group.{Group};
ghost use Rattle.run_model.specs.declared.scopes.Scope.{Scope};
ghost use Rattle.run_model.specs.declared.tasks.Task.{Task};
ghost use Rattle.run_model.specs.Allowed.{allowed};
ghost use Rattle.run_model.specs.Event.{Event};
ghost use Rattle.run_model.specs.Rules.{IsConsistent, HasRow};
ghost use Rattle.run_model.specs.State.{State};
ghost use Rattle.run_model.specs.Tasks.{first_ready};
ghost use Rattle.state_renewal.specs.Kept.{AreNamesKept, IsRoomKept};
ghost use Rattle.state_renewal.specs.Kept.{ScopeStays, GroupStays, TaskStays, KeepsUnfinished};
ghost use Rattle.state_renewal.specs.Renewed.{keeps_scope, keeps_group, keeps_task, new_number};
ghost use Rattle.state_renewal.specs.Renewed.{kept_part, renewed};
ghost use Rattle.state_renewal.specs.PartEvents.{event_renumbered, has_place, names_part};

/// If a state is consistent, so is the renewed state. So it has an image, which is read back.
pub fn a_renewed_state_meets_the_rules()
    ensures { (p : State) → IsConsistent p → IsConsistent (renewed p) }
{}

/// Nothing that isn't finished is dropped.
pub fn nothing_unfinished_goes()
    ensures { (p : State) → IsConsistent p → KeepsUnfinished p }
{}

/// Kept rows stay as they were. For a scope this means whether it is done, its reason, its cause,
/// its deadline and every value, even those from scopes above it. For a group it means its row and
/// the number of its unfinished tasks, and for a task its row and its phase.
pub fn what_is_kept_is_as_it_was()
    ensures scopes { (p : State) (s : ℕ) (row : Scope) → IsConsistent p → HasRow p.tree.scopes s row
        → keeps_scope p s ≡ true → ScopeStays p s row }
    ensures groups { (p : State) (g : ℕ) (row : Group) → IsConsistent p → HasRow p.work.groups g row
        → keeps_group p g ≡ true → GroupStays p g row }
    ensures tasks { (p : State) (n : ℕ) (row : Task) → IsConsistent p → HasRow p.work.tasks n row
        → keeps_task p n ≡ true → TaskStays p n row }
{}

/// An event that refers only to kept rows is allowed in the renewed state, by the new numbers, if
/// it was allowed before. If it was refused before, the renewed state allows it only if the reason
/// was a name that was taken or a store that was full.
pub fn what_is_allowed_stays()
    ensures allowed { (p : State) (event : Event) → IsConsistent p
        → names_part (kept_part p) event ≡ true → allowed p event ≡ true
        → allowed (renewed p) (event_renumbered (kept_part p) event) ≡ true }
    ensures before { (p : State) (event : Event) → IsConsistent p
        → names_part (kept_part p) event ≡ true → has_place p event ≡ true
        → allowed (renewed p) (event_renumbered (kept_part p) event) ≡ true
        → allowed p event ≡ true }
{}

/// The names and the places of dropped rows are free again, and no others. The name of each kept
/// row is found under its new number, every other name is free, and there are as many rows as were
/// kept.
pub fn names_and_room_are_free_again()
    ensures names { (p : State) → IsConsistent p → AreNamesKept p }
    ensures room { (p : State) → IsRoomKept p }
{}

/// The next task to start is the same as before, under its new number. If no task was ready, none
/// is.
pub fn the_next_task_is_the_one_that_was()
    ensures { (p : State) → IsConsistent p → first_ready (renewed p).work
        ≡ option_map (new_number (keeps_task p)) (first_ready p.work) }
{}

/// If a renewed state is renewed again, nothing changes.
pub fn a_second_renewal_changes_nothing()
    ensures { (p : State) → IsConsistent p → renewed (renewed p) ≡ renewed p }
{}
