//! Laws: from then on, the old store and the renewed one behave in the same way.
//!
//! `p` is the state that was renewed. `q` is any later state, to which events lead that refer only
//! to what goes on: the rows that the renewal keeps, and those that are made later. The part of `q`
//! that goes on is the state of the renewed store after the same events, by the new numbers.

ghost use Rattle.std.specs.Prelude.{◌≡◌, ◌&&◌, ℕ, List, Some, false, map, true};
ghost use Rattle.run_model.specs.declared.commands.Command.{Command};
ghost use Rattle.run_model.specs.declared.groups.Group.{Group};
ghost use Rattle.run_model.specs.declared.tasks.Outcome.{Outcome};
ghost use Rattle.run_model.specs.declared.tasks.Task.{Task};
ghost use Rattle.run_model.specs.Allowed.{allowed, run};
ghost use Rattle.run_model.specs.Event.{Event};
ghost use Rattle.run_model.specs.Replies.{event_of, reply, reply_finish, reply_start};
ghost use Rattle.run_model.specs.Rules.{IsConsistent, HasRow};
ghost use Rattle.run_model.specs.Scopes.{is_done};
ghost use Rattle.run_model.specs.State.{State};
ghost use Rattle.run_model.specs.Tasks.{is_unfinished};
ghost use Rattle.state_renewal.specs.Renewed.{new_number, renewed, state_renumbered};
ghost use Rattle.state_renewal.specs.PartEvents.{has_place, event_renumbered, names_part};
ghost use Rattle.state_renewal.specs.Alike.{GoOnAlike};
ghost use Rattle.state_renewal.specs.Answered.{answer_renumbered, calls_part, command_renumbered};
ghost use Rattle.state_renewal.specs.Answered.{reply_renumbered};
ghost use Rattle.state_renewal.specs.Answered.{started_renumbered};
ghost use Rattle.state_renewal.specs.GoingOn.{GoesOn, going_on};

/// The renewed state is the part of the old one that goes on. This stays true: if events lead the
/// old state further, the renewed one allows the same events, and after them it is again the part
/// of the old state that goes on.
pub fn both_are_led_alike()
    ensures begins { (p : State) → IsConsistent p → state_renumbered (going_on p) p ≡ renewed p }
    ensures run { (p q : State) (events : List Event) → GoesOn p events q
        → run (renewed p) (map (event_renumbered (going_on p)) events)
        ≡ Some (state_renumbered (going_on p) q) }
{}

/// Each question about what goes on is answered in the same way: about scopes, values, groups and
/// tasks, and about the task that is started next.
pub fn both_answer_questions_alike()
    ensures { (p q : State) (events : List Event) → GoesOn p events q
        → GoOnAlike (going_on p) q (state_renumbered (going_on p) q) }
{}

/// Take a command that refers only to what goes on, gives names that are free in the old store, and
/// fits there. Both stores answer it in the same way at each length of the log, or refuse it for
/// the same reason. The same is true of a start, and of a finish of a task that goes on.
pub fn both_answer_calls_alike()
    ensures commands { (p q : State) (events : List Event) (log : ℕ) (call : Command)
        → GoesOn p events q → calls_part (going_on p) q call ≡ true
        → has_place q (event_of q call) ≡ true
        → reply (state_renumbered (going_on p) q) log (command_renumbered (going_on p) call)
        ≡ reply_renumbered (answer_renumbered (going_on p)) (reply q log call) }
    ensures starts { (p q : State) (events : List Event) (log : ℕ) → GoesOn p events q
        → reply_start (state_renumbered (going_on p) q) log
        ≡ reply_renumbered (started_renumbered (going_on p)) (reply_start q log) }
    ensures finishes { (p q : State) (events : List Event) (n : ℕ) (outcome : Outcome)
        → GoesOn p events q → (going_on p).tasks n ≡ true
        → reply_finish (state_renumbered (going_on p) q) (new_number (going_on p).tasks n) outcome
        ≡ reply_finish q n outcome }
{}

/// The old store allows an event about what goes on exactly if the renewed one allows it, the names
/// in the event are free in the old store, and it fits there. So the renewed store allows more only
/// because the names and the places of dropped rows are free again.
pub fn only_names_and_room_are_free_again()
    ensures { (p q : State) (events : List Event) (e : Event) → GoesOn p events q
        → names_part (going_on p) e ≡ true → allowed q e
        ≡ (allowed (state_renumbered (going_on p) q) (event_renumbered (going_on p) e)
        && has_place q e) }
{}

/// Whatever doesn't go on is finished, and stays finished: a scope is done, a group was waited for,
/// and a task has ended.
pub fn what_does_not_go_on_is_finished()
    ensures scopes { (p q : State) (events : List Event) (s : ℕ) → GoesOn p events q
        → (going_on p).scopes s ≡ false → is_done q.tree.scopes s ≡ true }
    ensures groups { (p q : State) (events : List Event) (g : ℕ) (row : Group)
        → GoesOn p events q → HasRow q.work.groups g row → (going_on p).groups g ≡ false
        → row.waited ≡ true }
    ensures tasks { (p q : State) (events : List Event) (n : ℕ) (row : Task)
        → GoesOn p events q → HasRow q.work.tasks n row → (going_on p).tasks n ≡ false
        → is_unfinished row.stage ≡ false }
{}

/// What a renewal keeps doesn't depend on earlier renewals: it keeps the same part of a store,
/// whether or not the store was renewed before.
pub fn earlier_renewals_leave_no_trace()
    ensures { (p q : State) (events : List Event) → GoesOn p events q
        → renewed (state_renumbered (going_on p) q) ≡ renewed q }
{}
