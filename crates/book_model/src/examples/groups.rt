//! Examples of groups: limits, first errors, waits, and a crash in the middle.

ghost use Rattle.std.specs.Option.{option_and_then};
ghost use Rattle.std.specs.Prelude.{◌≡◌, [], ◌∷◌, true, false, Some, None, codes, slice_get};
ghost use Rattle.run_model.specs.declared.scopes.Reason.TheVariants.{Canceled, DeadlineExceeded};
ghost use Rattle.run_model.specs.declared.tasks.Phase.TheVariants as phase;
ghost use Rattle.run_model.specs.Scopes.{reason_of, cause_of, own_hit};
ghost use Rattle.run_model.specs.Tasks.{phase_of};
ghost use Rattle.run_model.specs.Questions.{group_look_of, task_look_of};
ghost use Rattle.book_model.specs.Examples.Nights.{error_below_a_done_scope, nested_groups};
ghost use Rattle.book_model.specs.Examples.Nights.{limit_set_again, bare_group_in_a_groups_scope};
ghost use Rattle.book_model.specs.Examples.Nights.{IsAnswered, state_of, reason_after, cause_after};
ghost use Rattle.book_model.specs.Examples.Nights.{limited_group, limit_of_zero, first_error};
ghost use Rattle.book_model.specs.Examples.Nights.{bare_group, refused_calls, two_jobs};
ghost use Rattle.book_model.specs.Examples.Nights.{crashed_night, below_a_done_scope};
ghost use Rattle.book_model.specs.Examples.Nights.{limit_taken_away, reopened, two_groups};
ghost use Rattle.book_model.specs.Examples.Nights.{two_reasons};

/// A task beyond the limit is held until a task before it has finished.
pub fn a_limit_holds_the_third_task()
    ensures answers { IsAnswered limited_group }
    ensures admitted { phase_of (state_of limited_group).work 2 ≡ Some phase.Ready }
    ensures count { (state_of limited_group).count ≡ 8 }
{}

/// A limit of zero admits no task.
pub fn a_limit_of_zero_admits_none()
    ensures { IsAnswered limit_of_zero }
{}

/// The first error to arrive is the group's error and the cause of its scope, and each wait repeats
/// it.
pub fn the_first_error_is_the_groups()
    ensures answers { IsAnswered first_error }
    ensures reason { reason_after first_error 1 ≡ Some Canceled }
    ensures cause { cause_after first_error 1 ≡ Some (codes "x") }
    ensures result { group_look_of (state_of first_error) 0 ≡ Some (record {
      name = codes "g";
      scope = 1;
      unfinished = 0;
      limit = None;
      waited = true;
      error = Some (codes "x");
    }) }
    ensures count { (state_of first_error).count ≡ 9 }
{}

/// A wait ends a group's own scope, and a bare group has none to end.
pub fn a_bare_group_ends_no_scope()
    ensures answers { IsAnswered bare_group }
    ensures reason { reason_after bare_group 1 ≡ Some Canceled }
    ensures cause { cause_after bare_group 1 ≡ Some (codes "context canceled") }
    ensures root { reason_after bare_group 0 ≡ None }
    ensures count { (state_of bare_group).count ≡ 5 }
{}

/// A step is refused if it names something that doesn't exist, or gives a name that is taken. A
/// refused step isn't an event.
pub fn refused_steps_are_no_events()
    ensures answers { IsAnswered refused_calls }
    ensures count { (state_of refused_calls).count ≡ 3 }
{}

/// The ready task with the lowest number is started, whatever its job is.
pub fn tasks_start_in_order_of_number()
    ensures answers { IsAnswered two_jobs }
    ensures failed { phase_of (state_of two_jobs).work 0 ≡ Some (phase.Failure (codes "x")) }
    ensures ended { phase_of (state_of two_jobs).work 1 ≡ Some phase.Success }
    ensures ready { phase_of (state_of two_jobs).work 2 ≡ Some phase.Ready }
    ensures count { (state_of two_jobs).count ≡ 9 }
{}

/// A task that runs when the program crashes or ends is interrupted at the next opening. This is an
/// error of its group, which ends the scope of the group and admits the held task. One more opening
/// changes nothing but the count.
pub fn a_running_task_is_interrupted()
    ensures answers { IsAnswered crashed_night }
    ensures running { task_look_of (state_of crashed_night) 0 ≡ Some (record {
      group = 0;
      job = codes "copy";
      argument = codes "a";
      phase = phase.Running;
      retry_of = None;
    }) }
    ensures held { phase_of (state_of crashed_night).work 1 ≡ Some phase.Held }
    ensures interrupted { phase_of (reopened 1 crashed_night).work 0 ≡ Some phase.Interrupted }
    ensures ready { phase_of (reopened 1 crashed_night).work 1 ≡ Some phase.Ready }
    ensures result { group_look_of (reopened 1 crashed_night) 0 ≡ Some (record {
      name = codes "g";
      scope = 1;
      unfinished = 1;
      limit = Some 1;
      waited = false;
      error = Some (codes "interrupted");
    }) }
    ensures reason { reason_of (reopened 1 crashed_night).tree.scopes 1 ≡ Some Canceled }
    ensures cause { cause_of (reopened 1 crashed_night).tree.scopes 1 ≡ Some (codes "interrupted") }
    ensures count { (reopened 1 crashed_night).count ≡ 7 }
    ensures again { reopened 2 crashed_night ≡ record (reopened 1 crashed_night) { count = 8 } }
{}

/// Whether a scope exists is checked before whether a name is taken, and whether a task exists
/// before whether it runs. A bare group and a scope may have the same name.
pub fn what_is_not_there_is_asked_first()
    ensures { IsAnswered two_reasons }
{}

/// Each group has its own limit, and counts only its own tasks.
pub fn groups_count_their_own_tasks()
    ensures answers { IsAnswered two_groups }
    ensures result { group_look_of (state_of two_groups) 1 ≡ Some (record {
      name = codes "b";
      scope = 2;
      unfinished = 1;
      limit = Some 1;
      waited = false;
      error = None;
    }) }
{}

/// The limit of a group can be removed again.
pub fn a_limit_can_be_taken_away()
    ensures answers { IsAnswered limit_taken_away }
    ensures limit { option_and_then (λ row. row.limit)
        (slice_get (state_of limit_taken_away).work.groups 0) ≡ None }
{}

/// Groups and tasks can be added below a scope that is done, and the start of such a task reports
/// that. The order of the events decides which of two hits came first, not their moments.
pub fn below_a_done_scope_all_is_done()
    ensures answers { IsAnswered below_a_done_scope }
    ensures group { cause_after below_a_done_scope 2 ≡ Some (codes "stop") }
    ensures scope { cause_after below_a_done_scope 3 ≡ Some (codes "stop") }
    ensures no_own { own_hit (state_of below_a_done_scope).tree.scopes 2 ≡ None }
    ensures own { own_hit (state_of below_a_done_scope).tree.scopes 3 ≡ Some (record {
      event = 9;
      moment = 50;
      reason = DeadlineExceeded;
      cause = codes "late";
    }) }
{}

/// An error of a group below a done scope changes no cause, and the start of a task there reports
/// that the scope is done.
pub fn an_error_below_a_done_scope_changes_no_cause()
    ensures answers { IsAnswered error_below_a_done_scope }
    ensures cause { cause_after error_below_a_done_scope 2 ≡ Some (codes "stop") }
{}

/// An error of a bare group cancels nothing. Once the scope of the group is done, the starts of its
/// tasks report that.
pub fn a_bare_group_lives_in_any_scope()
    ensures answers { IsAnswered bare_group_in_a_groups_scope }
    ensures cause { cause_after bare_group_in_a_groups_scope 1 ≡ Some (codes "context canceled") }
{}

/// A limit can be set only while no task of the group is held, ready or running.
pub fn a_limit_is_set_between_tasks()
    ensures { IsAnswered limit_set_again }
{}

/// Two groups that one opening interrupts, one below the other, have the same cause.
pub fn nested_groups_are_interrupted_together()
    ensures answers { IsAnswered nested_groups }
    ensures above { cause_of (reopened 1 nested_groups).tree.scopes 1
        ≡ Some (codes "interrupted") }
    ensures below { cause_of (reopened 1 nested_groups).tree.scopes 2
        ≡ Some (codes "interrupted") }
    ensures count { (reopened 1 nested_groups).count ≡ 8 }
{}
