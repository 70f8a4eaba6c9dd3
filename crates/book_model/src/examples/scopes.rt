//! Examples of scopes: causes, deadlines, values and detached parts.

ghost use Rattle.std.specs.Prelude.{◌≡◌, [], ◌∷◌, codes};
ghost use Rattle.run_model.specs.declared.scopes.Reason.TheVariants.{Canceled, DeadlineExceeded};
ghost use Rattle.run_model.specs.Scopes.{own_hit};
ghost use Rattle.book_model.specs.Examples.Nights.{IsAnswered, state_of, reason_after, cause_after};
ghost use Rattle.book_model.specs.Examples.Nights.{deadline_after, value_after, parent_cancelled};
ghost use Rattle.book_model.specs.Examples.Nights.{child_cancelled_first, child_cancelled_again};
ghost use Rattle.book_model.specs.Examples.Nights.{equal_deadlines, child_deadline_first};
ghost use Rattle.book_model.specs.Examples.Nights.{detached_part, deadlines_at_the_clock};
ghost use Rattle.book_model.specs.Examples.Nights.{timeout_past_all_moments};
ghost use Rattle.book_model.specs.Examples.Nights.{deadline_of_a_done_scope, nested_deadlines};
ghost use Rattle.book_model.specs.Examples.Nights.{nested_values, orders_of_refusals};
ghost use Rattle.book_model.specs.Examples.Nights.{deadlines_round_a_detached_scope, value_between};

/// A canceled parent ends its child, which has the parent's cause.
pub fn a_child_has_its_parents_cause()
    ensures answers { IsAnswered parent_cancelled }
    ensures reason { reason_after parent_cancelled 2 ≡ Some Canceled }
    ensures cause { cause_after parent_cancelled 2 ≡ Some (codes "disk") }
    ensures deadline { deadline_after parent_cancelled 2 ≡ None }
    ensures count { (state_of parent_cancelled).count ≡ 4 }
{}

/// A cancellation passes through a value scope.
pub fn a_value_scope_is_done_with_its_parent()
    ensures answers { IsAnswered value_between }
    ensures value { cause_after value_between 2 ≡ Some (codes "stop") }
    ensures below { cause_after value_between 3 ≡ Some (codes "stop") }
{}

/// A child that was canceled first keeps its own cause when its parent is canceled.
pub fn a_later_cancel_of_the_parent_changes_no_cause()
    ensures answers { IsAnswered child_cancelled_first }
    ensures child { cause_after child_cancelled_first 2 ≡ Some (codes "a") }
    ensures parent { cause_after child_cancelled_first 1 ≡ Some (codes "b") }
    ensures count { (state_of child_cancelled_first).count ≡ 5 }
{}

/// A scope that is done can't be canceled again, and stays as it is.
pub fn a_second_cancel_is_refused()
    ensures answers { IsAnswered child_cancelled_again }
    ensures same { state_of child_cancelled_again ≡ state_of child_cancelled_first }
{}

/// Of two scopes with the same deadline, the one with the lower number is exceeded first.
pub fn equal_deadlines_pass_in_order_of_number()
    ensures answers { IsAnswered equal_deadlines }
    ensures parent { cause_after equal_deadlines 1 ≡ Some (codes "p") }
    ensures child { cause_after equal_deadlines 2 ≡ Some (codes "p") }
    ensures reason { reason_after equal_deadlines 2 ≡ Some DeadlineExceeded }
    ensures deadline { deadline_after equal_deadlines 2 ≡ Some 100 }
    ensures count { (state_of equal_deadlines).count ≡ 4 }
{}

/// If one advance passes two deadlines, the earlier one is exceeded first.
pub fn deadlines_pass_in_order_of_moment()
    ensures answers { IsAnswered child_deadline_first }
    ensures parent { cause_after child_deadline_first 1 ≡ Some (codes "p") }
    ensures parent_reason { reason_after child_deadline_first 1 ≡ Some DeadlineExceeded }
    ensures child_reason { reason_after child_deadline_first 2 ≡ Some DeadlineExceeded }
    ensures child { cause_after child_deadline_first 2 ≡ Some (codes "c") }
    ensures parent_deadline { deadline_after child_deadline_first 1 ≡ Some 150 }
    ensures child_deadline { deadline_after child_deadline_first 2 ≡ Some 100 }
{}

/// A detached scope isn't done when its parent is, and values are still found beyond it.
pub fn a_detached_scope_goes_on()
    ensures answers { IsAnswered detached_part }
    ensures cancelled { cause_after detached_part 2 ≡ Some (codes "stop") }
    ensures detached { reason_after detached_part 3 ≡ None }
    ensures below { reason_after detached_part 4 ≡ None }
    ensures value { value_after detached_part 4 (codes "region") ≡ Some (codes "eu") }
    ensures missing { value_after detached_part 4 (codes "zone") ≡ None }
    ensures count { (state_of detached_part).count ≡ 6 }
{}

/// A deadline at the clock is exceeded as its scope is made, and the clock only moves forward.
pub fn a_deadline_at_the_clock_is_exceeded_at_once()
    ensures answers { IsAnswered deadlines_at_the_clock }
    ensures timeout { deadline_after deadlines_at_the_clock 1 ≡ Some 1704074400 }
    ensures timeout_reason { reason_after deadlines_at_the_clock 1 ≡ Some DeadlineExceeded }
    ensures timeout_cause { cause_after deadlines_at_the_clock 1
        ≡ Some (codes "context deadline exceeded") }
    ensures deadline { deadline_after deadlines_at_the_clock 2 ≡ Some 1704074400 }
    ensures cause { cause_after deadlines_at_the_clock 2
        ≡ Some (codes "context deadline exceeded") }
    ensures count { (state_of deadlines_at_the_clock).count ≡ 4 }
{}

/// A timeout beyond the greatest moment is refused. A value isn't found above its scope.
pub fn a_timeout_past_the_greatest_moment_is_refused()
    ensures answers { IsAnswered timeout_past_all_moments }
    ensures value { value_after timeout_past_all_moments 1 (codes "k") ≡ Some (codes "x") }
    ensures other_key { value_after timeout_past_all_moments 1 (codes "j") ≡ None }
    ensures at_root { value_after timeout_past_all_moments 0 (codes "k") ≡ None }
    ensures live { reason_after timeout_past_all_moments 1 ≡ None }
{}

/// If a deadline passes on a scope that is already done, the scope gets a hit of its own, and no
/// cause changes.
pub fn a_deadline_passes_on_a_done_scope()
    ensures answers { IsAnswered deadline_of_a_done_scope }
    ensures hit { own_hit (state_of deadline_of_a_done_scope).tree.scopes 2
        ≡ Some (record {
          event =
              5;
          moment = 50;
          reason = DeadlineExceeded;
          cause = codes "late";
        }) }
    ensures reason { reason_after deadline_of_a_done_scope 2 ≡ Some Canceled }
    ensures cause { cause_after deadline_of_a_done_scope 2 ≡ Some (codes "stop") }
{}

/// A deadline scope that was canceled before its deadline stays canceled. Deadlines above a
/// detached scope don't count below it.
pub fn deadlines_stop_at_a_detached_scope()
    ensures answers { IsAnswered deadlines_round_a_detached_scope }
    ensures parent_cause { cause_after deadlines_round_a_detached_scope 1 ≡ Some (codes "p") }
    ensures cancelled { reason_after deadlines_round_a_detached_scope 2 ≡ Some Canceled }
    ensures cancelled_cause { cause_after deadlines_round_a_detached_scope 2
        ≡ Some (codes "context canceled") }
    ensures cancelled_deadline { deadline_after deadlines_round_a_detached_scope 2 ≡ Some 50 }
    ensures detached { reason_after deadlines_round_a_detached_scope 3 ≡ None }
    ensures detached_deadline { deadline_after deadlines_round_a_detached_scope 3 ≡ None }
    ensures below { cause_after deadlines_round_a_detached_scope 4 ≡ Some (codes "e") }
    ensures below_reason { reason_after deadlines_round_a_detached_scope 4
        ≡ Some DeadlineExceeded }
    ensures below_deadline { deadline_after deadlines_round_a_detached_scope 4 ≡ Some 70 }
    ensures count { (state_of deadlines_round_a_detached_scope).count ≡ 7 }
{}

/// The first deadline to pass on a scope's chain is the cause, even if a deadline of the scope's
/// own passes later.
pub fn the_first_deadline_on_the_chain_is_the_cause()
    ensures answers { IsAnswered nested_deadlines }
    ensures cause { cause_after nested_deadlines 3 ≡ Some (codes "ten") }
    ensures parent { cause_after nested_deadlines 2 ≡ Some (codes "ten") }
    ensures live { reason_after nested_deadlines 1 ≡ None }
    ensures deadline { deadline_after nested_deadlines 3 ≡ Some 10 }
{}

/// Of several values under one key the nearest one counts, and a value under another key hides
/// none.
pub fn the_nearest_value_counts()
    ensures answers { IsAnswered nested_values }
    ensures far { value_after nested_values 2 (codes "k") ≡ Some (codes "far") }
    ensures near { value_after nested_values 4 (codes "k") ≡ Some (codes "near") }
    ensures other { value_after nested_values 4 (codes "j") ≡ Some (codes "other") }
    ensures beside { value_after nested_values 5 (codes "k") ≡ Some (codes "far") }
    ensures missing { value_after nested_values 5 (codes "j") ≡ None }
{}

/// If there are several reasons to refuse a step, the answer is the first of them in order.
pub fn refusals_come_in_order()
    ensures { IsAnswered orders_of_refusals }
{}
