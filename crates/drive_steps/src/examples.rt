//! Worked examples: the steps in which commands begin, and which begins are reported, computed from
//! the definitions only, without any of the code.
//!
//! Each function has an empty body, and its clauses are the example.

ghost use Rattle.std.specs.Prelude.{◌≡◌, [], ◌∷◌, codes, false, None, Some, true};
ghost use Rattle.run_model.specs.declared.commands.Command.TheVariants as call;
ghost use Rattle.run_model.specs.declared.faults.Fault.TheVariants as fault;
ghost use Rattle.run_model.specs.declared.answers.Reply.TheVariants as reply;
ghost use Rattle.run_model.specs.declared.refusals.Refusal.TheVariants as refusal;
ghost use Rattle.run_model.specs.declared.commands.Step.TheVariants as step;
ghost use Rattle.run_model.specs.Event as event;
ghost use Rattle.run_model.specs.Session.{begun_at, event_of_step, replies};
ghost use Rattle.night_plan.specs.declared.commands.Plan.{Plan as PlanLines};
ghost use Rattle.night_drive.specs.declared.names.Names.{Names as InStore};
ghost use Rattle.night_drive.specs.Examples.{AreFour, first, second};
ghost use Rattle.drive_steps.specs.Examples.{at_rest, begin, ended_ok, new_night, opened_again};
ghost use Rattle.drive_steps.specs.Examples.{row_of_d_and_e, started, submitted};
ghost use Rattle.drive_steps.specs.Fits.{fits};
ghost use Rattle.drive_steps.specs.Living.{IsBetween, living_after};
ghost use Rattle.drive_steps.specs.Rounds.{AreCanceled, done_from};
ghost use Rattle.drive_steps.specs.Cancels.{canceled_text, cuts_of, is_open_after, stops_of};
ghost use Rattle.drive_steps.specs.Examples.{cancel_command, cancel_group, cut_of_d, ended_badly};
ghost use Rattle.drive_steps.specs.Examples.{canceled_round, stop_of_disks};
ghost use Rattle.drive_steps.specs.Rooms.{last_group};
ghost use Rattle.drive_steps.specs.Rows.{Reports};
ghost use Rattle.drive_steps.specs.Starts.{next_of, row_of};
ghost use Rattle.drive_steps.specs.Stops.{group_why, own_why};
ghost use Rattle.drive_steps.specs.Reported.{begins_reported};

/// A task gets into the last group of the store that is the plan's group in this night. In the
/// second night that is the second group of the disks.
pub fn a_task_gets_into_the_last_group()
    ensures disks { last_group at_rest second (codes "disks") ≡ Some 3 }
    ensures earlier { last_group at_rest first (codes "disks") ≡ Some 0 }
    ensures none { last_group at_rest first (codes "tapes") ≡ None }
{}

/// The clock of the store only moves forwards. A round at the same moment as the last one, or at an
/// earlier one, moves nothing.
pub fn a_clock_moves_forwards()
    ensures later { event_of_step (begun_at at_rest) (step.Command (call.Advance 2001))
        ≡ Some (event.Advance 2001) }
    ensures same { event_of_step (begun_at at_rest) (step.Command (call.Advance 2000)) ≡ None }
    ensures earlier { event_of_step (begun_at at_rest) (step.Command (call.Advance 1999)) ≡ None }
{}

/// The next task of a command is a new one, or the retry of its last try if that was interrupted in
/// the same group. The interrupted try of `b` is in an earlier group of the disks.
pub fn what_was_interrupted_is_retried()
    ensures new { next_of at_rest second (codes "disks") (codes "e")
        ≡ call.Go (codes "disks--2-2") (codes "sh") (codes "e") }
    ensures failed { next_of at_rest second (codes "disks") (codes "a")
        ≡ call.Go (codes "disks--2-2") (codes "sh") (codes "a") }
    ensures interrupted { next_of opened_again second (codes "disks") (codes "c") ≡ call.Retry 7 }
    ensures earlier { next_of opened_again second (codes "disks") (codes "b")
        ≡ call.Go (codes "disks--2-2") (codes "sh") (codes "b") }
{}

/// For each command a task is submitted and started. The last step is a flush.
pub fn two_commands_begin_in_a_row()
    ensures row { (plan : PlanLines) (names : InStore) → AreFour plan names
        → row_of at_rest names plan.commands.items (1 ∷ 2 ∷ []) ≡ row_of_d_and_e }
    ensures reported { begins_reported (1 ∷ 2 ∷ []) (replies (begun_at at_rest) row_of_d_and_e)
        ≡ Some (begin 1 9 ∷ begin 2 10 ∷ []) }
{}

/// What the laws of a row ask of a session can be so. In a new store, whose groups have no task
/// yet, `d` and `e` of the disks begin, with its first two tasks.
pub fn two_commands_are_reported_in_a_new_store()
    ensures { (plan : PlanLines) (names : InStore) → AreFour plan names
        → Reports (begun_at new_night) plan names (1 ∷ 2 ∷ []) (begin 1 0 ∷ begin 2 1 ∷ []) }
{}

/// The laws of rounds ask for what there is. In a new store no try lives. When the first try of `d`
/// has ended and `a` has begun, the try of `e` lives on, and that of `a` lives, too.
pub fn what_has_ended_lives_no_longer()
    ensures new { (plan : PlanLines) (names : InStore) → AreFour plan names
        → IsBetween new_night plan names [] }
    ensures ended { living_after (begin 1 0 ∷ begin 2 1 ∷ []) (ended_ok 0 ∷ []) (begin 0 2 ∷ [])
        ≡ begin 2 1 ∷ begin 0 2 ∷ [] }
{}

/// A command can be canceled after a try that failed or was interrupted, also if that end was only
/// heard in this round. It can't after one that runs, ended well or was canceled.
pub fn a_command_is_canceled_while_it_does_not_run()
    ensures failed { is_open_after at_rest [] 4 ≡ true }
    ensures interrupted { is_open_after at_rest [] 3 ≡ true }
    ensures heard { is_open_after at_rest (ended_badly 7 ∷ []) 7 ≡ true }
    ensures runs { is_open_after at_rest [] 7 ≡ false }
    ensures ended { is_open_after at_rest (ended_ok 7 ∷ []) 7 ≡ false }
    ensures canceled { is_open_after at_rest [] 6 ≡ false }
{}

/// The cancel of a command is the end of a new task. The cancel of a group is that of its last
/// scope. The tapes are done already, so their cancel has no step.
pub fn cancels_have_steps()
    ensures text { canceled_text (codes "by hand") ≡ codes "canceled: by hand" }
    ensures command { (plan : PlanLines) (names : InStore) → AreFour plan names
        → cuts_of at_rest names plan.commands.items 9 (cancel_command 1 ∷ []) ≡ cut_of_d 9 }
    ensures groups { (plan : PlanLines) (names : InStore) → AreFour plan names
        → stops_of at_rest names (cancel_group 0 ∷ cancel_group 1 ∷ []) ≡ stop_of_disks }
{}

/// What the laws of a round ask of cancels can be so. In a new store `d` of the disks is canceled,
/// and then the disks are.
pub fn a_command_is_canceled_in_a_new_store()
    ensures { (plan : PlanLines) (names : InStore) → AreFour plan names
        → AreCanceled (begun_at new_night) plan names canceled_round }
{}

/// A try that has to stop has the reason of its command's cancel, or else that of its group's.
pub fn a_stop_has_a_reason()
    ensures own { own_why (cancel_command 1 ∷ []) 1 ≡ Some (codes "by hand") }
    ensures other { own_why (cancel_command 1 ∷ []) 2 ≡ None }
    ensures tapes { group_why at_rest second (codes "tapes") ≡ Some (codes "no tapes") }
    ensures disks { group_why at_rest second (codes "disks") ≡ None }
{}

/// A new store of the small layout has a row for 2,048 tasks. Its log has 1,048,576 bytes.
pub fn a_full_store_has_no_room()
    ensures rows { fits new_night 0 2048 ≡ true }
    ensures no_row { fits new_night 0 2049 ≡ false }
    ensures bytes { fits new_night 1048450 1 ≡ true }
    ensures no_byte { fits new_night 1048451 1 ≡ false }
{}

/// Groups 1 and 2 of three are done.
pub fn groups_that_are_done_are_listed()
    ensures { done_from 0 (false ∷ true ∷ true ∷ []) ≡ 1 ∷ 2 ∷ [] }
{}

/// Nothing is reported if the flush met a fault, or if a step was refused, even if some task was
/// started and the flush was acknowledged.
pub fn nothing_is_reported_of_half_a_row()
    ensures all { begins_reported (1 ∷ 2 ∷ []) (submitted 9 ∷ started 9 (codes "d") ∷ submitted 10
        ∷ started 10 (codes "e") ∷ reply.Acked 44 ∷ [])
        ≡ Some (begin 1 9 ∷ begin 2 10 ∷ []) }
    ensures fault { begins_reported (1 ∷ []) (submitted 9 ∷ started 9 (codes "d")
        ∷ reply.Faulty fault.DiskFailed ∷ []) ≡ None }
    ensures refused { begins_reported (1 ∷ 2 ∷ []) (submitted 9 ∷ started 9 (codes "d")
        ∷ reply.Refused refusal.TooManyTasks ∷ reply.Refused refusal.NothingReady
        ∷ reply.Acked 42 ∷ []) ≡ None }
    ensures nothing { begins_reported [] (reply.Acked 40 ∷ []) ≡ Some [] }
{}
