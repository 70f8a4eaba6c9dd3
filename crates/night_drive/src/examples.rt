//! Worked examples: the facts that the rows of a store show about commands, computed from the
//! definitions only, without any of the code.
//!
//! Each function has an empty body, and its clauses are the example.

ghost use Rattle.std.specs.Prelude.{◌≡◌, [], ◌∷◌, codes, false, map, None, Some, true};
ghost use Rattle.std.specs.List.{filter_map};
ghost use Rattle.run_model.specs.Allowed.{allowed};
ghost use Rattle.run_model.specs.declared.scopes.Kind.TheVariants as kind;
ghost use Rattle.run_model.specs.declared.tasks.Outcome.TheVariants as outcome;
ghost use Rattle.run_model.specs.Event as event;
ghost use Rattle.run_model.specs.Scopes.{chain};
ghost use Rattle.run_model.specs.Step.{own_scope, step};
ghost use Rattle.run_model.specs.Tasks.{has_stage, is_fresh};
ghost use Rattle.run_model.specs.WorkChanges.{group_of_task};
ghost use Rattle.model_laws.specs.Hits.{is_on};
ghost use Rattle.night_plan.specs.declared.facts.Phase.TheVariants as phase;
ghost use Rattle.night_plan.specs.declared.commands.Plan.{Plan as PlanLines};
ghost use Rattle.night_drive.specs.declared.names.Names.{Names as InStore};
ghost use Rattle.night_drive.specs.Distinct.{AreDistinct, IsPlain};
ghost use Rattle.night_drive.specs.Examples.{AreFour, after_all, first, known_after, known_in};
ghost use Rattle.night_drive.specs.Examples.{moments, row, row_of_two};
ghost use Rattle.night_drive.specs.Examples.{own_group, second, two_nights, withdrawal};
ghost use Rattle.night_drive.specs.Names.{belongs};
ghost use Rattle.night_drive.specs.PlanTurns.{AreBegins};
ghost use Rattle.night_drive.specs.Seen.{is_over, known_of};
ghost use Rattle.night_drive.specs.Turns.{IsLast, has_come, is_task, of_last};

/// In a store the group `disks` is called `disks`, `disks--2` or `disks--2-3`. `disks-` is another
/// group, and `disks---2` is the name of that group in its second night.
pub fn a_name_may_have_a_round()
    ensures own { map (belongs (codes "disks")) (codes "disks" ∷ codes "disks--2"
        ∷ codes "disks--2-3" ∷ codes "disk" ∷ codes "disks-" ∷ codes "disks---2"
        ∷ codes "disks2" ∷ []) ≡ true ∷ true ∷ true ∷ false ∷ false ∷ false ∷ false ∷ [] }
    ensures other { belongs (codes "disks-") (codes "disks---2") ≡ true }
{}

/// The last try shows how far a command has come, and every failure counts. An interruption isn't a
/// failure.
pub fn the_last_try_counts()
    ensures failed { known_in second (codes "disks") (codes "a") ≡ row (phase.Failed 1004) 2 }
    ensures interrupted { known_in second (codes "disks") (codes "b") ≡ row phase.Interrupted 0 }
    ensures canceled { known_in second (codes "tapes") (codes "a") ≡ row phase.Canceled 0 }
    ensures busy { known_in second (codes "disks") (codes "c") ≡ row phase.Busy 0 }
{}

/// A command hasn't begun if no task of it was started, even if one was submitted.
pub fn what_was_not_started_has_not_begun()
    ensures submitted { known_in second (codes "disks") (codes "d") ≡ row phase.Fresh 0 }
    ensures none { known_in second (codes "disks") (codes "e") ≡ row phase.Fresh 0 }
    ensures elsewhere { known_in second (codes "tapes") (codes "c") ≡ row phase.Fresh 0 }
{}

/// Each night has its own tries.
pub fn a_night_does_not_count_for_another_one()
    ensures well { known_in first (codes "disks") (codes "a") ≡ row phase.EndedOk 0 }
    ensures failed { known_in first (codes "disks") (codes "b") ≡ row (phase.Failed 1001) 1 }
    ensures later { known_in first (codes "disks") (codes "c") ≡ row phase.Fresh 0 }
{}

/// A group is done if the last scope that it has in the night is done. The scope of its deadline
/// doesn't count, and neither do scopes of another night.
pub fn a_group_is_done_with_its_scope()
    ensures canceled { is_over two_nights second (codes "tapes") ≡ true }
    ensures open { is_over two_nights second (codes "disks") ≡ false }
    ensures earlier { is_over two_nights first (codes "tapes") ≡ false }
{}

/// Task 8 is a task of `d`, and no later task is a try of `d`. Its start begins `d`, but not `a`
/// and not the `d` of the tapes.
pub fn a_start_is_a_begin()
    ensures may { allowed two_nights (event.Start 8) ≡ true }
    ensures own { is_task two_nights second (codes "disks") (codes "d") 8 ≡ true }
    ensures last { IsLast two_nights second (codes "disks") (codes "d") 8 }
    ensures begun { known_after (event.Start 8) (codes "disks") (codes "d") ≡ row phase.Busy 0 }
    ensures same { known_after (event.Start 8) (codes "disks") (codes "a")
        ≡ row (phase.Failed 1004) 2 }
    ensures elsewhere { known_after (event.Start 8) (codes "tapes") (codes "d")
        ≡ row phase.Fresh 0 }
{}

/// Task 7 is a running try of `c`, and the last one. When it ends, `c` has ended, but `a` hasn't.
pub fn a_finish_is_an_end()
    ensures may { allowed two_nights (event.Finish 7 outcome.Success) ≡ true }
    ensures own { is_task two_nights second (codes "disks") (codes "c") 7 ≡ true }
    ensures last { IsLast two_nights second (codes "disks") (codes "c") 7 }
    ensures well { known_after (event.Finish 7 outcome.Success) (codes "disks") (codes "c")
        ≡ row phase.EndedOk 0 }
    ensures failed { known_after (event.Finish 7 (outcome.Failure (codes "exit 1"))) (codes "disks")
        (codes "c") ≡ row (phase.Failed 1007) 1 }
    ensures canceled { known_after (event.Finish 7 (outcome.Failure (codes "canceled: enough")))
        (codes "disks") (codes "c") ≡ row phase.Canceled 0 }
    ensures same { known_after (event.Finish 7 outcome.Success) (codes "disks") (codes "a")
        ≡ row (phase.Failed 1004) 2 }
{}

/// If a task is withdrawn, its command is in the phase in which an earlier try left it. Of tasks 7
/// and 8 only the second one can be withdrawn, as the first was started. Its group is bare.
pub fn a_withdrawal_is_no_turn()
    ensures fresh { map (has_stage is_fresh two_nights.work) (7 ∷ 8 ∷ []) ≡ false ∷ true ∷ [] }
    ensures bare { own_scope two_nights.work (group_of_task two_nights.work 8) ≡ None }
    ensures may { allowed two_nights (event.Retry 3) ≡ true }
    ensures interrupted { known_of (after_all (event.Retry 3 ∷ event.Start 8 ∷ withdrawal 8
        ∷ event.Start 9 ∷ withdrawal 9 ∷ [])) moments second (codes "disks") (codes "b")
        ≡ row phase.Interrupted 0 }
    ensures begun { known_of (after_all (event.Retry 3 ∷ event.Start 8 ∷ withdrawal 8
        ∷ event.Start 9 ∷ [])) moments second (codes "disks") (codes "b") ≡ row phase.Busy 0 }
{}

/// After a cancel of their scope, or of the scope of their night, the disks are done. After a
/// cancel in another night they aren't. A cancel changes no fact about a command.
pub fn a_cancel_is_a_stop()
    ensures may { allowed two_nights (event.Cancel 6 None) ≡ true }
    ensures own { is_over (step two_nights (event.Cancel 6 None)) second (codes "disks") ≡ true }
    ensures above { is_over (step two_nights (event.Cancel 3 None)) second (codes "disks") ≡ true }
    ensures other { is_over (step two_nights (event.Cancel 2 None)) second (codes "disks")
        ≡ false }
    ensures command { known_after (event.Cancel 6 None) (codes "disks") (codes "c")
        ≡ row phase.Busy 0 }
{}

/// The deadline of the disks is at 9000. They are done when the clock is there, and not a moment
/// before that. The clock changes no fact about a command.
pub fn an_advance_is_a_stop()
    ensures may { allowed two_nights (event.Advance 9000) ≡ true }
    ensures come { is_over (step two_nights (event.Advance 9000)) second (codes "disks") ≡ true }
    ensures open { is_over (step two_nights (event.Advance 8999)) second (codes "disks") ≡ false }
    ensures command { known_after (event.Advance 9000) (codes "disks") (codes "c")
        ≡ row phase.Busy 0 }
{}

/// Of the commands `a` and `d` of the disks and `d` of the tapes, task 8 belongs to the second one.
pub fn a_task_has_one_command()
    ensures disks { map (λ key. is_task two_nights second (codes "disks") key 8)
        (codes "a" ∷ codes "d" ∷ []) ≡ false ∷ true ∷ [] }
    ensures tapes { is_task two_nights second (codes "tapes") (codes "d") 8 ≡ false }
{}

/// The deadline at 9000 is that of the disks alone. The scope of the night stands above the disks
/// and the tapes. No group has a scope of its own.
pub fn a_stop_is_of_its_groups()
    ensures come { map (λ group. of_last two_nights second group (has_come two_nights 9000))
        (codes "disks" ∷ codes "tapes" ∷ []) ≡ true ∷ false ∷ [] }
    ensures above { map (λ group. of_last two_nights second group
        (λ last. is_on 3 (chain two_nights.tree.scopes last)))
        (codes "disks" ∷ codes "tapes" ∷ []) ≡ true ∷ true ∷ [] }
    ensures bare { map (own_scope two_nights.work) (0 ∷ 1 ∷ 2 ∷ 3 ∷ 4 ∷ [])
        ≡ None ∷ None ∷ None ∷ None ∷ None ∷ [] }
{}

/// The tapes are done. With a new scope below that of the night, they no longer are, and nothing
/// changes about the disks. A new scope of the disks below that of the tapes is done at once.
pub fn a_new_scope_is_a_new_round()
    ensures may { map (allowed two_nights) (event.Derive (codes "tapes--2-2") 4 kind.Cause
        ∷ event.Derive (codes "disks--2-3") 7 kind.Cause ∷ []) ≡ true ∷ true ∷ [] }
    ensures again { map (is_over (after_all (event.Derive (codes "tapes--2-2") 4 kind.Cause ∷ []))
        second) (codes "tapes" ∷ codes "disks" ∷ []) ≡ false ∷ false ∷ [] }
    ensures below { map (is_over (after_all (event.Derive (codes "disks--2-3") 7 kind.Cause ∷ []))
        second) (codes "tapes" ∷ codes "disks" ∷ []) ≡ true ∷ true ∷ [] }
    ensures deadline { map (is_over (after_all
        (event.Derive (codes "tapes--2-2--until") 4 (kind.Deadline 9000 None) ∷ [])) second)
        (codes "tapes" ∷ codes "disks" ∷ []) ≡ true ∷ false ∷ [] }
{}

/// Task 9 is of a group with a scope of its own, scope 8, and a new scope of the disks stands below
/// that. When the task fails, the disks are done. When it ends well, they aren't, until the group
/// is waited for.
pub fn a_failure_is_a_stop()
    ensures may { allowed own_group (event.Finish 9 outcome.Success) ≡ true }
    ensures own { own_scope own_group.work (group_of_task own_group.work 9) ≡ Some 8 }
    ensures open { is_over own_group second (codes "disks") ≡ false }
    ensures failed { is_over (step own_group (event.Finish 9 (outcome.Failure (codes "exit 1"))))
        second (codes "disks") ≡ true }
    ensures well { is_over (step own_group (event.Finish 9 outcome.Success)) second (codes "disks")
        ≡ false }
    ensures waited { is_over (step (step own_group (event.Finish 9 outcome.Success)) (event.Wait 4))
        second (codes "disks") ≡ true }
{}

/// A name may have hyphens, but not two in a row. Where a plan's names are `a`, `d` and `e` of the
/// disks, and `d` of the tapes, they are distinct.
pub fn four_commands_have_distinct_names()
    ensures plain { IsPlain (codes "old-disks") }
    ensures rounds { IsPlain (codes "disks--2") → ⊥ }
    ensures distinct { (plan : PlanLines) (names : InStore) → AreFour plan names
        → AreDistinct plan names }
{}

/// A task of `e` is submitted, and then the tasks of `d` and `e` are started. `d` and `e` of the
/// disks begin in this row of events, and no other command of the plan does.
pub fn a_row_begins_two_commands()
    ensures may { map (allowed two_nights) (event.Go 3 (codes "sh") (codes "e") ∷ event.Start 8
        ∷ event.Start 9 ∷ []) ≡ true ∷ true ∷ false ∷ [] }
    ensures begins { (plan : PlanLines) (names : InStore) → AreFour plan names
        → AreBegins two_nights names plan.commands.items row_of_two }
    ensures those { filter_map (λ part. part.1) row_of_two ≡ 1 ∷ 2 ∷ [] }
    ensures begun { map (known_of (after_all (map (λ part. part.0) row_of_two)) moments second
        (codes "disks")) (codes "d" ∷ codes "e" ∷ codes "b" ∷ [])
        ≡ row phase.Busy 0 ∷ row phase.Busy 0 ∷ row phase.Interrupted 0 ∷ [] }
    ensures elsewhere { known_of (after_all (map (λ part. part.0) row_of_two)) moments second
        (codes "tapes") (codes "d") ≡ row phase.Fresh 0 }
{}
