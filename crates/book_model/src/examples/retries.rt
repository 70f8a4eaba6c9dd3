//! Examples of interrupted tasks that are retried.

ghost use Rattle.std.specs.Prelude.{◌≡◌, map, true, false, Some, None, codes};
ghost use Rattle.run_model.specs.declared.refusals.Refusal.TheVariants as refusal;
ghost use Rattle.run_model.specs.declared.tasks.Phase.TheVariants as phase;
ghost use Rattle.run_model.specs.declared.tasks.Stage.TheVariants.{Failure, Fresh, Interrupted};
ghost use Rattle.run_model.specs.declared.tasks.Stage.TheVariants.{Running, Success};
ghost use Rattle.run_model.specs.Questions.{task_look_of};
ghost use Rattle.run_model.specs.Session.{replies, reply_of_step};
ghost use Rattle.book_model.specs.Examples.Calls.{refused, retry, submitted};
ghost use Rattle.book_model.specs.Examples.Nights.{steps_of};
ghost use Rattle.book_model.specs.Examples.Retries.{after_night, one_interrupted, opened_again};
ghost use Rattle.book_model.specs.Examples.Retries.{retried_again, retried_once, retried_store};
ghost use Rattle.book_model.specs.Examples.Retries.{retry_started, two_tasks};

/// An interrupted task is retried once. The retry is a new task, which the limit of the group
/// holds.
pub fn an_interrupted_task_is_retried_once()
    ensures answers { replies one_interrupted (steps_of retried_once)
        ≡ map (λ line. line.1) retried_once }
    ensures seen { task_look_of retried_store.state 2
        ≡ Some (record {
          group = 0;
          job = codes "copy";
          argument = codes "a";
          phase = phase.Held;
          retry_of = Some 0;
        }) }
    ensures old { task_look_of retried_store.state 0
        ≡ Some (record {
          group = 0;
          job = codes "copy";
          argument = codes "a";
          phase = phase.Interrupted;
          retry_of = None;
        }) }
    ensures count { retried_store.state.count ≡ 8 }
{}

/// A retry that is interrupted itself is retried under its own number.
pub fn a_retry_is_retried_by_its_own_number()
    ensures before { replies retried_store (steps_of retry_started)
        ≡ map (λ line. line.1) retry_started }
    ensures answers { replies (opened_again (after_night retried_store retry_started))
        (steps_of retried_again)
        ≡ map (λ line. line.1) retried_again }
{}

/// A task that has succeeded or failed can't be retried, and neither can a running task.
pub fn only_an_interrupted_task_is_retried()
    ensures running { reply_of_step (two_tasks false Running None 0 0) (retry 0)
        ≡ refused refusal.NotInterrupted }
    ensures success { reply_of_step (two_tasks false Success None 0 0) (retry 0)
        ≡ refused refusal.NotInterrupted }
    ensures failure { reply_of_step (two_tasks false (Failure (codes "x")) None 0 0) (retry 0)
        ≡ refused refusal.NotInterrupted }
    ensures interrupted { reply_of_step (two_tasks false Interrupted None 0 0) (retry 0)
        ≡ submitted 2 phase.Ready }
{}

/// Each refusal of a retry comes before those that are listed after it here, although all of them
/// apply at once.
pub fn a_retry_is_refused_in_this_order()
    ensures no_task { reply_of_step (two_tasks true Fresh (Some 2048) 2046 1048576) (retry 2048)
        ≡ refused refusal.NoSuchTask }
    ensures not_interrupted { reply_of_step (two_tasks true Fresh (Some 0) 2046 1048576) (retry 0)
        ≡ refused refusal.NotInterrupted }
    ensures retried { reply_of_step (two_tasks true Interrupted (Some 0) 2046 1048576) (retry 0)
        ≡ refused refusal.AlreadyRetried }
    ensures waited { reply_of_step (two_tasks true Interrupted None 2046 1048576) (retry 0)
        ≡ refused refusal.Waited }
    ensures no_room { reply_of_step (two_tasks false Interrupted None 2046 1048576) (retry 0)
        ≡ refused refusal.TooManyTasks }
    ensures full { reply_of_step (two_tasks false Interrupted None 2045 1048572) (retry 0)
        ≡ refused refusal.SessionFull }
    ensures accepted { reply_of_step (two_tasks false Interrupted None 2045 1048571) (retry 0)
        ≡ submitted 2047 phase.Ready }
{}
