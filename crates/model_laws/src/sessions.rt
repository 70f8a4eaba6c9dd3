//! What a list of steps leaves of a session.

ghost use Rattle.std.specs.Prelude.{◌≡◌, ◌≤◌, ℕ, ◌+◌, ◌++◌, true, List, [], ◌∷◌, Some, Ok, length};
ghost use Rattle.std.specs.List.{sum_by, list_all};
ghost use Rattle.run_model.specs.declared.commands.Command.TheVariants as command;
ghost use Rattle.run_model.specs.declared.commands.Step.{Step};
ghost use Rattle.run_model.specs.declared.commands.Step.TheVariants as step;
ghost use Rattle.run_model.specs.declared.answers.Reply.TheVariants as reply;
ghost use Rattle.run_model.specs.declared.refusals.Refusal.{Refusal};
ghost use Rattle.run_model.specs.declared.tasks.Outcome.{Outcome};
ghost use Rattle.run_model.specs.declared.bounds.TheConstants.{MOST_TASKS, SESSION_LEN};
ghost use Rattle.run_model.specs.Event.{Finish};
ghost use Rattle.run_model.specs.State.{State};
ghost use Rattle.run_model.specs.Allowed.{run};
ghost use Rattle.run_model.specs.Records.{is_outcome};
ghost use Rattle.run_model.specs.Spelling.{record_len};
ghost use Rattle.run_model.specs.Replies.{has_waited, group_of, decide_finish};
ghost use Rattle.run_model.specs.Session.{Session, begun_at, session_after, accepted};
ghost use Rattle.run_model.specs.Session.{reply_of_step};
ghost use Rattle.run_model.specs.Tasks.{has_stage, is_running};
ghost use Rattle.model_laws.specs.Reserves.{HasReserve, can_be_written};

/// The accepted events of a list of steps are appended to the history. Each is allowed at its
/// place. They alone determine the state and the log after the steps.
pub fn accepted_events_make_the_session()
    ensures start { (s : Session) (steps : List Step) → (session_after s steps).start ≡ s.start }
    ensures history { (s : Session) (steps : List Step)
        → (session_after s steps).history ≡ s.history ++ accepted s steps }
    ensures state { (s : Session) (steps : List Step)
        → run s.state (accepted s steps) ≡ Some (session_after s steps).state }
    ensures count { (s : Session) (steps : List Step)
        → (session_after s steps).state.count ≡ s.state.count + length (accepted s steps) }
    ensures log { (s : Session) (steps : List Step)
        → (session_after s steps).log ≡ s.log + sum_by record_len (accepted s steps) }
{}

/// A refused step, a repeated wait, a flush and a checkpoint leave the state and the log as they
/// were.
pub fn what_is_refused_changes_nothing()
    ensures refused { (s : Session) (x : Step) (why : Refusal)
        → reply_of_step s x ≡ reply.Refused why → session_after s (x ∷ []) ≡ s }
    ensures repeated_wait { (s : Session) (group : List ℕ)
        → has_waited s.state.work (group_of s.state group) ≡ true
        → session_after s (step.Command (command.Wait group) ∷ []) ≡ s }
    ensures flush { (s : Session) → session_after s (step.Flush ∷ []) ≡ s }
    ensures checkpoint { (s : Session) → session_after s (step.Checkpoint ∷ []) ≡ s }
{}

/// A finish of a running task is never refused, and its record fits into the log.
pub fn a_running_task_can_finish()
    ensures accepted { (p : State) (n : ℕ) (outcome : Outcome)
        → has_stage is_running p.work n ≡ true
        → decide_finish p n outcome ≡ Ok (Some (Finish n outcome)) }
    ensures room { (s : Session) (n : ℕ) (outcome : Outcome) → HasReserve s
        → has_stage is_running s.state.work n ≡ true → is_outcome outcome ≡ true
        → s.log + record_len (Finish n outcome) ≤ SESSION_LEN }
{}

/// When a state is opened that has no more tasks than a store can hold, the log has enough free
/// bytes for the finishes of the running tasks, and every step keeps it so. So the log never
/// exceeds its greatest length.
pub fn the_log_keeps_its_reserve()
    ensures opening { (p : State) → length p.work.tasks ≤ MOST_TASKS → HasReserve (begun_at p) }
    ensures steps { (s : Session) (steps : List Step) → list_all can_be_written steps ≡ true
        → HasReserve s → HasReserve (session_after s steps) }
    ensures short { (s : Session) → HasReserve s → s.log ≤ SESSION_LEN }
{}
