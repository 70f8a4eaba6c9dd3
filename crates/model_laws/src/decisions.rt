//! What is decided is what is allowed.

ghost use Rattle.std.specs.Prelude.{◌≡◌, ◌↔◌, ℕ, true, List, Option, Some, IsSomeAnd, Ok};
ghost use Rattle.run_model.specs.declared.scopes.Kind.TheVariants.{Cause};
ghost use Rattle.run_model.specs.declared.tasks.Outcome.{Outcome};
ghost use Rattle.run_model.specs.declared.commands.Command.{Command};
ghost use Rattle.run_model.specs.Event.{Event, Cancel};
ghost use Rattle.run_model.specs.State.{State};
ghost use Rattle.run_model.specs.Allowed.{allowed};
ghost use Rattle.run_model.specs.Records.{is_recorded};
ghost use Rattle.run_model.specs.Replies.{decide, decide_start, decide_finish};
ghost use Rattle.run_model.specs.Rules.{AreNumbered};
ghost use Rattle.model_laws.specs.Decided.{AreNamed, IsCancelledByCommand, IsDecided, is_command};
ghost use Rattle.model_laws.specs.Decided.{scope_kind};

/// If a command, a start or a finish is decided as an event, that event is allowed, in every state
/// and at every length of the log.
pub fn what_is_decided_is_allowed()
    ensures commands { (p : State) (log : ℕ) (call : Command) (event : Event)
        → decide p log call ≡ Ok (Some event) → allowed p event ≡ true }
    ensures starts { (p : State) (log : ℕ) (event : Event)
        → decide_start p log ≡ Ok (Some event) → allowed p event ≡ true }
    ensures finishes { (p : State) (n : ℕ) (outcome : Outcome) (event : Event)
        → decide_finish p n outcome ≡ Ok (Some event) → allowed p event ≡ true }
{}

/// Conversely, take a state that a store can hold: its names are distinct, and its rows are within
/// their limits. An event that has a record is allowed there exactly if some call, made while the
/// log is empty, is decided as that event.
pub fn what_is_allowed_is_decided()
    ensures { (p : State) (event : Event) → AreNumbered p → is_recorded event ≡ true
        → (allowed p event ≡ true) ↔ IsDecided p event }
{}

/// If a command is decided as an event that has a record, a caller can write that command: its
/// fields are in range, if the names of the rows are.
pub fn a_decided_command_can_be_given()
    ensures { (p : State) (log : ℕ) (call : Command) (event : Event) → AreNamed p
        → is_recorded event ≡ true → decide p log call ≡ Ok (Some event) → is_command call ≡ true }
{}

/// A command can cancel only cancel, cause and deadline scopes, and it can give a cause only to a
/// cause scope.
pub fn a_cause_is_given_to_a_cause_scope()
    ensures cause { (p : State) (s : ℕ) (text : List ℕ)
        → allowed p (Cancel s (Some text)) ≡ true
        → scope_kind p s ≡ Some Cause }
    ensures cancelled { (p : State) (s : ℕ) (cause : Option (List ℕ))
        → allowed p (Cancel s cause) ≡ true
        → IsSomeAnd (scope_kind p s) IsCancelledByCommand }
{}
