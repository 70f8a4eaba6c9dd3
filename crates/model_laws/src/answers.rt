//! The answer to a call agrees with what the questions return after it.

ghost use Rattle.std.specs.Prelude.{◌≡◌, ℕ, List, Option, None, Some, IsSomeAnd};
ghost use Rattle.run_model.specs.declared.answers.Answer.TheVariants as answer;
ghost use Rattle.run_model.specs.declared.answers.Reply.TheVariants as reply;
ghost use Rattle.run_model.specs.declared.answers.Started.{Started};
ghost use Rattle.run_model.specs.declared.commands.Command.TheVariants as command;
ghost use Rattle.run_model.specs.declared.commands.Step.TheVariants as step;
ghost use Rattle.run_model.specs.declared.commands.Wish.{Wish};
ghost use Rattle.run_model.specs.declared.tasks.Phase.{Phase};
ghost use Rattle.run_model.specs.declared.tasks.Phase.TheVariants.{Ready};
ghost use Rattle.run_model.specs.Questions.{task_look_of};
ghost use Rattle.run_model.specs.Replies.{scope_of, group_of};
ghost use Rattle.run_model.specs.declared.tasks.Task.{Task};
ghost use Rattle.run_model.specs.State.{State};
ghost use Rattle.run_model.specs.Session.{Session};
ghost use Rattle.run_model.specs.Rules.{HasRow};
ghost use Rattle.model_laws.specs.Answers.{Answered, Replied, SeesGroup, SeesStart, SeesWait};
ghost use Rattle.model_laws.specs.Answers.{seen_name, task_seen};

/// A new scope or group is found at the number in the answer, under the name that was given. A
/// group's own scope has the group's name. A bare group has no scope of its own, and belongs to the
/// scope that was given.
pub fn what_is_made_is_seen()
    ensures scope { (s : Session) (name parent : List ℕ) (wish : Wish) (n : ℕ) (q : State)
        → Answered s (command.Derive name parent wish) (answer.Scope n) q
        → seen_name q n ≡ Some name }
    ensures group { (s : Session) (name parent : List ℕ) (g : ℕ) (own : Option ℕ) (q : State)
        → Answered s (command.Group name parent) (answer.Group g own) q
        → IsSomeAnd own (λ n. SeesGroup q g name n × (seen_name q n ≡ Some name)) }
    ensures bare { (s : Session) (name scope : List ℕ) (g : ℕ) (own : Option ℕ) (q : State)
        → Answered s (command.Bare name scope) (answer.Group g own) q
        → (own ≡ None) × SeesGroup q g name (scope_of s.state scope) }
{}

/// A submitted task is found at the number and in the phase that the answer gives. After a try that
/// phase is ready. A retry has the group, the job and the argument of the old task, and a link to
/// it.
pub fn what_is_submitted_is_seen()
    ensures go { (s : Session) (group job argument : List ℕ) (n : ℕ) (phase : Phase) (q : State)
        → Answered s (command.Go group job argument) (answer.Task n phase) q
        → task_look_of q n ≡ Some (task_seen (group_of s.state group) job argument phase None) }
    ensures tried { (s : Session) (group job argument : List ℕ) (n : ℕ) (phase : Phase) (q : State)
        → Answered s (command.TryGo group job argument) (answer.Task n phase) q
        → (phase ≡ Ready)
        × (task_look_of q n ≡ Some (task_seen (group_of s.state group) job argument phase None)) }
    ensures retried { (s : Session) (n m : ℕ) (row : Task) (phase : Phase) (q : State)
        → HasRow s.state.work.tasks n row → Answered s (command.Retry n) (answer.Task m phase) q
        → task_look_of q m ≡ Some (task_seen row.group row.job row.argument phase (Some n)) }
{}

/// A group that was waited for is shown as waited for, with the error that the answer gave.
pub fn what_is_waited_for_is_seen()
    ensures { (s : Session) (group : List ℕ) (error : Option (List ℕ)) (q : State)
        → Answered s (command.Wait group) (answer.Waited error) q
        → SeesWait q (group_of s.state group) error }
{}

/// A started task is shown as running.
pub fn what_is_started_is_seen()
    ensures { (s : Session) (started : Started) (q : State)
        → Replied s step.Start (reply.Started started) q → SeesStart q started }
{}
