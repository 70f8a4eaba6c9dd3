//! The answers to a list of steps, by a book whose device may fail.

ghost use Rattle.std.specs.Prelude.{◌≡◌, ◌+◌, ◌++◌, [], ◌∷◌, ℕ, List, true, false, length, map};
ghost use Rattle.std.specs.Prelude.{Some, None};
ghost use Rattle.std.specs.List.{list_any};
ghost use Rattle.run_model.specs.declared.answers.Reply.{Reply};
ghost use Rattle.run_model.specs.declared.answers.Reply.TheVariants as reply;
ghost use Rattle.run_model.specs.declared.commands.Step.{Step};
ghost use Rattle.run_model.specs.declared.refusals.Refusal.TheVariants.{Broken};
ghost use Rattle.run_model.specs.Allowed.{run};
ghost use Rattle.run_model.specs.Event.{Event};
ghost use Rattle.run_model.specs.Session.{Session, accepted, acknowledged, replies, session_after};
ghost use Rattle.book_model.specs.Plays.{Playing, Plays, sound, stuck, taken};
ghost use Rattle.book_model.specs.Plays.{is_device_failure, is_fault, last_acked};
ghost use Rattle.book_model.specs.Plays.{replies_beside_saves, without_saves};

/// Each step has one reply. The steps and their replies determine the book after them.
pub fn each_step_has_its_reply()
    ensures count { (b end : Playing) (steps : List Step) (answers : List Reply)
        → Plays b steps answers end → length answers ≡ length steps }
    ensures one_end { (b end other : Playing) (steps : List Step) (answers : List Reply)
        → Plays b steps answers end → Plays b steps answers other → end ≡ other }
{}

/// A list of steps may be split into any parts, with one call for each part.
pub fn steps_may_be_split()
    ensures { (b middle end : Playing) (steps more : List Step) (answers others : List Reply)
        → Plays b steps answers middle → Plays middle more others end
        → Plays b (steps ++ more) (answers ++ others) end }
{}

/// A broken book refuses each step as Broken, and stays as it is. After a step whose device call
/// failed, every further step is refused in this way.
pub fn a_broken_book_refuses_each_step()
    ensures broken { (s : Session) (end : Playing) (steps : List Step) (answers : List Reply)
        → Plays (stuck s) steps answers end
        → (answers ≡ map (λ _. reply.Refused Broken) steps) × (end ≡ stuck s) }
    ensures failed { (b end : Playing) (x : Step) (r : Reply) (steps : List Step)
        (answers : List Reply) → is_device_failure r ≡ true
        → Plays b (x ∷ steps) (r ∷ answers) end
        → answers ≡ map (λ _. reply.Refused Broken) steps }
{}

/// If no reply is a fault, a book that isn't broken answers as its session does, and isn't broken
/// after the steps. Conversely, the book may give every answer that the session may give.
pub fn without_faults_a_book_answers_as_its_session()
    ensures only { (s : Session) (end : Playing) (steps : List Step) (answers : List Reply)
        → Plays (sound s) steps answers end → list_any is_fault answers ≡ false
        → (answers ≡ replies s steps) × (end ≡ sound (session_after s steps)) }
    ensures may { (s : Session) (steps : List Step)
        → Plays (sound s) steps (replies s steps) (sound (session_after s steps)) }
{}

/// If no fault occurs, two lists that differ only in their saves give the other steps the same
/// replies, and leave the same session.
pub fn saves_change_no_other_reply()
    ensures { (s : Session) (end other : Playing) (steps more : List Step)
        (answers others : List Reply) → without_saves steps ≡ without_saves more
        → Plays (sound s) steps answers end → list_any is_fault answers ≡ false
        → Plays (sound s) more others other → list_any is_fault others ≡ false
        → (replies_beside_saves steps answers ≡ replies_beside_saves more others)
        × (end ≡ other) }
{}

/// The accepted events of those steps that weren't answered Broken are allowed one after another.
/// The state and the session after the steps depend on them only.
pub fn accepted_events_make_what_is_left()
    ensures state { (b end : Playing) (steps : List Step) (answers : List Reply)
        → Plays b steps answers end
        → run b.session.state (accepted b.session (taken steps answers)) ≡ Some end.session.state }
    ensures session { (b end : Playing) (steps : List Step) (answers : List Reply)
        → Plays b steps answers end → end.session ≡ session_after b.session (taken steps answers) }
{}

/// The acknowledged events are a prefix of the accepted ones. The last save that succeeded returned
/// their number, counted from the state before. If no save succeeded, no event is acknowledged.
pub fn acknowledged_events_are_the_first_accepted()
    ensures first { (b end : Playing) (steps : List Step) (answers : List Reply)
        → Plays b steps answers end
        → (more : List Event) × (accepted b.session (taken steps answers)
        ≡ acknowledged b.session steps answers ++ more) }
    ensures counted { (b end : Playing) (steps : List Step) (answers : List Reply) (n : ℕ)
        → Plays b steps answers end → last_acked answers ≡ Some n
        → n ≡ b.session.state.count + length (acknowledged b.session steps answers) }
    ensures none { (s : Session) (steps : List Step) (answers : List Reply)
        → last_acked answers ≡ None → acknowledged s steps answers ≡ [] }
{}
