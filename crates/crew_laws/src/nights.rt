//! No turn of a task is made twice, however many nights a crew works over a store.

ghost use Rattle.std.specs.Prelude.{◌≡◌, ◌<◌, ◌++◌, ◌∷◌, ℕ, List};
ghost use Rattle.run_model.specs.declared.commands.Step.{Step};
ghost use Rattle.run_model.specs.State.{State};
ghost use Rattle.book_model.specs.Machines.{Running};
ghost use Rattle.crew_laws.specs.Nights.{Chapter, Crewed, Deed, Follow, HaveTurn, IsNight, IsTurn};
ghost use Rattle.crew_laws.specs.Nights.{Leads};

/// No turn of a task is made twice, so no task has a first turn twice.
///
/// All turns of a task in one night are made by one worker, and each of them has a greater number
/// than the one before (`night`). If a night made a turn of a task, no later night makes any turn
/// of it (`nights`). Crashes, openings, sessions of commands and renewals may come between the two,
/// and the renewals may have given the task another number. A task that a crash has interrupted can
/// be retried, but the retry is another task.
///
/// Two premises are in no contract of a crew (`IsNight`): the calls under the lock are the steps of
/// one book, and the calls of each worker are the first ones of a shift, wherever a crash cuts them
/// off.
pub fn no_turn_is_made_twice()
    ensures night { (p : State) (early mid late : List Deed) (one two : Deed) (last : Running)
        (worker other task number later : ℕ)
        → IsNight p (early ++ one ∷ (mid ++ two ∷ late)) last
        → IsTurn one worker task number → IsTurn two other task later
        → (other ≡ worker) × (number < later) }
    ensures nights { (p q r : State) (deeds again : List Deed) (more : List Step)
        (chapters : List Chapter) (n m : ℕ) (last : Running)
        → Leads p (Crewed deeds more) q → HaveTurn deeds n → Follow q n chapters r m
        → IsNight r again last → HaveTurn again m → ⊥ }
{}
