//! Two sessions of the machine that a book is, each ended by a crash.

ghost use Rattle.std.specs.Prelude.{◌≡◌, ◌⊎◌, ◌∷◌, []};
ghost use Rattle.std.specs.List.{flat_map};
ghost use Rattle.run_model.specs.State.{State};
ghost use Rattle.book_model.specs.Machines.{GoesOn, Stored};
ghost use Rattle.book_model.specs.ManyNights.{moves_of};
ghost use Rattle.book_model.specs.Stores.{restarted};
ghost use Rattle.book_model.specs.Examples.TwoNights.{after_first, first_night, second_night};
ghost use Rattle.book_model.specs.Examples.TwoNights.{store};

/// Three events were acknowledged before the first crash, a fourth was accepted, and a fifth was
/// requested. The crash leaves the state after the first three, four or five of them, in their
/// order: no acknowledged event is lost, and nothing else is stored.
pub fn a_crash_leaves_one_of_three_states()
    ensures { (q : State) → GoesOn (Stored store) (moves_of first_night) (Stored q)
        → (q ≡ after_first 3) ⊎ (q ≡ after_first 4) ⊎ (q ≡ after_first 5) }
{}

/// The first session may leave four events, although no reply acknowledged the fourth. The second
/// session begins with a restart after those four, and may lose the one command that it accepted.
#[tactic(auto, using(crate::proofs::ExampleNights::both_nights))]
pub fn two_nights_lead_to_a_restart_of_four()
    ensures { GoesOn (Stored store) (flat_map moves_of (first_night ∷ second_night ∷ []))
        (Stored (restarted (after_first 4))) }
{}
