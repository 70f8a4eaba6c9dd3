//! A scope that is done keeps its ending: through every later event it has the same reason and the
//! same cause.

ghost use Rattle.std.specs.Prelude.{◌≡◌, ℕ, List, Some};
ghost use Rattle.run_model.specs.declared.scopes.Reason.{Reason};
ghost use Rattle.run_model.specs.declared.scopes.Scope.{Scope};
ghost use Rattle.run_model.specs.Scopes.{cause_of, reason_of};
ghost use Rattle.model_laws.specs.Endings.{EndingsStay, EndingsStayThroughEvents};
ghost use Rattle.model_laws.specs.Endings.{EndingsStayThroughRuns};
ghost use Rattle.model_laws.specs.Endings.{DerivesKeepEndings, CancelsKeepEndings};
ghost use Rattle.model_laws.specs.Endings.{AdvancesKeepEndings, LevelHitsKeepEndings};

/// In a well-formed state, a scope that is done keeps its reason and its cause through every
/// allowed event, restarts included.
pub fn endings_stay()
    ensures events { EndingsStayThroughEvents }
    ensures runs { EndingsStayThroughRuns }
{}

/// If each scope that was done is still done by the same hit, it is done for the same reason and
/// with the same cause. (The hit that made a scope done is its ending.)
pub fn reasons_and_causes_stay()
    ensures reasons { (old new : List Scope) → EndingsStay old new → (s : ℕ) (reason : Reason)
        → reason_of old s ≡ Some reason → reason_of new s ≡ Some reason }
    ensures causes { (old new : List Scope) → EndingsStay old new → (s : ℕ) (cause : List ℕ)
        → cause_of old s ≡ Some cause → cause_of new s ≡ Some cause }
{}

/// If the number of an event is greater than that of each hit of a tree, the event leaves the hit
/// that made a scope done, its ending, as it was.
pub fn changes_keep_endings()
    ensures derive { DerivesKeepEndings }
    ensures cancel { CancelsKeepEndings }
    ensures advance { AdvancesKeepEndings }
{}

/// A hit with the same number and moment as an earlier one leaves every ending as it was. That is
/// why one restart can end several groups, one after another.
pub fn a_level_hit_keeps_endings()
    ensures { LevelHitsKeepEndings }
{}
