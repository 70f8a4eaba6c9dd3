//! How far a hit on a scope reaches: every scope that has this scope on its chain is done. Only a
//! detached scope shields the scopes below it.

ghost use Rattle.std.specs.Prelude.{◌≡◌, ℕ, List, IsSome};
ghost use Rattle.run_model.specs.declared.scopes.Scope.{Scope};
ghost use Rattle.run_model.specs.State.{State};
ghost use Rattle.run_model.specs.Scopes.{chain, own_hit, is_done};
ghost use Rattle.run_model.specs.Rules.{IsConsistent};
ghost use Rattle.model_laws.specs.Hits.{has_hit, IsAttached, EndsBelow, IsOnChains};
ghost use Rattle.model_laws.specs.Hits.{EndsAllButCutOff, HitsReachDown};

/// A scope is done exactly when a scope on its chain was hit.
pub fn a_scope_is_done_by_a_hit_on_its_chain()
    ensures { (rows : List Scope) (s : ℕ) → is_done rows s ≡ has_hit (chain rows s) }
{}

/// A scope that isn't detached is on the chain of each scope below it, unless the lower one is cut
/// off by a detached scope.
pub fn a_detached_scope_cuts_chains()
    ensures { (rows : List Scope) (n : ℕ) → IsAttached rows n → IsOnChains rows n }
{}

/// A hit on a scope ends every scope that has it on its chain. If a scope below it doesn't have it
/// on its chain, then it is detached, or a detached scope is between the two. In a consistent state
/// no detached scope was hit.
pub fn a_hit_reaches_down()
    ensures ends { (rows : List Scope) (n : ℕ) → IsSome (own_hit rows n) → EndsBelow rows n }
    ensures cut { (rows : List Scope) (n : ℕ) → IsAttached rows n → EndsAllButCutOff rows n }
    ensures consistent { (p : State) → IsConsistent p → HitsReachDown p.tree.scopes }
{}
