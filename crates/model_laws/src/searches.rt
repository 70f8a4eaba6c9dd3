//! Each search upwards from a scope is one step from its parent: the row of the scope and the
//! parent's result determine the result. The first hit is the first one on the chain.

ghost use Rattle.std.specs.Prelude.{◌≡◌, ℕ, List};
ghost use Rattle.run_model.specs.declared.scopes.Scope.{Scope};
ghost use Rattle.run_model.specs.Scopes.{line, chain, first_hit, deadline_of};
ghost use Rattle.model_laws.specs.Searches.{OfEachScope, line_from, chain_from, first_hit_from};
ghost use Rattle.model_laws.specs.Searches.{deadline_from, HasValuesFrom, IsFirstTheLeast};

/// A line goes up to root, and a chain goes up to the first detached scope.
pub fn lines_go_up()
    ensures line { OfEachScope (λ rows s row. line rows s ≡ line_from rows s row) }
    ensures chain { OfEachScope (λ rows s row. chain rows s ≡ chain_from rows s row) }
{}

/// The result of a search from a scope follows from what the scope itself has, and from the same
/// search at its parent. The first hit and the deadline are the earlier of the two. A value is the
/// scope's own, or else the one from above. The first hit and the deadline of a detached scope are
/// none.
pub fn searches_go_up()
    ensures first_hit { OfEachScope (λ rows s row. first_hit rows s ≡ first_hit_from rows s row) }
    ensures deadline { OfEachScope (λ rows s row. deadline_of rows s ≡ deadline_from rows row) }
    ensures value { OfEachScope HasValuesFrom }
{}

/// The hit that made a scope done is the first one on its chain.
pub fn the_first_hit_is_the_least()
    ensures { (rows : List Scope) (s : ℕ) → IsFirstTheLeast rows s }
{}
