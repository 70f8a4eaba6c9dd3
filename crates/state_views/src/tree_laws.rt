//! Laws of the tree of a state, for every consistent state.
//!
//! Each function has an empty body, and its clauses are the law.

ghost use Rattle.std.specs.Prelude.{◌≡◌, ◌≤◌, Bool, List, ℕ, length};
ghost use Rattle.run_model.specs.Rules.{IsConsistent};
ghost use Rattle.run_model.specs.State.{State};
ghost use Rattle.state_views.specs.Branches.{nodes_of};
ghost use Rattle.state_views.specs.Trees.{drawn, drawn_below};
ghost use Rattle.state_views.specs.Walks.{AreRising};

/// A tree has no more levels than nodes, so to draw more levels would add nothing.
pub fn a_tree_has_no_more_levels_than_nodes()
    ensures { (levels : ℕ) (parents : List ℕ) → 1 ≤ length parents → length parents ≤ levels
        → drawn_below levels parents 0 ≡ drawn parents }
{}

/// If a state is consistent, each node of its tree except root comes after its parent, whether the
/// tree is drawn with tasks or without them.
pub fn a_node_stands_after_its_parent()
    ensures { (no_tasks : Bool) (p : State) → IsConsistent p → AreRising (nodes_of no_tasks p) }
{}
