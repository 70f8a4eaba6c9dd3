//! Laws of the rows that a tree reads. Each function has an empty body, and its clause is the law.

ghost use Rattle.std.specs.Prelude.{◌≡◌, List, ℕ, Some};
ghost use Rattle.run_model.specs.declared.layouts.Layout.{Layout};
ghost use Rattle.run_model.specs.State.{TreeState};
ghost use Rattle.row_view.specs.declared.heads.ImageHead.{ImageHead};
ghost use Rattle.scope_tree.specs.TreeRows.{tree_at};
ghost use Rattle.scope_tree.specs.TreeRules.{AreTreeRows};

/// The rows of a tree that keeps the rules are read back correctly, whatever comes after them.
pub fn the_rows_of_a_tree_are_read()
    ensures { (layout : Layout) (head : ImageHead) (bytes rest : List ℕ)
        (t : TreeState) →
        AreTreeRows layout head bytes t rest → tree_at layout head bytes ≡ Some (t, rest) }
{}

/// If bytes are read as a tree and a rest, they begin with the rows of that tree, which keeps the
/// rules, and the rest is what comes after the rows.
pub fn what_is_read_are_the_rows_of_a_tree()
    ensures { (layout : Layout) (head : ImageHead) (bytes rest : List ℕ)
        (t : TreeState) →
        tree_at layout head bytes ≡ Some (t, rest) → AreTreeRows layout head bytes t rest }
{}
