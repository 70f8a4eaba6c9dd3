//! Laws of a state that is read from an image part by part: the parts together are the whole.
//!
//! Each function has an empty body, and its clauses are the law. Definitions in `specs/` read the
//! parts. The laws say that these give a state exactly if the bytes are its image.

ghost use Rattle.std.specs.Prelude.{◌≡◌, ◌↔◌, List, ℕ, Some, IsTrue};
ghost use Rattle.run_model.specs.declared.layouts.Layout.{Layout};
ghost use Rattle.run_model.specs.RuleParts.{AreTreeRules, AreWorkRules, AreCrossRules};
ghost use Rattle.run_model.specs.Rules.{IsConsistent};
ghost use Rattle.run_model.specs.State.{State};
ghost use Rattle.row_view.specs.declared.heads.ImageVersion.{ImageVersion};
ghost use Rattle.row_view.specs.Keeping.{IsImage};
ghost use Rattle.row_view.specs.Between.{fits_between};
ghost use Rattle.scope_tree.specs.Whole.{image_at};

/// If the tree and the work of a state have the same layout, the seven rules are those of the tree,
/// those of the work, and those between the two.
pub fn the_rules_have_three_parts()
    ensures tree { (p : State) → IsConsistent p → AreTreeRules p.count p.tree }
    ensures work { (p : State) → IsConsistent p → AreWorkRules p.work }
    ensures between { (p : State) → IsConsistent p → AreCrossRules p }
    ensures all { (p : State) → p.work.layout ≡ p.tree.layout → AreTreeRules p.count p.tree →
        AreWorkRules p.work → AreCrossRules p → IsConsistent p }
{}

/// If the work keeps its rules, `fits_between`, which looks at the scopes and the groups, returns
/// whether the rules between the tree and the work hold.
pub fn the_rules_between_are_tested()
    ensures { (p : State) → AreWorkRules p.work →
        IsTrue (fits_between p.tree.scopes p.work.groups) ↔ AreCrossRules p }
{}

/// The image of a state can be read part by part, and whatever is read that way is an image. So no
/// other bytes are images, and no image belongs to two states or two versions.
pub fn images_are_what_is_read()
    ensures again { (version : ImageVersion) (layout : Layout) (bytes : List ℕ) (p : State) →
        IsImage version layout bytes p → image_at layout bytes ≡ Some (version, p) }
    ensures takes { (version : ImageVersion) (layout : Layout) (bytes : List ℕ) (p : State) →
        image_at layout bytes ≡ Some (version, p) → IsImage version layout bytes p }
{}
