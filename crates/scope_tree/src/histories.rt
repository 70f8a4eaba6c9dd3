//! Every state of a history has an image, which fits into a store of its layout.
//!
//! Each function has an empty body, and its clauses are the law. `model_laws` proves that every
//! state that events lead to keeps the seven rules. The laws here say that its fields are in range,
//! too, as long as there are fewer than 2^63 events. So the state has exactly one image, which is
//! what a checkpoint writes.

ghost use Rattle.std.specs.Prelude.{◌≡◌, ◌≤◌, ◌^◌, ℕ, List, Some, IsTrue, length, nat_lt};
ghost use Rattle.run_model.specs.declared.layouts.Layout.{Layout};
ghost use Rattle.run_model.specs.declared.layouts.Layout.TheVariants.{Small, Large};
ghost use Rattle.run_model.specs.Allowed.{after, run};
ghost use Rattle.run_model.specs.Event.{Event};
ghost use Rattle.run_model.specs.Rules.{HasLayout, IsConsistent};
ghost use Rattle.run_model.specs.State.{State, formatted};
ghost use Rattle.row_view.specs.declared.heads.ImageVersion.{ImageVersion};
ghost use Rattle.row_view.specs.declared.heads.ImageVersion.TheVariants.{Two};
ghost use Rattle.row_view.specs.Image.{image};
ghost use Rattle.row_view.specs.Keeping.{IsInRange, IsImage};
ghost use Rattle.scope_tree.specs.Ranges.{has_ranges, HaveRanges};

/// A state that has a layout and keeps the seven rules, and whose fields are in range, has an image
/// of version 2 in that layout.
pub fn a_state_in_range_has_an_image()
    ensures { (layout : Layout) (p : State) → HasLayout p layout → IsConsistent p →
        IsInRange Two layout p → IsImage Two layout (image p) p }
{}

/// Fields stay in range. At first they are in range. An event that is allowed, and whose own fields
/// are in range, leaves them in range as long as the count is below 2^63, and so does a run of such
/// events. The fields of a state that was read from an image of version 1 are in the ranges of
/// version 2, too, before any event.
pub fn fields_stay_in_range()
    ensures first { (layout : Layout) → IsInRange Two layout (formatted layout) }
    ensures events { (version : ImageVersion) (layout : Layout) (p q : State) (event : Event) →
        HasLayout p layout → IsConsistent p → IsInRange version layout p →
        IsTrue (has_ranges event) → after p event ≡ Some q → IsTrue (nat_lt q.count (2 ^ 63)) →
        IsInRange Two layout q }
    ensures runs { (version : ImageVersion) (layout : Layout) (p q : State)
        (events : List Event) → HasLayout p layout → IsConsistent p →
        IsInRange version layout p → HaveRanges events → run p events ≡ Some q →
        IsTrue (nat_lt q.count (2 ^ 63)) → IsInRange Two layout q }
{}

/// Take fewer than 2^63 events whose fields are in range, after a format. Every state to which they
/// lead has an image. In a small store it has at most 488,151 bytes, and in a large one at most
/// 1,913,559.
pub fn every_state_of_a_history_has_an_image()
    ensures image { (layout : Layout) (p : State) (events : List Event) → HaveRanges events →
        run (formatted layout) events ≡ Some p → IsTrue (nat_lt p.count (2 ^ 63)) →
        IsImage Two layout (image p) p }
    ensures small { (p : State) (events : List Event) → HaveRanges events →
        run (formatted Small) events ≡ Some p → IsTrue (nat_lt p.count (2 ^ 63)) →
        length (image p) ≤ 488_151 }
    ensures large { (p : State) (events : List Event) → HaveRanges events →
        run (formatted Large) events ≡ Some p → IsTrue (nat_lt p.count (2 ^ 63)) →
        length (image p) ≤ 1_913_559 }
{}

/// The same holds for events after a state that was read from an image of either version.
pub fn an_image_leads_to_images()
    ensures { (version : ImageVersion) (layout : Layout) (bytes : List ℕ) (p q : State)
        (events : List Event) → IsImage version layout bytes p → HaveRanges events →
        run p events ≡ Some q → IsTrue (nat_lt q.count (2 ^ 63)) → IsImage Two layout (image q) q }
{}
