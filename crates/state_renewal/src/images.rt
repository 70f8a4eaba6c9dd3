//! The image of a renewed state.

ghost use Rattle.std.specs.Prelude.{◌≡◌, ℕ, true, List};
ghost use Rattle.run_model.specs.declared.layouts.Layout.{Layout};
ghost use Rattle.run_model.specs.Rules.{IsConsistent};
ghost use Rattle.run_model.specs.State.{State};
ghost use Rattle.row_view.specs.declared.heads.ImageVersion.{ImageVersion};
ghost use Rattle.row_view.specs.declared.heads.ImageVersion.TheVariants.{Two};
ghost use Rattle.row_view.specs.Image.{image};
ghost use Rattle.row_view.specs.Keeping.{IsImage};
ghost use Rattle.state_renewal.specs.Renewed.{fits_in, renewed, renewed_in};

/// A renewed state is consistent in each layout into which it fits, and its image is the same in
/// all of them.
pub fn a_renewed_state_goes_into_each_layout_with_room()
    ensures rules { (layout : Layout) (p : State) → IsConsistent p
        → fits_in layout (renewed p) ≡ true → IsConsistent (renewed_in layout p) }
    ensures image { (layout : Layout) (p : State) → image (renewed_in layout p)
        ≡ image (renewed p) }
{}

/// If a state has an image, so has the renewed state, in the same layout, and the image is read
/// back.
pub fn a_renewed_state_has_an_image()
    ensures { (version : ImageVersion) (layout : Layout) (bytes : List ℕ) (p : State)
        → IsImage version layout bytes p → IsImage Two layout (image (renewed p)) (renewed p) }
{}
