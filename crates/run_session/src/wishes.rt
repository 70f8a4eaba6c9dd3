//! A wish is the kind of scope that a caller asks for. This file computes the kind that it becomes
//! at the current clock.

ghost use Rattle.std.specs.Option.{option_copied};
ghost use Rattle.std.specs.Prelude.{◌≡◌, [], ◌∷◌, false, IsTrue};
ghost use Rattle.run_model.specs.declared.refusals.Refusal.TheVariants as refusal;
ghost use Rattle.run_model.specs.Allowed.{is_past_moments, tested};
ghost use Rattle.run_model.specs.Records.{is_optional_text};
ghost use Rattle.run_model.specs.Replies.{kind_made};
ghost use Rattle.row_view.specs.Views.{kind_of};
ghost use Rattle.run_session.specs.Asked.{IsWished};

use row_view::KindView;
use run_model::{GREATEST_MOMENT, Moment, Refusal, Text, Wish};

/// Returns the kind of scope that a wish becomes now. A timeout becomes a deadline. If that would
/// be later than the greatest moment, the result is some deadline that is too late, too, and the
/// derive is refused.
pub fn wished_kind<'a>(clock: Moment, wish: &'a Wish) -> KindView<'a>
    ensures past { is_past_moments (kind_of result) ≡ is_past_moments (kind_made clock wish.now) }
    ensures kind { is_past_moments (kind_of result) ≡ false
        → IsWished clock wish.now (kind_of result) }
{
    match wish {
        Wish::Cancel => KindView::Cancel,
        Wish::Cause => KindView::Cause,
        Wish::Deadline(moment, cause) => KindView::Deadline(moment.get(), bytes_of(cause)),
        Wish::Timeout(seconds, cause) => {
            KindView::Deadline(clock.get().saturating_add(*seconds), bytes_of(cause))
        }
        Wish::Value(key, text) => KindView::Value(key.as_bytes(), text.as_bytes()),
        Wish::Detached => KindView::Detached,
    }
}

/// Returns why a scope of this kind can't be derived: `MomentOutOfRange`.
pub fn check_kind(kind: &KindView) -> Result<(), Refusal>
    ensures { result
        ≡ tested ((is_past_moments (kind_of kind.now), refusal.MomentOutOfRange) ∷ []) }
{
    match kind {
        KindView::Deadline(moment, _) if GREATEST_MOMENT < *moment => {
            Err(Refusal::MomentOutOfRange)
        }
        _ => Ok(()),
    }
}

/// Returns the bytes of a text, if there is one.
fn bytes_of(text: &Option<Text>) -> Option<&[u8]>
    ensures value { option_copied result ≡ text.now }
    ensures text { IsTrue (is_optional_text (option_copied result)) }
{
    text.as_ref().map(|text| text.as_bytes())
}
