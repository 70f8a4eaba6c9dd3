//! Views of outcomes, and the errors in them.

ghost use Rattle.std.specs.Option.{option_copied};
ghost use Rattle.std.specs.Prelude.{◌≡◌, IfSome, IsTrue};
ghost use Rattle.run_model.specs.Records.{is_outcome};
ghost use Rattle.run_model.specs.Texts.{IsText};
ghost use Rattle.run_model.specs.WorkChanges.{error_of};
ghost use Rattle.record_view.specs.Views.{outcome_of};

use record_view::OutcomeView;
use run_model::Outcome;

/// Returns a view of the outcome.
pub fn outcome_view(outcome: &Outcome) -> OutcomeView<'_>
    ensures value { outcome_of result ≡ outcome.now }
    ensures recorded { IsTrue (is_outcome (outcome_of result)) }
{
    match outcome {
        Outcome::Success => OutcomeView::Success,
        Outcome::Failure(text) => OutcomeView::Failure(text.as_bytes()),
    }
}

/// Returns the error of an outcome, lent; `None` for a success.
pub fn error_of<'a>(outcome: &OutcomeView<'a>) -> Option<&'a [u8]>
    requires { IsTrue (is_outcome (outcome_of outcome.now)) }
    ensures error { option_copied result ≡ error_of (outcome_of outcome.now) }
    ensures text { IfSome result (λ error. IsText error.now) }
{
    match outcome {
        OutcomeView::Success => None,
        OutcomeView::Failure(text) => Some(text),
    }
}
