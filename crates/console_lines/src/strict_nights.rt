//! Examples of strict runs: what a newly opened store prints, and which line is rejected.
//!
//! Each function has an empty body, and its clauses are the example, as in
//! [`nights`](crate::nights).
#![tactic(auto, unfolding(crate::proofs::OnLiterals::nights_on_literals))]

ghost use Rattle.std.specs.Prelude.{◌≡◌, ◌∷◌, ◌++◌, [], codes, Some, None};
ghost use Rattle.run_model.specs.declared.layouts.Layout.TheVariants.{Small};
ghost use Rattle.run_model.specs.Session.{opened};
ghost use Rattle.console_lines.specs.Strict.{rejection_in, rejection_text, strict_script};
ghost use Rattle.console_lines.specs.StrictNights.{EndsAt, IsWhole, first_is_bad, none_is_rejected};
ghost use Rattle.console_lines.specs.StrictNights.{question_is_refused, third_is_refused};

use crate::rejections::Rejection;
use run_model::Refusal;

/// After a refused line, no line is run.
pub fn a_strict_run_ends_after_a_refusal()
    ensures { EndsAt third_is_refused "acked 3" 3 (Rejection.Refused Refusal.AlreadyDone) }
{}

/// After a bad line, no line is run.
pub fn a_strict_run_ends_after_a_bad_line()
    ensures { EndsAt first_is_bad "acked 1" 1 Rejection.BadLine }
{}

/// If no line is rejected, all lines are run.
pub fn a_strict_run_runs_all_lines_if_none_is_rejected()
    ensures { IsWhole none_is_rejected "acked 3" }
{}

/// A question can be refused, too, and empty lines count.
pub fn a_refused_question_is_rejected()
    ensures { EndsAt question_is_refused "acked 1" 4 (Rejection.Refused Refusal.NoSuchScope) }
{}

/// An input without lines has no rejected line.
pub fn an_empty_input_has_no_rejected_line()
    ensures printed { strict_script (opened Small) [] ≡ codes "acked 1\n" }
    ensures rejection { rejection_in (opened Small) [] ≡ None }
{}

/// The last line of the input can be rejected, even without an LF.
pub fn the_last_line_is_rejected_too()
    ensures printed { strict_script (opened Small) (codes "scope root\nup")
        ≡ codes "live; deadline none\nbad line\nacked 1\n" }
    ensures rejection { rejection_in (opened Small) (codes "scope root\nup")
        ≡ Some (record { number = 2; why = Rejection.BadLine }) }
{}

/// A carriage return at the end of a bad line is reported, whatever comes after that line.
pub fn a_carriage_return_is_rejected()
    ensures printed { strict_script (opened Small) (codes "flush\nflush" ++ 13 ∷ codes "\nup")
        ≡ codes "acked 1\nbad line\nacked 1\n" }
    ensures rejection { rejection_in (opened Small) (codes "flush\nflush" ++ 13 ∷ codes "\nup")
        ≡ Some (record { number = 2; why = Rejection.CarriageReturn }) }
{}

/// A rejected line is shown as its number and its reply.
pub fn a_rejected_line_is_printed()
    ensures bad { rejection_text (record { number = 7; why = Rejection.BadLine })
        ≡ codes "line 7: bad line" }
    ensures returned { rejection_text (record { number = 7; why = Rejection.CarriageReturn })
        ≡ codes "line 7: bad line" }
    ensures refused { rejection_text (record {
      number = 7;
      why = Rejection.Refused Refusal.AlreadyDone;
    })
        ≡ codes "line 7: refused 12 AlreadyDone" }
    ensures counted { rejection_text
        (record { number = 16777217; why = Rejection.Refused (Refusal.Unfinished 2) })
        ≡ codes "line 16777217: refused 16 Unfinished 2" }
{}
