//! Laws of the lines of a timed input, over every state.
//!
//! Each function has an empty body, and its clauses are the law.

ghost use Rattle.std.specs.Prelude.{◌≡◌, ◌≤◌, List, ℕ};
ghost use Rattle.std.specs.List.{All};
ghost use Rattle.run_model.specs.Session.{Session};
ghost use Rattle.run_model.specs.declared.bounds.TheConstants.{GREATEST_MOMENT};
ghost use Rattle.console_lines.specs.LineRequests.{request_of};
ghost use Rattle.console_lines.specs.Script.{after_line};
ghost use Rattle.run_console.specs.Forward.{AreForward};
ghost use Rattle.run_console.specs.Timed.{advance_line, latest_after};

use console_lines::LineRequest;
use run_model::{Command, Step};

/// The line that a timed input puts before another line asks for an advance to its moment.
pub fn an_advance_line_asks_for_an_advance()
    ensures { (moment : ℕ) → moment ≤ GREATEST_MOMENT
        → request_of (advance_line moment)
        ≡ LineRequest.Step (Step.Command (Command.Advance moment)) }
{}

/// If the clock of a session isn't later than the latest moment so far, no line moves it past the
/// latest moment after that line, which counts the moment to which the line itself advances.
pub fn no_line_moves_a_clock_past_the_latest_moment()
    ensures { (s : Session) (line : List ℕ) (latest : ℕ) → s.state.tree.clock ≤ latest
        → (after_line s line).state.tree.clock ≤ latest_after latest line }
{}

/// Each advance that a timed run puts before a line is to a moment later than the clock, if the
/// latest moment was not earlier than the clock when the run began. So it is refused only if the
/// session's log is full.
pub fn no_advance_is_behind_the_clock()
    ensures { (s : Session) (latest : ℕ) (moments : List ℕ) (lines : List (List ℕ))
        → s.state.tree.clock ≤ latest → All (λ moment. moment ≤ GREATEST_MOMENT) moments
        → AreForward s latest moments lines }
{}
