//! The keyword of a phase, which is printed, and which selects the tasks that are listed.

ghost use Rattle.std.specs.Prelude.{◌≡◌, ◌≤◌, length};
ghost use Rattle.console_lines.specs.Replies.{phase_word};

use run_model::Phase;

/// Returns the keyword of a phase.
pub fn phase_word(phase: &Phase) -> &'static str
    ensures word { result.now ≡ phase_word phase.now }
    ensures few { length result.now ≤ 32 }
{
    match phase {
        Phase::Held => "held",
        Phase::Ready => "ready",
        Phase::Running => "running",
        Phase::Success => "success",
        Phase::Failure(_) => "error",
        Phase::Interrupted => "interrupted",
    }
}
