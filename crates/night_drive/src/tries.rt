//! A task of the store is a try of a command. These functions say what it shows of the command.

ghost use Rattle.std.specs.Prelude.{◌≡◌};
ghost use Rattle.night_drive.specs.Tries.{counts, has_failed, is_cancel, is_withdrawn, phase_by};

use crate::names::begins;
use night_plan::facts::Phase;
use run_model::{Stage, Text, is_spelled};

/// Returns whether a task counts as a try of its command: it was started, and it wasn't withdrawn.
/// (A task is withdrawn if a crash came after it was submitted and before it was started.)
pub fn counts(stage: &Stage) -> bool
    ensures { result ≡ counts stage.now }
{
    match stage {
        Stage::Fresh => false,
        Stage::Failure(error) => !is_withdrawn(error),
        Stage::Running | Stage::Success | Stage::Interrupted => true,
    }
}

/// Returns whether a try has failed. A try that was canceled or interrupted hasn't.
pub fn has_failed(stage: &Stage) -> bool
    ensures { result ≡ has_failed stage.now }
{
    match stage {
        Stage::Failure(error) => !is_cancel(error),
        Stage::Fresh | Stage::Running | Stage::Success | Stage::Interrupted => false,
    }
}

/// Returns how far a command has come by its last try. `moment` is when that try failed, if it did.
pub fn phase_by(moment: u64, stage: &Stage) -> Phase
    ensures { result ≡ phase_by moment stage.now }
{
    match stage {
        Stage::Fresh => Phase::Fresh,
        Stage::Running => Phase::Busy,
        Stage::Success => Phase::EndedOk,
        Stage::Failure(error) => failed_at(moment, error),
        Stage::Interrupted => Phase::Interrupted,
    }
}

/// Returns how far a command has come whose last try ended at this moment with an error.
fn failed_at(moment: u64, error: &Text) -> Phase
    ensures { result ≡ phase_by moment (Stage.Failure error.now) }
{
    if is_cancel(error) {
        Phase::Canceled
    } else {
        Phase::Failed(moment)
    }
}

/// Returns whether this is the error of a try that was canceled.
fn is_cancel(error: &Text) -> bool
    ensures { result ≡ is_cancel error.now }
{
    begins(error.as_bytes(), b"canceled: ")
}

/// Returns whether this is the error of a task that was withdrawn.
fn is_withdrawn(error: &Text) -> bool
    ensures { result ≡ is_withdrawn error.now }
{
    is_spelled(error.as_bytes(), b"withdrawn")
}
