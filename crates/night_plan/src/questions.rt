//! Questions about one command, which its facts answer.

ghost use Rattle.std.specs.Prelude.{◌≡◌, ◌<◌, ◌^◌, ◌↔◌, ◌&&◌, All, IsTrue, length, true};
ghost use Rattle.night_plan.specs.Nights.{is_busy, is_ok, is_failed, is_cut, is_ended, is_cleanup};
ghost use Rattle.night_plan.specs.Nights.{is_canceled, is_spent, delay, until, stops, cancels};

use crate::commands::{Command, Need, Way, When};
use crate::facts::{Known, Phase};

/// Whether a try of the command runs.
pub fn busy(phase: Phase) -> bool
    ensures { result ≡ is_busy phase }
{
    matches!(phase, Phase::Busy)
}

/// Whether the command ended well.
pub fn ended_ok(phase: Phase) -> bool
    ensures { result ≡ is_ok phase }
{
    matches!(phase, Phase::EndedOk)
}

/// Whether the last try failed.
pub fn failed_last(phase: Phase) -> bool
    ensures { result ≡ is_failed phase }
{
    matches!(phase, Phase::Failed(_))
}

/// Whether the last try was canceled.
fn cut(phase: Phase) -> bool
    ensures { result ≡ is_cut phase }
{
    matches!(phase, Phase::Canceled)
}

fn is_end(when: When) -> bool
    ensures { result ≡ is_ended when }
{
    matches!(when, When::Ended)
}

/// Whether these needs wait for the end alone, however that is.
fn all_ends(needs: &[Need]) -> bool
    ensures { IsTrue result ↔ All (λ need. is_ended need.when ≡ true) needs.now }
{
    for need in needs {
        if !is_end(need.when) {
            return false;
        }
    }
    true
}

/// Whether a command is a cleanup.
pub fn cleanup(command: &Command) -> bool
    ensures { result ≡ is_cleanup command.now }
{
    !command.needs.is_empty() && all_ends(command.needs.as_slice())
}

/// Whether a command is canceled, by itself or with its group.
pub fn canceled(done: &[bool], command: &Command, known: Known) -> bool
    requires { command.now.group < length done.now }
    ensures { result ≡ is_canceled done.now command.now known }
{
    known.canceled || cut(known.phase) || (done[command.group] && !cleanup(command))
}

/// Whether a command failed for good.
pub fn spent(done: &[bool], command: &Command, known: Known) -> bool
    requires { command.now.group < length done.now }
    ensures { result ≡ is_spent done.now command.now known }
{
    let none_left = command.retries < known.failures;
    failed_last(known.phase) && (none_left || canceled(done, command, known))
}

/// How many seconds the retry after this many failures waits.
pub fn wait_before(command: &Command, failures: u32) -> u64
    ensures wait { result ≡ delay command.now failures }
    ensures short { result < 2 ^ 32 }
{
    let cap = command.cap as u64;
    match (command.factor as u64).checked_pow(failures.saturating_sub(1)) {
        Some(growth) => growth.saturating_mul(command.wait as u64).min(cap),
        None if command.wait == 0 => 0,
        None => cap,
    }
}

/// Returns until when the next try of a command waits, if it does.
pub fn wait_until(command: &Command, now: u64, known: Known) -> Option<u64>
    requires { now < 2 ^ 63 }
    ensures { result ≡ until command.now now known.failures known.phase }
{
    let Phase::Failed(last) = known.phase else {
        return None;
    };
    let wait = wait_before(command, known.failures);
    if last <= now && now < last + wait {
        Some(last + wait)
    } else {
        None
    }
}

/// Whether a group lets no more commands begin after a failure.
pub fn does_stop(way: Way) -> bool
    ensures { result ≡ stops way }
{
    !matches!(way, Way::GoOn)
}

/// Whether a failure cancels what runs of a group.
pub fn does_cancel(way: Way) -> bool
    ensures { result ≡ cancels way }
{
    matches!(way, Way::Cancel)
}
