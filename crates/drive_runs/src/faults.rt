//! The faults that steps met, by the replies to them.

ghost use Rattle.std.specs.Prelude.{◌≡◌};
ghost use Rattle.drive_runs.specs.Faults.{fault_in, first_fault};

use run_model::{Fault, Reply};

/// Returns the first fault among these replies.
pub fn first_fault(replies: &[Reply]) -> Option<Fault>
    ensures { result ≡ first_fault replies.now }
{
    for reply in replies {
        if let Some(fault) = fault_in(reply) {
            return Some(fault);
        }
    }
    None
}

/// Returns the fault of a reply.
fn fault_in(reply: &Reply) -> Option<Fault>
    ensures { result ≡ fault_in reply.now }
{
    match reply {
        Reply::Faulty(fault) => Some(*fault),
        _ => None,
    }
}
