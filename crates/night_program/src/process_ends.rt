//! A [`ProcessEnd`] is how a process ends that has called [`night`](crate::night).

ghost use Rattle.std.specs.Prelude.{◌≡◌};
ghost use Rattle.std.specs.Process.{exit_status};

use std::io::Eprint;
use std::process::{ExitCode, Termination};
use store_words::Ended;

/// How a process ends that has called [`night`](crate::night): with the exit status of what `night`
/// did. No other crate can make one. So if `main` returns one, the status that the system gets is
/// that of a call of `night`, although a `main` has no contract.
#[derive(Clone, Copy, Debug)]
pub struct ProcessEnd {
    ended: Ended,
}

impl ProcessEnd {
    /// The end of a process whose program ended so.
    pub(crate) fn of(ended: Ended) -> ProcessEnd
        ensures { result.ended ≡ ended }
    {
        ProcessEnd { ended }
    }

    /// How the program ended.
    pub fn ended(&self) -> Ended
        ensures { result ≡ self.now.ended }
    {
        self.ended
    }
}

impl Termination for ProcessEnd {
    fn report<R: Eprint>(self, _rt: &R) -> ExitCode
        ensures { exit_status result ≡ self.ended.status }
    {
        ExitCode::from(self.ended.status)
    }
}
