//! A [`TimedInput`] reads another input, and puts the machine's time before its lines.

ghost use Rattle.std.specs.Io.{ReadsAtMost};
ghost use Rattle.std.specs.Io.KnownBytes.{Keeps, IsAtEnd};
ghost use Rattle.std.specs.Prelude.{◌≡◌, ◌≤◌, ◌+◌, [], OnErr, OnOk};
ghost use Rattle.arrayvec.specs.ArrayVec.{array_vec_len};
ghost use Rattle.run_console.specs.Timed.{timed_known};
ghost use Rattle.run_console.specs.Weaving.{timed_left};

use crate::machine_times::MachineTime;
use crate::weaves::{PART, Weave};
use run_model::Moment;
use std::io;
use std::io::Read;

/// An input with the machine's time before its lines. The clock is asked once for each line, when
/// the first byte of the line has been read. It is also asked when the end of the input has been
/// read, as if one more line began there. If the moment is later than the latest moment so far, the
/// line `advance MOMENT` comes first.
///
/// The latest moment so far is the greatest of these: the first one, the moments of the clock, and
/// those to which the input's own lines advance. So a clock that was set back adds no line, and
/// neither does a clock that a user's own advance has overtaken.
///
/// The bytes of the input come in order, and none is left out. The inner input is read only when
/// all bytes of the last read were returned, at most 256 bytes at a time, and not again after its
/// end.
#[derive(Drop)]
pub struct TimedInput<R, C> {
    input: R,
    weave: Weave<C>,
    is_ended: bool,
}

impl<R: Read, C: MachineTime> TimedInput<R, C> {
    /// Reads `input`. The latest moment so far is the clock of the state over which the lines will
    /// run.
    pub fn new(latest: Moment, clock: C, input: R) -> TimedInput<R, C>
        ensures { timed_left R.remaining C.moments result
            ≡ timed_known latest (C.moments clock) (R.remaining input) }
    {
        TimedInput {
            input,
            weave: Weave::new(latest, clock),
            is_ended: false,
        }
    }

    /// Readies some bytes; none when the input is at its end.
    fn fill(&mut self) -> io::Result<()>
        requires { self.old.weave.ready.items ≡ [] }
        ensures left { Keeps (timed_left R.remaining C.moments self.old)
            (timed_left R.remaining C.moments self.new) }
        ensures end { OnOk result (self.new.weave.ready.items ≡ []
            → IsAtEnd (timed_left R.remaining C.moments self.new)) }
    {
        if !self.is_ended {
            let mut part = [0u8; PART];
            let count = self.input.read(&mut part)?;
            self.weave.take(&part[..count]);
            if count > 0 {
                return Ok(());
            }
            self.is_ended = true;
        }
        self.weave.begin_line();
        Ok(())
    }
}

impl<R: Read, C: MachineTime> Read for TimedInput<R, C> {
    ghost remaining = { timed_left R.remaining C.moments };

    fn read(&mut self, buf: &mut [u8]) -> io::Result<usize> {
        if self.weave.is_empty() {
            self.fill()?;
        }
        Ok(self.weave.give(buf))
    }
}
