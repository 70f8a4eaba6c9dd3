//! A [`MachineTime`] is a clock of the machine.

ghost use Rattle.std.specs.Prelude.{List, None, Option, Some, ℕ};
ghost use Rattle.run_console.specs.Times.{ReportsNext};

use run_model::Moment;

/// A clock of the machine. The program uses the system's clock. A test passes a list of moments,
/// each of which is returned once.
pub trait MachineTime {
    // The moments that it will return from here on, if they are known.
    ghost moments: { Self → Option (List ℕ) } = { λ _. None };

    /// The current moment, and `None` if it is unknown or out of range.
    fn now(&mut self) -> Option<Moment>
        ensures { ReportsNext (moments self.old) (moments self.new) result };
}

impl MachineTime for &[Moment] {
    ghost moments = { λ times. Some times.now };

    fn now(&mut self) -> Option<Moment> {
        let (first, rest) = self.split_first()?;
        *self = rest;
        Some(*first)
    }
}

impl<C: MachineTime> MachineTime for &mut C {
    ghost moments = { λ clock. C.moments clock.now };

    fn now(&mut self) -> Option<Moment> {
        (**self).now()
    }
}
