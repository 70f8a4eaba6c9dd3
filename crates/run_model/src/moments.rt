//! A [`Moment`] is a point in time on the clock of a store, in whole seconds.
//!
//! The clock starts at 0, and only `advance` moves it. A date and time stands for the number of
//! seconds since 1970-01-01T00:00:00Z.

ghost use Rattle.std.specs.Option.{SomeIff};
ghost use Rattle.std.specs.Prelude.{◌≡◌, ◌≤◌, ℕ};
ghost use Rattle.run_model.specs.declared.bounds.TheConstants.{GREATEST_MOMENT};

use crate::bounds::GREATEST_MOMENT;
use std::marker::Model;

/// A moment: 0 to 253,000,000,000 whole seconds.
#[derive(Clone, Copy, Debug, PartialEq, Eq, PartialOrd, Ord)]
pub struct Moment {
    seconds: u64,
}

impl Model for Moment {
    ghost Value = { ℕ };

    ghost view = { λ m. m.seconds };

    ghost invariant = { λ m. m.seconds ≤ GREATEST_MOMENT };

    ghost inverse = { λ n. record { seconds = n } };
}

impl Moment {
    /// Returns the moment at this many seconds; `None` exactly if it is later than the greatest
    /// moment.
    pub fn new(seconds: u64) -> Option<Moment>
        ensures { SomeIff result (seconds ≤ GREATEST_MOMENT) seconds }
    {
        if seconds <= GREATEST_MOMENT {
            Some(Moment { seconds })
        } else {
            None
        }
    }

    /// Returns the number of seconds.
    pub fn get(self) -> u64
        ensures value { result ≡ self }
        ensures range { result ≤ GREATEST_MOMENT }
    {
        self.seconds
    }
}
