//! A [`Limit`] says how many tasks of a group may be active at once.

ghost use Rattle.std.specs.Option.{SomeIff};
ghost use Rattle.std.specs.Prelude.{◌≡◌, ◌≤◌, ℕ, Option, Some, None, IfSome};
ghost use Rattle.run_model.specs.declared.bounds.TheConstants.{GREATEST_LIMIT};

use crate::bounds::GREATEST_LIMIT;
use std::marker::Model;

/// A limit: 0 to 64 tasks, or none. A limit of 0 admits no task.
#[derive(Clone, Copy, Debug, PartialEq, Eq)]
pub struct Limit {
    most: Option<u8>,
}

impl Model for Limit {
    ghost Value = { Option ℕ };

    ghost view = { λ l. l.most };

    ghost invariant = { λ l. IfSome l.most (λ most. most ≤ GREATEST_LIMIT) };

    ghost inverse = { λ most. record { most = most } };
}

impl Limit {
    /// Returns a limit of this many tasks; `None` exactly if that is more than the greatest limit.
    pub fn new(most: u8) -> Option<Limit>
        ensures { SomeIff result (most ≤ GREATEST_LIMIT) (Some most) }
    {
        if most <= GREATEST_LIMIT {
            Some(Limit { most: Some(most) })
        } else {
            None
        }
    }

    /// Returns the value that stands for no limit.
    pub fn none() -> Limit
        ensures { result ≡ None }
    {
        Limit { most: None }
    }

    /// Returns how many tasks the limit admits; `None` if there is no limit.
    pub fn get(self) -> Option<u8>
        ensures value { result ≡ self }
        ensures range { IfSome result (λ most. most ≤ GREATEST_LIMIT) }
    {
        self.most
    }
}
