//! An [`Opening`] stands for the state of a desk's book when the desk was made.

ghost use Rattle.std.specs.Prelude.{◌≡◌, true, refl};
ghost use Rattle.run_crew.specs.Openings.{Known, Unsaid, obeys};

use std::marker::Brand;

/// A type that stands for the state of a book at one moment. Whoever makes a desk chooses the type,
/// by passing a [`Brand`].
pub trait Opening {
    /// What is known of the book.
    ghost opening: { Known };
}

/// An opening after which commands may come, not only starts and finishes.
pub trait Obeys: Opening {
    /// Commands may come.
    ghost commands_come: { obeys Self.opening ≡ true };
}

/// Nothing is known about the book.
#[derive(Drop)]
pub struct AnyBook;

impl Opening for AnyBook {
    ghost opening = { Unsaid };
}

impl Obeys for AnyBook {
    ghost commands_come = { refl };
}

impl Opening for Brand {
    ghost opening = { Unsaid };
}
