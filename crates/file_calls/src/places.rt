//! A [`Place`] says how far a byte of a file has come on its way to the device.

ghost use Rattle.std.specs.Prelude.{◌≡◌};
ghost use Rattle.file_calls.specs.OpenFiles.{settled};

/// What is known of a place in a file, beside the byte that reads return there.
#[derive(Clone, Copy, Debug, PartialEq, Eq)]
pub enum Place {
    /// A crash leaves the byte that reads return.
    Durable,
    /// It was written, and no sync has ended since. A crash may leave anything.
    Dirty,
    /// It was written, and the sync that should have made it durable failed. Reads return the byte
    /// as before, but no later sync writes it. A crash may leave anything.
    Lost,
}

impl Place {
    /// What a sync makes of the place, if it makes `to` of a dirty one.
    pub fn settled(self, to: Place) -> Place
        ensures { result ≡ settled to self }
    {
        match self {
            Place::Dirty => to,
            Place::Durable | Place::Lost => self,
        }
    }
}
