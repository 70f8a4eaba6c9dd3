//! A [`Fault`] says what went wrong with a store, a device or the memory. A [`Trouble`] says why a
//! flush or a checkpoint wasn't done.

ghost use Rattle.std.specs.Prelude.{◌≡◌, Some};
ghost use Rattle.run_model.specs.Faults.{fault_name, fault_number, fault_text, trouble_text};

use crate::refusals::Refusal;
use std::error::Error;
use std::fmt;

/// Says what went wrong with a store, a device or the memory. It is printed as
/// `fault 2 DiskFailed`.
#[derive(Clone, Copy, Debug, PartialEq, Eq)]
pub enum Fault {
    /// Memory was refused.
    Memory,
    /// A call of the device failed: a read, a write or a sync.
    DiskFailed,
    /// No slot is open, so the disk holds no store.
    NotAStore,
    /// The disk doesn't have the size of a store.
    WrongSize,
    /// An open slot is malformed.
    BadSlot,
    /// The image is malformed.
    BadImage,
    /// An open batch is malformed.
    BadBatch,
    /// A batch holds bytes that aren't a record.
    BadRecord,
    /// The event of a record isn't allowed at its place.
    BadEvent,
    /// The store's numbers are used up: an opening or a copy finds 2^62 events or more, or a
    /// checkpoint finds the greatest generation, 2^63 - 1.
    NumbersSpent,
}

impl Fault {
    /// Returns the number of the fault, 1 to 10.
    pub fn number(self) -> u8
        ensures { result ≡ fault_number self }
    {
        match self {
            Fault::Memory => 1,
            Fault::DiskFailed => 2,
            Fault::NotAStore => 3,
            Fault::WrongSize => 4,
            Fault::BadSlot => 5,
            Fault::BadImage => 6,
            Fault::BadBatch => 7,
            Fault::BadRecord => 8,
            Fault::BadEvent => 9,
            Fault::NumbersSpent => 10,
        }
    }

    /// Returns the name of the fault, as it is printed.
    pub fn name(self) -> &'static str
        ensures { result.now ≡ fault_name self }
    {
        match self {
            Fault::Memory => "Memory",
            Fault::DiskFailed => "DiskFailed",
            Fault::NotAStore => "NotAStore",
            Fault::WrongSize => "WrongSize",
            Fault::BadSlot => "BadSlot",
            Fault::BadImage => "BadImage",
            Fault::BadBatch => "BadBatch",
            Fault::BadRecord => "BadRecord",
            Fault::BadEvent => "BadEvent",
            Fault::NumbersSpent => "NumbersSpent",
        }
    }
}

impl fmt::Display for Fault {
    ghost output = { λ fault. Some (fault_text fault) };

    fn fmt<W: fmt::Write>(&self, f: &mut fmt::Formatter<W>) -> fmt::Result {
        let number = self.number();
        let name = self.name();
        write!(f, "fault {number} {name}")
    }
}

impl Error for Fault {}

/// Says why a flush or a checkpoint wasn't done. It is printed like the refusal or the fault in it.
#[derive(Clone, Copy, Debug, PartialEq, Eq)]
pub enum Trouble {
    /// The book refused it.
    Refused(Refusal),
    /// The device failed, or the store's numbers are used up.
    Faulty(Fault),
}

impl fmt::Display for Trouble {
    ghost output = { λ trouble. Some (trouble_text trouble) };

    fn fmt<W: fmt::Write>(&self, f: &mut fmt::Formatter<W>) -> fmt::Result {
        match self {
            Trouble::Refused(refusal) => write!(f, "{refusal}"),
            Trouble::Faulty(fault) => write!(f, "{fault}"),
        }
    }
}

impl Error for Trouble {}
