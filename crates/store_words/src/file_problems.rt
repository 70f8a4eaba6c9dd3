//! A [`FileProblem`] says what is wrong with a file: an error of a call, or its content.

ghost use Rattle.std.specs.Prelude.{◌≡◌, Some};
ghost use Rattle.store_words.specs.Failures.{source_problem, problem_of, problem_text};

use console_lines::RunFault;
use run_model::{Fault, Layout, Trouble};
use std::fmt;
use store_files::FileError;

/// Says what is wrong with a file. It is printed after the name of the file.
#[derive(Drop)]
pub enum FileProblem {
    /// A call of it failed.
    Call(FileError),
    /// It holds no store.
    NotAStore,
    /// It doesn't have the size of a store.
    WrongSize,
    /// A slot of its store is malformed.
    BadSlot,
    /// The image in a slot is malformed.
    BadImage,
    /// A batch is malformed.
    BadBatch,
    /// A batch holds bytes that aren't a record.
    BadRecord,
    /// The event of a record isn't allowed at its place.
    BadEvent,
    /// The numbers of its store are used up.
    NumbersSpent,
    /// It has the size of a large store, and has to be a small one.
    Large,
}

impl FileProblem {
    /// Returns what this fault says about the content of a file; `None` if it says nothing.
    pub fn of(fault: RunFault) -> Option<FileProblem>
        ensures { result ≡ problem_of fault }
    {
        match fault {
            RunFault::Store(Trouble::Faulty(fault)) => match fault {
                Fault::NotAStore => Some(FileProblem::NotAStore),
                Fault::WrongSize => Some(FileProblem::WrongSize),
                Fault::BadSlot => Some(FileProblem::BadSlot),
                Fault::BadImage => Some(FileProblem::BadImage),
                Fault::BadBatch => Some(FileProblem::BadBatch),
                Fault::BadRecord => Some(FileProblem::BadRecord),
                Fault::BadEvent => Some(FileProblem::BadEvent),
                Fault::NumbersSpent => Some(FileProblem::NumbersSpent),
                Fault::Memory | Fault::DiskFailed => None,
            },
            _ => None,
        }
    }

    /// Like [`FileProblem::of`], for OLD of a migration or renewal. `from` is the layout that the
    /// size of OLD gives, and `to` is the layout of the new store; `None` if there is none.
    pub fn of_source(
        from: Option<Layout>,
        to: Option<Layout>,
        fault: RunFault,
    ) -> Option<FileProblem>
        ensures { result ≡ source_problem from to fault }
    {
        if from.is_some() && to.is_none() {
            Some(FileProblem::Large)
        } else {
            FileProblem::of(fault)
        }
    }
}

impl fmt::Display for FileProblem {
    ghost output = { λ problem. Some (problem_text problem) };

    fn fmt<W: fmt::Write>(&self, f: &mut fmt::Formatter<W>) -> fmt::Result {
        match self {
            FileProblem::Call(error) => write!(f, "{error}"),
            FileProblem::NotAStore => f.write_str("not a store"),
            FileProblem::WrongSize => {
                f.write_str("not the size of a store: 1,572,864 or 6,291,456 bytes")
            }
            FileProblem::BadSlot => f.write_str("damaged: a slot can't be read"),
            FileProblem::BadImage => f.write_str("damaged: the image in a slot can't be read"),
            FileProblem::BadBatch => f.write_str("damaged: a batch can't be read"),
            FileProblem::BadRecord => f.write_str("damaged: a record can't be read"),
            FileProblem::BadEvent => f.write_str("damaged: an event isn't allowed at its place"),
            FileProblem::NumbersSpent => f.write_str("its numbers are used up"),
            FileProblem::Large => f.write_str(
                "is a large store already; OLD has to be a small one",
            ),
        }
    }
}
