//! A [`WordsFault`] says why the arguments ask for nothing.

ghost use Rattle.std.specs.Prelude.{Some};
ghost use Rattle.night_words.specs.Faults.{fault_text};

use std::fmt;

/// Says why the arguments ask for nothing. It is printed with its LF on standard error.
#[derive(Drop)]
pub enum WordsFault {
    /// The arguments aren't a command of the program. The text says what is wrong with them, and
    /// what would be right.
    Mistake(String),
    /// OLD and NEW of a migration or a renewal have the same name.
    SameStores,
    /// The number of workers isn't 1 to 8.
    Workers,
    /// More than one view of a store is asked for.
    Views,
    /// `--no-tasks` is given without `--tree`.
    NoTree,
    /// The text after `--phase` isn't the name of a phase.
    Phase,
    /// A renewal has neither NEW nor `--in-place`, or both; or it is in place, and has `--new`,
    /// which is about NEW.
    Place,
    /// An argument isn't text in UTF-8.
    NotText,
    /// Memory to read the arguments was refused.
    Memory,
}

impl fmt::Display for WordsFault {
    ghost output = { λ fault. Some (fault_text fault) };

    fn fmt<W: fmt::Write>(&self, f: &mut fmt::Formatter<W>) -> fmt::Result {
        match self {
            WordsFault::Mistake(text) => f.write_str(text.as_str()),
            WordsFault::SameStores => f.write_str("error: OLD and NEW name the same file\n"),
            WordsFault::Workers => f.write_str("error: --workers takes a number from 1 to 8\n"),
            WordsFault::Views => f.write_str(
                "error: inspect takes one of --tasks (or --phase, --group), --json and --tree\n\
                or --summary alone; --json takes --phase and --group, too\n",
            ),
            WordsFault::NoTree => f.write_str("error: --no-tasks goes with --tree\n"),
            WordsFault::Phase => f.write_str(
                "error: --phase takes held, ready, running, success, error or interrupted\n",
            ),
            WordsFault::Place => f.write_str("error: renew takes one of NEW and --in-place\n"),
            WordsFault::NotText => f.write_str("error: a word is no text in UTF-8\n"),
            WordsFault::Memory => f.write_str("night: fault 1 Memory\n"),
        }
    }
}
