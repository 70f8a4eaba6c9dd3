//! A [`Request`] is the request in the arguments of the program.

use state_views::View;

/// The request in the arguments. The names of stores are borrowed from them.
#[derive(Drop)]
pub enum Request<'a> {
    /// `demo`: runs the input over a book in memory. With `--strict` it ends at the first line that
    /// is bad or refused.
    Demo {
        strict: bool,
    },
    /// `format STORE`: makes a new store of the file. With `--new` it does so only if there is no
    /// file with that name.
    Format {
        store: &'a str,
        is_new: bool,
    },
    /// `script STORE`: runs the input over the store. With `--strict` it ends at the first line
    /// that is bad or refused. With `--now` it moves the clock to the machine's time before the
    /// lines.
    Script {
        store: &'a str,
        strict: bool,
        is_timed: bool,
    },
    /// `inspect STORE`: prints this view of the store.
    Inspect {
        store: &'a str,
        view: View<'a>,
    },
    /// `crew STORE --workers N`: N threads, 1 to 8, run the ready tasks of the store. With
    /// `--known` they do so only if they know the job of each task that hasn't ended.
    Crew {
        store: &'a str,
        workers: u8,
        known: bool,
    },
    /// `migrate OLD NEW`: makes of the file NEW a large store with the state in the small store
    /// OLD. With `--new` it does so only if there is no file with that name. The two names differ.
    Migrate {
        old: &'a str,
        new: &'a str,
        is_new: bool,
    },
    /// `renew OLD NEW`: makes of the file NEW a store that holds everything that isn't finished in
    /// OLD. With `--new` it does so only if there is no file with that name. The two names differ.
    Renew {
        old: &'a str,
        new: &'a str,
        is_new: bool,
    },
    /// `renew --in-place STORE`: replaces the store by one that holds everything that isn't
    /// finished in it.
    RenewInPlace(&'a str),
    /// `plan`: reads a plan and rounds of what happens, and answers each.
    Plan,
    /// `drive STORE`: drives a night over the store. It reads a plan and rounds of what happens,
    /// records them in the store, and answers which commands begin and stop.
    Drive {
        store: &'a str,
    },
    /// A text for the output: help, or the version.
    Help(String),
}
