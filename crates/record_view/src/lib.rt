//! Records, which are the bytes of events, and the head of an image.
//!
//! [`read_event`] reads a record as an [`EventView`], which lends its names and texts from the
//! bytes. [`write_event`] writes one. [`Events`] walks over records that follow one another. All of
//! them follow the grammar exactly, and take no memory. The grammar of records is `Spelling.antt`
//! in `run_model/specs/`, apart from the code.
//!
//! [`record_laws`] has the laws of records, [`images`] those of images, and [`works`] those of the
//! rows of groups and tasks in an image. `row_view` reads and writes the rows themselves; this
//! crate exports their types, too.
#![tactic(auto)]

mod bodies;
mod events;
mod heads;
pub mod images;
mod outcomes;
pub mod record_laws;
mod records;
mod views;
pub mod works;

pub use events::Events;
pub use heads::{put_head, read_head};
pub use records::{event_len, read_event, write_event};
pub use row_view::{GroupRow, ScopeRow, TaskRow};
pub use views::{EventView, OutcomeView};
