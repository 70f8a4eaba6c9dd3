//! A store is replaced by another file, or by a copy of itself, over any [`file_calls::Folder`].
//!
//! If the folder keeps its clauses, a crash leaves the store's name leading to the old file or to
//! the new one, whole, whichever call it comes before.
#![tactic(auto)]

mod copies;
mod marks;
mod new_files;
mod openings;
mod replacements;
mod results;

pub use copies::replace_by_copy;
pub use marks::{has_no_sync, is_marked, leave_mark, name_of_mark, remove_mark, settle_names};
pub use new_files::{NotMade, make_new};
pub use openings::{lock_named, lock_shared, look_named};
pub use replacements::put;
pub use results::{or_error, or_no_memory, or_uncopied};
