//! The deadline of a group, or of all groups of a night together.

use run_model::{Moment, Text};

/// A deadline, and how the operator put it, such as `within 4h`. Two deadlines are the same one if
/// their words are. The moment is when the deadline comes, if it is new.
#[derive(Drop)]
pub struct Until {
    pub moment: Moment,
    pub words: Text,
}
