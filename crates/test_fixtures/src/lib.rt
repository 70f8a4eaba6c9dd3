//! What tests share: steps as tables write them, what each is answered, all that a state shows, and
//! a disk that forgets what a failed sync was to write.
//!
//! Nothing here asserts: a test asserts of what it is given, with a message that names its row.
#![tactic(auto)]

mod calls;
mod forgetful;
mod listings;
mod looks;
mod numbers;
mod replies;

pub use calls::{Ask, Call, command_of, step_of};
pub use forgetful::{ForgetfulSync, Settling};
pub use listings::{Listing, are_same, going_at, have_same_rows, listing_of};
pub use looks::{Going, GroupSeen, Seen, TaskSeen, going_of, is_group, is_task, seen_of};
pub use numbers::{digits, numbered};
pub use replies::{Replied, answered, finished, replied_by, started};
