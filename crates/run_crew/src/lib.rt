//! The crew: worker threads that run the ready tasks of one book, under one lock.
//!
//! A [`Desk`] is the value under the lock: the book, and the totals of its starts and finishes.
//! [`run_night`] starts the workers and joins them. Each worker has [`OwnCounts`] of its starts and
//! finishes, runs its [`Job`]s without the lock, and notes what it has finished. One
//! more thread makes the finishes durable. [`take_tasks`] is everything that a worker does.
//! [`audit`] compares the notes with the history of the book. [`crew`] does all of this over the
//! store on a disk, and prints the audit.
#![tactic(auto)]

mod arrival_counts;
mod arrivals;
mod audits;
mod counts;
mod courses;
mod crews;
mod desk_places;
mod desks;
mod finishes;
mod flush_signals;
mod flusher_calls;
mod jobs;
mod laws;
mod nights;
mod notes;
mod openings;
mod own_counts;
mod places;
mod saves;
mod thread_calls;
mod worker_calls;
mod workers;

pub use audits::{Strayed, audit};
pub use courses::take_tasks;
pub use crews::{crew, crew_over};
pub use desks::Desk;
pub use flusher_calls::{FlusherCalls, save_wakes};
pub use jobs::{Gate, Job, OpenGate, Turn};
pub use laws::{each_start_is_durable_before_its_turns, notes_are_what_the_jobs_answered};
pub use nights::run_night;
pub use notes::{Note, WorkerNotes};
pub use openings::{AnyBook, Obeys, Opening};
pub use own_counts::OwnCounts;
pub use worker_calls::WorkerCalls;
