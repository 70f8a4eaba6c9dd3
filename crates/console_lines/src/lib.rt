//! The lines of the console: requests and replies as text.
//!
//! [`read_line`] reads a line, and returns its request, a [`LineRequest`]. The reply is a
//! [`LineReply`], which is appended to an [`OutputBuffer`] as one line. If a reply is a bad line or
//! a refusal, it is a [`Rejection`], and ends a strict run. [`Tallies`] counts the tasks of each
//! job. `specs/Script.antt` defines the replies to a whole input, and `specs/Strict.antt` which of
//! its lines a strict run runs.
//!
//! Numbers and moments are read as a person writes them. A number has 1 to 12 digits. A moment is a
//! number of seconds since 1970-01-01T00:00:00Z, or a date and time with an offset, such as
//! `2024-01-01T03:00:00+01:00`, whose instant `jiff` computes. [`moment_text`] returns the date and
//! time of a moment.
//!
//! The functions `push_..` append a part of a line to a fixed array, and the functions `append_..`
//! a whole line with its LF. None of them takes memory; their preconditions say how much space each
//! needs.
#![tactic(auto)]

mod cancel_lines;
mod causes;
mod faults;
mod group_lines;
pub mod group_nights;
mod job_keys;
mod job_tallies;
mod line_replies;
mod line_requests;
mod lines;
pub mod moments;
pub mod nights;
mod numbers;
mod output_buffers;
mod phases;
mod rejections;
mod reply_texts;
mod scope_lines;
pub mod script_laws;
pub mod strict_nights;
mod tallies;
mod task_lines;
mod wishes;
mod words;

pub use cancel_lines::{cancel_words, read_cancel};
pub use faults::RunFault;
pub use job_tallies::Tallies;
pub use line_replies::LineReply;
pub use line_requests::LineRequest;
pub use lines::{LONGEST_INPUT, LONGEST_LINE, read_line};
pub use moments::{moment_text, read_moment};
pub use numbers::{LONGEST_NUMBER, read_number};
pub use output_buffers::{OutputBuffer, append_bytes, make_room, write_out, write_whole};
pub use phases::phase_word;
pub use rejections::{RejectedLine, Rejection};
pub use reply_texts::{
    LONGEST_REPLY, append_scope, push, push_after, push_count, push_ending, push_group, push_look,
    push_moment, push_name, push_number, push_phase, push_text,
};
pub use scope_lines::scope_word;
pub use tallies::{JobTally, TaskCounts};
