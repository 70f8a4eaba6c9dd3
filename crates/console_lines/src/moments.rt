//! A moment in a line is a number of seconds since 1970-01-01T00:00:00Z, or a date and time.
//!
//! A date and time has the form `dddd-dd-ddTdd:dd:dd`, followed by an offset: `Z`, `+dd:dd` or
//! `-dd:dd`.

ghost use Rattle.std.specs.Prelude.{◌≡◌, ◌≤◌, length, IsTrue, pos};
ghost use Rattle.console_lines.specs.Moments.{moment_of, date_time_of, moment_at};
ghost use Rattle.console_lines.specs.Moments.{instant_of, is_date_time, is_local, is_offset};

mod dates;
pub mod examples;
mod shapes;

use crate::moments::shapes::{has_shape, is_in};
use crate::numbers::read_number;
pub use dates::moment_text;
use jiff::Timestamp;
use run_model::{Moment, Refusal};
use std::str;

/// The number of bytes in a date and time before its offset.
const LOCAL_LEN: usize = 19;

/// Returns the moment that a word stands for; `MomentOutOfRange` if it is before 0 or later than
/// the greatest moment; and `None` if the word has another form or `jiff` refuses it.
///
/// A date and time in a year before 1969 or after 9987 is out of range, even if there is no such
/// day.
pub fn read_moment(word: &[u8]) -> Option<Result<Moment, Refusal>>
    ensures { result ≡ moment_of word.now }
{
    match read_number(word) {
        Some(seconds) => Some(moment_after(seconds)),
        None => read_date_time(word),
    }
}

/// Returns the moment of a word that isn't a number.
#[tactic(auto, unfolding(crate::specs::Moments::date_time_of))]
fn read_date_time(word: &[u8]) -> Option<Result<Moment, Refusal>>
    ensures { result ≡ date_time_of word.now }
{
    if !is_date_time(word) {
        return None;
    }
    if !is_in(1969, 9987, &word[..4]) {
        return Some(Err(Refusal::MomentOutOfRange));
    }
    let seconds = read_instant(word)?;
    Some(moment_at(seconds))
}

/// Returns whether a word has the form of a date and time.
#[tactic(auto, unfolding(crate::specs::Moments::is_date_time))]
fn is_date_time(word: &[u8]) -> bool
    ensures value { result ≡ is_date_time word.now }
    ensures long { IsTrue result → LOCAL_LEN ≤ length word.now }
{
    if word.len() < LOCAL_LEN {
        return false;
    }
    let (local, offset) = word.split_at(LOCAL_LEN);
    is_local(local) && is_offset(offset)
}

/// Returns whether these bytes have the form of a date and time, without its offset.
#[tactic(auto, unfolding(crate::specs::Moments::is_local))]
fn is_local(bytes: &[u8]) -> bool
    ensures { result ≡ is_local bytes.now }
{
    if !has_shape(b"dddd-dd-ddTdd:dd:dd", bytes) {
        return false;
    }
    is_in(1, 12, &bytes[5..7])
        & is_in(1, 31, &bytes[8..10])
        & is_in(0, 23, &bytes[11..13])
        & is_in(0, 59, &bytes[14..16])
        & is_in(0, 59, &bytes[17..19])
}

/// Returns whether these bytes have the form of an offset.
#[tactic(auto, unfolding(crate::specs::Moments::is_offset))]
fn is_offset(bytes: &[u8]) -> bool
    ensures { result ≡ is_offset bytes.now }
{
    if bytes == b"Z".as_slice() {
        return true;
    }
    if !has_shape(b"+dd:dd", bytes) && !has_shape(b"-dd:dd", bytes) {
        return false;
    }
    is_in(0, 23, &bytes[1..3]) && is_in(0, 59, &bytes[4..6])
}

/// Returns the seconds since 1970-01-01T00:00:00Z, as `jiff` reads them; `None` if it refuses the
/// word.
fn read_instant(word: &[u8]) -> Option<i64>
    requires { IsTrue (is_date_time word.now) }
    ensures { result ≡ instant_of word.now }
{
    let Ok(text) = str::from_utf8(word) else {
        return None;
    };
    match text.parse::<Timestamp>() {
        Ok(instant) => Some(instant.as_second()),
        Err(_) => None,
    }
}

/// Returns the moment at this many seconds; `MomentOutOfRange` before 0 and after the greatest
/// moment.
#[tactic(auto, unfolding(crate::specs::Moments::moment_at))]
fn moment_at(seconds: i64) -> Result<Moment, Refusal>
    ensures { result ≡ moment_at seconds }
{
    match u64::try_from(seconds) {
        Ok(seconds) => moment_after(seconds),
        Err(_) => Err(Refusal::MomentOutOfRange),
    }
}

#[tactic(auto, unfolding(crate::specs::Moments::moment_at))]
fn moment_after(seconds: u64) -> Result<Moment, Refusal>
    ensures { result ≡ moment_at (pos seconds) }
{
    Moment::new(seconds).ok_or(Refusal::MomentOutOfRange)
}
