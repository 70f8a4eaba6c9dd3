//! The date and time of a moment.

ghost use Rattle.std.specs.Prelude.{◌≡◌, length};
ghost use Rattle.console_lines.specs.Dates.{moment_text};

use arrayvec::ArrayString;
use jiff::Timestamp;
use jiff::fmt::temporal::DateTimePrinter;
use run_model::Moment;

/// Returns the date and time of a moment in UTC, such as `2024-02-29T02:00:00Z`.
pub fn moment_text(moment: Moment) -> ArrayString<33>
    ensures text { result.bytes ≡ moment_text moment }
    ensures long { length result.bytes ≡ 20 }
{
    match Timestamp::from_second(moment.get() as i64) {
        Ok(instant) => DateTimePrinter::new().timestamp_text(instant.to_plain()),
        Err(_) => unreachable!(),
    }
}
