//! Examples of the definitions: the moments that words stand for, and the texts of moments. The
//! dates were counted by another program.
//!
//! Each function has an empty body, and its clauses are the examples. They are computed from the
//! definition only, without any of the code that reads a word.
#![tactic(auto, unfolding(crate::proofs::OnLiterals::nights_on_literals))]

ghost use Rattle.console_lines.specs.MomentExamples.{HasText, IsNoMoment, IsOutOfRange, Writes};

/// Digits are seconds, and there may be leading zeros.
pub fn digits_are_seconds()
    ensures zero { Writes "0" 0 }
    ensures zeros { Writes "000000000007" 7 }
    ensures greatest { Writes "253000000000" 253000000000 }
    ensures past { IsOutOfRange "253000000001" }
    ensures longest { IsOutOfRange "999999999999" }
    ensures too_long { IsNoMoment "0000000000007" }
    ensures empty { IsNoMoment "" }
    ensures sign { IsNoMoment "-1" }
{}

/// A date and time has an offset, which comes after the local time.
pub fn a_date_and_time_has_an_offset()
    ensures zulu { Writes "2024-01-01T02:00:00Z" 1704074400 }
    ensures east { Writes "2024-01-01T03:00:00+01:00" 1704074400 }
    ensures west { Writes "2024-01-01T00:00:00-02:00" 1704074400 }
    ensures leap { Writes "2000-02-29T12:34:56Z" 951827696 }
{}

/// The form is checked before the year, and the year before the calendar.
pub fn the_form_comes_before_the_year()
    ensures form { IsNoMoment "9999-12-31T24:00:00Z" }
    ensures year { IsOutOfRange "9988-02-30T00:00:00Z" }
    ensures last { IsOutOfRange "9999-12-31T23:59:59Z" }
    ensures early { IsOutOfRange "1968-12-31T23:59:59Z" }
    ensures calendar { IsNoMoment "9987-02-30T00:00:00Z" }
    ensures hour { IsNoMoment "2024-01-01T24:00:00Z" }
{}

/// The first and the greatest moment, and their neighbours.
pub fn the_ends_of_the_range_are_moments()
    ensures first { Writes "1969-12-31T23:30:00-01:00" 1800 }
    ensures before { IsOutOfRange "1969-12-31T23:59:59Z" }
    ensures greatest { Writes "9987-04-02T17:46:40Z" 253000000000 }
    ensures past { IsOutOfRange "9987-04-02T17:46:41Z" }
{}

/// Moments and their dates and times, also in leap years, and at the ends of months and years.
pub fn moments_have_texts()
    ensures first { HasText 0 "1970-01-01T00:00:00Z" }
    ensures leap { HasText 951827696 "2000-02-29T12:34:56Z" }
    ensures year_end { HasText 1735689599 "2024-12-31T23:59:59Z" }
    ensures new_year { HasText 1735689600 "2025-01-01T00:00:00Z" }
    ensures no_leap { HasText 4107542400 "2100-03-01T00:00:00Z" }
    ensures greatest { HasText 253000000000 "9987-04-02T17:46:40Z" }
{}
