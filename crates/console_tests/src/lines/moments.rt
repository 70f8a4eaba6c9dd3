//! Tests of written moments. The seconds of each date were counted by `date -u +%s`.

use console_lines::{LONGEST_NUMBER, read_moment, read_number};
use run_model::Refusal;
use std::process::Abort;

/// A word, and the seconds of the moment that it writes.
type Row = (&'static [u8], u64);

/// The seconds of the moment that a word writes, or why there are none.
fn seconds_of(word: &[u8]) -> Option<Result<u64, Refusal>> {
    match read_moment(word) {
        Some(Ok(moment)) => Some(Ok(moment.get())),
        Some(Err(refusal)) => Some(Err(refusal)),
        None => None,
    }
}

/// Asserts the moments that words write.
fn assert_moments(rt: &impl Abort, rows: &[Row]) {
    for (n, row) in rows.iter().enumerate() {
        assert!(rt; seconds_of(row.0) == Some(Ok(row.1)), "row {n}");
    }
}

/// Asserts that words write no moment.
fn assert_none(rt: &impl Abort, words: &[&[u8]]) {
    for (n, word) in words.iter().enumerate() {
        assert!(rt; seconds_of(word).is_none(), "row {n}");
    }
}

/// Words that write numbers, and the numbers.
static NUMBERS: [Row; 4] = [
    (b"0", 0),
    (b"007", 7),
    (b"253000000001", 253_000_000_001),
    (b"999999999999", 999_999_999_999),
];

/// Words that write no number.
static NO_NUMBERS: [&[u8]; 10] = [
    b"",
    b"0000000000007",
    b"1000000000000",
    b"+7",
    b"-7",
    b"7 ",
    b" 7",
    b"7a",
    b"1_0",
    b"\xb27",
];

#[test]
fn numbers_have_1_to_12_digits(rt: HostRuntime) {
    for (n, row) in NUMBERS.iter().enumerate() {
        assert!(rt; read_number(row.0) == Some(row.1), "row {n}");
    }
    for (n, word) in NO_NUMBERS.iter().enumerate() {
        assert!(rt; read_number(word).is_none(), "row {n}");
    }
    assert!(rt; LONGEST_NUMBER == 12);
}

static SECONDS: [Row; 4] = [
    (b"0", 0),
    (b"000000000000", 0),
    (b"1704074400", 1_704_074_400),
    (b"253000000000", 253_000_000_000),
];

#[test]
fn digits_are_seconds(rt: HostRuntime) {
    assert_moments(&rt, &SECONDS);
}

static OFFSETS: [Row; 12] = [
    (b"1970-01-01T00:00:00Z", 0),
    (b"1970-01-01T00:00:01Z", 1),
    (b"1970-01-01T00:00:00+00:00", 0),
    (b"1970-01-01T00:00:00-00:00", 0),
    (b"1969-12-31T23:30:00-01:00", 1_800),
    (b"1969-12-31T00:01:00-23:59", 0),
    (b"1970-01-01T23:59:00+23:59", 0),
    (b"2024-01-01T02:00:00Z", 1_704_074_400),
    (b"2024-01-01T03:00:00+01:00", 1_704_074_400),
    (b"2024-01-01T00:00:00-02:00", 1_704_074_400),
    (b"2023-02-28T23:59:59+05:30", 1_677_608_999),
    (b"1999-12-31T23:59:59-08:00", 946_713_599),
];

#[test]
fn offsets_lie_after_the_local_time(rt: HostRuntime) {
    assert_moments(&rt, &OFFSETS);
}

static DAYS: [Row; 8] = [
    (b"2000-02-29T12:34:56Z", 951_827_696),
    (b"2024-02-29T23:59:59Z", 1_709_251_199),
    (b"2024-12-31T23:59:59Z", 1_735_689_599),
    (b"2100-02-28T00:00:00Z", 4_107_456_000),
    (b"2023-01-31T00:00:00Z", 1_675_123_200),
    (b"2023-04-30T00:00:00Z", 1_682_812_800),
    (b"2400-02-29T00:00:00Z", 13_574_563_200),
    (b"1972-06-30T23:59:59Z", 78_796_799),
];

#[test]
fn days_go_by_the_calendar(rt: HostRuntime) {
    assert_moments(&rt, &DAYS);
}

static GREATEST: [Row; 5] = [
    (b"9986-12-31T23:59:59Z", 252_992_073_599),
    (b"9987-01-01T00:00:00Z", 252_992_073_600),
    (b"9987-04-02T17:46:40Z", 253_000_000_000),
    (b"9987-04-03T17:45:40+23:59", 253_000_000_000),
    (b"9987-04-01T17:47:40-23:59", 253_000_000_000),
];

#[test]
fn the_greatest_moment_is_a_moment(rt: HostRuntime) {
    assert_moments(&rt, &GREATEST);
}

static OUT_OF_RANGE: [&[u8]; 18] = [
    b"253000000001",
    b"999999999999",
    b"1969-12-31T23:59:59Z",
    b"1969-12-31T00:00:59-23:59",
    b"1970-01-01T23:58:59+23:59",
    b"1970-01-01T00:00:00+00:01",
    b"1969-01-01T00:00:00Z",
    b"1968-12-31T23:59:59Z",
    b"1968-02-30T00:00:00Z",
    b"0000-01-01T00:00:00Z",
    b"9987-04-02T17:46:41Z",
    b"9987-04-03T17:45:41+23:59",
    b"9987-04-01T17:47:41-23:59",
    b"9987-12-31T23:59:59Z",
    b"9987-12-31T23:59:59-23:59",
    b"9988-01-01T00:00:00Z",
    b"9988-02-30T00:00:00Z",
    b"9999-12-31T23:59:59Z",
];

#[test]
fn moments_out_of_range_are_refused(rt: HostRuntime) {
    for (n, word) in OUT_OF_RANGE.iter().enumerate() {
        let refused = Some(Err(Refusal::MomentOutOfRange));
        assert!(rt; seconds_of(word) == refused, "row {n}");
    }
}

static NO_DAYS: [&[u8]; 7] = [
    b"2023-02-29T00:00:00Z",
    b"2100-02-29T00:00:00Z",
    b"2023-02-30T00:00:00Z",
    b"2023-04-31T00:00:00Z",
    b"2023-06-31T00:00:00Z",
    b"2023-11-31T00:00:00+01:00",
    b"9987-02-30T00:00:00Z",
];

#[test]
fn days_that_no_month_has_are_no_moments(rt: HostRuntime) {
    assert_none(&rt, &NO_DAYS);
}

static NO_FIELDS: [&[u8]; 13] = [
    b"2024-00-01T00:00:00Z",
    b"2024-13-01T00:00:00Z",
    b"2024-01-00T00:00:00Z",
    b"2024-01-32T00:00:00Z",
    b"2024-01-01T24:00:00Z",
    b"2024-01-01T00:60:00Z",
    b"2024-01-01T00:00:60Z",
    b"2016-12-31T23:59:60Z",
    b"2024-01-01T00:00:00+24:00",
    b"2024-01-01T00:00:00-24:00",
    b"2024-01-01T00:00:00+00:60",
    b"9999-12-31T24:00:00Z",
    b"9999-13-01T00:00:00Z",
];

#[test]
fn fields_out_of_their_ranges_are_no_moments(rt: HostRuntime) {
    assert_none(&rt, &NO_FIELDS);
}

static NO_FORMS: [&[u8]; 28] = [
    b"",
    b"0000000000000",
    b"2530000000001",
    b"-1",
    b"+1",
    b"1e3",
    b"now",
    b"2024-01-01",
    b"2024-01-01T02:00Z",
    b"2024-01-01T02:00:00",
    b"2024-01-01T02:00:00.5Z",
    b"2024-01-01T02:00:00,5Z",
    b"2024-01-01t02:00:00Z",
    b"2024-01-01T02:00:00z",
    b"2024-01-01 02:00:00Z",
    b"20240101T020000Z",
    b"2024-01-01T02:00:00+01",
    b"2024-01-01T02:00:00+0100",
    b"2024-01-01T02:00:00+01:00:00",
    b"2024-01-01T02:00:00+1:00",
    b"2024-01-01T02:00:00Z[UTC]",
    b"+002024-01-01T02:00:00Z",
    b"-2024-01-01T02:00:00Z",
    b"2024-1-1T02:00:00Z",
    b"2024-01-01T02:00:00Z ",
    b"2024-01-01T02:00:00Z\r",
    b"2024-01-01T02:00:0\xb2Z",
    b"2024-W01-1T02:00:00Z",
];

#[test]
fn words_of_another_form_are_no_moments(rt: HostRuntime) {
    assert_none(&rt, &NO_FORMS);
}
