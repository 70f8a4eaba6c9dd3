//! Numbers as names have them.

/// The last digit of a number.
fn digit(n: u16) -> u8 {
    match n % 10 {
        1 => b'1',
        2 => b'2',
        3 => b'3',
        4 => b'4',
        5 => b'5',
        6 => b'6',
        7 => b'7',
        8 => b'8',
        9 => b'9',
        _ => b'0',
    }
}

/// The last four digits of a number.
pub fn digits(n: u16) -> [u8; 4] {
    [digit(n / 1_000), digit(n / 100), digit(n / 10), digit(n)]
}

/// A letter and the last four digits of a number.
pub fn numbered(letter: u8, n: u16) -> [u8; 5] {
    [
        letter,
        digit(n / 1_000),
        digit(n / 100),
        digit(n / 10),
        digit(n),
    ]
}
