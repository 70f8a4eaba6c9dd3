//! A number of a line is decimal, without leading zeros, and has at most 12 digits.

ghost use Rattle.std.specs.Prelude.{◌≡◌, ◌<◌, ◌^◌, ◌↔◌, ℕ, IsTrue, MatchOption};
ghost use Rattle.std.specs.Fmt.{decimal};

use console_lines::read_number;
use itoa::Buffer;

/// Reads a number, and returns `None` if no number is spelled so.
pub fn read_count(word: &[u8]) -> Option<u64>
    ensures { MatchOption result
        ((n : ℕ) → n < 10 ^ 12 → decimal n ≡ word.now → ⊥)
        (λ n. (n < 10 ^ 12) × (decimal n ≡ word.now)) }
{
    let Some(number) = read_number(word) else {
        return None;
    };
    if is_decimal(number, word) {
        Some(number)
    } else {
        None
    }
}

/// Whether a number is spelled so.
fn is_decimal(number: u64, word: &[u8]) -> bool
    ensures { IsTrue result ↔ (decimal number ≡ word.now) }
{
    let mut digits = Buffer::new();
    digits.format(number).as_bytes() == word
}
