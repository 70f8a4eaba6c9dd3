//! A shape says what each byte of a word has to be: `d` stands for a digit, and every other byte
//! for itself.

ghost use Rattle.std.specs.List.{list_all, zip};
ghost use Rattle.std.specs.Prelude.{◌≡◌, IsTrue, length};
ghost use Rattle.console_lines.specs.Shapes.{has_shape, is_like, is_in};

use crate::numbers::read_number;

/// Returns whether a word has this shape.
#[tactic(auto, unfolding(crate::specs::Shapes::has_shape))]
pub(crate) fn has_shape(shape: &[u8], word: &[u8]) -> bool
    ensures value { result ≡ has_shape shape.now word.now }
    ensures sized { IsTrue result → length word.now ≡ length shape.now }
{
    shape.len() == word.len() && are_like(shape, word)
}

/// Returns whether a part of a word writes a number in this range.
#[tactic(auto, unfolding(crate::specs::Shapes::is_in))]
pub(crate) fn is_in(low: u64, high: u64, part: &[u8]) -> bool
    ensures { result ≡ is_in low high part.now }
{
    match read_number(part) {
        Some(number) => low <= number && number <= high,
        None => false,
    }
}

fn are_like(shape: &[u8], word: &[u8]) -> bool
    ensures { result ≡ list_all (λ pair. is_like pair.0 pair.1) (zip shape.now word.now) }
{
    shape.iter().zip(word).all(|(s, b)| is_like(*s, *b))
}

/// Returns whether a byte fits a byte of a shape.
fn is_like(shape: u8, byte: u8) -> bool
    ensures { result ≡ is_like shape byte }
{
    if shape == b'd' {
        byte.is_ascii_digit()
    } else {
        byte == shape
    }
}
