//! A number in a line has 1 to 12 digits, and may have leading zeros.

ghost use Rattle.std.specs.Char.{is_ascii_digit};
ghost use Rattle.std.specs.List.{list_all};
ghost use Rattle.std.specs.Prelude.{◌≡◌, ◌<◌, ◌≤◌, ◌^◌, IfSome, IsTrue, length};
ghost use Rattle.std.specs.Str.Parse.{digits_value};
ghost use Rattle.console_lines.specs.Numbers.{is_number, number_of};

/// The greatest number of digits in a number.
pub const LONGEST_NUMBER: usize = 12;

/// Returns the number that a word stands for; `None` if the word isn't a number.
#[tactic(auto, unfolding(crate::specs::Numbers::is_number))]
pub fn read_number(word: &[u8]) -> Option<u64>
    ensures value { result ≡ number_of word.now }
    ensures range { IfSome result (λ number. number < 10 ^ LONGEST_NUMBER) }
{
    if is_number(word) {
        Some(value_of(word))
    } else {
        None
    }
}

/// Returns whether a word is a number.
#[tactic(auto, unfolding(crate::specs::Numbers::is_number))]
fn is_number(word: &[u8]) -> bool
    ensures { result ≡ is_number word.now }
{
    1 <= word.len() && word.len() <= LONGEST_NUMBER && are_digits(word)
}

fn are_digits(word: &[u8]) -> bool
    ensures { result ≡ list_all is_ascii_digit word.now }
{
    word.iter().all(|b| b.is_ascii_digit())
}

/// Returns the number with these digits.
fn value_of(digits: &[u8]) -> u64
    requires digits { IsTrue (list_all is_ascii_digit digits.now) }
    requires few { length digits.now ≤ LONGEST_NUMBER }
    ensures value { result ≡ digits_value 10 digits.now }
    ensures range { result < 10 ^ LONGEST_NUMBER }
{
    let mut value = 0;
    for digit in digits {
        value = value * 10 + u64::from(*digit - b'0');
    }
    value
}
