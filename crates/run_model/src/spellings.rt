//! How names and keywords are compared.

ghost use Rattle.std.specs.Prelude.{◌≡◌};
ghost use Rattle.std.specs.Str.{bytes_eq};

/// Returns whether `word` consists of the bytes `spelled`. Lengths are compared first, and then the
/// bytes, beginning with the last one, because neighbouring names often begin alike, such as
/// `job-1` and `job-2`. Both are short, and `==` of slices calls code that is made for long ones.
pub fn is_spelled(word: &[u8], spelled: &[u8]) -> bool
    ensures { result ≡ bytes_eq word.now spelled.now }
{
    if word.len() != spelled.len() {
        return false;
    }
    let mut left = word.len();
    while left != 0 {
        left -= 1;
        if word[left] != spelled[left] {
            return false;
        }
    }
    true
}
