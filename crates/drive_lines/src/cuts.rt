//! A line is cut at its first space, or at its last one.

ghost use Rattle.std.specs.Prelude.{◌≡◌, false, MatchOption, Some, None};
ghost use Rattle.std.specs.List.{list_any};
ghost use Rattle.drive_lines.specs.Spaces.{first_of, rest_of, spaced, lent};
ghost use Rattle.drive_lines.specs.Cuts.{HasNoSpace, IsLastCut, is_space};

use memchr::{memchr, memrchr};

/// Returns the bytes before the first space, and those after it, if there is a space.
pub(crate) fn first_word(line: &[u8]) -> (&[u8], Option<&[u8]>)
    ensures word { result.0.now ≡ first_of line.now }
    ensures rest { lent result.1 ≡ rest_of line.now }
{
    match memchr(b' ', line) {
        Some(at) => (&line[..at], Some(&line[at + 1..])),
        None => (line, None),
    }
}

/// Returns the bytes before the last space, and those after it; `None` if there is no space.
pub(crate) fn last_word(line: &[u8]) -> Option<(&[u8], &[u8])>
    ensures { MatchOption result (HasNoSpace line.now)
        (λ cut. IsLastCut line.now cut.0.now cut.1.now) }
{
    match memrchr(b' ', line) {
        Some(at) => Some((&line[..at], &line[at + 1..])),
        None => None,
    }
}
