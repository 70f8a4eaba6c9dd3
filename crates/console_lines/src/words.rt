//! A line is split into words at each single space, so a word may be empty.
//!
//! The rest of a line is the bytes after a space, and `None` after the last word.

ghost use Rattle.std.specs.Prelude.{◌≡◌, [], ◌∷◌, MatchOption};
ghost use Rattle.console_lines.specs.Words.{words_in, only_word, lent};

/// Returns the next word and what comes after it; `None` if no word is left.
pub(crate) fn next_word(left: Option<&[u8]>) -> Option<(&[u8], Option<&[u8]>)>
    ensures { MatchOption result (words_in (lent left.entry) ≡ [])
        (λ next. words_in (lent left.entry)
        ≡ next.0.now ∷ words_in (lent next.1)) }
{
    let line = left?;
    match line.iter().position(|byte| *byte == b' ') {
        Some(end) => Some((&line[..end], Some(&line[end + 1..]))),
        None => Some((line, None)),
    }
}

/// Returns the only word that is left; `None` if there is none, or another one after it.
pub(crate) fn last_word(left: Option<&[u8]>) -> Option<&[u8]>
    ensures { lent result ≡ only_word (words_in (lent left.entry)) }
{
    let (word, left) = next_word(left)?;
    match left {
        Some(_) => None,
        None => Some(word),
    }
}
