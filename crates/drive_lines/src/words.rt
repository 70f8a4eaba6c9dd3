//! A [`LineWord`] is the first word of a line. It says which fields follow, by their [`Shape`].

ghost use Rattle.std.specs.Prelude.{◌≡◌, MatchOption};
ghost use Rattle.drive_lines.specs.Words.{shape_of, word_text};
ghost use Rattle.drive_lines.specs.declared.words.LineWord.{LineWord as LineWordOf};

/// The first word of a line that `night plan` has not, or has in another form.
#[derive(Clone, Copy)]
pub(crate) enum LineWord {
    Until,
    All,
    Next,
    Lives,
    Ended,
    Gone,
    Cancel,
    Done,
    Hurry,
    Ask,
    First,
}

/// Which fields follow a word.
#[derive(Clone, Copy)]
pub(crate) enum Shape {
    /// None.
    Alone,
    /// A number.
    Number,
    /// A number and a text.
    NumberText,
    /// A number, and how a try ended.
    Ended,
    /// A try.
    Lives,
}

/// Reads the first word of a line, and returns `None` if no such word is spelled so.
pub(crate) fn read_word(bytes: &[u8]) -> Option<LineWord>
    ensures { MatchOption result ((w : LineWordOf) → word_text w ≡ bytes.now → ⊥)
        (λ w. word_text w ≡ bytes.now) }
{
    match bytes {
        b"until" => Some(LineWord::Until),
        b"all" => Some(LineWord::All),
        b"next" => Some(LineWord::Next),
        b"lives" => Some(LineWord::Lives),
        b"ended" => Some(LineWord::Ended),
        b"gone" => Some(LineWord::Gone),
        b"cancel" => Some(LineWord::Cancel),
        b"done" => Some(LineWord::Done),
        b"hurry" => Some(LineWord::Hurry),
        b"ask" => Some(LineWord::Ask),
        b"first" => Some(LineWord::First),
        _ => None,
    }
}

/// Returns which fields follow a word.
pub(crate) fn shape_of(word: LineWord) -> Shape
    ensures { result ≡ shape_of word }
{
    match word {
        LineWord::Next | LineWord::Hurry => Shape::Alone,
        LineWord::Gone | LineWord::Ask | LineWord::First => Shape::Number,
        LineWord::Until | LineWord::All | LineWord::Cancel | LineWord::Done => Shape::NumberText,
        LineWord::Ended => Shape::Ended,
        LineWord::Lives => Shape::Lives,
    }
}
