//! A [`Text`] is for people to read: a cause, an error or a value. It holds its bytes inline.

ghost use Rattle.std.specs.Cmp.{partial_equiv_from_equiv};
ghost use Rattle.std.specs.Cmp.Lexicographic.{nat_list_eq_equiv};
ghost use Rattle.std.specs.List.{list_all};
ghost use Rattle.std.specs.Option.{SomeIff};
ghost use Rattle.std.specs.Prelude.{◌≡◌, List, Some, ⊤, ℕ};
ghost use Rattle.std.specs.Str.{bytes_eq};
ghost use Rattle.run_model.specs.Texts.{IsText, is_text, is_text_byte};

use crate::bounds::TEXT_LEN;
use arrayvec::ArrayVec;
use std::alloc::AllocError;
use std::marker::Model;
use std::{fmt, str};

/// A text: 1 to 64 bytes of printable ASCII, 0x20 to 0x7E. It is printed unchanged.
#[derive(Debug, Drop)]
pub struct Text {
    bytes: ArrayVec<u8, TEXT_LEN>,
}

impl Model for Text {
    ghost Value = { List ℕ };

    ghost view = { λ t. t.bytes.items };

    ghost invariant = { λ t. IsText t.bytes.items };
}

impl Text {
    /// Returns whether these bytes are a text.
    pub fn accepts(bytes: &[u8]) -> bool
        ensures { result ≡ is_text bytes.now }
    {
        1 <= bytes.len() && bytes.len() <= TEXT_LEN && are_text_bytes(bytes)
    }

    /// Returns these bytes as a text; `None` exactly if they aren't a text.
    pub fn read(bytes: &[u8]) -> Option<Text>
        ensures { SomeIff result (IsText bytes.now) bytes.now }
    {
        if !Text::accepts(bytes) {
            return None;
        }
        let mut text = ArrayVec::new();
        match text.try_extend_from_slice(bytes) {
            Ok(()) => Some(Text { bytes: text }),
            Err(_) => unreachable!(),
        }
    }

    /// Returns the text's bytes.
    pub fn as_bytes(&self) -> &[u8]
        ensures value { result.now ≡ self.now }
        ensures text { IsText self.now }
    {
        self.bytes.as_slice()
    }

    /// Returns a copy of the text.
    pub fn copy(&self) -> Text
        ensures { result ≡ self.now }
    {
        let mut bytes = ArrayVec::new();
        match bytes.try_extend_from_slice(self.as_bytes()) {
            Ok(()) => Text { bytes },
            Err(_) => unreachable!(),
        }
    }
}

impl fmt::Display for Text {
    ghost output = { λ text. Some text };

    fn fmt<W: fmt::Write>(&self, f: &mut fmt::Formatter<W>) -> fmt::Result {
        f.write_str(str::from_utf8(self.as_bytes()).unwrap())
    }
}

impl Clone for Text {
    ghost is_clone = { λ old new. new ≡ old };

    ghost is_infallible = { λ _. ⊤ };

    fn clone(&self) -> Result<Text, AllocError> {
        Ok(self.copy())
    }
}

impl PartialEq for Text {
    ghost eq = { bytes_eq };

    ghost laws = { partial_equiv_from_equiv nat_list_eq_equiv };

    fn eq(&self, other: &Text) -> bool {
        self.as_bytes() == other.as_bytes()
    }
}

impl Eq for Text {
    ghost laws = { nat_list_eq_equiv };
}

fn are_text_bytes(bytes: &[u8]) -> bool
    ensures { result ≡ list_all is_text_byte bytes.now }
{
    bytes.iter().all(|b| 32 <= *b && *b <= 126)
}
