//! A [`Name`] is the name of a scope, a group, a job or a key. It holds its bytes inline.

ghost use Rattle.std.specs.Cmp.{partial_equiv_from_equiv};
ghost use Rattle.std.specs.Cmp.Lexicographic.{nat_list_eq_equiv};
ghost use Rattle.std.specs.List.{list_all};
ghost use Rattle.std.specs.Option.{SomeIff};
ghost use Rattle.std.specs.Prelude.{◌≡◌, List, Some, ⊤, ℕ};
ghost use Rattle.std.specs.Str.{bytes_eq};
ghost use Rattle.run_model.specs.Texts.{IsName, is_name, is_name_byte};

use crate::bounds::NAME_LEN;
use arrayvec::ArrayVec;
use std::alloc::AllocError;
use std::marker::Model;
use std::{fmt, str};

/// A name: 1 to 32 bytes of `a` to `z`, `0` to `9`, `-` and `_`. It is printed unchanged.
#[derive(Debug, Drop)]
pub struct Name {
    bytes: ArrayVec<u8, NAME_LEN>,
}

impl Model for Name {
    ghost Value = { List ℕ };

    ghost view = { λ n. n.bytes.items };

    ghost invariant = { λ n. IsName n.bytes.items };
}

impl Name {
    /// Returns whether these bytes are a name.
    pub fn accepts(bytes: &[u8]) -> bool
        ensures { result ≡ is_name bytes.now }
    {
        1 <= bytes.len() && bytes.len() <= NAME_LEN && are_name_bytes(bytes)
    }

    /// Returns these bytes as a name; `None` exactly if they aren't a name.
    pub fn read(bytes: &[u8]) -> Option<Name>
        ensures { SomeIff result (IsName bytes.now) bytes.now }
    {
        if !Name::accepts(bytes) {
            return None;
        }
        let mut name = ArrayVec::new();
        match name.try_extend_from_slice(bytes) {
            Ok(()) => Some(Name { bytes: name }),
            Err(_) => unreachable!(),
        }
    }

    /// Returns the name's bytes.
    pub fn as_bytes(&self) -> &[u8]
        ensures value { result.now ≡ self.now }
        ensures name { IsName self.now }
    {
        self.bytes.as_slice()
    }

    /// Returns a copy of the name.
    pub fn copy(&self) -> Name
        ensures { result ≡ self.now }
    {
        let mut bytes = ArrayVec::new();
        match bytes.try_extend_from_slice(self.as_bytes()) {
            Ok(()) => Name { bytes },
            Err(_) => unreachable!(),
        }
    }
}

impl fmt::Display for Name {
    ghost output = { λ name. Some name };

    fn fmt<W: fmt::Write>(&self, f: &mut fmt::Formatter<W>) -> fmt::Result {
        f.write_str(str::from_utf8(self.as_bytes()).unwrap())
    }
}

impl Clone for Name {
    ghost is_clone = { λ old new. new ≡ old };

    ghost is_infallible = { λ _. ⊤ };

    fn clone(&self) -> Result<Name, AllocError> {
        Ok(self.copy())
    }
}

impl PartialEq for Name {
    ghost eq = { bytes_eq };

    ghost laws = { partial_equiv_from_equiv nat_list_eq_equiv };

    fn eq(&self, other: &Name) -> bool {
        self.as_bytes() == other.as_bytes()
    }
}

impl Eq for Name {
    ghost laws = { nat_list_eq_equiv };
}

fn are_name_bytes(bytes: &[u8]) -> bool
    ensures { result ≡ list_all is_name_byte bytes.now }
{
    bytes
        .iter()
        .all(|b| matches!(*b, b'a'..=b'z' | b'0'..=b'9' | b'-' | b'_'))
}
