//! The key of a command as the key of a table, next to the number of its group.

ghost use Rattle.std.specs.Cmp.{partial_equiv_from_equiv};
ghost use Rattle.std.specs.Cmp.Rules.{comparing, hashing};
ghost use Rattle.std.specs.Hash as fed;
ghost use Rattle.std.specs.Prelude.{◌&&◌, ◌==◌, ◌++◌, nat_eq};
ghost use Rattle.std.specs.Str.{bytes_eq};
ghost use Rattle.std.proofs.Common.{rules};

use run_model::{Name, is_spelled};
use std::hash::{Hash, Hasher};

/// The number of a group of the plan, and the key of a command in it.
#[derive(Drop)]
pub struct GroupKey {
    pub group: usize,
    pub key: Name,
}

impl PartialEq for GroupKey {
    ghost eq = { λ a b. a.group == b.group && bytes_eq a.key b.key };

    ghost laws = { Prim.search (comparing, rules) };

    fn eq(&self, other: &GroupKey) -> bool {
        self.group == other.group && is_spelled(self.key.as_bytes(), other.key.as_bytes())
    }
}

impl Eq for GroupKey {
    ghost laws = { Prim.search (comparing, rules) };
}

impl Hash for GroupKey {
    ghost hash_input = { λ it. fed.usize it.group ++ fed.slice fed.u8 it.key };

    ghost respects_eq = { Prim.search (hashing, rules) };

    fn hash<H: Hasher>(&self, state: &mut H) {
        self.group.hash(state);
        self.key.as_bytes().hash(state);
    }
}
