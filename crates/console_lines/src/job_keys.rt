//! A job as the key of a table.

ghost use Rattle.std.specs.Cmp.{partial_equiv_from_equiv};
ghost use Rattle.std.specs.Cmp.Lexicographic.{nat_list_eq_equiv};
ghost use Rattle.std.specs.Cmp.Rules.{comparing, hashing};
ghost use Rattle.std.specs.Hash as fed;
ghost use Rattle.std.specs.Prelude.{nat_eq};
ghost use Rattle.std.specs.Str.{bytes_eq};
ghost use Rattle.std.proofs.Common.{rules};

use run_model::Name;
use std::hash::{Hash, Hasher};

/// A job. Two tasks share it if its name is the same.
#[derive(Drop)]
pub struct JobKey {
    pub name: Name,
}

impl PartialEq for JobKey {
    ghost eq = { λ a b. bytes_eq a.name b.name };

    ghost laws = { Prim.search (comparing, rules) };

    fn eq(&self, other: &JobKey) -> bool {
        self.name == other.name
    }
}

impl Eq for JobKey {
    ghost laws = { Prim.search (comparing, rules) };
}

impl Hash for JobKey {
    ghost hash_input = { λ job. fed.slice fed.u8 job.name };

    ghost respects_eq = { Prim.search (hashing, rules) };

    fn hash<H: Hasher>(&self, state: &mut H) {
        self.name.as_bytes().hash(state);
    }
}
