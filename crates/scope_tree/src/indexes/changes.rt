//! Changes of the rows. They keep the indexes up to date.

ghost use Rattle.std.specs.Prelude.{◌≡◌, ◌<◌, ◌≤◌, ◌++◌, ◌∷◌, [], length, map, vec_len};
ghost use Rattle.std.specs.Prelude.{vec_capacity, is_none, position, IsTrue, false};
ghost use Rattle.std.specs.Str.{bytes_eq};
ghost use Rattle.run_model.specs.declared.bounds.TheConstants.{MOST_SCOPES};
ghost use Rattle.run_model.specs.Rows.{at_row};
ghost use Rattle.run_model.specs.Scopes.{is_root};
ghost use Rattle.run_model.specs.TreeChanges.{with_hit, tick};
ghost use Rattle.model_laws.specs.Endings.{AreEarlier};
ghost use Rattle.scope_tree.specs.declared.indexes.chains.TheConstants.{CHAINS};
ghost use Rattle.scope_tree.specs.Deadlines.{AreWaiting};
ghost use Rattle.scope_tree.specs.Links.{AreFound};
ghost use Rattle.scope_tree.specs.Marks.{AreKept, Struck};

use crate::hits::end;
use crate::indexes::chains::Chains;
use crate::indexes::deadlines::{note, pop_passed};
use crate::indexes::links::link_of;
use crate::indexes::marks::mark_below;
use crate::indexes::names::home;
use arrayvec::ArrayVec;
use run_model::{Hit, MOST_SCOPES, Moment, Scope};
use std::alloc::Allocator;

/// Adds a row whose name no other row has. Enters its name and its link in the indexes, and its
/// deadline if it has one that hasn't passed. Takes no memory.
pub fn push_row<A: Allocator>(
    scopes: &mut Vec<Scope, A>,
    names: &mut Chains<A>,
    links: &mut Chains<A>,
    due: &mut ArrayVec<u16, MOST_SCOPES>,
    row: Scope,
)
    requires found { AreFound scopes.old.items (vec_capacity scopes.old) names.old links.old }
    requires waiting { AreWaiting scopes.old.items due.old.items }
    requires free { IsTrue (is_none
        (position (λ r. bytes_eq row.name r.name) scopes.old.items)) }
    requires parent { is_root row.kind ≡ false → row.parent < CHAINS }
    requires room { vec_len scopes.old < vec_capacity scopes.old }
    requires few { vec_capacity scopes.old ≤ MOST_SCOPES }
    ensures rows { scopes.new.items ≡ scopes.old.items ++ row ∷ [] }
    ensures capacity { vec_capacity scopes.new ≡ vec_capacity scopes.old }
    ensures found { AreFound scopes.new.items (vec_capacity scopes.new) names.new links.new }
    ensures waiting { AreWaiting scopes.new.items due.new.items }
{
    let n = scopes.len() as u16;
    names.push(Some(home(row.name.as_bytes())));
    links.push(link_of(&row));
    scopes.push_reserved(row);
    note(scopes, due, n);
}

/// Gives scope `s` this hit, unless it has one of its own. If the scope was live, marks it and the
/// scopes that end with it.
pub fn end_scope<A: Allocator>(
    scopes: &mut [Scope],
    links: &Chains<A>,
    marks: &mut [Option<u16>],
    s: u16,
    hit: Hit,
)
    requires kept { AreKept scopes.old marks.old links.now.keys }
    requires known { s < length scopes.old }
    requires struck { Struck scopes.old s hit }
    ensures rows { scopes.new ≡ at_row (with_hit hit) s scopes.old }
    ensures kept { AreKept scopes.new marks.new links.now.keys }
{
    if marks[s as usize].is_none() {
        mark_below(links, marks, s);
    }
    end(&mut scopes[s as usize], hit);
}

/// Gives each scope whose deadline is at or before the clock the hit of that deadline, unless the
/// scope has a hit of its own. The earliest deadline comes first.
pub fn expire_scopes<A: Allocator>(
    scopes: &mut [Scope],
    links: &Chains<A>,
    marks: &mut [Option<u16>],
    due: &mut ArrayVec<u16, MOST_SCOPES>,
    event: u64,
    clock: Moment,
)
    requires kept { AreKept scopes.old marks.old links.now.keys }
    requires waiting { AreWaiting scopes.old due.old.items }
    requires later { AreEarlier scopes.old event }
    ensures rows { scopes.new ≡ map (tick event clock) scopes.old }
    ensures kept { AreKept scopes.new marks.new links.now.keys }
    ensures waiting { AreWaiting scopes.new due.new.items }
{
    while let Some((s, hit)) = pop_passed(scopes, due, event, clock) {
        end_scope(scopes, links, marks, s, hit);
    }
}
