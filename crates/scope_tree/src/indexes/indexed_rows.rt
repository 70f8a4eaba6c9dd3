//! [`IndexedRows`] are the rows of a tree's scopes, in the order of their numbers, with all
//! indexes.

ghost use Rattle.std.specs.Option.{option_copied};
ghost use Rattle.std.specs.Prelude.{◌≡◌, ◌<◌, ◌≤◌, ◌++◌, ◌∷◌, [], length, map, position, is_none};
ghost use Rattle.std.specs.Prelude.{IfOk, IfSome, IsTrue, false};
ghost use Rattle.std.specs.Str.{bytes_eq};
ghost use Rattle.run_model.specs.declared.bounds.TheConstants.{MOST_SCOPES};
ghost use Rattle.run_model.specs.Rows.{at_row};
ghost use Rattle.run_model.specs.Scopes.{deadline_of, ending, is_root, value_of};
ghost use Rattle.run_model.specs.Texts.{IsText};
ghost use Rattle.run_model.specs.TreeChanges.{with_hit, tick};
ghost use Rattle.model_laws.specs.Endings.{AreEarlier};
ghost use Rattle.scope_tree.specs.Marks.{Struck};

use crate::indexes::ancestors::nearest_value;
use crate::indexes::chains::Chains;
use crate::indexes::changes::{end_scope, expire_scopes, push_row};
use crate::indexes::marks::mark_for;
use crate::indexes::names::home;
use crate::indexes::reaches::{Reach, reach_rest};
use arrayvec::ArrayVec;
use run_model::{Hit, MOST_SCOPES, Moment, Scope, is_spelled};
use std::alloc::{AllocError, Allocator};
use std::marker::Model;

/// The rows of scopes in the order of their numbers: a parent has a lower number than its children,
/// and no two scopes have the same name. Their capacity is fixed, so only
/// [`IndexedRows::with_capacity`] takes memory.
///
/// [`IndexedRows::end`] and [`IndexedRows::expire`] visit only the scopes that they end.
/// [`IndexedRows::value`] visits only the scopes upwards that hold a value, [`IndexedRows::find`]
/// only the scopes whose names have the same hash, and each other call visits a few scopes. Adding
/// or passing a deadline takes a number of steps that is logarithmic in the number of deadlines.
#[derive(Drop)]
pub struct IndexedRows<A: Allocator> {
    scopes: Vec<Scope, A>,
    /// One for each scope: the scope whose own hit ended it.
    marks: Vec<Option<u16>, A>,
    /// A place for each scope, whose key is the hash of its name.
    names: Chains<A>,
    /// A place for each scope, whose key is the scope that ends it.
    links: Chains<A>,
    /// A heap of the deadlines that haven't passed yet.
    due: ArrayVec<u16, MOST_SCOPES>,
    /// One for each scope.
    reaches: Vec<Reach, A>,
}

impl<A: Allocator> Model for IndexedRows<A> {
    ghost use Rattle.std.specs.Prelude.{vec_capacity};
    ghost use Rattle.scope_tree.specs.IndexedRows.{Numbered, IsIndexed};

    ghost Value = { Numbered };

    ghost view = { λ r. record { capacity = vec_capacity r.scopes; rows = r.scopes.items } };

    ghost invariant = { λ r. IsIndexed
        (record { capacity = vec_capacity r.scopes; rows = r.scopes.items })
        r.marks.items r.names r.links r.due.items r.reaches.items
        (vec_capacity r.marks) (vec_capacity r.reaches) };
}

impl<A: Allocator + Copy> IndexedRows<A> {
    /// Makes [`IndexedRows`] without a scope and with this capacity. `AllocError` if memory is
    /// refused.
    pub fn with_capacity(alloc: A, capacity: usize) -> Result<IndexedRows<A>, AllocError>
        requires { capacity ≤ MOST_SCOPES }
        ensures { IfOk result (λ rows. rows ≡ record { capacity = capacity; rows = [] }) }
    {
        let scopes = Vec::with_capacity(alloc, capacity)?;
        let marks = Vec::with_capacity(alloc, capacity)?;
        let names = Chains::with_capacity(alloc, capacity)?;
        let links = Chains::with_capacity(alloc, capacity)?;
        let reaches = Vec::with_capacity(alloc, capacity)?;
        let due = ArrayVec::new();
        Ok(IndexedRows {
            scopes,
            marks,
            names,
            links,
            due,
            reaches,
        })
    }
}

impl<A: Allocator> IndexedRows<A> {
    /// Adds a row as the scope with the next number. No other scope may have its name, and its
    /// parent must exist, unless the row is root's. The row may have a hit of its own.
    pub fn push(&mut self, row: Scope)
        requires room { length self.old.rows < self.old.capacity }
        requires free { IsTrue (is_none
            (position (λ r. bytes_eq row.name r.name) self.old.rows)) }
        requires parent { is_root row.kind ≡ false → row.parent < length self.old.rows }
        ensures { self.new ≡ record self.old { rows = self.old.rows ++ row ∷ [] } }
    {
        let mark = mark_for(&self.scopes, &self.marks, &row);
        push_row(
            &mut self.scopes,
            &mut self.names,
            &mut self.links,
            &mut self.due,
            row,
        );
        self.marks.push_reserved(mark);
        reach_rest(&self.scopes, &mut self.reaches);
    }

    /// Gives scope `s` this hit, unless it has one of its own. Then the scope is done, and so are
    /// the scopes that end with it. `struck` holds if the scope isn't detached and the hit is later
    /// than all others, so a scope that was done keeps its reason and its cause.
    pub fn end(&mut self, s: u16, hit: Hit)
        requires known { s < length self.old.rows }
        requires struck { Struck self.old.rows s hit }
        ensures { self.new ≡ record self.old { rows = at_row (with_hit hit) s self.old.rows } }
    {
        end_scope(&mut self.scopes, &self.links, &mut self.marks, s, hit);
    }

    /// Gives each scope whose deadline is at or before `clock` the hit of that deadline, unless it
    /// has a hit of its own. The scope gets this hit even if it is done because of a scope above
    /// it. The event must come after those of all earlier hits.
    pub fn expire(&mut self, event: u64, clock: Moment)
        requires { AreEarlier self.old.rows event }
        ensures { self.new ≡ record self.old { rows = map (tick event clock) self.old.rows } }
    {
        expire_scopes(
            &mut self.scopes,
            &self.links,
            &mut self.marks,
            &mut self.due,
            event,
            clock,
        );
    }

    /// Returns the hit that ended scope `s`, which is its own or that of a scope above it; `None`
    /// while the scope is live. The hit is lent until the rows change.
    pub fn ending(&self, s: u16) -> Option<&Hit>
        requires { s < length self.now.rows }
        ensures { option_copied result ≡ ending self.now.rows s }
    {
        let n = self.marks[s as usize]?;
        self.scopes[n as usize].hit.as_ref()
    }

    /// Returns the deadline of scope `s`, the earliest on its chain; `None` if there is none.
    pub fn deadline(&self, s: u16) -> Option<Moment>
        requires { s < length self.now.rows }
        ensures { result ≡ deadline_of self.now.rows s }
    {
        self.reaches[s as usize].deadline
    }

    /// Returns the value of a key at scope `s`: the nearest one from the scope upwards, also
    /// through detached scopes; `None` if there is none. The value is lent until the rows change.
    pub fn value(&self, s: u16, key: &[u8]) -> Option<&[u8]>
        requires { s < length self.now.rows }
        ensures value { option_copied result ≡ value_of self.now.rows s key.now }
        ensures text { IfSome result (λ text. IsText text.now) }
    {
        nearest_value(&self.scopes, &self.reaches, s, key)
    }

    /// Returns the number of the scope of this name; `None` if no scope has it.
    pub fn find(&self, name: &[u8]) -> Option<u16>
        ensures { result ≡ position (λ row. bytes_eq name.now row.name) self.now.rows }
    {
        let scopes = self.scopes.as_slice();
        let mut at = self.names.last(home(name));
        while let Some(n) = at {
            if is_spelled(name, scopes[n as usize].name.as_bytes()) {
                return at;
            }
            at = self.names.before(n);
        }
        None
    }

    /// Returns the number of rows.
    pub fn len(&self) -> usize
        ensures { result ≡ length self.now.rows }
    {
        self.scopes.len()
    }

    /// Returns the rows in order of number, lent until they change.
    pub fn as_slice(&self) -> &[Scope]
        ensures { result.now ≡ self.now.rows }
    {
        self.scopes.as_slice()
    }
}
