//! Chains of places. A place has a key or none. The chain of a key links the places that have it,
//! from the last one to the first, so that they are found without a walk over all places.

ghost use Rattle.std.specs.Prelude.{◌≡◌, ◌<◌, ◌≤◌, ℕ, [], ◌∷◌, ◌++◌, Some, length};
ghost use Rattle.std.specs.Prelude.{IfSome, IfOk, None, replicate, slice_get, vec_capacity};
ghost use Rattle.scope_tree.specs.declared.indexes.chains.TheConstants.{CHAINS};
ghost use Rattle.run_model.specs.declared.bounds.TheConstants.{MOST_SCOPES};
ghost use Rattle.scope_tree.specs.Chains.{IsLast, head_of, hung};

use std::alloc::{AllocError, Allocator};
use std::marker::Model;

/// The number of chains. A key is a number below it.
pub const CHAINS: usize = 4_096;

/// Places, numbered in the order in which they were added, and their keys.
#[derive(Drop)]
pub struct Chains<A: Allocator> {
    /// The key of each place.
    keys: Vec<Option<u16>, A>,
    /// For each possible key, the last place that has it.
    heads: Vec<Option<u16>, A>,
    /// For each place, the place before it that has the same key.
    nexts: Vec<Option<u16>, A>,
}

impl<A: Allocator> Model for Chains<A> {
    ghost use Rattle.std.specs.Prelude.{◌≡◌, vec_capacity};
    ghost use Rattle.scope_tree.specs.declared.indexes.chains.TheConstants.{CHAINS};
    ghost use Rattle.scope_tree.specs.Chains.{Places, IsChained};

    ghost Value = { Places };

    ghost view = { λ c. record { capacity = vec_capacity c.keys; keys = c.keys.items } };

    ghost invariant = { λ c. IsChained
        (record { capacity = vec_capacity c.keys; keys = c.keys.items })
        c.heads.items c.nexts.items (vec_capacity c.nexts)
        × (vec_capacity c.heads ≡ CHAINS) };
}

impl<A: Allocator + Copy> Chains<A> {
    /// Makes [`Chains`] without a place and with this capacity. `AllocError` if memory is refused.
    pub fn with_capacity(alloc: A, capacity: usize) -> Result<Chains<A>, AllocError>
        requires { capacity ≤ MOST_SCOPES }
        ensures { IfOk result (λ chains. chains ≡ record { capacity = capacity; keys = [] }) }
    {
        let keys = Vec::with_capacity(alloc, capacity)?;
        let nexts = Vec::with_capacity(alloc, capacity)?;
        let heads = no_heads(alloc)?;
        Ok(Chains { keys, heads, nexts })
    }
}

impl<A: Allocator> Chains<A> {
    /// Adds a place with this key, or without one. Takes no memory.
    pub fn push(&mut self, key: Option<u16>)
        requires room { length self.old.keys < self.old.capacity }
        requires key { IfSome key (λ k. k < CHAINS) }
        ensures { self.new ≡ record self.old { keys = self.old.keys ++ key ∷ [] } }
    {
        let n = self.keys.len() as u16;
        let next = hang(&mut self.heads, key, n);
        self.keys.push_reserved(key);
        self.nexts.push_reserved(next);
    }

    /// Returns the last place with this key; `None` if no place has it.
    pub fn last(&self, key: u16) -> Option<u16>
        requires { key < CHAINS }
        ensures { IsLast self.now.keys key (length self.now.keys) result }
    {
        self.heads[key as usize]
    }

    /// Returns the last place before place `n` that has the same key; `None` if there is none.
    pub fn before(&self, n: u16) -> Option<u16>
        requires { n < length self.now.keys }
        ensures { (key : ℕ) → slice_get self.now.keys n ≡ Some (Some key)
            → IsLast self.now.keys key n result }
    {
        self.nexts[n as usize]
    }
}

/// Makes the heads of chains without a place.
fn no_heads<A: Allocator>(alloc: A) -> Result<Vec<Option<u16>, A>, AllocError>
    ensures none { IfOk result (λ heads. heads.items ≡ replicate CHAINS None) }
    ensures capacity { IfOk result (λ heads. vec_capacity heads ≡ CHAINS) }
{
    let mut heads = Vec::with_capacity(alloc, CHAINS)?;
    while heads.len() < CHAINS {
        heads.push_reserved(None);
    }
    Ok(heads)
}

/// Makes place `n` the head of its key's chain, and returns the previous head.
fn hang(heads: &mut [Option<u16>], key: Option<u16>, n: u16) -> Option<u16>
    requires { IfSome key (λ k. k < length heads.old) }
    ensures head { result ≡ head_of heads.old key }
    ensures hung { heads.new ≡ hung heads.old key n }
{
    let k = key? as usize;
    let head = heads[k];
    heads[k] = Some(n);
    head
}
