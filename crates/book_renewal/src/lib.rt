//! Renews a store: it makes another store that holds everything that isn't finished in the old one.
//!
//! A store never frees a row or a name, so in time it gets full. [`renew`] reads it, and makes a
//! new store of the part of its state that a [`Renewal`](state_renewal::Renewal) keeps.
#![tactic(auto)]

mod renewals;

pub use renewals::renew;
