//! Finds a scope by its name, through a hash of the name's bytes.
//!
//! The hash has no secret key. So somebody can choose many names with the same hash. They share a
//! chain, and a search in this chain compares each of them.

ghost use Rattle.std.specs.Prelude.{◌≡◌, ◌<◌};
ghost use Rattle.scope_tree.specs.Names.{home};

use crate::indexes::chains::CHAINS;

/// Spreads similar names over the chains: 2^32 divided by the golden ratio, made odd.
const FACTOR: u32 = 2_654_435_761;

/// A mixed name is a number below 2^32.
const SPAN: u64 = 4_294_967_296;

/// Returns the chain to which a name belongs.
pub fn home(name: &[u8]) -> u16
    ensures home { result ≡ home name.now }
    ensures chain { result < CHAINS }
{
    let mut sum = 0u32;
    for byte in name {
        sum = sum.wrapping_add(*byte as u32).wrapping_mul(FACTOR);
    }
    (sum as u64 / (SPAN / CHAINS as u64)) as u16
}
