//! What a round sets for the rest of a night: the sizes of pools, and that no retry waits.

ghost use Rattle.std.specs.Prelude.{◌≡◌, ◌<◌, IfOk, length, slice_get, slice_index, unwrap_or};
ghost use Rattle.drive_runs.specs.Sittings.{AreSizes, EndedBy, size_now};

use drive_parts::heard::PoolSize;
use night_drive::ends::Ends;
use std::alloc::{AllocError, Global};

/// Returns when tries ended. If no retry waits any longer, all of them ended long ago.
pub(crate) fn ended_by(alloc: Global, hurry: bool, ends: Ends) -> Ends
    ensures { EndedBy hurry ends result }
{
    if hurry {
        return Ends {
            moments: Vec::new(alloc),
            otherwise: 0,
        };
    }
    ends
}

/// Returns the size of each of these pools: the one that was reported last, the one that it had, or
/// that of the plan.
#[tactic(auto, using(crate::proofs::Setting::sizes_more))]
pub(crate) fn sizes_of(
    alloc: Global,
    old: &[u32],
    reported: &[PoolSize],
    pools: &[u32],
) -> Result<Vec<u32>, AllocError>
    ensures { IfOk result (λ sizes. AreSizes old.now reported.now pools.now sizes.items) }
{
    let mut sizes = Vec::new(alloc);
    for p in 0..pools.len() {
        sizes.push(size_now(reported, p, known_size(old, pools, p)))?;
    }
    Ok(sizes)
}

/// Returns the size that a pool had, or that of the plan.
fn known_size(old: &[u32], pools: &[u32], p: usize) -> u32
    requires { p < length pools.now }
    ensures { result ≡ unwrap_or (slice_get old.now p) (slice_index pools.now p) }
{
    match old.get(p) {
        Some(size) => *size,
        None => pools[p],
    }
}

/// Returns the size of a pool that was reported last, or the one that is known.
#[tactic(auto, using(crate::proofs::Setting::size_more, crate::proofs::Setting::size_same))]
fn size_now(reported: &[PoolSize], pool: usize, known: u32) -> u32
    ensures { result ≡ size_now reported.now pool known }
{
    let mut size = known;
    for new in reported {
        if new.pool == pool {
            size = new.size;
        }
    }
    size
}
