//! How much of each pool is left.

ghost use Rattle.std.specs.Prelude.{◌≡◌, ◌<◌, ◌≤◌, ◌-◌, ◌^◌, ℕ, [], ◌∷◌, All, IfOk, IsTrue};
ghost use Rattle.std.specs.Prelude.{length, min, nat_le, slice_index, true, ◌↔◌};
ghost use Rattle.night_plan.specs.Choices.{takes_of};
ghost use Rattle.night_plan.specs.Nights.{AreFacts, night};
ghost use Rattle.night_plan.specs.Queues.{IsLeft};

use crate::commands::{Plan, Take};
use crate::facts::Facts;
use crate::questions::busy;
use std::alloc::{AllocError, Global};

/// How much of a pool these rows take together.
fn wanted(takes: &[Take], pool: usize) -> u64
    ensures { result ≡ min (takes_of takes.now pool) (2 ^ 64 - 1) }
{
    let mut sum = 0u64;
    for row in takes {
        sum = sum.saturating_add(amount_of(*row, pool));
    }
    sum
}

/// How much a row takes of a pool.
fn amount_of(row: Take, pool: usize) -> u64
    ensures { result ≡ takes_of (row ∷ []) pool }
{
    if row.pool == pool {
        row.amount as u64
    } else {
        0
    }
}

/// Whether what is left of a pool suffices for these rows.
fn suffices(takes: &[Take], left: &[u32], pool: usize) -> bool
    requires { pool < length left.now }
    ensures { result ≡ nat_le (takes_of takes.now pool) (slice_index left.now pool) }
{
    wanted(takes, pool) <= left[pool] as u64
}

/// Whether what is left of each pool suffices for these rows.
pub fn fits(takes: &[Take], left: &[u32]) -> bool
    requires { All (λ row. row.pool < length left.now) takes.now }
    ensures { IsTrue result
        ↔ All (λ row. nat_le (takes_of takes.now row.pool) (slice_index left.now row.pool) ≡ true)
        takes.now }
{
    for row in takes {
        if !suffices(takes, left, row.pool) {
            return false;
        }
    }
    true
}

/// Takes these rows from the pools, of each no more than it has.
pub fn take_from(left: &mut Vec<u32>, takes: &[Take])
    requires { All (λ row. row.pool < length left.old.items) takes.now }
    ensures sized { length left.new.items ≡ length left.old.items }
    ensures taken { (p : ℕ)
        → slice_index left.new.items p ≡ slice_index left.old.items p - takes_of takes.now p }
{
    for row in takes {
        let before = left[row.pool];
        left[row.pool] = before.saturating_sub(row.amount);
    }
}

/// What the busy commands leave of each pool.
pub fn left_over(alloc: Global, plan: &Plan, facts: &Facts) -> Result<Vec<u32>, AllocError>
    requires { AreFacts plan.now facts.now }
    ensures sized { IfOk result (λ left. length left.items ≡ length facts.now.sizes.items) }
    ensures left { IfOk result (λ left. IsLeft (night plan.now facts.now) facts.now.sizes.items []
        left.items) }
{
    let mut left = Vec::from_slice(alloc, facts.sizes.as_slice())?;
    for (c, command) in plan.commands.iter().enumerate() {
        let known = facts.known[c];
        if !busy(known.phase) {
            continue;
        }
        take_from(&mut left, command.takes.as_slice());
    }
    Ok(left)
}
