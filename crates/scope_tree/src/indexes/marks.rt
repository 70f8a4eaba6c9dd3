//! The mark of a scope is the number of the scope whose own hit ended it.
//!
//! A hit marks its scope and the scopes that end with it. A list holds the scopes whose children
//! are still to be marked, so only scopes that the hit ends are visited. A row that is added takes
//! its mark from its parent's mark or its own hit, whichever came first.

ghost use Rattle.std.specs.Option.{option_copied, option_map_or};
ghost use Rattle.std.specs.Prelude.{◌≡◌, ◌+◌, ◌<◌, ◌≤◌, ℕ, List, Option, Some, None, length};
ghost use Rattle.std.specs.Prelude.{[], ◌∷◌, ◌++◌, IfSome, false, true};
ghost use Rattle.arrayvec.specs.ArrayVec.{array_vec_len};
ghost use Rattle.run_model.specs.declared.bounds.TheConstants.{MOST_SCOPES};
ghost use Rattle.run_model.specs.Scopes.{AreOrdered, ending, is_root, comes_before};
ghost use Rattle.model_laws.specs.Searches.{above};
ghost use Rattle.scope_tree.specs.Marks.{AreMarked, IsMark, mark_of, marked_hit};
ghost use Rattle.scope_tree.specs.Spread.{Spreading, IsSpread, unmarked};

use crate::hits::is_before;
use crate::indexes::chains::Chains;
use crate::scope_kinds::{is_detached, is_root};
use arrayvec::ArrayVec;
use run_model::{Hit, MOST_SCOPES, Scope};
use std::alloc::Allocator;

/// Returns the mark that this row gets when it is added.
pub fn mark_for(scopes: &[Scope], marks: &[Option<u16>], row: &Scope) -> Option<u16>
    requires ordered { AreOrdered scopes.now }
    requires few { length scopes.now < MOST_SCOPES }
    requires marked { AreMarked scopes.now marks.now }
    requires parent { is_root row.now.kind ≡ false → row.now.parent < length scopes.now }
    ensures { IsMark (scopes.now ++ row.now ∷ []) (length scopes.now) result }
{
    if is_detached(&row.kind) {
        return None;
    }
    let up = mark_above(row, marks);
    let Some(own) = &row.hit else {
        return up;
    };
    let n = scopes.len() as u16;
    if comes_first(scopes, n, own, up) {
        Some(n)
    } else {
        up
    }
}

/// Marks scope `at`, and the scopes that end with it and have no mark.
pub fn mark_below<A: Allocator>(links: &Chains<A>, marks: &mut [Option<u16>], at: u16)
    requires same { length marks.old ≡ length links.now.keys }
    requires few { length links.now.keys ≤ MOST_SCOPES }
    requires known { at < length links.now.keys }
    requires free { mark_of marks.old at ≡ None }
    ensures { IsSpread links.now.keys marks.old marks.new at }
{
    let mut work: ArrayVec<u16, MOST_SCOPES> = ArrayVec::new();
    marks[at as usize] = Some(at);
    work.push(at);
    while let Some(s) = work.pop() {
        mark_children(links, marks, &mut work, s, at);
    }
}

/// Returns the mark of a row's parent; root has none above it.
fn mark_above(row: &Scope, marks: &[Option<u16>]) -> Option<u16>
    requires { is_root row.now.kind ≡ false → row.now.parent < length marks.now }
    ensures { result ≡ above (mark_of marks.now) None row.now }
{
    if is_root(&row.kind) {
        None
    } else {
        marks[row.parent as usize]
    }
}

/// Returns whether a scope's own hit comes before the one that a mark names.
fn comes_first(scopes: &[Scope], s: u16, own: &Hit, mark: Option<u16>) -> bool
    requires { IfSome mark (λ n. n < length scopes.now) }
    ensures { result ≡ option_map_or (comes_before (s, own.now)) (marked_hit scopes.now mark) true }
{
    let Some(n) = mark else {
        return true;
    };
    match &scopes[n as usize].hit {
        Some(hit) => is_before(s, own, n, hit),
        None => true,
    }
}

/// Marks the scopes that end with `s` and have no mark, and lists those that it marks.
fn mark_children<A: Allocator>(
    links: &Chains<A>,
    marks: &mut [Option<u16>],
    work: &mut ArrayVec<u16, MOST_SCOPES>,
    s: u16,
    at: u16,
)
    requires same { length marks.old ≡ length links.now.keys }
    requires few { length links.now.keys ≤ MOST_SCOPES }
    requires here { mark_of marks.old s ≡ Some at }
    requires known { s < length links.now.keys }
    requires room { array_vec_len work.old + unmarked marks.old < MOST_SCOPES }
    ensures same { length marks.new ≡ length marks.old }
    ensures room { array_vec_len work.new + unmarked marks.new
        ≡ array_vec_len work.old + unmarked marks.old }
    ensures spread { (before : List (Option ℕ)) → mark_of before s ≡ None
        → Spreading links.now.keys before marks.old at work.old.items s (length links.now.keys)
        → Spreading links.now.keys before marks.new at work.new.items 0 0 }
{
    let mut child = links.last(s);
    while let Some(t) = child {
        if marks[t as usize].is_none() {
            marks[t as usize] = Some(at);
            work.push(t);
        }
        child = links.before(t);
    }
}
