//! The deadlines that haven't passed yet: a heap of scope numbers, with the earliest deadline
//! first.
//!
//! Of two equal deadlines, that of the scope with the lower number comes first. A scope that is
//! canceled stays in the heap until its deadline comes.

ghost use Rattle.std.specs.Prelude.{◌≡◌, ◌+◌, ◌<◌, ◌≤◌, ◌++◌, ◌∷◌, [], length, unwrap_or};
ghost use Rattle.std.specs.Prelude.{slice_index, is_some, is_none, ◌&&◌};
ghost use Rattle.arrayvec.specs.ArrayVec.{array_vec_len};
ghost use Rattle.run_model.specs.declared.bounds.TheConstants.{MOST_SCOPES, GREATEST_MOMENT};
ghost use Rattle.run_model.specs.Scopes.{own_deadline};
ghost use Rattle.scope_tree.specs.Deadlines.{key as key_of, key_at, due_at, IsHeap, UpTo, DownFrom};
ghost use Rattle.scope_tree.specs.Deadlines.{SameNumbers, AreKnown, IsLesser, IsDueHeap};
ghost use Rattle.scope_tree.specs.Deadlines.{TakesFirst, TakesPassed, Noted, AreWaiting};

use crate::hits::hit_due;
use crate::scope_kinds::own_deadline;
use arrayvec::ArrayVec;
use run_model::{Hit, Kind, MOST_SCOPES, Moment, Scope};

/// Adds scope `n` to the heap, if it has a deadline and was not hit.
pub fn note(scopes: &[Scope], due: &mut ArrayVec<u16, MOST_SCOPES>, n: u16)
    requires heap { IsDueHeap scopes.now due.old.items }
    requires known { n < length scopes.now }
    requires room { array_vec_len due.old < MOST_SCOPES }
    ensures { Noted scopes.now due.old.items n due.new.items }
{
    if waits(&scopes[n as usize]) {
        push(scopes, due, n);
    }
}

/// Removes the earliest deadline, if it is at or before the clock. Returns its scope, and the hit
/// that this event gives to the scope.
pub fn pop_passed(
    scopes: &[Scope],
    due: &mut ArrayVec<u16, MOST_SCOPES>,
    event: u64,
    clock: Moment,
) -> Option<(u16, Hit)>
    requires few { length scopes.now ≤ MOST_SCOPES }
    requires waiting { AreWaiting scopes.now due.old.items }
    ensures { TakesPassed event clock scopes.now due.old.items result due.new.items }
{
    if due.is_empty() {
        return None;
    }
    let hit = first_hit(scopes, due, event, clock)?;
    let first = take_first(scopes, due);
    Some((first, hit))
}

/// Returns whether a row has a deadline and was not hit.
fn waits(row: &Scope) -> bool
    ensures { result ≡ is_some (own_deadline row.now.kind) && is_none row.now.hit }
{
    own_deadline(&row.kind).is_some() && row.hit.is_none()
}

/// Returns the hit of the earliest deadline, if that deadline has come.
fn first_hit(scopes: &[Scope], due: &[u16], event: u64, clock: Moment) -> Option<Hit>
    requires known { AreKnown scopes.now due.now }
    requires some { 0 < length due.now }
    ensures { result ≡ due_at event clock scopes.now (slice_index due.now 0) }
{
    hit_due(event, clock, &scopes[due[0] as usize].kind)
}

/// Adds scope `n` to the heap.
fn push(scopes: &[Scope], due: &mut ArrayVec<u16, MOST_SCOPES>, n: u16)
    requires heap { IsDueHeap scopes.now due.old.items }
    requires known { n < length scopes.now }
    requires room { array_vec_len due.old < MOST_SCOPES }
    ensures same { SameNumbers (due.old.items ++ n ∷ []) due.new.items }
    ensures heap { IsDueHeap scopes.now due.new.items }
{
    let last = due.len();
    due.push(n);
    sift_up(scopes, due, last);
}

/// Removes the first scope, and returns it.
fn take_first(scopes: &[Scope], due: &mut ArrayVec<u16, MOST_SCOPES>) -> u16
    requires heap { IsDueHeap scopes.now due.old.items }
    requires some { 0 < array_vec_len due.old }
    ensures { TakesFirst scopes.now due.old.items result due.new.items }
{
    let first = due.swap_remove(0);
    if !due.is_empty() {
        sift_down(scopes, due);
    }
    first
}

/// Moves the scope at place `i` up to its place in the order.
fn sift_up(scopes: &[Scope], due: &mut [u16], i: usize)
    requires known { AreKnown scopes.now due.old }
    requires inside { i < length due.old }
    requires heap { UpTo (key_at scopes.now due.old) (length due.old) i }
    ensures same { SameNumbers due.old due.new }
    ensures heap { IsHeap (key_at scopes.now due.new) (length due.new) }
{
    let mut i = i;
    while 0 < i {
        let parent = (i - 1) / 2;
        if key(scopes, due[parent]) <= key(scopes, due[i]) {
            return;
        }
        due.swap(parent, i);
        i = parent;
    }
}

/// Moves the first scope down to its place in the order.
fn sift_down(scopes: &[Scope], due: &mut [u16])
    requires known { AreKnown scopes.now due.old }
    requires inside { 0 < length due.old }
    requires few { length due.old ≤ MOST_SCOPES }
    requires heap { DownFrom (key_at scopes.now due.old) (length due.old) 0 }
    ensures same { SameNumbers due.old due.new }
    ensures heap { IsHeap (key_at scopes.now due.new) (length due.new) }
{
    let mut i = 0;
    'sink: loop {
        let child = lesser_child(scopes, due, i);
        if child == i || key(scopes, due[i]) <= key(scopes, due[child]) {
            return;
        }
        due.swap(i, child);
        i = child;
    }
}

/// Returns the place below `i` that has the lower key, or `i` if nothing is below it.
fn lesser_child(scopes: &[Scope], due: &[u16], i: usize) -> usize
    requires known { AreKnown scopes.now due.now }
    requires inside { i < length due.now }
    requires few { length due.now ≤ MOST_SCOPES }
    ensures { IsLesser (key_at scopes.now due.now) (length due.now) i result }
{
    let left = 2 * i + 1;
    if due.len() <= left {
        return i;
    }
    let right = left + 1;
    if right < due.len() && key(scopes, due[right]) < key(scopes, due[left]) {
        right
    } else {
        left
    }
}

/// Returns the key of scope `n`. Keys are ordered by deadline, and then by number.
fn key(scopes: &[Scope], n: u16) -> u64
    requires { n < length scopes.now }
    ensures { result ≡ key_of scopes.now n }
{
    seconds(&scopes[n as usize].kind) * MOST_SCOPES as u64 + u64::from(n)
}

/// Returns the deadline of a scope of this kind, in seconds; 0 if it has none.
fn seconds(kind: &Kind) -> u64
    ensures value { result ≡ unwrap_or (own_deadline kind.now) 0 }
    ensures range { result ≤ GREATEST_MOMENT }
{
    match kind {
        Kind::Deadline(moment, _) => moment.get(),
        _ => 0,
    }
}
