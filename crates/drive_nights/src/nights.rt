//! The number of a night, and which night of a store goes on or begins.

ghost use Rattle.std.specs.Fmt.{decimal};
ghost use Rattle.std.specs.Option.{option_copied};
ghost use Rattle.std.specs.Prelude.{◌≡◌, ◌<◌, ◌≤◌, ◌+◌, IfSome, is_some, length, max};
ghost use Rattle.run_model.specs.Scopes.{text_under};
ghost use Rattle.run_model.specs.Allowed.{takes_cause};
ghost use Rattle.run_model.specs.State.{scope_named};
ghost use Rattle.night_drive.specs.Names.{is_same, night_of};
ghost use Rattle.night_drive.specs.Searches.{last_below};
ghost use Rattle.drive_nights.specs.declared.names.Role.TheVariants.{Ended};
ghost use Rattle.drive_nights.specs.Names.{role_name};
ghost use Rattle.drive_nights.specs.Nights.{last_night, night_at, night_text, night_under};
ghost use Rattle.drive_nights.specs.Nights.{base_of, is_base, is_base_row, is_ended};
ghost use Rattle.drive_nights.specs.Nights.{is_first_top, name_at, night_of_store, number_in};
ghost use Rattle.drive_nights.specs.Nights.{parent_of, top_above};

use crate::names::{Role, role_bytes};
use arrayvec::ArrayVec;
use console_lines::{push_number, read_number};
use night_drive::names::begins;
use row_view::copies::{name_copy, text_copy};
use run_model::{Kind, Name, Scope, Text, is_spelled};
use run_session::State;
use std::alloc::Allocator;

/// The greatest number that a scope can give to a night.
pub const MOST_NIGHTS: u64 = 999_999_999;

/// Returns the number of a night, as its scopes have it. The scopes of the first night have none.
pub fn night_text(night: u64) -> Option<Text>
    ensures { result ≡ night_text night }
{
    if night <= 1 {
        None
    } else {
        Some(number_text(night))
    }
}

/// Returns a number as a text.
pub(crate) fn number_text(number: u64) -> Text
    ensures { result ≡ decimal number }
{
    let mut digits = ArrayVec::<u8, 20>::new();
    push_number(&mut digits, b"", number);
    text_copy(digits.as_slice())
}

/// Returns the last night of a store: the greatest number that a scope gives to a night.
pub fn last_night<A: Allocator>(state: &State<A>) -> u64
    ensures value { result ≡ last_night state.now }
    ensures least { 1 ≤ result }
    ensures most { result ≤ MOST_NIGHTS }
{
    let mut last = 1;
    for s in 0..state.scope_count() as u16 {
        last = greater(last, night_at(state, s));
    }
    last
}

/// Returns the greater one of two numbers.
fn greater(one: u64, other: u64) -> u64
    ensures { result ≡ max one other }
{
    if one < other { other } else { one }
}

/// Returns the night that a scope begins.
fn night_at<A: Allocator>(state: &State<A>, s: u16) -> u64
    ensures value { result ≡ night_at state.now s }
    ensures most { result ≤ MOST_NIGHTS }
{
    match state.scopes().get(s as usize) {
        Some(row) => night_under(&row.kind),
        None => 1,
    }
}

/// Returns the night that a scope of this kind begins.
fn night_under(kind: &Kind) -> u64
    ensures value { result ≡ night_under kind.now }
    ensures most { result ≤ MOST_NIGHTS }
{
    match text_under(b"night", kind) {
        Some(text) => number_in(text),
        None => 1,
    }
}

/// Returns the text that a scope of this kind holds under a key.
pub fn text_under<'a>(key: &[u8], kind: &'a Kind) -> Option<&'a Text>
    ensures { option_copied result ≡ text_under key.now kind.now }
{
    match kind {
        Kind::Value(own, text) if is_spelled(key, own.as_bytes()) => Some(text),
        _ => None,
    }
}

/// Returns the number that a text says.
fn number_in(text: &Text) -> u64
    ensures value { result ≡ number_in text.now }
    ensures most { result ≤ MOST_NIGHTS }
{
    match read_number(text.as_bytes()) {
        Some(n) if 1 <= n && n <= MOST_NIGHTS => n,
        _ => 1,
    }
}

/// Returns the night that goes on or begins with an opening. The last night goes on, unless it has
/// ended or another one is wanted. A night that has no base yet hasn't begun.
pub fn night_of_store<A: Allocator>(state: &State<A>, next: bool) -> u64
    ensures value { result ≡ night_of_store state.now next }
    ensures least { 1 ≤ result }
    ensures most { result ≤ MOST_NIGHTS + 1 }
{
    let last = last_night(state);
    let is_over = base_of(state, last).is_some() && (next || is_ended(state, last));
    if is_over { last + 1 } else { last }
}

/// Returns whether a night has ended: whether its top has the mark of that.
pub fn is_ended<A: Allocator>(state: &State<A>, night: u64) -> bool
    ensures { result ≡ is_ended state.now night }
{
    match base_of(state, night) {
        Some(base) => has_mark(state, &name_at(state, top_above(state, night, base))),
        None => false,
    }
}

/// Returns whether there is the mark of an end below the top of this name.
fn has_mark<A: Allocator>(state: &State<A>, top: &Name) -> bool
    ensures { result ≡ is_some (scope_named state.now.tree (role_name top.now Ended)) }
{
    state
        .find_bytes(role_bytes(top, Role::Ended).as_slice())
        .is_some()
}

/// Returns the base of a night, below which the scopes of its groups are made.
pub fn base_of<A: Allocator>(state: &State<A>, night: u64) -> Option<u16>
    ensures base { result ≡ base_of state.now night }
    ensures within { IfSome result (λ s. s < length state.now.tree.scopes) }
{
    let mut last = None;
    for s in 0..state.scope_count() as u16 {
        if is_base(state, night, s) {
            last = Some(s);
        }
    }
    last
}

/// Returns whether a scope can be the base of a night.
pub(crate) fn is_base<A: Allocator>(state: &State<A>, night: u64, s: u16) -> bool
    ensures { result ≡ is_base state.now night s }
{
    match state.scopes().get(s as usize) {
        Some(row) => is_base_row(night, row) && is_tonight(state, night, s),
        None => false,
    }
}

/// Returns whether a scope of this row can be the base of a night.
fn is_base_row(night: u64, row: &Scope) -> bool
    ensures { result ≡ is_base_row night row.now }
{
    if night <= 1 {
        has_cause(&row.kind) && is_first_top(&row.name)
    } else {
        is_same_text(text_under(b"night", &row.kind), night)
    }
}

/// Returns whether this is the name of the first night's top.
fn is_first_top(name: &Name) -> bool
    ensures { result ≡ is_first_top name.now }
{
    is_spelled(name.as_bytes(), b"night") || begins(name.as_bytes(), b"night--1-")
}

/// Returns whether a scope of this kind can be canceled with a cause.
fn has_cause(kind: &Kind) -> bool
    ensures { result ≡ takes_cause kind.now }
{
    matches!(kind, Kind::Cause)
}

/// Returns whether a text is the number of this night.
fn is_same_text(text: Option<&Text>, night: u64) -> bool
    ensures { result ≡ is_same (option_copied text.entry) (night_text night) }
{
    match (text, &night_text(night)) {
        (None, None) => true,
        (Some(one), Some(other)) => is_spelled(one.as_bytes(), other.as_bytes()),
        (None, Some(_)) | (Some(_), None) => false,
    }
}

/// Returns whether a scope belongs to this night.
pub(crate) fn is_tonight<A: Allocator>(state: &State<A>, night: u64, s: u16) -> bool
    ensures { result ≡ is_same (night_of state.now s) (night_text night) }
{
    is_same_text(state.value(s, &name_copy(b"night")).as_ref(), night)
}

/// Returns the number of the scope that stops all groups of a night, whose base this is.
pub fn top_above<A: Allocator>(state: &State<A>, night: u64, base: u16) -> u16
    ensures { result ≡ top_above state.now night base }
{
    if night <= 1 {
        base
    } else {
        parent_of(state, base)
    }
}

/// Returns the number of the scope above this one.
pub(crate) fn parent_of<A: Allocator>(state: &State<A>, s: u16) -> u16
    ensures { result ≡ parent_of state.now s }
{
    match state.scopes().get(s as usize) {
        Some(row) => row.parent,
        None => 0,
    }
}

/// Returns the name of a scope.
pub fn name_at<A: Allocator>(state: &State<A>, s: u16) -> Name
    ensures { result ≡ name_at state.now s }
{
    match state.scopes().get(s as usize) {
        Some(row) => row.name.copy(),
        None => name_copy(b"root"),
    }
}
