//! The names that the scopes and groups of a night have in a store.

ghost use Rattle.std.specs.Prelude.{◌≡◌, ◌<◌, ◌≤◌, ◌^◌, is_none, length, true};
ghost use Rattle.run_model.specs.Texts.{IsName};
ghost use Rattle.night_drive.specs.Searches.{last_below};
ghost use Rattle.drive_nights.specs.Names.{free_name, free_round, has_group, has_scope, is_free};
ghost use Rattle.drive_nights.specs.Names.{is_short, most_rounds, role_name, role_word, round_name};

use arrayvec::ArrayVec;
use console_lines::{push, push_number};
use night_drive::names::belongs;
use row_view::copies::name_copy;
use run_model::{NAME_LEN, Name};
use run_session::State;
use std::alloc::Allocator;

/// How many bytes a group's name and the number of a night may have together.
pub const LONGEST_NUMBERED: usize = 24;

/// How many rounds of a group in one night are tried before the last one is taken.
pub const MOST_ROUNDS: u64 = 98;

/// The purpose of a scope that stands next to that of a group, or next to that of all groups
/// together.
#[derive(Clone, Copy)]
pub enum Role {
    /// It has the deadline.
    Until,
    /// It has the words of the deadline.
    Said,
    /// It has the number of the night.
    Round,
    /// It is there once the night has ended.
    Ended,
}

impl Role {
    /// Returns the word of the role.
    fn word(self) -> &'static [u8]
        ensures value { result.now ≡ role_word self }
        ensures short { length result.now ≤ 5 }
    {
        match self {
            Role::Until => b"until",
            Role::Said => b"said",
            Role::Round => b"round",
            Role::Ended => b"ended",
        }
    }
}

/// Returns the name of the scope that has a role for the scope of this name.
pub fn role_name(name: &Name, role: Role) -> Name
    requires { length name.now ≤ 29 }
    ensures { result ≡ role_name name.now role }
{
    name_copy(role_bytes(name, role).as_slice())
}

/// Returns the bytes of that name.
pub fn role_bytes(name: &Name, role: Role) -> ArrayVec<u8, 40>
    ensures value { result.items ≡ role_name name.now role }
    ensures name { IsName name.now }
{
    let word = role.word();
    let fits = name.as_bytes().len() + 2 + word.len() <= NAME_LEN;
    let mut bytes = ArrayVec::<u8, 40>::new();
    push(&mut bytes, name.as_bytes());
    push(&mut bytes, b"--");
    push(&mut bytes, if fits { word } else { &word[..1] });
    bytes
}

/// Returns whether the name of a group leaves room for the number of a night, a round and a role.
pub fn is_short(group: &Name, night: u64) -> bool
    ensures { result ≡ is_short group.now night }
{
    let mut digits = ArrayVec::<u8, 20>::new();
    push_number(&mut digits, b"", night);
    group.as_bytes().len() + digits.len() <= LONGEST_NUMBERED
}

/// Returns the first name of a group in a night that no scope and no group of the store has.
pub fn free_name<A: Allocator>(state: &State<A>, group: &Name, night: u64) -> Name
    requires { is_short group.now night ≡ true }
    ensures value { result ≡ free_name state.now group.now night }
    ensures short { length result ≤ 29 }
{
    round_name(group, night, free_round(state, group, night))
}

/// Returns the round of that name.
fn free_round<A: Allocator>(state: &State<A>, group: &Name, night: u64) -> u64
    requires { is_short group.now night ≡ true }
    ensures round { result ≡ free_round state.now group.now night }
    ensures few { result < 10 ^ 2 }
{
    let most = most_rounds(state);
    for k in 1..most + 1 {
        if is_free(state, &round_name(group, night, k)) {
            return k;
        }
    }
    most + 1
}

/// Returns how many rounds are tried.
fn most_rounds<A: Allocator>(state: &State<A>) -> u64
    ensures most { result ≡ most_rounds state.now }
    ensures few { result ≤ MOST_ROUNDS }
{
    let names = (state.scope_count() + state.group_count()) as u64;
    if names < MOST_ROUNDS {
        names
    } else {
        MOST_ROUNDS
    }
}

/// Returns whether no scope and no group of the store has this name, or this name with a role after
/// it.
fn is_free<A: Allocator>(state: &State<A>, name: &Name) -> bool
    ensures { result ≡ is_free state.now name.now }
{
    is_no_scope(state, name) && is_no_group(state, name)
}

/// Returns whether no scope of the store has this name.
fn is_no_scope<A: Allocator>(state: &State<A>, name: &Name) -> bool
    ensures { result
        ≡ is_none (last_below (has_scope state.now name.now) (length state.now.tree.scopes)) }
{
    let mut is_free = true;
    for s in 0..state.scope_count() as u16 {
        if has_scope(state, name, s) {
            is_free = false;
        }
    }
    is_free
}

/// Returns whether no group of the store has this name.
fn is_no_group<A: Allocator>(state: &State<A>, name: &Name) -> bool
    ensures { result
        ≡ is_none (last_below (has_group state.now name.now) (length state.now.work.groups)) }
{
    let mut is_free = true;
    for g in 0..state.group_count() as u16 {
        if has_group(state, name, g) {
            is_free = false;
        }
    }
    is_free
}

/// Returns whether this scope has this name.
fn has_scope<A: Allocator>(state: &State<A>, name: &Name, s: u16) -> bool
    ensures { result ≡ has_scope state.now name.now s }
{
    match state.scopes().get(s as usize) {
        Some(row) => belongs(name, &row.name),
        None => false,
    }
}

/// Returns whether this group has this name.
fn has_group<A: Allocator>(state: &State<A>, name: &Name, g: u16) -> bool
    ensures { result ≡ has_group state.now name.now g }
{
    match state.groups().group_row(g) {
        Some(row) => belongs(name, &row.name),
        None => false,
    }
}

/// Returns the name of a group in its k-th round in a night.
fn round_name(group: &Name, night: u64, k: u64) -> Name
    requires short { is_short group.now night ≡ true }
    requires few { k < 10 ^ 2 }
    ensures value { result ≡ round_name group.now night k }
    ensures short { length result ≤ 29 }
{
    name_copy(round_bytes(group, night, k).as_slice())
}

/// Returns the bytes of that name.
fn round_bytes(group: &Name, night: u64, k: u64) -> ArrayVec<u8, 80>
    ensures value { result.items ≡ round_name group.now night k }
    ensures name { IsName group.now }
{
    let mut bytes = ArrayVec::<u8, 80>::new();
    push(&mut bytes, group.as_bytes());
    if k > 1 {
        push_number(&mut bytes, b"--", night);
        push_number(&mut bytes, b"-", k);
    } else if night > 1 {
        push_number(&mut bytes, b"--", night);
    }
    bytes
}
