//! Which names groups and commands can have.

ghost use Rattle.std.specs.Prelude.{◌≡◌, ◌<◌, ◌≤◌, ◌↔◌, ℕ, IsTrue, MatchOption, Some, length};
ghost use Rattle.std.specs.Prelude.{slice_get, ◌==◌, ◌&&◌};
ghost use Rattle.std.specs.Str.{bytes_eq};
ghost use Rattle.drive_parts.specs.Names.{AreGroupNames, AreKeys, HasKey, IsGroupName, IsPlain};
ghost use Rattle.drive_parts.specs.Names.{IsRefusedName, IsTwice, groups_of};

use night_plan::commands::Command;
use run_model::{Name, is_spelled};

/// The length of the longest name of a group. A group of the store has the number of a night after
/// it, and a scope beside it has its role after that.
const LONGEST_GROUP: usize = 20;

/// Returns the first group whose name is refused.
pub(crate) fn first_refused(names: &[Name]) -> Option<usize>
    ensures { MatchOption result (AreGroupNames names.now) (IsRefusedName names.now) }
{
    for g in 0..names.len() {
        if !is_group_name(&names[g]) || is_among(names, g, &names[g]) {
            return Some(g);
        }
    }
    None
}

/// Returns whether a group can have this name, if no other group has it.
pub(crate) fn is_group_name(name: &Name) -> bool
    ensures { IsTrue result ↔ IsGroupName name.now }
{
    let bytes = name.as_bytes();
    bytes.len() <= LONGEST_GROUP && is_plain(bytes) && !is_spelled(bytes, b"night")
}

/// Returns whether no two hyphens stand next to each other.
fn is_plain(bytes: &[u8]) -> bool
    ensures { IsTrue result ↔ IsPlain bytes.now }
{
    for i in 1..bytes.len() {
        if bytes[i - 1] == b'-' && bytes[i] == b'-' {
            return false;
        }
    }
    true
}

/// Returns whether one of the names before this place is this one.
pub(crate) fn is_among(names: &[Name], end: usize, name: &Name) -> bool
    requires { end ≤ length names.now }
    ensures { IsTrue result
        ↔ ((g : ℕ) × (g < end) × (slice_get names.now g ≡ Some name.now)) }
{
    for g in 0..end {
        if is_same(&names[g], name) {
            return true;
        }
    }
    false
}

/// Returns the first command that has the key of an earlier one of its group.
pub(crate) fn first_twice(commands: &[Command], keys: &[Name]) -> Option<usize>
    requires { length keys.now ≡ length commands.now }
    ensures { MatchOption result (AreKeys (groups_of commands.now) keys.now)
        (IsTwice (groups_of commands.now) keys.now) }
{
    for c in 0..commands.len() {
        if has_key(commands, keys, c, commands[c].group, &keys[c]) {
            return Some(c);
        }
    }
    None
}

/// Returns whether a command of this group before this place has this key.
pub(crate) fn has_key(
    commands: &[Command],
    keys: &[Name],
    end: usize,
    group: usize,
    key: &Name,
) -> bool
    requires keyed { length keys.now ≡ length commands.now }
    requires within { end ≤ length commands.now }
    ensures { IsTrue result ↔ ((c : ℕ) × (c < end)
        × HasKey (groups_of commands.now) keys.now group key.now c) }
{
    for c in 0..end {
        if is_called(commands[c].group, &keys[c], group, key) {
            return true;
        }
    }
    false
}

/// Returns whether a command is in this group, and has this key.
fn is_called(in_group: usize, own: &Name, group: usize, key: &Name) -> bool
    ensures { result ≡ (in_group == group && bytes_eq own.now key.now) }
{
    in_group == group && is_same(own, key)
}

/// Returns whether two names are the same.
fn is_same(a: &Name, b: &Name) -> bool
    ensures { result ≡ bytes_eq a.now b.now }
{
    is_spelled(a.as_bytes(), b.as_bytes())
}
