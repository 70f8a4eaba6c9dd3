//! The names of a plan's commands in a store.

ghost use Rattle.std.specs.Prelude.{◌≡◌, ◌==◌, ◌&&◌, slice_index};
ghost use Rattle.night_drive.specs.Names.{begins, belongs, is_round};

use run_model::{Name, Text, is_spelled};

/// The names of a plan's groups and commands, and the current night of a store.
#[derive(Drop)]
pub struct Names {
    /// The name of each group of the plan.
    pub groups: Vec<Name>,
    /// The key of each command, which is the argument of its tasks.
    pub keys: Vec<Name>,
    /// The number of the night, as the scopes of the night have it; `None` in the first night of a
    /// store, whose scopes have no number.
    pub night: Option<Text>,
}

/// Returns whether a group or a scope of the store belongs to the plan's group of this name. In the
/// store the group `disks` is called `disks`, or `disks` with a round after it, such as `disks--2`
/// or `disks--2-3`.
pub fn belongs(group: &Name, name: &Name) -> bool
    ensures { result ≡ belongs group.now name.now }
{
    let (group, name) = (group.as_bytes(), name.as_bytes());
    begins(name, group) && is_round(&name[group.len()..])
}

/// Returns whether a word begins with these bytes.
pub fn begins(word: &[u8], prefix: &[u8]) -> bool
    ensures { result ≡ begins word.now prefix.now }
{
    prefix.len() <= word.len() && is_spelled(&word[..prefix.len()], prefix)
}

/// Returns whether these bytes can follow a group's name: none, or two hyphens and no third one.
fn is_round(rest: &[u8]) -> bool
    ensures { result ≡ is_round rest.now }
{
    let is_long = byte_at(rest, 0) == b'-' && byte_at(rest, 1) == b'-' && byte_at(rest, 2) != b'-';
    rest.is_empty() || is_long
}

/// Returns the byte at this place, or 0 after the last one.
fn byte_at(bytes: &[u8], at: usize) -> u8
    ensures { result ≡ slice_index bytes.now at }
{
    match bytes.get(at) {
        Some(byte) => *byte,
        None => 0,
    }
}
