//! The group of a store in which a command of the plan gets its next task.

ghost use Rattle.std.specs.Prelude.{◌≡◌, ◌<◌, IfSome, length};
ghost use Rattle.drive_steps.specs.Rooms.{are_housed, last_group, name_of};

use night_drive::names::Names;
use night_drive::nights::is_owned;
use run_model::{Name, Text};
use run_session::State;
use std::alloc::Allocator;

/// Returns the last group of the store that belongs to this night, and to the plan's group of this
/// name.
pub fn last_group<A: Allocator>(state: &State<A>, night: &Option<Text>, group: &Name) -> Option<u16>
    ensures last { result ≡ last_group state.now night.now group.now }
    ensures within { IfSome result (λ g. g < length state.now.work.groups) }
{
    let mut last = None;
    for g in 0..state.group_count() as u16 {
        if is_owned(state, night, group, g) {
            last = Some(g);
        }
    }
    last
}

/// Returns the name of a group of the store.
pub fn name_of<A: Allocator>(state: &State<A>, g: u16) -> Name
    requires { g < length state.now.work.groups }
    ensures { result ≡ name_of state.now g }
{
    match state.groups().group_row(g) {
        Some(row) => row.name.copy(),
        None => unreachable!(),
    }
}

/// Returns whether each group of the plan has a group of the store in this night.
pub fn are_housed<A: Allocator>(state: &State<A>, names: &Names) -> bool
    ensures { result ≡ are_housed state.now names.now }
{
    names
        .groups
        .iter()
        .all(|group| last_group(state, &names.night, group).is_some())
}
