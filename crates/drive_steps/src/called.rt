//! A command of the plan: the name of its group, and its last try.

ghost use Rattle.std.specs.Prelude.{◌≡◌, ◌<◌, Contains, length};
ghost use Rattle.night_drive.specs.Seen.{AreNames};
ghost use Rattle.drive_steps.specs.Starts.{group_of, last_of};

use night_drive::names::Names;
use night_drive::seen::last_try;
use night_plan::commands::Plan;
use run_model::Name;
use run_session::State;
use std::alloc::Allocator;

/// Returns the name of the group of a command. It is one of the names of groups.
pub(crate) fn group_of<'a>(plan: &Plan, names: &'a Names, c: usize) -> &'a Name
    requires named { AreNames plan.now names.now }
    requires within { c < length plan.now.commands.items }
    ensures is { result.now ≡ group_of names.now plan.now.commands.items c }
    ensures listed { Contains names.now.groups.items result.now }
{
    &names.groups[plan.commands[c].group]
}

/// Returns the last try of a command.
pub(crate) fn last_of<A: Allocator>(
    state: &State<A>,
    plan: &Plan,
    names: &Names,
    c: usize,
) -> Option<u16>
    requires named { AreNames plan.now names.now }
    requires within { c < length plan.now.commands.items }
    ensures { result ≡ last_of state.now names.now plan.now.commands.items c }
{
    let group = group_of(plan, names, c);
    last_try(state, &names.night, group, &names.keys[c])
}
