//! An index finds a command of a plan by the number of its group and by its key. The plan is gone
//! through once for it, and each search takes about the same time, however many commands there are.

ghost use Rattle.std.specs.Prelude.{◌≡◌, IfOk, length};
ghost use Rattle.night_drive.specs.Index.{IsIndex, found_in};
ghost use Rattle.night_drive.specs.Seen.{AreNames};

use crate::keys::GroupKey;
use crate::names::Names;
use night_plan::commands::Plan;
use run_model::Name;
use std::alloc::{AllocError, Global};
use std::collections::HashMap;
use std::hash::{BuildHasherDefault, FoldHasher};

/// The commands of a plan by group and key.
#[derive(Drop)]
pub struct Index {
    /// The number of a command with this group and key.
    pub commands: HashMap<GroupKey, usize, BuildHasherDefault<FoldHasher>, Global>,
}

impl Index {
    /// Returns the index of a plan.
    pub fn of(alloc: Global, plan: &Plan, names: &Names) -> Result<Index, AllocError>
        requires { AreNames plan.now names.now }
        ensures { IfOk result (IsIndex (length plan.now.commands.items) plan.now.commands.items
            names.now) }
    {
        let mut commands = HashMap::with_capacity(alloc, plan.commands.len())?;
        for (c, command) in plan.commands.iter().enumerate() {
            let name = &names.keys[c];
            let key = GroupKey {
                group: command.group,
                key: name.copy(),
            };
            commands.insert(key, c)?;
        }
        Ok(Index { commands })
    }

    /// Returns a command with this group and key.
    pub fn find(&self, group: usize, key: &Name) -> Option<usize>
        ensures { result ≡ found_in self.now group key.now }
    {
        let key = GroupKey {
            group,
            key: key.copy(),
        };
        match self.commands.get(&key) {
            Some(c) => Some(*c),
            None => None,
        }
    }
}
