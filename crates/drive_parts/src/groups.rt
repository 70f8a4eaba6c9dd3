//! The groups of a plan while its lines are read, with their names and deadlines.

ghost use Rattle.std.specs.Prelude.{◌≡◌, ◌++◌, ◌∷◌, [], IfOk, None, length};

use drive_nights::untils::Until;
use night_plan::commands::Group;
use run_model::Name;
use std::alloc::{AllocError, Global};

/// The groups that were read so far.
#[derive(Drop)]
pub struct GroupList {
    pub groups: Vec<Group>,
    /// The name of each group.
    pub names: Vec<Name>,
    /// The deadline of each group that has one.
    pub untils: Vec<Option<Until>>,
    pub ghost named: { length names.items ≡ length groups.items },
    pub ghost dated: { length untils.items ≡ length groups.items },
}

impl GroupList {
    ghost use Rattle.drive_parts.specs.Groups.{HasUntil};

    /// No groups.
    pub fn new(alloc: Global) -> Self
        ensures groups { result.groups.items ≡ [] }
        ensures names { result.names.items ≡ [] }
        ensures untils { result.untils.items ≡ [] }
    {
        GroupList {
            groups: Vec::new(alloc),
            names: Vec::new(alloc),
            untils: Vec::new(alloc),
        }
    }

    /// The list with one more group, which has no deadline yet.
    pub fn with_group(self, group: Group, name: Name) -> Result<GroupList, AllocError>
        ensures groups { IfOk result (λ new. new.groups.items
            ≡ self.groups.items ++ group ∷ []) }
        ensures names { IfOk result (λ new. new.names.items ≡ self.names.items ++ name ∷ []) }
        ensures untils { IfOk result (λ new. new.untils.items
            ≡ self.untils.items ++ None ∷ []) }
    {
        let GroupList {
            mut groups,
            mut names,
            mut untils,
        } = self;
        groups.push(group)?;
        names.push(name)?;
        untils.push(None)?;
        Ok(GroupList {
            groups,
            names,
            untils,
        })
    }

    /// The list in which the last group has this deadline, or `None` if it has one already, or if
    /// there is no group.
    pub fn with_until(self, until: Until) -> Result<Option<GroupList>, AllocError>
        ensures { IfOk result (HasUntil until self) }
    {
        let GroupList {
            groups,
            names,
            mut untils,
        } = self;
        let Some(None) = untils.pop() else {
            return Ok(None);
        };
        untils.push(Some(until))?;
        Ok(Some(GroupList {
            groups,
            names,
            untils,
        }))
    }
}
