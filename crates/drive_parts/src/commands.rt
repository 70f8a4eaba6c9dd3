//! The commands of a plan while its lines are read, with their keys.

ghost use Rattle.std.specs.Prelude.{◌≡◌, [], IfOk, false, length};

use night_plan::commands::Command;
use plan_lines::drafts::{command_of, extended};
use plan_lines::lines::{Outline, PlanLine};
use run_model::Name;
use std::alloc::{AllocError, Global};

/// The commands that were read so far.
#[derive(Drop)]
pub struct CommandList {
    pub commands: Vec<Command>,
    /// The key of each command.
    pub keys: Vec<Name>,
    /// Whether needs and takes of the last command can come next.
    pub growing: bool,
    pub ghost keyed: { length keys.items ≡ length commands.items },
}

impl CommandList {
    ghost use Rattle.drive_parts.specs.Commands.{ExtendsLast, HasCommand};

    /// No commands.
    pub fn new(alloc: Global) -> Self
        ensures commands { result.commands.items ≡ [] }
        ensures keys { result.keys.items ≡ [] }
        ensures growing { result.growing ≡ false }
    {
        CommandList {
            commands: Vec::new(alloc),
            keys: Vec::new(alloc),
            growing: false,
        }
    }

    /// The list with one more command, whose needs and takes can come next.
    pub fn with_command(
        self,
        alloc: Global,
        outline: Outline,
        key: Name,
    ) -> Result<CommandList, AllocError>
        ensures { IfOk result (HasCommand outline key self) }
    {
        let CommandList {
            mut commands,
            mut keys,
            growing: _,
        } = self;
        commands.push(command_of(alloc, outline))?;
        keys.push(key)?;
        Ok(CommandList {
            commands,
            keys,
            growing: true,
        })
    }

    /// The list whose last command has one more need or take, or `None` if that can't come next.
    pub fn with_detail(self, line: PlanLine) -> Result<Option<CommandList>, AllocError>
        ensures { IfOk result (ExtendsLast line self) }
    {
        let CommandList {
            mut commands,
            keys,
            growing,
        } = self;
        if !growing {
            return Ok(None);
        }
        let Some(command) = commands.pop() else {
            return Ok(None);
        };
        commands.push(extended(command, line)?)?;
        Ok(Some(CommandList {
            commands,
            keys,
            growing,
        }))
    }

    /// The list after a line that is neither a command nor one of its needs and takes.
    pub fn closed(self) -> CommandList
        ensures commands { result.commands ≡ self.commands }
        ensures keys { result.keys ≡ self.keys }
        ensures growing { result.growing ≡ false }
    {
        let CommandList {
            commands,
            keys,
            growing: _,
        } = self;
        CommandList {
            commands,
            keys,
            growing: false,
        }
    }
}
