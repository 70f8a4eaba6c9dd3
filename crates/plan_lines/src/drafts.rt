//! A [`Draft`] holds the lines of a plan while they are read.

ghost use Rattle.std.specs.Prelude.{◌≡◌, ◌++◌, ◌∷◌, [], IfOk, None, Some};
ghost use Rattle.plan_lines.specs.Drafts.{Adds, ExtendsLast, Finishes, IsNew, commands_in};
ghost use Rattle.plan_lines.specs.Commands.{Extends, HasNewNeed, HasNewTake, IsOutlined};

use crate::lines::{Outline, PlanLine};
use night_plan::commands::{Command, Group, Need, Plan, Take};
use night_plan::plans::{PlanFault, make_plan};
use std::alloc::{AllocError, Global};

/// The groups, pools and commands of a plan that were read so far. The last command is kept apart,
/// because lines with its needs and takes may follow.
#[derive(Drop)]
pub struct Draft {
    pub groups: Vec<Group>,
    pub pools: Vec<u32>,
    pub commands: Vec<Command>,
    pub last: Option<Command>,
}

impl Draft {
    /// A draft without any lines.
    pub fn new(alloc: Global) -> Self
        ensures { IsNew result }
    {
        Draft {
            groups: Vec::new(alloc),
            pools: Vec::new(alloc),
            commands: Vec::new(alloc),
            last: None,
        }
    }

    /// Returns the draft with one more line, or `None` if a plan can't have this line there.
    pub fn add(self, alloc: Global, line: PlanLine) -> Result<Option<Draft>, AllocError>
        ensures { IfOk result (Adds line self) }
    {
        match line {
            PlanLine::Pool(size) => Ok(Some(self.closed()?.with_pool(size)?)),
            PlanLine::Group(group) => Ok(Some(self.closed()?.with_group(group)?)),
            PlanLine::Command(outline) => {
                let command = command_of(alloc, outline);
                Ok(Some(self.closed()?.with_last(command)))
            }
            PlanLine::Need(_) | PlanLine::Take(_) => self.extend_last(line),
            _ => Ok(None),
        }
    }

    /// The draft with its last command among the others.
    fn closed(self) -> Result<Draft, AllocError>
        ensures commands { IfOk result (λ new. new.commands.items ≡ commands_in self) }
        ensures groups { IfOk result (λ new. new.groups ≡ self.groups) }
        ensures pools { IfOk result (λ new. new.pools ≡ self.pools) }
        ensures last { IfOk result (λ new. new.last ≡ None) }
    {
        let Draft {
            groups,
            pools,
            mut commands,
            last,
        } = self;
        if let Some(command) = last {
            commands.push(command)?;
        }
        Ok(Draft {
            groups,
            pools,
            commands,
            last: None,
        })
    }

    /// The draft with one more pool.
    fn with_pool(self, size: u32) -> Result<Draft, AllocError>
        ensures pools { IfOk result (λ new. new.pools.items ≡ self.pools.items ++ size ∷ []) }
        ensures groups { IfOk result (λ new. new.groups ≡ self.groups) }
        ensures commands { IfOk result (λ new. new.commands ≡ self.commands) }
        ensures last { IfOk result (λ new. new.last ≡ self.last) }
    {
        let Draft {
            groups,
            mut pools,
            commands,
            last,
        } = self;
        pools.push(size)?;
        Ok(Draft {
            groups,
            pools,
            commands,
            last,
        })
    }

    /// The draft with one more group.
    fn with_group(self, group: Group) -> Result<Draft, AllocError>
        ensures groups { IfOk result (λ new. new.groups.items
            ≡ self.groups.items ++ group ∷ []) }
        ensures pools { IfOk result (λ new. new.pools ≡ self.pools) }
        ensures commands { IfOk result (λ new. new.commands ≡ self.commands) }
        ensures last { IfOk result (λ new. new.last ≡ self.last) }
    {
        let Draft {
            mut groups,
            pools,
            commands,
            last,
        } = self;
        groups.push(group)?;
        Ok(Draft {
            groups,
            pools,
            commands,
            last,
        })
    }

    /// The draft with this command as the last.
    fn with_last(self, command: Command) -> Draft
        ensures groups { result.groups ≡ self.groups }
        ensures pools { result.pools ≡ self.pools }
        ensures commands { result.commands ≡ self.commands }
        ensures last { result.last ≡ Some command }
    {
        let Draft {
            groups,
            pools,
            commands,
            last: _,
        } = self;
        Draft {
            groups,
            pools,
            commands,
            last: Some(command),
        }
    }

    /// The draft whose last command has one more need or take, if there is a last command.
    fn extend_last(self, line: PlanLine) -> Result<Option<Draft>, AllocError>
        ensures { IfOk result (ExtendsLast line self) }
    {
        let Draft {
            groups,
            pools,
            commands,
            last,
        } = self;
        let Some(command) = last else {
            return Ok(None);
        };
        let last = Some(extended(command, line)?);
        Ok(Some(Draft {
            groups,
            pools,
            commands,
            last,
        }))
    }

    /// Returns the plan of all lines, or says why there is none.
    pub fn finish(self, alloc: Global) -> Result<Plan, PlanFault>
        ensures { Finishes self result }
    {
        let Ok(draft) = self.closed() else {
            return Err(PlanFault::Memory);
        };
        let Draft {
            groups,
            pools,
            commands,
            last: _,
        } = draft;
        make_plan(alloc, groups, pools, commands)
    }
}

/// A command that needs and takes nothing yet.
pub fn command_of(alloc: Global, outline: Outline) -> Command
    ensures { IsOutlined outline result }
{
    Command {
        group: outline.group,
        priority: outline.priority,
        needs: Vec::new(alloc),
        takes: Vec::new(alloc),
        retries: outline.retries,
        wait: outline.wait,
        factor: outline.factor,
        cap: outline.cap,
    }
}

/// The command with the need or the take that a line says. Any other line changes nothing.
pub fn extended(command: Command, line: PlanLine) -> Result<Command, AllocError>
    ensures { IfOk result (Extends line command) }
{
    match line {
        PlanLine::Need(need) => with_need(command, need),
        PlanLine::Take(take) => with_take(command, take),
        _ => Ok(command),
    }
}

/// The command with one more need.
fn with_need(command: Command, need: Need) -> Result<Command, AllocError>
    ensures { IfOk result (HasNewNeed command need) }
{
    let Command {
        group,
        priority,
        mut needs,
        takes,
        retries,
        wait,
        factor,
        cap,
    } = command;
    needs.push(need)?;
    Ok(Command {
        group,
        priority,
        needs,
        takes,
        retries,
        wait,
        factor,
        cap,
    })
}

/// The command with one more take.
fn with_take(command: Command, take: Take) -> Result<Command, AllocError>
    ensures { IfOk result (HasNewTake command take) }
{
    let Command {
        group,
        priority,
        needs,
        mut takes,
        retries,
        wait,
        factor,
        cap,
    } = command;
    takes.push(take)?;
    Ok(Command {
        group,
        priority,
        needs,
        takes,
        retries,
        wait,
        factor,
        cap,
    })
}
