//! The commands of each group, each linked to the one before it.

ghost use Rattle.std.specs.Prelude.{◌≡◌, ◌<◌, ◌-◌, All, IfOk, length, slice_index};
ghost use Rattle.night_plan.specs.Links.{AreLinks, IsRankedFrom};

use crate::commands::Command;
use std::alloc::{AllocError, Global};

/// Of each command 1 more than the number of the one before it in its group, and of each group the
/// same of its last command; 0 where there is none.
#[derive(Drop)]
pub struct Links {
    pub before: Vec<usize>,
    pub last: Vec<usize>,
}

/// The links of commands.
pub fn link(alloc: Global, groups: usize, commands: &[Command]) -> Result<Links, AllocError>
    requires { All (λ command. command.group < groups) commands.now }
    ensures { IfOk result (λ it. AreLinks commands.now groups (length commands.now)
        it.before.items it.last.items) }
{
    let mut before = Vec::new(alloc);
    let mut last = vec![in alloc; 0usize; groups]?;
    for (c, command) in commands.iter().enumerate() {
        before.push(last[command.group])?;
        last[command.group] = c + 1;
    }
    Ok(Links { before, last })
}

/// 1 more than the last command of a group without a rank, or 0 if each has one, where all from a
/// number on have one.
pub fn last_unranked(
    commands: &[Command],
    groups: usize,
    ranks: &[usize],
    links: &Links,
    g: usize,
    from: usize,
) -> usize
    requires sized { length ranks.now ≡ length commands.now }
    requires links { AreLinks commands.now groups (length commands.now) links.now.before.items
        links.now.last.items }
    requires from { IsRankedFrom commands.now ranks.now g from }
    ensures from { IsRankedFrom commands.now ranks.now g result }
    ensures none { 0 < result → slice_index ranks.now (result - 1) ≡ 0 }
{
    let mut next = from;
    while next > 0 {
        if ranks[next - 1] == 0 {
            return next;
        }
        next = links.before[next - 1];
    }
    next
}
