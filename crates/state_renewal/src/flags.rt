//! A flag for each row of a state: which scopes are needed, and which groups and tasks are kept
//! because of the scope or group to which they belong.

ghost use Rattle.std.specs.Prelude.{◌≡◌, ◌<◌, ◌||◌, ℕ, not, IfOk, IfErr, Some, length, slice_get};
ghost use Rattle.run_model.specs.declared.faults.Fault.TheVariants.{Memory};
ghost use Rattle.run_model.specs.declared.groups.Group.{Group as GroupOf};
ghost use Rattle.run_model.specs.declared.tasks.Task.{Task as TaskOf};
ghost use Rattle.run_model.specs.Rules.{HasRow};
ghost use Rattle.run_model.specs.Scopes.{is_done, AreOrdered};
ghost use Rattle.state_renewal.specs.Marks.{AreFlags, group_stays, group_stays_at, is_flagged};
ghost use Rattle.state_renewal.specs.Marks.{task_stays_at, with_rows};
ghost use Rattle.state_renewal.specs.Renewed.{hosts_unwaited, keeps_scope};

use crate::marks::flag_above;
use crate::renewed_rows::{group_at, task_at};
use run_model::{Fault, Group};
use scope_tree::Tree;
use std::alloc::Allocator;
use task_group::Groups;

/// Returns a flag for each scope, which says whether it is kept: whether it is needed, or above one
/// that is needed. `Memory` if memory is refused.
pub fn flag_scopes<A: Allocator, B: Allocator>(
    alloc: A,
    tree: &Tree<B>,
    groups: &Groups<B>,
) -> Result<Vec<bool, A>, Fault>
    requires ordered { AreOrdered tree.now.scopes }
    requires known { (g : ℕ) (row : GroupOf) → HasRow groups.now.groups g row
        → row.scope < length tree.now.scopes }
    ensures flags { IfOk result (λ flags. (s : ℕ)
        → is_flagged flags.items s ≡ keeps_scope (with_rows tree.now groups.now) s) }
    ensures each { IfOk result (λ flags. length flags.items ≡ length tree.now.scopes) }
    ensures fault { IfErr result (λ fault. fault ≡ Memory) }
{
    let mut flags = flag_live(alloc, tree)?;
    flag_rest(tree, groups, &mut flags);
    Ok(flags)
}

/// Returns a flag for each scope, which says whether it is live. `Memory` if memory is refused.
pub fn flag_live<A: Allocator, B: Allocator>(
    alloc: A,
    tree: &Tree<B>,
) -> Result<Vec<bool, A>, Fault>
    ensures flags { IfOk result (λ flags. AreFlags (λ s. not (is_done tree.now.scopes s))
        (length tree.now.scopes) flags.items) }
    ensures fault { IfErr result (λ fault. fault ≡ Memory) }
{
    let Ok(mut flags) = Vec::with_capacity(alloc, tree.len()) else {
        return Err(Fault::Memory);
    };
    for s in 0..tree.len() {
        flags.push_reserved(is_live(tree, s as u16));
    }
    Ok(flags)
}

/// Also flags the scope of each group that wasn't waited for. Takes no memory.
pub fn flag_hosts<A: Allocator>(groups: &Groups<A>, flags: &mut [bool])
    requires known { (g : ℕ) (row : GroupOf) → HasRow groups.now.groups g row
        → row.scope < length flags.old }
    ensures flags { (s : ℕ)
        → is_flagged flags.new s ≡ (is_flagged flags.old s || hosts_unwaited groups.now s) }
    ensures each { length flags.new ≡ length flags.old }
{
    for g in 0..groups.group_count() {
        let row = group_at(groups, g);
        if !row.waited {
            flags[row.scope as usize] = true;
        }
    }
}

/// Returns a flag for each group, which says whether it is kept if these scopes are. `Memory` if
/// memory is refused.
pub fn flag_groups<A: Allocator, B: Allocator>(
    alloc: A,
    groups: &Groups<B>,
    scopes: &[bool],
) -> Result<Vec<bool, A>, Fault>
    requires known { (g : ℕ) (row : GroupOf) → HasRow groups.now.groups g row
        → row.scope < length scopes.now }
    ensures flags { IfOk result (λ flags. AreFlags (group_stays_at scopes.now groups.now.groups)
        (length groups.now.groups) flags.items) }
    ensures fault { IfErr result (λ fault. fault ≡ Memory) }
{
    let Ok(mut flags) = Vec::with_capacity(alloc, groups.group_count()) else {
        return Err(Fault::Memory);
    };
    for g in 0..groups.group_count() {
        flags.push_reserved(group_stays(group_at(groups, g), scopes));
    }
    Ok(flags)
}

/// Returns a flag for each task, which says whether its group is kept. `Memory` if memory is
/// refused.
pub fn flag_tasks<A: Allocator, B: Allocator>(
    alloc: A,
    groups: &Groups<B>,
    stay: &[bool],
) -> Result<Vec<bool, A>, Fault>
    requires known { (n : ℕ) (row : TaskOf) → HasRow groups.now.tasks n row
        → row.group < length stay.now }
    ensures flags { IfOk result (λ flags. AreFlags (task_stays_at stay.now groups.now.tasks)
        (length groups.now.tasks) flags.items) }
    ensures fault { IfErr result (λ fault. fault ≡ Memory) }
{
    let Ok(mut flags) = Vec::with_capacity(alloc, groups.task_count()) else {
        return Err(Fault::Memory);
    };
    for n in 0..groups.task_count() {
        flags.push_reserved(stay[task_at(groups, n).group as usize]);
    }
    Ok(flags)
}

/// Flags the kept scopes that aren't live.
fn flag_rest<A: Allocator>(tree: &Tree<A>, groups: &Groups<A>, flags: &mut [bool])
    requires ordered { AreOrdered tree.now.scopes }
    requires known { (g : ℕ) (row : GroupOf) → HasRow groups.now.groups g row
        → row.scope < length tree.now.scopes }
    requires live { AreFlags (λ s. not (is_done tree.now.scopes s)) (length tree.now.scopes)
        flags.old }
    ensures flags { (s : ℕ)
        → is_flagged flags.new s ≡ keeps_scope (with_rows tree.now groups.now) s }
    ensures each { length flags.new ≡ length flags.old }
{
    flag_hosts(groups, flags);
    flag_above(tree.rows(), flags);
}

fn is_live<A: Allocator>(tree: &Tree<A>, s: u16) -> bool
    requires { s < length tree.now.scopes }
    ensures { result ≡ not (is_done tree.now.scopes s) }
{
    tree.err(s).is_none()
}

fn group_stays(row: &Group, scopes: &[bool]) -> bool
    requires { row.now.scope < length scopes.now }
    ensures { result ≡ group_stays scopes.now row.now }
{
    !row.waited || !row.bare && scopes[row.scope as usize]
}
