//! The rows of a renewed state in an image: the kept rows of the old state, which name each other
//! by their new numbers.
//!
//! The calls that write them have more than six clauses, because the caller passes the rows, the
//! marks of kept rows and the bytes as three values that no type holds together.

ghost use Rattle.std.specs.List.{flat_map, AllByRecursion};
ghost use Rattle.std.specs.Option.{option_map};
ghost use Rattle.std.specs.Prelude.{◌≡◌, ◌+◌, ◌*◌, ◌<◌, ◌≤◌, ℕ, false, length};
ghost use Rattle.std.specs.Prelude.{IfSome, IsTrue, Some};
ghost use Rattle.std.specs.Prelude.{slice_get};
ghost use Rattle.run_model.specs.declared.groups.Group.{Group as GroupOf};
ghost use Rattle.run_model.specs.declared.scopes.Scope.{Scope as ScopeOf};
ghost use Rattle.run_model.specs.declared.tasks.Task.{Task as TaskOf};
ghost use Rattle.run_model.specs.Rules.{HasRow};
ghost use Rattle.run_model.specs.Scopes.{is_root};
ghost use Rattle.row_view.specs.declared.heads.ImageVersion.TheVariants.{Two};
ghost use Rattle.row_view.specs.Image.{group_bytes, is_kept_group, is_kept_link, is_kept_scope};
ghost use Rattle.row_view.specs.Image.{is_kept_task, scope_bytes, task_bytes};
ghost use Rattle.row_view.specs.RowViews.{group_of, scope_of, task_of};
ghost use Rattle.row_view.specs.Writing.{put_at};
ghost use Rattle.scope_tree.specs.TreeRows.{AreWritable};
ghost use Rattle.state_renewal.specs.Marks.{group_by, is_flagged, rows_left, scope_by, task_by};
ghost use Rattle.state_renewal.specs.Renewed.{new_number};

use crate::marks::Marks;
use row_view::{
    GroupRow, ScopeRow, TaskRow, group_row, put_group, put_scope, put_task, scope_row, task_row,
};
use run_model::{Group, Scope, Task};
use std::alloc::Allocator;
use task_group::Groups;

/// Writes the flagged ones of these scopes at a place, in order, each with the new number of its
/// parent, and returns the place after them.
pub fn put_scopes<A: Allocator>(
    rows: &[Scope],
    flags: &[bool],
    scopes: &Marks<A>,
    out: &mut [u8],
    at: usize,
) -> usize
    requires each { length flags.now ≡ length rows.now }
    requires rows { AreWritable rows.now }
    requires known { (n : ℕ) (row : ScopeOf) → slice_get rows.now n ≡ Some row
        → row.parent < length scopes.now }
    requires room { at + 192 * length (rows_left flags.now (scope_by scopes.now) rows.now)
        ≤ length out.old }
    ensures end { result ≡ at + length (flat_map scope_bytes
        (rows_left flags.now (scope_by scopes.now) rows.now)) }
    ensures written { out.new ≡ put_at out.old at (flat_map scope_bytes
        (rows_left flags.now (scope_by scopes.now) rows.now)) }
    ensures kept { AllByRecursion (λ row. IsTrue (is_kept_scope row))
        (rows_left flags.now (scope_by scopes.now) rows.now) }
    ensures most { result
        ≤ at + 192 * length (rows_left flags.now (scope_by scopes.now) rows.now) }
{
    let mut end = at;
    for n in 0..rows.len() {
        if flags[n] {
            end = put_scope(out, end, &scope_renumbered(&rows[n], scopes));
        }
    }
    end
}

/// Writes the flagged groups at a place, in order, each with the new number of its scope, and
/// returns the place after them.
pub fn put_groups<A: Allocator, B: Allocator>(
    groups: &Groups<B>,
    flags: &[bool],
    scopes: &Marks<A>,
    out: &mut [u8],
    at: usize,
) -> usize
    requires each { length flags.now ≡ length groups.now.groups }
    requires known { (g : ℕ) (row : GroupOf) → HasRow groups.now.groups g row
        → row.scope < length scopes.now }
    requires room { at + 103 * length (rows_left flags.now (group_by scopes.now) groups.now.groups)
        ≤ length out.old }
    ensures end { result ≡ at + length (flat_map group_bytes
        (rows_left flags.now (group_by scopes.now) groups.now.groups)) }
    ensures written { out.new ≡ put_at out.old at (flat_map group_bytes
        (rows_left flags.now (group_by scopes.now) groups.now.groups)) }
    ensures kept { AllByRecursion (λ row. IsTrue (is_kept_group row))
        (rows_left flags.now (group_by scopes.now) groups.now.groups) }
    ensures most { result
        ≤ at + 103 * length (rows_left flags.now (group_by scopes.now) groups.now.groups) }
{
    let mut end = at;
    for g in 0..groups.group_count() {
        if flags[g] {
            end = put_group(out, end, &group_renumbered(group_at(groups, g), scopes));
        }
    }
    end
}

/// Writes the flagged tasks at a place, in order, each with the new numbers of its group and of the
/// task that it retries. Returns the place after them.
pub fn put_tasks<A: Allocator, B: Allocator>(
    groups: &Groups<B>,
    stay: &Marks<A>,
    tasks: &Marks<A>,
    out: &mut [u8],
    at: usize,
) -> usize
    requires each { length tasks.now ≡ length groups.now.tasks }
    requires known { (n : ℕ) (row : TaskOf) → HasRow groups.now.tasks n row
        → row.group < length stay.now }
    requires links { (n : ℕ) (row : TaskOf) → HasRow groups.now.tasks n row
        → IfSome row.retry_of (λ m. m < length tasks.now) }
    requires few { length tasks.now < 65535 }
    requires room { at + 136 * length (rows_left tasks.now (task_by stay.now tasks.now)
        groups.now.tasks) ≤ length out.old }
    ensures end { result ≡ at + length (flat_map (task_bytes Two)
        (rows_left tasks.now (task_by stay.now tasks.now) groups.now.tasks)) }
    ensures written { out.new ≡ put_at out.old at (flat_map (task_bytes Two)
        (rows_left tasks.now (task_by stay.now tasks.now) groups.now.tasks)) }
    ensures kept { AllByRecursion (λ row. IsTrue (is_kept_task Two row))
        (rows_left tasks.now (task_by stay.now tasks.now) groups.now.tasks) }
    ensures most { result ≤ at + 136 * length
        (rows_left tasks.now (task_by stay.now tasks.now) groups.now.tasks) }
{
    let mut end = at;
    let flags = tasks.flags();
    for n in 0..groups.task_count() {
        if flags[n] {
            end = put_task(out, end, &task_renumbered(task_at(groups, n), stay, tasks));
        }
    }
    end
}

/// Returns the group with this number, which must exist.
pub fn group_at<A: Allocator>(groups: &Groups<A>, g: usize) -> &Group
    requires { g < length groups.now.groups }
    ensures { HasRow groups.now.groups g result.now }
{
    let _few = groups.group_count();
    match groups.group_row(g as u16) {
        Some(row) => row,
        None => unreachable!(),
    }
}

/// Returns the task with this number, which must exist.
pub fn task_at<A: Allocator>(groups: &Groups<A>, n: usize) -> &Task
    requires { n < length groups.now.tasks }
    ensures { HasRow groups.now.tasks n result.now }
{
    let _few = groups.task_count();
    let _most = groups.layout().most_tasks();
    match groups.task_row(n as u16) {
        Some(row) => row,
        None => unreachable!(),
    }
}

/// Returns the row of a scope with the new number of its parent.
fn scope_renumbered<'a, A: Allocator>(row: &'a Scope, scopes: &Marks<A>) -> ScopeRow<'a>
    requires below_root { is_root row.now.kind ≡ false }
    requires known { row.now.parent < length scopes.now }
    ensures value { scope_of result ≡ scope_by scopes.now row.now }
    ensures kept { IsTrue (is_kept_scope (scope_by scopes.now row.now)) }
{
    let view = scope_row(row);
    ScopeRow {
        name: view.name,
        parent: scopes.number(row.parent),
        kind: view.kind,
        hit: view.hit,
    }
}

/// Returns the row of a group with the new number of its scope.
fn group_renumbered<'a, A: Allocator>(row: &'a Group, scopes: &Marks<A>) -> GroupRow<'a>
    requires known { row.now.scope < length scopes.now }
    ensures value { group_of result ≡ group_by scopes.now row.now }
    ensures kept { IsTrue (is_kept_group (group_by scopes.now row.now)) }
{
    let view = group_row(row);
    GroupRow {
        name: view.name,
        scope: scopes.number(row.scope),
        bare: view.bare,
        limit: view.limit,
        waited: view.waited,
        error: view.error,
    }
}

/// Returns the row of a task with the new numbers of its group and of the task that it retries.
fn task_renumbered<'a, A: Allocator>(
    row: &'a Task,
    stay: &Marks<A>,
    tasks: &Marks<A>,
) -> TaskRow<'a>
    requires known { row.now.group < length stay.now }
    requires link { IfSome row.now.retry_of (λ m. m < length tasks.now) }
    requires few { length tasks.now < 65535 }
    ensures value { task_of result ≡ task_by stay.now tasks.now row.now }
    ensures kept { IsTrue (is_kept_task Two (task_by stay.now tasks.now row.now)) }
{
    let view = task_row(row);
    TaskRow {
        group: stay.number(row.group),
        job: view.job,
        argument: view.argument,
        stage: view.stage,
        retry_of: link_renumbered(row.retry_of, tasks),
    }
}

/// Returns the new number of the retried task, if there is one.
fn link_renumbered<A: Allocator>(link: Option<u16>, tasks: &Marks<A>) -> Option<u16>
    requires link { IfSome link (λ m. m < length tasks.now) }
    requires few { length tasks.now < 65535 }
    ensures value { result ≡ option_map (new_number (is_flagged tasks.now)) link }
    ensures kept { IsTrue (is_kept_link Two result) }
{
    match link {
        Some(m) => Some(tasks.number(m)),
        None => None,
    }
}
