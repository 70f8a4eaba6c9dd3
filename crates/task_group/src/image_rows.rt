//! Single rows of groups and tasks in an image: they are written, copied from their views, and
//! tested.

ghost use Rattle.std.specs.List.{flat_map, list_any, AllByRecursion};
ghost use Rattle.std.specs.Prelude.{◌≡◌, ◌+◌, ◌*◌, ◌<◌, ◌≤◌, ◌==◌, ◌&&◌, ℕ, length, IsTrue};
ghost use Rattle.std.specs.Prelude.{Some, false, slice_get, slice_index_or};
ghost use Rattle.run_model.specs.declared.bounds.TheConstants.{MOST_GROUPS};
ghost use Rattle.run_model.specs.declared.tasks.Task.{Task as TaskOf};
ghost use Rattle.run_model.specs.Tasks.{is_fresh, ended_in_error};
ghost use Rattle.run_model.specs.Texts.{IsName};
ghost use Rattle.row_view.specs.declared.heads.ImageVersion.{ImageVersion as VersionOf};
ghost use Rattle.row_view.specs.declared.heads.ImageVersion.TheVariants.{Two};
ghost use Rattle.row_view.specs.Image.{group_bytes, task_bytes, is_kept_group, is_kept_task};
ghost use Rattle.row_view.specs.Image.{is_kept_link, is_kept_stage};
ghost use Rattle.row_view.specs.RowViews.{group_of, stage_of, task_of};
ghost use Rattle.row_view.specs.WorkRows.{can_retry};
ghost use Rattle.row_view.specs.Writing.{put_at};

use crate::work_rows::is_interrupted;
use row_view::copies::{limit_of, name_copy, optional_copy, text_copy};
use row_view::{GroupRow, StageView, TaskRow, group_row, put_group, put_task, task_row};
use run_model::{Group, MOST_GROUPS, Stage, Task};

/// Writes the rows of groups at a place, one after another, and returns the place after them.
pub fn put_groups(rows: &[Group], out: &mut [u8], at: usize) -> usize
    requires room { at + 103 * length rows.now ≤ length out.old }
    ensures end { result ≡ at + length (flat_map group_bytes rows.now) }
    ensures written { out.new ≡ put_at out.old at (flat_map group_bytes rows.now) }
    ensures kept { AllByRecursion (λ row. IsTrue (is_kept_group row)) rows.now }
    ensures most { result ≤ at + 103 * length rows.now }
{
    let mut end = at;
    for row in rows {
        end = put_group(out, end, &group_row(row));
    }
    end
}

/// Writes the rows of tasks at a place, one after another, and returns the place after them.
pub fn put_tasks(rows: &[Task], out: &mut [u8], at: usize) -> usize
    requires links { (n : ℕ) (row : TaskOf) → slice_get rows.now n ≡ Some row
        → IsTrue (is_kept_link Two row.retry_of) }
    requires room { at + 136 * length rows.now ≤ length out.old }
    ensures end { result ≡ at + length (flat_map (task_bytes Two) rows.now) }
    ensures written { out.new ≡ put_at out.old at (flat_map (task_bytes Two) rows.now) }
    ensures kept { AllByRecursion (λ row. IsTrue (is_kept_task Two row)) rows.now }
    ensures most { result ≤ at + 136 * length rows.now }
{
    let mut end = at;
    for row in rows {
        end = put_task(out, end, &task_row(row));
    }
    end
}

/// Returns the group that a view shows.
pub fn group_copy(row: &GroupRow) -> Group
    requires { IsTrue (is_kept_group (group_of row.now)) }
    ensures { result ≡ group_of row.now }
{
    Group {
        name: name_copy(row.name),
        scope: row.scope,
        bare: row.bare,
        limit: limit_of(row.limit),
        waited: row.waited,
        error: optional_copy(row.error),
    }
}

/// Returns the task that a view shows.
pub fn task_copy(row: &TaskRow) -> Task
    requires job { IsName row.now.job.now }
    requires argument { IsName row.now.argument.now }
    requires stage { IsTrue (is_kept_stage (stage_of row.now.stage)) }
    ensures { result ≡ task_of row.now }
{
    Task {
        group: row.group,
        job: name_copy(row.job),
        argument: name_copy(row.argument),
        stage: stage_copy(row.stage),
        retry_of: row.retry_of,
    }
}

/// Returns whether a task wasn't started.
pub fn is_fresh(stage: &Stage) -> bool
    ensures { result ≡ is_fresh stage.now }
{
    matches!(stage, Stage::Fresh)
}

/// Returns whether the new task can be a retry of the old one.
pub fn can_retry(new: &Task, old: &Task) -> bool
    ensures { result ≡ can_retry new.now old.now }
{
    is_interrupted(&old.stage)
        && new.group == old.group
        && new.job == old.job
        && new.argument == old.argument
}

/// Returns, for each possible group, whether one of these tasks belongs to it and ended in an
/// error.
pub fn lost_groups(tasks: &[Task]) -> [bool; MOST_GROUPS]
    requires { (n : ℕ) (task : TaskOf) → slice_get tasks.now n ≡ Some task
        → task.group < MOST_GROUPS }
    ensures { (g : ℕ) → g < MOST_GROUPS → slice_index_or result g false
        ≡ list_any (λ task. task.group == g && ended_in_error task.stage) tasks.now }
{
    let mut lost = [false; MOST_GROUPS];
    for task in tasks {
        if is_error(&task.stage) {
            lost[task.group as usize] = true;
        }
    }
    lost
}

/// Returns whether a task has failed or was interrupted.
fn is_error(stage: &Stage) -> bool
    ensures { result ≡ ended_in_error stage.now }
{
    matches!(stage, Stage::Failure(_) | Stage::Interrupted)
}

fn stage_copy(stage: StageView) -> Stage
    requires { IsTrue (is_kept_stage (stage_of stage)) }
    ensures { result ≡ stage_of stage.entry }
{
    match stage {
        StageView::Fresh => Stage::Fresh,
        StageView::Running => Stage::Running,
        StageView::Success => Stage::Success,
        StageView::Failure(text) => Stage::Failure(text_copy(text)),
        StageView::Interrupted => Stage::Interrupted,
    }
}
