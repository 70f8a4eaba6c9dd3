//! The row of a task in an image.
//!
//! | Bytes | What |
//! |---|---|
//! | 2 | group |
//! | 2 to 33 | job, a name |
//! | 2 to 33 | argument, a name |
//! | 1 or more | stage: 0 fresh, 1 running, 2 success, 3 failure and its text, 4 interrupted |
//! | 2 | in version 2 only: the task that it retries, or 65,535 if there is none |

ghost use Rattle.std.specs.Prelude.{◌≡◌, ◌≤◌, ◌+◌, length, IfSome, IsTrue};
ghost use Rattle.std.specs.Option.{option_map};
ghost use Rattle.row_view.specs.declared.heads.ImageVersion.TheVariants.{Two};
ghost use Rattle.row_view.specs.Image.{is_kept_link, is_kept_stage, is_kept_task};
ghost use Rattle.row_view.specs.Image.{link_bytes, stage_bytes, task_bytes};
ghost use Rattle.row_view.specs.RowReading.{link_at, stage_at, task_at};
ghost use Rattle.row_view.specs.RowViews.{stage_of, stage_texts, task_of, task_texts};
ghost use Rattle.row_view.specs.Views.{StandIn};
ghost use Rattle.row_view.specs.Writing.{put_at};

use crate::heads::ImageVersion;
use crate::numbers::{read_byte, read_u16};
use crate::puts::{put_byte, put_u16};
use crate::scope_rows::row_number;
use crate::texts::{put_text, read_name, read_text};
use run_model::{Stage, Task};

/// The link of a task that isn't a retry.
const NO_LINK: u16 = 65_535;

/// How far a task has come.
#[derive(Clone, Copy, PartialEq, Eq)]
pub enum StageView<'a> {
    /// It wasn't started.
    Fresh,
    /// It was started, and hasn't finished.
    Running,
    /// It has finished without an error.
    Success,
    /// It has finished with this error.
    Failure(&'a [u8]),
    /// It was running when the program crashed or ended.
    Interrupted,
}

/// The row of a task. It lives as long as the bytes from which it was read are lent, and copies
/// none of them.
#[derive(Clone, Copy, PartialEq, Eq)]
pub struct TaskRow<'a> {
    /// The number of its group.
    pub group: u16,
    /// The job that it does.
    pub job: &'a [u8],
    /// The job's argument.
    pub argument: &'a [u8],
    /// How far it has come.
    pub stage: StageView<'a>,
    /// The number of the task that it retries, below 65,535; `None` if it isn't a retry.
    pub retry_of: Option<u16>,
}

/// Returns the row of a task, in this version, with which the bytes begin, and the bytes after it;
/// `None` exactly if they begin with no such row.
pub fn read_task(bytes: &[u8], version: ImageVersion) -> Option<(TaskRow<'_>, &[u8])>
    ensures value { option_map (λ x. (task_of x.0, x.1.now)) result ≡ task_at version bytes.now }
    ensures texts { IfSome result (λ x. StandIn bytes.entry (task_texts 0 x.0)) }
    ensures kept { IfSome result (λ x. IsTrue (is_kept_task version (task_of x.0))) }
{
    read_task_fields(bytes, version)
}

/// Writes the row of a task, in version 2, at a place, and returns the place after it.
pub fn put_task(out: &mut [u8], at: usize, row: &TaskRow) -> usize
    requires kept { IsTrue (is_kept_task Two (task_of row.now)) }
    requires room { at + length (task_bytes Two (task_of row.now)) ≤ length out.old }
    ensures end { result ≡ at + length (task_bytes Two (task_of row.now)) }
    ensures written { out.new ≡ put_at out.old at (task_bytes Two (task_of row.now)) }
{
    let end = put_u16(out, at, row.group);
    let end = put_text(out, end, row.job);
    let end = put_text(out, end, row.argument);
    let end = put_stage(out, end, &row.stage);
    put_link(out, end, row.retry_of)
}

/// Returns the view of this row, whose link must be below 65,535. The view's fields are in range.
pub fn task_row(row: &Task) -> TaskRow<'_>
    requires { IsTrue (is_kept_link Two row.now.retry_of) }
    ensures value { task_of result ≡ row.now }
    ensures kept { IsTrue (is_kept_task Two row.now) }
{
    let group = row_number(row.group);
    TaskRow {
        group,
        job: row.job.as_bytes(),
        argument: row.argument.as_bytes(),
        stage: stage_view(&row.stage),
        retry_of: row.retry_of,
    }
}

fn stage_view(stage: &Stage) -> StageView<'_>
    ensures value { stage_of result ≡ stage.now }
    ensures kept { IsTrue (is_kept_stage stage.now) }
{
    match stage {
        Stage::Fresh => StageView::Fresh,
        Stage::Running => StageView::Running,
        Stage::Success => StageView::Success,
        Stage::Failure(text) => StageView::Failure(text.as_bytes()),
        Stage::Interrupted => StageView::Interrupted,
    }
}

#[tactic(auto, unfolding(crate::specs::RowReading::task_at))]
fn read_task_fields(bytes: &[u8], version: ImageVersion) -> Option<(TaskRow<'_>, &[u8])>
    ensures value { option_map (λ x. (task_of x.0, x.1.now)) result ≡ task_at version bytes.now }
    ensures texts { IfSome result (λ x. StandIn bytes.entry (task_texts 0 x.0)) }
{
    let (group, rest) = read_u16(bytes)?;
    let (job, rest) = read_name(rest)?;
    let (argument, rest) = read_name(rest)?;
    let (stage, rest) = read_stage(rest)?;
    let (retry_of, rest) = read_link(rest, version)?;
    let row = TaskRow {
        group,
        job,
        argument,
        stage,
        retry_of,
    };
    Some((row, rest))
}

/// Returns a stage, and the bytes after it.
#[tactic(auto, unfolding(crate::specs::RowReading::stage_at, crate::specs::RowReading::stage_by))]
fn read_stage(bytes: &[u8]) -> Option<(StageView<'_>, &[u8])>
    ensures value { option_map (λ x. (stage_of x.0, x.1.now)) result ≡ stage_at bytes.now }
    ensures texts { IfSome result (λ x. StandIn bytes.entry (stage_texts 0 x.0)) }
{
    let (stage, rest) = read_byte(bytes)?;
    match stage {
        0 => Some((StageView::Fresh, rest)),
        1 => Some((StageView::Running, rest)),
        2 => Some((StageView::Success, rest)),
        3 => {
            let (text, rest) = read_text(rest)?;
            Some((StageView::Failure(text), rest))
        }
        4 => Some((StageView::Interrupted, rest)),
        _ => None,
    }
}

/// Returns a link, and the bytes after it. Version 1 has no links.
#[tactic(auto, unfolding(crate::specs::RowReading::link_at, crate::specs::RowReading::link_by))]
fn read_link(bytes: &[u8], version: ImageVersion) -> Option<(Option<u16>, &[u8])>
    ensures value { option_map (λ x. (x.0, x.1.now)) result ≡ link_at version bytes.now }
{
    match version {
        ImageVersion::One => Some((None, bytes)),
        ImageVersion::Two => {
            let (task, rest) = read_u16(bytes)?;
            if task == NO_LINK {
                return Some((None, rest));
            }
            Some((Some(task), rest))
        }
    }
}

#[tactic(auto, using(crate::proofs::Joins::put_then))]
fn put_stage(out: &mut [u8], at: usize, stage: &StageView) -> usize
    requires kept { IsTrue (is_kept_stage (stage_of stage.now)) }
    requires room { at + length (stage_bytes (stage_of stage.now)) ≤ length out.old }
    ensures end { result ≡ at + length (stage_bytes (stage_of stage.now)) }
    ensures written { out.new ≡ put_at out.old at (stage_bytes (stage_of stage.now)) }
{
    match stage {
        StageView::Fresh => put_byte(out, at, 0),
        StageView::Running => put_byte(out, at, 1),
        StageView::Success => put_byte(out, at, 2),
        StageView::Failure(text) => {
            let end = put_byte(out, at, 3);
            put_text(out, end, text)
        }
        StageView::Interrupted => put_byte(out, at, 4),
    }
}

fn put_link(out: &mut [u8], at: usize, link: Option<u16>) -> usize
    requires { at + 2 ≤ length out.old }
    ensures end { result ≡ at + length (link_bytes Two link) }
    ensures written { out.new ≡ put_at out.old at (link_bytes Two link) }
{
    put_u16(out, at, link.unwrap_or(NO_LINK))
}
