//! Rows: the bytes of scopes, groups and tasks in an image, and the fields that rows share with
//! records.
//!
//! A row is read as a view, which lends its names and texts from the bytes, and is written from a
//! view. Both follow the grammar exactly, which stands in `specs/Image.antt`, apart from the code.
//! [`copies`] turns what a view lends into values that own their bytes. No call takes memory.
//! [`texts`], [`numbers`] and [`kind_bytes`] read fields, and write them together with [`puts`].
//! The crate above, `record_view`, has records, the head of an image, and the laws of both.
#![tactic(auto)]

pub mod copies;
mod group_rows;
mod heads;
pub mod kind_bytes;
pub mod numbers;
pub mod puts;
mod scope_rows;
mod task_rows;
pub mod texts;
mod views;

pub use group_rows::{GroupRow, group_row, put_group, read_group};
pub use heads::{ImageHead, ImageVersion};
pub use scope_rows::{HitView, ScopeRow, put_scope, read_scope, scope_row};
pub use task_rows::{StageView, TaskRow, put_task, read_task, task_row};
pub use views::KindView;
