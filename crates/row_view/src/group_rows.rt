//! The row of a group in an image.
//!
//! | Bytes | What |
//! |---|---|
//! | 2 to 33 | name |
//! | 2 | the number of the scope to which its tasks belong |
//! | 1 | bare: 0 or 1 |
//! | 1 | limit: 0 to 64, or 255 if there is none |
//! | 1 | waited for: 0 or 1 |
//! | 1 to 65 | first error, a text or none |

ghost use Rattle.std.specs.Prelude.{◌≡◌, ◌≤◌, ◌+◌, length, IfSome, IsTrue};
ghost use Rattle.std.specs.Option.{option_map, option_copied};
ghost use Rattle.run_model.specs.Records.{is_optional_text, is_row_number};
ghost use Rattle.row_view.specs.Image.{flag_bytes, group_bytes, is_kept_group};
ghost use Rattle.row_view.specs.RowReading.{flag_at, group_row_at};
ghost use Rattle.row_view.specs.RowViews.{group_of, group_texts};
ghost use Rattle.row_view.specs.Views.{StandsAt, StandIn};
ghost use Rattle.row_view.specs.Writing.{put_at};

use crate::numbers::{put_limit, read_byte, read_limit, read_u16};
use crate::puts::{put_byte, put_u16};
use crate::scope_rows::{row_number, text_view};
use crate::texts::{put_optional, put_text, read_name, read_optional};
use run_model::Group;

/// The row of a group. It lives as long as the bytes from which it was read are lent, and copies
/// none of them.
#[derive(Clone, Copy, PartialEq, Eq)]
pub struct GroupRow<'a> {
    /// The name of the group.
    pub name: &'a [u8],
    /// The number of the scope to which its tasks belong.
    pub scope: u16,
    /// Whether that scope isn't the group's own.
    pub bare: bool,
    /// How many of its tasks may be active at once; `None` if there is no limit.
    pub limit: Option<u8>,
    /// Whether it was waited for.
    pub waited: bool,
    /// The first error of one of its tasks.
    pub error: Option<&'a [u8]>,
}

/// Returns the row of a group with which the bytes begin, and the bytes after it; `None` exactly if
/// they begin with no such row.
pub fn read_group(bytes: &[u8]) -> Option<(GroupRow<'_>, &[u8])>
    ensures value { option_map (λ x. (group_of x.0, x.1.now)) result ≡ group_row_at bytes.now }
    ensures texts { IfSome result (λ x. StandIn bytes.entry (group_texts 0 x.0)) }
    ensures kept { IfSome result (λ x. IsTrue (is_kept_group (group_of x.0))) }
{
    read_group_fields(bytes)
}

/// Writes the row of a group at a place, and returns the place after it.
pub fn put_group(out: &mut [u8], at: usize, row: &GroupRow) -> usize
    requires kept { IsTrue (is_kept_group (group_of row.now)) }
    requires room { at + length (group_bytes (group_of row.now)) ≤ length out.old }
    ensures end { result ≡ at + length (group_bytes (group_of row.now)) }
    ensures written { out.new ≡ put_at out.old at (group_bytes (group_of row.now)) }
{
    let end = put_text(out, at, row.name);
    let end = put_u16(out, end, row.scope);
    let end = put_flag(out, end, row.bare);
    let end = put_limit(out, end, row.limit);
    let end = put_flag(out, end, row.waited);
    put_optional(out, end, row.error)
}

/// Returns the view of this row. The view's fields are in range.
pub fn group_row(row: &Group) -> GroupRow<'_>
    ensures value { group_of result ≡ row.now }
    ensures kept { IsTrue (is_kept_group row.now) }
{
    let scope = row_number(row.scope);
    let limit = row.limit.get();
    GroupRow {
        name: row.name.as_bytes(),
        scope,
        bare: row.bare,
        limit,
        waited: row.waited,
        error: text_view(&row.error),
    }
}

#[tactic(auto, unfolding(crate::specs::RowReading::group_row_at))]
fn read_group_fields(bytes: &[u8]) -> Option<(GroupRow<'_>, &[u8])>
    ensures value { option_map (λ x. (group_of x.0, x.1.now)) result ≡ group_row_at bytes.now }
    ensures texts { IfSome result (λ x. StandIn bytes.entry (group_texts 0 x.0)) }
{
    let (name, rest) = read_name(bytes)?;
    let (scope, rest) = read_u16(rest)?;
    let (bare, rest) = read_flag(rest)?;
    let (limit, rest) = read_limit(rest)?;
    let (waited, rest) = read_flag(rest)?;
    let (error, rest) = read_optional(rest)?;
    Some((
        GroupRow {
            name,
            scope,
            bare,
            limit,
            waited,
            error,
        },
        rest,
    ))
}

/// Returns a flag, and the bytes after it.
#[tactic(auto, unfolding(crate::specs::RowReading::flag_at, crate::specs::RowReading::flag_by))]
fn read_flag(bytes: &[u8]) -> Option<(bool, &[u8])>
    ensures value { option_map (λ x. (x.0, x.1.now)) result ≡ flag_at bytes.now }
    ensures rest { IfSome result (λ x. StandsAt bytes.entry 1 x.1) }
{
    let (flag, rest) = read_byte(bytes)?;
    match flag {
        0 => Some((false, rest)),
        1 => Some((true, rest)),
        _ => None,
    }
}

fn put_flag(out: &mut [u8], at: usize, flag: bool) -> usize
    requires { at + 1 ≤ length out.old }
    ensures end { result ≡ at + length (flag_bytes flag) }
    ensures written { out.new ≡ put_at out.old at (flag_bytes flag) }
{
    put_byte(out, at, if flag { 1 } else { 0 })
}
