//! The head of an image, which comes before the rows.
//!
//! | Bytes | What |
//! |---|---|
//! | 1 | version, 1 or 2 |
//! | 8 | clock, a moment |
//! | 8 | the count of events, below 2^63 |
//! | 2, 2, 2 | the numbers of rows of scopes (without root), groups and tasks |

ghost use Rattle.std.specs.Prelude.{◌≡◌, ◌≤◌, ◌+◌, length, IfSome, IsTrue};
ghost use Rattle.std.specs.Option.{option_map};
ghost use Rattle.row_view.specs.declared.heads.ImageVersion.TheVariants.{Two};
ghost use Rattle.row_view.specs.Image.{head_bytes, in_version, is_kept_head};
ghost use Rattle.row_view.specs.RowReading.{count_at, fewer_at, head_at, version_at};
ghost use Rattle.row_view.specs.Writing.{put_at};

use row_view::numbers::{read_byte, read_moment, read_u16, read_u64};
use row_view::puts::{put_byte, put_u16, put_u64};
use row_view::{ImageHead, ImageVersion};
use run_model::{Layout, MOST_GROUPS};

/// Returns the head with which the bytes begin, and the bytes after it; `None` exactly if they
/// begin with no head whose numbers of rows are within the limits of this layout.
pub fn read_head(bytes: &[u8], layout: Layout) -> Option<(ImageHead, &[u8])>
    ensures value { option_map (λ x. (x.0, x.1.now)) result ≡ head_at layout bytes.now }
    ensures kept { IfSome result (λ x. IsTrue (is_kept_head layout x.0)) }
{
    read_head_fields(bytes, layout)
}

/// Writes the head of an image at a place, and returns the place after it. It is written in version
/// 2, even if it was read in version 1.
pub fn put_head(out: &mut [u8], at: usize, head: &ImageHead) -> usize
    requires room { at + 23 ≤ length out.old }
    ensures end { result ≡ at + 23 }
    ensures written { out.new ≡ put_at out.old at (head_bytes (in_version Two head.now)) }
{
    let end = put_byte(out, at, 2);
    let end = put_u64(out, end, head.clock);
    let end = put_u64(out, end, head.count);
    let end = put_u16(out, end, head.scopes);
    let end = put_u16(out, end, head.groups);
    put_u16(out, end, head.tasks)
}

#[tactic(auto, unfolding(row_view::specs::RowReading::head_at))]
fn read_head_fields(bytes: &[u8], layout: Layout) -> Option<(ImageHead, &[u8])>
    ensures { option_map (λ x. (x.0, x.1.now)) result ≡ head_at layout bytes.now }
{
    let (version, rest) = read_version(bytes)?;
    let (clock, rest) = read_moment(rest)?;
    let (count, rest) = read_count(rest)?;
    let (scopes, rest) = read_fewer(rest, layout.most_scopes())?;
    let (groups, rest) = read_fewer(rest, MOST_GROUPS + 1)?;
    let (tasks, rest) = read_fewer(rest, layout.most_tasks() + 1)?;
    let head = ImageHead {
        version,
        clock,
        count,
        scopes,
        groups,
        tasks,
    };
    Some((head, rest))
}

/// Returns the version, and the bytes after it.
#[tactic(auto, unfolding(row_view::specs::RowReading::version_at))]
fn read_version(bytes: &[u8]) -> Option<(ImageVersion, &[u8])>
    ensures { option_map (λ x. (x.0, x.1.now)) result ≡ version_at bytes.now }
{
    let (version, rest) = read_byte(bytes)?;
    match version {
        1 => Some((ImageVersion::One, rest)),
        2 => Some((ImageVersion::Two, rest)),
        _ => None,
    }
}

/// Returns the count of events, and the bytes after it.
#[tactic(auto, unfolding(row_view::specs::RowReading::count_at))]
fn read_count(bytes: &[u8]) -> Option<(u64, &[u8])>
    ensures { option_map (λ x. (x.0, x.1.now)) result ≡ count_at bytes.now }
{
    let (count, rest) = read_u64(bytes)?;
    if 1 << 63 <= count {
        return None;
    }
    Some((count, rest))
}

/// Returns a number of rows that is below the bound, and the bytes after it.
#[tactic(auto, unfolding(row_view::specs::RowReading::fewer_at))]
fn read_fewer(bytes: &[u8], bound: usize) -> Option<(u16, &[u8])>
    ensures { option_map (λ x. (x.0, x.1.now)) result ≡ fewer_at bound bytes.now }
{
    let (number, rest) = read_u16(bytes)?;
    if bound <= number as usize {
        return None;
    }
    Some((number, rest))
}
