//! The row of a scope in an image.
//!
//! | Bytes | What |
//! |---|---|
//! | 2 to 33 | name |
//! | 2 | parent |
//! | 1 or more | kind, as the record of a derive has it, or 6 for a group's scope |
//! | 1 | hit: 0 if there is none; otherwise 1, followed by |
//! | 8 | its event |
//! | 8 | its moment |
//! | 1 | its reason: 1 `Canceled`, 2 `DeadlineExceeded` |
//! | 2 to 65 | its cause, a text |

ghost use Rattle.std.specs.Prelude.{◌≡◌, ◌≤◌, ◌+◌, ◌^◌, length, IfSome, IsTrue, Some, false};
ghost use Rattle.std.specs.Prelude.{nat_lt};
ghost use Rattle.std.specs.Option.{option_map, option_copied};
ghost use Rattle.run_model.specs.Records.{is_optional_text, is_row_number};
ghost use Rattle.run_model.specs.Lengths.{kind_len};
ghost use Rattle.run_model.specs.Scopes.{is_root};
ghost use Rattle.row_view.specs.Image.{hit_bytes, scope_bytes, reason_bytes, is_kept_hit};
ghost use Rattle.row_view.specs.Image.{is_kept_kind, is_kept_scope};
ghost use Rattle.row_view.specs.RowReading.{scope_at, hit_at, row_kind_at, reason_at};
ghost use Rattle.row_view.specs.RowViews.{hit_of, scope_of, hit_texts, scope_texts};
ghost use Rattle.row_view.specs.Views.{StandsAt, StandIn, kind_of, kind_texts};
ghost use Rattle.row_view.specs.Writing.{put_at};

use crate::kind_bytes::{GROUP, put_kind, read_kind};
use crate::numbers::{read_byte, read_moment, read_u16, read_u64};
use crate::puts::{put_byte, put_u16, put_u64};
use crate::texts::{put_text, read_name, read_text};
use crate::views::KindView;
use run_model::{Hit, Kind, Reason, Scope, Text};

/// The first cancellation of a scope itself.
#[derive(Clone, Copy, PartialEq, Eq)]
pub struct HitView<'a> {
    /// The number of the event that made the hit.
    pub event: u64,
    /// The deadline that has passed, or else the clock.
    pub moment: u64,
    /// The reason.
    pub reason: Reason,
    /// The cause that was given, or else the text of the reason.
    pub cause: &'a [u8],
}

/// The row of a scope. It lives as long as the bytes from which it was read are lent, and copies
/// none of them.
#[derive(Clone, Copy, PartialEq, Eq)]
pub struct ScopeRow<'a> {
    /// The name of the scope.
    pub name: &'a [u8],
    /// The number of the scope from which it was derived.
    pub parent: u16,
    /// The kind of the scope.
    pub kind: KindView<'a>,
    /// The first cancellation of the scope itself.
    pub hit: Option<HitView<'a>>,
}

/// Returns the row of a scope with which the bytes begin, and the bytes after it; `None` exactly if
/// they begin with no such row.
pub fn read_scope(bytes: &[u8]) -> Option<(ScopeRow<'_>, &[u8])>
    ensures value { option_map (λ x. (scope_of x.0, x.1.now)) result ≡ scope_at bytes.now }
    ensures texts { IfSome result (λ x. StandIn bytes.entry (scope_texts 0 x.0)) }
    ensures kept { IfSome result (λ x. IsTrue (is_kept_scope (scope_of x.0))) }
{
    read_scope_fields(bytes)
}

/// Writes the row of a scope at a place, and returns the place after it. The fields of the row must
/// be in range, and the row must fit.
pub fn put_scope(out: &mut [u8], at: usize, row: &ScopeRow) -> usize
    requires kept { IsTrue (is_kept_scope (scope_of row.now)) }
    requires room { at + length (scope_bytes (scope_of row.now)) ≤ length out.old }
    ensures end { result ≡ at + length (scope_bytes (scope_of row.now)) }
    ensures written { out.new ≡ put_at out.old at (scope_bytes (scope_of row.now)) }
{
    let end = put_text(out, at, row.name);
    let end = put_u16(out, end, row.parent);
    let end = put_kind(out, end, &row.kind);
    put_hit(out, end, row.hit)
}

/// Returns the view of this row, which isn't root's. The view's fields are in range.
pub fn scope_row(row: &Scope) -> ScopeRow<'_>
    requires { is_root row.now.kind ≡ false }
    ensures value { scope_of result ≡ row.now }
    ensures kept { IsTrue (is_kept_scope row.now) }
{
    let parent = row_number(row.parent);
    ScopeRow {
        name: row.name.as_bytes(),
        parent,
        kind: kind_view(&row.kind),
        hit: hit_view(&row.hit),
    }
}

/// Returns the same number, and states that it fits into two bytes.
pub fn row_number(number: u16) -> u16
    ensures value { result ≡ number }
    ensures range { IsTrue (is_row_number number) }
{
    number
}

/// Returns the bytes of a text that may be missing.
pub fn text_view(text: &Option<Text>) -> Option<&[u8]>
    ensures value { option_copied result ≡ text.now }
    ensures kept { IsTrue (is_optional_text text.now) }
{
    match text {
        Some(text) => Some(text.as_bytes()),
        None => None,
    }
}

#[tactic(auto, unfolding(crate::specs::RowReading::scope_at))]
fn read_scope_fields(bytes: &[u8]) -> Option<(ScopeRow<'_>, &[u8])>
    ensures value { option_map (λ x. (scope_of x.0, x.1.now)) result ≡ scope_at bytes.now }
    ensures texts { IfSome result (λ x. StandIn bytes.entry (scope_texts 0 x.0)) }
{
    let (name, rest) = read_name(bytes)?;
    let (parent, rest) = read_u16(rest)?;
    let (kind, rest) = read_row_kind(rest)?;
    let (hit, rest) = read_hit(rest)?;
    Some((
        ScopeRow {
            name,
            parent,
            kind,
            hit,
        },
        rest,
    ))
}

/// Returns a reason, and the bytes after it.
#[tactic(auto, unfolding(crate::specs::RowReading::reason_at, crate::specs::RowReading::reason_by))]
fn read_reason(bytes: &[u8]) -> Option<(Reason, &[u8])>
    ensures value { option_map (λ x. (x.0, x.1.now)) result ≡ reason_at bytes.now }
    ensures rest { IfSome result (λ x. StandsAt bytes.entry 1 x.1) }
{
    let (reason, rest) = read_byte(bytes)?;
    match reason {
        1 => Some((Reason::Canceled, rest)),
        2 => Some((Reason::DeadlineExceeded, rest)),
        _ => None,
    }
}

/// Returns a hit that may be missing, and the bytes after it.
#[tactic(auto, unfolding(crate::proofs::Readers::hits))]
fn read_hit(bytes: &[u8]) -> Option<(Option<HitView<'_>>, &[u8])>
    ensures value { option_map (λ x. (option_map hit_of x.0, x.1.now)) result ≡ hit_at bytes.now }
    ensures text { IfSome result (λ x. StandIn bytes.entry (hit_texts 0 x.0)) }
{
    let (byte, rest) = read_byte(bytes)?;
    match byte {
        0 => Some((None, rest)),
        1 => {
            let (event, rest) = read_u64(rest)?;
            let (moment, rest) = read_moment(rest)?;
            let (reason, rest) = read_reason(rest)?;
            let (cause, rest) = read_text(rest)?;
            let hit = HitView {
                event,
                moment,
                reason,
                cause,
            };
            Some((Some(hit), rest))
        }
        _ => None,
    }
}

/// Returns the kind of a row, and the bytes after it.
#[tactic(auto, unfolding(crate::specs::RowReading::row_kind_at, crate::specs::Fields::kind_at))]
fn read_row_kind(bytes: &[u8]) -> Option<(KindView<'_>, &[u8])>
    ensures value { option_map (λ x. (kind_of x.0, x.1.now)) result ≡ row_kind_at bytes.now }
    ensures texts { IfSome result (λ x. StandIn bytes.entry (kind_texts 0 x.0)) }
    ensures rest { IfSome result (λ x. StandsAt bytes.entry (kind_len (kind_of x.0)) x.1) }
{
    let (kind, rest) = read_byte(bytes)?;
    if kind == GROUP {
        return Some((KindView::Group, rest));
    }
    read_kind(bytes)
}

fn put_reason(out: &mut [u8], at: usize, reason: Reason) -> usize
    requires { at + 1 ≤ length out.old }
    ensures end { result ≡ at + length (reason_bytes reason) }
    ensures written { out.new ≡ put_at out.old at (reason_bytes reason) }
{
    match reason {
        Reason::Canceled => put_byte(out, at, 1),
        Reason::DeadlineExceeded => put_byte(out, at, 2),
    }
}

fn put_hit_fields(out: &mut [u8], at: usize, hit: &HitView) -> usize
    requires kept { IsTrue (is_kept_hit (Some (hit_of hit.now))) }
    requires room { at + length (hit_bytes (Some (hit_of hit.now))) ≤ length out.old }
    ensures end { result ≡ at + length (hit_bytes (Some (hit_of hit.now))) }
    ensures written { out.new ≡ put_at out.old at (hit_bytes (Some (hit_of hit.now))) }
{
    let end = put_byte(out, at, 1);
    let end = put_u64(out, end, hit.event);
    let end = put_u64(out, end, hit.moment);
    let end = put_reason(out, end, hit.reason);
    put_text(out, end, hit.cause)
}

fn put_hit(out: &mut [u8], at: usize, hit: Option<HitView>) -> usize
    requires kept { IsTrue (is_kept_hit (option_map hit_of hit)) }
    requires room { at + length (hit_bytes (option_map hit_of hit)) ≤ length out.old }
    ensures end { result ≡ at + length (hit_bytes (option_map hit_of hit.entry)) }
    ensures written { out.new ≡ put_at out.old at (hit_bytes (option_map hit_of hit.entry)) }
{
    match hit {
        Some(hit) => put_hit_fields(out, at, &hit),
        None => put_byte(out, at, 0),
    }
}

/// Returns the same number, and states that it fits into eight bytes.
fn event_number(number: u64) -> u64
    ensures value { result ≡ number }
    ensures range { IsTrue (nat_lt number (2 ^ 64)) }
{
    number
}

fn kind_view(kind: &Kind) -> KindView<'_>
    requires { is_root kind.now ≡ false }
    ensures value { kind_of result ≡ kind.now }
    ensures kept { IsTrue (is_kept_kind kind.now) }
{
    match kind {
        Kind::Root => unreachable!(),
        Kind::Cancel => KindView::Cancel,
        Kind::Cause => KindView::Cause,
        Kind::Deadline(moment, cause) => KindView::Deadline(moment.get(), text_view(cause)),
        Kind::Value(key, text) => KindView::Value(key.as_bytes(), text.as_bytes()),
        Kind::Detached => KindView::Detached,
        Kind::Group => KindView::Group,
    }
}

fn hit_view(hit: &Option<Hit>) -> Option<HitView<'_>>
    ensures value { option_map hit_of result ≡ hit.now }
    ensures kept { IsTrue (is_kept_hit hit.now) }
{
    match hit {
        Some(hit) => {
            let event = event_number(hit.event);
            Some(HitView {
                event,
                moment: hit.moment.get(),
                reason: hit.reason,
                cause: hit.cause.as_bytes(),
            })
        }
        None => None,
    }
}
