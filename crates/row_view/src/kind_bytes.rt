//! The kind of a scope: one byte, and the fields of that kind.
//!
//! | Byte | Kind | After it |
//! |---|---|---|
//! | 1 | Cancel | |
//! | 2 | Cause | |
//! | 3 | Deadline | moment; cause, a text or none |
//! | 4 | Value | key, a name; a text |
//! | 5 | Detached | |
//! | 6 | Group, only in rows of scopes | |

ghost use Rattle.std.specs.Prelude.{◌≡◌, ◌≤◌, ◌+◌, length, min, IfSome, IsTrue};
ghost use Rattle.std.specs.Option.{option_map, option_copied};
ghost use Rattle.run_model.specs.Records.{is_optional_text};
ghost use Rattle.run_model.specs.Lengths.{kind_len};
ghost use Rattle.run_model.specs.declared.bounds.TheConstants.{TEXT_LEN};
ghost use Rattle.run_model.specs.declared.scopes.Kind.TheVariants as kind;
ghost use Rattle.row_view.specs.Image.{is_kept_kind};
ghost use Rattle.row_view.specs.Fields.{kind_at};
ghost use Rattle.run_model.specs.Spelling.{kind_bytes, optional_bytes};
ghost use Rattle.row_view.specs.Views.{StandsAt, StandIn, kind_of, kind_texts};
ghost use Rattle.row_view.specs.Writing.{put_at};

use crate::numbers::{read_byte, read_moment};
use crate::puts::{put_byte, put_u64};
use crate::texts::{
    optional_size, put_optional, put_text, read_name, read_optional, read_text, text_size,
};
use crate::views::KindView;

const CANCEL: u8 = 1;

const CAUSE: u8 = 2;

const DEADLINE: u8 = 3;

const VALUE: u8 = 4;

const DETACHED: u8 = 5;

/// The kind of a group's scope.
pub const GROUP: u8 = 6;

/// Returns a kind that the record of a derive can have, and the bytes after it.
#[tactic(auto, unfolding(crate::specs::Fields::kind_at, crate::specs::Fields::kind_by))]
pub fn read_kind(bytes: &[u8]) -> Option<(KindView<'_>, &[u8])>
    ensures value { option_map (λ x. (kind_of x.0, x.1.now)) result ≡ kind_at bytes.now }
    ensures texts { IfSome result (λ x. StandIn bytes.entry (kind_texts 0 x.0)) }
    ensures rest { IfSome result (λ x. StandsAt bytes.entry (kind_len (kind_of x.0)) x.1) }
{
    let (kind, rest) = read_byte(bytes)?;
    match kind {
        CANCEL => Some((KindView::Cancel, rest)),
        CAUSE => Some((KindView::Cause, rest)),
        DEADLINE => {
            let (moment, rest) = read_moment(rest)?;
            let (cause, rest) = read_optional(rest)?;
            Some((KindView::Deadline(moment, cause), rest))
        }
        VALUE => {
            let (key, rest) = read_name(rest)?;
            let (text, rest) = read_text(rest)?;
            Some((KindView::Value(key, text), rest))
        }
        DETACHED => Some((KindView::Detached, rest)),
        _ => None,
    }
}

/// Returns the number of bytes that a kind takes.
pub fn kind_size(kind: &KindView) -> usize
    ensures { result ≡ min (kind_len (kind_of kind.now)) usize.MAX }
{
    match kind {
        KindView::Deadline(_, cause) => optional_size(*cause).saturating_add(9),
        KindView::Value(key, text) => {
            text_size(key)
                .saturating_add(text_size(text))
                .saturating_add(1)
        }
        _ => 1,
    }
}

/// Writes a kind.
#[tactic(auto, using(crate::proofs::Lengths::name_len, crate::proofs::Lengths::text_len))]
pub fn put_kind(out: &mut [u8], at: usize, kind: &KindView) -> usize
    requires kept { IsTrue (is_kept_kind (kind_of kind.now)) }
    requires room { at + length (kind_bytes (kind_of kind.now)) ≤ length out.old }
    ensures end { result ≡ at + length (kind_bytes (kind_of kind.now)) }
    ensures written { out.new ≡ put_at out.old at (kind_bytes (kind_of kind.now)) }
{
    match kind {
        KindView::Cancel => put_byte(out, at, CANCEL),
        KindView::Cause => put_byte(out, at, CAUSE),
        KindView::Deadline(moment, cause) => put_deadline(out, at, *moment, *cause),
        KindView::Value(key, text) => put_value(out, at, key, text),
        KindView::Detached => put_byte(out, at, DETACHED),
        KindView::Group => put_byte(out, at, GROUP),
    }
}

#[tactic(auto, using(crate::proofs::Joins::put_three))]
fn put_deadline(out: &mut [u8], at: usize, moment: u64, cause: Option<&[u8]>) -> usize
    requires text { IsTrue (is_optional_text (option_copied cause)) }
    requires room { at + 9 + length (optional_bytes (option_copied cause)) ≤ length out.old }
    ensures end { result ≡ at + 9 + length (optional_bytes (option_copied cause.entry)) }
    ensures written { out.new
        ≡ put_at out.old at (kind_bytes (kind.Deadline moment (option_copied cause.entry))) }
{
    let end = put_byte(out, at, DEADLINE);
    let end = put_u64(out, end, moment);
    put_optional(out, end, cause)
}

#[tactic(auto, using(crate::proofs::Joins::put_three))]
fn put_value(out: &mut [u8], at: usize, key: &[u8], text: &[u8]) -> usize
    requires key { length key.now ≤ TEXT_LEN }
    requires text { length text.now ≤ TEXT_LEN }
    requires room { at + length (kind_bytes (kind.Value key.now text.now)) ≤ length out.old }
    ensures end { result ≡ at + length (kind_bytes (kind.Value key.now text.now)) }
    ensures written { out.new ≡ put_at out.old at (kind_bytes (kind.Value key.now text.now)) }
{
    let end = put_byte(out, at, VALUE);
    let end = put_text(out, end, key);
    put_text(out, end, text)
}
