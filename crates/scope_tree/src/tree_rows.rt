//! The rows of a tree in an image: all scopes except root, in the order of their numbers.

ghost use Rattle.std.specs.List.{flat_map, AllByRecursion};
ghost use Rattle.std.specs.Option.{option_map, option_map_or};
ghost use Rattle.std.specs.Prelude.{◌≡◌, ◌≤◌, ◌+◌, ◌*◌, Some, None, length};
ghost use Rattle.std.specs.Prelude.{[], ◌∷◌, IfSome, IfNone, IsTrue, nat_le, false};
ghost use Rattle.run_model.specs.Layouts.{most_scopes};
ghost use Rattle.run_model.specs.Rows.{root};
ghost use Rattle.run_model.specs.Rules.{can_be_hit};
ghost use Rattle.row_view.specs.Image.{scope_bytes, is_kept_scope, is_kept_hit};
ghost use Rattle.row_view.specs.RowViews.{scope_of, hit_of};
ghost use Rattle.row_view.specs.Writing.{put_at};
ghost use Rattle.scope_tree.specs.TreeRows.{AreWritable, can_follow, hit_fits, more_rows_at};
ghost use Rattle.scope_tree.specs.TreeRows.{reason_fits, tree_at};

use crate::indexes::IndexedRows;
use crate::scope_kinds::{kind_copy, own_deadline};
use row_view::copies::{moment_of, name_copy, text_copy};
use row_view::{HitView, ImageHead, ScopeRow, put_scope, read_scope, scope_row};
use run_model::{Hit, Kind, Layout, Moment, Reason, Scope};
use std::alloc::Allocator;

/// Writes the rows at a place, one after another, and returns the place after them.
pub fn put_rows(rows: &[Scope], out: &mut [u8], at: usize) -> usize
    requires rows { AreWritable rows.now }
    requires room { at + 192 * length rows.now ≤ length out.old }
    ensures end { result ≡ at + length (flat_map scope_bytes rows.now) }
    ensures written { out.new ≡ put_at out.old at (flat_map scope_bytes rows.now) }
    ensures kept { AllByRecursion (λ row. IsTrue (is_kept_scope row)) rows.now }
    ensures most { result ≤ at + 192 * length rows.now }
{
    let mut end = at;
    for row in rows {
        end = put_scope(out, end, &scope_row(row));
    }
    end
}

/// Reads the rows that come after root's, of a tree with this layout. Returns the tree's clock and
/// the bytes after its rows; `None` if the bytes don't begin with the rows of such a tree.
pub fn read_after_root<'a, A: Allocator>(
    layout: Layout,
    rows: &mut IndexedRows<A>,
    head: &ImageHead,
    bytes: &'a [u8],
) -> Option<(Moment, &'a [u8])>
    requires room { rows.old.capacity ≡ most_scopes layout }
    requires root { rows.old.rows ≡ root ∷ [] }
    ensures read { IfSome result (λ x. tree_at layout head.now bytes.now ≡ Some (
      record {
        layout = layout;
        clock = x.0;
        scopes = rows.new.rows;
      },
      x.1.now,
    )) }
    ensures none { IfNone result (tree_at layout head.now bytes.now ≡ None) }
    ensures capacity { rows.new.capacity ≡ rows.old.capacity }
{
    let clock = Moment::new(head.clock)?;
    if layout.most_scopes() <= head.scopes as usize {
        return None;
    }
    let rest = read_more(rows, head, bytes)?;
    Some((clock, rest))
}

/// Reads as many rows as the head says, and adds them; `None` if the bytes don't begin with that
/// many rows, or if one of them can't follow those before it.
fn read_more<'a, A: Allocator>(
    rows: &mut IndexedRows<A>,
    head: &ImageHead,
    bytes: &'a [u8],
) -> Option<&'a [u8]>
    requires { length rows.old.rows + head.now.scopes ≤ rows.old.capacity }
    ensures read { IfSome result (λ rest.
        more_rows_at head.now.count head.now.clock head.now.scopes rows.old.rows bytes.now
        ≡ Some (rows.new.rows, rest.now)) }
    ensures none { IfNone result
        (more_rows_at head.now.count head.now.clock head.now.scopes rows.old.rows bytes.now
        ≡ None) }
    ensures capacity { rows.new.capacity ≡ rows.old.capacity }
{
    let mut rest = bytes;
    for n in 0..head.scopes {
        let (view, behind) = read_scope(rest)?;
        let row = row_copy(&view);
        if !can_follow(rows, head, &row) {
            return None;
        }
        rows.push(row);
        rest = behind;
    }
    Some(rest)
}

/// Returns whether a row can follow these rows in a state with this head.
fn can_follow<A: Allocator>(rows: &IndexedRows<A>, head: &ImageHead, row: &Scope) -> bool
    ensures { result ≡ can_follow head.now.count head.now.clock rows.now.rows row.now }
{
    (row.parent as usize) < rows.len()
        && rows.find(row.name.as_bytes()).is_none()
        && hit_fits(head, &row.kind, &row.hit)
}

fn hit_fits(head: &ImageHead, kind: &Kind, hit: &Option<Hit>) -> bool
    ensures { result ≡ hit_fits head.now.count head.now.clock kind.now hit.now }
{
    let deadline = own_deadline(kind);
    match hit {
        None => !has_come(deadline, head.clock),
        Some(hit) => {
            can_be_hit(kind)
                && 1 <= hit.event
                && hit.event <= head.count
                && hit.moment.get() <= head.clock
                && reason_fits(hit.reason, deadline, hit.moment)
        }
    }
}

fn has_come(deadline: Option<Moment>, clock: u64) -> bool
    ensures { result ≡ option_map_or (λ moment. nat_le moment clock) deadline false }
{
    match deadline {
        Some(moment) => moment.get() <= clock,
        None => false,
    }
}

fn reason_fits(reason: Reason, deadline: Option<Moment>, moment: Moment) -> bool
    ensures { result ≡ reason_fits reason deadline moment }
{
    match reason {
        Reason::Canceled => true,
        Reason::DeadlineExceeded => match deadline {
            Some(due) => due.get() == moment.get(),
            None => false,
        },
    }
}

fn can_be_hit(kind: &Kind) -> bool
    ensures { result ≡ can_be_hit kind.now }
{
    matches!(
        kind,
        Kind::Cancel | Kind::Cause | Kind::Deadline(_, _) | Kind::Group
    )
}

/// Returns the row that a view shows.
#[tactic(auto, using(crate::proofs::KeptRows::kept_derived))]
fn row_copy(row: &ScopeRow) -> Scope
    requires { IsTrue (is_kept_scope (scope_of row.now)) }
    ensures { result ≡ scope_of row.now }
{
    Scope {
        name: name_copy(row.name),
        parent: row.parent,
        kind: kind_copy(row.kind),
        hit: hit_copy(row.hit),
    }
}

fn hit_copy(hit: Option<HitView>) -> Option<Hit>
    requires { IsTrue (is_kept_hit (option_map hit_of hit)) }
    ensures { result ≡ option_map hit_of hit.entry }
{
    match hit {
        Some(hit) => Some(Hit {
            event: hit.event,
            moment: moment_of(hit.moment),
            reason: hit.reason,
            cause: text_copy(hit.cause),
        }),
        None => None,
    }
}
