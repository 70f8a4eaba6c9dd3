//! Links: the scope whose end also ends this one.

ghost use Rattle.std.specs.Prelude.{◌≡◌};
ghost use Rattle.scope_tree.specs.Links.{link_of};

use crate::scope_kinds::{is_detached, is_root};
use run_model::Scope;

/// Returns the scope whose end also ends this one, which is its parent; `None` for root and for a
/// detached scope.
pub fn link_of(row: &Scope) -> Option<u16>
    ensures { result ≡ link_of row.now }
{
    if is_root(&row.kind) || is_detached(&row.kind) {
        None
    } else {
        Some(row.parent)
    }
}
