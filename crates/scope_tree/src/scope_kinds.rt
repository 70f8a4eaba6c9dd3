//! Kinds of scopes: a copy of a kind from its view, and questions about a kind.

ghost use Rattle.std.specs.Option.{option_copied};
ghost use Rattle.std.specs.Prelude.{◌≡◌, IfSome, IsTrue};
ghost use Rattle.run_model.specs.Scopes.{is_root, is_detached, own_deadline, text_under};
ghost use Rattle.run_model.specs.Texts.{IsText};
ghost use Rattle.row_view.specs.Views.{kind_of};
ghost use Rattle.scope_tree.specs.Checks.{is_derived_kind};

use row_view::KindView;
use row_view::copies::{moment_of, name_copy, optional_copy, text_copy};
use run_model::{Kind, Moment};

/// Returns the kind that a view shows.
pub fn kind_copy(kind: KindView) -> Kind
    requires { IsTrue (is_derived_kind (kind_of kind)) }
    ensures { result ≡ kind_of kind.entry }
{
    match kind {
        KindView::Cancel => Kind::Cancel,
        KindView::Cause => Kind::Cause,
        KindView::Deadline(moment, cause) => {
            Kind::Deadline(moment_of(moment), optional_copy(cause))
        }
        KindView::Value(key, text) => Kind::Value(name_copy(key), text_copy(text)),
        KindView::Detached => Kind::Detached,
        KindView::Group => Kind::Group,
    }
}

/// Returns whether a scope of this kind has nothing above it.
pub fn is_root(kind: &Kind) -> bool
    ensures { result ≡ is_root kind.now }
{
    matches!(kind, Kind::Root)
}

/// Returns whether a scope of this kind is not done when its parent is.
pub fn is_detached(kind: &Kind) -> bool
    ensures { result ≡ is_detached kind.now }
{
    matches!(kind, Kind::Detached)
}

/// Returns the deadline that a scope of this kind has by itself; `None` if it has none.
pub fn own_deadline(kind: &Kind) -> Option<Moment>
    ensures { result ≡ own_deadline kind.now }
{
    match kind {
        Kind::Deadline(moment, _) => Some(*moment),
        _ => None,
    }
}

/// Returns the text that a scope of this kind holds under this key.
pub fn text_under<'a>(key: &[u8], kind: &'a Kind) -> Option<&'a [u8]>
    ensures value { option_copied result ≡ text_under key.now kind.now }
    ensures text { IfSome result (λ text. IsText text.now) }
{
    match kind {
        Kind::Value(own, text) if key == own.as_bytes() => Some(text.as_bytes()),
        _ => None,
    }
}
