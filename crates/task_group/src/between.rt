//! Tests whether the rows of groups and those of scopes fit together.

ghost use Rattle.std.specs.Prelude.{◌≡◌, IsTrue};
ghost use Rattle.std.specs.List.{list_any};
ghost use Rattle.run_model.specs.Scopes.{is_group_kind};
ghost use Rattle.row_view.specs.Between.{belongs, fits_scope, has_group, lives_in};
ghost use Rattle.row_view.specs.WorkRows.{each_passes};

use run_model::{Group, Kind, Scope};

/// Returns whether the scope of each group exists, and belongs to it unless the group is bare.
pub fn fit_scopes(groups: &[Group], scopes: &[Scope]) -> bool
    ensures { result ≡ each_passes (λ g group. fits_scope scopes.now group) 0 groups.now }
{
    for group in groups {
        if !fits_scope(scopes, group) {
            return false;
        }
    }
    true
}

/// Returns whether each scope of kind Group belongs to a group that isn't bare.
pub fn have_groups(scopes: &[Scope], groups: &[Group]) -> bool
    ensures { result ≡ each_passes (has_group groups.now) 0 scopes.now }
{
    for s in 0..scopes.len() {
        if !has_group(groups, s, &scopes[s]) {
            return false;
        }
    }
    true
}

fn fits_scope(scopes: &[Scope], group: &Group) -> bool
    ensures { result ≡ fits_scope scopes.now group.now }
{
    match scopes.get(group.scope as usize) {
        Some(scope) => group.bare || belongs(group, scope),
        None => false,
    }
}

fn belongs(group: &Group, scope: &Scope) -> bool
    ensures { result ≡ belongs group.now scope.now }
{
    is_groups(&scope.kind)
        && group.name == scope.name
        && (!(group.error.is_some() || group.waited) || scope.hit.is_some())
}

fn has_group(groups: &[Group], s: usize, scope: &Scope) -> bool
    ensures { result ≡ has_group groups.now s scope.now }
{
    !is_groups(&scope.kind) || is_lived_in(groups, s)
}

/// Returns whether scope `s` belongs to a group that isn't bare.
fn is_lived_in(groups: &[Group], s: usize) -> bool
    ensures { result ≡ list_any (lives_in s) groups.now }
{
    groups
        .iter()
        .any(|group| !group.bare && group.scope as usize == s)
}

fn is_groups(kind: &Kind) -> bool
    ensures { result ≡ is_group_kind kind.now }
{
    matches!(kind, Kind::Group)
}
