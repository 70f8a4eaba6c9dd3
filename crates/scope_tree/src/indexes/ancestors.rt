//! The search for the value of a key, from a scope upwards.

ghost use Rattle.std.specs.Option.{option_copied};
ghost use Rattle.std.specs.Prelude.{◌≡◌, ◌<◌, length, IfSome};
ghost use Rattle.run_model.specs.Scopes.{AreOrdered, value_of};
ghost use Rattle.run_model.specs.Texts.{IsText};
ghost use Rattle.scope_tree.specs.Reaches.{AreReached};

use crate::indexes::reaches::Reach;
use crate::scope_kinds::{is_root, text_under};
use run_model::Scope;

/// Returns the nearest value of a key, from scope `s` upwards.
pub fn nearest_value<'a>(
    scopes: &'a [Scope],
    reaches: &[Reach],
    s: u16,
    key: &[u8],
) -> Option<&'a [u8]>
    requires ordered { AreOrdered scopes.now }
    requires reached { AreReached scopes.now reaches.now }
    requires known { s < length scopes.now }
    ensures value { option_copied result ≡ value_of scopes.now s key.now }
    ensures text { IfSome result (λ text. IsText text.now) }
{
    let reach = reaches[s as usize];
    let mut holder = reach.holder;
    loop {
        let row = &scopes[holder as usize];
        if let Some(text) = text_under(key, &row.kind) {
            return Some(text);
        }
        if is_root(&row.kind) {
            return None;
        }
        let reach = reaches[row.parent as usize];
        holder = reach.holder;
    }
}
