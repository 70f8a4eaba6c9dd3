//! One event can cancel the scopes of several groups.

ghost use Rattle.std.specs.Prelude.{◌≡◌, Some, IsTrue, fold, All};
ghost use Rattle.run_model.specs.Allowed.{has_kind};
ghost use Rattle.run_model.specs.Scopes.{is_group_kind};
ghost use Rattle.run_model.specs.Texts.{IsText};
ghost use Rattle.run_model.specs.TreeChanges.{after_cancel};
ghost use Rattle.model_laws.specs.Endings.{AreEarlier};

use scope_tree::Tree;
use std::alloc::Allocator;

/// Cancels these scopes of groups with the event of this number. The cause of each is this error.
pub fn hit_groups<A: Allocator>(tree: &mut Tree<A>, event: u64, scopes: &[u16], error: &[u8])
    requires error { IsText error.now }
    requires groups { All (λ s. IsTrue (has_kind is_group_kind tree.old s)) scopes.now }
    requires later { AreEarlier tree.old.scopes event }
    ensures tree { tree.new
        ≡ fold (λ t s. after_cancel event s (Some error.now) t) tree.old scopes.now }
{
    for scope in scopes.iter() {
        tree.hit_group(event, *scope, Some(error));
    }
}
