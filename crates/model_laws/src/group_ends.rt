//! The end of a group: what an error or a wait changes in the tree.

ghost use Rattle.std.specs.Prelude.{◌≡◌, ℕ, List, Option, Some, slice_get};
ghost use Rattle.run_model.specs.declared.tasks.Outcome.TheVariants as outcome;
ghost use Rattle.run_model.specs.Event as event;
ghost use Rattle.run_model.specs.State.{State};
ghost use Rattle.run_model.specs.Step.{step, own_scope, after_group_cancel};
ghost use Rattle.run_model.specs.WorkChanges.{group_of_task};
ghost use Rattle.model_laws.specs.GroupEnds.{HasGroupEnded};

/// A group cancels its scope only once. After its first error or its wait, no error of a task, no
/// wait, no restart and no other cancel by the group changes the scope.
pub fn a_group_ends_once()
    ensures errors { (p : State) (n : ℕ) (text : List ℕ) → HasGroupEnded p (group_of_task p.work n)
        → (step p (event.Finish n (outcome.Failure text))).tree ≡ p.tree }
    ensures waits { (p : State) (g : ℕ) → HasGroupEnded p g
        → (step p (event.Wait g)).tree ≡ p.tree }
    ensures restarts { (p : State) (g s : ℕ) → HasGroupEnded p g → own_scope p.work g ≡ Some s
        → slice_get (step p event.Restart).tree.scopes s ≡ slice_get p.tree.scopes s }
    ensures cancels { (p : State) (g e : ℕ) (cause : Option (List ℕ)) → HasGroupEnded p g
        → after_group_cancel e p.work g cause p.tree ≡ p.tree }
{}
