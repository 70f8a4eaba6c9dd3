//! What the bytes of a store mean.

ghost use Rattle.std.specs.Prelude.{◌≡◌, ◌⊎◌, ◌<◌, ◌-◌, ◌^◌, ℕ, List, length};
ghost use Rattle.run_model.specs.declared.faults.Fault.{Fault};
ghost use Rattle.run_model.specs.declared.layouts.Layout.{Layout};
ghost use Rattle.run_model.specs.Layouts.{store_len};
ghost use Rattle.run_model.specs.Rules.{IsConsistent, HasLayout};
ghost use Rattle.run_model.specs.State.{State};
ghost use Rattle.model_laws.specs.Endings.{EndingsStay};
ghost use Rattle.model_laws.specs.Hits.{HitsReachDown};
ghost use Rattle.model_laws.specs.Restarts.{IsRestart};
ghost use Rattle.book_model.specs.Stores.{HasSpentNumbers, OpensNone, Stores, StoresNone};
ghost use Rattle.book_model.specs.Stores.{restarted};

/// A store means one state. The state is consistent, and has the layout that the number of bytes
/// determines. Each scope with a hit on its chain is done in it.
pub fn a_store_means_one_state()
    ensures one { (bytes : List ℕ) (p q : State) → Stores bytes p → Stores bytes q → p ≡ q }
    ensures rules { (bytes : List ℕ) (p : State) → Stores bytes p → IsConsistent p }
    ensures layout { (bytes : List ℕ) (p : State) (layout : Layout) → Stores bytes p
        → length bytes ≡ store_len layout → HasLayout p layout }
    ensures done { (bytes : List ℕ) (p : State) → Stores bytes p → HitsReachDown p.tree.scopes }
{}

/// Any bytes store a state, or have a fault that reports why they store none. No bytes do both, and
/// they have only one fault: the first in the order of reading. For an opening, the last fault is
/// that the numbers of the store are used up.
pub fn a_store_means_a_state_or_has_one_fault()
    ensures not_both { (bytes : List ℕ) (p : State) (why : Fault) → Stores bytes p
        → StoresNone bytes why → ⊥ }
    ensures one_fault { (bytes : List ℕ) (why other : Fault) → StoresNone bytes why
        → StoresNone bytes other → why ≡ other }
    ensures one_for_opening { (bytes : List ℕ) (why other : Fault) → OpensNone bytes why
        → OpensNone bytes other → why ≡ other }
    ensures either { (bytes : List ℕ)
        → ((p : State) × Stores bytes p) ⊎ ((why : Fault) × StoresNone bytes why) }
    ensures either_for_opening { (bytes : List ℕ)
        → ((p : State) × Stores bytes p × (HasSpentNumbers bytes → ⊥))
        ⊎ ((why : Fault) × OpensNone bytes why) }
    ensures unspent { (bytes : List ℕ) (p : State) (stores : Stores bytes p)
        → p.count < 2 ^ 62 → (stores.pair.generation ≡ 2 ^ 63 - 1 → ⊥)
        → HasSpentNumbers bytes → ⊥ }
{}

/// An opening interrupts the running tasks of the stored state. Apart from that it changes only the
/// count, and what an interruption does to a group and to the scope of the group. The state is
/// consistent again, and each scope with a hit on its chain is done again. Every task that had
/// ended keeps its stage.
pub fn an_opening_interrupts_what_was_running()
    ensures restart { (bytes : List ℕ) (p : State) → Stores bytes p → IsRestart p (restarted p) }
    ensures rules { (bytes : List ℕ) (p : State) → Stores bytes p → IsConsistent (restarted p) }
    ensures done { (bytes : List ℕ) (p : State) → Stores bytes p
        → HitsReachDown (restarted p).tree.scopes }
    ensures endings { (bytes : List ℕ) (p : State) → Stores bytes p
        → EndingsStay p.tree.scopes (restarted p).tree.scopes }
{}
