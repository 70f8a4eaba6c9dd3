//! Why a migration fails, and what its result is, by the bytes of the old disk.

ghost use Rattle.std.specs.Prelude.{◌≡◌, ◌⊎◌, ◌<◌, ◌^◌, ℕ, List, MatchResult, Result};
ghost use Rattle.run_model.specs.declared.faults.Fault.{Fault as FaultOf};
ghost use Rattle.run_model.specs.declared.faults.Fault.TheVariants.{DiskFailed};
ghost use Rattle.run_model.specs.declared.layouts.Layout.TheVariants.{Small, Large};
ghost use Rattle.run_model.specs.Rules.{HasLayout, IsConsistent};
ghost use Rattle.run_model.specs.State.{State};
ghost use Rattle.row_view.specs.Image.{image};
ghost use Rattle.run_disk.specs.Disk.{IsAtRest, last_moment};
ghost use Rattle.book_model.specs.declared.migrations.MigrateFault.{MigrateFault as WhyNot};
ghost use Rattle.book_model.specs.declared.migrations.MigrateFault.TheVariants as why;
ghost use Rattle.book_model.specs.Migrations.{AreSized, Migrates, widened};
ghost use Rattle.book_model.specs.Stores.{Stores, StoresNone};

use run_disk::RunDisk;
use run_model::Fault;

/// Says why a migration or a renewal has made no new store.
#[derive(Clone, Copy, Debug, PartialEq, Eq)]
pub enum MigrateFault {
    /// Memory was refused.
    Memory,
    /// The old disk: `WrongSize` if it doesn't have the size that the call requires; otherwise the
    /// reason why no state was read from it.
    Old(Fault),
    /// The new disk: `WrongSize` if it doesn't have the size that the call requires, or if the part
    /// that a renewal keeps doesn't fit into it; `DiskFailed` if a call of it failed.
    New(Fault),
}

/// A consistent state of the small layout is also consistent in the large one, and its image there
/// is the same.
pub fn a_small_state_is_a_state_of_the_large_layout()
    ensures layout { (p : State) → HasLayout (widened p) Large }
    ensures rules { (p : State) → HasLayout p Small → IsConsistent p → IsConsistent (widened p) }
    ensures image { (p : State) → image (widened p) ≡ image p }
{}

/// Unless memory is refused or a device fails, the result of a migration of an honest disk depends
/// only on what its bytes store. If they store a state with fewer than 2^62 events, the result is a
/// new disk. If they store no state, it is the one fault that reports why.
pub fn a_migration_answers_what_is_stored<D: RunDisk, E: RunDisk>()
    ensures state { (old read : D) (given : E) (result : Result E (WhyNot × E)) (p : State)
        → (D.state old).honest → AreSized (D.state old) (E.state given)
        → Migrates D.state E.state old given result read → Stores (D.state old).now p
        → p.count < 2 ^ 62
        → MatchResult result (λ new. Unit {0}) (λ e. (e.0 ≡ why.Memory)
        ⊎ (e.0 ≡ why.Old DiskFailed) ⊎ (e.0 ≡ why.New DiskFailed)) }
    ensures none { (old read : D) (given : E) (result : Result E (WhyNot × E)) (fault : FaultOf)
        → (D.state old).honest → AreSized (D.state old) (E.state given)
        → Migrates D.state E.state old given result read → StoresNone (D.state old).now fault
        → MatchResult result (λ new. ⊥) (λ e. (e.0 ≡ why.Old fault) ⊎ (e.0 ≡ why.Memory)
        ⊎ (e.0 ≡ why.Old DiskFailed)) }
{}

/// A migration leaves the old disk as it was. If the disk was at rest, it is at rest again, and
/// every crash leaves the bytes that it had.
pub fn a_migration_leaves_the_old_store_as_it_was<D: RunDisk, E: RunDisk>()
    ensures rest { (old read : D) (given : E) (result : Result E (WhyNot × E))
        → (D.state old).honest → IsAtRest (D.state old)
        → Migrates D.state E.state old given result read → IsAtRest (D.state read) }
    ensures bytes { (old read : D) (given : E) (result : Result E (WhyNot × E)) (x : List ℕ)
        → (D.state old).honest → IsAtRest (D.state old)
        → Migrates D.state E.state old given result read → (D.state read).images x
        → x ≡ (D.state old).now }
{}

/// A migration reports the failure of a device only if a call of that disk failed, or if that disk
/// is spent.
pub fn a_migration_reports_which_disk_failed<D: RunDisk, E: RunDisk>()
    ensures old { (old read : D) (given : E) (result : Result E (WhyNot × E))
        → Migrates D.state E.state old given result read
        → MatchResult result (λ new. Unit {0}) (λ e. e.0 ≡ why.Old DiskFailed
        → ((D.state old).failures < (D.state read).failures)
        ⊎ ((D.state read).clock ≡ last_moment)) }
    ensures new { (old read : D) (given : E) (result : Result E (WhyNot × E))
        → Migrates D.state E.state old given result read
        → MatchResult result (λ new. Unit {0}) (λ e. e.0 ≡ why.New DiskFailed
        → ((E.state given).failures < (E.state e.1).failures)
        ⊎ ((E.state e.1).clock ≡ last_moment)) }
{}
