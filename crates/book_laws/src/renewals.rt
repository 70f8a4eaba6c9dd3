//! Laws of a renewal, derived from the clause of `book_renewal::renew`: its result, depending on
//! what the bytes of the old disk store; what it leaves of the old store; and which disk failed.

ghost use Rattle.std.specs.Prelude.{◌≡◌, ◌⊎◌, ◌<◌, ◌^◌, ℕ, List, MatchResult, Result, false, true};
ghost use Rattle.run_model.specs.declared.faults.Fault.{Fault as FaultOf};
ghost use Rattle.run_model.specs.declared.faults.Fault.TheVariants.{DiskFailed, WrongSize};
ghost use Rattle.run_model.specs.State.{State};
ghost use Rattle.run_disk.specs.Disk.{IsAtRest, last_moment};
ghost use Rattle.state_renewal.specs.Renewed.{fits_in, renewed, renewed_in};
ghost use Rattle.book_model.specs.declared.migrations.MigrateFault.{MigrateFault as WhyNot};
ghost use Rattle.book_model.specs.declared.migrations.MigrateFault.TheVariants as why;
ghost use Rattle.book_model.specs.Stores.{Stores, StoresNone};
ghost use Rattle.book_renewal.specs.Renewals.{AreStores, Renews};

use run_disk::RunDisk;

/// Unless memory is refused or a device fails, the result of a renewal between honest disks depends
/// only on what the bytes of the old one store. If they store a state with fewer than 2^62 events,
/// and the kept part fits into the new disk, the result is the new disk, on which every crash
/// leaves the renewed state. If the kept part doesn't fit, the result is `New(WrongSize)`. If the
/// bytes store no state, the result is the one fault that reports why.
pub fn a_renewal_answers_what_is_stored<D: RunDisk, E: RunDisk>()
    ensures state { (old read : D) (given : E) (result : Result E (WhyNot × E)) (p : State)
        → (D.state old).honest → (sized : AreStores (D.state old) (E.state given))
        → Renews D.state E.state old given result read → Stores (D.state old).now p
        → p.count < 2 ^ 62 → fits_in sized.to (renewed p) ≡ true
        → MatchResult result
        (λ new. (E.state given).honest → (x : List ℕ) → (E.state new).images x
        → Stores x (renewed_in sized.to p))
        (λ e. (e.0 ≡ why.Memory) ⊎ (e.0 ≡ why.Old DiskFailed) ⊎ (e.0 ≡ why.New DiskFailed)) }
    ensures full { (old read : D) (given : E) (result : Result E (WhyNot × E)) (p : State)
        → (D.state old).honest → (sized : AreStores (D.state old) (E.state given))
        → Renews D.state E.state old given result read → Stores (D.state old).now p
        → p.count < 2 ^ 62 → fits_in sized.to (renewed p) ≡ false
        → MatchResult result (λ new. (E.state given).honest → ⊥)
        (λ e. (e.0 ≡ why.Memory) ⊎ (e.0 ≡ why.Old DiskFailed) ⊎ (e.0 ≡ why.New WrongSize)
        ⊎ (e.0 ≡ why.New DiskFailed)) }
    ensures none { (old read : D) (given : E) (result : Result E (WhyNot × E)) (fault : FaultOf)
        → (D.state old).honest → AreStores (D.state old) (E.state given)
        → Renews D.state E.state old given result read → StoresNone (D.state old).now fault
        → MatchResult result (λ new. ⊥)
        (λ e. (e.0 ≡ why.Old fault) ⊎ (e.0 ≡ why.Memory) ⊎ (e.0 ≡ why.Old DiskFailed)) }
{}

/// A renewal leaves the old disk as it was. If the disk was at rest, it is at rest again, and every
/// crash leaves the bytes that it had.
pub fn a_renewal_leaves_the_old_store_as_it_was<D: RunDisk, E: RunDisk>()
    ensures rest { (old read : D) (given : E) (result : Result E (WhyNot × E))
        → (D.state old).honest → IsAtRest (D.state old)
        → Renews D.state E.state old given result read → IsAtRest (D.state read) }
    ensures bytes { (old read : D) (given : E) (result : Result E (WhyNot × E)) (x : List ℕ)
        → (D.state old).honest → IsAtRest (D.state old)
        → Renews D.state E.state old given result read → (D.state read).images x
        → x ≡ (D.state old).now }
{}

/// A renewal reports the failure of a device only if a call of that disk failed, or if that disk is
/// spent.
pub fn a_renewal_reports_which_disk_failed<D: RunDisk, E: RunDisk>()
    ensures old { (old read : D) (given : E) (result : Result E (WhyNot × E))
        → Renews D.state E.state old given result read
        → MatchResult result (λ new. Unit {0}) (λ e. e.0 ≡ why.Old DiskFailed
        → ((D.state old).failures < (D.state read).failures)
        ⊎ ((D.state read).clock ≡ last_moment)) }
    ensures new { (old read : D) (given : E) (result : Result E (WhyNot × E))
        → Renews D.state E.state old given result read
        → MatchResult result (λ new. Unit {0}) (λ e. e.0 ≡ why.New DiskFailed
        → ((E.state given).failures < (E.state e.1).failures)
        ⊎ ((E.state e.1).clock ≡ last_moment)) }
{}
