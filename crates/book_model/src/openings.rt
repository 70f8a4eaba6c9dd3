//! The results of a recovery, an opening and a format, by the bytes of the disk.

ghost use Rattle.std.specs.Prelude.{◌≡◌, ◌⊎◌, ◌<◌, Err, ℕ, List, length, MatchResult, Result};
ghost use Rattle.run_model.specs.declared.faults.Fault.{Fault};
ghost use Rattle.run_model.specs.declared.faults.Fault.TheVariants.{DiskFailed, Memory};
ghost use Rattle.run_model.specs.declared.faults.Fault.TheVariants.{NumbersSpent};
ghost use Rattle.run_model.specs.declared.layouts.Layout.{Layout};
ghost use Rattle.run_model.specs.Event.{Event};
ghost use Rattle.run_model.specs.Layouts.{store_len};
ghost use Rattle.run_model.specs.State.{State, formatted};
ghost use Rattle.row_view.specs.Image.{image};
ghost use Rattle.run_disk.specs.Disk.{last_moment};
ghost use Rattle.run_disk.specs.Runs.{OnlyReads};
ghost use Rattle.run_journal.specs.Pairs.{HasNoPairBut};
ghost use Rattle.book_model.specs.Books.{BookView};
ghost use Rattle.book_model.specs.Nights.{HasKept};
ghost use Rattle.book_model.specs.Openings.{Formats, HasFailedCheckpoint, Opens, OpensNot};
ghost use Rattle.book_model.specs.Openings.{Recovers};
ghost use Rattle.book_model.specs.Stores.{HasSpentNumbers, OpensNone, Stores, StoresNone};
ghost use Rattle.book_model.specs.Stores.{StoresFresh, StoresNothingOr, restarted};

use run_disk::RunDisk;

/// Unless memory is refused or the device fails, a recovery of an honest disk returns the state
/// that its bytes store, or the one fault that reports why they store none. It writes nothing.
pub fn a_recovery_answers_what_is_stored<D: RunDisk>()
    ensures state { (old new : D) (result : Result State Fault) (p : State)
        → (D.state old).honest → Recovers D.state old result new → Stores (D.state old).now p
        → MatchResult result (λ q. q ≡ p) (λ why. (why ≡ Memory) ⊎ (why ≡ DiskFailed)) }
    ensures none { (old new : D) (result : Result State Fault) (why : Fault)
        → (D.state old).honest → Recovers D.state old result new
        → StoresNone (D.state old).now why
        → MatchResult result (λ q. ⊥)
        (λ reported. (reported ≡ why) ⊎ (reported ≡ Memory) ⊎ (reported ≡ DiskFailed)) }
    ensures reads { (old new : D) (result : Result State Fault) → (D.state old).honest
        → Recovers D.state old result new → OnlyReads (D.state old) (D.state new) }
{}

/// Unless memory is refused or the device fails, an opening of an honest disk returns a book that
/// begins with the stored state after a restart, or the one fault that reports why the bytes can't
/// be opened.
pub fn an_opening_answers_what_is_stored<D: RunDisk>()
    ensures state { (given : D) (result : Result (BookView D) (Fault × D)) (p : State)
        → (D.state given).honest → Opens D.state given result → Stores (D.state given).now p
        → (HasSpentNumbers (D.state given).now → ⊥)
        → MatchResult result (λ h. h.session.start ≡ restarted p)
        (λ e. (e.0 ≡ Memory) ⊎ (e.0 ≡ DiskFailed)) }
    ensures none { (given : D) (result : Result (BookView D) (Fault × D)) (why : Fault)
        → (D.state given).honest → Opens D.state given result
        → OpensNone (D.state given).now why
        → MatchResult result (λ h. ⊥)
        (λ e. (e.0 ≡ why) ⊎ (e.0 ≡ Memory) ⊎ (e.0 ≡ DiskFailed)) }
{}

/// Whatever steps leave of a store, after a crash at any moment, can be read again unless memory is
/// refused or the device fails. A recovery of an honest disk with these bytes returns the state to
/// which a prefix of the events led. An opening returns a book that begins with the restart of that
/// state, unless the store's numbers are used up.
pub fn a_kept_night_is_read_again<D: RunDisk>()
    ensures recovered { (start : State) (events acks : List Event) (old new : D)
        (result : Result State Fault) (kept : HasKept start events acks (D.state old).now)
        → (D.state old).honest → Recovers D.state old result new
        → MatchResult result (λ q. q ≡ kept.state) (λ why. (why ≡ Memory) ⊎ (why ≡ DiskFailed)) }
    ensures reopened { (start : State) (events acks : List Event) (given : D)
        (result : Result (BookView D) (Fault × D))
        (kept : HasKept start events acks (D.state given).now)
        → (D.state given).honest → Opens D.state given result
        → MatchResult result (λ h. h.session.start ≡ restarted kept.state)
        (λ e. (e.0 ≡ Memory) ⊎ (e.0 ≡ DiskFailed) ⊎ (e.0 ≡ NumbersSpent)) }
{}

/// An opening writes only in its checkpoint. If it returns no book, there are two possibilities.
/// Either it has only read, or the bytes store a state that could be opened, and a call failed or
/// the disk was spent after three calls or more.
pub fn an_opening_writes_in_its_checkpoint_alone<D: RunDisk>()
    ensures { (given new : D) (why : Fault) → (D.state given).honest
        → OpensNot D.state given why new → OnlyReads (D.state given) (D.state new)
        ⊎ HasFailedCheckpoint D.state given new }
{}

/// A crash during a format of a disk of zeros leaves no state but that of the new store. If the
/// bytes have a pair, it has no batch, and its image is empty or that of the state with no row but
/// root. So they store that state, or nothing. A fresh store of a state stores that state.
pub fn a_crashed_format_leaves_no_other_state()
    ensures only { (layout : Layout) (x : List ℕ) (p : State) → length x ≡ store_len layout
        → HasNoPairBut (image (formatted layout)) x → Stores x p → p ≡ formatted layout }
    ensures nothing_or { (layout : Layout) (x : List ℕ) → length x ≡ store_len layout
        → HasNoPairBut (image (formatted layout)) x → StoresNothingOr (formatted layout) x }
    ensures fresh { (layout : Layout) (generation : ℕ) (p : State) (x : List ℕ)
        → StoresFresh layout generation p x → Stores x p }
{}

/// A fault reports a failure of the device only if a device call failed or the disk is spent.
pub fn a_fault_of_the_device_has_its_cause<D: RunDisk>()
    ensures recovers { (old new : D) (result : Result State Fault)
        → Recovers D.state old result new → result ≡ Err DiskFailed
        → ((D.state old).failures < (D.state new).failures)
        ⊎ ((D.state new).clock ≡ last_moment) }
    ensures opens { (given : D) (result : Result (BookView D) (Fault × D))
        → Opens D.state given result
        → MatchResult result (λ h. Unit {0}) (λ e. e.0 ≡ DiskFailed
        → ((D.state given).failures < (D.state e.1).failures)
        ⊎ ((D.state e.1).clock ≡ last_moment)) }
    ensures formats { (given : D) (result : Result D (Fault × D)) → Formats D.state given result
        → MatchResult result (λ new. Unit {0}) (λ e. e.0 ≡ DiskFailed
        → ((D.state given).failures < (D.state e.1).failures)
        ⊎ ((D.state e.1).clock ≡ last_moment)) }
{}
