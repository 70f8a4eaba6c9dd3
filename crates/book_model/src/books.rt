//! Laws of a book over a disk: how it carries on through any calls, and what a crash leaves of it.

ghost use Rattle.std.specs.Prelude.{◌≡◌, ◌⊎◌, ◌≤◌, ◌++◌, [], ◌∷◌, ℕ, List, drop, length, Some};
ghost use Rattle.run_model.specs.declared.answers.Reply.{Reply};
ghost use Rattle.run_model.specs.declared.commands.Step.{Step};
ghost use Rattle.run_model.specs.declared.layouts.Layout.{Layout};
ghost use Rattle.run_model.specs.Allowed.{run};
ghost use Rattle.run_model.specs.Event.{Event};
ghost use Rattle.run_model.specs.Layouts.{store_len};
ghost use Rattle.run_model.specs.Session.{Session, accepted};
ghost use Rattle.run_model.specs.State.{State};
ghost use Rattle.row_view.specs.declared.heads.ImageVersion.TheVariants.{Two};
ghost use Rattle.record_view.specs.Records.{AreRecords};
ghost use Rattle.run_disk.specs.Disk.{IsAtRest};
ghost use Rattle.run_disk.specs.Runs.{LeavesOnly, OnlyReads, Passed};
ghost use Rattle.run_journal.specs.Journals.{JournalView, Keeps};
ghost use Rattle.run_journal.specs.Pairs.{HasEither};
ghost use Rattle.run_journal.specs.Stores.{HasPair};
ghost use Rattle.book_model.specs.Books.{BookView, CarriesOn, IsDurable, IsOpened, IsReached};
ghost use Rattle.book_model.specs.Books.{IsSafe, IsSettled, acked};
ghost use Rattle.book_model.specs.Meanings.{Means, MeansIn};
ghost use Rattle.book_model.specs.Nights.{HasKept, HasKeptNight, HasKeptSince, opened_from};
ghost use Rattle.book_model.specs.Plays.{taken};
ghost use Rattle.book_model.specs.Steps.{Steps};
ghost use Rattle.book_model.specs.Stores.{Stores, StoresPrefix, StoresOpened, restarted};

use run_disk::RunDisk;

/// A book carries on if no call is made, and if events are added without a device call, provided
/// that its images hold the acknowledged events. If it carries on over each of two runs of calls,
/// one after the other, it carries on over both together.
pub fn a_book_carries_on<D: RunDisk>()
    ensures none { (h : BookView D) → IsDurable D.state h → CarriesOn D.state h h }
    ensures more { (h : BookView D) (s : Session) (events : List Event)
        → s.start ≡ h.session.start → s.history ≡ h.session.history ++ events
        → IsDurable D.state h → CarriesOn D.state h (record h { session = s }) }
    ensures both { (a b c : BookView D) → CarriesOn D.state a b → CarriesOn D.state b c
        → CarriesOn D.state a c }
{}

/// Whatever calls were made, a crash at any moment since the first of them left the state after a
/// prefix of the history, and the prefix contains every event that was acknowledged before. A crash
/// now leaves every event that is acknowledged now.
pub fn a_crash_loses_nothing_acknowledged<D: RunDisk>()
    ensures any_moment { (old new : BookView D) (x : List ℕ) → CarriesOn D.state old new
        → IsSafe D.state old
        → (D.state new.journal.disk).since (D.state old.journal.disk).clock x
        → StoresPrefix old.session.start new.session.history (acked old) x }
    ensures now { (old new : BookView D) (x : List ℕ) → CarriesOn D.state old new
        → IsSafe D.state old → (D.state new.journal.disk).images x
        → StoresPrefix old.session.start new.session.history (acked new) x }
{}

/// If all events are acknowledged, whatever a crash leaves stores the state of the book.
pub fn a_saved_book_stores_its_state<D: RunDisk>()
    ensures { (h : BookView D) (x : List ℕ) → IsDurable D.state h → IsSafe D.state h
        → h.durable ≡ h.session.state.count → IsReached h → (D.state h.journal.disk).images x
        → Stores x h.session.state }
{}

/// A run of reads changes nothing: a crash at any moment of it leaves the state that the disk,
/// which is at rest, stored before.
pub fn reading_leaves_what_is_stored<D: RunDisk>()
    ensures { (old new : D) (p : State) → IsAtRest (D.state old)
        → OnlyReads (D.state old) (D.state new) → Stores (D.state old).now p
        → LeavesOnly (λ x. Stores x p) (D.state old) (D.state new) }
{}

/// If the disk is honest and has the size of a store, a crash at any moment of a save leaves the
/// old pair or the new one. So it leaves a prefix that contains every event that was acknowledged
/// before. The new pair has one more batch, with the records that weren't acknowledged, or it is a
/// new image.
pub fn a_save_leaves_prefixes<D: RunDisk>()
    ensures flush { (h : BookView D) (new : D) (p : State) (pending : List ℕ)
        (settled : IsSettled D.state h) → acked h ≤ length h.session.history
        → run h.session.start h.session.history ≡ Some p
        → AreRecords pending (drop (acked h) h.session.history)
        → (D.state new).honest → (D.state new).size ≡ store_len h.journal.layout
        → LeavesOnly (HasEither settled.image settled.batches settled.image
        (settled.batches ++ pending ∷ [])) (D.state h.journal.disk) (D.state new)
        → LeavesOnly (StoresPrefix h.session.start h.session.history (acked h))
        (D.state h.journal.disk) (D.state new) }
    ensures checkpoint { (h : BookView D) (new : D) (p : State) (fresh : List ℕ)
        (settled : IsSettled D.state h) → acked h ≤ length h.session.history
        → run h.session.start h.session.history ≡ Some p
        → MeansIn Two h.journal.layout fresh [] p
        → (D.state new).honest → (D.state new).size ≡ store_len h.journal.layout
        → LeavesOnly (HasEither settled.image settled.batches fresh []) (D.state h.journal.disk)
        (D.state new)
        → LeavesOnly (StoresPrefix h.session.start h.session.history (acked h))
        (D.state h.journal.disk) (D.state new) }
{}

/// If the disk is honest and has the size of a store, a crash at any moment of the checkpoint of an
/// opening leaves the state that was stored, or its restart.
pub fn an_opening_leaves_the_state_or_its_restart<D: RunDisk>()
    ensures { (layout : Layout) (old new : D) (p : State) (image fresh : List ℕ)
        (batches : List (List ℕ)) → Means layout image batches p
        → MeansIn Two layout fresh [] (restarted p) → (D.state new).honest
        → (D.state new).size ≡ store_len layout
        → LeavesOnly (HasEither image batches fresh []) (D.state old) (D.state new)
        → LeavesOnly (StoresOpened p) (D.state old) (D.state new) }
{}

/// A whole opening of an honest disk at rest is a run of reads, followed by a checkpoint. A crash
/// at any moment since its start leaves the state that was stored, or its restart. Once the
/// checkpoint has returned Ok, a crash leaves only the restart, since every crash leaves what the
/// journal keeps.
pub fn an_opening_loses_nothing_from_its_first_read_on<D: RunDisk>()
    ensures any_moment { (layout : Layout) (given read new : D) (p : State)
        (image fresh : List ℕ) (batches : List (List ℕ)) → (D.state given).honest
        → IsAtRest (D.state given) → (D.state given).size ≡ store_len layout
        → HasPair image batches (D.state given).now → Means layout image batches p
        → MeansIn Two layout fresh [] (restarted p)
        → OnlyReads (D.state given) (D.state read) → Passed (D.state given) (D.state read)
        → LeavesOnly (HasEither image batches fresh []) (D.state read) (D.state new)
        → Passed (D.state read) (D.state new)
        → LeavesOnly (StoresOpened p) (D.state given) (D.state new) }
    ensures kept { (journal : JournalView D) (p : State) (image : List ℕ)
        (batches : List (List ℕ)) (x : List ℕ) → Means journal.layout image batches p
        → Keeps D.state journal image batches → (D.state journal.disk).images x → Stores x p }
{}

/// No call changes the layout, provided that the layout is the one that belongs to the size of the
/// disk, before the calls and after them.
pub fn a_book_keeps_its_layout<D: RunDisk>()
    ensures { (old new : BookView D)
        → (D.state old.journal.disk).size ≡ store_len old.journal.layout
        → (D.state new.journal.disk).size ≡ store_len new.journal.layout
        → CarriesOn D.state old new → new.journal.layout ≡ old.journal.layout }
{}

/// In a user's words: a disk that is honest and at rest stores state p. A book is opened over it,
/// and steps are played, in one call or in many, and their replies are seen. Then more steps are
/// played. If a crash comes after those replies, even within a call, the disk stores one state.
/// Every event that those replies acknowledged led to it, and perhaps some more of the accepted
/// ones, in order. A crash that comes now leaves every event that is acknowledged now. A restart of
/// the stored state interrupts the tasks that were running. Apart from that it changes only the
/// count, and what an interruption does to a group and to the scope of the group. If the crash
/// comes earlier, at any moment since the opening began, the disk stores state p, or the state to
/// which a restart of p and perhaps some of the accepted events lead.
pub fn a_session_survives_a_crash<D: RunDisk>()
    ensures any_moment { (given : D) (p : State) (old middle new : BookView D)
        (steps more : List Step) (answers others : List Reply) (x : List ℕ)
        → (D.state given).honest → IsAtRest (D.state given) → Stores (D.state given).now p
        → IsOpened D.state given p old
        → Steps D.state old steps answers middle → CarriesOn D.state old middle
        → Steps D.state middle more others new → CarriesOn D.state middle new
        → (D.state new.journal.disk).since (D.state middle.journal.disk).clock x
        → HasKeptSince (opened_from p) steps answers more others x }
    ensures now { (given : D) (p : State) (old new : BookView D) (steps : List Step)
        (answers : List Reply) (x : List ℕ)
        → (D.state given).honest → IsAtRest (D.state given) → Stores (D.state given).now p
        → IsOpened D.state given p old
        → Steps D.state old steps answers new → CarriesOn D.state old new
        → (D.state new.journal.disk).images x → HasKeptNight (opened_from p) steps answers x }
    ensures opening { (given : D) (p : State) (old new : BookView D) (steps : List Step)
        (answers : List Reply) (x : List ℕ)
        → (D.state given).honest → IsAtRest (D.state given) → Stores (D.state given).now p
        → IsOpened D.state given p old
        → LeavesOnly (StoresOpened p) (D.state given) (D.state old.journal.disk)
        → Steps D.state old steps answers new → CarriesOn D.state old new
        → (D.state new.journal.disk).since (D.state given).clock x
        → Stores x p
        ⊎ HasKept (restarted p) (accepted (opened_from p) (taken steps answers)) [] x }
{}
