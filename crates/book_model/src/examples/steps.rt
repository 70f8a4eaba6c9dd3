//! Steps over a book on a new store: a flush that succeeds, one that fails, and a crash between two
//! calls.

ghost use Rattle.std.specs.Prelude.{◌≡◌, ◌<◌, ◌≤◌, ◌+◌, ◌++◌, [], ◌∷◌, Err, ℕ, List};
ghost use Rattle.run_model.specs.declared.faults.Fault.TheVariants.{DiskFailed, Memory, NotAStore};
ghost use Rattle.run_model.specs.declared.faults.Fault.TheVariants.{NumbersSpent, WrongSize};
ghost use Rattle.run_model.specs.declared.refusals.Refusal.TheVariants.{Broken};
ghost use Rattle.run_model.specs.Allowed.{IsPrefix};
ghost use Rattle.run_model.specs.Session.{accepted, acknowledged};
ghost use Rattle.run_model.specs.State.{State};
ghost use Rattle.run_disk.specs.Disk.{last_moment};
ghost use Rattle.book_model.specs.Examples.Calls.{acked, checkpoint, faulty, flush, refused};
ghost use Rattle.book_model.specs.Examples.Calls.{scope_made, start};
ghost use Rattle.book_model.specs.Examples.Nights.{new_store};
ghost use Rattle.book_model.specs.Books.{BookView};
ghost use Rattle.book_model.specs.Nights.{HasKeptSince};
ghost use Rattle.book_model.specs.Openings.{Formats, Opens, Recovers};
ghost use Rattle.book_model.specs.Plays.{taken};
ghost use Rattle.book_model.specs.Steps.{AnswersStep, Steps};
ghost use Rattle.book_model.specs.Stores.{StoresNone};
ghost use Rattle.book_model.specs.Examples.Plays.{first_events};
ghost use Rattle.book_model.specs.Examples.Steps.{Counts, book_after_three, failed, failing_call};
ghost use Rattle.book_model.specs.Examples.Steps.{failing_replies, first_call, first_command};
ghost use Rattle.book_model.specs.Examples.Steps.{first_replies, flushed, flushed_twice, last_book};
ghost use Rattle.book_model.specs.Examples.Steps.{last_flushed, new_book, second_call};
ghost use Rattle.book_model.specs.Examples.Steps.{second_replies, short_state_of, state_of};
ghost use Rattle.book_model.specs.Examples.Stores.{two_events};

/// Three commands are accepted. A flush saves them with six device calls, and returns the count 4.
/// A second flush has nothing to save: it makes no call, and returns 4 again. No other count can be
/// returned.
pub fn a_flush_is_done()
    ensures answered { Steps state_of new_book first_call first_replies flushed }
    ensures again { AnswersStep state_of flushed flush (acked 4) flushed }
    ensures counted { (new : BookView Counts)
        → AnswersStep state_of book_after_three flush (acked 3) new → ⊥ }
    ensures batched { AnswersStep state_of book_after_three flush (acked 4) flushed_twice → ⊥ }
{}

/// The answer to the first of the three commands is scope 1 and no other, and after it the book has
/// the event.
pub fn a_command_is_answered_as_its_session_says()
    ensures reported { (new : BookView Counts) → AnswersStep state_of new_book first_command
        (scope_made 2) new → ⊥ }
    ensures taken { AnswersStep state_of new_book first_command (scope_made 1) new_book → ⊥ }
{}

/// If no generation is left, no checkpoint succeeds: it reports that the numbers are spent, and
/// changes nothing. A flush after it still succeeds, if its records fit.
pub fn the_last_generation_has_no_checkpoint()
    ensures answered { Steps state_of last_book (checkpoint ∷ flush ∷ [])
        (faulty NumbersSpent ∷ acked 4 ∷ []) last_flushed }
    ensures undone { (n : ℕ) (new : BookView Counts)
        → AnswersStep state_of last_book checkpoint (acked n) new → ⊥ }
{}

/// The prefix that a crash may leave contains every acknowledged event. If three are acknowledged,
/// the state has at least four events, including the opening.
pub fn a_prefix_lacks_no_acknowledged_event()
    ensures { (q : State) → q.count ≡ 3
        → IsPrefix new_store.state (first_events ++ two_events) 3 q → ⊥ }
{}

/// The first device call of a flush fails. The flush returns this fault, the book is broken, and
/// each later step is refused and leaves the book as it is. Without a device call a flush can't
/// return that fault.
pub fn a_flush_fails()
    ensures flush { AnswersStep state_of book_after_three flush (faulty DiskFailed) failed }
    ensures after { AnswersStep state_of failed start (refused Broken) failed }
    ensures save { AnswersStep state_of failed checkpoint (refused Broken) failed }
    ensures answered { Steps state_of new_book failing_call failing_replies failed }
    ensures caused { AnswersStep state_of book_after_three flush (faulty DiskFailed)
        book_after_three → ⊥ }
{}

/// A crash comes between two calls, or during the second one. The first call acknowledged three
/// events, and the second one accepts two more. The state that is left has four, five or six
/// events, including the opening.
pub fn a_crash_comes_between_two_calls()
    ensures acknowledged { acknowledged new_store first_call first_replies ≡ first_events }
    ensures accepted { accepted new_store
        (taken (first_call ++ second_call) (first_replies ++ second_replies))
        ≡ first_events ++ two_events }
    ensures kept { (bytes : List ℕ)
        → (kept : HasKeptSince new_store first_call first_replies second_call second_replies bytes)
        → (4 ≤ kept.state.count) × (kept.state.count ≤ 6) }
{}

/// A disk that is one byte smaller than a small store can't be recovered, opened or formatted, and
/// no call is made. A disk without a byte stores nothing.
pub fn a_disk_of_another_size_is_no_store()
    ensures recovered { (d : Counts) → Recovers short_state_of d (Err WrongSize) d }
    ensures opened { (d : Counts) → Opens short_state_of d (Err (WrongSize, d)) }
    ensures formatted { (d : Counts) → Formats short_state_of d (Err (WrongSize, d)) }
    ensures none { StoresNone [] WrongSize }
{}

/// If the size is right, refused memory is reported before the first call, and a first read that
/// fails is counted. Before any read, no fault of the bytes can be reported, and a failed device
/// only if the disk is spent.
pub fn a_recovery_is_reported_by_its_reads()
    ensures memory { (d : Counts) → Recovers state_of d (Err Memory) d }
    ensures failed { (calls failures : ℕ) → Recovers state_of
        (record { calls = calls; failures = failures }) (Err DiskFailed)
        (record { calls = calls + 1; failures = failures + 1 }) }
    ensures unread { (d : Counts) → Recovers state_of d (Err NotAStore) d → ⊥ }
    ensures uncalled { (d : Counts) → d.calls < last_moment
        → Recovers state_of d (Err DiskFailed) d → ⊥ }
    ensures right_size { (d new : Counts) → Recovers state_of d (Err WrongSize) new → ⊥ }
{}
