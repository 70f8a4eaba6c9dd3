//! Examples of sessions: the log's last bytes, and what is acknowledged.

ghost use Rattle.std.specs.Prelude.{◌≡◌, [], ◌∷◌, Some, codes};
ghost use Rattle.run_model.specs.declared.refusals.Refusal.TheVariants as refusal;
ghost use Rattle.run_model.specs.declared.scopes.Kind.TheVariants as kind;
ghost use Rattle.run_model.specs.Event as event;
ghost use Rattle.run_model.specs.Session.{replies, session_after, acknowledged};
ghost use Rattle.book_model.specs.Examples.Calls.{started, finished, waited, done, refused};
ghost use Rattle.book_model.specs.Examples.Nights.{new_store};
ghost use Rattle.book_model.specs.Examples.Rooms.{with_log, one_ready, one_running, one_waited};
ghost use Rattle.book_model.specs.Examples.Rooms.{start_alone, start_and_finish, wait_and_advance};
ghost use Rattle.book_model.specs.Examples.Rooms.{three_saves, all_saved, checkpoint_refused};
ghost use Rattle.book_model.specs.Examples.Rooms.{device_failed};

/// The record of a start has 5 bytes, and the log keeps 80 bytes free for each task that is running
/// after it.
pub fn a_start_keeps_room_for_the_finish()
    ensures fits { replies (with_log 1048491 one_ready) start_alone
        ≡ started 4 0 "copy" "a" ∷ [] }
    ensures full { replies (with_log 1048492 one_ready) start_alone
        ≡ refused refusal.SessionFull ∷ [] }
    ensures second_fits { replies (with_log 1048411 one_running) start_alone
        ≡ started 6 1 "copy" "b" ∷ [] }
    ensures second_full { replies (with_log 1048412 one_running) start_alone
        ≡ refused refusal.SessionFull ∷ [] }
{}

/// A finish is accepted even if nothing else is, and its record of 6 bytes is in the log.
pub fn a_finish_always_has_room()
    ensures answers { replies (with_log 1048491 one_ready) start_and_finish
        ≡ started 4 0 "copy" "a" ∷ finished 5 ∷ [] }
    ensures log { (session_after (with_log 1048491 one_ready) start_and_finish).log ≡ 1048502 }
{}

/// A repeated wait is answered even if the session is full, since it isn't an event. The record of
/// an advance has 11 bytes.
pub fn a_repeated_wait_needs_no_room()
    ensures full { replies (with_log 1048576 one_waited) wait_and_advance
        ≡ waited ∷ refused refusal.SessionFull ∷ [] }
    ensures fits { replies (with_log 1048565 one_waited) wait_and_advance ≡ waited ∷ done ∷ [] }
    ensures past { replies (with_log 1048566 one_waited) wait_and_advance
        ≡ waited ∷ refused refusal.SessionFull ∷ [] }
{}

/// An event is acknowledged if a save after it has succeeded.
pub fn what_a_save_acknowledges()
    ensures answers { replies new_store three_saves ≡ all_saved }
    ensures all { acknowledged new_store three_saves all_saved
        ≡ event.Derive (codes "a") 0 kind.Cause ∷ event.Cancel 1 (Some (codes "x"))
        ∷ event.Advance 7 ∷ [] }
    ensures refused { acknowledged new_store three_saves checkpoint_refused
        ≡ acknowledged new_store three_saves all_saved }
    ensures failed { acknowledged new_store three_saves device_failed
        ≡ event.Derive (codes "a") 0 kind.Cause ∷ [] }
{}
