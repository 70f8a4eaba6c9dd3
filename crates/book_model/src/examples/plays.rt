//! The steps of a session, played over a device that works and over one that fails.

ghost use Rattle.std.specs.Prelude.{◌≡◌, [], None, Some};
ghost use Rattle.run_model.specs.Session.{accepted, acknowledged};
ghost use Rattle.book_model.specs.Examples.Nights.{new_store};
ghost use Rattle.book_model.specs.Plays.{Plays, last_acked, sound, stuck, taken};
ghost use Rattle.book_model.specs.Examples.Plays.{after_all, after_three, all_played, first_events};
ghost use Rattle.book_model.specs.Examples.Plays.{numbers_spent, played, refused_all};
ghost use Rattle.book_model.specs.Examples.Plays.{stopped_at_the_flush, two_saves};

/// Twelve steps over a new store are answered one by one. Each flush and the checkpoint return the
/// count, and the last one acknowledges all events.
pub fn a_night_is_played()
    ensures played { Plays (sound new_store) played all_played (sound after_all) }
    ensures acked { last_acked all_played ≡ Some 9 }
{}

/// The device fails in the first flush. The flush returns this fault, and each step after it is
/// refused as Broken. The three events before it were accepted, and none of them is acknowledged.
pub fn a_failing_device_ends_a_night()
    ensures played { Plays (sound new_store) played stopped_at_the_flush (stuck after_three) }
    ensures accepted { accepted new_store (taken played stopped_at_the_flush) ≡ first_events }
    ensures acknowledged { acknowledged new_store played stopped_at_the_flush ≡ [] }
    ensures unreported { last_acked stopped_at_the_flush ≡ None }
{}

/// A broken book refuses all twelve steps.
pub fn a_broken_book_plays_nothing()
    ensures { Plays (stuck new_store) played refused_all (stuck new_store) }
{}

/// A checkpoint for which no generation is left reports that, and breaks nothing: the flush after
/// it succeeds.
pub fn spent_numbers_break_nothing()
    ensures played { Plays (sound new_store) two_saves numbers_spent (sound after_three) }
    ensures acknowledged { acknowledged new_store two_saves numbers_spent ≡ first_events }
{}
