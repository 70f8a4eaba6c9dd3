//! Prefixes: a crash may leave the state after a prefix of the events.

ghost use Rattle.std.specs.Prelude.{◌≡◌, ◌≤◌, ◌+◌, ◌++◌, ℕ, List, [], length, Some};
ghost use Rattle.run_model.specs.declared.answers.Reply.{Reply};
ghost use Rattle.run_model.specs.declared.commands.Step.{Step};
ghost use Rattle.run_model.specs.Allowed.{IsPrefix, run};
ghost use Rattle.run_model.specs.Event.{Event};
ghost use Rattle.run_model.specs.Rules.{IsConsistent};
ghost use Rattle.run_model.specs.State.{State};
ghost use Rattle.book_model.specs.Nights.{HasKeptNight, StoresPart, opened_from};
ghost use Rattle.book_model.specs.Plays.{Playing, Plays, sound};
ghost use Rattle.book_model.specs.Stores.{Stores, StoresPrefix};

/// Suppose that a store holds the state after a prefix of some events, which contains every
/// acknowledged event. This stays true if more events follow, and if fewer are acknowledged. All
/// events are a prefix of themselves, and the prefix of no events leads to the start.
pub fn a_prefix_stays_a_prefix()
    ensures more { (start : State) (events more : List Event) (n m : ℕ) (bytes : List ℕ) → m ≤ n
        → StoresPrefix start events n bytes → StoresPrefix start (events ++ more) m bytes }
    ensures here { (start p : State) (events : List Event) (bytes : List ℕ)
        → run start events ≡ Some p → Stores bytes p
        → StoresPrefix start events (length events) bytes }
    ensures start { (start : State) (bytes : List ℕ) → StoresPrefix start [] 0 bytes
        → Stores bytes start }
{}

/// Counted from the start, the state after a prefix has at least the acknowledged events, and at
/// most all events. It is consistent if the start is.
pub fn a_prefix_counts_its_events()
    ensures least { (start q : State) (events : List Event) (n : ℕ) → IsPrefix start events n q
        → start.count + n ≤ q.count }
    ensures most { (start q : State) (events : List Event) (n : ℕ) → IsPrefix start events n q
        → q.count ≤ start.count + length events }
    ensures rules { (start q : State) (events : List Event) (n : ℕ) → IsConsistent start
        → IsPrefix start events n q → IsConsistent q }
{}

/// A store of state p was opened, and steps were played over it. If a crash left the state after a
/// prefix of the accepted events, which has at least as many events as are acknowledged, then the
/// night is kept.
pub fn a_crash_leaves_a_kept_session()
    ensures { (before bytes : List ℕ) (p : State) (end : Playing) (steps : List Step)
        (answers : List Reply) → Stores before p → Plays (sound (opened_from p)) steps answers end
        → StoresPart (opened_from p) steps answers bytes
        → HasKeptNight (opened_from p) steps answers bytes }
{}
