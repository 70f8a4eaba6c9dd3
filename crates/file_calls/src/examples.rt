//! Worked examples, computed from the definitions only. Each function has an empty body, and its
//! clauses are the example.

ghost use Rattle.std.specs.Prelude.{◌≡◌, ◌∷◌, [], false, true, None, Some, map};
ghost use Rattle.file_calls.specs.Examples.{on_9, renamed, shared, alone};
ghost use Rattle.file_calls.specs.Locks.{Ask, Close, excludes, held_after, without};
ghost use Rattle.file_calls.specs.Names.{leads, may_lead, settled_step};
ghost use Rattle.file_calls.specs.OpenFiles.{grown, put_at, settled, written};
ghost use Rattle.file_calls.specs.declared.places.Place.TheVariants.{Dirty, Durable, Lost};

/// A write puts its bytes in, and the file grows if they reach behind its end.
pub fn a_write_puts_its_bytes_in()
    ensures inside { put_at 1 (7 ∷ []) (1 ∷ 2 ∷ 3 ∷ []) ≡ 1 ∷ 7 ∷ 3 ∷ [] }
    ensures over_the_end { put_at 2 (7 ∷ 8 ∷ []) (1 ∷ 2 ∷ 3 ∷ []) ≡ 1 ∷ 2 ∷ 7 ∷ 8 ∷ [] }
    ensures at_the_end { put_at 3 (7 ∷ []) (1 ∷ 2 ∷ 3 ∷ []) ≡ 1 ∷ 2 ∷ 3 ∷ 7 ∷ [] }
{}

/// A write of two bytes from place 1 on makes both places dirty, and a lost one, too. A sync makes
/// a dirty place durable, or lost if it fails. Once lost, a place stays so until it is written.
pub fn a_place_goes_its_way()
    ensures before { written 1 2 0 Durable ≡ Durable }
    ensures first { written 1 2 1 Durable ≡ Dirty }
    ensures last { written 1 2 2 Lost ≡ Dirty }
    ensures behind { written 1 2 3 Lost ≡ Lost }
    ensures synced { settled Durable Dirty ≡ Durable }
    ensures failed { settled Lost Dirty ≡ Lost }
    ensures synced_again { settled Durable Lost ≡ Lost }
    ensures kept { settled Lost Durable ≡ Durable }
{}

/// A file of three bytes, whose end is durable. A write of two bytes makes the end dirty if it
/// begins at place 2, and not if it begins at place 1.
pub fn an_end_goes_its_way()
    ensures inside { grown 1 2 3 Durable ≡ Durable }
    ensures behind { grown 2 2 3 Durable ≡ Dirty }
    ensures lost { grown 1 2 3 Lost ≡ Lost }
{}

/// File 1 has the name `s`, which is durable. File 2 is created as `n`, and renamed to `s`. A crash
/// leaves `s` leading to the one or to the other, never to none; and `n` to file 2, or to none.
pub fn a_rename_before_its_sync()
    ensures now { leads renamed (115 ∷ []) ≡ Some 2 }
    ensures gone { leads renamed (110 ∷ []) ≡ None }
    ensures old { may_lead renamed (115 ∷ []) (Some 1) ≡ true }
    ensures new { may_lead renamed (115 ∷ []) (Some 2) ≡ true }
    ensures none { may_lead renamed (115 ∷ []) None ≡ false }
    ensures still { may_lead renamed (110 ∷ []) (Some 2) ≡ true }
    ensures lost { may_lead renamed (110 ∷ []) None ≡ true }
{}

/// After a sync of the folder `s` leads to file 2 only. If the sync fails, a second one changes
/// nothing.
pub fn a_rename_after_a_sync()
    ensures new { may_lead (map (settled_step Durable) renamed) (115 ∷ []) (Some 2) ≡ true }
    ensures old { may_lead (map (settled_step Durable) renamed) (115 ∷ []) (Some 1) ≡ false }
    ensures failed { may_lead (map (settled_step Durable) (map (settled_step Lost) renamed))
        (115 ∷ []) (Some 1) ≡ true }
{}

/// Two shared locks on a file go together. A lock alone goes with no other one on the same file.
pub fn which_locks_go_together()
    ensures both_shared { excludes (shared 1) (shared 2) ≡ false }
    ensures alone_second { excludes (alone 1) (shared 2) ≡ true }
    ensures alone_first { excludes (shared 1) (alone 2) ≡ true }
    ensures another_file { excludes (on_9 1) (alone 2) ≡ false }
    ensures closed { without 2 (shared 1 ∷ shared 2 ∷ []) ≡ shared 1 ∷ [] }
{}

/// Opening 1 locks file 7 alone. As long as it holds the lock, opening 2 gets none. After opening 1
/// was closed, opening 2 gets one.
pub fn who_holds_a_lock_after_calls()
    ensures refused { held_after (Ask (alone 1) ∷ Ask (shared 2) ∷ []) ≡ alone 1 ∷ [] }
    ensures another_file { held_after (Ask (alone 1) ∷ Ask (on_9 2) ∷ []) ≡ alone 1 ∷ on_9 2 ∷ [] }
    ensures closed { held_after (Ask (alone 1) ∷ Close 1 ∷ Ask (shared 2) ∷ []) ≡ shared 2 ∷ [] }
{}
