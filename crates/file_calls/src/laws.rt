//! Laws of what the calls leave. Each function has an empty body, and its clauses are the law.

ghost use Rattle.std.specs.Prelude.{◌≡◌, ℕ, List, None, Some, false, true, bytes_eq, map, nat_eq};
ghost use Rattle.std.specs.List.{Contains, list_any};
ghost use Rattle.file_calls.specs.Locks.{LockCall, excludes, held_after};
ghost use Rattle.file_calls.specs.Names.{Creates, NameStep, Renames, may_lead, settled_step};
ghost use Rattle.file_calls.specs.OpenFiles.{FileState, IsAtRest, MayLeave, Settles};
ghost use Rattle.file_calls.specs.declared.locks.Lock.{Lock};
ghost use Rattle.file_calls.specs.declared.places.Place.TheVariants.{Dirty, Durable, Lost};

/// A crash leaves of a file at rest exactly what reads return.
pub fn a_file_at_rest_survives_a_crash()
    ensures { (s : FileState) (x : List ℕ) → IsAtRest s → MayLeave s x → x ≡ s.now }
{}

/// After a failed sync, a second one proves nothing: what was dirty before the first is lost after
/// the second.
pub fn a_second_sync_proves_nothing()
    ensures { (old failed new : FileState) (i : ℕ) → Settles Lost old failed
        → Settles Durable failed new → old.place i ≡ Dirty → new.place i ≡ Lost }
{}

/// A crash may take its name from a new file, as long as no sync of the folder has succeeded.
/// After such a sync it can't.
pub fn a_new_name_needs_a_sync_of_its_folder()
    ensures lost { (name : List ℕ) (file : ℕ) (old new : List NameStep) → Creates name file old new
        → may_lead old name None ≡ true → may_lead new name None ≡ true }
    ensures kept { (name : List ℕ) (file : ℕ) (old new : List NameStep) → Creates name file old new
        → may_lead (map (settled_step Durable) new) name None ≡ false }
{}

/// A rename leaves no moment at which a crash takes away the name that it gives to another file.
pub fn a_rename_leaves_no_moment_without_a_file()
    ensures { (from to : List ℕ) (old new : List NameStep) → Renames from to old new
        → bytes_eq from to ≡ false → may_lead old to None ≡ false → may_lead new to None ≡ false }
{}

/// Whoever takes a lock alone is the only one who has one on the file.
pub fn a_lock_alone_is_the_only_one()
    ensures { (lock : Lock) (held : List Lock) → lock.is_alone ≡ true
        → list_any (excludes lock) held ≡ false
        → list_any (λ other. nat_eq other.file lock.file) held ≡ false }
{}

/// Whatever programs ask for locks and close their files: as long as one of them holds a file
/// alone, no other one holds a lock on it.
pub fn no_two_programs_hold_a_file_alone()
    ensures { (calls : List LockCall) (lock other : Lock) → Contains (held_after calls) lock
        → Contains (held_after calls) other → lock.is_alone ≡ true → other.file ≡ lock.file
        → other.holder ≡ lock.holder }
{}
