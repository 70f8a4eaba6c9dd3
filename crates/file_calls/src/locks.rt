//! [`FileLocks`] are the locks of open files: each one alone, or shared.

ghost use Rattle.std.specs.Prelude.{◌≡◌, Bool, List, false, true, IfErr, IfOk, OnErr};
ghost use Rattle.std.specs.Bool.{OnFalse, OnTrue};
ghost use Rattle.file_calls.specs.Locks.{IsBusy, Takes, without};
ghost use Rattle.file_calls.specs.declared.locks.Lock.{Lock};

/// A lock on a file, which is known by its number. An opening of the file holds it.
#[derive(Clone, Copy, Debug, PartialEq, Eq)]
pub struct Lock {
    pub file: u64,
    /// The number of the opening, of this program or of another one.
    pub holder: u64,
    /// Nobody else has a lock on the file, not even a shared one.
    pub is_alone: bool,
}

/// The locks that all programs hold. An opening of a file holds its lock until it is closed.
pub trait FileLocks {
    /// An opening of a file.
    type File: Drop;

    /// What a call that failed returns.
    type Error: Drop;

    /// The lock that an opening may hold, alone or shared.
    ghost lock: { Self.File → (is_alone : Bool) → Lock };

    /// The locks that are held.
    ghost held: { Self → List Lock };

    /// Whether they keep the promises about locks.
    ghost keeps: { Self → Type 0 };

    /// Whether this lock was asked for last, and the question failed with this error.
    ghost refuses: { Self → Lock → Self.Error → Type 0 };

    /// Takes a lock alone, and returns whether it was free. An error says nothing of it: some file
    /// systems have no locks.
    fn try_lock(&mut self, file: &Self::File) -> Result<bool, Self::Error>
        ensures kept { keeps self.old → keeps self.new }
        ensures free { keeps self.old → IfOk result (λ is_free. OnTrue is_free
            (Takes (lock file.now true) (held self.old) (held self.new))) }
        ensures busy { keeps self.old → IfOk result (λ is_free. OnFalse is_free
            (IsBusy (lock file.now true) (held self.old) (held self.new))) }
        ensures failed { keeps self.old → OnErr result (held self.new ≡ held self.old) }
        ensures refused { keeps self.old
            → IfErr result (refuses self.new (lock file.now true)) };

    /// Takes a shared lock, and returns whether it was free.
    fn try_lock_shared(&mut self, file: &Self::File) -> Result<bool, Self::Error>
        ensures kept { keeps self.old → keeps self.new }
        ensures free { keeps self.old → IfOk result (λ is_free. OnTrue is_free
            (Takes (lock file.now false) (held self.old) (held self.new))) }
        ensures busy { keeps self.old → IfOk result (λ is_free. OnFalse is_free
            (IsBusy (lock file.now false) (held self.old) (held self.new))) }
        ensures failed { keeps self.old → OnErr result (held self.new ≡ held self.old) }
        ensures refused { keeps self.old
            → IfErr result (refuses self.new (lock file.now false)) };

    /// Closes an opening, and gives back its locks.
    fn close(&mut self, file: Self::File)
        ensures kept { keeps self.old → keeps self.new }
        ensures closes { keeps self.old
            → held self.new ≡ without (lock file true).holder (held self.old) };
}
