//! [`CallCounts`] count the calls of a file, and those that failed.

ghost use Rattle.std.specs.Prelude.{◌≡◌, ◌<◌, ◌≤◌, ◌+◌};
ghost use Rattle.std.specs.Bool.{OnFalse};
ghost use Rattle.run_disk.specs.Disk.{last_moment};
ghost use Rattle.file_disk.specs.Counts.{IsCounted, IsFresh};

use run_disk::DiskFailed;

/// The number of calls, the number of them that failed, and the error of the first one that did.
#[derive(Drop)]
pub struct CallCounts<E: Drop> {
    pub calls: u64,
    pub failures: u64,
    pub error: Option<E>,
}

impl<E: Drop> CallCounts<E> {
    /// Returns the counts before the first call.
    pub fn new() -> CallCounts<E>
        ensures calls { result.calls ≡ 0 }
        ensures failures { result.failures ≡ 0 }
    {
        CallCounts {
            calls: 0,
            failures: 0,
            error: None,
        }
    }

    /// Returns whether no further call is made: one has failed, or no further one can be counted.
    pub fn is_stopped(&self) -> bool
        ensures { OnFalse result (IsFresh self.now.calls self.now.failures) }
    {
        self.calls == u64::MAX || self.failures != 0
    }

    /// Counts a call that isn't made and fails, unless no further one can be counted.
    pub fn refuse(&mut self) -> DiskFailed
        requires { self.old.failures ≤ self.old.calls }
        ensures calls { self.old.calls < last_moment → self.new.calls ≡ self.old.calls + 1 }
        ensures failures { self.old.calls < last_moment
            → self.new.failures ≡ self.old.failures + 1 }
        ensures spent { self.old.calls ≡ last_moment → self.new ≡ self.old }
    {
        if self.calls != u64::MAX {
            self.calls += 1;
            self.failures += 1;
        }
        DiskFailed
    }

    /// Counts a call that was made. Returns `DiskFailed` if it failed, and keeps its error if it
    /// was the first one that did.
    pub fn count(&mut self, done: Result<(), E>) -> Result<(), DiskFailed>
        requires early { self.old.calls < last_moment }
        requires fit { self.old.failures ≤ self.old.calls }
        ensures { IsCounted done result self.old.calls self.old.failures
            self.new.calls self.new.failures }
    {
        self.calls += 1;
        match done {
            Ok(()) => Ok(()),
            Err(error) => {
                self.failures += 1;
                if self.error.is_none() {
                    self.error = Some(error);
                }
                Err(DiskFailed)
            }
        }
    }
}
