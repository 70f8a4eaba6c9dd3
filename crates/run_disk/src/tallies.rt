//! A [`Tally`] counts the calls of a disk, and those that failed.

ghost use Rattle.std.specs.Prelude.{◌≡◌, ◌<◌, ◌≤◌, ◌+◌, ◌-◌, ◌^◌, OnOk, OnErr};
ghost use Rattle.std.specs.Bool.{OnFalse, OnTrue};
ghost use Rattle.run_disk.specs.Disk.{last_moment};

use crate::disks::DiskFailed;

/// The number of calls that were made, and the number of them that failed.
#[derive(Drop)]
pub struct Tally {
    pub calls: u64,
    pub failures: u64,
}

impl Tally {
    /// Returns the tally before the first call.
    pub fn new() -> Tally
        ensures { result ≡ record { calls = 0; failures = 0 } }
    {
        Tally {
            calls: 0,
            failures: 0,
        }
    }

    /// Returns whether no further call can be counted.
    pub fn is_spent(&self) -> bool
        ensures spent { OnTrue result (self.now.calls ≡ last_moment) }
        ensures early { OnFalse result (self.now.calls < last_moment) }
    {
        self.calls == u64::MAX
    }

    /// Counts a call that succeeded.
    pub fn pass(&mut self)
        requires { self.old.calls < last_moment }
        ensures { self.new ≡ record self.old { calls = self.old.calls + 1 } }
    {
        self.calls += 1;
    }

    /// Counts a call that failed.
    pub fn fail(&mut self) -> DiskFailed
        requires early { self.old.calls < last_moment }
        requires fit { self.old.failures ≤ self.old.calls }
        ensures { self.new ≡ record {
          calls = self.old.calls + 1;
          failures = self.old.failures + 1;
        } }
    {
        self.calls += 1;
        self.failures += 1;
        DiskFailed
    }

    /// Counts a call that failed, unless no further call can be counted.
    pub fn refuse(&mut self) -> DiskFailed
        requires fit { self.old.failures ≤ self.old.calls }
        ensures counts { self.old.calls < last_moment → self.new ≡ record {
          calls = self.old.calls + 1;
          failures = self.old.failures + 1;
        } }
        ensures spent { self.old.calls ≡ last_moment → self.new ≡ self.old }
    {
        if self.is_spent() {
            return DiskFailed;
        }
        self.fail()
    }

    /// Counts a call that had this result, which it returns.
    pub fn count(&mut self, done: Result<(), DiskFailed>) -> Result<(), DiskFailed>
        requires early { self.old.calls < last_moment }
        requires fit { self.old.failures ≤ self.old.calls }
        ensures calls { self.new.calls ≡ self.old.calls + 1 }
        ensures fine { OnOk result (self.new.failures ≡ self.old.failures) }
        ensures fails { OnErr result (self.new.failures ≡ self.old.failures + 1) }
        ensures same { result ≡ done }
    {
        match done {
            Ok(()) => {
                self.pass();
                Ok(())
            }
            Err(_) => Err(self.fail()),
        }
    }
}
