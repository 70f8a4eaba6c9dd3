//! [`ArrivalCounts`] are the numbers of threads on their way to the lock and of those that sleep.

ghost use Rattle.std.specs.Prelude.{◌≡◌, ◌↔◌, IsTrue};
ghost use Rattle.run_crew.specs.Arrivals.{came, left, saved, slept, woke};

/// The number of threads that are on their way to the lock or hold it, the number of those that
/// sleep until another thread has flushed, and the number of flushes so far.
#[derive(Drop)]
pub struct ArrivalCounts {
    awake: u64,
    asleep: u64,
    flushes: u64,
}

impl ArrivalCounts {
    /// Returns the counts before any thread has come.
    pub fn new() -> ArrivalCounts
        ensures awake { result.awake ≡ 0 }
        ensures asleep { result.asleep ≡ 0 }
    {
        ArrivalCounts {
            awake: 0,
            asleep: 0,
            flushes: 0,
        }
    }

    /// A thread sets out.
    pub fn come(&mut self)
        ensures { self.new ≡ came self.old }
    {
        self.awake = self.awake.saturating_add(1);
    }

    /// A thread leaves. Returns whether it was the last one on the way.
    pub fn go(&mut self) -> bool
        ensures left { self.new ≡ left self.old }
        ensures last { IsTrue result ↔ (self.old.awake ≡ 1) }
    {
        let is_last = self.is_last();
        self.awake = self.awake.saturating_sub(1);
        is_last
    }

    /// Returns whether only one thread is on its way.
    pub fn is_last(&self) -> bool
        ensures { IsTrue result ↔ (self.now.awake ≡ 1) }
    {
        self.awake == 1
    }

    /// A thread goes to sleep. Returns the number of flushes so far.
    pub fn sleep(&mut self) -> u64
        ensures slept { self.new ≡ slept self.old }
        ensures flushes { result ≡ self.old.flushes }
    {
        self.awake = self.awake.saturating_sub(1);
        self.asleep = self.asleep.saturating_add(1);
        self.flushes
    }

    /// A thread is awake again that went to sleep after this many flushes. If a flush was made
    /// since then, the thread is counted as awake already.
    pub fn wake(&mut self, flushes: u64)
        ensures { self.new ≡ woke flushes self.old }
    {
        if self.flushes == flushes {
            self.asleep = self.asleep.saturating_sub(1);
            self.awake = self.awake.saturating_add(1);
        }
    }

    /// A thread has flushed. All sleeping threads count as awake from now on.
    pub fn save(&mut self)
        ensures { self.new ≡ saved self.old }
    {
        self.awake = self.awake.saturating_add(self.asleep);
        self.asleep = 0;
        self.flushes = self.flushes.wrapping_add(1);
    }
}
