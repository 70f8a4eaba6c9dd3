//! [`Arrivals`] are the threads that are on their way to the lock to start, finish or flush, and
//! those that sleep until another thread has flushed.

use crate::arrival_counts::ArrivalCounts;
use std::sync::{Condvar, Mutex, MutexGuard, Wait};

/// The threads on their way to the lock of the book, and those that sleep. Their counts have a lock
/// of their own. A thread calls `come` before it takes the lock of the book. It makes all other
/// calls while it holds that lock, so that none goes to sleep after the last call that would wake
/// it. No thread waits for anything else while it holds the lock of the counts.
#[derive(Drop)]
pub struct Arrivals {
    counts: Mutex<ArrivalCounts>,
    moved: Condvar,
}

impl Arrivals {
    /// No thread has come yet.
    pub fn new() -> Arrivals {
        Arrivals {
            counts: Mutex::new(ArrivalCounts::new()),
            moved: Condvar::new(),
        }
    }

    /// A thread sets out for the lock.
    pub fn come<R: Wait>(&self, rt: &R) {
        self.counts.lock(rt).come();
    }

    /// A thread leaves. If it was the last one on the way, a thread that sleeps is woken, to flush.
    pub fn go<R: Wait>(&self, rt: &R) {
        if self.counts.lock(rt).go() {
            self.moved.notify_one();
        }
    }

    /// Returns whether no other thread is on its way.
    pub fn is_last<R: Wait>(&self, rt: &R) -> bool {
        self.counts.lock(rt).is_last()
    }

    /// Releases the lock of the book, and sleeps until a flush was made or no thread is on its way
    /// any more. It may also wake for no reason.
    pub fn sleep<'a, T, R: Wait>(&self, rt: &R, guard: MutexGuard<'a, T>) -> MutexGuard<'a, T> {
        let flushes = self.counts.lock(rt).sleep();
        let guard = self.moved.wait(rt, guard);
        self.counts.lock(rt).wake(flushes);
        guard
    }

    /// The thread that holds the lock of the book has flushed. All sleeping threads count as on
    /// their way from now on, even before they wake. So the next flush includes what they start.
    pub fn wake<T, R: Wait>(&self, rt: &R, _held: &MutexGuard<'_, T>) {
        self.counts.lock(rt).save();
        self.moved.notify_all();
    }
}
