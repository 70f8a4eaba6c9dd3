//! The flusher waits at a [`FlushSignal`]. Workers wake it, and the signal is closed at the end.

ghost use Rattle.std.specs.Prelude.{◌<◌, IfSome};

use std::sync::{Condvar, Mutex, Wait};

/// The last event for which the flusher was woken, and whether the signal is closed.
#[derive(Drop)]
struct Marks {
    event: u64,
    closed: bool,
}

/// The signal at which the flusher waits.
#[derive(Drop)]
pub struct FlushSignal {
    marks: Mutex<Marks>,
    moved: Condvar,
}

impl FlushSignal {
    /// Returns a signal that hasn't been given yet.
    pub fn new() -> FlushSignal {
        let marks = Marks {
            event: 0,
            closed: false,
        };
        FlushSignal {
            marks: Mutex::new(marks),
            moved: Condvar::new(),
        }
    }

    /// Wakes the flusher for an event. Workers may wake it in another order than that of their
    /// events.
    pub fn wake<R: Wait>(&self, rt: &R, event: u64) {
        let mut marks = self.marks.lock(rt);
        marks.event = marks.event.max(event);
        self.moved.notify_all();
    }

    /// Wakes the flusher for the last time.
    pub fn close<R: Wait>(&self, rt: &R) {
        let mut marks = self.marks.lock(rt);
        marks.closed = true;
        self.moved.notify_all();
    }

    /// Waits until the flusher was woken for a later event than `heard`, and returns that event;
    /// `None` if the signal is closed. The signal remembers each call, so none is missed.
    pub fn wait<R: Wait>(&self, rt: &R, heard: u64) -> Option<u64>
        ensures later { IfSome result (λ event. heard < event) }
    {
        let mut marks = self.marks.lock(rt);
        for _ in rt.forever() {
            if marks.closed {
                return None;
            }
            if marks.event > heard {
                return Some(marks.event);
            }
            marks = self.moved.wait(rt, marks);
        }
        unreachable!()
    }
}
