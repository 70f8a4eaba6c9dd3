//! Gates and jobs that see the workers run beside one another, and that no lock is held meanwhile.

use crate::asserts::{done, holds_at};
use crate::crew_stores::{assert_tasks, book_of};
use crate::crews::{Fixed, NightEnd, night, plain_night};
use run_crew::{Gate, Job, Turn};
use run_disk::RunDisk;
use run_model::{Name, TaskInfo, Text};
use std::alloc::Global;
use std::process::Abort;
use std::sync::Arc;
use std::sync::atomic::{AtomicBool, Ordering};
use std::thread;
use std::time::{Clock, Duration};
use test_fixtures::Going;

/// Looks at a flag until it is set, 10,000 times at most, a millisecond apart.
pub fn is_set_in_time(clock: &impl Clock, flag: &AtomicBool) -> bool {
    for _ in 0..10_000 {
        if flag.load(Ordering::SeqCst) {
            return true;
        }
        thread::sleep(clock, Duration::from_millis(1));
    }
    false
}

/// Lets task 0 begin once task 1 was finished.
#[derive(Drop)]
struct Second<C: Clock + Drop> {
    clock: C,
    finished: AtomicBool,
}

impl<C: Clock + Drop> Gate for Second<C> {
    fn before(&self, task: u16, turn: u32) -> bool {
        task != 0 || turn != 0 || is_set_in_time(&self.clock, &self.finished)
    }

    fn finished(&self, task: u16) {
        if task == 1 {
            self.finished.store(true, Ordering::SeqCst);
        }
    }
}

fn assert_two<D: RunDisk>(rt: &impl Abort, night: &NightEnd<D>) {
    holds_at(rt, night.audited == Ok(()), "audit", 2);
    holds_at(rt, night.settled == (2, 2), "counts", 2);
    assert_tasks(rt, night.book.state(), &[Going::Success, Going::Success]);
}

#[test]
fn two_tasks_overlap(rt: HostRuntime) {
    let gate = Second {
        clock: rt,
        finished: AtomicBool::new(false),
    };
    let book = book_of(&rt, rt.alloc(), &[(b"copy", b"a"), (b"copy", b"b")]);
    let night = plain_night(&rt, rt.alloc(), book, 2, &gate);
    assert_two(&rt, &night);
    drop(night);
}

/// In a turn of `set` it sets the flag. In one of `look` it looks at it, and fails where it isn't
/// set in time, as where no other turn can be made beside this one.
#[derive(Drop)]
struct Flag<C: Clock + Drop> {
    clock: C,
    flag: Arc<AtomicBool>,
}

impl<C: Clock + Drop> Job for Flag<C> {
    fn handles(&self, _job: &Name) -> bool {
        true
    }

    fn turn(&mut self, info: &TaskInfo, _turn: u32, _done: bool) -> Turn {
        if info.argument.as_bytes() == b"set".as_slice() {
            self.flag.store(true, Ordering::SeqCst);
            return Turn::Finished;
        }
        if is_set_in_time(&self.clock, &self.flag) {
            return Turn::Finished;
        }
        Text::read(b"alone").map_or(Turn::More, |error| Turn::Failed(error))
    }
}

/// The jobs of two workers over one flag.
fn flags(rt: &impl Abort, alloc: Global, clock: HostRuntime) -> Vec<Vec<Box<dyn Job + Send>>> {
    let flag = done(rt, Arc::new(alloc, AtomicBool::new(false)), "memory");
    let mut jobs: Vec<Vec<Box<dyn Job + Send>>> = Vec::new(alloc);
    for _ in 0..2 {
        let job = Flag {
            clock,
            flag: done(rt, Arc::try_clone(&flag), "count"),
        };
        let job = done(rt, Box::new(alloc, job), "memory");
        let mut list: Vec<Box<dyn Job + Send>> = Vec::new(alloc);
        done(rt, list.push(job), "memory");
        done(rt, jobs.push(list), "memory");
    }
    jobs
}

#[test]
fn two_turns_overlap(rt: HostRuntime) {
    let book = book_of(&rt, rt.alloc(), &[(b"flag", b"look"), (b"flag", b"set")]);
    let night = night(
        &rt,
        rt.alloc(),
        book,
        flags(&rt, rt.alloc(), rt),
        &Fixed(true),
    );
    assert_two(&rt, &night);
    drop(night);
}
