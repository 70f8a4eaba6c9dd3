//! The memory of a renewal: how much it takes, and that all is given back.
//!
//! This rests on `Renews`, the contract of `renew`: what it tells, and how many calls it makes of
//! both disks. How much memory is taken and that it is given back no clause says.

use crate::asserts::{done, holds};
use crate::books::calls::{add, name, step};
use crate::books::disks::{AMPLE, formatted, heap, play};
use crate::books::rooms::bytes_of_state;
use book_renewal::renew;
use linked_list_allocator::LocalHeap;
use run_book::{Book, MigrateFault, State};
use run_disk::MemoryDisk;
use run_model::{Command, Fault, Layout, Step};
use state_renewal::Renewal;
use std::alloc::Global;
use std::process::Abort;
use test_fixtures::Call::{Bare, Flush};

/// What a renewal tells: its fault, if it has one, and how many calls both disks count.
type Reported = (Option<MigrateFault>, u64, u64);

/// What a renewal to a disk of zeros tells whose memory is taken of a heap.
fn reported(
    rt: &impl Abort,
    alloc: Global,
    heap: &LocalHeap,
    mut old: MemoryDisk,
    to: Layout,
) -> Reported {
    let new = done(
        rt,
        MemoryDisk::new(alloc, to.store_len() as usize),
        "memory",
    );
    let (fault, new) = match renew(heap, &mut old, new) {
        Ok(new) => (None, new),
        Err((fault, new)) => (Some(fault), new),
    };
    (fault, old.calls(), new.calls())
}

/// The layouts of the old store and of the new one, and what is taken beside the state: the room of
/// an image of the new one; and both slots' buffers and the segment's of the old one. A heap gives
/// whole units of 16 bytes.
static BESIDE_STATE: [(Layout, Layout, usize, usize); 3] = [
    (Layout::Small, Layout::Small, 488_176, 1_310_720),
    (Layout::Small, Layout::Large, 1_913_584, 1_310_720),
    (Layout::Large, Layout::Small, 488_176, 5_242_880),
];

/// Asserts what a renewal over so many bytes of memory tells, and that they are given back.
fn assert_reported(
    rt: &impl Abort,
    alloc: Global,
    bytes: usize,
    layouts: (Layout, Layout),
    wanted: Reported,
) {
    let heap = heap(rt, alloc, bytes);
    let old = formatted(rt, alloc, layouts.0);
    let reported = reported(rt, alloc, &heap, old, layouts.1);
    holds(rt, reported == wanted, "with bytes", bytes as u64);
    holds(rt, heap.used() == 0, "given back of bytes", bytes as u64);
}

/// How many bytes a renewal takes.
fn bytes_of(rt: &impl Abort, alloc: Global, row: &(Layout, Layout, usize, usize)) -> usize {
    let state = bytes_of_state(rt, alloc, row.0);
    state.saturating_add(row.2).saturating_add(row.3)
}

// Eight of the old disk's calls are its format's.
#[test]
fn a_renewal_takes_so_much_memory(rt: HostRuntime) {
    for row in BESIDE_STATE.iter() {
        let bytes = bytes_of(&rt, rt.alloc(), row);
        let layouts = (row.0, row.1);
        assert_reported(&rt, rt.alloc(), bytes, layouts, (None, 11, 8));
        let wanting = (Some(MigrateFault::Memory), 8, 0);
        assert_reported(&rt, rt.alloc(), bytes.saturating_sub(16), layouts, wanting);
    }
}

/// A large store of one group, with a task more than a small one has room for.
fn crowded(rt: &impl Abort, alloc: Global) -> MemoryDisk {
    let mut steps = Vec::new(alloc);
    add(rt, &mut steps, step(rt, Bare(b"g", b"root")));
    for _ in 0..2_049 {
        let go = Command::Go {
            group: name(rt, b"g"),
            job: name(rt, b"copy"),
            argument: name(rt, b"a"),
        };
        add(rt, &mut steps, Step::Command(go));
    }
    add(rt, &mut steps, step(rt, Flush));
    play(rt, alloc, formatted(rt, alloc, Layout::Large), &steps).0
}

/// Asserts that the marks of a state take so many bytes of a heap, and none where it has fewer.
fn assert_marks(rt: &impl Abort, alloc: Global, state: &State, bytes: usize) {
    for units in 0..bytes / 16 {
        let heap = heap(rt, alloc, units.saturating_mul(16));
        let reported = (Renewal::new(&heap, state).err(), heap.used());
        holds(
            rt,
            reported == (Some(Fault::Memory), 0),
            "units",
            units as u64,
        );
    }
    let heap = heap(rt, alloc, bytes);
    let _marks = done(rt, Renewal::new(&heap, state), "marks");
    holds(rt, heap.used() == bytes, "bytes of marks", bytes as u64);
}

// Each row has a flag of one byte and a new number of two, and after each kind's numbers stands how
// many there are: 16, 16 and 2,064 bytes, and 16, 16 and 4,112.
#[test]
fn marks_take_so_much_memory(rt: HostRuntime) {
    let mut disk = crowded(&rt, rt.alloc());
    let state = done(&rt, Book::recover(rt.alloc(), &mut disk), "store");
    assert_marks(&rt, rt.alloc(), &state, 6_240);
    drop(state);
}

// Of the old disk's calls 24 are those of its format, its opening and its flush.
#[test]
fn a_renewal_without_room_leaves_no_memory_in_use(rt: HostRuntime) {
    let heap = heap(&rt, rt.alloc(), AMPLE);
    let old = crowded(&rt, rt.alloc());
    let reported = reported(&rt, rt.alloc(), &heap, old, Layout::Small);
    let wanted = (Some(MigrateFault::New(Fault::WrongSize)), 27, 0);
    holds(&rt, reported == wanted, "calls", reported.1);
    holds(&rt, heap.used() == 0, "bytes left", heap.used() as u64);
}
