//! A journal over a disk that forgets what a failed sync was to write: what the next program reads,
//! and what a power failure leaves after each of its calls.
//!
//! No contract speaks of such a disk, which isn't honest. A copy of what reads give is at rest, so
//! `Flushed` and `Checkpointed` say what a power failure leaves of it.

use crate::asserts::{done, holds};
use crate::bytes::{disk_of, now};
use crate::pairs::{
    AS_FORMATTED, AS_OPENED, BOTH_BATCHES, CHECKPOINTED, Call, FIRST, FORMATTED, ONE_BATCH, OPENED,
    Pair, SECOND, called, formatted, is_grown, recovered,
};
use run_disk::{Fuse, RunDisk, Torn};
use run_journal::{Journal, Stored};
use run_model::{Fault, Layout};
use std::alloc::Global;
use std::process::Abort;
use test_fixtures::{ForgetfulSync, Settling};

/// The first program, over a new store. Syncs 1 to 3 are those of its first checkpoint; each flush
/// has two, and the last checkpoint three.
static BEFORE: [Call; 4] = [
    Call::Checkpoint(&OPENED),
    Call::Flush(&FIRST),
    Call::Flush(&SECOND),
    Call::Checkpoint(&FORMATTED),
];

/// A sync of the first program that fails, how many of its calls are acknowledged by then, the pair
/// that they made, and the one that reads give.
type Failure = (u64, usize, &'static Pair<'static>, &'static Pair<'static>);

/// Where the sync is that of a gate, the gate is read open.
static FAILURES: [Failure; 10] = [
    (1, 0, &AS_FORMATTED, &AS_FORMATTED),
    (2, 0, &AS_FORMATTED, &AS_FORMATTED),
    (3, 0, &AS_FORMATTED, &AS_OPENED),
    (4, 1, &AS_OPENED, &AS_OPENED),
    (5, 1, &AS_OPENED, &ONE_BATCH),
    (6, 2, &ONE_BATCH, &ONE_BATCH),
    (7, 2, &ONE_BATCH, &BOTH_BATCHES),
    (8, 3, &BOTH_BATCHES, &BOTH_BATCHES),
    (9, 3, &BOTH_BATCHES, &BOTH_BATCHES),
    (10, 3, &BOTH_BATCHES, &CHECKPOINTED),
];

/// The state with root alone, at event count 7.
const AGAIN: [u8; 23] = *b"\x01\0\0\0\0\0\0\0\0\0\0\0\0\0\0\0\x07\0\0\0\0\0\0";

/// `derive e root cancel`, of 13 bytes with its gate and its length.
const THIRD: [u8; 8] = *b"\x01\x00\x05\x01e\x00\x00\x01";

/// The next program: two calls, and after how many calls of its disk each is acknowledged. There
/// are three reads before, seven calls in a checkpoint and six in a flush.
type Next = (&'static [Call], [u64; 2]);

static BY_CHECKPOINT: Next = (&[Call::Checkpoint(&AGAIN), Call::Flush(&THIRD)], [10, 16]);

static BY_FLUSH: Next = (&[Call::Flush(&THIRD), Call::Checkpoint(&AGAIN)], [9, 16]);

/// Makes calls until one fails, if the store can be read, and says how many were acknowledged.
fn run_on<D: RunDisk>(rt: &impl Abort, alloc: Global, mut disk: D, calls: &[Call]) -> (D, usize) {
    let Ok(stored) = Journal::recover(alloc, &mut disk) else {
        return (disk, 0);
    };
    let mut journal = Journal::adopt(disk, &stored);
    let mut acknowledged = 0usize;
    for call in calls.iter() {
        if !journal.is_broken() && called(rt, &mut journal, *call).is_ok() {
            acknowledged = acknowledged.saturating_add(1);
        }
    }
    (journal.into_disk(), acknowledged)
}

/// A disk that holds a new store, and whose sync of this number fails.
fn forgetful(rt: &impl Abort, alloc: Global, sync: u64) -> ForgetfulSync {
    let store = formatted(rt, alloc, Layout::Small, 0);
    let bytes = now(rt, alloc, &store, Torn::Keep);
    done(rt, ForgetfulSync::new(alloc, bytes, sync), "memory")
}

/// The disk of the first program, one of whose syncs has failed.
fn failed(rt: &impl Abort, alloc: Global, failure: &Failure) -> ForgetfulSync {
    let disk = forgetful(rt, alloc, failure.0);
    let (disk, acknowledged) = run_on(rt, alloc, disk, &BEFORE);
    let is_so = disk.has_failed() && acknowledged == failure.1;
    holds(rt, is_so, "failed sync", failure.0);
    disk
}

/// What a store on a disk with these bytes holds, or its fault.
fn stored_in(rt: &impl Abort, alloc: Global, bytes: &[u8]) -> Result<Stored, Fault> {
    let bytes = done(rt, Vec::from_slice(alloc, bytes), "memory");
    recovered(alloc, &mut disk_of(rt, alloc, bytes))
}

/// Says whether a disk with these bytes holds this pair, and this batch after its own, if any.
fn has_pair(
    rt: &impl Abort,
    alloc: Global,
    bytes: &[u8],
    pair: &Pair,
    added: Option<&[u8]>,
) -> bool {
    match stored_in(rt, alloc, bytes) {
        Ok(stored) => is_grown(&stored, pair, added),
        Err(_) => false,
    }
}

#[test]
fn a_failed_sync_leaves_what_was_acknowledged(rt: HostRuntime) {
    for failure in FAILURES.iter() {
        let disk = failed(&rt, rt.alloc(), failure);
        let is_left = has_pair(&rt, rt.alloc(), disk.device(), failure.2, None);
        let is_read = has_pair(&rt, rt.alloc(), disk.memory(), failure.3, None);
        holds(&rt, is_left && is_read, "failed sync", failure.0);
    }
}

/// What a power failure leaves after so many calls of the next program, over the disk as it is
/// settled in this way.
fn cut(
    rt: &impl Abort,
    alloc: Global,
    failure: &Failure,
    how: Settling,
    next: &Next,
    calls: u64,
) -> ForgetfulSync {
    let disk = failed(rt, alloc, failure).settled(alloc, how);
    let disk = Fuse::new(done(rt, disk, "settled disk"), calls);
    let (disk, acknowledged) = run_on(rt, alloc, disk, next.0);
    let is_so = acknowledged == acknowledged_after(next, calls);
    holds(rt, is_so, "acknowledged after call", calls);
    disk.into_inner()
}

/// How many calls of the next program are acknowledged after so many of its disk.
fn acknowledged_after(next: &Next, calls: u64) -> usize {
    let first = if calls >= next.1[0] { 1 } else { 0 };
    if calls >= next.1[1] { 2 } else { first }
}

/// The pair that a checkpoint puts in place of another.
fn next_pair(pair: &Pair) -> Pair<'static> {
    Pair {
        numbers: (pair.numbers.0.saturating_add(1), 0),
        image: &AGAIN,
        batches: &[],
    }
}

/// The pair with the third batch.
fn with_third<'a>(pair: &Pair<'a>) -> (Pair<'a>, Option<&'static [u8]>) {
    let mut grown = *pair;
    grown.numbers.1 = grown.numbers.1.saturating_add(13);
    (grown, Some(&THIRD))
}

/// The pair that the first calls of the next program make of one, and the batch after it.
fn made_of(
    pair: &'static Pair<'static>,
    next: &Next,
    acknowledged: usize,
) -> (Pair<'static>, Option<&'static [u8]>) {
    let is_flushed = matches!(next.0.first(), Some(Call::Flush(_)));
    match (acknowledged, is_flushed) {
        (0, _) => (*pair, None),
        (1, true) => with_third(pair),
        (1, false) | (_, true) => (next_pair(pair), None),
        _ => with_third(&next_pair(pair)),
    }
}

/// Asserts that a power failure after each call of the next program leaves what reads gave before
/// and what is acknowledged since, where a copy took the place of the disk.
fn assert_copied(rt: &impl Abort, alloc: Global, failure: &Failure, next: &Next) {
    for calls in 0..17 {
        let disk = cut(rt, alloc, failure, Settling::Copy, next, calls);
        let acknowledged = acknowledged_after(next, calls);
        let (pair, added) = made_of(failure.3, next, acknowledged);
        let is_left = has_pair(rt, alloc, disk.device(), &pair, added);
        assert!(rt;
            is_left,
            "sync {}, then a cut after call {calls}",
            failure.0
        );
    }
}

#[test]
fn a_copy_loses_nothing(rt: HostRuntime) {
    for failure in FAILURES.iter() {
        assert_copied(&rt, rt.alloc(), failure, &BY_CHECKPOINT);
        assert_copied(&rt, rt.alloc(), failure, &BY_FLUSH);
    }
}

/// A sync that fails, from which call of the next program on to which one a power failure loses
/// what was acknowledged, and the generation and the tail of what it leaves, or its fault.
type Loss = (u64, u64, u64, Result<(u64, u64), Fault>);

/// The checkpoint closes the only gate that is open on the device, until it opens the other.
static LOST_BY_CHECKPOINT: [Loss; 2] = [
    (3, 5, 9, Err(Fault::NotAStore)),
    (10, 5, 9, Err(Fault::NotAStore)),
];

/// The batch is laid in the segment of a slot, or after a batch, whose gate is closed on the
/// device.
static LOST_BY_FLUSH: [Loss; 6] = [
    (3, 9, 10, Ok((0, 0))),
    (3, 11, 15, Err(Fault::NotAStore)),
    (5, 9, 15, Ok((1, 0))),
    (7, 9, 15, Ok((1, 31))),
    (10, 9, 10, Ok((1, 52))),
    (10, 11, 15, Err(Fault::NotAStore)),
];

/// What a loss leaves, if there is one after so many calls.
fn lost(losses: &[Loss], sync: u64, calls: u64) -> Option<Result<(u64, u64), Fault>> {
    for loss in losses.iter() {
        if loss.0 == sync && loss.1 <= calls && calls <= loss.2 {
            return Some(loss.3);
        }
    }
    None
}

/// The generation and the tail of what a disk with these bytes holds, or its fault.
fn numbers_in(rt: &impl Abort, alloc: Global, bytes: &[u8]) -> Result<(u64, u64), Fault> {
    match stored_in(rt, alloc, bytes) {
        Ok(stored) => Ok((stored.generation(), stored.tail())),
        Err(fault) => Err(fault),
    }
}

/// Says whether what was found is no older than what has these numbers.
fn is_kept(found: Result<(u64, u64), Fault>, numbers: (u64, u64)) -> bool {
    match found {
        Ok((generation, tail)) => {
            generation > numbers.0 || (generation == numbers.0 && tail >= numbers.1)
        }
        Err(_) => false,
    }
}

/// Asserts what a power failure after each call of the next program leaves, where the disk was
/// only synced before.
fn assert_synced(rt: &impl Abort, alloc: Global, failure: &Failure, next: &Next, losses: &[Loss]) {
    for calls in 0..17 {
        let disk = cut(rt, alloc, failure, Settling::Sync, next, calls);
        let acknowledged = acknowledged_after(next, calls);
        let by = if acknowledged == 0 {
            failure.2
        } else {
            failure.3
        };
        let found = numbers_in(rt, alloc, disk.device());
        let is_left = is_kept(found, made_of(by, next, acknowledged).0.numbers);
        let is_so = match lost(losses, failure.0, calls) {
            Some(wanted) => !is_left && found == wanted,
            None => is_left,
        };
        assert!(rt;
            is_so,
            "sync {}, then a cut after call {calls}: {found:?}",
            failure.0
        );
    }
}

#[test]
fn a_sync_after_a_failed_one_loses_what_is_named(rt: HostRuntime) {
    for failure in FAILURES.iter() {
        assert_synced(
            &rt,
            rt.alloc(),
            failure,
            &BY_CHECKPOINT,
            &LOST_BY_CHECKPOINT,
        );
        assert_synced(&rt, rt.alloc(), failure, &BY_FLUSH, &LOST_BY_FLUSH);
    }
}
