//! A [`ForgetfulSync`] is a disk in memory that behaves as a file of Linux does: it forgets what a
//! sync that failed was to write.

ghost use Rattle.std.specs.Prelude.{◌≡◌, ◌<◌, ◌≤◌, ◌+◌, OnOk, OnErr};
ghost use Rattle.std.specs.Bool.{OnFalse, OnTrue};
ghost use Rattle.run_disk.specs.Disk.{last_moment};
ghost use Rattle.run_disk.specs.Files.{IsFileDisk, file_state, is_file_disk};

use run_disk::{DiskFailed, RunDisk};
use run_model::Fault;
use std::alloc::Global;

/// How a disk is settled before it is opened again, if a sync of it has failed.
#[derive(Clone, Copy, Debug, PartialEq, Eq)]
pub enum Settling {
    /// By a sync, as if none had failed.
    Sync,
    /// By a copy of what reads give, which takes its place.
    Copy,
}

/// Each byte stands in the system's memory, where it is read and written, and on the device, which
/// is what a power failure leaves. A write makes its range dirty, and a sync writes the dirty
/// ranges to the device. One sync fails: it writes none of them, and takes them all for written. So
/// reads still give what no later sync writes, and what a power failure takes.
///
/// As of a disk over a file only the size and the counts are claimed of it.
#[derive(Drop)]
pub struct ForgetfulSync {
    memory: Vec<u8>,
    device: Vec<u8>,
    // where each dirty range begins, and where it ends
    dirty: Vec<(usize, usize)>,
    // how many syncs are left up to the one that fails; 0 after it
    left: u64,
    has_failed: bool,
    size: u64,
    counts: Counts,
    ghost kept: { IsFileDisk size counts.calls counts.failures },
}

impl ForgetfulSync {
    /// A disk whose memory and device have these bytes. The sync of this number fails, counted from
    /// 1; number 0 is no sync's.
    pub fn new(alloc: Global, bytes: Vec<u8>, sync: u64) -> Result<ForgetfulSync, Fault> {
        let Ok(device) = Vec::from_slice(alloc, &bytes) else {
            return Err(Fault::Memory);
        };
        Ok(ForgetfulSync {
            size: bytes.len() as u64,
            memory: bytes,
            device,
            dirty: Vec::new(alloc),
            left: sync,
            has_failed: false,
            counts: Counts {
                calls: 0,
                failures: 0,
            },
        })
    }

    /// What reads give.
    pub fn memory(&self) -> &[u8] {
        &self.memory
    }

    /// What a power failure leaves, if the system has written nothing that no sync asked for.
    pub fn device(&self) -> &[u8] {
        &self.device
    }

    /// Says whether the sync that was to fail has failed.
    pub fn has_failed(&self) -> bool {
        self.has_failed
    }

    /// The disk, settled for its next opening; none of its syncs fails any more. If its sync has
    /// failed, it is settled in this way, and else by a sync.
    pub fn settled(self, alloc: Global, how: Settling) -> Result<ForgetfulSync, Fault> {
        let mut disk = self;
        disk.left = 0;
        if disk.has_failed && how == Settling::Copy {
            return ForgetfulSync::new(alloc, disk.memory, 0);
        }
        match disk.sync() {
            Ok(()) => Ok(disk),
            Err(failed) => Err(Fault::from(failed)),
        }
    }

    /// Writes the dirty ranges to the device.
    fn write_back(&mut self)
        ensures size { self.new.size ≡ self.old.size }
        ensures counts { self.new.counts ≡ self.old.counts }
    {
        for (from, until) in self.dirty.iter() {
            copy_range(&self.memory, &mut self.device, *from, *until);
        }
    }
}

impl RunDisk for ForgetfulSync {
    ghost state = { λ d. file_state d.size d.counts.calls d.counts.failures };

    ghost is_disk = { λ d. is_file_disk d.size d.counts.calls d.counts.failures d.kept };

    fn size(&self) -> u64 {
        self.size
    }

    fn read_at(&mut self, at: u64, out: &mut [u8]) -> Result<(), DiskFailed> {
        if self.counts.are_spent() {
            return Err(DiskFailed);
        }
        let is_read = read_from(&self.memory, at as usize, out);
        self.counts.count(is_read)
    }

    fn write_at(&mut self, at: u64, bytes: &[u8]) -> Result<(), DiskFailed> {
        if self.counts.are_spent() {
            return Err(DiskFailed);
        }
        let from = at as usize;
        let is_kept = self
            .dirty
            .push((from, from.saturating_add(bytes.len())))
            .is_ok();
        let is_written = is_kept && write_to(&mut self.memory, from, bytes);
        self.counts.count(is_written)
    }

    fn sync(&mut self) -> Result<(), DiskFailed> {
        if self.counts.are_spent() {
            return Err(DiskFailed);
        }
        let fails = self.left == 1;
        self.left = self.left.saturating_sub(1);
        if fails {
            self.has_failed = true;
        } else {
            self.write_back();
        }
        self.dirty.clear();
        self.counts.count(!fails)
    }
}

/// How many calls were made, and how many of them failed.
#[derive(Drop)]
struct Counts {
    calls: u64,
    failures: u64,
}

impl Counts {
    /// Says whether no call more can be counted.
    fn are_spent(&self) -> bool
        ensures spent { OnTrue result (self.now.calls ≡ last_moment) }
        ensures early { OnFalse result (self.now.calls < last_moment) }
    {
        self.calls == u64::MAX
    }

    /// Counts a call that was done or failed, and answers it.
    fn count(&mut self, is_done: bool) -> Result<(), DiskFailed>
        requires early { self.old.calls < last_moment }
        requires fit { self.old.failures ≤ self.old.calls }
        ensures calls { self.new.calls ≡ self.old.calls + 1 }
        ensures fine { OnOk result (self.new.failures ≡ self.old.failures) }
        ensures fails { OnErr result (self.new.failures ≡ self.old.failures + 1) }
    {
        self.calls += 1;
        if is_done {
            return Ok(());
        }
        self.failures += 1;
        Err(DiskFailed)
    }
}

/// Reads these bytes from a place on, and says whether all that `out` takes are there.
fn read_from(bytes: &[u8], from: usize, out: &mut [u8]) -> bool {
    let are_there = from <= bytes.len() && out.len() <= bytes.len() - from;
    if are_there {
        out.copy_from_slice(&bytes[from..from + out.len()]);
    }
    are_there
}

/// Writes `with` over these bytes from a place on, and says whether there is room for all of it.
fn write_to(bytes: &mut [u8], from: usize, with: &[u8]) -> bool {
    let has_room = from <= bytes.len() && with.len() <= bytes.len() - from;
    if has_room {
        bytes[from..from + with.len()].copy_from_slice(with);
    }
    has_room
}

/// Copies what stands in a range to the same place of other bytes.
fn copy_range(bytes: &[u8], to: &mut [u8], from: usize, until: usize) {
    if let Some(part) = bytes.get(from..until) {
        let _ = write_to(to, from, part);
    }
}
