//! A crew: worker threads run the ready tasks of a store, and an audit of their work is printed.

ghost use Rattle.std.specs.Prelude.{◌≡◌, ◌+◌, ◌++◌, ◌<◌, ◌≤◌, length, vec_len, MatchResult};
ghost use Rattle.arrayvec.specs.ArrayVec.{array_vec_len};
ghost use Rattle.run_model.specs.declared.faults.Fault.TheVariants.{Memory};
ghost use Rattle.run_model.specs.Session.{begun_at};
ghost use Rattle.run_crew.specs.Nights.{AreShifts, OfDesk};
ghost use Rattle.run_crew.specs.Openings.{Carries};
ghost use Rattle.console_lines.specs.Appended.{Appended};
ghost use Rattle.run_crew.specs.Crews.{CrewEnds, IsReported, IsWorked, WasLeft, audit_line};
ghost use Rattle.run_crew.specs.Crews.{flush_line, numbers_line, of_device, result_of};

use crate::audits::{Strayed, audit};
use crate::desks::Desk;
use crate::jobs::{Gate, Job};
use crate::nights::run_shifts;
use crate::openings::Opening;
use console_lines::{LineReply, OutputBuffer, RunFault, push, push_number, write_out};
use run_book::Book;
use run_disk::RunDisk;
use run_model::{Fault, Trouble};
use std::alloc::Global;
use std::io::Write;
use std::marker::Brand;
use std::sync::ledger::{Blank, Ledger};
use std::sync::{Mutex, Wait};
use std::thread::Threads;

/// Opens the store on a disk, and runs its ready tasks with one thread for each list of jobs, as
/// [`run_night`](crate::run_night) does. Then it prints the audit: `audit ok; starts S; finishes F`
/// with the numbers of starts and finishes since the opening, or `audit strayed; worker W; note K`.
/// Last it prints `acked N`, where N is the number of all events, which are durable by then.
/// Returns whether the audit found no difference.
///
/// The fault is `Memory` if memory or the start of a thread was refused, and `Store` if the opening
/// failed; nothing is printed then. If the last flush fails, only the line of the audit is printed,
/// and the fault is `Store`: `DiskFailed`, also if the book broke earlier. The fault is `Output` if
/// not everything could be printed.
///
/// The disk is dropped. [`crew_over`] returns it, so its contract also says what is left on the
/// disk.
pub fn crew<D: RunDisk + Drop + Send, G: Gate + Sync, R: Threads + Wait + Sync, W: Write>(
    rt: &R,
    alloc: Global,
    disk: D,
    jobs: Vec<Vec<Box<dyn Job + Send>>>,
    gate: &G,
    output: &mut W,
) -> Result<bool, RunFault>
    ensures { (left : D) × CrewEnds D.state (λ known lists starts.
        AreShifts (OfDesk D.state known (G.lets gate.now) (G.reported gate.now))
        ⟦<Box<dyn Job + Send> as Job>⟧.answers ⟦<Box<dyn Job + Send> as Job>⟧.turns
        (λ list. list.items) jobs.items lists starts)
        disk (vec_len jobs) result left (W.contents output.old) (W.contents output.new) }
{
    let (done, _) = crew_over(rt, alloc, disk, jobs, gate, output);
    done
}

/// Does the same as [`crew`], and returns the disk. Whatever the result is, a crash at any moment
/// since the call began leaves the state that was stored, or the state after a restart and a prefix
/// of the crew's starts and finishes. After `acked N` was printed, a crash leaves all N events.
pub fn crew_over<D: RunDisk + Drop + Send, G: Gate + Sync, R: Threads + Wait + Sync, W: Write>(
    rt: &R,
    alloc: Global,
    disk: D,
    jobs: Vec<Vec<Box<dyn Job + Send>>>,
    gate: &G,
    output: &mut W,
) -> (Result<bool, RunFault>, D)
    ensures { CrewEnds D.state (λ known lists starts.
        AreShifts (OfDesk D.state known (G.lets gate.now) (G.reported gate.now))
        ⟦<Box<dyn Job + Send> as Job>⟧.answers ⟦<Box<dyn Job + Send> as Job>⟧.turns
        (λ list. list.items) jobs.items lists starts)
        disk (vec_len jobs) result.0 result.1 (W.contents output.old) (W.contents output.new) }
{
    let book = match Book::open(alloc, disk) {
        Ok(book) => book,
        Err((fault, disk)) => return (Err(RunFault::from(fault)), disk),
    };
    let parts = jobs.len() as u64 + 1;
    let starts = Blank::new(parts);
    let finishes = Blank::new(parts);
    // that the book carries on from itself
    let _durable = book.durable();
    let (report, disk) = work::<D, Brand, Brand, Brand, G, R>(
        rt, alloc, book, jobs, gate, starts, finishes,
    );
    match report {
        Ok(report) => (print_report(&report, output), disk),
        Err(fault) => (Err(RunFault::from(fault)), disk),
    }
}

/// The result of a crew, which is printed.
#[derive(Clone, Copy)]
struct CrewReport {
    audited: Result<(), Strayed>,
    starts: u64,
    finishes: u64,
    flushed: Result<u64, Trouble>,
}

/// Runs the crew over a book that was just opened, for any two ledgers, and for any facts that are
/// known about the book. Returns the disk.
fn work<
    D: RunDisk + Drop + Send,
    S: Ledger + Send + Sync,
    F: Ledger + Send + Sync,
    O: Opening + Send + Sync,
    G: Gate + Sync,
    R: Threads + Wait + Sync,
>(
    rt: &R,
    alloc: Global,
    book: Book<D>,
    jobs: Vec<Vec<Box<dyn Job + Send>>>,
    gate: &G,
    starts: Blank,
    finishes: Blank,
) -> (Result<CrewReport, Fault>, D)
    requires starts { (starts.name ≡ S.name) × (starts.parts ≡ S.parts)
        × (vec_len jobs < S.parts) }
    requires finishes { (finishes.name ≡ F.name) × (finishes.parts ≡ F.parts)
        × (vec_len jobs < F.parts) }
    requires begun { book.session ≡ begun_at book.session.start }
    requires carries { Carries O.opening D.state book }
    ensures worked { MatchResult result.0 (λ report. IsWorked D.state O.opening
        (AreShifts (OfDesk D.state O.opening (G.lets gate.now) (G.reported gate.now))
        ⟦<Box<dyn Job + Send> as Job>⟧.answers ⟦<Box<dyn Job + Send> as Job>⟧.turns
        (λ list. list.items) jobs.items) (vec_len jobs) report.audited
        report.starts report.finishes report.flushed result.1) (λ fault. fault ≡ Memory) }
    ensures left { WasLeft D.state O.opening result.1 }
{
    let (desk, mut own) = Desk::<D, S, F, O>::new(book, starts, finishes);
    let shared = Mutex::new(desk);
    let lists = run_shifts(rt, alloc, &shared, &mut own, jobs, gate);
    let mut desk = shared.into_inner();
    let flushed = desk.flush();
    let lists = match lists {
        Ok(lists) => lists,
        Err(fault) => return (Err(fault), desk.into_book().into_disk()),
    };
    let _book = desk.book();
    let audited = audit(&desk, lists.as_slice());
    let (starts, finishes) = desk.settle(&mut own);
    let report = CrewReport {
        audited,
        starts,
        finishes,
        flushed,
    };
    let disk = desk.into_book().into_disk();
    (Ok(report), disk)
}

/// Prints the report. It takes no memory.
fn print_report<W: Write>(report: &CrewReport, output: &mut W) -> Result<bool, RunFault>
    ensures { IsReported report.now.audited report.now.starts report.now.finishes report.now.flushed
        result (W.contents output.old) (W.contents output.new) }
{
    let mut buffer = OutputBuffer::new();
    append_report(report, &mut buffer);
    write_out(&mut buffer, output)?;
    result_of(report)
}

/// Returns the result of a crew whose report was printed in full.
fn result_of(report: &CrewReport) -> Result<bool, RunFault>
    ensures { result ≡ result_of report.now.audited report.now.flushed }
{
    match report.flushed {
        Ok(_) => Ok(report.audited.is_ok()),
        Err(trouble) => Err(RunFault::Store(of_device(trouble))),
    }
}

/// Returns the trouble of a flush for a caller who hasn't seen earlier troubles: `Broken` is
/// reported as the device failure that broke the book.
fn of_device(trouble: Trouble) -> Trouble
    ensures { result ≡ of_device trouble }
{
    match trouble {
        Trouble::Refused(_) => Trouble::Faulty(Fault::DiskFailed),
        Trouble::Faulty(_) => trouble,
    }
}

/// Appends the line of the audit and, if the last flush succeeded, the number of durable events.
fn append_report(report: &CrewReport, buffer: &mut OutputBuffer)
    requires { array_vec_len buffer.old + 1024 ≤ 8192 }
    ensures { buffer.new.items ≡ buffer.old.items ++ (audit_line report.now.audited
        report.now.starts report.now.finishes ++ flush_line report.now.flushed) }
{
    append_audit(report, buffer);
    if let Ok(count) = report.flushed {
        LineReply::Step(run_model::Reply::Acked(count)).append(buffer);
    }
}

/// Appends the line of the audit.
fn append_audit(report: &CrewReport, buffer: &mut OutputBuffer)
    requires { array_vec_len buffer.old + 128 ≤ 8192 }
    ensures { Appended buffer.old.items buffer.new.items
        (audit_line report.now.audited report.now.starts report.now.finishes) 128 }
{
    match report.audited {
        Ok(()) => append_numbers(
            buffer,
            b"audit ok; starts ",
            report.starts,
            b"; finishes ",
            report.finishes,
        ),
        Err(strayed) => append_numbers(
            buffer,
            b"audit strayed; worker ",
            strayed.worker as u64,
            b"; note ",
            strayed.note as u64,
        ),
    }
}

/// Appends a line of two numbers, each after its words.
fn append_numbers(buffer: &mut OutputBuffer, before: &[u8], one: u64, between: &[u8], other: u64)
    requires room { array_vec_len buffer.old + 128 ≤ 8192 }
    requires few { length before.now + length between.now ≤ 40 }
    ensures { Appended buffer.old.items buffer.new.items
        (numbers_line before.now one between.now other) 128 }
{
    push_number(buffer, before, one);
    push_number(buffer, between, other);
    push(buffer, b"\n");
}
