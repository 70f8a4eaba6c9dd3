//! The night is opened in a store.

ghost use Rattle.drive_runs.specs.Moving.{Moves};
ghost use Rattle.drive_runs.specs.Opens.{EndsOthers, Opens, hindered_by};
ghost use Rattle.std.specs.List.{list_all};
ghost use Rattle.std.specs.Prelude.{◌≡◌, IfOk};
ghost use Rattle.drive_nights.specs.Names.{is_short};

use crate::faults::first_fault;
use crate::plays::play;
use crate::sittings::Sitting;
use drive_nights::endings::endings_of;
use drive_nights::names::is_short;
use drive_nights::nights::last_night;
use drive_nights::openings::opening_of;
use drive_nights::replies::are_taken;
use drive_steps::rooms::are_housed;
use run_book::Book;
use run_disk::RunDisk;
use run_model::{Fault, Name, Step};
use std::alloc::{AllocError, Allocator, Global};

/// What hinders a night.
#[derive(Clone, Copy)]
pub enum Hindrance {
    /// The store has no room left.
    Full,
    /// The store met a fault.
    Fault(Fault),
}

/// The number of a night is less than this one.
const LATE: u64 = 10_000_000_000;

/// Returns whether the names of these groups leave room for the number of a night.
fn are_short(groups: &[Name], night: u64) -> bool
    ensures { result ≡ list_all (λ group. is_short group night) groups.now }
{
    groups.iter().all(|group| is_short(group, night))
}

/// Makes in the store what the night needs, and ends what is left of other nights. Returns what
/// hinders the night, if anything does. The other nights are ended also if the store has no room
/// for this one: then a renewal makes room.
#[tactic(auto, using(crate::proofs::Moving::moves_none, crate::proofs::Moving::moves_then))]
pub fn open_night<D: RunDisk, A: Allocator>(
    alloc: Global,
    book: &mut Book<D, A>,
    sitting: &Sitting,
) -> Result<Option<Hindrance>, AllocError>
    ensures opens { IfOk result (λ found. Opens D.state sitting.now book.old found book.new) }
    ensures moves { Moves D.state book.old book.new }
{
    let night = sitting.kept.night;
    if night >= LATE || !are_short(sitting.names.groups.as_slice(), night) {
        return Ok(Some(Hindrance::Full));
    }
    let steps = opening_of(
        alloc,
        book.state(),
        night,
        sitting.names.groups.as_slice(),
        sitting.untils.as_slice(),
        &sitting.all,
    )?;
    let replies = play(alloc, book, steps.as_slice())?;
    if let Some(fault) = first_fault(replies.as_slice()) {
        return Ok(Some(Hindrance::Fault(fault)));
    }
    let fault = end_others(alloc, book)?;
    let is_open = are_taken(replies.as_slice()) && are_housed(book.state(), &sitting.names);
    Ok(hindered_by(fault, is_open))
}

/// Ends what is left of all nights but the last one, as far as the store has room for that, and
/// makes it durable. Returns a fault, if one is met.
#[tactic(auto, using(crate::proofs::Moving::moves_none, crate::proofs::Moving::moves_then))]
fn end_others<D: RunDisk, A: Allocator>(
    alloc: Global,
    book: &mut Book<D, A>,
) -> Result<Option<Fault>, AllocError>
    ensures ends { IfOk result (λ found. EndsOthers D.state book.old found book.new) }
    ensures moves { Moves D.state book.old book.new }
{
    let last = last_night(book.state());
    let mut steps = endings_of(alloc, book.state(), last)?;
    steps.push(Step::Flush)?;
    let replies = play(alloc, book, steps.as_slice())?;
    Ok(first_fault(replies.as_slice()))
}

/// Returns what hinders a night: a fault, or that it isn't open.
pub fn hindered_by(fault: Option<Fault>, is_open: bool) -> Option<Hindrance>
    ensures { result ≡ hindered_by fault is_open }
{
    match fault {
        Some(fault) => Some(Hindrance::Fault(fault)),
        None if is_open => None,
        None => Some(Hindrance::Full),
    }
}
