//! Commands begin in a book: what is chosen by its rows is submitted, started and flushed.

ghost use Rattle.std.specs.Prelude.{◌≡◌, IfOk, length, true};
ghost use Rattle.night_drive.specs.Distinct.{AreDistinct};
ghost use Rattle.night_drive.specs.Seen.{AreNames};
ghost use Rattle.drive_steps.specs.Rooms.{are_housed};
ghost use Rattle.book_model.specs.Books.{CarriesOn};
ghost use Rattle.drive_runs.specs.Moving.{Moves};
ghost use Rattle.drive_runs.specs.Begins.{Begins};

use crate::bindings::{Binding, play_row};
use drive_steps::begins::{Row, begins};
use night_drive::ends::Ends;
use night_drive::guesses::Guesses;
use night_drive::names::Names;
use night_plan::choices::Choice;
use night_plan::commands::Plan;
use run_book::Book;
use run_disk::RunDisk;
use std::alloc::{AllocError, Allocator, Global};

/// What became of the commands that were chosen.
#[derive(Drop)]
pub struct Beginning {
    pub choice: Choice,
    pub binding: Binding,
}

/// Chooses which commands begin now, and lets them begin.
pub fn begin<D: RunDisk, A: Allocator>(
    alloc: Global,
    book: &mut Book<D, A>,
    ends: &Ends,
    plan: &Plan,
    names: &Names,
    guesses: &mut Guesses,
    sizes: &[u32],
) -> Result<Beginning, AllocError>
    requires named { AreNames plan.now names.now }
    requires distinct { AreDistinct plan.now names.now }
    requires housed { are_housed book.old.session.state names.now ≡ true }
    requires sized { length sizes.now ≡ length plan.now.pools.items }
    ensures begins { IfOk result (λ made. Begins D.state ends.now plan.now names.now sizes.now
        book.old made book.new) }
    ensures moves { Moves D.state book.old book.new }
    ensures carries_on { CarriesOn D.state book.old book.new }
{
    let _durable = book.durable();
    let Row { choice, steps } = begins(alloc, book.state(), ends, plan, names, guesses, sizes)?;
    let binding = play_row(alloc, book, choice.commands.as_slice(), steps.as_slice())?;
    Ok(Beginning { choice, binding })
}
