//! Commands get tasks: each is submitted and started, and then a flush is made. A command that
//! begins gets one, and so does a try that lives while the store is opened again, because an
//! opening has interrupted the task that it had.

ghost use Rattle.std.specs.Prelude.{◌≡◌, ◌<◌, All, IfOk, length, true};
ghost use Rattle.night_drive.specs.Seen.{AreNames};
ghost use Rattle.drive_steps.specs.Rooms.{are_housed};
ghost use Rattle.drive_steps.specs.Starts.{row_of};
ghost use Rattle.book_model.specs.Books.{CarriesOn};
ghost use Rattle.drive_runs.specs.Moving.{Moves};
ghost use Rattle.drive_runs.specs.Begins.{Binds};

use crate::faults::first_fault;
use crate::plays::play;
use drive_steps::reported::{Begun, reported};
use drive_steps::starts::row_of;
use night_drive::names::Names;
use night_plan::commands::Plan;
use run_book::Book;
use run_disk::RunDisk;
use run_model::{Fault, Step};
use std::alloc::{AllocError, Allocator, Global};

/// What became of the commands that were to get tasks.
#[derive(Drop)]
pub struct Binding {
    /// The commands, each with its new task; `None` if a step was refused or met a fault.
    pub begun: Option<Vec<Begun>>,
    /// The first fault that a step met.
    pub fault: Option<Fault>,
}

/// Gives each of these commands another task, which is started.
pub fn bind<D: RunDisk, A: Allocator>(
    alloc: Global,
    book: &mut Book<D, A>,
    plan: &Plan,
    names: &Names,
    commands: &[usize],
) -> Result<Binding, AllocError>
    requires named { AreNames plan.now names.now }
    requires housed { are_housed book.old.session.state names.now ≡ true }
    requires within { All (λ c. c < length plan.now.commands.items) commands.now }
    ensures binds { IfOk result (λ made. Binds D.state
        (row_of book.old.session.state names.now plan.now.commands.items commands.now)
        commands.now book.old made book.new) }
    ensures moves { Moves D.state book.old book.new }
    ensures carries_on { CarriesOn D.state book.old book.new }
{
    let _durable = book.durable();
    let steps = row_of(alloc, book.state(), plan, names, commands)?;
    play_row(alloc, book, commands, steps.as_slice())
}

/// Plays the row of steps in which these commands get tasks.
pub(crate) fn play_row<D: RunDisk, A: Allocator>(
    alloc: Global,
    book: &mut Book<D, A>,
    commands: &[usize],
    steps: &[Step],
) -> Result<Binding, AllocError>
    ensures binds { IfOk result (λ made.
        Binds D.state steps.now commands.now book.old made book.new) }
    ensures moves { Moves D.state book.old book.new }
    ensures carries_on { CarriesOn D.state book.old book.new }
{
    let _durable = book.durable();
    let replies = play(alloc, book, steps)?;
    let begun = reported(alloc, commands, replies.as_slice())?;
    let fault = first_fault(replies.as_slice());
    Ok(Binding { begun, fault })
}
