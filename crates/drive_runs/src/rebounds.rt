//! The tries that live when a store was opened again get new tasks, because the opening has
//! interrupted those that they had.

ghost use Rattle.std.specs.List.{list_all};
ghost use Rattle.std.specs.Prelude.{◌≡◌, IfOk, ltb};
ghost use Rattle.drive_runs.specs.Moving.{Moves};
ghost use Rattle.drive_runs.specs.Rebounds.{BindsAll, can_bind, commands_of, rebound_line};
ghost use Rattle.drive_runs.specs.Rebounds.{rebound_lines, task_at, with_tasks};

use crate::bindings::{Binding, bind};
use crate::living::Living;
use crate::nights::hindrance_of;
use crate::openings::Hindrance;
use crate::sittings::Sitting;
use crate::tries::try_name;
use drive_lines::orders::Order;
use drive_steps::reported::Begun;
use drive_steps::rooms::are_housed;
use run_book::Book;
use run_disk::RunDisk;
use run_session::State;
use std::alloc::{AllocError, Allocator, Global};

/// What became of the tries that live when the store was opened again.
#[derive(Drop)]
pub enum Bound {
    /// An order for each, which says its new task.
    Orders(Vec<Order>),
    Hindered(Hindrance),
}

/// Gives each try that lives another task.
#[tactic(auto, using(crate::proofs::Moving::moves_none, crate::proofs::Moving::moves_then))]
pub fn bind_all<D: RunDisk, A: Allocator>(
    alloc: Global,
    book: &mut Book<D, A>,
    sitting: &mut Sitting,
) -> Result<Bound, AllocError>
    ensures binds { IfOk result (λ tries.
        BindsAll D.state sitting.old book.old tries sitting.new book.new) }
    ensures moves { Moves D.state book.old book.new }
{
    let commands = commands_of(alloc, sitting.kept.living.as_slice())?;
    if !can_bind(book.state(), sitting, commands.as_slice()) {
        return Ok(Bound::Hindered(Hindrance::Full));
    }
    let Binding { begun, fault } = bind(
        alloc,
        book,
        &sitting.plan,
        &sitting.names,
        commands.as_slice(),
    )?;
    let Some(begun) = begun else {
        return Ok(Bound::Hindered(hindrance_of(fault)));
    };
    let living = with_tasks(alloc, sitting.kept.living.as_slice(), begun.as_slice())?;
    sitting.kept.living = living;
    let lines = rebound_lines(alloc, book.state(), begun.as_slice())?;
    Ok(Bound::Orders(lines))
}

/// Returns whether the living tries, which are of these commands, can get tasks.
fn can_bind<A: Allocator>(state: &State<A>, sitting: &Sitting, commands: &[usize]) -> bool
    requires { commands.now ≡ commands_of sitting.now.kept.living.items }
    ensures { result ≡ can_bind state.now sitting.now }
{
    are_housed(state, &sitting.names) && are_below(commands, sitting.plan.commands.len())
}

/// Returns whether all of these numbers are less than this one.
fn are_below(numbers: &[usize], end: usize) -> bool
    ensures { result ≡ list_all (λ n. ltb n end) numbers.now }
{
    numbers.iter().all(|n| *n < end)
}

/// Returns the commands of these tries.
fn commands_of(alloc: Global, living: &[Living]) -> Result<Vec<usize>, AllocError>
    ensures { IfOk result (λ commands. commands.items ≡ commands_of living.now) }
{
    let mut commands = Vec::new(alloc);
    for one in living {
        commands.push(one.command)?;
    }
    Ok(commands)
}

/// Returns these tries with their new tasks.
fn with_tasks(alloc: Global, living: &[Living], begun: &[Begun]) -> Result<Vec<Living>, AllocError>
    ensures { IfOk result (λ all. all.items ≡ with_tasks living.now begun.now) }
{
    let mut all = Vec::new(alloc);
    for (i, one) in living.iter().enumerate() {
        all.push(one.with_task(task_at(begun, i, one.task)))?;
    }
    Ok(all)
}

/// Returns the task at this place, or the one that the try had if there is none.
fn task_at(begun: &[Begun], i: usize, known: u16) -> u16
    ensures { result ≡ task_at begun.now i known }
{
    match begun.get(i) {
        Some(begin) => begin.task,
        None => known,
    }
}

/// Returns a line for each of these tries whose task is there.
#[tactic(auto, using(crate::proofs::Recording::some_more, crate::proofs::Recording::none_more))]
fn rebound_lines<A: Allocator>(
    alloc: Global,
    state: &State<A>,
    begun: &[Begun],
) -> Result<Vec<Order>, AllocError>
    ensures { IfOk result (λ lines. lines.items ≡ rebound_lines state.now begun.now) }
{
    let mut lines = Vec::new(alloc);
    for begin in begun {
        if let Some(line) = rebound_line(state, begin) {
            lines.push(line)?;
        }
    }
    Ok(lines)
}

/// Returns the line that says the new task of a try.
fn rebound_line<A: Allocator>(state: &State<A>, begin: &Begun) -> Option<Order>
    ensures { result ≡ rebound_line state.now begin.now }
{
    let named = try_name(state, begin.task)?;
    Some(Order::Rebound(begin.command as u64, begin.task, named))
}
