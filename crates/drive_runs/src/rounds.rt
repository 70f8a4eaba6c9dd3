//! A round goes on once what was heard is recorded: commands begin, and the lines are made that say
//! what the executor has to do.

ghost use Rattle.std.specs.Prelude.{◌≡◌, ◌<◌, ◌==◌, ◌++◌, ◌||◌, [], All, IfOk, MatchOption, OnOk};
ghost use Rattle.std.specs.Prelude.{is_none, length, ltb, map, true};
ghost use Rattle.std.specs.Bool.{OnTrue};
ghost use Rattle.std.specs.List.{list_all, list_any};
ghost use Rattle.book_model.specs.Books.{CarriesOn};
ghost use Rattle.night_plan.specs.Standings.{is_final};
ghost use Rattle.night_drive.specs.PlanTurns.{night_in};
ghost use Rattle.plan_lines.specs.Rounds.{later_lines};
ghost use Rattle.drive_lines.specs.declared.orders.Order.TheVariants as order;
ghost use Rattle.drive_steps.specs.declared.reported.Begun.{Begun as BegunOf};
ghost use Rattle.drive_steps.specs.Rooms.{are_housed};
ghost use Rattle.drive_runs.specs.declared.living.Living.{Living as LivingOf};
ghost use Rattle.drive_runs.specs.Asks.{questions_of};
ghost use Rattle.drive_runs.specs.Rounds.{AreBegins, AreOrders, AreStandings, GoesOn, LivesOn};
ghost use Rattle.drive_runs.specs.Rounds.{IsNext, asked_lines, is_over, unbegun};
ghost use Rattle.drive_runs.specs.Moving.{Moves};
ghost use Rattle.drive_runs.specs.Tries.{try_name};

use crate::asks::error_lines;
use crate::begins::{Beginning, begin};
use crate::bindings::Binding;
use crate::living::{Living, add_begun};
use crate::sittings::Sitting;
use crate::stops::push_stops;
use crate::tries::try_name;
use drive_lines::orders::Order;
use drive_nights::deadlines::next_moment;
use drive_parts::heard::Heard;
use drive_steps::reported::Begun;
use night_drive::guessed::seen_with;
use night_drive::guesses::Guesses;
use night_plan::standings::{Standing, standings};
use plan_lines::answers::AnswerLine;
use run_book::Book;
use run_disk::RunDisk;
use run_model::Fault;
use run_session::State;
use std::alloc::{AllocError, Allocator, Global};

/// All that the executor has to do after a round.
#[derive(Drop)]
pub struct Orders {
    pub lines: Vec<Order>,
    /// Whether the night is over: each command is final, and no try lives.
    pub is_over: bool,
}

/// How a round went on.
#[derive(Drop)]
pub enum Course {
    /// These orders are to be given.
    On(Orders),
    /// A step was refused for want of room.
    Refused,
    /// A step met a fault.
    Faulty(Fault),
}

/// Lets commands begin, and returns all that the executor has to do: the commands that begin, the
/// tries that have to stop, the moment at which to ask again, and what the executor asked for: how
/// each command stands, and with which errors commands have failed.
pub fn go_on<D: RunDisk, A: Allocator>(
    alloc: Global,
    book: &mut Book<D, A>,
    sitting: &mut Sitting,
    heard: &Heard,
) -> Result<Course, AllocError>
    requires { are_housed book.old.session.state sitting.old.names ≡ true }
    ensures goes_on { IfOk result (λ course.
        GoesOn D.state sitting.old (questions_of heard.now) book.old course sitting.new
        book.new) }
    ensures moves { Moves D.state book.old book.new }
    ensures carries_on { CarriesOn D.state book.old book.new }
{
    let _state = book.state();
    let Beginning {
        choice,
        binding: Binding { begun, fault },
    } = begin(
        alloc,
        book,
        &sitting.kept.ends,
        &sitting.plan,
        &sitting.names,
        &mut sitting.kept.guesses,
        sitting.kept.sizes.as_slice(),
    )?;
    let Some(begun) = begun else {
        return Ok(unbegun(fault));
    };
    add_begun(&mut sitting.kept.living, begun.as_slice())?;
    note_begun(&mut sitting.kept.guesses, begun.as_slice())?;
    let Some(orders) = begin_orders(alloc, book.state(), begun.as_slice())? else {
        return Ok(Course::Refused);
    };
    if !are_of_plan(sitting) {
        return Ok(Course::Refused);
    }
    let all = more_orders(alloc, book.state(), sitting, orders, choice.later, heard)?;
    Ok(Course::On(all))
}

/// How a round went on in which no command could begin.
fn unbegun(fault: Option<Fault>) -> Course
    ensures { result ≡ unbegun fault }
{
    match fault {
        Some(fault) => Course::Faulty(fault),
        None => Course::Refused,
    }
}

/// Notes the task of each command that has begun.
fn note_begun(guesses: &mut Guesses, begun: &[Begun]) -> Result<(), AllocError> {
    for begin in begun {
        guesses.note(begin.task, begin.command)?;
    }
    Ok(())
}

/// Returns whether the tries that live are tries of commands of the plan.
fn are_of_plan(sitting: &Sitting) -> bool
    ensures { result ≡ list_all (λ (one : LivingOf).
        ltb one.command (length sitting.now.plan.commands.items)) sitting.now.kept.living.items }
{
    have_commands(sitting.kept.living.as_slice(), sitting.plan.commands.len())
}

/// Returns whether these are tries of commands of a plan with this many.
fn have_commands(living: &[Living], count: usize) -> bool
    ensures { result ≡ list_all (λ (one : LivingOf). ltb one.command count) living.now }
{
    living.iter().all(|one| one.command < count)
}

/// Returns an order for each command that has begun. `None` if one of their tasks isn't there.
fn begin_orders<A: Allocator>(
    alloc: Global,
    state: &State<A>,
    begun: &[Begun],
) -> Result<Option<Vec<Order>>, AllocError>
    ensures { IfOk result (λ found. MatchOption found
        (list_any (λ (begin : BegunOf). is_none (try_name state.now begin.task)) begun.now ≡ true)
        (λ orders. AreBegins state.now begun.now orders.items)) }
{
    let mut orders = Vec::new(alloc);
    for begin in begun {
        let Some(named) = try_name(state, begin.task) else {
            return Ok(None);
        };
        orders.push(Order::Begin(begin.command as u64, begin.task, named))?;
    }
    Ok(Some(orders))
}

/// Returns these orders, by which commands begin, and all others of the round.
fn more_orders<A: Allocator>(
    alloc: Global,
    state: &State<A>,
    sitting: &mut Sitting,
    begins: Vec<Order>,
    retry: Option<u64>,
    heard: &Heard,
) -> Result<Orders, AllocError>
    requires { All (λ (one : LivingOf). one.command < length sitting.old.plan.commands.items)
        sitting.old.kept.living.items }
    ensures lines { IfOk result (λ orders. AreOrders begins.items state.now sitting.old
        sitting.old.kept.living.items retry (questions_of heard.now) orders sitting.new) }
    ensures living { IfOk result (λ _. LivesOn sitting.old [] sitting.new) }
{
    let are_wanted = are_wanted(heard.asked, sitting.kept.living.as_slice());
    let all = standings_if(alloc, state, sitting, are_wanted)?;
    let mut errors = error_lines(alloc, state, sitting, heard)?;
    let mut lines = begins;
    push_stops(alloc, state, sitting, &mut lines)?;
    let over = is_over(all.as_slice(), sitting.kept.living.as_slice());
    push_later(&mut lines, next_in(state, sitting, over, retry))?;
    push_standings(&mut lines, all.as_slice(), heard.asked)?;
    lines.append(&mut errors)?;
    Ok(Orders {
        lines,
        is_over: over,
    })
}

/// Returns the next moment at which something comes by itself: a retry, or a deadline. `None` if
/// the night is over.
fn next_in<A: Allocator>(
    state: &State<A>,
    sitting: &Sitting,
    over: bool,
    retry: Option<u64>,
) -> Option<u64>
    ensures { IsNext over state.now sitting.now retry result }
{
    if over {
        None
    } else {
        next_moment(
            state,
            sitting.kept.night,
            sitting.names.groups.as_slice(),
            retry,
        )
    }
}

/// Appends a line for the moment at which to ask again, if there is one.
fn push_later(orders: &mut Vec<Order>, later: Option<u64>) -> Result<(), AllocError>
    ensures { OnOk result (orders.new.items
        ≡ orders.old.items ++ map order.Answer (later_lines later)) }
{
    if let Some(moment) = later {
        orders.push(Order::Answer(AnswerLine::Later(moment)))?;
    }
    Ok(())
}

/// Returns whether it has to be known how the commands stand: whether the executor asked for that,
/// or no try lives, so that the night may be over.
fn are_wanted(asked: bool, living: &[Living]) -> bool
    ensures { result ≡ (asked || length living.now == 0) }
{
    asked || living.is_empty()
}

/// Returns how each command stands, if that has to be known.
fn standings_if<A: Allocator>(
    alloc: Global,
    state: &State<A>,
    sitting: &Sitting,
    are_wanted: bool,
) -> Result<Vec<Standing>, AllocError>
    ensures { IfOk result (λ all. OnTrue are_wanted (AreStandings
        (night_in state.now sitting.now.kept.ends sitting.now.plan sitting.now.names)
        state.now.tree.clock all.items)) }
{
    if are_wanted {
        standings_in(alloc, state, sitting)
    } else {
        Ok(Vec::new(alloc))
    }
}

/// Returns how each command stands.
fn standings_in<A: Allocator>(
    alloc: Global,
    state: &State<A>,
    sitting: &Sitting,
) -> Result<Vec<Standing>, AllocError>
    ensures { IfOk result (λ all. AreStandings
        (night_in state.now sitting.now.kept.ends sitting.now.plan sitting.now.names)
        state.now.tree.clock all.items) }
{
    let mut guesses = copy_of(alloc, &sitting.kept.guesses)?;
    let facts = seen_with(
        alloc,
        state,
        &sitting.kept.ends,
        &sitting.plan,
        &sitting.names,
        &mut guesses,
    )?;
    let all = standings(alloc, &sitting.plan, &facts, state.clock().get())?;
    Ok(all)
}

/// Returns a copy of guesses.
fn copy_of(alloc: Global, guesses: &Guesses) -> Result<Guesses, AllocError> {
    Ok(Guesses {
        commands: Vec::from_slice(alloc, guesses.commands.as_slice())?,
    })
}

/// Appends a line for how each command stands, if the executor asked for it.
fn push_standings(orders: &mut Vec<Order>, all: &[Standing], asked: bool) -> Result<(), AllocError>
    ensures { OnOk result (orders.new.items ≡ orders.old.items ++ asked_lines asked all.now) }
{
    if !asked {
        return Ok(());
    }
    for (command, standing) in all.iter().enumerate() {
        orders.push(Order::Answer(AnswerLine::Stands(command, *standing)))?;
    }
    Ok(())
}

/// Returns whether each command is final, and no try lives.
fn is_over(all: &[Standing], living: &[Living]) -> bool
    ensures { result ≡ is_over all.now living.now }
{
    is_final(all) && living.is_empty()
}

/// Returns whether each command is final.
fn is_final(all: &[Standing]) -> bool
    ensures { result ≡ list_all is_final all.now }
{
    all.iter().all(|standing| is_final_one(*standing))
}

/// Returns whether a command is final that stands so.
fn is_final_one(standing: Standing) -> bool
    ensures { result ≡ is_final standing }
{
    match standing {
        Standing::EndedOk | Standing::Failed | Standing::Canceled | Standing::GivenUp => true,
        Standing::Busy | Standing::Waiting(_) | Standing::Ready | Standing::Pending => false,
    }
}
