//! The executor is asked to stop tries.

ghost use Rattle.std.specs.List.{filter_map};
ghost use Rattle.std.specs.Prelude.{◌≡◌, ◌<◌, ◌++◌, All, IfOk, OnOk, [], length, map};
ghost use Rattle.drive_runs.specs.declared.living.Living.{Living as LivingOf};
ghost use Rattle.drive_runs.specs.Living.{all_asked, cancel_of, cancels_of, unasked, why_in};
ghost use Rattle.drive_runs.specs.Rounds.{LivesOn};
ghost use Rattle.drive_runs.specs.Stops.{AddsStops, stop_line};

use crate::living::Living;
use crate::sittings::Sitting;
use drive_lines::orders::Order;
use drive_steps::cancels::CommandCancel;
use drive_steps::reported::Begun;
use drive_steps::stops::{Stop, stops};
use run_model::Text;
use run_session::State;
use std::alloc::{AllocError, Allocator, Global};

/// Appends an order for each living try that has to stop and that the executor wasn't asked to stop
/// before. It counts as asked from then on.
pub fn push_stops<A: Allocator>(
    alloc: Global,
    state: &State<A>,
    sitting: &mut Sitting,
    orders: &mut Vec<Order>,
) -> Result<(), AllocError>
    requires { All (λ (one : LivingOf). one.command < length sitting.old.plan.commands.items)
        sitting.old.kept.living.items }
    ensures adds { IfOk result (λ _. AddsStops state.now sitting.old orders.old.items
        orders.new.items sitting.new) }
    ensures living { IfOk result (λ _. LivesOn sitting.old [] sitting.new) }
{
    let canceled = cancels_of(alloc, sitting.kept.living.as_slice())?;
    let tries = unasked_of(alloc, sitting.kept.living.as_slice())?;
    let all = stops(
        alloc,
        state,
        &sitting.kept.ends,
        &sitting.plan,
        &sitting.names,
        &mut sitting.kept.guesses,
        canceled.as_slice(),
        tries.as_slice(),
    )?;
    push_lines(orders, all.as_slice())?;
    let living = all_asked(alloc, sitting.kept.living.as_slice(), all.as_slice())?;
    sitting.kept.living = living;
    Ok(())
}

/// Returns the cancels of the commands of those of these tries that have to stop already.
#[tactic(auto, using(crate::proofs::Recording::some_more, crate::proofs::Recording::none_more))]
fn cancels_of(alloc: Global, living: &[Living]) -> Result<Vec<CommandCancel>, AllocError>
    ensures { IfOk result (λ cancels. cancels.items ≡ cancels_of living.now) }
{
    let mut cancels = Vec::new(alloc);
    for one in living {
        if let Some(cancel) = cancel_of(one) {
            cancels.push(cancel)?;
        }
    }
    Ok(cancels)
}

/// Returns the cancel of the command of a try, if the try has to stop already.
fn cancel_of(one: &Living) -> Option<CommandCancel>
    ensures { result ≡ cancel_of one.now }
{
    match &one.stop {
        Some(why) => Some(CommandCancel {
            command: one.command,
            why: why.copy(),
        }),
        None => None,
    }
}

/// Returns those of these tries that the executor wasn't asked to stop yet.
#[tactic(auto, using(crate::proofs::Recording::some_more, crate::proofs::Recording::none_more))]
fn unasked_of(alloc: Global, living: &[Living]) -> Result<Vec<Begun>, AllocError>
    ensures { IfOk result (λ tries. tries.items ≡ filter_map unasked living.now) }
{
    let mut tries = Vec::new(alloc);
    for one in living {
        if let Some(begun) = unasked(one) {
            tries.push(begun)?;
        }
    }
    Ok(tries)
}

/// Returns a try, unless the executor was asked to stop it.
fn unasked(one: &Living) -> Option<Begun>
    ensures { result ≡ unasked one.now }
{
    if one.asked {
        None
    } else {
        Some(Begun {
            command: one.command,
            task: one.task,
        })
    }
}

/// Appends an order for each of these stops.
fn push_lines(orders: &mut Vec<Order>, stops: &[Stop]) -> Result<(), AllocError>
    ensures { OnOk result (orders.new.items ≡ orders.old.items ++ map stop_line stops.now) }
{
    for stop in stops {
        orders.push(Order::Stop(stop.task, stop.why.copy()))?;
    }
    Ok(())
}

/// Returns these tries, once the executor was asked for these stops.
fn all_asked(alloc: Global, living: &[Living], stops: &[Stop]) -> Result<Vec<Living>, AllocError>
    ensures { IfOk result (λ all. all.items ≡ all_asked stops.now living.now) }
{
    let mut all = Vec::new(alloc);
    for one in living {
        all.push(one.once_asked(why_in(stops, one.task)))?;
    }
    Ok(all)
}

/// Returns why the try with this task has to stop, by these stops.
fn why_in(stops: &[Stop], task: u16) -> Option<Text>
    ensures { result ≡ why_in stops.now task }
{
    match stops.iter().find(|stop| stop.task == task) {
        Some(stop) => Some(stop.why.copy()),
        None => None,
    }
}
