//! The part of the input that is a plan opens a night, or is refused.

ghost use Rattle.std.specs.Prelude.{◌≡◌, ◌∷◌, IfOk, IfSome, [], map};
ghost use Rattle.drive_lines.specs.declared.orders.Order.TheVariants as order;
ghost use Rattle.plan_lines.specs.declared.answers.AnswerLine.TheVariants as answer;
ghost use Rattle.drive_runs.specs.Answers.{end_line};
ghost use Rattle.drive_runs.specs.Moving.{Moves};
ghost use Rattle.drive_runs.specs.Parts.{AnswersPlan, IsLong, OpensFirst, TakesPlan};
ghost use Rattle.drive_runs.specs.Parts.{refused_lines};

use crate::answers::{Answer, end_with, hindered, one_line};
use crate::drive_ends::DriveEnd;
use crate::nights::other_task;
use crate::openings::open_night;
use crate::parts::{Next, Part};
use crate::sittings::{Kept, Sitting};
use drive_lines::orders::Order;
use drive_nights::names::is_short;
use drive_nights::nights::night_of_store;
use drive_parts::lives::LivesDraft;
use drive_parts::plans::{NightPlan, PlanDraft, PlanRefusal};
use drive_parts::rounds::HeardDraft;
use plan_lines::answers::AnswerLine;
use plan_lines::rounds::refused_answer;
use run_book::Book;
use run_disk::RunDisk;
use run_model::Name;
use std::alloc::{AllocError, Allocator, Global};

/// Opens the night of a plan, or says why the plan is refused.
#[tactic(auto, using(crate::proofs::Moving::moves_none))]
pub(crate) fn end_plan<D: RunDisk, A: Allocator>(
    alloc: Global,
    book: &mut Book<D, A>,
    draft: PlanDraft,
) -> Result<Answer, AllocError>
    ensures answered { IfOk result (λ answer.
        AnswersPlan D.state draft book.old answer book.new) }
    ensures moves { Moves D.state book.old book.new }
{
    match draft.finish(alloc) {
        Ok(plan) => begin_night(alloc, book, plan),
        Err(refusal) => {
            let lines = refusal_lines(alloc, refusal)?;
            Ok(Answer {
                lines,
                next: Next::End(DriveEnd::Refused),
            })
        }
    }
}

/// Returns the lines that say why a plan is refused.
fn refusal_lines(alloc: Global, refusal: PlanRefusal) -> Result<Vec<Order>, AllocError>
    ensures { IfOk result (λ lines. lines.items ≡ refused_lines refusal) }
{
    match refusal {
        PlanRefusal::Name(group) => one_line(alloc, Order::Name(group as u64)),
        PlanRefusal::Twice(command) => one_line(alloc, Order::Twice(command as u64)),
        PlanRefusal::Fault(fault) => {
            let lines = refused_answer(alloc, &fault)?;
            orders_of(alloc, lines.as_slice())
        }
    }
}

/// Returns these lines as those of the answer to an executor.
fn orders_of(alloc: Global, lines: &[AnswerLine]) -> Result<Vec<Order>, AllocError>
    ensures { IfOk result (λ orders. orders.items ≡ map order.Answer lines.now) }
{
    let mut orders = Vec::new(alloc);
    for line in lines {
        orders.push(Order::Answer(*line))?;
    }
    Ok(orders)
}

/// Opens the night of a plan, if the store can have one.
#[tactic(auto, using(crate::proofs::Moving::moves_none))]
fn begin_night<D: RunDisk, A: Allocator>(
    alloc: Global,
    book: &mut Book<D, A>,
    plan: NightPlan,
) -> Result<Answer, AllocError>
    ensures answered { IfOk result (λ answer.
        TakesPlan D.state plan book.old answer book.new) }
    ensures moves { Moves D.state book.old book.new }
{
    let refused = Next::End(DriveEnd::Refused);
    if let Some(task) = other_task(book.state()) {
        return end_with(alloc, Order::Other(task as u64), refused);
    }
    let night = night_of_store(book.state(), plan.next);
    if let Some(group) = first_long(plan.groups.as_slice(), night) {
        return end_with(alloc, Order::Name(group as u64), refused);
    }
    open_first(alloc, book, plan, night)
}

/// Returns the first of these groups whose name leaves no room for the number of the night.
fn first_long(groups: &[Name], night: u64) -> Option<usize>
    ensures { IfSome result (IsLong night groups.now) }
{
    for (g, group) in groups.iter().enumerate() {
        if !is_short(group, night) {
            return Some(g);
        }
    }
    None
}

/// Opens the night of a plan, for the first time in this run.
#[tactic(auto, using(crate::proofs::Moving::moves_none))]
fn open_first<D: RunDisk, A: Allocator>(
    alloc: Global,
    book: &mut Book<D, A>,
    plan: NightPlan,
    night: u64,
) -> Result<Answer, AllocError>
    ensures opened { IfOk result (λ answer.
        OpensFirst D.state plan night book.old answer book.new) }
    ensures moves { Moves D.state book.old book.new }
{
    let count = plan.plan.commands.len();
    let now = book.state().clock().get();
    let fresh = Kept::new(alloc, &plan.plan, night, now)?;
    let sitting = Sitting::of(plan, fresh);
    if let Some(hindrance) = open_night(alloc, book, &sitting)? {
        return hindered(alloc, hindrance);
    }
    let (rounds, kept) = sitting.parts();
    let heard = HeardDraft::new(alloc, rounds, Vec::new(alloc));
    let lives = LivesDraft::new(alloc);
    let lines = opened_lines(alloc, count, night)?;
    Ok(Answer {
        lines,
        next: Next::Part(Part::First(kept, lives, heard)),
    })
}

/// The answer to a plan that was taken.
fn opened_lines(alloc: Global, commands: usize, night: u64) -> Result<Vec<Order>, AllocError>
    ensures { IfOk result (λ lines. lines.items
        ≡ order.Answer (answer.Plan commands) ∷ order.Night night ∷ end_line ∷ []) }
{
    let mut lines = Vec::new(alloc);
    lines.push(Order::Answer(AnswerLine::Plan(commands)))?;
    lines.push(Order::Night(night))?;
    lines.push(Order::Answer(AnswerLine::End))?;
    Ok(lines)
}
