//! The part of the input that is a round is recorded, and then answered.

ghost use Rattle.std.specs.Prelude.{◌≡◌, ◌++◌, IfOk, OnOk, map};
ghost use Rattle.drive_runs.specs.declared.living.Living.{Living as LivingOf};
ghost use Rattle.drive_runs.specs.Answers.{BindsFirst, ClosesRound, EndsNight, EndsRound, GoesTo};
ghost use Rattle.drive_runs.specs.Answers.{IsRest, PlaysRound, PutsBack, Resumes, closing};
ghost use Rattle.drive_runs.specs.Answers.{over_lines, time_of};
ghost use Rattle.drive_runs.specs.Parts.{AnswersDraft};
ghost use Rattle.drive_runs.specs.Moving.{Moves};

use crate::answers::{Answer, fail, hindered, nothing};
use crate::drive_ends::DriveEnd;
use crate::living::Living;
use crate::nights::{close_night, missing_groups};
use crate::openings::{Hindrance, open_night};
use crate::parts::{Next, Part};
use crate::rebounds::{Bound, bind_all};
use crate::records::{Recorded, record};
use crate::rounds::{Course, Orders, go_on};
use crate::sittings::{Kept, Sitting};
use drive_lines::orders::Order;
use drive_parts::heard::Heard;
use drive_parts::rounds::{HeardDraft, Round};
use drive_steps::rooms::are_housed;
use plan_lines::answers::AnswerLine;
use run_book::Book;
use run_disk::RunDisk;
use run_model::Moment;
use std::alloc::{AllocError, Allocator, Global};

/// What has to be recorded of a round.
#[derive(Drop)]
pub struct Rest {
    /// What was heard. Once the ends are recorded, they are left out. The cancels are recorded
    /// again after the store is opened again, because the log may have had no room for all of them.
    pub heard: Heard,
    /// The time of the round.
    pub now: Moment,
}

impl Rest {
    /// The same, without the ends.
    fn without_ends(self, alloc: Global) -> Rest
        ensures { IsRest self.heard self.now result }
    {
        let Rest { mut heard, now } = self;
        heard.ends = Vec::new(alloc);
        heard.gone = Vec::new(alloc);
        Rest { heard, now }
    }
}

/// Which round is played over a store that is open.
#[derive(Clone, Copy)]
pub enum RoundKind {
    /// The first one of a session. Tries of an earlier session have no tasks yet.
    First,
    /// A later one of the same session.
    Later,
    /// One for which the store was opened again. The tries that live have no tasks yet.
    Again,
}

/// Makes groups in the store by which the plan has grown, and then plays the round.
#[tactic(auto, using(crate::proofs::Moving::moves_none))]
pub(crate) fn end_round<D: RunDisk, A: Allocator>(
    alloc: Global,
    book: &mut Book<D, A>,
    kept: Kept,
    heard: HeardDraft,
    kind: RoundKind,
) -> Result<Answer, AllocError>
    ensures answered { IfOk result (λ answer.
        AnswersDraft D.state kind kept heard book.old answer book.new) }
    ensures moves { Moves D.state book.old book.new }
{
    let Round { plan, heard } = heard.finish()?;
    let kept = kept.with_settings(alloc, &heard, plan.plan.pools.as_slice())?;
    let sitting = Sitting::of(plan, kept);
    if let Some(hindrance) = missing_groups(alloc, book, &sitting)? {
        return hindered(alloc, hindrance);
    }
    let now = time_of(heard.time, book.state().clock());
    play_round(alloc, book, sitting, Rest { heard, now }, kind)
}

/// Opens the night in a store that was opened again for a round, and then plays the round, of which
/// this is left.
#[tactic(auto, using(crate::proofs::Moving::moves_none))]
pub(crate) fn resume<D: RunDisk, A: Allocator>(
    alloc: Global,
    book: &mut Book<D, A>,
    sitting: Sitting,
    rest: Rest,
) -> Result<Answer, AllocError>
    ensures answered { IfOk result (λ answer.
        Resumes D.state sitting rest book.old answer book.new) }
    ensures moves { Moves D.state book.old book.new }
{
    if let Some(hindrance) = open_night(alloc, book, &sitting)? {
        return hindered(alloc, hindrance);
    }
    play_round(alloc, book, sitting, rest, RoundKind::Again)
}

/// Records what was heard in a round, and answers the round. Each group of the plan has a group of
/// the store.
#[tactic(auto, using(crate::proofs::Moving::moves_none, crate::proofs::Moving::moves_then))]
fn play_round<D: RunDisk, A: Allocator>(
    alloc: Global,
    book: &mut Book<D, A>,
    sitting: Sitting,
    rest: Rest,
    kind: RoundKind,
) -> Result<Answer, AllocError>
    ensures answered { IfOk result (λ answer.
        PlaysRound D.state kind sitting rest.heard rest.now book.old answer book.new) }
    ensures moves { Moves D.state book.old book.new }
{
    let mut sitting = sitting;
    let bound = match bind_first(alloc, book, &mut sitting, kind)? {
        Bound::Orders(orders) => orders,
        Bound::Hindered(hindrance) => return hindered(alloc, hindrance),
    };
    let recorded = record(alloc, book, &mut sitting, &rest.heard, rest.now)?;
    let rest = rest.without_ends(alloc);
    match recorded {
        Recorded::Well => answer(alloc, book, sitting, rest, bound, kind),
        Recorded::Reopen => open_again(alloc, sitting, rest, kind),
        Recorded::Full => hindered(alloc, Hindrance::Full),
        Recorded::Faulty(fault) => fail(alloc, fault),
    }
}

/// Gives each try that lives another task, unless it has one in this session.
#[tactic(auto, using(crate::proofs::Moving::moves_none))]
fn bind_first<D: RunDisk, A: Allocator>(
    alloc: Global,
    book: &mut Book<D, A>,
    sitting: &mut Sitting,
    kind: RoundKind,
) -> Result<Bound, AllocError>
    ensures binds { IfOk result (λ tries.
        BindsFirst D.state kind sitting.old book.old tries sitting.new book.new) }
    ensures moves { Moves D.state book.old book.new }
{
    match kind {
        RoundKind::First | RoundKind::Again => bind_all(alloc, book, sitting),
        RoundKind::Later => Ok(Bound::Orders(Vec::new(alloc))),
    }
}

/// Returns the time of a round. The clock of the store never goes back.
fn time_of(heard: Option<Moment>, clock: Moment) -> Moment
    ensures { result ≡ time_of heard clock }
{
    match heard {
        Some(now) => now.max(clock),
        None => clock,
    }
}

/// The store has to be opened again for this round. If it was opened again for it already, it is
/// full.
fn open_again(
    alloc: Global,
    sitting: Sitting,
    rest: Rest,
    kind: RoundKind,
) -> Result<Answer, AllocError>
    ensures { IfOk result (PutsBack kind sitting rest) }
{
    match kind {
        RoundKind::Again => hindered(alloc, Hindrance::Full),
        RoundKind::First | RoundKind::Later => { Ok(nothing(alloc, Next::Opening(sitting, rest))) }
    }
}

/// Lets commands begin, and answers the round. `bound` are the lines that say which tasks the tries
/// have that lived before.
#[tactic(auto, using(crate::proofs::Moving::moves_none))]
fn answer<D: RunDisk, A: Allocator>(
    alloc: Global,
    book: &mut Book<D, A>,
    sitting: Sitting,
    rest: Rest,
    bound: Vec<Order>,
    kind: RoundKind,
) -> Result<Answer, AllocError>
    ensures ended { IfOk result (λ answer.
        EndsRound D.state kind sitting rest book.old bound.items answer book.new) }
    ensures moves { Moves D.state book.old book.new }
{
    let mut sitting = sitting;
    if !are_housed(book.state(), &sitting.names) {
        return hindered(alloc, Hindrance::Full);
    }
    match go_on(alloc, book, &mut sitting, &rest.heard)? {
        Course::On(orders) => give_orders(alloc, book, sitting, bound, orders),
        Course::Faulty(fault) => fail(alloc, fault),
        Course::Refused => open_again(alloc, sitting, rest, kind),
    }
}

/// Answers a round by its orders, once the end of the night is marked, if the night is over.
#[tactic(auto, using(crate::proofs::Moving::moves_none))]
fn give_orders<D: RunDisk, A: Allocator>(
    alloc: Global,
    book: &mut Book<D, A>,
    sitting: Sitting,
    bound: Vec<Order>,
    orders: Orders,
) -> Result<Answer, AllocError>
    ensures closed { IfOk result (λ answer.
        ClosesRound D.state sitting book.old bound.items orders answer book.new) }
    ensures moves { Moves D.state book.old book.new }
{
    let is_over = orders.is_over;
    match mark_end(alloc, book, sitting.kept.night, is_over)? {
        Some(hindrance) => hindered(alloc, hindrance),
        None => {
            let lines = round_lines(bound, orders)?;
            let next = next_after(alloc, sitting, is_over)?;
            Ok(Answer { lines, next })
        }
    }
}

/// Marks the end of the night, if it is over. Returns what hinders that, if anything does.
#[tactic(auto, using(crate::proofs::Moving::moves_none))]
fn mark_end<D: RunDisk, A: Allocator>(
    alloc: Global,
    book: &mut Book<D, A>,
    night: u64,
    is_over: bool,
) -> Result<Option<Hindrance>, AllocError>
    ensures ends { IfOk result (λ found.
        EndsNight D.state night is_over book.old found book.new) }
    ensures moves { Moves D.state book.old book.new }
{
    if is_over {
        close_night(alloc, book, night)
    } else {
        Ok(None)
    }
}

/// The run ends, if the night is over. Otherwise the next round can come.
fn next_after(alloc: Global, sitting: Sitting, is_over: bool) -> Result<Next, AllocError>
    ensures { IfOk result (GoesTo is_over sitting) }
{
    if is_over {
        return Ok(Next::End(DriveEnd::Over));
    }
    let (plan, kept) = sitting.parts();
    let living = tasks_of(alloc, kept.living.as_slice())?;
    let heard = HeardDraft::new(alloc, plan, living);
    Ok(Next::Part(Part::Round(kept, heard)))
}

/// Returns the tasks of these tries.
fn tasks_of(alloc: Global, living: &[Living]) -> Result<Vec<u16>, AllocError>
    ensures { IfOk result (λ tasks. tasks.items ≡ map (λ (one : LivingOf). one.task) living.now) }
{
    let mut tasks = Vec::new(alloc);
    for one in living {
        tasks.push(one.task)?;
    }
    Ok(tasks)
}

/// Returns the lines of the answer to a round of which all is recorded.
fn round_lines(bound: Vec<Order>, orders: Orders) -> Result<Vec<Order>, AllocError>
    ensures { IfOk result (λ lines.
        lines.items ≡ bound.items ++ (orders.lines.items ++ closing orders.is_over)) }
{
    let mut lines = bound;
    let mut given = orders.lines;
    lines.append(&mut given)?;
    lines.push(Order::Durable)?;
    push_over(&mut lines, orders.is_over)?;
    lines.push(Order::Answer(AnswerLine::End))?;
    Ok(lines)
}

/// Appends the line that says that the night is over, if it is.
fn push_over(lines: &mut Vec<Order>, is_over: bool) -> Result<(), AllocError>
    ensures { OnOk result (lines.new.items ≡ lines.old.items ++ over_lines is_over) }
{
    if is_over {
        lines.push(Order::Over)?;
    }
    Ok(())
}
