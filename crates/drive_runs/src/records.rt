//! What was heard in a round is recorded in a book.

ghost use Rattle.std.specs.List.{filter_map, list_all};
ghost use Rattle.std.specs.Prelude.{◌≡◌, IfOk, MatchOption, length, ltb, map};
ghost use Rattle.drive_steps.specs.declared.cancels.CommandCancel.{CommandCancel as CancelOf};
ghost use Rattle.drive_steps.specs.declared.cancels.GroupCancel.{GroupCancel as GroupCancelOf};
ghost use Rattle.drive_steps.specs.Cancels.{AreTaken};
ghost use Rattle.drive_steps.specs.Rounds.{record_of};
ghost use Rattle.drive_runs.specs.Living.{as_recorded};
ghost use Rattle.drive_runs.specs.Records.{Becomes, HasNoSteps, Records, are_numbered};
ghost use Rattle.drive_runs.specs.Records.{end_of_gone, ends_of, is_met, is_of_plan, is_whole};
ghost use Rattle.drive_runs.specs.Records.{once_canceled, some_gone};
ghost use Rattle.drive_runs.specs.Moving.{Moves};

use crate::faults::first_fault;
use crate::living::{Living, after_ends, as_recorded, is_among, reason_of, without};
use crate::plays::play;
use crate::sittings::Sitting;
use drive_parts::heard::Heard;
use drive_steps::cancels::{CommandCancel, GroupCancel, canceled_text, taken_cancels};
use drive_steps::heard::{Ended, note, record_of};
use drive_steps::reported::{had_room, were_canceled};
use drive_steps::rooms::are_housed;
use drive_steps::stops::own_why;
use run_book::Book;
use run_disk::RunDisk;
use run_model::{Fault, Moment, Outcome, Refusal, Reply, Step};
use run_session::State;
use std::alloc::{AllocError, Allocator, Global};

/// What became of what was heard.
#[derive(Clone, Copy)]
pub enum Recorded {
    /// All of it is recorded, and commands can begin.
    Well,
    /// The store has to be opened again: nobody knows how a try ended, or the log is full.
    Reopen,
    /// The store has no row left for a cancel.
    Full,
    /// A step met a fault.
    Faulty(Fault),
}

/// Records what was heard in a round, in memory. A living try that was canceled has to stop from
/// then on.
#[tactic(auto, using(crate::proofs::Moving::moves_none, crate::proofs::Moving::moves_then))]
pub fn record<D: RunDisk, A: Allocator>(
    alloc: Global,
    book: &mut Book<D, A>,
    sitting: &mut Sitting,
    heard: &Heard,
    now: Moment,
) -> Result<Recorded, AllocError>
    ensures recorded { IfOk result (λ recorded. Records D.state sitting.old heard.now now book.old
        recorded sitting.new book.new) }
    ensures moves { Moves D.state book.old book.new }
{
    let parts = parts_of(alloc, sitting.kept.living.as_slice(), heard)?;
    let ends = parts.ends.as_slice();
    let Some(recording) = steps_of(alloc, book.state(), sitting, ends, heard, now)? else {
        return Ok(Recorded::Full);
    };
    let taken = recording.taken.as_slice();
    note(&mut sitting.kept.ends, ends, now.get())?;
    let replies = play(alloc, book, recording.steps.as_slice())?;
    let left = after_ends(alloc, parts.living.as_slice(), ends)?;
    let is_gone = some_gone(left.as_slice(), heard.gone.as_slice());
    let living = without(alloc, left.as_slice(), heard.gone.as_slice())?;
    sitting.kept.living = living;
    Ok(what_became(ends, taken, replies.as_slice(), is_gone))
}

/// Returns what became of what was heard, by the replies to the steps that record it.
fn what_became(
    ends: &[Ended],
    taken: &[CommandCancel],
    replies: &[Reply],
    is_gone: bool,
) -> Recorded
    ensures { Becomes (length ends.now) taken.now replies.now is_gone result }
{
    if let Some(fault) = first_fault(replies) {
        return Recorded::Faulty(fault);
    }
    if !had_room(replies) {
        return Recorded::Reopen;
    }
    if !is_whole(ends.len(), taken, replies) {
        return Recorded::Full;
    }
    if is_gone {
        Recorded::Reopen
    } else {
        Recorded::Well
    }
}

/// Returns whether each step was taken or had nothing to do, and whether a task was submitted and
/// started for each of these cancels. This many ends came before them.
fn is_whole(ends: usize, taken: &[CommandCancel], replies: &[Reply]) -> bool
    ensures { result ≡ is_whole ends taken.now replies.now }
{
    are_met(replies) && were_canceled(ends, taken, replies)
}

/// Returns whether each step was taken, or had nothing to do.
fn are_met(replies: &[Reply]) -> bool
    ensures { result ≡ list_all is_met replies.now }
{
    replies.iter().all(|reply| is_met(reply))
}

/// Returns whether a step was taken, or had nothing to do.
fn is_met(reply: &Reply) -> bool
    ensures { result ≡ is_met reply.now }
{
    match reply {
        Reply::Refused(Refusal::AlreadyDone | Refusal::ClockNotForward) => true,
        Reply::Refused(_) | Reply::Faulty(_) => false,
        _ => true,
    }
}

/// Returns whether one of these tries is gone.
fn some_gone(living: &[Living], gone: &[u16]) -> bool
    ensures { result ≡ some_gone gone.now living.now }
{
    living.iter().any(|one| is_among(gone, one.task))
}

/// What becomes of the living tries by what was heard.
#[derive(Drop)]
struct Parts {
    /// The living tries, once those of canceled commands have to stop.
    living: Vec<Living>,
    /// The ends that are recorded.
    ends: Vec<Ended>,
}

/// Returns what becomes of the living tries by what was heard.
fn parts_of(alloc: Global, living: &[Living], heard: &Heard) -> Result<Parts, AllocError>
    ensures living { IfOk result (λ parts.
        parts.living.items ≡ once_canceled heard.now.cancels.items living.now) }
    ensures ends { IfOk result (λ parts. parts.ends.items ≡ ends_of parts.living.items heard.now) }
{
    let living = once_canceled(alloc, heard.cancels.as_slice(), living)?;
    let ends = ends_in(alloc, living.as_slice(), heard)?;
    Ok(Parts { living, ends })
}

/// The cancels of commands that are recorded, and all steps that record a round.
#[derive(Drop)]
struct Recording {
    taken: Vec<CommandCancel>,
    steps: Vec<Step>,
}

/// Returns the steps that record a round with these ends. `None` if they can't be numbered in the
/// store.
fn steps_of<A: Allocator>(
    alloc: Global,
    state: &State<A>,
    sitting: &Sitting,
    ends: &[Ended],
    heard: &Heard,
    now: Moment,
) -> Result<Option<Recording>, AllocError>
    ensures { IfOk result (λ found. MatchOption found
        (HasNoSteps state.now sitting.now ends.now heard.now)
        (λ recording. AreTaken state.now sitting.now.names sitting.now.plan.commands.items ends.now
        heard.now.cancels.items recording.taken.items
        × (recording.steps.items ≡ record_of state.now sitting.now.names
        sitting.now.plan.commands.items ends.now recording.taken.items heard.now.done.items
        now))) }
{
    let (plan, names) = (&sitting.plan, &sitting.names);
    let (cancels, groups) = (heard.cancels.as_slice(), heard.done.as_slice());
    if !is_of_plan(state, sitting, heard) {
        return Ok(None);
    }
    let taken = taken_cancels(alloc, state, plan, names, ends, cancels)?;
    if !are_numbered(state, sitting, taken.as_slice()) {
        return Ok(None);
    }
    let steps = record_of(
        alloc,
        state,
        plan,
        names,
        ends,
        taken.as_slice(),
        groups,
        now,
    )?;
    Ok(Some(Recording { taken, steps }))
}

/// Returns whether each group of the plan has a group of the store, and what was heard names
/// commands and groups of the plan.
fn is_of_plan<A: Allocator>(state: &State<A>, sitting: &Sitting, heard: &Heard) -> bool
    ensures { result ≡ is_of_plan state.now sitting.now heard.now }
{
    are_housed(state, &sitting.names)
        && are_of_plan(heard.cancels.as_slice(), sitting.plan.commands.len())
        && have_names(heard.done.as_slice(), sitting.names.groups.len())
}

/// Returns whether these cancels of commands can get tasks.
fn are_numbered<A: Allocator>(state: &State<A>, sitting: &Sitting, taken: &[CommandCancel]) -> bool
    ensures { result ≡ are_numbered state.now sitting.now taken.now }
{
    are_of_plan(taken, sitting.plan.commands.len())
        && taken.len() < 4096
        && state.task_count() < 32768
}

/// Returns whether these cancels name commands of a plan with this many.
fn are_of_plan(cancels: &[CommandCancel], count: usize) -> bool
    ensures { result ≡ list_all (λ (cancel : CancelOf). ltb cancel.command count) cancels.now }
{
    cancels.iter().all(|cancel| cancel.command < count)
}

/// Returns whether these cancels name groups of a plan with this many.
fn have_names(groups: &[GroupCancel], count: usize) -> bool
    ensures { result ≡ list_all (λ (cancel : GroupCancelOf). ltb cancel.group count) groups.now }
{
    groups.iter().all(|cancel| cancel.group < count)
}

/// Returns the living tries, once those of canceled commands have to stop.
fn once_canceled(
    alloc: Global,
    cancels: &[CommandCancel],
    living: &[Living],
) -> Result<Vec<Living>, AllocError>
    ensures { IfOk result (λ all. all.items ≡ once_canceled cancels.now living.now) }
{
    let mut all = Vec::new(alloc);
    for one in living {
        all.push(one.with_reason(own_why(cancels, one.command)))?;
    }
    Ok(all)
}

/// Returns the ends that are recorded.
fn ends_in(alloc: Global, living: &[Living], heard: &Heard) -> Result<Vec<Ended>, AllocError>
    ensures { IfOk result (λ ends. ends.items ≡ ends_of living.now heard.now) }
{
    let mut ends = ends_heard(alloc, living, heard.ends.as_slice())?;
    let mut gone = ends_of_gone(alloc, living, heard.gone.as_slice())?;
    ends.append(&mut gone)?;
    Ok(ends)
}

/// Returns how these ends are recorded.
fn ends_heard(alloc: Global, living: &[Living], heard: &[Ended]) -> Result<Vec<Ended>, AllocError>
    ensures { IfOk result (λ ends. ends.items ≡ map (as_recorded living.now) heard.now) }
{
    let mut ends = Vec::new(alloc);
    for end in heard {
        ends.push(as_recorded(living, end))?;
    }
    Ok(ends)
}

/// Returns the ends of those of these tries that had to stop.
#[tactic(auto, using(crate::proofs::Recording::some_more, crate::proofs::Recording::none_more))]
fn ends_of_gone(alloc: Global, living: &[Living], gone: &[u16]) -> Result<Vec<Ended>, AllocError>
    ensures { IfOk result (λ ends. ends.items ≡ filter_map (end_of_gone living.now) gone.now) }
{
    let mut ends = Vec::new(alloc);
    for task in gone {
        if let Some(end) = end_of_gone(living, *task) {
            ends.push(end)?;
        }
    }
    Ok(ends)
}

/// Returns the end of a try of which nobody knows how it ended, if it had to stop.
fn end_of_gone(living: &[Living], task: u16) -> Option<Ended>
    ensures { result ≡ end_of_gone living.now task }
{
    match reason_of(living, task) {
        Some(why) => Some(Ended {
            task,
            outcome: Outcome::Failure(canceled_text(&why)),
        }),
        None => None,
    }
}
