//! The steps that open a night, and those in which a group is added to it.

ghost use Rattle.std.specs.List.{list_all};
ghost use Rattle.std.specs.Prelude.{◌≡◌, ◌<◌, ◌≤◌, ◌++◌, ◌^◌, IfOk, length, true};
ghost use Rattle.run_model.specs.Tasks.{has_stage, is_fresh};
ghost use Rattle.drive_nights.specs.Names.{is_short};
ghost use Rattle.drive_nights.specs.Openings.{base_named, growth_of, new_base, new_top, opening_of};
ghost use Rattle.drive_nights.specs.Openings.{rooms_below, top_steps, until_at, withdrawals_below};
ghost use Rattle.drive_nights.specs.Openings.{withdrawn_if};

use crate::names::{Role, free_name, role_name};
use crate::nights::{base_of, name_at, night_text};
use crate::rooms::{add_room, add_scope, derive, kept_base};
use crate::untils::Until;
use row_view::copies::{name_copy, text_copy};
use run_model::{Name, Outcome, Stage, Step, Wish};
use run_session::State;
use std::alloc::{AllocError, Allocator, Global};

/// Returns the steps that open a night for the groups of a plan with these names and deadlines.
/// First, tasks that were submitted and never started are withdrawn. Then the scopes and groups of
/// the store that are missing are made. The last step is a flush.
pub fn opening_of<A: Allocator>(
    alloc: Global,
    state: &State<A>,
    night: u64,
    groups: &[Name],
    untils: &[Option<Until>],
    all: &Option<Until>,
) -> Result<Vec<Step>, AllocError>
    requires short { list_all (λ group. is_short group night) groups.now ≡ true }
    requires night { night < 10 ^ 10 }
    ensures { IfOk result (λ steps. steps.items
        ≡ opening_of state.now night groups.now untils.now all.now) }
{
    let mut steps = Vec::new(alloc);
    add_withdrawals(&mut steps, state)?;
    let kept = kept_base(state, night, all);
    if kept.is_none() {
        add_top(&mut steps, state, night, all)?;
    }
    let base = base_name(state, night, kept);
    add_rooms(
        &mut steps,
        state,
        night,
        &base,
        kept.is_none(),
        groups,
        untils,
    )?;
    steps.push(Step::Flush)?;
    Ok(steps)
}

/// Returns the steps in which a group is added to a night that is under way.
pub fn growth_of<A: Allocator>(
    alloc: Global,
    state: &State<A>,
    night: u64,
    group: &Name,
    until: &Option<Until>,
) -> Result<Vec<Step>, AllocError>
    requires { is_short group.now night ≡ true }
    ensures { IfOk result (λ steps. steps.items
        ≡ growth_of state.now night group.now until.now) }
{
    let mut steps = Vec::new(alloc);
    let base = match base_of(state, night) {
        Some(base) => name_at(state, base),
        None => name_copy(b"root"),
    };
    add_room(&mut steps, state, night, &base, false, group, until)?;
    Ok(steps)
}

/// Adds a start and a finish for each task that was submitted and not started.
fn add_withdrawals<A: Allocator>(steps: &mut Vec<Step>, state: &State<A>) -> Result<(), AllocError>
    ensures { IfOk result (λ _. steps.new.items ≡ steps.old.items
        ++ withdrawals_below state.now (length state.now.work.tasks)) }
{
    for n in 0..state.task_count() as u16 {
        add_withdrawal(steps, state, n)?;
    }
    Ok(())
}

/// Adds a start and a finish for this task, if it was submitted and not started.
fn add_withdrawal<A: Allocator>(
    steps: &mut Vec<Step>,
    state: &State<A>,
    n: u16,
) -> Result<(), AllocError>
    ensures { IfOk result (λ _. steps.new.items ≡ steps.old.items
        ++ withdrawn_if (has_stage is_fresh state.now.work n) n) }
{
    if is_fresh(state, n) {
        steps.push(Step::Start)?;
        steps.push(Step::Finish(n, Outcome::Failure(text_copy(b"withdrawn"))))?;
    }
    Ok(())
}

/// Returns whether a task was submitted, and not started.
fn is_fresh<A: Allocator>(state: &State<A>, n: u16) -> bool
    ensures { result ≡ has_stage is_fresh state.now.work n }
{
    match state.groups().task_row(n) {
        Some(task) => matches!(task.stage, Stage::Fresh),
        None => false,
    }
}

/// Adds the steps for a new top of a night.
fn add_top<A: Allocator>(
    steps: &mut Vec<Step>,
    state: &State<A>,
    night: u64,
    all: &Option<Until>,
) -> Result<(), AllocError>
    requires { night < 10 ^ 10 }
    ensures { IfOk result (λ _. steps.new.items ≡ steps.old.items
        ++ top_steps state.now night all.now) }
{
    let top = new_top(state, night);
    add_scope(steps, &top, &name_copy(b"root"), all)?;
    if let Some(number) = night_text(night) {
        let value = Wish::Value(name_copy(b"night"), number);
        steps.push(derive(&role_name(&top, Role::Round), &top, value))?;
    }
    Ok(())
}

/// Returns the name of a new top of a night.
fn new_top<A: Allocator>(state: &State<A>, night: u64) -> Name
    requires { night < 10 ^ 10 }
    ensures value { result ≡ new_top state.now night }
    ensures short { length result ≤ 29 }
{
    free_name(state, &name_copy(b"night"), night)
}

/// Returns the name of the base of a night: of the one that stays, or of a new one.
fn base_name<A: Allocator>(state: &State<A>, night: u64, kept: Option<u16>) -> Name
    requires { night < 10 ^ 10 }
    ensures { result ≡ base_named state.now night kept }
{
    match kept {
        Some(base) => name_at(state, base),
        None => new_base(state, night),
    }
}

/// Returns the name of a new base of a night.
fn new_base<A: Allocator>(state: &State<A>, night: u64) -> Name
    requires { night < 10 ^ 10 }
    ensures { result ≡ new_base state.now night }
{
    let top = new_top(state, night);
    if night <= 1 {
        top
    } else {
        role_name(&top, Role::Round)
    }
}

/// Adds the steps for each group of a plan.
fn add_rooms<A: Allocator>(
    steps: &mut Vec<Step>,
    state: &State<A>,
    night: u64,
    base: &Name,
    moved: bool,
    groups: &[Name],
    untils: &[Option<Until>],
) -> Result<(), AllocError>
    requires { list_all (λ group. is_short group night) groups.now ≡ true }
    ensures { IfOk result (λ _. steps.new.items ≡ steps.old.items
        ++ rooms_below state.now night base.now moved groups.now untils.now (length groups.now)) }
{
    let none = None;
    for (g, group) in groups.iter().enumerate() {
        let until = until_at(untils, g, &none);
        add_room(steps, state, night, base, moved, group, until)?;
    }
    Ok(())
}

/// Returns the deadline of this group of a plan.
fn until_at<'a>(untils: &'a [Option<Until>], g: usize, none: &'a Option<Until>) -> &'a Option<Until>
    requires { none.now ≡ None }
    ensures { result.now ≡ until_at untils.now g }
{
    match untils.get(g) {
        Some(until) => until,
        None => none,
    }
}
