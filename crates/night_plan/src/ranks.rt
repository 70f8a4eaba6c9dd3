//! Ranks of commands: each greater than those of all that it comes after.
//!
//! They are found by a walk from each command to what it comes after. Each need, each command and
//! each link of a group is passed once, so the time grows with these and no faster.

ghost use Rattle.std.specs.Prelude.{◌≡◌, ◌<◌, ◌≤◌, ◌+◌, ℕ, All, IfOk, MatchOption, length};
ghost use Rattle.std.specs.Prelude.{drop, slice_get, slice_index, true, Some};
ghost use Rattle.night_plan.specs.Plans.{is_within};
ghost use Rattle.night_plan.specs.Ranks.{HasRanks, IsGrouped, IsSearching, NeedsRanked};
ghost use Rattle.night_plan.specs.Ranks.{FirstUnranked, IsRanking, touches};

use crate::commands::{Command, Need, Subject};
use crate::links::{Links, last_unranked, link};
use std::alloc::{AllocError, Global};

/// A command without a rank that a need names, if there is one. The cursor of a group is where it
/// is looked for; those after it have ranks.
fn unranked_by(
    commands: &[Command],
    ranks: &[usize],
    links: &Links,
    cursors: &mut Vec<usize>,
    need: Need,
) -> Option<usize>
    requires groups { IsGrouped commands.now links.now ranks.now cursors.old.items }
    requires within { is_within (length cursors.old.items) (length commands.now) need.of ≡ true }
    ensures groups { IsGrouped commands.now links.now ranks.now cursors.new.items }
    ensures sized { length cursors.new.items ≡ length cursors.old.items }
    ensures named { MatchOption result (HasRanks commands.now ranks.now need)
        (λ d. (touches commands.now need.of d ≡ true) × (slice_index ranks.now d ≡ 0)) }
{
    match need.of {
        Subject::Command(d) => { if ranks[d] == 0 { Some(d) } else { None } }
        Subject::Group(g) => {
            let last = last_unranked(commands, cursors.len(), ranks, links, g, cursors[g]);
            cursors[g] = last;
            last.checked_sub(1)
        }
    }
}

/// A command without a rank that another one comes after, if there is one. The needs that are met
/// are not asked again.
fn blocker(
    commands: &[Command],
    ranks: &[usize],
    links: &Links,
    cursors: &mut Vec<usize>,
    met: &mut Vec<usize>,
    c: usize,
) -> Option<usize>
    requires search { IsSearching commands.now links.now ranks.now cursors.old.items
        met.old.items }
    requires within { All (λ command. All (λ need. is_within (length cursors.old.items)
        (length commands.now) need.of ≡ true) command.needs.items) commands.now }
    requires is { c < length commands.now }
    ensures search { IsSearching commands.now links.now ranks.now cursors.new.items
        met.new.items }
    ensures sized { length cursors.new.items ≡ length cursors.old.items }
    ensures named { MatchOption result (NeedsRanked commands.now ranks.now c)
        (FirstUnranked commands.now ranks.now c) }
{
    let needs = commands[c].needs.as_slice();
    for k in met[c]..needs.len() {
        if let Some(d) = unranked_by(commands, ranks, links, cursors, needs[k]) {
            met[c] = k;
            return Some(d);
        }
    }
    None
}

/// The ranks of all commands, and the commands by their ranks.
#[derive(Drop)]
pub struct Ranks {
    pub ranks: Vec<usize>,
    pub order: Vec<usize>,
}

/// Ranks of all commands, or a circle: each comes after the next one, and the last after the first.
#[derive(Drop)]
pub enum Ranking {
    Ranks(Ranks),
    Circle(Vec<usize>),
}

/// What is left of a path from a place on.
fn from_place(alloc: Global, path: &[usize], at: usize) -> Result<Vec<usize>, AllocError>
    requires { at ≤ length path.now }
    ensures { IfOk result (λ rest. rest.items ≡ drop at path.now) }
{
    Vec::from_slice(alloc, &path[at..])
}

/// Ranks for all commands, unless some come after each other in a circle.
pub fn rank_all(alloc: Global, groups: usize, commands: &[Command]) -> Result<Ranking, AllocError>
    requires own { All (λ command. command.group < groups) commands.now }
    requires within { All (λ command. All (λ need. is_within groups (length commands.now) need.of
        ≡ true) command.needs.items) commands.now }
    ensures { IfOk result (IsRanking commands.now) }
{
    let links = link(alloc, groups, commands)?;
    let mut cursors = Vec::from_slice(alloc, links.last.as_slice())?;
    let mut met = vec![in alloc; 0usize; commands.len()]?;
    let mut ranks = vec![in alloc; 0usize; commands.len()]?;
    let mut order = Vec::new(alloc);
    let mut places = vec![in alloc; 0usize; commands.len()]?;
    let mut path = Vec::new(alloc);
    for first in 0..commands.len() {
        if ranks[first] > 0 {
            continue;
        }
        path.push(first)?;
        places[first] = 1;
        'walk: while !path.is_empty() {
            let c = path[path.len() - 1];
            let Some(d) = blocker(
                commands,
                ranks.as_slice(),
                &links,
                &mut cursors,
                &mut met,
                c,
            ) else {
                path.truncate(path.len() - 1);
                order.push(c)?;
                ranks[c] = order.len();
                continue 'walk;
            };
            if places[d] > 0 {
                let circle = from_place(alloc, path.as_slice(), places[d] - 1)?;
                return Ok(Ranking::Circle(circle));
            }
            path.push(d)?;
            places[d] = path.len();
        }
    }
    Ok(Ranking::Ranks(Ranks { ranks, order }))
}

/// The places of commands in the order, each before its rank.
pub fn places_of(alloc: Global, ranks: &[usize]) -> Result<Vec<usize>, AllocError>
    requires { (c : ℕ) → c < length ranks.now → 0 < slice_index ranks.now c }
    ensures sized { IfOk result (λ places. length places.items ≡ length ranks.now) }
    ensures before { IfOk result (λ places. (c : ℕ) → c < length ranks.now
        → slice_index places.items c + 1 ≡ slice_index ranks.now c) }
{
    let mut places = Vec::new(alloc);
    for rank in ranks {
        places.push(rank.saturating_sub(1))?;
    }
    Ok(places)
}
