//! [`GroupCounts`] counts the unfinished tasks of a group, and knows the two ends of the list of
//! its held tasks. Each held task has a link to the next held task of its group. So a task that is
//! submitted or ends changes the counts of one group, and one link.

ghost use Rattle.std.specs.Prelude.{◌≡◌, ◌<◌, ◌≤◌, ◌+◌, ◌-◌, ℕ, [], ◌∷◌, ◌++◌, length, vec_len};
ghost use Rattle.std.specs.Prelude.{vec_capacity, slice_get, Some, None, Option, IfSome};
ghost use Rattle.run_model.specs.declared.bounds.TheConstants.{MOST_TASKS};
ghost use Rattle.run_model.specs.Rows.{at_row};
ghost use Rattle.task_group.specs.Kept.{entered as comes_in, linked, left as goes, left_by};
ghost use Rattle.task_group.specs.Kept.{link_of, IsWithin, no_counts};

use std::alloc::Allocator;

/// The number of a group's unfinished tasks, and the ends of the list of its held tasks.
#[derive(Clone, Copy)]
pub struct GroupCounts {
    /// The number of tasks that are fresh or running.
    pub unfinished: u16,
    /// The oldest held task.
    pub first: Option<u16>,
    /// The newest held task. If no task is held, the number has no meaning.
    pub last: u16,
}

/// Counts a new task.
pub fn enter<A: Allocator>(counts: &mut Vec<GroupCounts, A>, g: usize, admitted: bool, n: u16)
    requires known { g < vec_len counts.old }
    requires room { (s : GroupCounts) → slice_get counts.old.items g ≡ Some s
        → s.unfinished < MOST_TASKS }
    ensures entered { counts.new.items ≡ at_row (comes_in admitted n) g counts.old.items }
    ensures capacity { vec_capacity counts.new ≡ vec_capacity counts.old }
{
    let row = counts[g];
    counts[g] = entered(row, admitted, n);
}

/// Appends an empty link.
pub fn push_none<A: Allocator>(next: &mut Vec<Option<u16>, A>)
    requires { vec_len next.old < vec_capacity next.old }
    ensures pushed { next.new.items ≡ next.old.items ++ None ∷ [] }
    ensures capacity { vec_capacity next.new ≡ vec_capacity next.old }
{
    next.push_reserved(None);
}

/// Appends the link of a new task. If the task is held, it becomes the last one of its group's
/// list.
pub fn link<A: Allocator>(next: &mut Vec<Option<u16>, A>, admitted: bool, row: GroupCounts, n: u16)
    requires room { vec_len next.old < vec_capacity next.old }
    requires known { IsWithin row.first row.last (length next.old.items) }
    ensures linked { next.new.items ≡ linked admitted row.first row.last n next.old.items }
    ensures capacity { vec_capacity next.new ≡ vec_capacity next.old }
{
    if admitted {
        push_none(next);
        return;
    }
    match row.first {
        None => push_none(next),
        Some(_) => {
            set_link(next, row.last, n);
            push_none(next);
        }
    }
}

/// Removes an admitted task that ended. The first held task, if there is one, is admitted instead.
pub fn leave<A: Allocator>(
    counts: &mut Vec<GroupCounts, A>,
    next: &Vec<Option<u16>, A>,
    g: usize,
) -> Option<u16>
    requires known { g < vec_len counts.old }
    requires active { (s : GroupCounts) → slice_get counts.old.items g ≡ Some s
        → (0 < s.unfinished) × IfSome s.first (λ h. h < length next.now.items) }
    ensures first { (s : GroupCounts) → slice_get counts.old.items g ≡ Some s → result ≡ s.first }
    ensures left { counts.new.items ≡ at_row (goes next.now.items) g counts.old.items }
    ensures capacity { vec_capacity counts.new ≡ vec_capacity counts.old }
{
    let row = counts[g];
    let first = row.first;
    let link = next_of(next, first);
    counts[g] = left(row, link);
    first
}

/// Appends the counts of a group without tasks.
pub fn push_counts<A: Allocator>(counts: &mut Vec<GroupCounts, A>)
    requires { vec_len counts.old < vec_capacity counts.old }
    ensures pushed { counts.new.items ≡ counts.old.items ++ no_counts ∷ [] }
    ensures capacity { vec_capacity counts.new ≡ vec_capacity counts.old }
{
    counts.push_reserved(GroupCounts {
        unfinished: 0,
        first: None,
        last: 0,
    });
}

/// Returns the counts after task `n` was added, as an admitted or a held one.
fn entered(row: GroupCounts, admitted: bool, n: u16) -> GroupCounts
    requires { row.unfinished < MOST_TASKS }
    ensures { result ≡ comes_in admitted n row }
{
    if admitted {
        return GroupCounts {
            unfinished: row.unfinished + 1,
            first: row.first,
            last: row.last,
        };
    }
    GroupCounts {
        unfinished: row.unfinished + 1,
        first: row.first.or(Some(n)),
        last: n,
    }
}

/// Returns the counts after an admitted task ended. `link` is the link of the first held task.
fn left(row: GroupCounts, link: Option<u16>) -> GroupCounts
    requires { 0 < row.unfinished }
    ensures { result ≡ left_by row.first link row }
{
    match row.first {
        None => GroupCounts {
            unfinished: row.unfinished - 1,
            first: None,
            last: row.last,
        },
        Some(_) => GroupCounts {
            unfinished: row.unfinished - 1,
            first: link,
            last: row.last,
        },
    }
}

/// Returns the link of task `first`, if there is one.
fn next_of<A: Allocator>(next: &Vec<Option<u16>, A>, first: Option<u16>) -> Option<u16>
    requires { IfSome first (λ h. h < length next.now.items) }
    ensures { result ≡ link_of next.now.items first }
{
    match first {
        None => None,
        Some(h) => next[h as usize],
    }
}

/// Links the last held task to the next one.
fn set_link<A: Allocator>(next: &mut Vec<Option<u16>, A>, last: u16, n: u16)
    requires { last < vec_len next.old }
    ensures set { next.new.items ≡ at_row (λ _. Some n) last next.old.items }
    ensures len { vec_len next.new ≡ vec_len next.old }
    ensures capacity { vec_capacity next.new ≡ vec_capacity next.old }
{
    next[last as usize] = Some(n);
}
