//! The first line of a tree, which says how full a store is, and the line of a scope in a tree.

ghost use Rattle.std.specs.Prelude.{◌≡◌, ◌+◌, ◌≤◌, length};
ghost use Rattle.arrayvec.specs.ArrayVec.{array_vec_len};
ghost use Rattle.state_views.specs.declared.tree_lines.TheConstants.{LONGEST_TREE_HEAD};
ghost use Rattle.state_views.specs.declared.tree_lines.TheConstants.{LONGEST_TREE_SCOPE};
ghost use Rattle.console_lines.specs.Appended.{Appended};
ghost use Rattle.state_views.specs.Trees.{fullness, head_line, kind_line, kind_text, taken_text};

use crate::json_entries::kind_word;
use crate::row_lines::{push_counts, push_named};
use arrayvec::ArrayVec;
use console_lines::{push, push_after, push_look, push_name, push_number, push_text};
use run_model::{Kind, Layout, Look, MOST_GROUPS, Moment};

/// The greatest number of bytes in the first line of a tree, including its LF.
pub const LONGEST_TREE_HEAD: usize = 212;

/// The greatest number of bytes in the line of a scope, including its LF, but without the branches
/// before it.
pub const LONGEST_TREE_SCOPE: usize = 304;

/// How full a store is: the numbers of its scopes, including root, of its groups and of its tasks.
#[derive(Clone, Copy)]
pub struct Taken {
    pub scopes: usize,
    pub groups: usize,
    pub tasks: usize,
}

/// Appends the first line: `events 6; clock 0; scopes 2 of 4096; groups 1 of 128; tasks 2 of 8192`.
pub fn append_tree_head<const N: usize>(
    count: u64,
    clock: Moment,
    layout: Layout,
    taken: &Taken,
    out: &mut ArrayVec<u8, N>,
)
    requires { array_vec_len out.old + LONGEST_TREE_HEAD ≤ N }
    ensures { Appended out.old.items out.new.items (head_line count clock layout taken.now)
        LONGEST_TREE_HEAD }
{
    push_counts(out, count, clock);
    push_fullness(out, layout, taken);
    push(out, b"\n");
}

/// Appends how full a store is.
fn push_fullness<const N: usize>(out: &mut ArrayVec<u8, N>, layout: Layout, taken: &Taken)
    requires { array_vec_len out.old + 160 ≤ N }
    ensures { Appended out.old.items out.new.items (fullness layout taken.now) 160 }
{
    push_taken(out, b"scopes", taken.scopes, layout.most_scopes());
    push_taken(out, b"groups", taken.groups, MOST_GROUPS);
    push_taken(out, b"tasks", taken.tasks, layout.most_tasks());
}

/// Appends how many rows of a kind there are, and how many there can be.
fn push_taken<const N: usize>(out: &mut ArrayVec<u8, N>, word: &[u8], count: usize, most: usize)
    requires word { length word.now ≤ 6 }
    requires room { array_vec_len out.old + 53 ≤ N }
    ensures { Appended out.old.items out.new.items (taken_text word.now count most) 53 }
{
    push_after(out, b"; ", word);
    push_number(out, b" ", count as u64);
    push_number(out, b" of ", most as u64);
}

/// Appends the line of a scope with its kind: `scope 1 g group; live; deadline none`.
pub fn append_tree_scope<const N: usize>(
    number: u16,
    kind: &Kind,
    look: &Look,
    out: &mut ArrayVec<u8, N>,
)
    requires { array_vec_len out.old + LONGEST_TREE_SCOPE ≤ N }
    ensures { Appended out.old.items out.new.items (kind_line number kind.now look.now)
        LONGEST_TREE_SCOPE }
{
    push_named(out, b"scope", number, &look.name);
    push_kind(out, kind);
    push(out, b"; ");
    push_look(out, look);
    push(out, b"\n");
}

/// Appends the kind of a scope, and the value that it holds.
fn push_kind<const N: usize>(out: &mut ArrayVec<u8, N>, kind: &Kind)
    requires { array_vec_len out.old + 103 ≤ N }
    ensures { Appended out.old.items out.new.items (kind_text kind.now) 103 }
{
    match kind {
        Kind::Value(key, text) => {
            push_name(out, b"value ", key);
            push_text(out, b" ", text);
        }
        _ => push(out, kind_word(kind).as_bytes()),
    }
}
