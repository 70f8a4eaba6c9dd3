//! An [`Entry`] is a store, a scope, a group or a task as JSON.

ghost use Rattle.std.specs.List.{flat_map};
ghost use Rattle.std.specs.Prelude.{◌≡◌, ◌++◌, ◌+◌, ◌≤◌, codes, length};
ghost use Rattle.arrayvec.specs.ArrayVec.{array_vec_len};
ghost use Rattle.state_views.specs.declared.json_entries.TheConstants.{LONGEST_ENTRY};
ghost use Rattle.state_views.specs.Entries.{done_text, entry_text, failure_of, group_object};
ghost use Rattle.state_views.specs.Entries.{held_text, kind_word, layout_word};
ghost use Rattle.state_views.specs.Entries.{number_or_null, opened_text, parent_text, quoted};
ghost use Rattle.state_views.specs.Entries.{scope_object, separator, store_object, string_byte};
ghost use Rattle.state_views.specs.Entries.{string_or_null, string_text, task_object, truth_text};
ghost use Rattle.console_lines.specs.Appended.{Appended, AppendedAfter};

use arrayvec::ArrayVec;
use console_lines::{phase_word, push, push_after, push_count, push_moment, push_number};
use run_model::{
    GroupLook, Kind, Layout, Look, MOST_GROUPS, Moment, Name, Phase, Reason, TaskLook, Text,
};

/// The greatest number of bytes in an entry, including the separator before it in a list.
pub const LONGEST_ENTRY: usize = 552;

/// A store, a scope, a group or a task, to be printed as JSON.
#[derive(Drop)]
pub enum Entry {
    /// A store: the number of its events, its clock and its layout.
    Store(u64, Moment, Layout),
    /// A scope: its number, the number of its parent, its kind and its status.
    Scope(u16, u16, Kind, Look),
    /// A group: its number and its status.
    Group(u16, GroupLook),
    /// A task: its number, the name of its group, and its status.
    Task(u16, Name, TaskLook),
}

impl Entry {
    /// Appends an entry of a list, on a line of its own, after a comma unless it is the first
    /// entry.
    pub fn append_next<const N: usize>(&self, first: bool, out: &mut ArrayVec<u8, N>)
        requires { array_vec_len out.old + LONGEST_ENTRY ≤ N }
        ensures { Appended out.old.items out.new.items (separator first ++ entry_text self.now)
            LONGEST_ENTRY }
    {
        push_separator(out, first);
        self.append(out);
    }

    /// Appends the entry. The object of the store is left open, because its lists follow.
    pub fn append<const N: usize>(&self, out: &mut ArrayVec<u8, N>)
        requires { array_vec_len out.old + 550 ≤ N }
        ensures { Appended out.old.items out.new.items (entry_text self.now) 550 }
    {
        match self {
            Entry::Store(count, clock, layout) => push_store(out, *count, *clock, *layout),
            Entry::Scope(number, parent, kind, look) => {
                push_scope(out, *number, *parent, kind, look)
            }
            Entry::Group(number, look) => push_group(out, *number, look),
            Entry::Task(number, group, look) => push_task(out, *number, group, look),
        }
    }
}

/// Appends the object of a store, up to its lists.
fn push_store<const N: usize>(out: &mut ArrayVec<u8, N>, count: u64, clock: Moment, layout: Layout)
    requires { array_vec_len out.old + 204 ≤ N }
    ensures { Appended out.old.items out.new.items (store_object count clock layout) 204 }
{
    push_number(out, b"{\"version\":1,\"count\":", count);
    push_moment(out, b",\"clock\":", clock);
    push_layout(out, layout);
    push_number(out, b",\"room\":{\"scopes\":", layout.most_scopes() as u64);
    push_number(out, b",\"groups\":", MOST_GROUPS as u64);
    push_number(out, b",\"tasks\":", layout.most_tasks() as u64);
    push(out, b"}");
}

/// Appends the object of a scope.
fn push_scope<const N: usize>(
    out: &mut ArrayVec<u8, N>,
    number: u16,
    parent: u16,
    kind: &Kind,
    look: &Look,
)
    requires { array_vec_len out.old + 543 ≤ N }
    ensures { Appended out.old.items out.new.items
        (scope_object number parent kind.now look.now) 543 }
{
    push_opened(out, number, &look.name);
    push_parent(out, parent, kind);
    push_quoted(out, b",\"kind\":", kind_word(kind).as_bytes());
    push_held(out, kind);
    let deadline = look.deadline.map(|moment| moment.get());
    push_number_or_null(out, b",\"deadline\":", deadline);
    push_done(out, &look.done);
}

/// Appends the object of a group.
fn push_group<const N: usize>(out: &mut ArrayVec<u8, N>, number: u16, look: &GroupLook)
    requires { array_vec_len out.old + 274 ≤ N }
    ensures { Appended out.old.items out.new.items (group_object number look.now) 274 }
{
    push_opened(out, number, &look.name);
    push_count(out, b",\"scope\":", look.scope);
    let limit = look.limit.get().map(u64::from);
    push_number_or_null(out, b",\"limit\":", limit);
    push_waited(out, look.waited);
    push_count(out, b",\"unfinished\":", look.unfinished);
    push_error(out, &look.error);
    push(out, b"}");
}

/// Appends the object of a task.
fn push_task<const N: usize>(out: &mut ArrayVec<u8, N>, number: u16, group: &Name, look: &TaskLook)
    requires { array_vec_len out.old + 379 ≤ N }
    ensures { Appended out.old.items out.new.items (task_object number group.now look.now) 379 }
{
    push_count(out, b"{\"number\":", number);
    push_count(out, b",\"group\":", look.group);
    push_quoted(out, b",\"group_name\":", group.as_bytes());
    push_quoted(out, b",\"job\":", look.job.as_bytes());
    push_quoted(out, b",\"argument\":", look.argument.as_bytes());
    push_quoted(out, b",\"phase\":", phase_word(&look.phase).as_bytes());
    push_failure(out, &look.phase);
    let old = look.retry_of.map(u64::from);
    push_number_or_null(out, b",\"retry_of\":", old);
    push(out, b"}");
}

/// Appends the separator before an entry of a list.
fn push_separator<const N: usize>(out: &mut ArrayVec<u8, N>, first: bool)
    requires { array_vec_len out.old + 2 ≤ N }
    ensures { Appended out.old.items out.new.items (separator first) 2 }
{
    if first {
        push(out, b"\n");
    } else {
        push(out, b",\n");
    }
}

fn push_layout<const N: usize>(out: &mut ArrayVec<u8, N>, layout: Layout)
    requires { array_vec_len out.old + 44 ≤ N }
    ensures { AppendedAfter out.old.items out.new.items (codes ",\"layout\":")
        (quoted (layout_word layout)) 34 }
{
    match layout {
        Layout::Small => push(out, b",\"layout\":\"small\""),
        Layout::Large => push(out, b",\"layout\":\"large\""),
    }
}

/// Appends the number and the name of a scope or a group.
fn push_opened<const N: usize>(out: &mut ArrayVec<u8, N>, number: u16, name: &Name)
    requires { array_vec_len out.old + 57 ≤ N }
    ensures { Appended out.old.items out.new.items (opened_text number name.now) 57 }
{
    push_count(out, b"{\"number\":", number);
    push_quoted(out, b",\"name\":", name.as_bytes());
}

/// Appends the number of a scope's parent, or `null` for root.
fn push_parent<const N: usize>(out: &mut ArrayVec<u8, N>, parent: u16, kind: &Kind)
    requires { array_vec_len out.old + 30 ≤ N }
    ensures { AppendedAfter out.old.items out.new.items (codes ",\"parent\":")
        (parent_text kind.now parent) 20 }
{
    match kind {
        Kind::Root => push(out, b",\"parent\":null"),
        _ => push_count(out, b",\"parent\":", parent),
    }
}

pub(crate) fn kind_word(kind: &Kind) -> &'static str
    ensures word { result.now ≡ kind_word kind.now }
    ensures few { length result.now ≤ 32 }
{
    match kind {
        Kind::Root => "root",
        Kind::Cancel => "cancel",
        Kind::Cause => "cause",
        Kind::Deadline(_, _) => "deadline",
        Kind::Value(_, _) => "value",
        Kind::Detached => "detached",
        Kind::Group => "group",
    }
}

/// Appends the key and the value that a scope holds, or `null` for both.
fn push_held<const N: usize>(out: &mut ArrayVec<u8, N>, kind: &Kind)
    requires { array_vec_len out.old + 186 ≤ N }
    ensures { Appended out.old.items out.new.items (held_text kind.now) 186 }
{
    match kind {
        Kind::Value(key, text) => {
            push_quoted(out, b",\"key\":", key.as_bytes());
            push_string(out, b",\"value\":", text);
        }
        _ => push(out, b",\"key\":null,\"value\":null"),
    }
}

/// Appends whether a scope is done, why, and with which cause.
fn push_done<const N: usize>(out: &mut ArrayVec<u8, N>, done: &Option<(Reason, Text)>)
    requires { array_vec_len out.old + 196 ≤ N }
    ensures { Appended out.old.items out.new.items (done_text done.now) 196 }
{
    match done {
        None => push(out, b",\"done\":false,\"reason\":null,\"cause\":null}"),
        Some(ending) => {
            push_quoted(
                out,
                b",\"done\":true,\"reason\":",
                ending.0.text().as_bytes(),
            );
            push_string(out, b",\"cause\":", &ending.1);
            push(out, b"}");
        }
    }
}

fn push_waited<const N: usize>(out: &mut ArrayVec<u8, N>, waited: bool)
    requires { array_vec_len out.old + 15 ≤ N }
    ensures { AppendedAfter out.old.items out.new.items (codes ",\"waited\":")
        (truth_text waited) 5 }
{
    if waited {
        push(out, b",\"waited\":true");
    } else {
        push(out, b",\"waited\":false");
    }
}

/// Appends the first error of a group.
fn push_error<const N: usize>(out: &mut ArrayVec<u8, N>, error: &Option<Text>)
    requires { array_vec_len out.old + 139 ≤ N }
    ensures { AppendedAfter out.old.items out.new.items (codes ",\"error\":")
        (string_or_null error.now) 130 }
{
    match error {
        Some(error) => push_string(out, b",\"error\":", error),
        None => push(out, b",\"error\":null"),
    }
}

/// Appends the error with which a task failed, if it did.
fn push_failure<const N: usize>(out: &mut ArrayVec<u8, N>, phase: &Phase)
    requires { array_vec_len out.old + 139 ≤ N }
    ensures { AppendedAfter out.old.items out.new.items (codes ",\"error\":")
        (string_or_null (failure_of phase.now)) 130 }
{
    match phase {
        Phase::Failure(error) => push_string(out, b",\"error\":", error),
        _ => push(out, b",\"error\":null"),
    }
}

/// Appends a word, and then a number or `null`.
fn push_number_or_null<const N: usize>(out: &mut ArrayVec<u8, N>, word: &[u8], number: Option<u64>)
    requires { array_vec_len out.old + (length word.now + 20) ≤ N }
    ensures { AppendedAfter out.old.items out.new.items word.now (number_or_null number) 20 }
{
    match number {
        Some(number) => push_number(out, word, number),
        None => push_after(out, word, b"null"),
    }
}

/// Appends a word, and then a name or a keyword between quotation marks.
fn push_quoted<const N: usize>(out: &mut ArrayVec<u8, N>, word: &[u8], name: &[u8])
    requires few { length name.now ≤ 32 }
    requires room { array_vec_len out.old + (length word.now + 34) ≤ N }
    ensures { AppendedAfter out.old.items out.new.items word.now (quoted name.now) 34 }
{
    push(out, word);
    push(out, b"\"");
    push_after(out, name, b"\"");
}

/// Appends a word, and then a text as a string.
fn push_string<const N: usize>(out: &mut ArrayVec<u8, N>, word: &[u8], text: &Text)
    requires { array_vec_len out.old + (length word.now + 130) ≤ N }
    ensures { AppendedAfter out.old.items out.new.items word.now (string_text text.now) 130 }
{
    push(out, word);
    push(out, b"\"");
    push_escaped(out, text.as_bytes());
    push(out, b"\"");
}

/// Appends the bytes of a string.
fn push_escaped<const N: usize>(out: &mut ArrayVec<u8, N>, bytes: &[u8])
    requires few { length bytes.now ≤ 64 }
    requires room { array_vec_len out.old + 128 ≤ N }
    ensures { Appended out.old.items out.new.items (flat_map string_byte bytes.now) 128 }
{
    for byte in bytes {
        push_string_byte(out, *byte);
    }
}

/// Appends one byte of a string.
fn push_string_byte<const N: usize>(out: &mut ArrayVec<u8, N>, byte: u8)
    requires { array_vec_len out.old + 2 ≤ N }
    ensures { Appended out.old.items out.new.items (string_byte byte) 2 }
{
    if byte == b'"' || byte == b'\\' {
        push(out, &[b'\\', byte]);
    } else {
        push(out, &[byte]);
    }
}
