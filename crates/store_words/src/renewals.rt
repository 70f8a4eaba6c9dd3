//! A renewal reads a store, and makes another one that holds everything that isn't finished in it.

ghost use Rattle.std.specs.Prelude.{◌≡◌, ◌+◌, ◌≤◌, length, IfErr, IfOk};
ghost use Rattle.arrayvec.specs.ArrayVec.{array_vec_len};
ghost use Rattle.book_model.specs.Openings.{RecoversNone};
ghost use Rattle.console_lines.specs.Appended.{Appended};
ghost use Rattle.run_model.specs.Layouts.{layout_of};
ghost use Rattle.store_words.specs.Stores.{HasSizes, Prints, Remakes, of_text, renewed_line};
ghost use Rattle.store_words.specs.Stores.{sizes, sizes_line};

use crate::makings::Making;
use arrayvec::ArrayVec;
use console_lines::{RunFault, push, push_number, write_whole};
use run_book::{Book, MigrateFault};
use run_disk::RunDisk;
use run_model::{Fault, Layout};
use run_session::State;
use std::alloc::{Allocator, Global};
use std::io::Write;

/// The numbers of events, scopes, groups and tasks of a state.
#[derive(Clone, Copy)]
pub(crate) struct Sizes {
    pub(crate) events: u64,
    scopes: u64,
    groups: u64,
    tasks: u64,
}

/// The sizes of a store, and those of the store that a renewal made from it.
#[derive(Clone, Copy)]
pub struct Kept {
    before: Sizes,
    left: Sizes,
}

/// Makes of `new`, a disk that has the size of a store, a store that holds everything that isn't
/// finished in the store on `old`. Reads the sizes of both: of the old one before, and of the new
/// one after. The old disk is only read. The new one is returned.
pub fn renew<D: RunDisk, E: RunDisk>(
    alloc: Global,
    old: &mut D,
    new: E,
) -> (Result<Kept, MigrateFault>, E)
    ensures { Remakes D.state E.state old.old new result.0 old.new result.1 }
{
    let before = match sizes_on(alloc, old) {
        Ok(before) => before,
        Err(fault) => return (Err(MigrateFault::Old(fault)), new),
    };
    let mut made = match book_renewal::renew(alloc, old, new) {
        Ok(made) => made,
        Err((fault, left)) => return (Err(fault), left),
    };
    match sizes_on(alloc, &mut made) {
        Ok(left) => (Ok(Kept { before, left }), made),
        Err(fault) => (Err(MigrateFault::New(fault)), made),
    }
}

/// A renewal.
pub struct Renewal;

impl<D: RunDisk> Making<D> for Renewal {
    type Made = Kept;

    ghost layout = { layout_of };

    ghost line = { renewed_line };

    ghost ends = { Remakes D.state D.state };

    fn layout_for(&self, size: u64) -> Option<Layout> {
        Layout::of(size)
    }

    fn make(&self, alloc: Global, old: &mut D, new: D) -> (Result<Kept, MigrateFault>, D) {
        renew(alloc, old, new)
    }

    fn print<W: Write>(&self, kept: Kept, output: &mut W) -> Result<(), RunFault> {
        print_sizes(kept, output)
    }
}

/// The sizes of the state that a disk stores.
pub(crate) fn sizes_on<D: RunDisk>(alloc: Global, disk: &mut D) -> Result<Sizes, Fault>
    ensures found { IfOk result (λ found. HasSizes found (D.state disk.old) (D.state disk.new)) }
    ensures none { IfErr result (λ why. RecoversNone D.state disk.old why disk.new) }
{
    match Book::recover(alloc, disk) {
        Ok(state) => Ok(sizes_of(&state)),
        Err(fault) => Err(fault),
    }
}

fn sizes_of<A: Allocator>(state: &State<A>) -> Sizes
    ensures { result ≡ sizes state.now }
{
    Sizes {
        events: state.count(),
        scopes: state.scope_count() as u64,
        groups: state.group_count() as u64,
        tasks: state.task_count() as u64,
    }
}

/// Prints the line of a renewal. It takes no memory.
pub fn print_sizes<W: Write>(kept: Kept, output: &mut W) -> Result<(), RunFault>
    ensures { Prints (renewed_line kept) result
        (W.contents output.old) (W.contents output.new) }
{
    let mut line: ArrayVec<u8, 195> = ArrayVec::new();
    push_sizes(&mut line, kept.before, kept.left);
    write_whole(output, line.as_slice())
}

/// Appends the line of a renewal, with its LF.
fn push_sizes<const N: usize>(line: &mut ArrayVec<u8, N>, before: Sizes, left: Sizes)
    requires { array_vec_len line.old + 195 ≤ N }
    ensures { Appended line.old.items line.new.items (sizes_line before left) 195 }
{
    push_number(line, b"renewed; events ", left.events);
    push_left(line, b"; scopes ", left.scopes, before.scopes);
    push_left(line, b"; groups ", left.groups, before.groups);
    push_left(line, b"; tasks ", left.tasks, before.tasks);
    push(line, b"\n");
}

/// Appends how many rows are left of how many, after their word.
fn push_left<const N: usize>(line: &mut ArrayVec<u8, N>, word: &[u8], left: u64, were: u64)
    requires { array_vec_len line.old + (length word.now + 44) ≤ N }
    ensures { Appended line.old.items line.new.items (of_text word.now left were)
        (length word.now + 44) }
{
    push_number(line, word, left);
    push_number(line, b" of ", were);
}
