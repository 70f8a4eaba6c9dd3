//! What each subcommand does with the files that its arguments name.

ghost use Rattle.std.specs.Prelude.{◌≡◌, IfErr, IfOk};
ghost use Rattle.store_files.specs.Files.{AreNoted, IsNotMade, Makes, ToMake};
ghost use Rattle.store_words.specs.Stores.{AnswersMade};
ghost use Rattle.store_words.specs.Words.{DoesFormat, DoesInspect, DoesMake, DoesMigrate};
ghost use Rattle.store_words.specs.Failures.{Names};
ghost use Rattle.store_words.specs.Words.{DoesRenew, IsLeft, LooksInUse};

use crate::looks::look;
use crate::makings::Making;
use crate::migrations::Migration;
use crate::renewals::Renewal;
use crate::sources::read_source;
use crate::stores::{format, inspect};
use crate::{Done, Failure, FileName, done_alone, done_over, failed_of, failed_source, no_file};
use console_lines::RunFault;
use run_book::MigrateFault;
use run_disk::RunDisk;
use run_model::Layout;
use state_views::View;
use std::alloc::Global;
use std::io::Write;
use store_files::{FileError, Files, FirstError, Made, Opened};

/// Creates the file with this name or empties it, makes a large store of it, and prints
/// `formatted`. With `only_new` it fails if there is such a file. If no store can be made of a new
/// file, the file is removed again.
pub fn format_file<'a, F: Files, O: Write>(
    store: &'a str,
    only_new: bool,
    files: &mut F,
    output: &mut O,
) -> Result<Done, Failure<'a>>
    ensures { DoesFormat F.Disk.state F.seen store.now only_new result files.old files.new
        (O.contents output.old) (O.contents output.new) }
{
    match make(store, Layout::Large, only_new, files) {
        Ok(Made { disk, why, is_new }) => {
            let (done, left) = format(disk, output);
            let answer = done_over(done, store, &why);
            leave(files, store, is_new, left, &answer);
            answer
        }
        Err(error) => Err(no_file(store, error)),
    }
}

/// Makes the file of this name with the size of a store of this layout: it is created or emptied,
/// or with `only_new` only created.
fn make<F: Files>(
    name: &str,
    layout: Layout,
    only_new: bool,
    files: &mut F,
) -> Result<Made<F::Disk, F::FirstError>, FileError>
    ensures made { IfOk result (λ made. Makes F.Disk.state F.seen name.now layout only_new
        made.is_new made.disk files.old files.new) }
    ensures noted { IfOk result (λ made. AreNoted (F.FirstError.notes made.why)
        (F.seen.notes made.disk)) }
    ensures not { IfErr result (λ error. F.seen.refuses ToMake files.old name.now error
        × IsNotMade F.seen name.now only_new files.old files.new) }
{
    let size = layout.store_len();
    if only_new {
        files.create_new(name, None, size)
    } else {
        files.create(name, size)
    }
}

/// Removes the file of this name if it is new and the subcommand failed; else closes it.
fn leave<F: Files>(
    files: &mut F,
    name: &str,
    is_new: bool,
    left: F::Disk,
    answer: &Result<Done, Failure<'_>>,
)
    ensures { IsLeft F.seen is_new answer.now name.now left files.old files.new }
{
    if is_new && answer.is_err() {
        files.remove(name);
    } else {
        files.close(name, left);
    }
}

/// Prints this view of the store in the file with this name, even if another program has it open.
/// Nothing is written to the store.
pub fn inspect_file<'a, F: Files, O: Write>(
    alloc: Global,
    store: &'a str,
    view: View<'_>,
    files: &mut F,
    output: &mut O,
) -> Result<Done, Failure<'a>>
    ensures { DoesInspect F.Disk.state F.seen view.entry store.now result files.old files.new
        (O.contents output.old) (O.contents output.new) }
{
    match files.open_to_read(store) {
        Ok(Opened { mut disk, why }) => {
            let done = inspect(alloc, &mut disk, view, output);
            files.close(store, disk);
            done_over(done, store, &why)
        }
        Err(FileError::InUse) => look_file(alloc, store, view, files, output),
        Err(error) => Err(no_file(store, error)),
    }
}

/// Prints this view of the store in the file of this name, which another program has open.
fn look_file<'a, F: Files, O: Write>(
    alloc: Global,
    store: &'a str,
    view: View<'_>,
    files: &mut F,
    output: &mut O,
) -> Result<Done, Failure<'a>>
    ensures { LooksInUse F.Disk.state F.seen view.entry store.now result files.old files.new
        (O.contents output.old) (O.contents output.new) }
{
    match files.look(store) {
        Ok(opened) => {
            let (answer, read) = look(alloc, files, opened, store, view, output);
            files.close(store, read);
            answer
        }
        Err(error) => Err(no_file(store, error)),
    }
}

/// Opens the small store in the file with the old name for reading only, and reads it whole. Then
/// it creates the file with the new name, or empties one that needn't be new. It makes a large
/// store of it, with the state of the old one, and prints how many events it has. If the old store
/// can't be migrated, no other file is touched.
pub fn migrate_file<'a, F: Files, O: Write>(
    alloc: Global,
    old: &'a str,
    new: &'a str,
    only_new: bool,
    files: &mut F,
    output: &mut O,
) -> Result<Done, Failure<'a>>
    ensures { DoesMigrate F.Disk.state F.seen only_new old.now new.now result
        files.old files.new (O.contents output.old) (O.contents output.new) }
{
    make_from(&Migration, alloc, old, new, only_new, files, output)
}

/// Opens the store in the file with the old name for reading only, and reads it whole. Then it
/// creates the file with the new name, or empties one that needn't be new. It makes of it a store
/// of the same size, which holds everything that isn't finished in the old one, and prints how much
/// that is. If the old store can't be renewed, no other file is touched.
pub fn renew_file<'a, F: Files, O: Write>(
    alloc: Global,
    old: &'a str,
    new: &'a str,
    only_new: bool,
    files: &mut F,
    output: &mut O,
) -> Result<Done, Failure<'a>>
    ensures { DoesRenew F.Disk.state F.seen only_new old.now new.now result
        files.old files.new (O.contents output.old) (O.contents output.new) }
{
    make_from(&Renewal, alloc, old, new, only_new, files, output)
}

/// Makes a store in the file of the new name of the one in the file of the old name, by a migration
/// or a renewal. The old store is opened for reading alone, and read whole before any other file is
/// touched.
fn make_from<'a, M: Making<F::Disk>, F: Files, O: Write>(
    making: &M,
    alloc: Global,
    old: &'a str,
    new: &'a str,
    only_new: bool,
    files: &mut F,
    output: &mut O,
) -> Result<Done, Failure<'a>>
    ensures { DoesMake F.Disk.state F.seen (λ source. M.layout (F.Disk.state source).size) M.line
        M.ends only_new old.now new.now result files.old files.new
        (O.contents output.old) (O.contents output.new) }
{
    let Opened {
        disk: mut source,
        why: why_old,
    } = match files.open_to_read(old) {
        Ok(opened) => opened,
        Err(error) => return Err(no_file(old, error)),
    };
    let from = Layout::of(source.size());
    let to = making.layout_for(source.size());
    let layout = match read_source(alloc, &mut source, to) {
        Ok(layout) => layout,
        Err(fault) => {
            files.close(old, source);
            return Err(failed_source(RunFault::from(fault), from, to, old, &why_old));
        }
    };
    match make(new, layout, only_new, files) {
        Ok(Made { disk, why, is_new }) => {
            let (done, left) = making.make(alloc, &mut source, disk);
            let answer = made_of(making, done, old, &why_old, new, &why, output);
            leave(files, new, is_new, left, &answer);
            files.close(old, source);
            answer
        }
        Err(error) => {
            files.close(old, source);
            Err(no_file(new, error))
        }
    }
}

/// Prints the line of the store that was made in the new file of the one in the old file. If none
/// was made, or it couldn't be read, the failure names the file that is to blame.
fn made_of<'a, D: RunDisk, M: Making<D>, Y: FirstError, O: Write>(
    making: &M,
    done: Result<M::Made, MigrateFault>,
    old: &'a str,
    why_old: &Y,
    new: &'a str,
    why_new: &Y,
    output: &mut O,
) -> Result<Done, Failure<'a>>
    ensures { AnswersMade M.line (Names (Y.notes why_old.now) old.now)
        (Names (Y.notes why_new.now) new.now) done result
        (O.contents output.old) (O.contents output.new) }
{
    match done {
        Ok(made) => done_alone(making.print(made, output)),
        Err(fault) => {
            let old = FileName::Own(old);
            Err(failed_of(fault, old, why_old, FileName::Own(new), why_new))
        }
    }
}
