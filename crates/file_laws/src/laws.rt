//! What is found in a file after a crash. The first two functions open it; the third one has an
//! empty body, and its clause is the law.

ghost use Rattle.std.specs.Prelude.{◌≡◌, List, IfOk};
ghost use Rattle.std.specs.List.{flat_map};
ghost use Rattle.run_model.specs.Allowed.{IsPrefix};
ghost use Rattle.run_model.specs.State.{State};
ghost use Rattle.file_calls.specs.OpenFiles.{IsIntact};
ghost use Rattle.book_model.specs.Books.{IsSafe, acked};
ghost use Rattle.book_model.specs.ManyNights.{Night, StoresAfterNights, moves_of};
ghost use Rattle.book_model.specs.Standing.{Closed, DoesAll, Finds, LiesWith};
ghost use Rattle.book_model.specs.Stores.{restarted};

use book_model::machines::many_nights_lose_nothing_acknowledged;
use book_model::stores::a_store_means_one_state;
use file_calls::OpenFile;
use file_disk::FileDisk;
use run_book::Book;
use run_disk::{DiskFailed, RunDisk};
use run_model::Fault;
use std::alloc::Global;

/// Opens the file that a crash has left of a disk, at some moment since the disk was as `from` is.
/// The file keeps its clauses, nothing of it is lost, and reads return what the crash has left. So
/// the disk over it is honest and at rest, which is what an opening of a store has to find.
pub fn open_after_crash<F: OpenFile + Drop>(
    from: &FileDisk<F>,
    left: &FileDisk<F>,
    file: F,
) -> Result<FileDisk<F>, F::Error>
    requires keeps { F.keeps file }
    requires intact { IsIntact (F.state file) }
    requires left { (⟦<FileDisk<F> as RunDisk>⟧.state left.now).since
        (⟦<FileDisk<F> as RunDisk>⟧.state from.now).clock (F.state file).now }
    ensures { IfOk result (λ next. Finds ⟦<FileDisk<F> as RunDisk>⟧.state
        ((⟦<FileDisk<F> as RunDisk>⟧.state left.now).since
        (⟦<FileDisk<F> as RunDisk>⟧.state from.now).clock) next) }
{
    let (_, _) = (from.size(), left.size());
    FileDisk::settled(file)
}

/// Opens a book over the file that a crash has left of another one. If the disk of that book was
/// honest, and at rest when the book was opened, then the new book begins with the restart of a
/// state to which a prefix of the old book's events leads. The prefix contains every event that the
/// old book acknowledged.
pub fn reopen_book<F: OpenFile + Drop>(
    alloc: Global,
    left: &Book<FileDisk<F>>,
    file: F,
) -> Result<Book<FileDisk<F>>, Fault>
    requires keeps { F.keeps file }
    requires intact { IsIntact (F.state file) }
    requires left { (⟦<FileDisk<F> as RunDisk>⟧.state left.now.journal.disk).images
        (F.state file).now }
    ensures { IsSafe ⟦<FileDisk<F> as RunDisk>⟧.state left.now → IfOk result (λ new.
        (q : State) × IsPrefix left.now.session.start left.now.session.history (acked left.now) q
        × (new.session.start ≡ restarted q)) }
{
    let _acked = left.durable();
    a_store_means_one_state();
    let Ok(disk) = FileDisk::settled(file) else {
        return Err(Fault::from(DiskFailed));
    };
    match Book::open(alloc, disk) {
        Ok(book) => Ok(book),
        Err((fault, _disk)) => Err(fault),
    }
}

/// However many nights follow one another over files, nothing that was acknowledged is lost. Each
/// night opens a disk over a file, which is honest, at rest, and holds what a crash has left of the
/// disk before it. [`open_after_crash`] opens such a disk.
pub fn many_nights_over_files_lose_nothing_acknowledged<F: OpenFile + Drop>()
    ensures { (given next : _) (p : State) (nights : List Night)
        → LiesWith ⟦<FileDisk<F> as RunDisk>⟧.state given p
        → DoesAll ⟦<FileDisk<F> as RunDisk>⟧.state (Closed given) (flat_map moves_of nights)
        (Closed next)
        → StoresAfterNights p nights (⟦<FileDisk<F> as RunDisk>⟧.state next).now }
{
    many_nights_lose_nothing_acknowledged::<FileDisk<F>>();
}
