//! Steps are played over a book, and their replies are kept.

ghost use Rattle.std.specs.Prelude.{◌≡◌, IfOk, OnErr};
ghost use Rattle.run_session.specs.Lasting.{Stays};
ghost use Rattle.book_model.specs.Books.{CarriesOn};
ghost use Rattle.book_model.specs.Steps.{StepsOn};
ghost use Rattle.drive_runs.specs.Moving.{Moves};

use run_book::Book;
use run_disk::RunDisk;
use run_model::{Reply, Step};
use std::alloc::{AllocError, Allocator, Global};

/// Plays steps over a book, and returns the reply to each. If memory for the replies is refused, no
/// step is played.
#[tactic(auto, using(crate::proofs::Moving::moves_none))]
pub fn play<D: RunDisk, A: Allocator>(
    alloc: Global,
    book: &mut Book<D, A>,
    steps: &[Step],
) -> Result<Vec<Reply>, AllocError>
    ensures played { IfOk result (λ replies.
        StepsOn D.state book.old steps.now replies.items book.new) }
    ensures unplayed { OnErr result (book.new ≡ book.old) }
    ensures moves { Moves D.state book.old book.new }
    ensures carries_on { CarriesOn D.state book.old book.new }
    ensures stays { Stays book.old.session.state book.new.session.state }
{
    let _durable = book.durable();
    let _state = book.state();
    let mut replies = Vec::with_capacity(alloc, steps.len())?;
    book.play(steps, &mut replies);
    Ok(replies)
}
