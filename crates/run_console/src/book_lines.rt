//! One line is run over a book, and its reply is written.

ghost use Rattle.std.specs.Prelude.{◌≡◌, ◌∷◌, [], Bool, Err, true, false};
ghost use Rattle.std.specs.Prelude.{OnOk, IfErr, IfSome};
ghost use Rattle.std.specs.Option.{option_to_list};
ghost use Rattle.book_model.specs.Books.{CarriesOn};
ghost use Rattle.run_model.specs.Session.{replied};
ghost use Rattle.run_model.specs.declared.answers.Reply.TheVariants as answered;
ghost use Rattle.run_model.specs.declared.commands.Step.TheVariants as step;
ghost use Rattle.run_model.specs.declared.faults.Trouble.TheVariants.{Refused};
ghost use Rattle.run_model.specs.declared.refusals.Refusal.TheVariants.{Broken};
ghost use Rattle.console_lines.specs.LineRequests.{request_of, asks_cancel};
ghost use Rattle.console_lines.specs.declared.line_replies.LineReply.TheVariants as printed;
ghost use Rattle.console_lines.specs.Script.{closing};
ghost use Rattle.console_lines.specs.Strict.{ends_in_return, rejection_among, rejection_of};
ghost use Rattle.console_lines.specs.Words.{lent};
ghost use Rattle.run_console.specs.ScopeQuestions.{IsAsked};
ghost use Rattle.run_console.specs.RunProgress.{Closes, EndStops, Lasts};
ghost use Rattle.run_console.specs.RunProgress.{LineRuns, LineStops, RunsRequest};
ghost use Rattle.run_console.specs.TakenSteps.{Tries};
ghost use Rattle.run_console.specs.SavingLines.{is_tally};

use crate::line_answers::{reply_to, step_reply};
use crate::reply_writes::{append_reply, stop};
use crate::tally_replies::append_tally;
use console_lines::{
    LineReply, LineRequest, OutputBuffer, Rejection, RunFault, append_scope, cancel_words,
    make_room, push, read_cancel, read_line, scope_word, write_out,
};
use run_book::Book;
use run_disk::RunDisk;
use run_model::{Refusal, Step, Trouble};
use run_session::{ScopeStatusRef, State};
use std::alloc::Allocator;
use std::io::Write;

/// Runs one line over the book, and writes its reply; an empty line has none.
///
/// If the reply can't be written (`Output`), the line was run, and only a part of the reply was
/// written, from its beginning. If a flush or a checkpoint fails (`Store`), or if memory for a
/// tally is refused (`Memory`), no state changes.
///
/// If the book is broken, it stays as it is, and nothing is written.
pub fn line<A: Allocator + Copy, W: Write, D: RunDisk, B: Allocator>(
    alloc: A,
    bytes: &[u8],
    output: &mut W,
    book: &mut Book<D, B>,
) -> Result<(), RunFault>
    ensures runs { OnOk result (LineRuns D.state bytes.now book.old book.new
        (W.contents output.old) (W.contents output.new)) }
    ensures stops { book.old.journal.broken ≡ false
        → IfErr result (λ fault. LineStops D.state fault bytes.now book.old book.new
        (W.contents output.old) (W.contents output.new)) }
    ensures refused { book.old.journal.broken ≡ true
        → (result ≡ Err (RunFault.Store (Refused Broken))) × (book.new ≡ book.old)
        × (output.new ≡ output.old) }
    ensures lasts { Lasts book.old.session book.new.session }
    ensures carries_on { CarriesOn D.state book.old book.new }
{
    let _durable = book.durable();
    if book.is_broken() {
        return Err(RunFault::Store(Trouble::Refused(Refusal::Broken)));
    }
    let mut buffer = OutputBuffer::new();
    run_line(alloc, bytes, &mut buffer, output, book)?;
    write_out(&mut buffer, output)
}

/// Flushes the book, and writes the buffered replies and the closing line.
pub fn close<W: Write, D: RunDisk, B: Allocator>(
    buffer: &mut OutputBuffer,
    output: &mut W,
    book: &mut Book<D, B>,
) -> Result<(), RunFault>
    requires sound { book.old.journal.broken ≡ false }
    ensures closes { OnOk result (Closes D.state book.old book.new buffer.old.items
        (W.contents output.old) (W.contents output.new)) }
    ensures stops { IfErr result (λ fault. EndStops fault book.new
        (closing book.old.session) buffer.old.items
        (W.contents output.old) (W.contents output.new)) }
    ensures tried { IfErr result (λ fault. Tries D.state book.old fault
        (step.Flush ∷ []) book.new) }
    ensures session { book.new.session ≡ book.old.session }
{
    make_room(buffer, output)?;
    match step_reply(&Step::Flush, book) {
        Ok(reply) => append_reply(reply, buffer),
        Err(trouble) => return Err(stop(trouble, buffer, output)),
    }
    write_out(buffer, output)
}

/// Runs one line over the book, and appends its reply; an empty line has none. Returns why the line
/// is rejected, if it is. A line that is too long may be passed without its end.
pub fn run_line<A: Allocator + Copy, W: Write, D: RunDisk, B: Allocator>(
    alloc: A,
    bytes: &[u8],
    buffer: &mut OutputBuffer,
    output: &mut W,
    book: &mut Book<D, B>,
) -> Result<Option<Rejection>, RunFault>
    requires sound { book.old.journal.broken ≡ false }
    ensures { RunsRequest D.state (request_of bytes.now) (ends_in_return bytes.now) result
        book.old book.new buffer.old.items buffer.new.items
        (W.contents output.old) (W.contents output.new) }
{
    if bytes.starts_with(b"s")
        && let Some(ScopeStatusRef { done, deadline }) = scope_asked(bytes, book.state())
    {
        make_room(buffer, output)?;
        append_scope(done, deadline, buffer);
        return Ok(None);
    }
    if let Some((scope, cause)) = cancel_words(bytes) {
        return run_cancel(scope, cause, buffer, output, book);
    }
    run_request(alloc, bytes, buffer, output, book)
}

/// Runs a cancel, and appends its reply: `ok`, or the refusal. It is a function of its own, as
/// [`run_request`] is.
#[inline(never)]
fn run_cancel<W: Write, D: RunDisk, B: Allocator>(
    scope: &[u8],
    cause: Option<&[u8]>,
    buffer: &mut OutputBuffer,
    output: &mut W,
    book: &mut Book<D, B>,
) -> Result<Option<Rejection>, RunFault>
    requires sound { book.old.journal.broken ≡ false }
    ensures { (ends : Bool) → RunsRequest D.state (asks_cancel scope.now (lent cause.entry))
        ends result book.old book.new buffer.old.items buffer.new.items
        (W.contents output.old) (W.contents output.new) }
{
    make_room(buffer, output)?;
    let answer = match read_cancel(scope, cause) {
        Ok(call) => book.command(&call),
        Err(refusal) => Err(refusal),
    };
    match answer {
        Ok(_) => {
            push(buffer, b"ok\n");
            Ok(None)
        }
        Err(refusal) => {
            LineReply::Refused(refusal).append(buffer);
            Ok(Some(Rejection::Refused(refusal)))
        }
    }
}

/// Runs a line of any kind, and appends its reply. It is a function of its own, because a function
/// zeroes its stack when it begins, and a question about a scope needs none of this one.
#[inline(never)]
fn run_request<A: Allocator + Copy, W: Write, D: RunDisk, B: Allocator>(
    alloc: A,
    bytes: &[u8],
    buffer: &mut OutputBuffer,
    output: &mut W,
    book: &mut Book<D, B>,
) -> Result<Option<Rejection>, RunFault>
    requires sound { book.old.journal.broken ≡ false }
    ensures { RunsRequest D.state (request_of bytes.now) (ends_in_return bytes.now) result
        book.old book.new buffer.old.items buffer.new.items
        (W.contents output.old) (W.contents output.new) }
{
    let asked = read_line(bytes);
    if is_tally(&asked) {
        append_tally(alloc, book.state(), buffer, output)?;
        return Ok(None);
    }
    make_room(buffer, output)?;
    match reply_to(&asked, book) {
        Ok(reply) => {
            let why = Rejection::by(rejection_of(&reply), bytes);
            append_reply(reply, buffer);
            Ok(why)
        }
        Err(trouble) => Err(stop(trouble, buffer, output)),
    }
}

/// The status of the scope that a line asks about, lent by the state, if there is such a scope.
/// This is the most frequent request, so neither the name nor the cause is copied.
fn scope_asked<'a, B: Allocator>(line: &[u8], state: &'a State<B>) -> Option<ScopeStatusRef<'a>>
    ensures { IfSome result (λ view. IsAsked state.now line.now view) }
{
    let scope = state.find_bytes(scope_word(line)?)?;
    state.scope_status(scope)
}

/// Why this reply rejects its line, if it does.
fn rejection_of(reply: &Option<LineReply>) -> Option<Rejection>
    ensures { result ≡ rejection_among (option_to_list reply.now) }
{
    match reply {
        Some(reply) => Rejection::of(reply),
        None => None,
    }
}

/// Returns whether a line asks for a tally.
fn is_tally(asked: &LineRequest) -> bool
    ensures { result ≡ is_tally asked.now }
{
    matches!(asked, LineRequest::Tally)
}
