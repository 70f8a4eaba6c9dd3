//! Laws of lines over a book.
//!
//! Each function has an empty body, and its clauses are the law.

ghost use Rattle.std.specs.Prelude.{◌≡◌, List, Option, ℕ, false};
ghost use Rattle.run_model.specs.declared.commands.Step.{Step};
ghost use Rattle.run_model.specs.Session.{Session, replies, reply_of_step};
ghost use Rattle.book_model.specs.Books.{BookView, IsReached};
ghost use Rattle.console_lines.specs.declared.faults.RunFault.{RunFault};
ghost use Rattle.console_lines.specs.LineRequests.{request_of};
ghost use Rattle.console_lines.specs.Replies.{reply_line};
ghost use Rattle.console_lines.specs.declared.line_requests.LineRequest.TheVariants as asks;
ghost use Rattle.console_lines.specs.declared.line_replies.LineReply.TheVariants as printed;
ghost use Rattle.console_lines.specs.Script.{reply, steps_of};
ghost use Rattle.run_console.specs.declared.untils.Until.{Until};
ghost use Rattle.run_console.specs.RunProgress.{LineStops, RunStops};
ghost use Rattle.run_console.specs.TakenSteps.{TakesAll};
ghost use Rattle.run_console.specs.StoreTroubles.{Accounts};

use run_disk::RunDisk;

/// Steps that were taken for lines got the answers that the session defines. The reply to such a
/// line is the line of that answer.
pub fn what_is_printed_is_what_was_answered<D: RunDisk>()
    ensures row { (old new : BookView D) (lines : List (List ℕ)) → old.journal.broken ≡ false
        → IsReached old → (taken : TakesAll D.state old (steps_of lines) new)
        → taken.answers ≡ replies old.session (steps_of lines) }
    ensures line { (s : Session) (line : List ℕ) (x : Step) → request_of line ≡ asks.Step x
        → reply s line ≡ reply_line (printed.Step (reply_of_step s x)) }
{}

/// A fault that ends a run or a line, over a book that wasn't broken, has its cause in the store.
/// If it is DiskFailed, a device call failed or the disk is spent. If it is NumbersSpent, no number
/// is left for another image. This follows from the steps that were taken, and from the outcome of
/// the next step.
pub fn a_fault_that_stops_a_run_has_its_cause<D: RunDisk>()
    ensures run { (until : Until) (why : RunFault) (b c : BookView D)
        (r0 r1 w0 w1 : Option (List ℕ))
        → b.journal.broken ≡ false → RunStops D.state until why b c r0 r1 w0 w1
        → Accounts D.state b why c }
    ensures line { (why : RunFault) (line : List ℕ) (b c : BookView D)
        (w0 w1 : Option (List ℕ)) → b.journal.broken ≡ false
        → LineStops D.state why line b c w0 w1
        → Accounts D.state b why c }
{}
