//! Laws of the definition, for every input and every session.
//!
//! Each function has an empty body, and its clauses are the law.

ghost use Rattle.std.specs.List.{slice_split, list_all};
ghost use Rattle.std.specs.Option.{option_to_list};
ghost use Rattle.std.specs.Prelude.{◌≡◌, ◌≤◌, ◌==◌, ◌++◌, ◌∷◌, [], List, ℕ, true, false, Option};
ghost use Rattle.std.specs.Prelude.{Bool, Some, None, Ok, codes, length};
ghost use Rattle.run_model.specs.Session.{Session, session_after};
ghost use Rattle.run_model.specs.Texts.{is_name, is_text};
ghost use Rattle.console_lines.specs.Moments.{moment_of};
ghost use Rattle.console_lines.specs.Numbers.{number_of};
ghost use Rattle.console_lines.specs.LineRequests.{wish_of, wished, refused_after, asks_derive};
ghost use Rattle.console_lines.specs.Lines.{whole_lines, lines_of};
ghost use Rattle.console_lines.specs.Words.{words_of, rest_of};
ghost use Rattle.console_lines.specs.Progress.{IsPrefix, kept};
ghost use Rattle.console_lines.specs.Script.{after_line, after_lines, replies, reply, script};
ghost use Rattle.console_lines.specs.Script.{steps_of};
ghost use Rattle.console_lines.specs.Strict.{rejection_in, strict_script};

use crate::line_requests::LineRequest;
use crate::rejections::RejectedLine;
use run_model::{Refusal, Wish};

/// An input is split at each LF, just as the standard library splits a slice.
pub fn an_input_is_split_at_each_line_feed()
    ensures { (bytes : List ℕ) → lines_of bytes ≡ slice_split (λ b. b == 10) bytes }
{}

/// The rest of a line, from its first word on, is the whole line.
pub fn the_rest_of_a_line_has_all_its_bytes()
    ensures { (line : List ℕ) → rest_of (words_of line) ≡ Some line }
{}

/// The text of a value, and the cause of a deadline or a timeout, consist of all bytes after the
/// word before them.
pub fn a_text_has_all_bytes_after_the_word_before()
    ensures value { (key text : List ℕ)
        → wish_of (codes "value") (key ∷ words_of text) ≡ Some (wished (Wish.Value key text)) }
    ensures deadline { (word cause : List ℕ) (moment : ℕ) → moment_of word ≡ Some (Ok moment)
        → wish_of (codes "deadline") (word ∷ words_of cause)
        ≡ Some (wished (Wish.Deadline moment (Some cause))) }
    ensures timeout { (word cause : List ℕ) (seconds : ℕ) → number_of word ≡ Some seconds
        → wish_of (codes "timeout") (word ∷ words_of cause)
        ≡ Some (wished (Wish.Timeout seconds (Some cause))) }
{}

/// A moment out of range is refused after names and texts, whatever the session is.
pub fn a_moment_out_of_range_is_refused_after_names_and_texts()
    ensures names { (name parent : List ℕ) (cause : Option (List ℕ)) (why : Refusal)
        → list_all is_name (name ∷ parent ∷ []) ≡ false
        → asks_derive name parent (refused_after cause why) ≡ LineRequest.Refused Refusal.BadName }
    ensures texts { (name parent : List ℕ) (cause : Option (List ℕ)) (why : Refusal)
        → list_all is_name (name ∷ parent ∷ []) ≡ true
        → list_all is_text (option_to_list cause) ≡ false
        → asks_derive name parent (refused_after cause why) ≡ LineRequest.Refused Refusal.BadText }
    ensures moment { (name parent : List ℕ) (cause : Option (List ℕ)) (why : Refusal)
        → list_all is_name (name ∷ parent ∷ []) ≡ true
        → list_all is_text (option_to_list cause) ≡ true
        → asks_derive name parent (refused_after cause why) ≡ LineRequest.Refused why }
{}

/// The replies to the first part of an input are printed first, whatever comes after that part.
pub fn replies_dont_wait_for_what_follows()
    ensures { (s : Session) (first more : List ℕ)
        → IsPrefix (replies s (whole_lines [] first)) (script s (first ++ more)) }
{}

/// Lines leave the same session as the steps in them, one after another.
pub fn lines_leave_what_their_steps_leave()
    ensures { (s : Session) (lines : List (List ℕ))
        → after_lines s lines ≡ session_after s (steps_of lines) }
{}

/// A line that is too long may be cut after 257 bytes. Its reply and the session stay the same.
pub fn a_long_line_may_be_cut()
    ensures reply { (s : Session) (line : List ℕ) → reply s (kept line) ≡ reply s line }
    ensures session { (s : Session) (line : List ℕ)
        → after_line s (kept line) ≡ after_line s line }
{}

/// Whatever comes after the first rejected line changes nothing about a strict run.
pub fn a_strict_run_ends_at_its_rejected_line()
    ensures rejection { (s : Session) (prefix behind : List ℕ) (rejection : RejectedLine)
        → rejection_in s prefix ≡ Some rejection
        → rejection_in s (prefix ++ 10 ∷ behind) ≡ Some rejection }
    ensures script { (s : Session) (prefix behind : List ℕ) (rejection : RejectedLine)
        → rejection_in s prefix ≡ Some rejection
        → strict_script s (prefix ++ 10 ∷ behind) ≡ strict_script s prefix }
{}

/// If no line is rejected, a strict run prints the script.
pub fn a_strict_run_without_rejections_is_a_run()
    ensures { (s : Session) (bytes : List ℕ) → rejection_in s bytes ≡ None
        → strict_script s bytes ≡ script s bytes }
{}
