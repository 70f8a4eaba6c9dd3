//! Reads the arguments of the command line into a request, or says what is wrong with them.

ghost use Rattle.std.specs.Iterator.{Drains};
ghost use Rattle.std.specs.Prelude.{◌≡◌, ◌↔◌, IfErr, IfOk, IsErrAnd, OnErr, Some, map};
ghost use Rattle.std.specs.Prelude.{option_map};
ghost use Rattle.std.specs.String.{string_bytes};
ghost use Rattle.std.specs.Vec.Iter.{into_iter_steps};
ghost use Rattle.std.specs.declared.io.ErrorKind.TheVariants as system;
ghost use Rattle.clap.specs.Words.{first_value, found_of, kind_of, subcommand_rows_of};
ghost use Rattle.night_words.specs.Commands.{Asks, AsksFor, IsAnswer, IsCausedBy, IsCrew};
ghost use Rattle.night_words.specs.Commands.{IsForTwo, IsInspect, IsNamed, IsOfSystem, IsRenewal};
ghost use Rattle.night_words.specs.Commands.{IsShown, IsTasks, IsView, asks_tasks, faults_of};
ghost use Rattle.night_words.specs.Commands.{is_true};
ghost use Rattle.night_words.specs.Commands.{named_by, names_phase, new_by, workers_of};

use crate::commands::night_command;
use crate::faults::WordsFault;
use crate::requests::Request;
use clap::error::ErrorKind;
use clap::{ArgMatches, Error};
use state_views::View;
use std::alloc::Global;
use std::env::Args;
use std::io;

/// Returns all words of `given`, in their order. `given` is what `std::env::args` returned: the
/// arguments with which the program was started, of which the first one is its own name. `NotText`
/// if one of them isn't text in UTF-8, and `Memory` if memory for them was refused.
pub fn own_words(alloc: Global, given: io::Result<Args>) -> Result<Vec<String>, WordsFault>
    ensures words { IfOk given (λ words.
        IfOk result (λ all. Drains into_iter_steps words all.items)) }
    ensures memory { IfOk given (λ words. IfErr result (λ fault. fault ≡ WordsFault.Memory)) }
    ensures refused { OnErr given (IsErrAnd result IsOfSystem) }
{
    match given {
        Ok(words) => all_of(alloc, words),
        Err(error) => Err(refusal_of(error.kind())),
    }
}

/// All words that the system gave, in their order.
fn all_of(alloc: Global, words: Args) -> Result<Vec<String>, WordsFault>
    ensures words { IfOk result (λ all. Drains into_iter_steps words all.items) }
    ensures fault { IfErr result (λ fault. fault ≡ WordsFault.Memory) }
{
    match words.collect::<Vec<String>>(alloc) {
        Ok(all) => Ok(all),
        Err(_) => Err(WordsFault::Memory),
    }
}

/// Why the system gave no words.
fn refusal_of(kind: io::ErrorKind) -> WordsFault
    ensures fault { IsOfSystem result }
    ensures memory { result ≡ WordsFault.Memory ↔ (kind ≡ system.OutOfMemory) }
{
    match kind {
        io::ErrorKind::OutOfMemory => WordsFault::Memory,
        _ => WordsFault::NotText,
    }
}

/// Returns the request in these arguments, of which the first one is the program's own name.
pub fn read_words<'a>(alloc: Global, words: &'a [String]) -> Result<Request<'a>, WordsFault>
    ensures answer { IsAnswer (faults_of (map string_bytes words.now)) result }
    ensures asks { IfOk result (λ asked. AsksFor asked (map string_bytes words.now)) }
    ensures cause { IfErr result (λ why. IsCausedBy why (map string_bytes words.now)) }
{
    let Ok(command) = night_command(alloc) else {
        return Err(WordsFault::Memory);
    };
    match command.try_get_matches_from(words) {
        Ok(matches) => request_of(&matches),
        Err(error) => shown(alloc, &error),
    }
}

/// What the parser's matches ask for: the command that was used, its stores and its flag.
fn request_of<'a>(matches: &ArgMatches<'a>) -> Result<Request<'a>, WordsFault>
    requires { IsNamed (named_by matches.now) (new_by matches.now) }
    ensures { Asks (subcommand_rows_of matches.now) result }
{
    let Some((command, inner)) = matches.subcommand() else {
        unreachable!();
    };
    let demos = command == "demo";
    if demos {
        let strict = is_set(inner, "strict");
        return Ok(Request::Demo { strict });
    }
    let plans = command == "plan";
    if plans {
        return Ok(Request::Plan);
    }
    let crews = command == "crew";
    if crews {
        return crew(
            inner.get_str("STORE").unwrap_or(""),
            inner.get_str("workers"),
            is_set(inner, "known"),
        );
    }
    let Some(store) = inner.get_str("STORE") else {
        unreachable!();
    };
    let formats = command == "format";
    if formats {
        let is_new = is_set(inner, "new");
        return Ok(Request::Format { store, is_new });
    }
    let scripts = command == "script";
    if scripts {
        let strict = is_set(inner, "strict");
        let is_timed = is_set(inner, "now");
        return Ok(Request::Script {
            store,
            strict,
            is_timed,
        });
    }
    let inspects = command == "inspect";
    if inspects {
        return inspect(store, inner);
    }
    let drives = command == "drive";
    if drives {
        return Ok(Request::Drive { store });
    }
    let renews = command == "renew";
    if renews {
        let is_new = is_set(inner, "new");
        let in_place = is_set(inner, "in-place");
        return renewal(store, inner.get_str("NEW"), is_new, in_place);
    }
    let Some(new) = inner.get_str("NEW") else {
        unreachable!();
    };
    let is_new = is_set(inner, "new");
    for_two(store, new, is_new, false)
}

/// Returns whether the words have this flag of the command that was used.
fn is_set(inner: &ArgMatches, id: &str) -> bool
    ensures { result ≡ is_true (first_value (found_of inner.now) id.now) }
{
    match inner.get_str(id) {
        Some(text) => text == "true",
        None => false,
    }
}

/// What is shown of a store.
fn inspect<'a>(store: &'a str, inner: &ArgMatches<'a>) -> Result<Request<'a>, WordsFault>
    ensures { IsInspect store.now (first_value (found_of inner.now)) result }
{
    match view_of(inner) {
        Ok(view) => Ok(Request::Inspect { store, view }),
        Err(fault) => Err(fault),
    }
}

/// Which view the words ask for. More than one is a mistake, and so are no tasks of no tree.
fn view_of<'a>(inner: &ArgMatches<'a>) -> Result<View<'a>, WordsFault>
    ensures { IsView (first_value (found_of inner.now)) result }
{
    let phase = inner.get_str("phase");
    let group = inner.get_str("group");
    let lists = asks_tasks(inner);
    let json = is_set(inner, "json");
    let tree = is_set(inner, "tree");
    let sums = is_set(inner, "summary");
    let no_tasks = is_set(inner, "no-tasks");
    if no_tasks && !tree {
        return Err(WordsFault::NoTree);
    }
    match (lists, json, tree, sums) {
        (false, false, false, false) => Ok(View::Whole),
        (true, false, false, false) => tasks(phase, group, false),
        (false, true, false, false) => tasks(phase, group, true),
        (false, false, true, false) => Ok(View::Tree { no_tasks }),
        (false, false, false, true) => Ok(View::Summary),
        _ => Err(WordsFault::Views),
    }
}

/// Returns whether the lines of tasks alone are asked for: by their flag, or by a phase or a group
/// without JSON.
fn asks_tasks(inner: &ArgMatches) -> bool
    ensures { result ≡ asks_tasks (first_value (found_of inner.now)) }
{
    let some = inner.get_str("phase").is_some() || inner.get_str("group").is_some();
    is_set(inner, "tasks") || (some && !is_set(inner, "json"))
}

/// The lines of tasks alone, or JSON with these tasks. A word that names no phase is a mistake.
fn tasks<'a>(
    phase: Option<&'a str>,
    group: Option<&'a str>,
    json: bool,
) -> Result<View<'a>, WordsFault>
    ensures { IsTasks (option_map (λ word. word.now) phase.entry)
        (option_map (λ word. word.now) group.entry) json result }
{
    match phase {
        Some(word) if !is_phase(word) => Err(WordsFault::Phase),
        _ if json => Ok(View::Json { phase, group }),
        _ => Ok(View::Tasks { phase, group }),
    }
}

/// Returns whether a word names a phase of a task.
fn is_phase(word: &str) -> bool
    ensures { result ≡ names_phase (Some word.now) }
{
    match word {
        "held" | "ready" | "running" | "success" | "error" | "interrupted" => true,
        _ => false,
    }
}

/// A crew over a store. Another number of workers than 1 to 8 is a mistake.
fn crew<'a>(
    store: &'a str,
    workers: Option<&'a str>,
    known: bool,
) -> Result<Request<'a>, WordsFault>
    ensures { IsCrew store.now (option_map (λ word. word.now) workers.entry) known result }
{
    match workers_of(workers) {
        Some(workers) => Ok(Request::Crew {
            store,
            workers,
            known,
        }),
        None => Err(WordsFault::Workers),
    }
}

/// How many workers a word asks for: one digit from 1 to 8. They are 4 if there is none.
fn workers_of(text: Option<&str>) -> Option<u8>
    ensures { result ≡ workers_of (option_map (λ word. word.now) text.entry) }
{
    let Some(text) = text else {
        return Some(4);
    };
    match text.as_bytes() {
        [digit @ b'1'..=b'8'] => Some(*digit - b'0'),
        _ => None,
    }
}

/// A renewal of a store, into a new one or in place. Both at once are a mistake, and so is neither,
/// or a file that is to be new in place.
fn renewal<'a>(
    old: &'a str,
    new: Option<&'a str>,
    is_new: bool,
    in_place: bool,
) -> Result<Request<'a>, WordsFault>
    ensures { IsRenewal old.now (option_map (λ word. word.now) new.entry) is_new in_place result }
{
    match (new, is_new, in_place) {
        (Some(new), _, false) => for_two(old, new, is_new, true),
        (None, false, true) => Ok(Request::RenewInPlace(old)),
        _ => Err(WordsFault::Place),
    }
}

/// A migration or a renewal, from one store to another. Two equal names are a mistake.
fn for_two<'a>(
    old: &'a str,
    new: &'a str,
    is_new: bool,
    renews: bool,
) -> Result<Request<'a>, WordsFault>
    ensures { IsForTwo renews is_new old.now new.now result }
{
    if old == new {
        Err(WordsFault::SameStores)
    } else if renews {
        Ok(Request::Renew { old, new, is_new })
    } else {
        Ok(Request::Migrate { old, new, is_new })
    }
}

/// What the parser answered instead of matches: help that was asked for, or a mistake.
fn shown<'a>(alloc: Global, error: &Error) -> Result<Request<'a>, WordsFault>
    ensures { IsShown (kind_of error.now) result }
{
    if error.kind() == ErrorKind::OutOfMemory {
        return Err(WordsFault::Memory);
    }
    let Ok(text) = format!(in alloc; "{error}") else {
        return Err(WordsFault::Memory);
    };
    if error.use_stderr() {
        Err(WordsFault::Mistake(text))
    } else {
        Ok(Request::Help(text))
    }
}
