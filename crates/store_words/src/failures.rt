//! A [`Failure`] says why a subcommand ended before it was done.

ghost use Rattle.std.specs.Prelude.{◌≡◌, None, Some};
ghost use Rattle.run_model.specs.declared.faults.Trouble.{Trouble as TroubleOf};
ghost use Rattle.console_lines.specs.declared.faults.RunFault.TheVariants.{Store};
ghost use Rattle.store_words.specs.Failures.{AnswersAlone, AnswersOver, AnswersStrict};
ghost use Rattle.store_words.specs.Failures.{IsNoFile, IsUnput, Names, NamesBy, NamesOf};
ghost use Rattle.store_words.specs.Failures.{NamesSource, blamed, fault_of, name_text};
ghost use Rattle.store_words.specs.Failures.{unmigrated};

use crate::endings::Done;
use crate::file_problems::FileProblem;
use book_model::MigrateFault;
use console_lines::{RejectedLine, RunFault};
use run_model::{Fault, Layout, Trouble};
use std::fmt;
use store_files::{BESIDE, FileError, FirstError};

/// The fault that ended a subcommand, and the file that is to blame, if one is.
#[derive(Drop)]
pub struct Failure<'a> {
    pub fault: RunFault,
    pub file: Option<FileFailure<'a>>,
}

/// A file, and what is wrong with it.
#[derive(Drop)]
pub struct FileFailure<'a> {
    pub name: FileName<'a>,
    pub problem: FileProblem,
}

/// The name of a file, as it is printed.
#[derive(Clone, Copy)]
pub enum FileName<'a> {
    /// A file that the arguments name.
    Own(&'a str),
    /// The file beside the one of this name, in which a renewal in place makes the new store.
    Beside(&'a str),
    StandardInput,
    StandardOutput,
}

impl fmt::Display for FileName<'_> {
    ghost output = { λ name. Some (name_text name) };

    fn fmt<W: fmt::Write>(&self, f: &mut fmt::Formatter<W>) -> fmt::Result {
        match self {
            FileName::Own(name) => f.write_str(name),
            FileName::Beside(name) => {
                f.write_str(name)?;
                f.write_str(BESIDE)
            }
            FileName::StandardInput => f.write_str("standard input"),
            FileName::StandardOutput => f.write_str("standard output"),
        }
    }
}

/// Returns the failure of a subcommand that couldn't open or make a file that the arguments name.
pub fn no_file<'a>(name: &'a str, error: FileError) -> Failure<'a>
    ensures { IsNoFile error name.now result }
{
    unopened(FileName::Own(name), error)
}

/// Returns the failure of a subcommand that couldn't open or make a file.
pub fn unopened<'a>(name: FileName<'a>, error: FileError) -> Failure<'a>
    ensures { IsNoFile error (name_text name.entry) result }
{
    Failure {
        fault: fault_of(&error),
        file: Some(of_call(name, error)),
    }
}

/// Returns the failure of a file, a call of which failed.
pub fn of_call<'a>(name: FileName<'a>, error: FileError) -> FileFailure<'a>
    ensures name { result.name ≡ name.entry }
    ensures problem { result.problem ≡ FileProblem.Call error }
{
    FileFailure {
        name,
        problem: FileProblem::Call(error),
    }
}

/// The fault of a file that couldn't be opened or made: the device failed, or memory is missing.
fn fault_of(error: &FileError) -> RunFault
    ensures { result ≡ fault_of error.now }
{
    match error {
        FileError::NoMemory => RunFault::Memory,
        FileError::InUse
        | FileError::EndedEarly
        | FileError::OtherName
        | FileError::NotAFile
        | FileError::Unsynced
        | FileError::System(_) => RunFault::Store(Trouble::Faulty(Fault::DiskFailed)),
    }
}

/// Returns the failure of a renewal whose new store couldn't replace the old one. If the error is
/// `InUse`, the file next to the store is to blame, because another program has it open. Otherwise
/// the store is.
pub fn not_put<'a>(store: &'a str, error: FileError) -> Failure<'a>
    ensures { IsUnput error store.now result }
{
    let fault = fault_of(&error);
    let name = blamed(store, &error);
    Failure {
        fault,
        file: Some(of_call(name, error)),
    }
}

/// The file that is to blame if a new store couldn't replace the old one.
fn blamed<'a>(store: &'a str, error: &FileError) -> FileName<'a>
    ensures { name_text result ≡ blamed store.now error.now }
{
    match error {
        FileError::InUse => FileName::Beside(store),
        FileError::EndedEarly
        | FileError::OtherName
        | FileError::NotAFile
        | FileError::Unsynced
        | FileError::NoMemory
        | FileError::System(_) => FileName::Own(store),
    }
}

/// Returns the failure of a subcommand over the file with this name. It gives the first error of
/// the file, or else what the fault says about the content of the file.
pub fn failed_over<'a, Y: FirstError>(fault: RunFault, name: &'a str, why: &Y) -> Failure<'a>
    ensures fault { result.fault ≡ fault }
    ensures file { Names (Y.notes why.now) name.now result }
{
    failed(fault, FileName::Own(name), why, FileProblem::of(fault))
}

/// Like [`failed_over`], for OLD of a migration or renewal. `from` is the layout that the size of
/// OLD gives, and `to` is the layout of the new store; `None` if there is none.
pub fn failed_source<'a, Y: FirstError>(
    fault: RunFault,
    from: Option<Layout>,
    to: Option<Layout>,
    name: &'a str,
    why: &Y,
) -> Failure<'a>
    ensures fault { result.fault ≡ fault }
    ensures file { NamesSource (Y.notes why.now) from to name.now result }
{
    failed(
        fault,
        FileName::Own(name),
        why,
        FileProblem::of_source(from, to, fault),
    )
}

/// Returns the failure of a migration or renewal. It names the one of the two files that is to
/// blame.
pub fn failed_of<'a, Y: FirstError>(
    fault: MigrateFault,
    old: FileName<'a>,
    why_old: &Y,
    new: FileName<'a>,
    why_new: &Y,
) -> Failure<'a>
    ensures fault { result.fault ≡ unmigrated fault }
    ensures file { NamesOf (Names (Y.notes why_old.now) (name_text old.entry))
        (Names (Y.notes why_new.now) (name_text new.entry)) fault result }
{
    let reported = unmigrated(fault);
    match fault {
        MigrateFault::Memory => Failure {
            fault: reported,
            file: None,
        },
        MigrateFault::Old(_) => failed(reported, old, why_old, FileProblem::of(reported)),
        MigrateFault::New(_) => failed(reported, new, why_new, FileProblem::of(reported)),
    }
}

/// The program's fault for a fault of a migration or a renewal.
fn unmigrated(fault: MigrateFault) -> RunFault
    ensures { result ≡ unmigrated fault }
{
    match fault {
        MigrateFault::Memory => RunFault::Memory,
        MigrateFault::Old(fault) | MigrateFault::New(fault) => RunFault::from(fault),
    }
}

/// The failure of this fault, which names the file if the fault is a store's.
fn failed<'a, Y: FirstError>(
    fault: RunFault,
    name: FileName<'a>,
    why: &Y,
    held: Option<FileProblem>,
) -> Failure<'a>
    ensures fault { result.fault ≡ fault }
    ensures file { NamesBy (Y.notes why.now) fault held (name_text name.entry) result.file }
{
    match fault {
        RunFault::Store(_) => Failure {
            fault,
            file: file_failed(name, why, held),
        },
        RunFault::Input | RunFault::Output | RunFault::InputTooLong | RunFault::Memory => {
            Failure { fault, file: None }
        }
    }
}

/// The file of this name with its first error, or else with this problem of its content.
fn file_failed<'a, Y: FirstError>(
    name: FileName<'a>,
    why: &Y,
    held: Option<FileProblem>,
) -> Option<FileFailure<'a>>
    ensures { (trouble : TroubleOf)
        → NamesBy (Y.notes why.now) (Store trouble) held (name_text name.entry) result }
{
    match why.first_error() {
        Some(error) => Some(of_call(name, error)),
        None => match held {
            Some(problem) => Some(FileFailure { name, problem }),
            None => None,
        },
    }
}

/// Returns the result of a subcommand over the file with this name.
pub fn done_over<'a, Y: FirstError>(
    done: Result<(), RunFault>,
    name: &'a str,
    why: &Y,
) -> Result<Done, Failure<'a>>
    ensures { AnswersOver (Names (Y.notes why.now) name.now) done result }
{
    match done {
        Ok(()) => Ok(Done::Well),
        Err(fault) => Err(failed_over(fault, name, why)),
    }
}

/// Returns the result of a strict run over the file with this name.
pub fn strict_over<'a, Y: FirstError>(
    done: Result<Option<RejectedLine>, RunFault>,
    name: &'a str,
    why: &Y,
) -> Result<Done, Failure<'a>>
    ensures { AnswersStrict (Names (Y.notes why.now) name.now) done result }
{
    match done {
        Ok(None) => Ok(Done::Well),
        Ok(Some(line)) => Ok(Done::Rejection(line)),
        Err(fault) => Err(failed_over(fault, name, why)),
    }
}

/// Returns the result of a strict run without a file.
pub fn strict_alone<'a>(done: Result<Option<RejectedLine>, RunFault>) -> Result<Done, Failure<'a>>
    ensures { AnswersStrict (λ failure. failure.file ≡ None) done result }
{
    match done {
        Ok(None) => Ok(Done::Well),
        Ok(Some(line)) => Ok(Done::Rejection(line)),
        Err(fault) => Err(Failure { fault, file: None }),
    }
}

/// Returns the result of a subcommand without a file.
pub fn done_alone<'a>(done: Result<(), RunFault>) -> Result<Done, Failure<'a>>
    ensures { AnswersAlone done result }
{
    match done {
        Ok(()) => Ok(Done::Well),
        Err(fault) => Err(Failure { fault, file: None }),
    }
}
