//! A [`FileError`] says why a file couldn't be opened, or why a call of it failed.

ghost use Rattle.std.specs.Prelude.{Some};
ghost use Rattle.store_files.specs.FileErrors.{error_text};

use arrayvec::ArrayString;
use std::fmt::Write;
use std::{fmt, io};

/// Before the number of an error in the system's text. The number is left out.
const NUMBER: &str = " (os error ";

/// Says why a file couldn't be opened, or why a call of it failed. It is printed without an LF.
#[derive(Drop)]
pub enum FileError {
    /// Another program has the store open.
    InUse,
    /// The file had fewer bytes than when it was opened.
    EndedEarly,
    /// The file can't be replaced, because its name is a link, or it has another name, too.
    OtherName,
    /// It isn't a regular file, but a directory, a pipe or a device.
    NotAFile,
    /// A sync of it has failed, so the bytes that reads return may not be on the device, and no
    /// copy of them could replace the file.
    Unsynced,
    /// Memory was refused for its name, or for the name of a file beside it.
    NoMemory,
    /// The text of the system, of which at most 96 bytes are kept.
    System(ArrayString<96>),
}

impl FileError {
    /// Returns the error of a system call.
    pub fn of(error: &io::Error) -> FileError {
        let mut message = ArrayString::new();
        say(error, &mut message);
        FileError::System(message)
    }

    /// Returns the error of a system call on another file, after that file's name.
    pub fn of_other(name: &str, error: &io::Error) -> FileError {
        let mut message = ArrayString::new();
        append(&mut message, name);
        append(&mut message, ": ");
        say(error, &mut message);
        FileError::System(message)
    }
}

impl fmt::Display for FileError {
    ghost output = { λ error. Some (error_text error) };

    fn fmt<W: fmt::Write>(&self, f: &mut fmt::Formatter<W>) -> fmt::Result {
        match self {
            FileError::InUse => f.write_str("in use by another program"),
            FileError::EndedEarly => f.write_str("it ended early"),
            FileError::OtherName => f.write_str("its file has another name, too"),
            FileError::NotAFile => f.write_str("not a file"),
            FileError::Unsynced => f.write_str("a sync of it failed: put a copy in its place"),
            FileError::NoMemory => f.write_str("no memory is left for its name"),
            FileError::System(text) => f.write_str(text.as_str()),
        }
    }
}

/// Appends the system's text of an error without its number, if it fits.
fn say(error: &io::Error, message: &mut ArrayString<96>) {
    let mut whole = ArrayString::<128>::new();
    let _fits = write!(whole, "{error}");
    append(message, without_number(whole.as_str()));
}

/// A text of the system's without the number of the error.
fn without_number(whole: &str) -> &str {
    match whole.split_once(NUMBER) {
        Some((text, _)) => text,
        None => whole,
    }
}

/// Appends a text, if it fits.
fn append(message: &mut ArrayString<96>, text: &str) {
    if text.len() <= message.remaining_capacity() {
        message.push_str(text);
    }
}
