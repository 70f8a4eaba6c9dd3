//! The calls of the system on which stores rest, as traits whose clauses say what is assumed of
//! them: [`OpenFile`] for the bytes of a file, [`FolderNames`] for names, and [`FileLocks`] for
//! locks.
//!
//! A [`SystemFile`], a [`SystemFolder`] and the [`SystemLocks`] make the calls of the system, and
//! are the only places where something is believed of it.
//!
//! [`MemoryFile`], [`MemoryNames`] and [`MemoryLocks`] meet every clause in memory. They can be
//! made to fail at any call, and say what a crash may leave. Tests use them in place of a system
//! that can't be made to fail when it should.
#![tactic(auto)]

pub mod examples;
mod folder_moments;
mod folders;
pub mod laws;
mod locks;
mod memory_files;
mod memory_folders;
mod memory_locks;
mod memory_names;
mod moments;
mod names;
mod open_files;
mod places;
mod system_files;
mod system_folders;
mod system_locks;

pub use folders::{Folder, Found, Inode};
pub use locks::{FileLocks, Lock};
pub use memory_files::MemoryFile;
pub use memory_folders::{MemoryFolder, MemoryNumber};
pub use memory_locks::MemoryLocks;
pub use memory_names::MemoryNames;
pub use names::FolderNames;
pub use open_files::{CallFailed, OpenFile};
pub use places::Place;
pub use system_files::SystemFile;
pub use system_folders::SystemFolder;
pub use system_locks::SystemLocks;
