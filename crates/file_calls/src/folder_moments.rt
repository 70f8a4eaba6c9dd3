//! A [`FolderMoment`] is what a folder in memory was before one of its calls.

use crate::memory_files::MemoryFile;
use crate::memory_names::MemoryNames;
use std::snapshot::Snapshot;

/// What a folder was. Only proofs read its names and files, so it keeps none of them.
#[derive(Drop)]
pub struct FolderMoment {
    pub names: Snapshot<MemoryNames>,
    pub files: Snapshot<Vec<MemoryFile>>,
}
