//! What the system says of a file at one moment. A later moment shows by it whether the file was changed.

use crate::file_identity::FileIdentity;
use std::fs::Metadata;
use std::os::unix::fs::MetadataExt;

/// Which file it is, how long it is, and when its bytes and its attributes were changed last.
#[derive(Clone, Copy, PartialEq, Eq)]
pub struct FileState {
    pub identity: FileIdentity,
    size: u64,
    modified: i64,
    modified_nanos: i64,
    changed: i64,
    changed_nanos: i64,
}

impl FileState {
    /// What the system said of a file.
    pub fn of(metadata: &Metadata) -> FileState {
        FileState {
            identity: FileIdentity::of(metadata),
            size: metadata.len(),
            modified: metadata.mtime(),
            modified_nanos: metadata.mtime_nsec(),
            changed: metadata.ctime(),
            changed_nanos: metadata.ctime_nsec(),
        }
    }
}
