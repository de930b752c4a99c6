//! Which file of the system a handle leads to, under whatever name it was opened.

use std::fs::Metadata;
use std::os::unix::fs::MetadataExt;

/// A file of the system: the device that holds it, and its number there. It is the same under each name of the file.
#[derive(Clone, Copy, PartialEq, Eq)]
pub struct FileIdentity {
    device: u64,
    inode: u64,
}

impl FileIdentity {
    /// The file that the system described so.
    pub fn of(metadata: &Metadata) -> FileIdentity {
        FileIdentity {
            device: metadata.dev(),
            inode: metadata.ino(),
        }
    }
}
