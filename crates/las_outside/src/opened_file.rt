//! Files as the system opens them, before they are compared with those that the run knows.

use crate::file_state::FileState;
use crate::target::refuse_special;
use std::fs::{File, OpenOptions, TryLockError};
use std::io;
use std::rt::Files as System;

/// A file or a folder that was opened. Nothing can be read from it or written to it: `KnownFiles` compares it first.
#[derive(Drop)]
pub struct OpenedFile {
    file: File,
}

impl OpenedFile {
    /// Opens what a path leads to.
    pub fn open<R: System<File = File>>(
        rt: &R,
        options: &OpenOptions,
        path: &str,
    ) -> io::Result<OpenedFile> {
        let file = options.open(rt, path)?;
        Ok(OpenedFile { file })
    }

    /// What the system says of it. It is an error if it is no regular file.
    pub fn state(&self) -> io::Result<FileState> {
        let found = self.file.metadata()?;
        refuse_special(&found)?;
        Ok(FileState::of(&found))
    }

    /// Locks it, if the file system has locks. The answer is whether no other program has it locked.
    pub fn lock(&self) -> bool {
        !matches!(self.file.try_lock(), Err(TryLockError::WouldBlock))
    }

    /// Has the system write a folder's names to the disk.
    pub fn sync_folder(&self) -> io::Result<()> {
        self.file.sync_all()
    }

    /// The file, and what the system says of it. It is an error if it is no regular file.
    pub fn into_parts(self) -> io::Result<(File, FileState)> {
        let state = self.state()?;
        Ok((self.file, state))
    }
}
