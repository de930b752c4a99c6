//! The files that a run has opened, by name, also those whose handles are closed by now, and the open files that were
//! compared with them.
ghost use Rattle.std.specs.Prelude.{◌≡◌, ◌⊎◌, All, Any, IsFalse, IsTrue, IfOk, IsErr, OnOk, OnErr};
ghost use Rattle.std.specs.Prelude.{string_bytes, take, vec_len};

use crate::file_identity::FileIdentity;
use crate::file_state::FileState;
use crate::opened_file::OpenedFile;
use crate::target::OlderFile;
use std::alloc::Global;
use std::fs::{self, File};
use std::io::{self, ErrorKind};
use std::os::unix::fs::FileExt;
use std::rt::Files as System;

/// An open file that was compared with those that the run knows. Only `note` and `note_output` make one, so no other
/// file is read, written or made empty.
#[derive(Drop)]
pub struct ComparedFile {
    file: File,
    identity: FileIdentity,
    // whether the run made the file, as an output
    is_output: bool,
}

impl ComparedFile {
    /// The length of the file now.
    pub fn len(&self) -> io::Result<u64> {
        Ok(self.file.metadata()?.len())
    }

    /// Fills the buffer with the bytes from a position on.
    pub fn read_at(&self, pos: u64, buf: &mut [u8]) -> io::Result<()> {
        self.file.read_exact_at(buf, pos)
    }

    /// Writes bytes over those from a position on.
    pub fn write_at(&self, pos: u64, bytes: &[u8]) -> io::Result<()> {
        self.file.write_all_at(bytes, pos)
    }

    /// Makes the file hold nothing. Each file that is made empty is made so here.
    ///
    /// It is an error if the file is no output of the run. Then nothing was changed.
    pub fn empty(&self) -> io::Result<()>
        ensures { IsFalse self.now.is_output → IsErr result }
    {
        if !self.is_output {
            return Err(io::Error::from(ErrorKind::InvalidInput));
        }
        // A new file is empty as it stands. Some systems write a file that was cut to the disk when it is closed.
        if self.len()? > 0 {
            self.file.set_len(0)?;
        }
        Ok(())
    }

    /// Gives the file what an output keeps of an older file, and has the system write it to the disk.
    pub fn sync(&self, older: Option<OlderFile>) -> io::Result<()> {
        if let Some(older) = older {
            older.give_to(&self.file)?;
        }
        self.file.sync_all()
    }
}

// A name, the file that it led to as it was then, and whether the run made that file, as an output.
#[derive(Drop)]
struct KnownFile {
    name: String,
    identity: FileIdentity,
    state: FileState,
    is_output: bool,
}

impl KnownFile {
    // Whether this name may lead to this file, for all that is known of the file here.
    fn agrees(&self, name: &str, identity: FileIdentity) -> bool
        ensures { IsTrue result → string_bytes self.now.name ≡ name.now → self.now.identity ≡ identity }
    {
        if self.name.as_str() == name {
            self.identity == identity
        } else {
            true
        }
    }

    // Whether another name, or this one, may be made an empty output that leads to this file.
    fn allows(&self, name: &str, identity: FileIdentity) -> bool
        ensures { IsTrue result → (self.now.identity ≡ identity) ⊎ (string_bytes self.now.name ≡ name.now)
            → (self.now.identity ≡ identity) × (string_bytes self.now.name ≡ name.now) × IsTrue self.now.is_output }
    {
        let is_same_file = self.identity == identity;
        let has_same_name = self.name.as_str() == name;
        if is_same_file || has_same_name {
            is_same_file && has_same_name && self.is_output
        } else {
            true
        }
    }

    // Whether this is an output that the run has under this name.
    fn is_output_named(&self, name: &str) -> bool
        ensures { IsTrue result → (string_bytes self.now.name ≡ name.now) × IsTrue self.now.is_output }
    {
        self.name.as_str() == name && self.is_output
    }

    // Whether the name still leads to the file, as it was.
    fn is_unchanged<R: System<File = File>>(&self, rt: &R) -> bool {
        match fs::metadata(rt, self.name.as_str()) {
            Ok(found) => FileState::of(&found) == self.state,
            Err(_) => false,
        }
    }
}

/// The files of a run, each under the first name that it was opened by.
#[derive(Drop)]
pub struct KnownFiles {
    alloc: Global,
    files: Vec<KnownFile>,
}

impl KnownFiles {
    /// No file was opened yet.
    pub fn new(alloc: Global) -> KnownFiles {
        KnownFiles {
            alloc,
            files: Vec::new(alloc),
        }
    }

    /// Notes a file that was opened. It is an error if its name led to another file before.
    pub fn note(&mut self, name: &str, opened: OpenedFile) -> io::Result<ComparedFile>
        ensures ok { IfOk result (λ compared. All (λ file.
            string_bytes file.name ≡ name.now → file.identity ≡ compared.identity) self.old.files.items) }
        ensures output { IfOk result (λ compared. IsTrue compared.is_output
            → Any (λ file. (string_bytes file.name ≡ name.now) × IsTrue file.is_output) self.old.files.items) }
        ensures kept { OnOk result (take (vec_len self.old.files) self.new.files.items ≡ self.old.files.items) }
        ensures err { OnErr result (self.new.files.items ≡ self.old.files.items) }
    {
        let (file, state) = opened.into_parts()?;
        let identity = state.identity;
        if !self.files.iter().all(|file| file.agrees(name, identity)) {
            return Err(io::Error::from(ErrorKind::InvalidData));
        }
        let is_output = self.has_output(name);
        self.add_unless_there(name, state, false)?;
        Ok(ComparedFile {
            file,
            identity,
            is_output,
        })
    }

    /// Notes a file that is about to be made empty. It is an error if the run has the file as an input, or under
    /// another name, and if its name led to another file before.
    pub fn note_output(&mut self, name: &str, opened: OpenedFile) -> io::Result<ComparedFile>
        ensures ok { IfOk result (λ compared. All (λ file.
            (file.identity ≡ compared.identity) ⊎ (string_bytes file.name ≡ name.now)
            → (file.identity ≡ compared.identity) × (string_bytes file.name ≡ name.now) × IsTrue file.is_output)
            self.old.files.items) }
        ensures kept { OnOk result (take (vec_len self.old.files) self.new.files.items ≡ self.old.files.items) }
        ensures err { OnErr result (self.new.files.items ≡ self.old.files.items) }
    {
        let (file, state) = opened.into_parts()?;
        let identity = state.identity;
        if !self.files.iter().all(|file| file.allows(name, identity)) {
            return Err(io::Error::from(ErrorKind::InvalidInput));
        }
        self.add_unless_there(name, state, true)?;
        Ok(ComparedFile {
            file,
            identity,
            is_output: true,
        })
    }

    /// Whether the run has opened or made this file, under any name.
    pub fn has(&self, identity: FileIdentity) -> bool {
        self.files.iter().any(|file| file.identity == identity)
    }

    /// The name of the first input that is not as it was when the run opened it first.
    pub fn first_changed<R: System<File = File>>(&self, rt: &R) -> Option<&str> {
        for file in &self.files {
            if !file.is_output && !file.is_unchanged(rt) {
                return Some(file.name.as_str());
            }
        }
        None
    }

    // Whether the run has an output of this name.
    fn has_output(&self, name: &str) -> bool
        ensures { IsTrue result → Any (λ file. (string_bytes file.name ≡ name.now) × IsTrue file.is_output)
            self.now.files.items }
    {
        for file in &self.files {
            if file.is_output_named(name) {
                return true;
            }
        }
        false
    }

    // Adds a file, unless there is one of this name.
    fn add_unless_there(&mut self, name: &str, state: FileState, is_output: bool) -> io::Result<()>
        ensures kept { OnOk result (take (vec_len self.old.files) self.new.files.items ≡ self.old.files.items) }
        ensures err { OnErr result (self.new.files.items ≡ self.old.files.items) }
    {
        if self.files.iter().any(|file| file.name.as_str() == name) {
            return Ok(());
        }
        let name = String::from_str(self.alloc, name)?;
        match self.files.push(KnownFile {
            name,
            identity: state.identity,
            state,
            is_output,
        }) {
            Ok(()) => Ok(()),
            Err(_) => Err(io::Error::from(ErrorKind::OutOfMemory)),
        }
    }
}
