//! The handles of the files of a run: they stay open as long as the system allows, and closed ones are opened again.

ghost use Rattle.std.specs.Prelude.{◌≡◌, ◌+◌, ◌<◌, OnOk, OnErr};
ghost use Rattle.las_outside.specs.Drafting.{BeginsOne, HasDraft};

use crate::draft_file::DraftFile;
use crate::draft_list::DraftList;
use crate::draft_name::draft_path;
use crate::file_identity::FileIdentity;
use crate::known_files::{ComparedFile, KnownFiles};
use crate::opened_file::OpenedFile;
use crate::target::{Target, refuse_special};
use std::alloc::Global;
use std::collections::HashMap;
use std::fs::{self, File, OpenOptions};
use std::io::{self, ErrorKind};
use std::os::unix::fs::OpenOptionsExt;
use std::rt::Files as System;

/// The most handles that are open at a time: one for each part of a file that is split into 512, and some for inputs.
/// Many systems allow a process 1,024, and the rest is left for others.
const MOST_OPEN: usize = 528;

// What Linux answers if it has no more handles: for all processes, and for this one.
const NONE_IN_SYSTEM: i32 = 23;

const NONE_IN_PROCESS: i32 = 24;

// How many hidden names are tried for a draft.
const MOST_NAMES: u16 = 0xffff;

// The permissions of a draft until it gets those of an older file.
const OWNER_ONLY: u32 = 0o600;

/// What a handle is for. A file that a run writes and reads has two.
#[derive(Clone, Copy)]
pub enum Access {
    Read,
    Write,
}

/// An open file.
#[derive(Drop)]
pub struct Handle {
    file: ComparedFile,
    // how long the file is, if that is known
    end: Option<u64>,
    // which of all uses of handles the last one of this was
    used: u64,
}

impl Handle {
    /// The length of the file now.
    pub fn len(&self) -> io::Result<u64> {
        self.file.len()
    }

    /// Fills the buffer with the bytes from a position on.
    pub fn read_at(&self, pos: u64, buf: &mut [u8]) -> io::Result<()> {
        self.file.read_at(pos, buf)
    }

    /// Writes bytes after those that are there. The system is asked for the length only if it is not known.
    pub fn append(&mut self, bytes: &[u8]) -> io::Result<()> {
        let end = match self.end.take() {
            Some(end) => end,
            None => self.len()?,
        };
        self.file.write_at(end, bytes)?;
        self.end = end.checked_add(bytes.len() as u64);
        Ok(())
    }

    /// Writes bytes over those from a position on.
    pub fn patch(&mut self, pos: u64, bytes: &[u8]) -> io::Result<()> {
        self.end = None;
        self.file.write_at(pos, bytes)
    }

    // Makes the file hold nothing.
    fn empty(&mut self) -> io::Result<()> {
        self.end = None;
        self.file.empty()?;
        self.end = Some(0);
        Ok(())
    }
}

/// The files that a run has opened, and the handles of those that were used last.
#[derive(Drop)]
pub struct Handles {
    alloc: Global,
    known: KnownFiles,
    readers: HashMap<String, Handle>,
    writers: HashMap<String, Handle>,
    // how often a handle was opened or asked for
    uses: u64,
}

impl Handles {
    /// No file was opened yet.
    pub fn new(alloc: Global) -> Handles {
        Handles {
            alloc,
            known: KnownFiles::new(alloc),
            readers: HashMap::new(alloc),
            writers: HashMap::new(alloc),
            uses: 0,
        }
    }

    /// A handle of a file that is there. That of an output leads to its draft, if it has one.
    ///
    /// It is an error if the name leads to no regular file, or to another file than at its first use.
    pub fn get<R: System<File = File>>(
        &mut self,
        rt: &R,
        drafts: &DraftList,
        access: Access,
        name: &str,
    ) -> io::Result<&mut Handle> {
        if !self.of(access).contains_key(name) {
            self.open_again(rt, access, name, drafts.path_of(name))?;
        }
        let used = self.next_use();
        match self.of(access).get_mut(name) {
            Some(handle) => {
                handle.used = used;
                Ok(handle)
            }
            None => Err(io::Error::from(ErrorKind::NotFound)),
        }
    }

    /// Makes a file hold nothing, and makes it first if it is not there.
    ///
    /// It is an error if the name leads to anything but a regular file, or to a file that the run has as an input or
    /// under another name. Then nothing was changed.
    pub fn create<R: System<File = File>>(&mut self, rt: &R, name: &str) -> io::Result<()> {
        match fs::metadata(rt, name) {
            Ok(found) => refuse_special(&found)?,
            Err(error) if error.kind() == ErrorKind::NotFound => {}
            Err(error) => return Err(error),
        }
        self.writers.remove(name);
        let mut options = OpenOptions::new();
        let options = options.write(true).create(true);
        let opened = self.open_file(rt, options, name)?;
        let file = self.known.note_output(name, opened)?;
        file.empty()?;
        self.keep(Access::Write, name, file, Some(0))
    }

    /// Makes a new draft, or one that the run has made, hold nothing.
    ///
    /// It is an error if the name leads to anything but a regular file or a new one, to a file that can't be written, or
    /// to one that the run has as an input or under another name. Then nothing was made.
    pub fn create_draft<R: System<File = File> + AllocGlobal>(
        &mut self,
        rt: &R,
        drafts: &mut DraftList,
        process: u32,
        name: &str,
    ) -> io::Result<()>
        ensures { OnOk result (HasDraft drafts.old drafts.new) }
    {
        if drafts.of(name).is_some() {
            return self.get(rt, drafts, Access::Write, name)?.empty();
        }
        let target = Target::of(rt, name)?;
        let place = FileIdentity::of(&fs::metadata(rt, target.folder())?);
        self.refuse_lost(rt, drafts, place, &target)?;
        drafts.make_room()?;
        let name_kept = String::from_str(self.alloc, name)?;
        for number in 0..MOST_NAMES {
            let path = draft_path(
                self.alloc,
                target.prefix.as_str(),
                target.file_name.as_str(),
                process,
                number,
            )?;
            if let Some(opened) = self.create_new(rt, &target, path.as_str())? {
                return self.begin(
                    drafts,
                    name,
                    opened,
                    DraftFile {
                        name: name_kept,
                        target,
                        place,
                        path,
                        identity: None,
                    },
                );
            }
        }
        Err(io::Error::from(ErrorKind::AlreadyExists))
    }

    /// Has the system write the first draft that was not synced to the disk. After an error no draft counts as synced
    /// that did not before.
    pub fn sync_next<R: System<File = File>>(
        &mut self,
        rt: &R,
        drafts: &mut DraftList,
    ) -> io::Result<()>
        requires { drafts.old.synced < drafts.old.begun }
        ensures ok { OnOk result (drafts.new ≡ record drafts.old { synced = drafts.old.synced + 1 }) }
        ensures err { OnErr result (drafts.new ≡ drafts.old) }
    {
        self.sync_draft(rt, drafts, drafts.synced())?;
        drafts.note_synced();
        Ok(())
    }

    /// A folder, open to be synced.
    pub fn open_folder<R: System<File = File>>(
        &mut self,
        rt: &R,
        path: &str,
    ) -> io::Result<OpenedFile> {
        let mut options = OpenOptions::new();
        self.open_closing(rt, options.read(true), path)
    }

    /// The files that the run has opened or made.
    pub fn known(&self) -> &KnownFiles {
        &self.known
    }

    // Has the system write the draft of this number to the disk.
    fn sync_draft<R: System<File = File>>(
        &mut self,
        rt: &R,
        drafts: &DraftList,
        number: usize,
    ) -> io::Result<()> {
        let Some(draft) = drafts.get(number) else {
            return Err(io::Error::from(ErrorKind::NotFound));
        };
        let handle = self.get(rt, drafts, Access::Write, draft.name.as_str())?;
        handle.file.sync(draft.target.older)?;
        draft.refuse_moved(rt)
    }

    // It is an error if an output may not replace what stands at its place: a file that the run has as an input, or
    // under another name, or one that can't be written. The system would let a run replace the last of these too.
    fn refuse_lost<R: System<File = File>>(
        &mut self,
        rt: &R,
        drafts: &DraftList,
        place: FileIdentity,
        target: &Target,
    ) -> io::Result<()> {
        if drafts.has_place(place, target) {
            return Err(io::Error::from(ErrorKind::InvalidInput));
        }
        if let Some(older) = &target.older {
            if self.known.has(older.identity) {
                return Err(io::Error::from(ErrorKind::InvalidInput));
            }
            let mut options = OpenOptions::new();
            let _ = self.open_closing(rt, options.write(true), target.path.as_str())?;
        }
        Ok(())
    }

    // Creates a draft, and locks it if the file system has locks. There is none if something has this name already, or
    // if another program has locked the file since.
    fn create_new<R: System<File = File>>(
        &mut self,
        rt: &R,
        target: &Target,
        path: &str,
    ) -> io::Result<Option<OpenedFile>> {
        if self.open() >= MOST_OPEN {
            self.close_oldest();
        }
        let mut options = OpenOptions::new();
        options.write(true).create_new(true);
        if target.older.is_some() {
            options.mode(OWNER_ONLY);
        }
        match self.open_closing(rt, &options, path) {
            Ok(opened) => {
                if opened.lock() {
                    Ok(Some(opened))
                } else {
                    Ok(None)
                }
            }
            Err(error) if error.kind() == ErrorKind::AlreadyExists => Ok(None),
            Err(error) => Err(error),
        }
    }

    // Adds a draft that was created to the list, so that it is removed if the run fails from now on.
    fn begin(
        &mut self,
        drafts: &mut DraftList,
        name: &str,
        opened: OpenedFile,
        mut draft: DraftFile,
    ) -> io::Result<()>
        requires { drafts.old.begun < drafts.old.room }
        ensures { BeginsOne drafts.old drafts.new }
    {
        if let Ok(state) = opened.state() {
            draft.identity = Some(state.identity);
        }
        drafts.add(draft);
        let file = self.known.note_output(name, opened)?;
        self.keep(Access::Write, name, file, Some(0))
    }

    // The open handles that are for this.
    fn of(&mut self, access: Access) -> &mut HashMap<String, Handle> {
        match access {
            Access::Read => &mut self.readers,
            Access::Write => &mut self.writers,
        }
    }

    // Counts a use of a handle, and gives its number.
    fn next_use(&mut self) -> u64 {
        self.uses = self.uses.saturating_add(1);
        self.uses
    }

    // How many handles are open.
    fn open(&self) -> usize {
        self.readers.len().saturating_add(self.writers.len())
    }

    // Closes the handle that was used least lately.
    fn close_oldest(&mut self) {
        let handles = self.readers.values().chain(self.writers.values());
        if let Some(oldest) = handles.map(|handle| handle.used).min() {
            self.readers.retain(|_name, handle| handle.used != oldest);
            self.writers.retain(|_name, handle| handle.used != oldest);
        }
    }

    // Opens a file that is there, which must be the one that its name led to before.
    fn open_again<R: System<File = File>>(
        &mut self,
        rt: &R,
        access: Access,
        name: &str,
        path: &str,
    ) -> io::Result<()> {
        refuse_special(&fs::metadata(rt, path)?)?;
        let mut options = OpenOptions::new();
        let options = match access {
            Access::Read => options.read(true),
            Access::Write => options.write(true),
        };
        let opened = self.open_file(rt, options, path)?;
        let file = self.known.note(name, opened)?;
        self.keep(access, name, file, None)
    }

    // Opens a file. If many are open, the handle that was used least lately is closed first.
    fn open_file<R: System<File = File>>(
        &mut self,
        rt: &R,
        options: &OpenOptions,
        path: &str,
    ) -> io::Result<OpenedFile> {
        if self.open() >= MOST_OPEN {
            self.close_oldest();
        }
        self.open_closing(rt, options, path)
    }

    // Opens a file. As long as the system has no handle for it, the one that was used least lately is closed.
    fn open_closing<R: System<File = File>>(
        &mut self,
        rt: &R,
        options: &OpenOptions,
        path: &str,
    ) -> io::Result<OpenedFile> {
        for _closed in 0..MOST_OPEN {
            match OpenedFile::open(rt, options, path) {
                Err(error) if is_none_left(&error) && self.open() > 0 => self.close_oldest(),
                outcome => return outcome,
            }
        }
        OpenedFile::open(rt, options, path)
    }

    // Keeps an open file.
    fn keep(
        &mut self,
        access: Access,
        name: &str,
        file: ComparedFile,
        end: Option<u64>,
    ) -> io::Result<()> {
        let name = String::from_str(self.alloc, name)?;
        let used = self.next_use();
        self.of(access).insert(name, Handle { file, end, used })?;
        Ok(())
    }
}

// Whether an error says that the system has no more handles.
fn is_none_left(error: &io::Error) -> bool {
    matches!(error.raw_os_error(), Some(NONE_IN_SYSTEM | NONE_IN_PROCESS))
}
