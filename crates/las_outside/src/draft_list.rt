//! The outputs of a run that are written as drafts, in the order in which they were begun.
ghost use Rattle.std.specs.Prelude.{◌≡◌, ◌+◌, ◌-◌, ◌<◌, ◌≤◌, IsSome, OnOk, OnErr};
ghost use Rattle.las_outside.specs.Drafting.{BeginsNone, BeginsOne, no_drafts, only_moved};
ghost use Rattle.las_outside.specs.LeftDrafts.{SaysOfDrafts};

use crate::Sink;
use crate::draft_file::DraftFile;
use crate::file_identity::FileIdentity;
use crate::known_files::KnownFiles;
use crate::target::{Target, refuse_special};
use std::alloc::{AllocError, Global};
use std::fs::{self, File};
use std::io::{self, ErrorKind};
use std::marker::Model;
use std::rt::Files as System;

/// The drafts of a run. Those with the lowest numbers are synced, and of these some are moved to their outputs' names.
#[derive(Drop)]
pub struct DraftList {
    // the number of the process that the drafts' names tell; there is none if outputs are written under their own names
    process: Option<u32>,
    drafts: Vec<DraftFile>,
    synced: usize,
    moved: usize,
}

impl Model for DraftList {
    ghost use Rattle.std.specs.Prelude.{◌≤◌, vec_capacity, vec_len};
    ghost use Rattle.las_outside.specs.Drafting.{Drafting, drafting_code};

    ghost Value = { Drafting };

    ghost coded = { drafting_code };

    ghost view = { λ d. record {
      process = d.process;
      begun = vec_len d.drafts;
      room = vec_capacity d.drafts;
      synced = d.synced;
      moved = d.moved;
    } };

    ghost invariant = { λ d. (d.moved ≤ d.synced) × (d.synced ≤ vec_len d.drafts) };
}

impl DraftList {
    /// No draft yet.
    pub fn new(alloc: Global, process: Option<u32>) -> DraftList
        ensures { result ≡ no_drafts process }
    {
        DraftList {
            process,
            drafts: Vec::new(alloc),
            synced: 0,
            moved: 0,
        }
    }

    /// The number of the process, if outputs are written as drafts.
    pub fn process(&self) -> Option<u32>
        ensures { result ≡ self.now.process }
    {
        self.process
    }

    /// How many drafts there are.
    pub fn len(&self) -> usize
        ensures { result ≡ self.now.begun }
    {
        self.drafts.len()
    }

    /// How many drafts are synced.
    pub fn synced(&self) -> usize
        ensures value { result ≡ self.now.synced }
        ensures within { result ≤ self.now.begun }
    {
        self.synced
    }

    /// How many drafts are moved.
    pub fn moved(&self) -> usize
        ensures value { result ≡ self.now.moved }
        ensures within { result ≤ self.now.synced }
    {
        self.moved
    }

    /// The draft of this number, from 0.
    pub fn get(&self, number: usize) -> Option<&DraftFile> {
        self.drafts.get(number)
    }

    /// The draft of an output.
    pub fn of(&self, name: &str) -> Option<&DraftFile>
        ensures { IsSome result → 0 < self.now.begun }
    {
        self.drafts.iter().find(|draft| draft.name.as_str() == name)
    }

    /// Where a file of the run is found: an output in its draft, and any other under its name.
    pub fn path_of<'a>(&'a self, name: &'a str) -> &'a str {
        match self.of(name) {
            Some(draft) => draft.path.as_str(),
            None => name,
        }
    }

    /// Whether another output of the run has this place.
    pub fn has_place(&self, place: FileIdentity, target: &Target) -> bool {
        self.drafts.iter().any(|draft| draft.is_for(place, target))
    }

    /// Makes room for one draft more.
    pub fn make_room(&mut self) -> Result<(), AllocError>
        ensures ok { OnOk result (self.old.begun < self.new.room) }
        ensures drafts { BeginsNone self.old self.new }
    {
        self.drafts.reserve(1)
    }

    /// Adds a draft that was begun. There is room for it.
    pub fn add(&mut self, draft: DraftFile)
        requires { self.old.begun < self.old.room }
        ensures { BeginsOne self.old self.new }
    {
        let added = self.drafts.push(draft).is_ok();
        prove!(added);
    }

    /// Notes that the first draft that was not synced is synced now.
    pub fn note_synced(&mut self)
        requires { self.old.synced < self.old.begun }
        ensures { self.new ≡ record self.old { synced = self.old.synced + 1 } }
    {
        self.synced += 1;
    }

    /// Gives the first draft that was not moved the name of its output. After an error nothing has changed.
    pub fn move_next<R: System<File = File>>(
        &mut self,
        rt: &R,
        known: &KnownFiles,
    ) -> io::Result<()>
        requires { self.old.moved < self.old.synced }
        ensures ok { OnOk result (self.new ≡ record self.old { moved = self.old.moved + 1 }) }
        ensures err { OnErr result (self.new ≡ self.old) }
    {
        let Some(draft) = self.drafts.get(self.moved) else {
            return Err(io::Error::from(ErrorKind::NotFound));
        };
        self.refuse_lost(rt, draft, known)?;
        draft.take_name(rt)?;
        self.moved += 1;
        Ok(())
    }

    // It is an error if something stands under the output's name that the output may not replace: what is no regular
    // file, an input, or an output of this run, as on a file system to which two names are one.
    fn refuse_lost<R: System<File = File>>(
        &self,
        rt: &R,
        draft: &DraftFile,
        known: &KnownFiles,
    ) -> io::Result<()> {
        let found = match fs::symlink_metadata(rt, draft.target.path.as_str()) {
            Ok(found) => found,
            Err(error) if error.kind() == ErrorKind::NotFound => return Ok(()),
            Err(error) => return Err(error),
        };
        refuse_special(&found)?;
        if known.has(FileIdentity::of(&found)) {
            return Err(io::Error::from(ErrorKind::InvalidInput));
        }
        Ok(())
    }

    /// Removes each draft that was not moved, or keeps it under another name, and says so.
    pub fn discard<R: System<File = File> + AllocGlobal, E: Sink>(
        &mut self,
        rt: &R,
        keep: bool,
        err: &mut E,
    )
        ensures drafts { self.new ≡ only_moved self.old }
        ensures said { SaysOfDrafts keep (self.old.begun - self.old.moved) (E.seen err.old) (E.seen err.new) }
    {
        for number in self.moved..self.drafts.len() {
            self.drafts[number].put_away(rt, keep, err);
        }
        self.drafts.truncate(self.moved);
        self.synced = self.moved;
    }
}
