//! The files of the system.
ghost use Rattle.std.specs.Prelude.{◌≡◌, ◌≢◌, ◌⊎◌, ◌≤◌, ◌-◌, [], IsNone, IsOk, IsSome, None, Some, OnOk, OnErr};
ghost use Rattle.las_outside.specs.Drafting.{HasDraft, all_moved, only_moved};
ghost use Rattle.las_outside.specs.Faults.{count_after};
ghost use Rattle.las_outside.specs.LeftDrafts.{SaysOfDrafts};
ghost use Rattle.las_outside.specs.Outside.{Later, with_bytes, with_read_fault, with_write_fault};
ghost use Rattle.las_outside.specs.RealFiles.{Publishes, untouched};
ghost use Rattle.las_outside.specs.Sinks.{SinkView};

use crate::draft_file::say;
use crate::draft_list::DraftList;
use crate::handles::{Access, Handles};
use crate::publishing::{publish_all, tell};
use crate::{Failed, Files, Sink};
use std::fs::File;
use std::io;
use std::marker::Model;
use std::rt::Files as System;

/// The files of the system. Contracts see the counts, and how far drafts are, and not what the files hold.
///
/// Outputs are written under their own names, or each as a draft: a hidden file beside it that gets its name by `end`.
///
/// Reads and writes are at positions. A file that the run has opened is known by its device and its number there,
/// whatever its name: to create it under another name, or to create an input, is a fault, and leaves it as it is. A
/// folder, a device and a FIFO are no files: each call for one is a fault. A file that is open already is not looked at
/// again; one that is opened again must be the one that it was. Each error of std is a fault, also one for lack of
/// memory, and so is a read that ends before its buffer is full, or a write that takes nothing.
#[derive(Drop)]
pub struct RealFiles<R: System<File = File> + Drop> {
    rt: R,
    handles: Handles,
    drafts: DraftList,
    read_faults: u64,
    write_faults: u64,
    asked: u64,
}

impl<R: System<File = File> + Drop> Model for RealFiles<R> {
    ghost use Rattle.std.specs.Prelude.{None};
    ghost use Rattle.las_outside.specs.RealFiles.{SystemView, system_code};

    ghost Value = { SystemView };

    ghost coded = { system_code };

    ghost view = { λ f. record {
      outside = record {
        held = None;
        read_faults = f.read_faults;
        write_faults = f.write_faults;
        asked = f.asked;
      };
      drafts = f.drafts;
    } };
}

impl<R: System<File = File> + AllocGlobal + Drop> RealFiles<R> {
    /// No file is open yet, and no call was made. Outputs are written under their own names.
    pub fn new(rt: R) -> RealFiles<R>
        ensures { result ≡ untouched None }
    {
        RealFiles::with(rt, None)
    }

    /// The same, but outputs are written as drafts, whose names tell the number of this process.
    pub fn with_drafts(rt: R, process: u32) -> RealFiles<R>
        ensures { result ≡ untouched (Some process) }
    {
        RealFiles::with(rt, Some(process))
    }

    fn with(rt: R, process: Option<u32>) -> RealFiles<R>
        ensures { result ≡ untouched process }
    {
        let handles = Handles::new(rt.alloc());
        let drafts = DraftList::new(rt.alloc(), process);
        RealFiles {
            rt,
            handles,
            drafts,
            read_faults: 0,
            write_faults: 0,
            asked: 0,
        }
    }
}

impl<R: System<File = File> + AllocGlobal + Drop> RealFiles<R> {
    /// Ends a run, and answers its status. `status` is what it is so far.
    ///
    /// If that is 0, each draft gets the name of its output. It is 3 if an input is not what it was when it was opened,
    /// and then no draft has got its name; and 4 if the system could not do it. Then lines on standard error say which
    /// output it was, and which have got their names. After every other status than 0 the drafts that are left are
    /// removed, or kept under other names, as a line says.
    pub fn end<E: Sink>(&mut self, status: u8, keep: bool, err: &mut E) -> u8
        ensures done { result ≡ 0 → (status ≡ 0) × (self.new ≡ record self.old { drafts = all_moved self.old.drafts }) }
        ensures failed { status ≢ 0 → (result ≡ status)
            × (self.new ≡ record self.old { drafts = only_moved self.old.drafts }) }
        ensures changed { status ≡ 0 → result ≡ 3 → self.new ≡ record self.old {
          outside = with_read_fault self.old.outside;
          drafts = only_moved self.old.drafts;
        } }
        ensures fault { status ≡ 0 → result ≡ 4 → self.new.outside ≡ with_write_fault self.old.outside }
        ensures causes { status ≡ 0 → (result ≡ 0) ⊎ (result ≡ 3) ⊎ (result ≡ 4) }
        ensures none_left { result ≢ 0 → self.new.drafts ≡ only_moved self.new.drafts }
        ensures silent { result ≡ 0 → E.seen err.new ≡ E.seen err.old }
        ensures said { status ≢ 0
            → SaysOfDrafts keep (self.old.drafts.begun - self.new.drafts.moved) (E.seen err.old) (E.seen err.new) }
        ensures said_at_last { result ≢ 0 → (told : SinkView)
            × SaysOfDrafts keep (self.old.drafts.begun - self.new.drafts.moved) told (E.seen err.new) }
    {
        let status = if status == 0 {
            self.publish(err)
        } else {
            status
        };
        if status != 0 {
            self.drafts.discard(&self.rt, keep, err);
        }
        status
    }

    // Gives the drafts their outputs' names, if no input was changed, and answers the status.
    fn publish<E: Sink>(&mut self, err: &mut E) -> u8
        ensures publishes { Publishes result self.old self.new }
        ensures silent { result ≡ 0 → E.seen err.new ≡ E.seen err.old }
    {
        if let Some(name) = self.handles.known().first_changed(&self.rt) {
            say(err, "read fault: ", name);
            self.read_faults = self.read_faults.saturating_add(1);
            return 3;
        }
        match publish_all(
            &self.rt,
            self.rt.alloc(),
            &mut self.handles,
            &mut self.drafts,
        ) {
            Ok(()) => 0,
            Err(failed) => {
                tell(&self.drafts, failed, err);
                self.write_faults = self.write_faults.saturating_add(1);
                4
            }
        }
    }
}

// What std answered, with an error counted.
fn count_error<T>(outcome: io::Result<T>, faults: &mut u64) -> Result<T, Failed>
    ensures ok { OnOk result (faults.new ≡ faults.old) }
    ensures err { OnErr result (faults.new ≡ count_after faults.old 1) }
    ensures later { faults.old ≤ faults.new }
    ensures outcome { OnOk result (IsOk outcome) }
{
    match outcome {
        Ok(value) => Ok(value),
        Err(_) => {
            *faults = faults.saturating_add(1);
            Err(Failed)
        }
    }
}

impl<R: System<File = File> + AllocGlobal + Drop> Files for RealFiles<R> {
    ghost seen = { λ f. f.outside };

    fn size(&mut self, name: &str) -> Result<u64, Failed> {
        let outcome = match self.handles.get(&self.rt, &self.drafts, Access::Read, name) {
            Ok(handle) => handle.len(),
            Err(error) => Err(error),
        };
        count_error(outcome, &mut self.read_faults)
    }

    fn read_at(&mut self, name: &str, pos: u64, buf: &mut [u8]) -> Result<(), Failed> {
        self.asked = self.asked.saturating_add(buf.len() as u64);
        let outcome = match self.handles.get(&self.rt, &self.drafts, Access::Read, name) {
            Ok(handle) => handle.read_at(pos, buf),
            Err(error) => Err(error),
        };
        count_error(outcome, &mut self.read_faults)
    }

    /// As the outputs are written: as a draft, or under its own name.
    fn create(&mut self, name: &str) -> Result<(), Failed>
        ensures ok { OnOk result (self.new.outside ≡ with_bytes self.old.outside name.now []) }
        ensures err { OnErr result ((self.new.outside ≡ with_write_fault self.old.outside)
            ⊎ (self.new.outside ≡ with_write_fault (with_bytes self.old.outside name.now []))) }
        ensures later { Later self.old.outside self.new.outside }
        ensures draft { OnOk result (IsSome self.old.drafts.process → HasDraft self.old.drafts self.new.drafts) }
        ensures plain { IsNone self.old.drafts.process → self.new.drafts ≡ self.old.drafts }
    {
        let outcome = match self.drafts.process() {
            Some(process) => {
                self.handles
                    .create_draft(&self.rt, &mut self.drafts, process, name)
            }
            None => self.handles.create(&self.rt, name),
        };
        count_error(outcome, &mut self.write_faults)
    }

    fn append(&mut self, name: &str, bytes: &[u8]) -> Result<(), Failed> {
        let outcome = match self
            .handles
            .get(&self.rt, &self.drafts, Access::Write, name)
        {
            Ok(handle) => handle.append(bytes),
            Err(error) => Err(error),
        };
        count_error(outcome, &mut self.write_faults)
    }

    fn patch(&mut self, name: &str, pos: u64, bytes: &[u8]) -> Result<(), Failed> {
        let outcome = match self
            .handles
            .get(&self.rt, &self.drafts, Access::Write, name)
        {
            Ok(handle) => handle.patch(pos, bytes),
            Err(error) => Err(error),
        };
        count_error(outcome, &mut self.write_faults)
    }
}
