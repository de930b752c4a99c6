//! An output that is written under a hidden name until it is whole.
ghost use Rattle.std.specs.Prelude.{codes};
ghost use Rattle.las_outside.specs.LeftDrafts.{SaysOfDraft, line_of_path};
ghost use Rattle.las_outside.specs.Sinks.{Puts};

use crate::file_identity::FileIdentity;
use crate::target::Target;
use crate::{Sink, put_all};
use std::alloc::{AllocError, Global};
use std::fs::{self, File};
use std::io::{self, ErrorKind};
use std::rt::Files as System;

/// A draft: the name that the run has for the output, where the output is to stand, the folder that holds both, and
/// where it is written.
#[derive(Drop)]
pub struct DraftFile {
    pub name: String,
    pub target: Target,
    pub place: FileIdentity,
    pub path: String,
    // which file it is; it is not known if the system did not say so
    pub identity: Option<FileIdentity>,
}

impl DraftFile {
    /// Whether another output would have the place of this one: the same name in the same folder, or the same older
    /// file under another name.
    pub fn is_for(&self, place: FileIdentity, target: &Target) -> bool {
        if self.place == place && self.target.file_name == target.file_name {
            return true;
        }
        match (&self.target.older, &target.older) {
            (Some(own), Some(other)) => own.identity == other.identity,
            _ => false,
        }
    }

    /// Whether the draft's name still leads to the draft.
    pub fn is_there<R: System<File = File>>(&self, rt: &R) -> io::Result<bool> {
        let found = fs::symlink_metadata(rt, self.path.as_str())?;
        match self.identity {
            Some(identity) => Ok(found.is_file() && FileIdentity::of(&found) == identity),
            None => Ok(found.is_file()),
        }
    }

    /// It is an error if the draft's name leads to another file by now.
    pub fn refuse_moved<R: System<File = File>>(&self, rt: &R) -> io::Result<()> {
        if self.is_there(rt)? {
            Ok(())
        } else {
            Err(io::Error::from(ErrorKind::NotFound))
        }
    }

    /// Gives the draft the name of its output, in one step. What has this name is replaced.
    pub fn take_name<R: System<File = File>>(&self, rt: &R) -> io::Result<()> {
        fs::rename(rt, self.path.as_str(), self.target.path.as_str())
    }

    /// Removes the draft, or keeps it under the name of its output with `.part` after it. What has this name stays; the
    /// draft is then kept where it is. A line says what is kept, or can't be removed.
    pub fn put_away<R: System<File = File> + AllocGlobal, E: Sink>(
        &self,
        rt: &R,
        keep: bool,
        err: &mut E,
    )
        ensures { SaysOfDraft keep (E.seen err.old) (E.seen err.new) }
    {
        if keep {
            match self.keep(rt) {
                Some(kept) => say(err, "kept: ", kept.as_str()),
                None => say(err, "kept: ", self.path.as_str()),
            }
        } else if !self.remove(rt) {
            say(err, "not removed: ", self.path.as_str());
        }
    }

    // Removes the draft. If another file has its name by now, that file stays.
    fn remove<R: System<File = File>>(&self, rt: &R) -> bool {
        match self.is_there(rt) {
            Ok(true) => fs::remove_file(rt, self.path.as_str()).is_ok(),
            Ok(false) => true,
            Err(error) => error.kind() == ErrorKind::NotFound,
        }
    }

    // Gives the draft the name of its output with `.part` after it, if nothing has this name.
    fn keep<R: System<File = File> + AllocGlobal>(&self, rt: &R) -> Option<String> {
        let Ok(kept) = self.kept_path(rt.alloc()) else {
            return None;
        };
        if fs::hard_link(rt, self.path.as_str(), kept.as_str()).is_err() {
            return None;
        }
        let _ = fs::remove_file(rt, self.path.as_str());
        Some(kept)
    }

    fn kept_path(&self, alloc: Global) -> Result<String, AllocError> {
        let mut kept = String::from_str(alloc, self.target.path.as_str())?;
        kept.push_str(".part")?;
        Ok(kept)
    }
}

/// Puts a line on standard error. If that fails, the status still says what it is about.
pub fn say<E: Sink>(err: &mut E, cause: &str, name: &str)
    ensures { Puts (line_of_path cause.now name.now) (E.seen err.old) (E.seen err.new) }
{
    let _ = put_all(err, &[cause.as_bytes(), name.as_bytes(), b"\n"]);
}
