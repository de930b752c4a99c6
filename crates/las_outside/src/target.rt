//! The file that an output's name leads to, and what stands there before the run.

use crate::file_identity::FileIdentity;
use std::alloc::{AllocError, Global};
use std::fs::{self, File, Metadata, Permissions};
use std::io::{self, ErrorKind};
use std::os::unix::fs::{MetadataExt, PermissionsExt, fchown};
use std::rt::Files as System;

// How many symbolic links are followed, as in Linux.
const MOST_LINKS: u32 = 40;

// The permissions of a file: who may read, write and run it.
const PERMISSIONS: u32 = 0o777;

/// A file that an output replaces: which one it is, and whose.
#[derive(Clone, Copy)]
pub struct OlderFile {
    pub identity: FileIdentity,
    mode: u32,
    owner: u32,
    group: u32,
}

impl OlderFile {
    fn of(metadata: &Metadata) -> OlderFile {
        OlderFile {
            identity: FileIdentity::of(metadata),
            mode: metadata.mode() & PERMISSIONS,
            owner: metadata.uid(),
            group: metadata.gid(),
        }
    }

    /// Gives another file the owner, the group and the permissions of this one, as far as the system allows. If it may
    /// not have the group, its group gets no more than all others have.
    pub fn give_to(&self, file: &File) -> io::Result<()> {
        let found = file.metadata()?;
        let has_group = found.gid() == self.group || fchown(file, None, Some(self.group)).is_ok();
        if found.uid() != self.owner {
            let _ = fchown(file, Some(self.owner), None);
        }
        let mode = if has_group {
            self.mode
        } else {
            without_group(self.mode)
        };
        let _ = file.set_permissions(Permissions::from_mode(mode));
        Ok(())
    }
}

// Permissions in which the group has what all others have.
fn without_group(mode: u32) -> u32 {
    (mode & 0o707) | ((mode & 0o007) << 3)
}

/// Where an output is to stand.
#[derive(Drop)]
pub struct Target {
    pub path: String,
    // the folder with a slash after it, or nothing for the one in which the program runs
    pub prefix: String,
    pub file_name: String,
    pub older: Option<OlderFile>,
}

impl Target {
    /// The file that a name leads to: symbolic links are followed, also those to a file that is not there yet.
    ///
    /// It is an error if the name leads to anything but a regular file or a new one.
    pub fn of<R: System<File = File> + AllocGlobal>(rt: &R, name: &str) -> io::Result<Target> {
        let mut path = String::from_str(rt.alloc(), name)?;
        for _ in 0..MOST_LINKS {
            match fs::symlink_metadata(rt, path.as_str()) {
                Ok(found) if found.is_symlink() => path = linked(rt, path.as_str())?,
                Ok(found) => return Target::at(rt, name, path, Some(&found)),
                Err(error) if error.kind() == ErrorKind::NotFound => {
                    return Target::at(rt, name, path, None);
                }
                Err(error) => return Err(error),
            }
        }
        Err(io::Error::from(ErrorKind::FilesystemLoop))
    }

    // The target at a path, if the system takes the name to the same file. It takes some links, as those in /proc, to
    // files that the text of the link does not lead to.
    fn at<R: System<File = File> + AllocGlobal>(
        rt: &R,
        name: &str,
        path: String,
        found: Option<&Metadata>,
    ) -> io::Result<Target> {
        let older = found.map(OlderFile::of);
        match (fs::metadata(rt, name), &older) {
            (Ok(reached), Some(older)) if older.identity == FileIdentity::of(&reached) => {
                refuse_special(&reached)?;
            }
            (Err(error), None) if error.kind() == ErrorKind::NotFound => {}
            (Err(error), _) => return Err(error),
            _ => return Err(io::Error::from(ErrorKind::InvalidInput)),
        }
        let (prefix, file_name) = split(rt.alloc(), path.as_str())?;
        if file_name.is_empty() {
            return Err(io::Error::from(ErrorKind::InvalidInput));
        }
        Ok(Target {
            path,
            prefix,
            file_name,
            older,
        })
    }

    /// The path of its folder.
    pub fn folder(&self) -> &str {
        if self.prefix.is_empty() {
            "."
        } else {
            self.prefix.as_str()
        }
    }
}

// What the symbolic link at a path leads to.
fn linked<R: System<File = File> + AllocGlobal>(rt: &R, path: &str) -> io::Result<String> {
    let text = fs::read_link(rt, path)?.into_string();
    if text.starts_with('/') {
        return Ok(text);
    }
    let (mut whole, _) = split(rt.alloc(), path)?;
    whole.push_str(&text)?;
    Ok(whole)
}

// A path up to its last slash, and the rest.
fn split(alloc: Global, path: &str) -> Result<(String, String), AllocError> {
    match path.rsplit_once('/') {
        Some((folder, name)) => {
            let mut prefix = String::from_str(alloc, folder)?;
            prefix.push_str("/")?;
            Ok((prefix, String::from_str(alloc, name)?))
        }
        None => Ok((String::new(alloc), String::from_str(alloc, path)?)),
    }
}

/// A folder, a device or a FIFO is no file here. To open a FIFO may take for ever, so this is asked before.
pub fn refuse_special(found: &Metadata) -> io::Result<()> {
    if found.is_file() {
        Ok(())
    } else {
        Err(io::Error::from(ErrorKind::InvalidInput))
    }
}
