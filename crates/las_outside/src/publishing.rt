//! How the drafts of a run get the names of their outputs: all are synced, then all are moved, then their folders are
//! synced.
ghost use Rattle.std.specs.Prelude.{◌≡◌, OnOk, OnErr};
ghost use Rattle.las_outside.specs.Drafting.{all_moved};

use crate::Sink;
use crate::draft_file::say;
use crate::draft_list::DraftList;
use crate::handles::Handles;
use crate::opened_file::OpenedFile;
use std::alloc::Global;
use std::fs::File;
use std::io::{self, ErrorKind};
use std::rt::Files as System;

// An open folder, and the number of the first draft in it.
#[derive(Drop)]
struct Folder {
    opened: OpenedFile,
    number: usize,
}

/// Gives each draft the name of its output. After an error, which is the number of a draft, those that were moved are
/// whole and stay.
pub fn publish_all<R: System<File = File>>(
    rt: &R,
    alloc: Global,
    handles: &mut Handles,
    drafts: &mut DraftList,
) -> Result<(), usize>
    ensures ok { OnOk result (drafts.new ≡ all_moved drafts.old) }
    ensures begun { drafts.new.begun ≡ drafts.old.begun }
{
    let folders = open_folders(rt, alloc, handles, drafts)?;
    if sync_all(rt, handles, drafts).is_err() {
        return Err(drafts.synced());
    }
    match move_all(rt, handles, drafts) {
        Ok(()) => sync_folders(&folders),
        Err(_) => Err(drafts.moved()),
    }
}

// Opens the folders of the drafts, so that one that can't be opened is found before any draft is moved.
fn open_folders<R: System<File = File>>(
    rt: &R,
    alloc: Global,
    handles: &mut Handles,
    drafts: &DraftList,
) -> Result<Vec<Folder>, usize> {
    let mut folders = Vec::new(alloc);
    let mut last = "";
    for number in 0..drafts.len() {
        let Some(draft) = drafts.get(number) else {
            return Err(number);
        };
        let folder = draft.target.folder();
        if folder == last {
            continue;
        }
        last = folder;
        let Ok(opened) = handles.open_folder(rt, folder) else {
            return Err(number);
        };
        if folders.push(Folder { opened, number }).is_err() {
            return Err(number);
        }
    }
    Ok(folders)
}

// Has the system write each draft to the disk that it has not written yet.
fn sync_all<R: System<File = File>>(
    rt: &R,
    handles: &mut Handles,
    drafts: &mut DraftList,
) -> io::Result<()>
    ensures ok { OnOk result (drafts.new ≡ record drafts.old { synced = drafts.old.begun }) }
    ensures begun { drafts.new.begun ≡ drafts.old.begun }
{
    for number in drafts.synced()..drafts.len() {
        handles.sync_next(rt, drafts)?;
    }
    Ok(())
}

// Gives each draft the name of its output that has not got it yet.
fn move_all<R: System<File = File>>(
    rt: &R,
    handles: &Handles,
    drafts: &mut DraftList,
) -> io::Result<()>
    requires { drafts.old.synced ≡ drafts.old.begun }
    ensures ok { OnOk result (drafts.new ≡ all_moved drafts.old) }
    ensures begun { drafts.new.begun ≡ drafts.old.begun }
{
    for number in drafts.moved()..drafts.len() {
        drafts.move_next(rt, handles.known())?;
    }
    Ok(())
}

// Has the system write the names in the folders to the disk. Some file systems have no such call for a folder.
fn sync_folders(folders: &[Folder]) -> Result<(), usize> {
    for folder in folders {
        match folder.opened.sync_folder() {
            Ok(()) => {}
            Err(error) if has_no_sync(&error) => {}
            Err(_) => return Err(folder.number),
        }
    }
    Ok(())
}

// Whether an error says that the file system can't sync a folder by itself.
fn has_no_sync(error: &io::Error) -> bool {
    matches!(
        error.kind(),
        ErrorKind::InvalidInput | ErrorKind::Unsupported
    )
}

/// Puts a line for the output that could not get its name, and one for each output if others got theirs.
pub fn tell<E: Sink>(drafts: &DraftList, failed: usize, err: &mut E) {
    if let Some(draft) = drafts.get(failed) {
        say(err, "write fault: ", draft.name.as_str());
    }
    if drafts.moved() == 0 {
        return;
    }
    for number in 0..drafts.len() {
        if let Some(draft) = drafts.get(number) {
            let said = if number < drafts.moved() {
                "written: "
            } else {
                "not written: "
            };
            say(err, said, draft.name.as_str());
        }
    }
}
