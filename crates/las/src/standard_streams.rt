//! The descriptors of the standard streams, of which some may be closed when the process begins.

use std::fs::Files;
use std::io::{self, PipeReader};
use std::os::fd::AsRawFd;

// The last descriptor of a standard stream, which is that of standard error.
const LAST_STANDARD: i32 = 2;

/// What fills the descriptors of standard streams that were closed.
pub struct Fillers {
    first: Option<PipeReader>,
    second: Option<PipeReader>,
    third: Option<PipeReader>,
}

// By hand, so that each caller drops them by one call.
impl Drop for Fillers {
    fn drop(self) {
        let Fillers {
            first,
            second,
            third,
        } = self;
        drop(first);
        drop(second);
        drop(third);
    }
}

/// Fills each descriptor of a standard stream that is closed, for as long as the value is kept.
pub fn fill_all<R: Files>(rt: &R) -> io::Result<Fillers> {
    let first = fill_one(rt)?;
    let second = fill_one(rt)?;
    let third = fill_one(rt)?;
    Ok(Fillers {
        first,
        second,
        third,
    })
}

// Fills the first descriptor that is closed, if it is that of a standard stream, for as long as the value is kept.
//
// Else a file that is opened later would take its place, and a line that is put on the stream would go into the file.
// What fills it can be read alone, so a write to that stream fails. It needs no file of the system.
fn fill_one<R: Files>(rt: &R) -> io::Result<Option<PipeReader>> {
    let (reader, _writer) = io::pipe(rt)?;
    if reader.as_raw_fd() <= LAST_STANDARD {
        Ok(Some(reader))
    } else {
        Ok(None)
    }
}
