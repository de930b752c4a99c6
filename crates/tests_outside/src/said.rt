//! What was said on standard error, line by line.

use las_outside::MemSink;
use std::alloc::{AllocError, Global};

// More than any script has said.
const ROOM: usize = 4096;

// A stream in memory, and how many of its bytes a script has named.
#[derive(Drop)]
pub(crate) struct Said {
    pub(crate) stream: MemSink,
    named: usize,
}

impl Said {
    // Nothing was said yet.
    pub(crate) fn new(alloc: Global) -> Result<Said, AllocError> {
        let stream = MemSink::with_room(alloc, ROOM)?;
        Ok(Said { stream, named: 0 })
    }

    // Whether this line was said next.
    pub(crate) fn is_next(&mut self, line: &str) -> bool {
        let bytes = self.stream.bytes();
        let end = self.named.saturating_add(line.len());
        let is_line = bytes.get(self.named..end) == Some(line.as_bytes());
        let is_ended = bytes.get(end) == Some(&b'\n');
        self.named = end.saturating_add(1);
        is_line && is_ended
    }

    // Whether each line that was said was named.
    pub(crate) fn is_named(&self) -> bool {
        self.stream.bytes().len() == self.named
    }
}
