//! Words of a line, small files, and what is read of their heads.

use las_header::{HEADER_BLOCK, Head, Refusal, need};
use std::alloc::{AllocError, Global};
use std::process::Abort;

// No line is wrong.
pub(crate) fn none_is(wrong: &str, rt: &impl Abort) {
    assert!(rt; wrong.is_empty(), "{wrong}");
}

// The first word of a text, and what follows the blank after it.
pub(crate) fn pair(text: &str) -> (&str, &str) {
    text.split_once(" ").unwrap_or((text, ""))
}

// A number of 32 bits in decimal digits, or 0.
fn count_of(text: &str) -> u32 {
    u32::from_str_radix(text, 10).unwrap_or(0)
}

// The same of the word size.
pub(crate) fn number(text: &str) -> usize {
    count_of(text) as usize
}

// Writes bytes as far as they fit.
pub(crate) fn put(file: &mut Vec<u8>, at: usize, bytes: &[u8]) {
    for (i, byte) in bytes.iter().enumerate() {
        if let Some(place) = file.get_mut(at.saturating_add(i)) {
            *place = *byte;
        }
    }
}

// The numbers of a text, as far as there is room for them.
pub(crate) fn numbers<'a>(room: &'a mut [u32], text: &str) -> &'a [u32] {
    let mut count = 0usize;
    for word in text.split_whitespace() {
        if let Some(place) = room.get_mut(count) {
            *place = count_of(word);
            count = count.saturating_add(1);
        }
    }
    &room[..count.min(room.len())]
}

// What is read of a file's head.
pub(crate) fn opened(alloc: Global, file: &[u8]) -> Result<Result<Head, Refusal>, AllocError> {
    let size = file.len() as u64;
    match need(&file[..HEADER_BLOCK.min(file.len())], size) {
        Ok(offset) => {
            let bytes = file[..offset as usize].to_vec(alloc)?;
            Ok(Head::read(bytes, size))
        }
        Err(cause) => Ok(Err(cause)),
    }
}
