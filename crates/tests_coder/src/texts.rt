//! Numbers and bytes of texts. What is no number is 0.
use std::alloc::Global;

/// The first word of a text, and what follows the blank after it.
pub(crate) fn pair(text: &str) -> (&str, &str) {
    text.split_once(" ").unwrap_or((text, ""))
}

/// What stands before the first `=` of a text, and what follows it.
pub(crate) fn split(text: &str) -> (&str, &str) {
    text.split_once("=").unwrap_or((text, ""))
}

/// A number in decimal digits.
pub(crate) fn number(text: &str) -> u32 {
    u32::from_str_radix(text, 10).unwrap_or(0)
}

/// A number of 16 bits.
pub(crate) fn short_number(text: &str) -> u16 {
    u16::from_str_radix(text, 10).unwrap_or(0)
}

/// A number of 64 bits.
pub(crate) fn long_number(text: &str) -> u64 {
    u64::from_str_radix(text, 10).unwrap_or(0)
}

/// A byte in two hexadecimal digits.
pub(crate) fn byte(text: &str) -> u8 {
    u8::from_str_radix(text, 16).unwrap_or(0)
}

/// The numbers of a text, as far as there is room for them.
pub(crate) fn numbers<'a>(room: &'a mut [u32], text: &str) -> &'a [u32] {
    let mut count = 0usize;
    for word in text.split_whitespace() {
        if let Some(place) = room.get_mut(count) {
            *place = number(word);
            count = count.saturating_add(1);
        }
    }
    &room[..count.min(room.len())]
}

/// The bytes of a text, as far as there is room for them.
pub(crate) fn bytes<'a>(room: &'a mut [u8], text: &str) -> &'a [u8] {
    let mut count = 0usize;
    for word in text.split_whitespace() {
        if let Some(place) = room.get_mut(count) {
            *place = byte(word);
            count = count.saturating_add(1);
        }
    }
    &room[..count.min(room.len())]
}

/// Writes bytes as far as they fit.
pub(crate) fn put(place: &mut [u8], at: usize, bytes: &[u8]) {
    for (i, byte) in bytes.iter().enumerate() {
        if let Some(place) = place.get_mut(at.saturating_add(i)) {
            *place = *byte;
        }
    }
}

/// So many bytes of this value, or none if there is no memory.
pub(crate) fn filled(alloc: Global, byte: u8, count: usize) -> Vec<u8> {
    vec![in alloc; byte; count].unwrap_or(Vec::new(alloc))
}

/// A copy of bytes, or none if there is no memory.
pub(crate) fn copied(alloc: Global, bytes: &[u8]) -> Vec<u8> {
    bytes.to_vec(alloc).unwrap_or(Vec::new(alloc))
}
