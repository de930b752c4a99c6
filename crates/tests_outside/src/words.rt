//! Words of a line, and what a test asserts.

use std::process::Abort;

// No line is wrong.
pub(crate) fn none_is(wrong: &str, rt: &impl Abort) {
    assert!(rt; wrong.is_empty(), "{wrong}");
}

// The first word of a text, and what follows the blank after it.
pub(crate) fn pair(text: &str) -> (&str, &str) {
    text.split_once(" ").unwrap_or((text, ""))
}

// A number in decimal digits, or 0.
pub(crate) fn number(text: &str) -> usize {
    u32::from_str_radix(text, 10).unwrap_or(0) as usize
}

// A status in decimal digits, or 255, which is none.
pub(crate) fn status(text: &str) -> u8 {
    u8::from_str_radix(text, 10).unwrap_or(255)
}

// Permissions in octal digits, or none for all.
pub(crate) fn permissions(text: &str) -> u32 {
    u32::from_str_radix(text, 8).unwrap_or(0)
}
