//! Bytes of the files of the tests.
use std::alloc::AllocError;

/// What a file is like: its minor version, its point data format, and how many VLRs of four bytes each it has.
#[derive(Clone, Copy)]
pub(crate) struct Shape {
    pub(crate) minor: u8,
    pub(crate) format: u8,
    pub(crate) vlrs: u8,
}

impl Shape {
    fn header_size(self) -> u16 {
        match self.minor {
            3 => 235,
            4 => 375,
            _ => 227,
        }
    }

    fn record_length(self) -> u16 {
        match self.format {
            1 => 28,
            2 => 26,
            3 => 34,
            _ => 20,
        }
    }

    // Where the points begin.
    fn offset(self) -> u32 {
        u32::from(self.header_size()) + 58 * u32::from(self.vlrs)
    }
}

// Writes bytes over those from a place on.
fn put(file: &mut [u8], at: usize, bytes: &[u8]) {
    for (place, byte) in file.iter_mut().skip(at).zip(bytes) {
        *place = *byte;
    }
}

/// The byte that two hexadecimal digits write.
pub(crate) fn byte_of(word: &str) -> u8 {
    u8::from_str_radix(word, 16).unwrap_or(0)
}

/// Writes the bytes of a text over those from a place on.
pub(crate) fn put_hex(file: &mut [u8], at: usize, text: &str) {
    for (place, word) in file.iter_mut().skip(at).zip(text.split_whitespace()) {
        *place = byte_of(word);
    }
}

/// Appends the bytes of a text.
pub(crate) fn add_hex(file: &mut Vec<u8>, text: &str) -> Result<(), AllocError> {
    for word in text.split_whitespace() {
        file.push(byte_of(word))?;
    }
    Ok(())
}

// Sets the fields of a head in bytes that are as long as it.
fn put_fields(head: &mut [u8], shape: Shape, points: u32) {
    put(head, 0, b"LASF");
    put(head, 24, &[1, shape.minor]);
    put(head, 94, &shape.header_size().to_le_bytes());
    put(head, 96, &shape.offset().to_le_bytes());
    put(head, 100, &[shape.vlrs, 0, 0, 0, shape.format]);
    put(head, 105, &shape.record_length().to_le_bytes());
    put(head, 107, &[0; 24]);
    put(head, 107, &points.to_le_bytes());
    put(head, 111, &points.to_le_bytes());
}

// Sets the fields that LAS 1.4 alone has: no extended VLRs, and the second set of counts.
fn put_long_fields(head: &mut [u8], points: u32) {
    put(head, 243, &[0; 132]);
    put(head, 247, &points.to_le_bytes());
    put(head, 255, &points.to_le_bytes());
}

/// Appends a VLR of four bytes.
pub(crate) fn add_vlr(file: &mut Vec<u8>) -> Result<(), AllocError> {
    file.extend_from_slice(&[9; 18])?;
    file.extend_from_slice(&[4, 0, 4, 0])?;
    file.extend_from_slice(&[9; 36])
}

/// Appends a head, with 7 in every byte that nothing reads. It counts points, all of them first returns.
pub(crate) fn add_head(file: &mut Vec<u8>, shape: Shape, points: u32) -> Result<(), AllocError> {
    file.resize(usize::from(shape.header_size()), 7)?;
    put_fields(file, shape, points);
    put_long_fields(file, points);
    for _ in 0..shape.vlrs {
        add_vlr(file)?;
    }
    Ok(())
}

// The next of a row of draws: the upper half of a linear congruence modulo 2^64.
fn draw(state: &mut u64) -> u32 {
    *state = state
        .wrapping_mul(6364136223846793005)
        .wrapping_add(1442695040888963407);
    (*state >> 32) as u32
}

// Appends drawn bytes below 7.
fn add_drawn(file: &mut Vec<u8>, state: &mut u64, count: u16) -> Result<(), AllocError> {
    for _ in 0..count {
        file.push((draw(state) % 7) as u8)?;
    }
    Ok(())
}

/// Appends this many records: places along a line, and drawn bytes after them.
pub(crate) fn add_records(file: &mut Vec<u8>, shape: Shape, points: u32) -> Result<(), AllocError> {
    let mut state = 7;
    for k in 0..points {
        file.extend_from_slice(&k.wrapping_mul(3).to_le_bytes())?;
        file.extend_from_slice(&(k / 100).to_le_bytes())?;
        add_drawn(file, &mut state, shape.record_length().saturating_sub(8))?;
    }
    Ok(())
}
