//! Bytes of the files of the tests.
use std::alloc::AllocError;

/// What a file is like: its minor version, its point data format, and how many bytes stand between its one VLR and its
/// points. With none it has no VLR.
#[derive(Clone, Copy)]
pub struct Shape {
    pub minor: u8,
    pub format: u8,
    pub gap: u8,
}

impl Shape {
    pub fn header_size(self) -> u16 {
        match self.minor {
            3 => 235,
            4 => 375,
            _ => 227,
        }
    }

    pub fn record_length(self) -> u16 {
        match self.format {
            1 => 28,
            2 => 26,
            3 => 36,
            _ => 20,
        }
    }

    // Where the points of the plain file begin.
    fn offset(self) -> u32 {
        let vlr = if self.gap > 0 { 58 } else { 0 };
        u32::from(self.header_size()) + vlr + u32::from(self.gap)
    }
}

// Writes bytes over those from a place on, as far as they fit.
fn put(file: &mut [u8], at: usize, bytes: &[u8]) {
    for (i, byte) in bytes.iter().enumerate() {
        if let Some(place) = file.get_mut(at.saturating_add(i)) {
            *place = *byte;
        }
    }
}

/// The byte that two hexadecimal digits write.
pub fn byte_of(word: &str) -> u8 {
    u8::from_str_radix(word, 16).unwrap_or(0)
}

/// Writes the bytes of a text over those from a place on.
pub fn put_hex(file: &mut [u8], at: usize, text: &str) {
    let mut at = at;
    for word in text.split_whitespace() {
        put(file, at, &[byte_of(word)]);
        at = at.saturating_add(1);
    }
}

/// Appends the bytes of a text, with one blank between two of them.
pub fn add_hex(file: &mut Vec<u8>, text: &str) -> Result<(), AllocError> {
    let at = file.len();
    file.resize(at.saturating_add(text.len().saturating_add(1) / 3), 0)?;
    put_hex(file, at, text);
    Ok(())
}

// Sets the fields of a head in bytes that are as long as it.
fn put_fields(head: &mut [u8], shape: Shape, points: u32) {
    put(head, 0, b"LASF");
    put(head, 24, &[1, shape.minor]);
    put(head, 94, &shape.header_size().to_le_bytes());
    put(head, 96, &shape.offset().to_le_bytes());
    put(head, 100, &[u8::from(shape.gap > 0), 0, 0, 0, shape.format]);
    put(head, 105, &shape.record_length().to_le_bytes());
    put(head, 107, &[0; 24]);
    put(head, 107, &points.to_le_bytes());
    put(head, 111, &points.to_le_bytes());
}

// Sets the fields that LAS 1.4 alone has: no extended VLRs, and the second set of counts.
fn put_long_fields(head: &mut [u8], points: u32) {
    put(head, 243, &[0; 132]);
    put(head, 247, &points.to_le_bytes());
    put(head, 255, &points.to_le_bytes());
}

/// Appends a head, with 7 in every byte that nothing reads, and a VLR with a payload of four bytes if there is a gap.
pub fn add_head(file: &mut Vec<u8>, shape: Shape, points: u32) -> Result<(), AllocError> {
    file.resize(usize::from(shape.header_size()), 7)?;
    put_fields(file, shape, points);
    put_long_fields(file, points);
    if shape.gap > 0 {
        file.extend_from_slice(&[9; 58])?;
        put(file, usize::from(shape.header_size()) + 18, &[4, 0, 4, 0]);
        file.extend_from_slice(&[5; 255][..usize::from(shape.gap)])?;
    }
    Ok(())
}

// Appends a record of this number.
fn add_record(file: &mut Vec<u8>, shape: Shape, number: u32) -> Result<(), AllocError> {
    let low = (number % 251) as u8;
    let class = if number % 3 == 0 { 5 } else { 2 };
    file.extend_from_slice(&[low, 1, 0, 0, low / 2, 2, 0, 0, 3, low % 7, 0, 0])?;
    file.extend_from_slice(&[low % 16, 0, 9, class])?;
    for k in 16..shape.record_length() {
        file.push((k % 256) as u8 / 2 + low % 5)?;
    }
    Ok(())
}

/// Appends records from one number on, up to another.
pub fn add_records(file: &mut Vec<u8>, shape: Shape, from: u32, to: u32) -> Result<(), AllocError> {
    for number in from..to {
        add_record(file, shape, number)?;
    }
    Ok(())
}

/// Appends a record of class 2 at a place.
pub fn add_point(file: &mut Vec<u8>, x: i32, y: i32, z: i32) -> Result<(), AllocError> {
    file.extend_from_slice(&x.to_le_bytes())?;
    file.extend_from_slice(&y.to_le_bytes())?;
    file.extend_from_slice(&z.to_le_bytes())?;
    file.extend_from_slice(&[0, 0, 9, 2, 0, 0, 0, 0])
}
