//! Events of the range coder and of integers whose bytes are known from outside.
ghost use Rattle.std.specs.Prelude.{◌*◌, ◌≤◌, length};

use crate::texts::{bytes, numbers, split};
use laz_integer::IntModel;
use laz_range::{Decoder, Encoder};
use std::alloc::{AllocError, Global};

// A line for each, with bytes in hexadecimal digits and numbers in decimal ones.
//
// - `raw VALUES = BYTES`: values of 8 bits become these bytes. In the last row the carry comes after 40 bytes of 255. The
//   bytes are computed apart, from the exact interval.
// - `fresh BITS INTEGER DIGITS = BYTES`: an integer of as many bits after 0, told modulo 2^32, becomes these bytes under
//   fresh models, has this number of digits, and is read from them.
pub(crate) const ROWS: &str = "\
raw = 01 00 00 00
raw 00 = 00 01 00 00 00
raw FF = FF 00 00 00 00
raw FF 00 00 FF 00 00 FF 00 00 FF 00 00 FF 00 00 FF 00 00 FF 00 00 FF 00 00 FF 00 00 FF 00 00 FF 00 00 FF 00 00 \
    FF 00 00 FF 00 FF = FF 00 00 00 00 00 00 00 00 00 00 00 00 00 00 00 00 00 00 00 00 00 00 00 00 00 00 00 00 \
    00 00 00 00 00 00 00 00 00 00 00 00 FE 01 00 00 00
fresh 32 2147483648 32 = F9 00 00 00
fresh 16 65535 1 = 10 00 00 00
";

fn put_values(encoder: &mut Encoder, values: &[u8])
    requires { 3 * length values.now ≤ encoder.old.left }
{
    for v in values {
        encoder.raw(8, u32::from(*v));
    }
}

// Whether values become these bytes.
fn become_bytes(alloc: Global, values: &[u8], bytes: &[u8]) -> Result<bool, AllocError> {
    let values = &values[..values.len().min(42)];
    let room = vec![in alloc; 7; 3 * 42 + 4]?;
    let mut encoder = Encoder::with_room(room, 0);
    put_values(&mut encoder, values);
    let (room, count) = encoder.finish();
    Ok(&room[..count] == bytes)
}

// Whether the values of a line become its bytes.
fn is_raw(alloc: Global, line: &str) -> Result<bool, AllocError> {
    let (values, wanted) = split(line);
    let (mut value_room, mut wanted_room) = ([0; 42], [0; 64]);
    become_bytes(
        alloc,
        bytes(&mut value_room, values),
        bytes(&mut wanted_room, wanted),
    )
}

// Codes an integer after 0 under fresh models, and answers the number of its digits.
fn code(alloc: Global, bits: u32, real: i32, encoder: &mut Encoder) -> Result<u32, AllocError>
    requires { 12 ≤ encoder.old.left }
{
    if !(bits == 32 || bits == 16 && 0 <= real && real <= 65_535) {
        return Ok(0);
    }
    let mut model = IntModel::new(alloc, bits, 4)?;
    Ok(model.code(encoder, 0, real, 0))
}

// Whether an integer becomes these bytes, and has this number of digits.
fn is_coded(
    alloc: Global,
    bits: u32,
    real: i32,
    digits: u32,
    wanted: &[u8],
) -> Result<bool, AllocError> {
    let mut encoder = Encoder::with_room(vec![in alloc; 7; 16]?, 0);
    let is_right = code(alloc, bits, real, &mut encoder) == Ok(digits);
    let (room, count) = encoder.finish();
    Ok(is_right && &room[..count] == wanted)
}

// Whether the bytes are read as this integer and this number of digits under fresh models, and hold nothing else.
fn is_read(
    alloc: Global,
    bits: u32,
    real: i32,
    digits: u32,
    bytes: &[u8],
) -> Result<bool, AllocError> {
    let Ok(mut decoder) = Decoder::new(bytes) else {
        return Ok(false);
    };
    if bits != 32 && bits != 16 {
        return Ok(false);
    }
    let mut model = IntModel::new(alloc, bits, 4)?;
    Ok(match model.read(&mut decoder, 0, 0) {
        Ok((found, width)) => found == real && width == digits && decoder.at_end(),
        Err(_) => false,
    })
}

// Whether the integer of a line becomes its bytes, and is read from them.
fn is_fresh(alloc: Global, line: &str) -> Result<bool, AllocError> {
    let (integer, wanted) = split(line);
    let (mut number_room, mut wanted_room) = ([0; 3], [0; 8]);
    let [bits, real, digits] = numbers(&mut number_room, integer) else {
        return Ok(false);
    };
    let wanted = bytes(&mut wanted_room, wanted);
    let (bits, real, digits) = (*bits, real.cast_signed(), *digits);
    Ok(is_coded(alloc, bits, real, digits, wanted)? && is_read(alloc, bits, real, digits, wanted)?)
}

/// Whether a line is so. It is not if its command is another one.
pub(crate) fn is_so(alloc: Global, command: &str, line: &str) -> Result<bool, AllocError> {
    match command {
        "raw" => is_raw(alloc, line),
        "fresh" => is_fresh(alloc, line),
        _ => Ok(false),
    }
}
