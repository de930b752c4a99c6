//! Heads as they stand in files: one change of a head for each condition, and heads of each version.

use crate::samples::{none_is, number, opened, pair, put};
use std::alloc::{AllocError, Global};

// A line for each:
//
// - `file LENGTH`: a file of LENGTH bytes: the signature, and zeros.
// - `set AT BYTES`: from then on it has these bytes from a place on.
// - `alone LENGTH AT BYTE CAUSE`: made so long and with this byte at a place, it is refused for this cause, or read if
//   the cause is `none`.
// - `then LENGTH AT BYTE CAUSE`: so it is, and it stays so.
//
// The files are of format 0, with one record each: of LAS 1.2, without VLRs, and with a VLR of three bytes and a gap of
// two; of LAS 1.3; and of LAS 1.4, with both counts. The rows of `then` are the conditions of LAS 1.4 from the last
// to the first.
const ROWS: &str = "\
file 247
set 24 01 02
set 94 E3 00 E3 00
set 105 14 00 01
set 111 01
alone 247 25 00 none
alone 247 3 47 Magic
alone 247 24 02 Version
alone 247 25 05 Version
alone 247 94 E2 HeaderSize
alone 247 96 E2 Offset
alone 247 94 E4 Offset
alone 247 96 F8 Offset
alone 247 100 01 Vlrs
alone 247 104 04 Format
alone 247 105 13 RecordLength
alone 247 105 D5 RecordLength
alone 247 107 02 Count
alone 247 107 00 Trailing
alone 248 0 4C Trailing
alone 247 0 4C none
alone 246 0 4C Count
alone 227 0 4C Count
alone 226 0 4C Short
alone 0 0 4C Short
file 306
set 24 01 02
set 94 E3 00 1E 01 00 00 01
set 105 14 00 01
set 247 03
alone 306 100 01 none
alone 306 247 05 none
alone 306 247 06 Vlrs
alone 306 248 FF Vlrs
alone 306 100 02 Vlrs
alone 306 103 FF Vlrs
file 255
set 24 01 03
set 94 EB 00 EB 00
set 105 14 00 01
set 111 01
alone 255 94 EB none
alone 255 94 EA HeaderSize
file 395
set 24 01 04
set 94 77 01 77 01
set 105 14 00 01
set 247 01 00 00 00 00 00 00 00 01
alone 395 247 01 none
alone 395 107 00 none
alone 395 94 76 HeaderSize
alone 395 243 01 Extended
alone 395 247 02 PointCounts
alone 395 251 01 PointCounts
alone 395 247 00 none
file 395
set 24 01 04
set 94 77 01 77 01
set 105 14 00 01
set 247 01 00 00 00 00 00 00 00 01
then 395 107 03 PointCounts
then 395 243 01 Extended
then 395 105 13 RecordLength
then 395 104 05 Format
then 395 103 01 Vlrs
then 395 99 09 Offset
then 395 95 00 HeaderSize
then 395 24 03 Version
then 395 0 00 Magic
";

// A byte in two hexadecimal digits, or 0.
fn byte(text: &str) -> u8 {
    u8::from_str_radix(text, 16).unwrap_or(0)
}

// Whether a file is refused for the cause of a name, or read if that is `none`.
fn is_refused(alloc: Global, file: &[u8], name: &str) -> Result<bool, AllocError> {
    Ok(match opened(alloc, file)? {
        Ok(_head) => name == "none",
        Err(cause) => cause.name() == name,
    })
}

// Changes a file as a text says, a length, a place and a byte, and gives the cause that follows them.
fn change<'a>(file: &mut Vec<u8>, text: &'a str) -> Result<&'a str, AllocError> {
    let (length, rest) = pair(text);
    let (at, rest) = pair(rest);
    let (digits, cause) = pair(rest);
    file.resize(number(length), 0)?;
    put(file, number(at), &[byte(digits)]);
    Ok(cause)
}

// Writes the bytes of a text over those from a place on.
fn set(file: &mut Vec<u8>, at: usize, text: &str) {
    let mut at = at;
    for word in text.split_whitespace() {
        put(file, at, &[byte(word)]);
        at = at.saturating_add(1);
    }
}

// Whether a changed file is refused as a text says, or read. It stays changed.
fn is_so_then(alloc: Global, file: &mut Vec<u8>, text: &str) -> Result<bool, AllocError> {
    let cause = change(file, text)?;
    is_refused(alloc, file, cause)
}

// Whether a changed copy of a file is.
fn is_so_alone(alloc: Global, file: &[u8], text: &str) -> Result<bool, AllocError> {
    let mut changed = file.to_vec(alloc)?;
    is_so_then(alloc, &mut changed, text)
}

// Makes a file zeros after its signature.
fn begin(file: &mut Vec<u8>, length: usize) -> Result<(), AllocError> {
    file.clear();
    file.resize(length, 0)?;
    put(file, 0, b"LASF");
    Ok(())
}

// Changes a file as a line says. The answer is false if the line is another one.
fn is_changed(file: &mut Vec<u8>, command: &str, rest: &str) -> Result<bool, AllocError> {
    let (first, second) = pair(rest);
    match command {
        "file" => begin(file, number(first))?,
        "set" => set(file, number(first), second),
        _ => return Ok(false),
    }
    Ok(true)
}

// Whether a line is so. It is not if its first word is another one.
fn is_so(alloc: Global, file: &mut Vec<u8>, line: &str) -> Result<bool, AllocError> {
    let (command, rest) = pair(line);
    match command {
        "alone" => is_so_alone(alloc, file, rest),
        "then" => is_so_then(alloc, file, rest),
        _ => is_changed(file, command, rest),
    }
}

// The first line that is not so, or none.
fn first_wrong(alloc: Global) -> &'static str {
    let mut file = Vec::new(alloc);
    for line in ROWS.lines() {
        if !is_so(alloc, &mut file, line).unwrap_or(false) {
            return line;
        }
    }
    ""
}

#[test]
fn heads(rt: HostRuntime) {
    none_is(first_wrong(rt.alloc()), &rt);
}
