//! The laszip VLR: payloads worked by hand, and one change of a head for each condition.

use crate::texts::{byte, bytes, copied, filled, number, pair, put, short_number};
use las_header::{HEADER_BLOCK, Head, Refusal, need};
use laz_table::{COUNTED_CHUNKS, read_vlr, vlr_of};
use std::alloc::Global;

// How long a record of a format is.
fn record_length(format: u8, extra: u16) -> u16 {
    extra.wrapping_add(match format {
        0 => 20,
        1 => 28,
        2 => 26,
        _ => 34,
    })
}

// The head of a plain file of LAS 1.2 without points, of this format and with these extra bytes. `vlrs` VLRs of these
// bytes follow its first 227.
fn plain_head(alloc: Global, format: u8, extra: u16, vlrs: u8, rest: &[u8]) -> Vec<u8> {
    let size = 227 + rest.len().min(1000);
    let mut head = filled(alloc, 0, size);
    put(&mut head, 0, b"LASF");
    put(&mut head, 24, &[1, 2]);
    put(&mut head, 94, &[227, 0]);
    put(&mut head, 96, &(size as u32).to_le_bytes());
    put(&mut head, 100, &[vlrs, 0, 0, 0, format]);
    put(&mut head, 105, &record_length(format, extra).to_le_bytes());
    put(&mut head, 227, rest);
    head
}

// What is read of a head without points.
fn opened(head: Vec<u8>) -> Result<Head, Refusal> {
    let size = head.len() as u64;
    let offset = need(&head[..HEADER_BLOCK.min(head.len())], size)?;
    if offset as usize != head.len() {
        return Err(Refusal::Offset);
    }
    Head::read(head, size)
}

// The bytes of a plain head with a laszip VLR after its own, or none if it has one before.
fn with_vlr(alloc: Global, head: &Head, payload: &[u8]) -> Vec<u8> {
    if head.packed() || head.laszip_count() != 0 || payload.len() > 58 {
        return Vec::new(alloc);
    }
    match head.with_vlr(alloc, payload) {
        Ok(packed) => copied(alloc, packed.bytes()),
        Err(_) => Vec::new(alloc),
    }
}

// The same of a head that is opened first.
fn packed_head(alloc: Global, plain: Vec<u8>, payload: &[u8]) -> Vec<u8> {
    match opened(plain) {
        Ok(head) => with_vlr(alloc, &head, payload),
        Err(_) => Vec::new(alloc),
    }
}

// A head of this format with this payload of a laszip VLR, and with no other VLR.
fn head_with(alloc: Global, format: u8, extra: u16, payload: &[u8]) -> Vec<u8> {
    packed_head(alloc, plain_head(alloc, format, extra, 0, &[]), payload)
}

// What the laszip VLR of a head is read as.
fn answer_of(head: Vec<u8>) -> Result<u32, Refusal> {
    let head = opened(head)?;
    if !head.packed() {
        return Err(Refusal::StrayVlr);
    }
    read_vlr(&head)
}

// Whether a laszip VLR is read as a word says: its chunk size, or the name of a refusal.
fn is_answer(found: Result<u32, Refusal>, word: &str) -> bool {
    match found {
        Ok(chunk) => chunk != 0 && chunk == number(word),
        Err(cause) => cause.name() == word,
    }
}

// The laszip payload of a file of format 0, with 50,000 points a chunk.
const PAYLOAD: &[u8] = &[
    2, 0, 0, 0, 2, 2, 0, 0, 0, 0, 0, 0, 0x50, 0xc3, 0, 0, 0xff, 0xff, 0xff, 0xff, 0xff, 0xff, 0xff,
    0xff, 0xff, 0xff, 0xff, 0xff, 0xff, 0xff, 0xff, 0xff, 1, 0, 6, 0, 20, 0, 2, 0,
];

/// `items FORMAT EXTRA ITEMS`: records of a format with this number of extra bytes have this number of items and these
/// items, and those of no other line.
pub(crate) const ITEMS: &str = "\
items 0 0 01 00 06 00 14 00 02 00
items 0 8 02 00 06 00 14 00 02 00 00 00 08 00 02 00
items 1 0 02 00 06 00 14 00 02 00 07 00 08 00 02 00
items 1 192 03 00 06 00 14 00 02 00 07 00 08 00 02 00 00 00 C0 00 02 00
items 2 0 02 00 06 00 14 00 02 00 08 00 06 00 02 00
items 2 1 03 00 06 00 14 00 02 00 08 00 06 00 02 00 00 00 01 00 02 00
items 3 0 03 00 06 00 14 00 02 00 07 00 08 00 02 00 08 00 06 00 02 00
items 3 2 04 00 06 00 14 00 02 00 07 00 08 00 02 00 08 00 06 00 02 00 00 00 02 00 02 00
";

// The first 32 bytes of a laszip payload with this chunk size, and the items of a text.
fn payload_with(alloc: Global, chunk: u32, items: &str) -> Vec<u8> {
    let mut room = [0; 64];
    let items = bytes(&mut room, items);
    let mut payload = filled(alloc, 0, 32 + items.len().min(64));
    put(&mut payload, 0, &PAYLOAD[..32]);
    put(&mut payload, 12, &chunk.to_le_bytes());
    put(&mut payload, 32, items);
    payload
}

// A line of items in its parts: the format, the number of extra bytes, and what follows them.
fn items_of(line: &str) -> (u8, u16, &str) {
    let (format, rest) = pair(line);
    let (extra, items) = pair(rest);
    (byte(format), short_number(extra), items)
}

// Whether a laszip payload has the items of a line, with this chunk size.
fn has_items(alloc: Global, line: &str, chunk: u32) -> bool {
    let (format, extra, items) = items_of(line);
    let wanted = payload_with(alloc, chunk, items);
    vlr_of(format.min(3), extra.min(192), chunk).as_slice() == wanted.as_slice()
}

// Whether a laszip VLR with the items of a line is read in a head of the records of a line, if they are one, and
// refused for its items else.
fn is_told(alloc: Global, head: &str, line: &str) -> bool {
    let (format, extra, _own) = items_of(head);
    let (_format, _extra, items) = items_of(line);
    let payload = payload_with(alloc, 50_000, items);
    let found = answer_of(head_with(alloc, format, extra, &payload));
    is_answer(found, if head == line { "50000" } else { "Items" })
}

// Whether that is so of each line of items.
fn are_told(alloc: Global, head: &str) -> bool {
    for line in ITEMS.lines() {
        if !is_told(alloc, head, pair(line).1) {
            return false;
        }
    }
    true
}

// Whether records of a line have its items in a payload, and no others in a head.
fn are_its_own(alloc: Global, line: &str) -> bool {
    has_items(alloc, line, 1)
        && has_items(alloc, line, 50_000)
        && has_items(alloc, line, COUNTED_CHUNKS)
        && are_told(alloc, line)
}

// A head with a VLR that is like a laszip VLR but for a byte of its name, and with a laszip VLR.
fn two_vlrs(alloc: Global) -> Vec<u8> {
    let alone = head_with(alloc, 0, 0, &vlr_of(0, 0, 256));
    let mut plain = plain_head(alloc, 0, 0, 1, &alone[alone.len().min(227)..]);
    put(&mut plain, 229, b"L");
    packed_head(alloc, plain, PAYLOAD)
}

// Whether a head with this chunk size and this number of points is read as an answer says.
fn is_so_with(alloc: Global, chunk: u32, points: u32, answer: &str) -> bool {
    let mut head = head_with(alloc, 0, 0, &vlr_of(0, 0, chunk));
    put(&mut head, 107, &points.to_le_bytes());
    is_answer(answer_of(head), answer)
}

// A line for each. An answer is the chunk size that is read of the head's laszip VLR, or the name of a refusal.
//
// - `one`: the head has a laszip VLR at byte 227, with its payload at 281. `two`: it has a VLR there that is like one
//   but for a byte of its name, and a laszip VLR after that, at 321. `length COUNT`: COUNT is the length of the head.
// - `alone AT BYTE ANSWER`: ANSWER is what is read of the head with BYTE at AT and its other bytes unchanged.
// - `then AT BYTE ANSWER`: BYTE is written at AT and stays there. ANSWER is what is read of the head then.
// - `payload`: `PAYLOAD` is what is made for format 0, with 50,000 points a chunk.
// - `points CHUNK POINTS ANSWER`: ANSWER is what is read of a head with this chunk size and number of points.
pub(crate) const ROWS: &str = "\
payload
one
alone 227 01 50000
alone 228 09 50000
alone 249 4C 50000
alone 280 01 50000
alone 285 03 50000
alone 286 FF 50000
alone 287 01 50000
alone 288 01 50000
alone 289 01 50000
alone 292 80 50000
alone 297 00 50000
alone 304 7F 50000
alone 305 00 50000
alone 312 7F 50000
alone 293 51 50001
alone 295 01 115536
alone 229 4C NoVlr
alone 244 01 NoVlr
alone 245 BD NoVlr
alone 246 00 NoVlr
alone 247 27 VlrShape
alone 247 22 VlrShape
alone 247 21 VlrShape
alone 247 00 VlrShape
alone 313 00 VlrShape
alone 313 02 VlrShape
alone 314 01 VlrShape
alone 281 01 Compressor
alone 281 03 Compressor
alone 282 01 Compressor
alone 283 01 Compressor
alone 284 01 Compressor
alone 315 07 Items
alone 316 01 Items
alone 317 15 Items
alone 318 01 Items
alone 319 01 Items
alone 319 03 Items
alone 320 01 Items
alone 105 15 Items
then 293 00 49920
then 294 00 ChunkSize
then 319 03 Items
then 283 01 Compressor
then 313 02 VlrShape
then 229 4C NoVlr
two
length 415
then 229 4C 50000
then 229 6C NoVlr
then 323 4C 256
points 0 0 ChunkSize
points 0 16777217 ChunkSize
points 1 0 1
points 1 16777216 1
points 1 16777217 TooManyChunks
points 255 4278190080 255
points 255 4278190081 TooManyChunks
points 256 4294967295 256
points 250000 4294967295 250000
points 250001 250000 250001
points 250001 250001 ChunkSize
points 4294967294 250000 4294967294
points 4294967294 250001 ChunkSize
points 4294967295 0 4294967295
points 4294967295 250001 4294967295
points 4294967295 4294967295 4294967295
";

// Takes another head.
fn is_taken(head: &mut Vec<u8>, other: Vec<u8>) -> bool {
    *head = other;
    true
}

// Whether a head is read as a text says, a place, a byte that is written there, and an answer.
fn is_so_then(alloc: Global, head: &mut [u8], text: &str) -> bool {
    let (at, rest) = pair(text);
    let (digits, answer) = pair(rest);
    put(head, number(at) as usize, &[byte(digits)]);
    is_answer(answer_of(copied(alloc, head)), answer)
}

// The same of a copy of a head.
fn is_so_alone(alloc: Global, head: &[u8], text: &str) -> bool {
    let mut changed = copied(alloc, head);
    is_so_then(alloc, &mut changed, text)
}

// Whether a head is read as a text says, a chunk size, a number of points, and an answer.
fn is_so_of_points(alloc: Global, text: &str) -> bool {
    let (chunk, rest) = pair(text);
    let (points, answer) = pair(rest);
    is_so_with(alloc, number(chunk), number(points), answer)
}

// Whether a line that needs no head is so.
fn is_so_of_itself(alloc: Global, command: &str, line: &str) -> bool {
    match command {
        "payload" => vlr_of(0, 0, 50_000).as_slice() == PAYLOAD,
        "items" => are_its_own(alloc, line),
        "points" => is_so_of_points(alloc, line),
        _ => false,
    }
}

/// Whether a line is so. It is not if its command is another one.
pub(crate) fn is_so(alloc: Global, head: &mut Vec<u8>, command: &str, line: &str) -> bool {
    match command {
        "one" => is_taken(head, head_with(alloc, 0, 0, PAYLOAD)),
        "two" => is_taken(head, two_vlrs(alloc)),
        "length" => head.len() == number(line) as usize,
        "alone" => is_so_alone(alloc, head, line),
        "then" => is_so_then(alloc, head, line),
        _ => is_so_of_itself(alloc, command, line),
    }
}
