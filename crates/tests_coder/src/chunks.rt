//! Chunks worked by hand, spellings that a writer does not choose, and drawn records that go both ways.
ghost use Rattle.std.specs.Prelude.{◌≡◌, ◌<◌, ◌≤◌, length};
ghost use Rattle.laz_chunk.specs.Layouts.{layout_of, record_length};

use crate::texts::{byte, bytes, filled, number, numbers, pair, put, short_number, split};
use laz_chunk::{Workspace, room_for};
use std::alloc::{AllocError, Global};

// A workspace, and the shape of its records.
#[derive(Drop)]
struct Trial {
    workspace: Workspace,
    format: u8,
    extra: u16,
    alloc: Global,
    ghost known: { format < 4 },
    ghost few: { extra < 193 },
    ghost suits: { workspace ≡ record { format = format; extra = extra } },
}

impl Trial {
    fn new(alloc: Global, format: u8, extra: u16) -> Result<Self, AllocError>
        requires known { format < 4 }
        requires few { extra < 193 }
    {
        let workspace = Workspace::new(alloc, format, extra)?;
        Ok(Trial {
            workspace,
            format,
            extra,
            alloc,
        })
    }

    // How long a record is. A chunk of one record has four bytes more.
    fn size(&self) -> usize
        ensures size { result ≡ record_length (layout_of self.now.format self.now.extra) }
        ensures few { result < 256 }
    {
        (room_for(self.format, self.extra, 1) - 4) as usize
    }

    // The chunk of this many records, or nothing if they are not.
    fn pack(&mut self, records: &[u8], count: u32) -> Result<Vec<u8>, AllocError> {
        if count == 0 || records.len() != self.size() * count as usize {
            return Ok(Vec::new(self.alloc));
        }
        let room = room_for(self.format, self.extra, count) as usize;
        let mut chunk = vec![in self.alloc; 0; room]?;
        let size = self.workspace.pack(records, &mut chunk);
        chunk.truncate(size);
        Ok(chunk)
    }

    // Whether bytes hold a list of this many records, which stands in `held` then.
    fn unpacks(&mut self, bytes: &[u8], count: u32, held: &mut [u8]) -> bool {
        if count == 0 || held.len() != self.size() * count as usize {
            return false;
        }
        self.workspace.unpack(bytes, count, held).is_ok()
    }
}

// Whether bytes hold these records if they are good, and else none of their number.
fn holds(trial: &mut Trial, bytes: &[u8], count: u32, records: &[u8], good: bool) -> bool {
    let mut held = filled(trial.alloc, 0, records.len());
    let is_held = trial.unpacks(bytes, count, &mut held);
    is_held == good && (!good || held.as_slice() == records)
}

// A line for each, with bytes in hexadecimal digits and numbers in decimal ones.
//
// - `becomes FORMAT EXTRA COUNT BYTE OTHERS = STREAM`: records that consist of one byte, but for the others, each of
//   which follows the one before it or a place after `@`, become the chunk of the first of them and a stream, and the
//   chunk holds them. The last three of these have two colours: from 0x1010 to 0x2020 in all; from 0x2020 in all to
//   0x2030, 0x2020, 0x2010; and green as high as it can be. The bytes of these are those of another coder.
// - `drawn FORMAT EXTRA COUNT`: drawn records become fewer bytes, and come back from them.
// - `held 1 0 TIMES = STREAM`: a stream that no writer makes spells records of format 1 with these times and zeros else.
//   Of each time its low 32 bits and its high ones are told. `none 1 0 TIMES = STREAM`: it spells no records of their
//   number.
//
// The first `held` has twelve times, whose difference becomes 10 and then 5,000, then one in a new sequence, and one
// in the first again. From 20 to 5,020 it is 499 times 10 and 10 more, in place of 500 times 10; all else is as a
// writer spells it. The next four differences are extreme, so the last of them becomes the sequence's. The others are a
// switch to the next sequence, and its time, 0; and a second switch, by 1 or by 3. The streams are computed apart, from
// the exact interval.
pub(crate) const ROWS: &str = "\
becomes 0 0 2 00 @12 07 @14 09 @32 07 @34 09 = 40 E1 A3 6A 80 00 00
becomes 0 0 2 00 = 00 00 00 01 00 00 00
becomes 0 0 1 05 = 01 00 00 00
becomes 3 2 1 05 = 01 00 00 00
becomes 2 0 2 00 @20 10 10 10 10 10 10 @46 20 20 20 20 20 20 = 00 00 00 72 94 0D 90 00 00
becomes 2 0 2 00 @20 20 20 20 20 20 20 @46 30 20 20 20 10 20 = 00 00 00 93 49 D5 E8 00 00
becomes 2 0 2 00 @20 F0 00 F8 @46 FF 00 FF = 00 00 00 7D 78 DF 80 00 00
held 1 0 0 1073741824 0 1073741824 10 1073741824 20 1073741824 20 1073741824 5020 1073741824 10020 1073741824 \
    15020 1073741824 20020 1073741824 25020 1073741824 25020 1073742080 25030 1073741824 = \
    00 00 00 00 00 00 06 AE 07 FA 00 01 45 95 00 04 7F 37 EA 09 16 5F 68 8D 09 20 A7 E1 00 4A 57 6A \
    1E 02 5D 9A 2E 00 13 45 7A 71 01 5B 76 71 D6 05 94 00 00 00 18 AA 59 9C 00 00
held 1 0 7 0 0 0 = 00 00 00 75 00 00 00
none 1 0 7 0 0 0 = 00 00 00 88 00 00 00
none 1 0 7 0 0 0 = 00 00 00 95 00 00 00
";

// Of each format with few extra bytes and with many.
pub(crate) const DRAWN: &str = "\
drawn 0 0 2000
drawn 0 1 2000
drawn 0 4 2000
drawn 0 192 2000
drawn 1 0 2000
drawn 1 1 2000
drawn 1 4 2000
drawn 1 192 2000
drawn 2 0 2000
drawn 2 1 2000
drawn 2 4 2000
drawn 2 192 2000
drawn 3 0 2000
drawn 3 1 2000
drawn 3 4 2000
drawn 3 192 2000
";

// The greatest chunk that `las` makes unasked has 50,000 points; this one has five times as many, of the longest
// records.
pub(crate) const LONG: &str = "drawn 3 192 250000";

// Writes the others that a text tells over records.
fn put_others(records: &mut [u8], others: &str) {
    let mut at = 0usize;
    for word in others.split_whitespace() {
        match word.strip_prefix("@") {
            Some(place) => at = number(place) as usize,
            None => {
                put(records, at, &[byte(word)]);
                at = at.saturating_add(1);
            }
        }
    }
}

// Whether a chunk is this record and this stream.
fn consists_of(chunk: &[u8], first: &[u8], stream: &[u8]) -> bool {
    chunk.len() == first.len() + stream.len() && chunk.starts_with(first) && chunk.ends_with(stream)
}

// Whether the chunk of records is the first of them and this stream, and holds them.
fn becomes(
    trial: &mut Trial,
    records: &[u8],
    count: u32,
    stream: &[u8],
) -> Result<bool, AllocError> {
    let size = trial.size().min(records.len());
    let chunk = trial.pack(records, count)?;
    Ok(consists_of(&chunk, &records[..size], stream) && holds(trial, &chunk, count, records, true))
}

// Whether the records of a text, their number, their byte and the others, become the chunk that it says.
fn is_as_worked(trial: &mut Trial, text: &str) -> Result<bool, AllocError> {
    let (count, rest) = pair(text);
    let (digits, rest) = pair(rest);
    let (others, stream) = split(rest);
    let count = number(count);
    let size = trial.size() * count.min(1000) as usize;
    let mut records = filled(trial.alloc, byte(digits), size);
    put_others(&mut records, others);
    let mut room = [0; 32];
    becomes(trial, &records, count, bytes(&mut room, stream))
}

// Records of format 1 with these times, each as its low and its high word, and zeros else.
fn records_with(alloc: Global, times: &[u32]) -> Vec<u8> {
    let mut records = filled(alloc, 0, times.len().min(24) / 2 * 28);
    for (i, word) in times.iter().enumerate() {
        let at = (i / 2).saturating_mul(28).saturating_add(20 + i % 2 * 4);
        put(&mut records, at, &word.to_le_bytes());
    }
    records
}

// The first of some records of format 1, and a stream.
fn with_stream(alloc: Global, records: &[u8], stream: &[u8]) -> Vec<u8> {
    let mut chunk = filled(alloc, 0, stream.len().min(100) + 28);
    put(&mut chunk, 0, records);
    put(&mut chunk, 28, stream);
    chunk
}

// Whether a chunk is not that of these records, and holds them if it is good, and else none of their number.
fn is_spelled(
    trial: &mut Trial,
    chunk: &[u8],
    count: u32,
    records: &[u8],
    good: bool,
) -> Result<bool, AllocError> {
    let is_its_own = trial.pack(records, count)?.as_slice() == chunk;
    Ok(!is_its_own && holds(trial, chunk, count, records, good))
}

// Whether times and a stream are so.
fn is_as_spelled(trial: &mut Trial, line: &str, good: bool) -> Result<bool, AllocError> {
    let (times, stream) = split(line);
    let (mut time_room, mut stream_room) = ([0; 24], [0; 100]);
    let times = numbers(&mut time_room, times);
    let records = records_with(trial.alloc, times);
    let chunk = with_stream(trial.alloc, &records, bytes(&mut stream_room, stream));
    is_spelled(
        trial,
        &chunk,
        times.len().min(24) as u32 / 2,
        &records,
        good,
    )
}

// Draws records of this size: each byte stays as in the record before or, one time in eight, is drawn, by a linear
// congruence modulo 2^64.
fn draw_records(records: &mut [u8], size: usize)
    ensures { length records.new ≡ length records.old }
{
    let mut state = 7u64;
    for i in 0..records.len() {
        state = state
            .wrapping_mul(6364136223846793005)
            .wrapping_add(1442695040888963407);
        let [.., drawn, choice] = state.to_le_bytes();
        if i < size || choice < 32 {
            records[i] = drawn;
        } else {
            records[i] = records[i - size];
        }
    }
}

// Whether records become fewer bytes, and come back from them.
fn come_back(trial: &mut Trial, records: &[u8], count: u32) -> Result<bool, AllocError> {
    let chunk = trial.pack(records, count)?;
    Ok(chunk.len() < records.len() && holds(trial, &chunk, count, records, true))
}

// Whether so many drawn records do.
fn are_drawn(trial: &mut Trial, count: u32) -> Result<bool, AllocError> {
    let size = trial.size();
    let mut records = filled(trial.alloc, 0, size * count as usize);
    draw_records(&mut records, size);
    come_back(trial, &records, count)
}

// Whether what a line says of these records is so. It is not if its command is another one.
fn is_so_of(trial: &mut Trial, command: &str, line: &str) -> Result<bool, AllocError> {
    match command {
        "becomes" => is_as_worked(trial, line),
        "drawn" => are_drawn(trial, number(line)),
        "held" => is_as_spelled(trial, line, true),
        "none" => is_as_spelled(trial, line, false),
        _ => Ok(false),
    }
}

/// Whether what a line says of records of its format and with its extra bytes is so.
pub(crate) fn is_so(alloc: Global, command: &str, line: &str) -> Result<bool, AllocError> {
    let (format, rest) = pair(line);
    let (extra, rest) = pair(rest);
    let mut trial = Trial::new(alloc, byte(format).min(3), short_number(extra).min(192))?;
    is_so_of(&mut trial, command, rest)
}
