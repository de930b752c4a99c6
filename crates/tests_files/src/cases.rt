//! Scripts, and what plays them: files in memory, what is read and written, and what is so at the end.
//!
//! A script is a text of cases, with an empty line between two of them. Each begins with a line of `case` and its
//! name, and has a world of its own, with no files and no bytes that are worked on. A line is a command: its first
//! word says what is done with those that follow it, with one blank between two words. A line with another first
//! word is wrong, and so is a case none of whose lines says what is so. Numbers are decimal, and bytes are two
//! hexadecimal digits each; what is neither is 0.
//!
//! These commands change the bytes that are worked on. A shape is the minor version, the point data format, and the
//! number of VLRs.
//!
//! - `head SHAPE COUNT`: they become a head that counts COUNT points.
//! - `records SHAPE COUNT`, `vlr`, `add BYTES`: COUNT records, a VLR or bytes are appended.
//! - `set AT BYTES`: bytes are written over those from a place on.
//! - `length COUNT`: they are cut to this length, or get zeros up to it.
//! - `take NAME`: they become those of a file, or none if there is no such file.
//!
//! These change files:
//!
//! - `put NAME`: a file gets the bytes that are worked on. `room NAMES`: these names get room for an output.
//! - `write FROM TO CHUNK COUNTED WORKERS CUTS`: the records of a file are written to an output, in chunks of this
//!   size, or plain for 0; with counts of the records for 1, and those of the head for 0; by WORKERS workers; and with
//!   a push for each number of records of the cuts, and one for the rest. The line is wrong if that fails.
//! - `failread CALL`, `failwrite CALL KEEP`: of the calls of the case that read, or write, the one of this number
//!   fails; one that writes keeps KEEP bytes.
//!
//! These say what is so. Records are those bytes of a file from one place on, up to another.
//!
//! - `read NAME WORKERS END SOURCE FROM TO`: a file is read up to this end, and the records before it are these. The
//!   end is `ok`, or `Read` if a read failed, or the name of a refusal, with the number of the chunk after a colon for
//!   `BadChunk`.
//! - `range NAME WORKERS START STOP MOST END SOURCE FROM TO`: the same of a range of the records. At most MOST bytes are
//!   asked for.
//! - `refuse NAME END LENGTH AT BYTES`: a file of this length, with other bytes at a place, is refused, and no record
//!   of it is read.
//! - `break FROM TO CHUNK COUNTED WORKERS CUTS`: the same as `write`, and it ends since a write failed.
//! - `same NAME OTHER`: two files are equal, and not empty. `size NAME COUNT`: a file has COUNT bytes.
//! - `shorter NAME OTHER COUNT`: a file is shorter than another one, and has more than COUNT bytes.
//! - `has NAME AT BYTES`: a file has these bytes from a place on.
use crate::samples::{Shape, add_head, add_hex, add_records, add_vlr, byte_of, put_hex};
use crate::trial::{Form, read_file, read_range, rewrite};
use las_header::Refusal;
use las_outside::MemFiles;
use laz_file::Fault;
use std::alloc::{AllocError, Global};
use std::process::Abort;
use std::thread::Threads;

// How a reading ends.
type Ended = Result<(), Fault>;

// Files in memory, and the bytes that are worked on.
struct World {
    files: MemFiles,
    alloc: Global,
    work: Vec<u8>,
}

// By hand, so that each caller drops a world by one call.
impl Drop for World {
    fn drop(self) {
        let World {
            files,
            alloc: _,
            work,
        } = self;
        drop(files);
        drop(work);
    }
}

// The first word of a text, and what follows the blank after it.
fn pair(text: &str) -> (&str, &str) {
    text.split_once(" ").unwrap_or((text, ""))
}

// A number in decimal digits, or 0.
fn count_of(text: &str) -> u32 {
    u32::from_str_radix(text, 10).unwrap_or(0)
}

// A number in decimal digits, or 0.
fn number(text: &str) -> usize {
    count_of(text) as usize
}

// Whether a reading ends as a word says.
fn is_end(ended: Ended, word: &str) -> bool {
    let (name, chunk) = word.split_once(":").unwrap_or((word, ""));
    match ended {
        Ok(()) => word == "ok",
        Err(Fault::Refused(Refusal::BadChunk(at))) => name == "BadChunk" && at == count_of(chunk),
        Err(Fault::Refused(cause)) => cause.name() == word,
        Err(Fault::Read) => word == "Read",
        Err(_) => false,
    }
}

// Whether bytes are those of a text, a place and then digits, from that place on.
fn has_hex(bytes: &[u8], text: &str) -> bool {
    let (at, digits) = pair(text);
    let mut rest = bytes.get(number(at)..).unwrap_or(&[]).iter();
    for word in digits.split_whitespace() {
        if rest.next() != Some(&byte_of(word)) {
            return false;
        }
    }
    true
}

// A shape by the first three words of a text, and the number that follows them.
fn shape_of(text: &str) -> (Shape, u32) {
    let (minor, rest) = pair(text);
    let (format, rest) = pair(rest);
    let (vlrs, count) = pair(rest);
    let shape = Shape {
        minor: count_of(minor).min(255) as u8,
        format: count_of(format).min(255) as u8,
        vlrs: count_of(vlrs).min(255) as u8,
    };
    (shape, count_of(count))
}

// Makes bytes a head alone.
fn begin(file: &mut Vec<u8>, shape: Shape, points: u32) -> Result<(), AllocError> {
    file.clear();
    add_head(file, shape, points)
}

// Appends a head or records of a shape as a line says. The answer is false if the line is another one.
fn add_shaped(file: &mut Vec<u8>, command: &str, rest: &str) -> Result<bool, AllocError> {
    let (shape, points) = shape_of(rest);
    let is_done = match command {
        "head" => begin(file, shape, points),
        "records" => add_records(file, shape, points),
        _ => return Ok(false),
    };
    is_done?;
    Ok(true)
}

// Changes bytes as a line says. The answer is false if the line is another one.
fn change(file: &mut Vec<u8>, command: &str, rest: &str) -> Result<bool, AllocError> {
    let (first, second) = pair(rest);
    let is_done = match command {
        "vlr" => add_vlr(file),
        "set" => set(file, number(first), second),
        "length" => file.resize(number(first), 0),
        "add" => add_hex(file, rest),
        _ => return add_shaped(file, command, rest),
    };
    is_done?;
    Ok(true)
}

// Writes the bytes of a text over those from a place on.
fn set(file: &mut Vec<u8>, at: usize, text: &str) -> Result<(), AllocError> {
    put_hex(file, at, text);
    Ok(())
}

impl World {
    fn new(alloc: Global) -> World {
        World {
            files: MemFiles::new(alloc),
            alloc,
            work: Vec::new(alloc),
        }
    }

    // Gives names room for an output.
    fn give_room(&mut self, names: &str) -> Result<(), AllocError> {
        for name in names.split_whitespace() {
            self.files.prepare(name, 100_000)?;
        }
        Ok(())
    }

    // The bytes of a file, or none.
    fn bytes(&self, name: &str) -> &[u8] {
        self.files.get(name).unwrap_or(&[])
    }

    // Reads a file, or a range of its records.
    fn read<R: Threads + Sync>(
        &mut self,
        rt: &R,
        name: &str,
        workers: u32,
        range: Option<(u32, u32)>,
        records: &mut Vec<u8>,
    ) -> Ended {
        let alloc = self.alloc;
        match range {
            Some(range) => read_range(rt, alloc, &mut self.files, name, workers, range, records),
            None => read_file(rt, alloc, &mut self.files, name, workers, records),
        }
    }

    // Whether the records are read that a text names, an end and bytes of a file, and the reading ends so.
    fn reads<R: Threads + Sync>(
        &mut self,
        rt: &R,
        name: &str,
        workers: u32,
        range: Option<(u32, u32)>,
        wanted: &str,
    ) -> bool {
        let mut records = Vec::new(self.alloc);
        let ended = self.read(rt, name, workers, range, &mut records);
        let (end, rest) = pair(wanted);
        let (source, rest) = pair(rest);
        let (from, to) = pair(rest);
        let bytes = self
            .bytes(source)
            .get(number(from)..number(to))
            .unwrap_or(&[]);
        is_end(ended, end) && records.as_slice() == bytes
    }

    // Whether a range is read as a line says.
    fn reads_range<R: Threads + Sync>(&mut self, rt: &R, rest: &str) -> bool {
        let (name, rest) = pair(rest);
        let (workers, rest) = pair(rest);
        let (start, rest) = pair(rest);
        let (stop, rest) = pair(rest);
        let (most, wanted) = pair(rest);
        let before = self.files.asked();
        let range = Some((count_of(start), count_of(stop)));
        let is_read = self.reads(rt, name, count_of(workers), range, wanted);
        is_read && self.files.asked().saturating_sub(before) <= u64::from(count_of(most))
    }

    // Whether a file with other bytes at a place, and of another length, is refused as a line says, and none of its
    // records is read.
    fn refuses<R: Threads + Sync>(&mut self, rt: &R, rest: &str) -> Result<bool, AllocError> {
        let (name, rest) = pair(rest);
        let (end, rest) = pair(rest);
        let (length, rest) = pair(rest);
        let (at, digits) = pair(rest);
        self.take(name)?;
        self.work.resize(number(length), 0)?;
        put_hex(&mut self.work, number(at), digits);
        self.files.put_file("changed", &self.work)?;
        Ok(end != "ok" && self.reads(rt, "changed", 2, None, end))
    }

    // Has the bytes of a file worked on.
    fn take(&mut self, name: &str) -> Result<(), AllocError> {
        self.work.clear();
        self.work
            .extend_from_slice(self.files.get(name).unwrap_or(&[]))
    }

    // Writes the records of a file to another one as a line says, and answers whether that is done, or is broken off by a
    // failed write if it is to be.
    fn writes<R: Threads + Sync>(
        &mut self,
        rt: &R,
        rest: &str,
        breaks: bool,
    ) -> Result<bool, AllocError> {
        let (from, rest) = pair(rest);
        let (to, rest) = pair(rest);
        let mut numbers = Vec::new(self.alloc);
        add_numbers(&mut numbers, rest)?;
        Ok(self.writes_as(rt, from, to, &numbers, breaks))
    }

    // The same in this form: the chunk size, whether the records are counted, the workers, and the cuts.
    fn writes_as<R: Threads + Sync>(
        &mut self,
        rt: &R,
        from: &str,
        to: &str,
        numbers: &[u32],
        breaks: bool,
    ) -> bool {
        let [chunk, counted, workers, cuts @ ..] = numbers else {
            return false;
        };
        let form = Form {
            chunk: *chunk,
            counted: *counted == 1,
            workers: *workers,
            cuts,
        };
        let alloc = self.alloc;
        match rewrite(rt, alloc, &mut self.files, from, to, form) {
            Ok(_) => !breaks,
            Err(fault) => breaks && fault == Fault::Write,
        }
    }

    // Whether the files are as a line says.
    fn is_so(&self, command: &str, rest: &str) -> bool {
        let (name, rest) = pair(rest);
        let (other, more) = pair(rest);
        let bytes = self.bytes(name);
        match command {
            "same" => !bytes.is_empty() && bytes == self.bytes(other),
            "size" => bytes.len() == number(other),
            "shorter" => bytes.len() < self.bytes(other).len() && bytes.len() > number(more),
            "has" => has_hex(bytes, rest),
            _ => false,
        }
    }

    // Does what a line says of files and of calls that fail. The answer is false if the line is another one.
    fn prepare(&mut self, command: &str, rest: &str) -> Result<bool, AllocError> {
        let (first, second) = pair(rest);
        let is_done = match command {
            "put" => self.files.put_file(rest, &self.work),
            "take" => self.take(rest),
            "room" => self.give_room(rest),
            "failread" => self.files.fail_read(u64::from(count_of(first))),
            "failwrite" => self
                .files
                .fail_write(u64::from(count_of(first)), number(second)),
            _ => return Ok(false),
        };
        is_done?;
        Ok(true)
    }

    // Whether a line that reads and writes no records is done as it says.
    fn plays(&mut self, command: &str, rest: &str) -> Result<bool, AllocError> {
        if self.prepare(command, rest)? || change(&mut self.work, command, rest)? {
            return Ok(true);
        }
        Ok(self.is_so(command, rest))
    }

    // Whether all records of a file are read as a line says.
    fn reads_all<R: Threads + Sync>(&mut self, rt: &R, rest: &str) -> bool {
        let (name, rest) = pair(rest);
        let (workers, wanted) = pair(rest);
        self.reads(rt, name, count_of(workers), None, wanted)
    }

    // Whether a line is done as it says.
    fn play_line<R: Threads + Sync>(&mut self, rt: &R, line: &str) -> Result<bool, AllocError> {
        let (command, rest) = pair(line);
        match command {
            "write" => self.writes(rt, rest, false),
            "break" => self.writes(rt, rest, true),
            "read" => Ok(self.reads_all(rt, rest)),
            "range" => Ok(self.reads_range(rt, rest)),
            "refuse" => self.refuses(rt, rest),
            _ => self.plays(command, rest),
        }
    }

    // The first line of a text that is not done as it says, or none.
    fn first_wrong<R: Threads + Sync>(&mut self, rt: &R, text: &'static str) -> &'static str {
        for line in text.lines() {
            if !self.play_line(rt, line).unwrap_or(false) {
                return line;
            }
        }
        ""
    }
}

// Appends the numbers of a text.
fn add_numbers(numbers: &mut Vec<u32>, text: &str) -> Result<(), AllocError> {
    for word in text.split_whitespace() {
        numbers.push(count_of(word))?;
    }
    Ok(())
}

/// Cases, what is played before each of them, and what is played after it.
pub(crate) struct Script {
    pub(crate) before: &'static str,
    pub(crate) cases: &'static str,
    pub(crate) after: &'static str,
}

// Whether a command says what is so.
fn says(command: &str) -> bool {
    match command {
        "break" | "read" | "range" | "refuse" | "same" | "size" | "shorter" | "has" => true,
        _ => false,
    }
}

// Whether a line of a text says what is so.
fn says_something(text: &str) -> bool {
    let mut is_said = false;
    for line in text.lines() {
        is_said = is_said || says(pair(line).0);
    }
    is_said
}

// The first line of a script and one case that is not done as it says, or none.
fn wrong_line<R: Threads + Sync>(
    rt: &R,
    world: &mut World,
    script: &Script,
    lines: &'static str,
) -> &'static str {
    let before = world.first_wrong(rt, script.before);
    if !before.is_empty() {
        return before;
    }
    let wrong = world.first_wrong(rt, lines);
    if !wrong.is_empty() {
        return wrong;
    }
    world.first_wrong(rt, script.after)
}

// What is wrong in a case of a script, which is the line of its name and then its lines.
fn wrong_in<R: Threads + Sync>(
    rt: &R,
    alloc: Global,
    script: &Script,
    name: &str,
    lines: &'static str,
) -> &'static str {
    let is_said = says_something(lines) || says_something(script.after);
    if !name.starts_with("case ") || !is_said {
        return "no case";
    }
    let mut world = World::new(alloc);
    wrong_line(rt, &mut world, script, lines)
}

/// The first case of a script with something wrong, and its line; or none.
pub(crate) fn first_wrong<R: Threads + Sync>(
    rt: &R,
    alloc: Global,
    script: &Script,
) -> (&'static str, &'static str) {
    for case in script.cases.split("\n\n") {
        let (name, lines) = case.split_once("\n").unwrap_or((case, ""));
        let wrong = wrong_in(rt, alloc, script, name, lines);
        if !wrong.is_empty() {
            return (name, wrong);
        }
    }
    ("", "")
}

/// Nothing is wrong.
pub(crate) fn none_is(wrong: (&str, &str), rt: &impl Abort) {
    let (case, line) = wrong;
    assert!(rt; line.is_empty(), "{case}: {line}");
}
