//! Scripts, and what plays them: files in memory, command lines with what they answer, and what is so at the end.
//!
//! A script is a text of cases, with an empty line between two of them. Each begins with a line of `case` and its name,
//! and has a world of its own, with no files and no bytes that are worked on. A line is a command: its first word says
//! what is done with those that follow it, with one blank between two words. A line with another first word is wrong,
//! and so is a case that has no run. Numbers are decimal, and bytes are two hexadecimal digits each; what is neither is
//! 0.
//!
//! These commands change the bytes that are worked on. A shape is the minor version, the point data format, and how
//! many bytes stand between a VLR and the points, or 0 for no VLR.
//!
//! - `head SHAPE COUNT`: they become a head that counts COUNT points.
//! - `records SHAPE FROM TO`: the records of these numbers are appended.
//! - `point X Y Z`: a record of class 2 at a place is appended.
//! - `add BYTES`, `zeros COUNT`, `emptytable COUNT`: bytes are appended, or COUNT zeros, or the chunk table of COUNT
//!   chunks without bytes.
//! - `set AT BYTES`: bytes are written over those from a place on. `cut AT`: the bytes from a place on are cut.
//! - `packed`: they become the packed form of the file that they are, in chunks of 256 points. This run of `laszip`
//!   leaves the files `unpacked` and `packed`.
//! - `take NAME`: they become those of a file, or none if there is no such file.
//!
//! These change files:
//!
//! - `put NAME`: a file gets the bytes that are worked on. `room NAMES`: these names get room for an output.
//! - `failwrite CALL KEEP`: of the calls that write, the one of this number fails after KEEP bytes.
//! - `failput CALL`: of the calls that put a text on standard output, the one of this number fails.
//!
//! These are runs of a command line. In all lines of a case `@` stands for the words of its line `with WORDS`.
//!
//! - `ends LINE = WORDS`: a run puts this line on standard error, has the status that goes with it, and puts nothing on
//!   standard output. In a line `/` stands for the end of a line.
//! - `done WORDS`: a run is done, and puts nothing on either. `tells TEXT = WORDS`: it puts this text on standard
//!   output. The tap `class` may be named.
//!
//! These say what is so:
//!
//! - `same NAME OTHER`: two files are there and equal. `absent NAME`: a file is not there.
//! - `size NAME COUNT`, `above NAME COUNT`: a file has COUNT bytes, or more than COUNT.
//! - `has NAME AT BYTES`: a file has these bytes from a place on.
ghost use Rattle.std.specs.Prelude.{◌≡◌};
ghost use Rattle.std.specs.FinMap as map;

use crate::recipes::{Shape, add_head, add_hex, add_point, add_records, byte_of, put_hex};
use las_info::{ClassTap, Tap};
use las_outside::{Gate, MemFiles, MemSink, OpenGate};
use las_run::run;
use laz_table::table_of;
use std::alloc::{AllocError, Global};
use std::process::Abort;
use std::thread::Threads;

/// Files and streams in memory, the bytes that are worked on, and how many runs were compared with what they answer.
pub struct World {
    pub files: MemFiles,
    pub out: MemSink,
    pub err: MemSink,
    pub work: Vec<u8>,
    runs: usize,
}

// By hand, so that each caller drops a world by one call.
impl Drop for World {
    fn drop(self) {
        let World {
            files,
            out,
            err,
            work,
            runs: _,
        } = self;
        drop(files);
        drop(out);
        drop(err);
        drop(work);
    }
}

// The words of a command line, with others in the place of `@`.
fn words_of(alloc: Global, line: &str, words: &str) -> Result<Vec<String>, AllocError> {
    let text = line.replace(alloc, "@", words)?;
    let mut said = Vec::new(alloc);
    for word in text.split_whitespace() {
        said.push(String::from_str(alloc, word)?)?;
    }
    Ok(said)
}

static STATUSES: [(&str, u8); 6] = [
    ("usage", 2),
    ("read fault", 3),
    ("write fault", 4),
    ("refused", 5),
    ("unequal", 6),
    ("too many points", 6),
];

/// The status that goes with a line.
pub fn status_of(line: &str) -> u8 {
    for (start, status) in &STATUSES {
        if line.starts_with(*start) {
            return *status;
        }
    }
    0
}

// The bytes from a place on.
fn after(bytes: &[u8], at: usize) -> &[u8] {
    bytes.get(at..).unwrap_or(&[])
}

impl World {
    pub fn new(alloc: Global) -> Result<World, AllocError> {
        let out = MemSink::with_room(alloc, 10_000)?;
        let err = MemSink::with_room(alloc, 1000)?;
        let files = MemFiles::new(alloc);
        let work = Vec::new(alloc);
        Ok(World {
            files,
            out,
            err,
            work,
            runs: 0,
        })
    }

    /// Gives names in memory room for an output.
    pub fn give_room(&mut self, names: &str) -> Result<(), AllocError> {
        for name in names.split_whitespace() {
            self.files.prepare(name, 100_000)?;
        }
        Ok(())
    }

    /// The bytes of a file, or none.
    pub fn bytes(&self, name: &str) -> &[u8] {
        self.files.get(name).unwrap_or(&[])
    }

    /// The status of a run of these words.
    pub fn obey<R: Threads + Sync + AllocGlobal, G: Gate>(
        &mut self,
        rt: &R,
        line: &str,
        words: &str,
        gate: &G,
    ) -> Result<u8, AllocError> {
        let said = words_of(rt.alloc(), line, words)?;
        run_with_tap(rt, rt.alloc(), &said, self, gate)
    }

    // Whether a run puts this line and this text, and has the status that goes with the line.
    fn answers<R: Threads + Sync + AllocGlobal>(
        &mut self,
        rt: &R,
        line: &str,
        text: &str,
        words: &str,
        with: &str,
    ) -> Result<bool, AllocError> {
        self.runs = self.runs.saturating_add(1);
        let (put, said) = (self.out.bytes().len(), self.err.bytes().len());
        let status = self.obey(rt, words, with, &OpenGate)?;
        Ok(
            status == status_of(line)
                && is_text(after(self.err.bytes(), said), line)
                && is_text(after(self.out.bytes(), put), text),
        )
    }

    // Whether the files are as a line says.
    fn is_so(&self, command: &str, rest: &str) -> bool {
        let (name, other) = pair(rest);
        match command {
            "same" => {
                self.files.get(name).is_some() && self.files.get(name) == self.files.get(other)
            }
            "absent" => self.files.get(name).is_none(),
            "size" => self.bytes(name).len() == number(other) as usize,
            "above" => self.bytes(name).len() > number(other) as usize,
            "has" => has_hex(self.bytes(name), other),
            _ => false,
        }
    }

    // Takes the bytes of a file, or none, as those that are worked on.
    fn take(&mut self, name: &str) -> Result<(), AllocError> {
        self.work.clear();
        self.work
            .extend_from_slice(self.files.get(name).unwrap_or(&[]))
    }

    // Does what a line says of files and of calls that fail. The answer is false if the line is another one.
    fn prepare(&mut self, command: &str, rest: &str) -> Result<bool, AllocError> {
        let (first, second) = pair(rest);
        let is_done = match command {
            "put" => self.files.put_file(first, &self.work),
            "take" => self.take(first),
            "room" => self.give_room(rest),
            "failwrite" => self
                .files
                .fail_write(u64::from(number(first)), number(second) as usize),
            "failput" => self.out.fail_put(u64::from(number(first))),
            _ => return Ok(false),
        };
        is_done?;
        Ok(true)
    }

    // Makes the bytes that are worked on their packed form. The answer is false if they are no plain file.
    fn pack<R: Threads + Sync + AllocGlobal>(&mut self, rt: &R) -> Result<bool, AllocError> {
        self.files.put_file("unpacked", &self.work)?;
        self.give_room("packed")?;
        let status = self.obey(
            rt,
            "laszip -i unpacked -o packed -chunk_size 256",
            "",
            &OpenGate,
        )?;
        self.take("packed")?;
        Ok(status == 0)
    }

    // Whether a line that is no run is done as it says.
    fn is_done(&mut self, alloc: Global, command: &str, rest: &str) -> Result<bool, AllocError> {
        if self.prepare(command, rest)? || change(alloc, &mut self.work, command, rest)? {
            return Ok(true);
        }
        Ok(self.is_so(command, rest))
    }

    // Whether a line is done as it says.
    fn play_line<R: Threads + Sync + AllocGlobal>(
        &mut self,
        rt: &R,
        line: &str,
        with: &str,
    ) -> Result<bool, AllocError> {
        let (command, rest) = pair(line);
        let (wanted, words) = rest.split_once(" = ").unwrap_or(("", rest));
        let is_told = command == "tells";
        let (said, text) = if is_told { ("", wanted) } else { (wanted, "") };
        match command {
            "done" | "ends" | "tells" => self.answers(rt, said, text, words, with),
            "packed" => self.pack(rt),
            "with" => Ok(true),
            _ => self.is_done(rt.alloc(), command, rest),
        }
    }

    /// Does what each line of a text says. The first that is not done so ends the test.
    pub fn play<R: Threads + Sync + AllocGlobal + Abort>(
        &mut self,
        rt: &R,
        case: &str,
        text: &str,
        with: &str,
    ) -> Result<(), AllocError> {
        for line in text.lines() {
            let is_done = self.play_line(rt, line, with)?;
            holds(is_done, case, line, rt);
        }
        Ok(())
    }
}

// A tap that has counted nothing.
fn class_tap(alloc: Global) -> ClassTap
    ensures { result ≡ map.empty }
{
    ClassTap::new(alloc)
}

// The status of a run of these words.
fn run_with_tap<R: Threads + Sync, G: Gate>(
    rt: &R,
    alloc: Global,
    words: &[String],
    world: &mut World,
    gate: &G,
) -> Result<u8, AllocError> {
    let tap: Box<dyn Tap> = Box::new(alloc, class_tap(alloc))?;
    let taps = vec![in alloc; tap]?;
    let World {
        files,
        out,
        err,
        ..
    } = world;
    Ok(run(rt, alloc, words, files, out, err, gate, taps))
}

/// The first word of a text, and what follows the blank after it.
pub fn pair(text: &str) -> (&str, &str) {
    text.split_once(" ").unwrap_or((text, ""))
}

/// A number in decimal digits, or 0.
pub fn number(text: &str) -> u32 {
    u32::from_str_radix(text, 10).unwrap_or(0)
}

/// Whether bytes are a text with a `/` for each end of a line.
pub fn is_text(bytes: &[u8], text: &str) -> bool {
    for (i, wanted) in text.as_bytes().iter().enumerate() {
        let wanted = if *wanted == b'/' { b'\n' } else { *wanted };
        if bytes.get(i) != Some(&wanted) {
            return false;
        }
    }
    bytes.len() == text.len()
}

// Whether bytes are those of a text, a place and then digits, from that place on.
fn has_hex(bytes: &[u8], text: &str) -> bool {
    let (at, digits) = pair(text);
    let mut at = number(at) as usize;
    for word in digits.split_whitespace() {
        if bytes.get(at) != Some(&byte_of(word)) {
            return false;
        }
        at = at.saturating_add(1);
    }
    true
}

// A shape by the first three words of a text, and what follows them.
fn shape_of(text: &str) -> (Shape, &str) {
    let (minor, rest) = pair(text);
    let (format, rest) = pair(rest);
    let (gap, rest) = pair(rest);
    let shape = Shape {
        minor: small(minor),
        format: small(format),
        gap: small(gap),
    };
    (shape, rest)
}

// A number of eight bits.
fn small(text: &str) -> u8 {
    u8::from_str_radix(text, 10).unwrap_or(0)
}

// A signed number.
fn signed(text: &str) -> i32 {
    i32::from_str_radix(text, 10).unwrap_or(0)
}

// Changes bytes as a line says. The answer is false if the line is another one.
fn change(
    alloc: Global,
    file: &mut Vec<u8>,
    command: &str,
    rest: &str,
) -> Result<bool, AllocError> {
    let (first, second) = pair(rest);
    match command {
        "set" => put_hex(file, number(first) as usize, second),
        "cut" => file.truncate(number(first) as usize),
        _ => return add(alloc, file, command, rest),
    }
    Ok(true)
}

// Appends bytes as a line says. The answer is false if the line is another one.
fn add(alloc: Global, file: &mut Vec<u8>, command: &str, rest: &str) -> Result<bool, AllocError> {
    let is_done = match command {
        "add" => add_hex(file, rest),
        "point" => add_place(file, rest),
        "zeros" => file.resize(file.len().saturating_add(number(rest) as usize), 0),
        "emptytable" => add_empty_table(file, alloc, number(rest) as usize),
        _ => return add_shaped(file, command, rest),
    };
    is_done?;
    Ok(true)
}

// Appends a record at a place.
fn add_place(file: &mut Vec<u8>, rest: &str) -> Result<(), AllocError> {
    let (x, rest) = pair(rest);
    let (y, z) = pair(rest);
    add_point(file, signed(x), signed(y), signed(z))
}

// Appends a head or records of a shape as a line says. The answer is false if the line is another one.
fn add_shaped(file: &mut Vec<u8>, command: &str, rest: &str) -> Result<bool, AllocError> {
    let (shape, rest) = shape_of(rest);
    let (first, second) = pair(rest);
    let is_done = match command {
        "head" => begin(file, shape, number(first)),
        "records" => add_records(file, shape, number(first), number(second)),
        _ => return Ok(false),
    };
    is_done?;
    Ok(true)
}

// Makes bytes a head alone.
fn begin(file: &mut Vec<u8>, shape: Shape, points: u32) -> Result<(), AllocError> {
    file.clear();
    add_head(file, shape, points)
}

/// Ends the test unless this line of a case holds.
pub fn holds(is_so: bool, case: &str, line: &str, rt: &impl Abort) {
    assert!(rt; is_so, "{case}: {line}");
}

/// What the first line of a text that begins with a word says after it, or nothing.
pub fn field<'a>(text: &'a str, word: &str) -> &'a str {
    for line in text.lines() {
        if let Some(rest) = line.strip_prefix(word) {
            return rest;
        }
    }
    ""
}

/// Cases, what is played before each of them, and what is played after it.
pub struct Script {
    pub before: &'static str,
    pub cases: &'static str,
    pub after: &'static str,
}

// Plays a case of a script in a world that has no files.
fn play_in<R: Threads + Sync + AllocGlobal + Abort>(
    rt: &R,
    world: &mut World,
    script: &Script,
    name: &str,
    lines: &str,
) -> Result<(), AllocError> {
    let with = field(lines, "with ");
    world.play(rt, name, script.before, with)?;
    world.runs = 0;
    world.play(rt, name, lines, with)?;
    world.play(rt, name, script.after, with)
}

// Plays a case of a script, which is the line of its name and then its lines.
fn play_case<R: Threads + Sync + AllocGlobal + Abort>(
    rt: &R,
    script: &Script,
    name: &str,
    lines: &str,
) -> Result<bool, AllocError> {
    let mut world = World::new(rt.alloc())?;
    play_in(rt, &mut world, script, name, lines)?;
    Ok(name.starts_with("case ") && world.runs > 0)
}

/// Plays the cases of a script. The first line that is not done as it says ends the test, and so does a case without a
/// run.
pub fn plays<R: Threads + Sync + AllocGlobal + Abort>(rt: &R, script: &Script) {
    for case in script.cases.split("\n\n") {
        let (name, lines) = case.split_once("\n").unwrap_or((case, ""));
        let is_played = play_case(rt, script, name, lines).unwrap_or(false);
        holds(is_played, name, "no run, or out of memory", rt);
    }
}

// Appends the chunk table of chunks of no bytes, 65,535 at most.
fn add_empty_table(file: &mut Vec<u8>, alloc: Global, chunks: usize) -> Result<(), AllocError> {
    let counts = vec![in alloc; 0; chunks.min(65_535)]?;
    let table = table_of(alloc, &counts)?;
    file.extend_from_slice(&table)
}
