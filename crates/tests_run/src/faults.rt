//! Each call of the files failing in turn: what ends a run, and what it leaves.
//!
//! A trial is a text. In its first lines the first word says what follows it:
//!
//! - `trial NAME`, `words WORDS`: the name of the trial, and the command line.
//! - `names NAMES`, `outputs NAMES`: the names of the inputs, and those of the outputs. `drafts NAME=DRAFT`: the draft
//!   of each output. A draft is what is written before the patches, which come in the order of their places.
//! - `reads LEAST MOST`, `writes LEAST MOST`: how many calls end a run when they fail.
//! - `first LINE`, `last LINE`: the first call that reads ends a run with one line, each later one with this or another
//!   one, and the last with that. In a line `/` stands for the end of a line.
//! - `tight NAME`: the output whose room is too small in turn, if one is.
//!
//! Then come a line of `script` and a script, in which no call fails. It makes the inputs, the outputs and the drafts of
//! these.
use crate::cases::{World, field, holds, is_text, number, pair, status_of};
use las_outside::OpenGate;
use std::alloc::AllocError;
use std::process::Abort;
use std::thread::Threads;

// What fails: a call that reads, or one that writes and keeps this many bytes; or there is no room for any output, or a
// byte too little for one.
#[derive(Clone, Copy)]
enum Failing {
    Read,
    Write(usize),
    NoRoom,
    LittleRoom,
}

static FAULTS: [Failing; 6] = [
    Failing::Read,
    Failing::Write(0),
    Failing::Write(1),
    Failing::Write(1000),
    Failing::NoRoom,
    Failing::LittleRoom,
];

// How a run ends.
enum Ending {
    Done,
    First,
    Last,
    Wrong,
}

// Whether bytes are a prefix of the draft; or, if they may be patched, the whole of it with the finished output's bytes
// up to some place.
fn is_unfinished(left: &[u8], draft: &[u8], done: &[u8], may_be_patched: bool) -> bool {
    draft.starts_with(left)
        || (may_be_patched && left.len() == done.len() && is_patched(left, draft, done))
}

// Whether bytes are those of a finished output up to some place, and then those of its draft.
fn is_patched(left: &[u8], draft: &[u8], done: &[u8]) -> bool {
    let mut is_done = true;
    for (i, byte) in left.iter().enumerate() {
        is_done = is_done && done.get(i) == Some(byte);
        if !is_done && draft.get(i) != Some(byte) {
            return false;
        }
    }
    true
}

// Whether every output that is there is unfinished, and none is begun to be finished before all before it are done.
fn are_unfinished(drafts: &str, world: &World, whole: &World) -> bool {
    let mut are_done = true;
    for output in drafts.split_whitespace() {
        let (name, draft) = output.split_once("=").unwrap_or((output, ""));
        let (draft, done) = (whole.bytes(draft), whole.bytes(name));
        if let Some(left) = world.files.get(name) {
            if !is_unfinished(left, draft, done, are_done) {
                return false;
            }
            are_done = are_done && left == done;
        }
    }
    true
}

// Puts the inputs of a command that was run before.
fn begin(trial: &str, whole: &World, world: &mut World) -> Result<(), AllocError> {
    for name in field(trial, "names ").split_whitespace() {
        world.files.put_file(name, whole.bytes(name))?;
    }
    Ok(())
}

// How much room there is for the output that gets a byte too little.
fn room_of(trial: &str, whole: &World) -> usize {
    let size = whole.bytes(field(trial, "tight ")).len();
    size.saturating_sub(1)
}

// Gives the outputs room, and lists the call that fails.
fn fail(
    trial: &str,
    failing: Failing,
    call: u64,
    whole: &World,
    world: &mut World,
) -> Result<(), AllocError> {
    let outputs = field(trial, "outputs ");
    match failing {
        Failing::Read => {
            world.files.fail_read(call)?;
            world.give_room(outputs)
        }
        Failing::Write(keep) => {
            world.files.fail_write(call, keep)?;
            world.give_room(outputs)
        }
        Failing::NoRoom => Ok(()),
        Failing::LittleRoom => {
            let room = room_of(trial, whole);
            world.files.prepare(field(trial, "tight "), room)
        }
    }
}

// The lines with which the first and the last failing call end a run.
fn lines_of(trial: &str, failing: Failing) -> (&str, &str) {
    match failing {
        Failing::Read => (field(trial, "first "), field(trial, "last ")),
        _ => ("write fault/", "write fault/"),
    }
}

// Whether an output that has a byte too little fills its room, and none is there without room.
fn is_full(trial: &str, failing: Failing, world: &World, whole: &World) -> bool {
    let name = field(trial, "tight ");
    match failing {
        Failing::LittleRoom => world.bytes(name).len() == room_of(trial, whole),
        Failing::NoRoom => world.files.get(name).is_none(),
        _ => true,
    }
}

// How a run ended that is not done.
fn judged(trial: &str, failing: Failing, world: &World, whole: &World, status: u8) -> Ending {
    let (first, last) = lines_of(trial, failing);
    let is_right = status == status_of(last)
        && world.out.bytes().is_empty()
        && is_full(trial, failing, world, whole)
        && are_unfinished(field(trial, "drafts "), world, whole);
    if is_right && is_text(world.err.bytes(), last) {
        Ending::Last
    } else if is_right && is_text(world.err.bytes(), first) {
        Ending::First
    } else {
        Ending::Wrong
    }
}

// How a run ends in which this call fails.
fn end_in<R: Threads + Sync + AllocGlobal>(
    rt: &R,
    trial: &str,
    whole: &World,
    failing: Failing,
    call: u64,
    world: &mut World,
) -> Result<Ending, AllocError> {
    begin(trial, whole, world)?;
    fail(trial, failing, call, whole, world)?;
    let status = world.obey(rt, field(trial, "words "), "", &OpenGate)?;
    if status == 0 {
        return Ok(Ending::Done);
    }
    Ok(judged(trial, failing, world, whole, status))
}

// The same in a world of its own.
fn end_of<R: Threads + Sync + AllocGlobal>(
    rt: &R,
    trial: &str,
    whole: &World,
    failing: Failing,
    call: u64,
) -> Result<Ending, AllocError> {
    let mut world = World::new(rt.alloc())?;
    end_in(rt, trial, whole, failing, call, &mut world)
}

// Whether a trial says that this many calls end a run when they fail.
fn is_count(trial: &str, failing: Failing, count: u64) -> bool {
    let counts = match failing {
        Failing::Read => field(trial, "reads "),
        _ => field(trial, "writes "),
    };
    let (least, most) = pair(counts);
    !most.is_empty() && u64::from(number(least)) <= count && count <= u64::from(number(most))
}

// How many calls fail in turn at most.
fn most_calls(failing: Failing) -> u64 {
    match failing {
        Failing::Read => 100,
        Failing::Write(_) => 100,
        _ => 1,
    }
}

// Whether each call that can fail ends a run in the right way, and there are as many as a trial says.
fn are_right<R: Threads + Sync + AllocGlobal>(
    rt: &R,
    trial: &str,
    whole: &World,
    failing: Failing,
) -> Result<bool, AllocError> {
    let (first, last) = lines_of(trial, failing);
    let is_one_line = first == last;
    let mut may_end = true;
    let most = most_calls(failing);
    for call in 0..most {
        match end_of(rt, trial, whole, failing, call + 1)? {
            Ending::Done => return Ok(may_end && is_count(trial, failing, call)),
            Ending::First => may_end = false,
            Ending::Last if call > 0 || is_one_line => may_end = true,
            Ending::Last => return Ok(false),
            Ending::Wrong => return Ok(false),
        }
    }
    Ok(may_end && most == 1)
}

// Whether a command ends in the right way whatever call fails, and with a room that is too small.
fn ends_rightly<R: Threads + Sync + AllocGlobal + Abort>(
    rt: &R,
    trial: &str,
    whole: &mut World,
) -> Result<bool, AllocError> {
    let (_, script) = trial.split_once("\nscript\n").unwrap_or(("", "?"));
    whole.play(rt, field(trial, "trial "), script, field(trial, "words "))?;
    for failing in &FAULTS {
        if !are_right(rt, trial, whole, *failing)? {
            return Ok(false);
        }
    }
    Ok(true)
}

// Whether a command does, in a world of its own.
fn ends_alone<R: Threads + Sync + AllocGlobal + Abort>(
    rt: &R,
    trial: &str,
) -> Result<bool, AllocError> {
    let mut whole = World::new(rt.alloc())?;
    ends_rightly(rt, trial, &mut whole)
}

// Makes trials. The first command that ends in a wrong way ends the test.
fn try_all<R: Threads + Sync + AllocGlobal + Abort>(rt: &R, trials: &str) {
    for trial in trials.split("\n\n") {
        let is_right = ends_alone(rt, trial).unwrap_or(false);
        holds(is_right, "trial", field(trial, "trial "), rt);
    }
}

// A plain input is read by its size, its front, its head and one block, and a packed one by its table in two parts and
// its chunks too. A packed output is created, and gets a head, a pointer, three chunks, or two if a third of the
// records is dropped, a table and its pointer; a plain one a head and its records. Counts are a patch more. The pointer
// of a packed file is the place of its points until it is patched: byte 402, or 321.
const PACKING: &str = "\
trial packing
words laszip -i a -o b -chunk_size 256 -cores 2
names a
outputs b
drafts b=b.draft
reads 4 4
first read fault: a/
last read fault: a/
writes 8 8
tight b
script
head 2 3 5 600
records 2 3 5 0 600
put a
room b
done @
above b 0
take b
set 402 92 01 00 00 00 00 00 00
put b.draft

trial unpacking
words laszip -i a -o b -cores 2
names a
outputs b
drafts b=b.draft
reads 7 99
first read fault: a/
last read fault: a/
writes 5 5
tight b
script
head 2 3 5 600
records 2 3 5 0 600
packed
put a
room b
done @
above b 0
take b
put b.draft
";

const FILTERING: &str = "\
trial filtering packed files
words las2las -i a -o b -drop_class 5 -olaz -chunk_size 256 -cores 2
names a
outputs b
drafts b=b.draft
reads 7 99
first read fault: a/
last read fault: a/
writes 8 8
tight b
script
head 2 3 5 600
records 2 3 5 0 600
packed
put a
room b
done @
above b 0
take b
set 107 00 00 00 00 00 00 00 00 00 00 00 00 00 00 00 00 00 00 00 00 00 00 00 00
set 402 92 01 00 00 00 00 00 00
put b.draft

trial filtering plain files
words las2las -i a -o b -drop_class 5 -cores 2
names a
outputs b
drafts b=b.draft
reads 4 4
first read fault: a/
last read fault: a/
writes 4 4
tight b
script
head 2 3 5 600
records 2 3 5 0 600
put a
room b
done @
above b 0
take b
set 107 00 00 00 00 00 00 00 00 00 00 00 00 00 00 00 00 00 00 00 00 00 00 00 00
put b.draft
";

// Each of two parts is created, and gets a head, its records in one block, and its counts.
const PARTING: &str = "\
trial reporting
words lasinfo -i c -cores 2
names a c
reads 7 99
first read fault: c/
last read fault: c/
writes 0 0
script
head 2 0 0 600
records 2 0 0 0 600
put a
packed
put c

trial splitting
words lassplit -i a -o p.las -split 300 -cores 2
names a c
outputs p_0000000.las p_0000001.las
drafts p_0000000.las=p_0000000.las.draft p_0000001.las=p_0000001.las.draft
reads 4 4
first read fault: a/
last read fault: a/
writes 8 8
script
head 2 0 0 600
records 2 0 0 0 600
put a
packed
put c
room p_0000000.las p_0000001.las
done @
above p_0000000.las 0
above p_0000001.las 0
take p_0000000.las
set 107 00 00 00 00 00 00 00 00 00 00 00 00 00 00 00 00 00 00 00 00 00 00 00 00
put p_0000000.las.draft
take p_0000001.las
set 107 00 00 00 00 00 00 00 00 00 00 00 00 00 00 00 00 00 00 00 00 00 00 00 00
put p_0000001.las.draft
";

// The output of a merge is created, and gets a head, the records of a plain input, those of three chunks, and its
// counts; a copied one gets a head, a pointer, the chunks of each input in one piece, and a table.
const MERGING: &str = "\
trial merging
words lasmerge -i a -i c -o b -cores 2
names a c
outputs b
drafts b=b.draft
reads 9 99
first read fault: a/
last read fault: c/
writes 7 7
tight b
script
head 2 0 0 600
records 2 0 0 0 600
put a
packed
put c
room b
done @
above b 0
take b
set 107 00 00 00 00 00 00 00 00 00 00 00 00 00 00 00 00 00 00 00 00 00 00 00 00
put b.draft

trial copying
words lasmerge -i c -i c -o b -olaz -copy_chunks
names a c
outputs b
drafts b=b.draft
reads 9 99
first read fault: c/
last read fault: c/
writes 6 6
tight b
script
head 2 0 0 600
records 2 0 0 0 600
put a
packed
put c
room b
done @
above b 0
take b
put b.draft
";

// The input is read twice; the output is created between, and gets a head, the records of three chunks, and its counts.
// A plain file that is made is read again to be packed, and the size of the packed one is asked last.
const THINNING: &str = "\
trial thinning
words las2las -i c -o b -thin_raw 5 -lowest -cores 2
names a c
outputs b
drafts b=b.draft
reads 13 99
first read fault: c/
last read fault: c/
writes 6 6
tight b
script
head 2 0 0 600
records 2 0 0 0 600
put a
packed
put c
room b
done @
above b 0
take b
set 107 00 00 00 00 00 00 00 00 00 00 00 00 00 00 00 00 00 00 00 00 00 00 00 00
put b.draft

trial making
words make -o b -z d -points 600 -seed 1 -chunk_size 256 -cores 2
outputs b d
drafts b=b.draft d=d.draft
reads 5 5
first read fault: b/
last read fault: d/
writes 11 11
script
room b d
tells points 600/plain 12227/packed 4267/ = @
above b 0
above d 0
take b
put b.draft
take d
set 321 41 01 00 00 00 00 00 00
put d.draft
";

#[test]
fn calls_of_packing_fail(rt: HostRuntime) {
    try_all(&rt, PACKING);
}

#[test]
fn calls_of_filtering_fail(rt: HostRuntime) {
    try_all(&rt, FILTERING);
}

#[test]
fn calls_of_reporting_and_splitting_fail(rt: HostRuntime) {
    try_all(&rt, PARTING);
}

#[test]
fn calls_of_merging_fail(rt: HostRuntime) {
    try_all(&rt, MERGING);
}

#[test]
fn calls_of_thinning_and_making_fail(rt: HostRuntime) {
    try_all(&rt, THINNING);
}
