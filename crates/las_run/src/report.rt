//! The line on standard error, and the exit status.
ghost use Rattle.std.specs.Prelude.{◌≡◌, ◌≤◌, ℕ, List};
ghost use Rattle.las_outside.specs.Sinks.{Puts};
ghost use Rattle.std.specs.Prelude.{[], Err, slice_index_or};
ghost use Rattle.las_run.specs.Endings.{status_of, Differs, Refused};
ghost use Rattle.las_run.specs.Ends.{cause_of, names_read};
ghost use Rattle.las_run.specs.Lines.{field_name, line_of, number_in, surplus_name};

use crate::stop::{Stop, Surplus};
use itoa::Buffer;
use las_header::Refusal;
use las_merge::Field;
use las_outside::{Failed, Sink, put_all};
use las_words::{Command, WordFault};

/// The exit status of a run.
pub(crate) fn status(outcome: &Result<(), Stop>) -> u8
    ensures status { (inputs : List (List ℕ)) → result ≡ status_of (cause_of inputs outcome.now) }
    ensures known { result ≤ 6 }
{
    match outcome {
        Ok(()) => 0,
        Err(Stop::Memory) => 1,
        Err(Stop::Usage(_)) => 2,
        Err(Stop::Read(_)) => 3,
        Err(Stop::Write) => 4,
        Err(Stop::Refused(..)) => 5,
        Err(Stop::Differs(..) | Stop::TooMany(_)) => 6,
    }
}

/// Puts the line of a run on standard error, in pieces: none if all is done. A fault of the stream changes nothing else.
/// It takes no memory.
pub(crate) fn report<E: Sink>(
    err: &mut E,
    said: &Result<Command, WordFault>,
    outcome: &Result<(), Stop>,
)
    ensures line { Puts (line_of (cause_of (names_read said.now) outcome.now)) (E.seen err.old) (E.seen err.new) }
{
    match outcome {
        Ok(()) => {}
        Err(stop) => {
            let _ = put_stop(err, said, stop);
        }
    }
}

// The name of the file of this number among those that a command reads, and an empty one if there is none.
fn name_read(said: &Result<Command, WordFault>, number: usize) -> &str
    ensures { result.now ≡ slice_index_or (names_read said.now) number [] }
{
    match said {
        Ok(
            Command::Laszip { input, .. }
            | Command::Las2las { input, .. }
            | Command::Lasinfo { input, .. }
            | Command::Lassplit { input, .. },
        ) => match number {
            0 => input.as_str(),
            _ => "",
        },
        Ok(Command::Lasmerge { inputs, .. }) => match inputs.get(number) {
            Some(input) => input.as_str(),
            None => "",
        },
        Ok(Command::Make { output, packed, .. }) => match number {
            0 => output.as_str(),
            1 => packed.as_str(),
            _ => "",
        },
        Err(_) => "",
    }
}

// Puts the line of a run that stops.
fn put_stop<E: Sink>(
    err: &mut E,
    said: &Result<Command, WordFault>,
    stop: &Stop,
) -> Result<(), Failed>
    ensures line { Puts (line_of (cause_of (names_read said.now) (Err stop.now))) (E.seen err.old) (E.seen err.new) }
{
    let mut digits = Buffer::new();
    match stop {
        Stop::Memory => put_all(err, &[b"no memory", b"\n"]),
        Stop::Usage(index) => {
            let index = digits.format(*index).as_bytes();
            put_all(err, &[b"usage: word ", index, b"\n"])
        }
        Stop::Read(input) => {
            let name = name_read(said, *input).as_bytes();
            put_all(err, &[b"read fault: ", name, b"\n"])
        }
        Stop::Write => put_all(err, &[b"write fault", b"\n"]),
        Stop::Refused(input, cause) => put_refusal(err, name_read(said, *input), cause),
        Stop::Differs(input, field) => put_difference(err, name_read(said, *input), field),
        Stop::TooMany(surplus) => {
            let name = surplus_name(surplus).as_bytes();
            put_all(err, &[b"too many ", name, b"\n"])
        }
    }
}

// The word for a field in which inputs differ.
fn field_name(field: &Field) -> &str
    ensures { result.now ≡ field_name field.now }
{
    match field {
        Field::Format => "format",
        Field::Length => "length",
        Field::Scales => "scales",
        Field::Offsets => "offsets",
        Field::Bounds => "box",
    }
}

// The word for what inputs have too many of.
fn surplus_name(surplus: &Surplus) -> &str
    ensures { result.now ≡ surplus_name surplus.now }
{
    match surplus {
        Surplus::Points => "points",
        Surplus::Chunks => "chunks",
    }
}

// Puts the line of an input that differs from the first.
fn put_difference<E: Sink>(err: &mut E, name: &str, field: &Field) -> Result<(), Failed>
    ensures line { Puts (line_of (Differs name.now field.now)) (E.seen err.old) (E.seen err.new) }
{
    let name = name.as_bytes();
    let word = field_name(field).as_bytes();
    put_all(err, &[b"unequal: ", name, b": ", word, b"\n"])
}

// Puts the line of a refused input.
fn put_refusal<E: Sink>(err: &mut E, name: &str, cause: &Refusal) -> Result<(), Failed>
    ensures line { Puts (line_of (Refused name.now cause.now)) (E.seen err.old) (E.seen err.new) }
{
    let name = name.as_bytes();
    let mut digits = Buffer::new();
    let number = digits.format(cause.number()).as_bytes();
    let said = cause.name().as_bytes();
    match carried(cause) {
        None => put_all(err, &[b"refused: ", name, b": ", number, b" ", said, b"\n"]),
        Some(count) => {
            let mut digits = Buffer::new();
            let count = digits.format(count).as_bytes();
            put_all(
                err,
                &[
                    b"refused: ",
                    name,
                    b": ",
                    number,
                    b" ",
                    said,
                    b" ",
                    count,
                    b"\n",
                ],
            )
        }
    }
}

// The number that a refusal carries.
fn carried(cause: &Refusal) -> Option<u64>
    ensures { result ≡ number_in cause.now }
{
    match cause {
        Refusal::BadChunk(chunk) => Some(u64::from(*chunk)),
        Refusal::RawRange(record) => Some(*record),
        _ => None,
    }
}
