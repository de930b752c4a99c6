//! The item GPSTIME11.
ghost use Rattle.std.specs.Prelude.{◌≡◌, ◌<◌, ◌≤◌, ◌+◌, [], ◌∷◌, length, false};
ghost use Rattle.std.specs.Prelude.{OnOk};
ghost use Rattle.laz_gpstime.specs.Times.{time_at};
ghost use Rattle.laz_gpstime.specs.Slots.{first_slots};
ghost use Rattle.laz_gpstime.specs.Items.{CodesTime, NoTimeBegins, OnlyTimeBegins, ReadsNextTime, StandsWithTime};
ghost use Rattle.laz_gpstime.specs.Items.{TimeStands, point_with};

use crate::coding::put_time;
use crate::limits::TOTAL;
use crate::reading::take_time;
use crate::sequences::{Sequences, Slot};
use crate::times::Times;
use laz_integer::IntModel;
use laz_models::ModelBank;
use laz_range::{Bad, Decoder, Encoder};
use std::alloc::{AllocError, Global};
use std::marker::Model;

/// Codes and reads the GPS times of a chunk's points, as LASzip's GPSTIME11, version 2.
///
/// A time is eight bytes, the low byte first: any 64 bits. After `start` the item stands for the chunk's first time,
/// and each call adds a point to those that it stands for. Only `new` takes memory.
#[derive(Drop)]
pub struct GpsTime {
    times: Times,
}

impl Model for GpsTime {
    ghost use Rattle.laz_gpstime.specs.Slots.{IsTimeState, TimeState};
    ghost use Rattle.laz_gpstime.specs.State.{state_of};

    ghost Value = { TimeState };

    ghost view = { λ g. state_of g.times };

    ghost invariant = { λ g. IsTimeState (state_of g.times) };
}

const EMPTY: Slot = Slot {
    time: 0,
    difference: 0,
    extremes: 0,
};

// The sequences after the first time of a chunk.
pub(crate) fn sequences_of(time: u64) -> Sequences
    ensures slots { result.slots ≡ first_slots time }
    ensures last { result.last ≡ 0 }
    ensures next { result.next ≡ 0 }
{
    Sequences {
        slots: [Slot { time, ..EMPTY }, EMPTY, EMPTY, EMPTY],
        last: 0,
        next: 0,
    }
}

// The time in the eight bytes of a record.
#[inline(always)]
fn time_of(part: &[u8]) -> u64
    requires { length part.now ≡ 8 }
    ensures { result ≡ time_at part.now }
{
    u64::from_le_bytes([
        part[0], part[1], part[2], part[3], part[4], part[5], part[6], part[7],
    ])
}

// Writes a time into the eight bytes of a record.
#[inline(always)]
fn set_time(part: &mut [u8], time: u64)
    requires { length part.old ≡ 8 }
    ensures time { time_at part.new ≡ time }
    ensures length { length part.new ≡ 8 }
{
    part.copy_from_slice(&time.to_le_bytes());
}

impl GpsTime {
    /// An item of no chunk yet: `start` begins one. `Err` means out of memory.
    pub fn new(alloc: Global) -> Result<Self, AllocError> {
        let symbols = ModelBank::new(alloc, &[6, TOTAL])?;
        let integers = IntModel::new(alloc, 32, 9)?;
        let sequences = sequences_of(0);
        Ok(GpsTime {
            times: Times {
                sequences,
                symbols,
                integers,
            },
        })
    }

    /// Begins a chunk, whose first time is given. All models are initial again.
    pub fn start(&mut self, first: &[u8])
        requires { length first.now ≡ 8 }
        ensures { TimeStands [] (point_with (time_at first.now) [] ∷ []) self.new }
    {
        self.times.sequences = sequences_of(time_of(first));
        self.times.symbols.reset();
        self.times.integers.reset();
    }

    /// Codes a time.
    #[inline(always)]
    pub fn code(&mut self, encoder: &mut Encoder, part: &[u8])
        requires part { length part.now ≡ 8 }
        requires left { 21 ≤ encoder.old.left }
        ensures used { encoder.old.left ≤ encoder.new.left + 21 }
        ensures events { CodesTime self.old (time_at part.now) encoder.old encoder.new }
        ensures stands { StandsWithTime self.old (time_at part.now) self.new }
    {
        self.code_for::<()>(encoder, part);
    }

    /// The same as [`code`](Self::code), once in the program for each `M`: what a single loop calls is inlined into it.
    #[inline(always)]
    pub fn code_for<M>(&mut self, encoder: &mut Encoder, part: &[u8])
        requires part { length part.now ≡ 8 }
        requires left { 21 ≤ encoder.old.left }
        ensures used { encoder.old.left ≤ encoder.new.left + 21 }
        ensures events { CodesTime self.old (time_at part.now) encoder.old encoder.new }
        ensures stands { StandsWithTime self.old (time_at part.now) self.new }
    {
        put_time::<M>(&mut self.times, encoder, time_of(part));
    }

    /// Reads a time. `Bad` means that no spelling of a time begins the rest of the bytes; the part is then unspecified,
    /// and the item serves again only after `start`.
    #[inline(always)]
    pub fn read(&mut self, decoder: &mut Decoder<'_>, part: &mut [u8]) -> Result<(), Bad>
        requires good { decoder.old.failed ≡ false }
        requires part { length part.old ≡ 8 }
        ensures part { length part.new ≡ 8 }
        ensures good { OnOk result (decoder.new.failed ≡ false) }
        ensures reads { ReadsNextTime result self.old (time_at part.new) decoder.old decoder.new self.new }
        ensures only { OnlyTimeBegins result self.old (time_at part.new) decoder.old }
        ensures none { NoTimeBegins result self.old decoder.old }
    {
        self.read_for::<()>(decoder, part)
    }

    /// The same as [`read`](Self::read), once in the program for each `M`: what a single loop calls is inlined into it.
    #[inline(always)]
    pub fn read_for<M>(&mut self, decoder: &mut Decoder<'_>, part: &mut [u8]) -> Result<(), Bad>
        requires good { decoder.old.failed ≡ false }
        requires part { length part.old ≡ 8 }
        ensures part { length part.new ≡ 8 }
        ensures good { OnOk result (decoder.new.failed ≡ false) }
        ensures reads { ReadsNextTime result self.old (time_at part.new) decoder.old decoder.new self.new }
        ensures only { OnlyTimeBegins result self.old (time_at part.new) decoder.old }
        ensures none { NoTimeBegins result self.old decoder.old }
    {
        let time = take_time::<M>(&mut self.times, decoder)?;
        set_time(part, time);
        Ok(())
    }
}
