//! The parts of a record that may be absent, as a loop over records sees them: each item by its own type.
ghost use Rattle.std.specs.Prelude.{◌≡◌, ◌+◌, ◌≤◌, length, false, OnOk};
ghost use Rattle.std.specs.Prelude.{Option, Some, None};
ghost use Rattle.laz_gpstime.specs.Sequences as sequences;
ghost use Rattle.laz_gpstime.specs.Slots.{TimeState};
ghost use Rattle.laz_rgb.specs.Items.{RgbState};
ghost use Rattle.laz_chunk.specs.Layouts.{colour_length, time_length};
ghost use Rattle.laz_chunk.specs.Stands.{has, CodesColourIf, CodesTimeIf, ReadsColourIf, ReadsTimeIf};
ghost use Rattle.laz_chunk.specs.Stands.{StandsWithColourIf, StandsWithTimeIf};

use laz_gpstime::GpsTime;
use laz_range::{Bad, Decoder, Encoder};
use laz_rgb::Rgb;

// In place of an item that the records of a layout lack.
#[derive(Drop)]
pub struct Absent;

// The item of times, or its absence.
pub trait TimePart: Drop {
    // What the item has come to, if there is one.
    ghost item: { Self → Option TimeState };

    // How long its part of a record is.
    fn time_length(&self) -> usize
        ensures { result ≡ time_length (has (item self.now)) };

    // Codes its part of a record. Each `M` has a copy of the code of its own.
    fn put_time<M>(&mut self, encoder: &mut Encoder, part: &[u8])
        requires part { length part.now ≡ time_length (has (item self.old)) }
        requires left { 21 ≤ encoder.old.left }
        ensures used { encoder.old.left ≤ encoder.new.left + 21 }
        ensures has { has (item self.new) ≡ has (item self.old) }
        ensures events { CodesTimeIf (item self.old) part.now encoder.old encoder.new }
        ensures stands { StandsWithTimeIf (item self.old) part.now (item self.new) };

    // Reads its part of a record. Each `M` has a copy of the code of its own.
    fn take_time<M>(&mut self, decoder: &mut Decoder<'_>, part: &mut [u8]) -> Result<(), Bad>
        requires part { length part.old ≡ time_length (has (item self.old)) }
        requires good { decoder.old.failed ≡ false }
        ensures part { length part.new ≡ length part.old }
        ensures has { has (item self.new) ≡ has (item self.old) }
        ensures good { OnOk result (decoder.new.failed ≡ false) }
        ensures reads { ReadsTimeIf result (item self.old) part.new decoder.old decoder.new (item self.new) };
}

impl TimePart for GpsTime {
    ghost item = { λ st. Some st };

    #[inline(always)]
    fn time_length(&self) -> usize {
        8
    }

    #[inline(always)]
    fn put_time<M>(&mut self, encoder: &mut Encoder, part: &[u8]) {
        self.code_for::<M>(encoder, part);
    }

    #[inline(always)]
    fn take_time<M>(&mut self, decoder: &mut Decoder<'_>, part: &mut [u8]) -> Result<(), Bad> {
        self.read_for::<M>(decoder, part)
    }
}

impl TimePart for Absent {
    ghost item = { λ _. None };

    #[inline(always)]
    fn time_length(&self) -> usize {
        0
    }

    #[inline(always)]
    fn put_time<M>(&mut self, _encoder: &mut Encoder, _part: &[u8]) {}

    #[inline(always)]
    fn take_time<M>(&mut self, _decoder: &mut Decoder<'_>, _part: &mut [u8]) -> Result<(), Bad> {
        Ok(())
    }
}

// The item of colours, or its absence.
pub trait ColourPart: Drop {
    // What the item has come to, if there is one.
    ghost item: { Self → Option RgbState };

    // How long its part of a record is.
    fn colour_length(&self) -> usize
        ensures { result ≡ colour_length (has (item self.now)) };

    // Codes its part of a record.
    fn put_colour(&mut self, encoder: &mut Encoder, part: &[u8])
        requires part { length part.now ≡ colour_length (has (item self.old)) }
        requires left { 21 ≤ encoder.old.left }
        ensures used { encoder.old.left ≤ encoder.new.left + 21 }
        ensures has { has (item self.new) ≡ has (item self.old) }
        ensures events { CodesColourIf (item self.old) part.now encoder.old encoder.new }
        ensures stands { StandsWithColourIf (item self.old) part.now (item self.new) };

    // Reads its part of a record. Each `M` has a copy of the code of its own.
    fn take_colour<M>(&mut self, decoder: &mut Decoder<'_>, part: &mut [u8]) -> Result<(), Bad>
        requires part { length part.old ≡ colour_length (has (item self.old)) }
        requires good { decoder.old.failed ≡ false }
        ensures part { length part.new ≡ length part.old }
        ensures has { has (item self.new) ≡ has (item self.old) }
        ensures good { OnOk result (decoder.new.failed ≡ false) }
        ensures reads { ReadsColourIf result (item self.old) part.new decoder.old decoder.new (item self.new) };
}

impl ColourPart for Rgb {
    ghost item = { λ st. Some st };

    #[inline(always)]
    fn colour_length(&self) -> usize {
        6
    }

    #[inline(always)]
    fn put_colour(&mut self, encoder: &mut Encoder, part: &[u8]) {
        self.code(encoder, part);
    }

    #[inline(always)]
    fn take_colour<M>(&mut self, decoder: &mut Decoder<'_>, part: &mut [u8]) -> Result<(), Bad> {
        self.read_for::<M>(decoder, part)
    }
}

impl ColourPart for Absent {
    ghost item = { λ _. None };

    #[inline(always)]
    fn colour_length(&self) -> usize {
        0
    }

    #[inline(always)]
    fn put_colour(&mut self, _encoder: &mut Encoder, _part: &[u8]) {}

    #[inline(always)]
    fn take_colour<M>(&mut self, _decoder: &mut Decoder<'_>, _part: &mut [u8]) -> Result<(), Bad> {
        Ok(())
    }
}
