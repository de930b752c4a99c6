//! The parts of a record that may be absent.
ghost use Rattle.std.specs.Prelude.{◌≡◌, ◌+◌, ◌*◌, ◌≤◌, [], ◌∷◌, length, false, OnOk};
ghost use Rattle.laz_gpstime.specs.Items.{point_with};
ghost use Rattle.laz_chunk.specs.Layouts.{colour_length, time_length};
ghost use Rattle.laz_chunk.specs.Records.{colour_in, time_in};
ghost use Rattle.laz_chunk.specs.Stands.{ColoursStand, ExtrasStand, TimesStand, extra_length, has, CodesExtraIf};
ghost use Rattle.laz_chunk.specs.Stands.{ReadsExtraIf, StandsWithExtraIf};

use laz_gpstime::GpsTime;
use laz_range::{Bad, Decoder, Encoder};
use laz_rgb::{Bytes, Rgb};

// How long a time's part is.
#[inline(always)]
pub(crate) fn time_length(item: &Option<GpsTime>) -> usize
    ensures { result ≡ time_length (has item.now) }
{
    match item {
        Some(_) => 8,
        None => 0,
    }
}

// Begins a chunk with its first time.
pub(crate) fn start_time(item: &mut Option<GpsTime>, first: &[u8])
    requires first { length first.now ≡ time_length (has item.old) }
    ensures has { has item.new ≡ has item.old }
    ensures stands { TimesStand [] (point_with (time_in (has item.old) first.now) [] ∷ []) item.new }
{
    match item {
        Some(times) => times.start(first),
        None => {}
    }
}

// How long a colour's part is.
#[inline(always)]
pub(crate) fn colour_length(item: &Option<Rgb>) -> usize
    ensures { result ≡ colour_length (has item.now) }
{
    match item {
        Some(_) => 6,
        None => 0,
    }
}

// Begins a chunk with its first colour.
pub(crate) fn start_colour(item: &mut Option<Rgb>, first: &[u8])
    requires first { length first.now ≡ colour_length (has item.old) }
    ensures has { has item.new ≡ has item.old }
    ensures stands { ColoursStand [] (colour_in (has item.old) first.now ∷ []) item.new }
{
    match item {
        Some(colours) => colours.start(first),
        None => {}
    }
}

// Begins a chunk with its first extra bytes.
pub(crate) fn start_extra(item: &mut Option<Bytes>, first: &[u8])
    requires first { length first.now ≡ extra_length item.old }
    ensures extra { extra_length item.new ≡ extra_length item.old }
    ensures has { has item.new ≡ has item.old }
    ensures stands { ExtrasStand [] (first.now ∷ []) item.new }
{
    match item {
        Some(bytes) => bytes.start(first),
        None => {}
    }
}

// Codes extra bytes.
#[inline(always)]
pub(crate) fn code_extra(encoder: &mut Encoder, item: &mut Option<Bytes>, part: &[u8])
    requires part { length part.now ≡ extra_length item.old }
    requires left { 3 * extra_length item.old ≤ encoder.old.left }
    ensures used { encoder.old.left ≤ encoder.new.left + 3 * extra_length item.old }
    ensures extra { extra_length item.new ≡ extra_length item.old }
    ensures has { has item.new ≡ has item.old }
    ensures events { CodesExtraIf item.old part.now encoder.old encoder.new }
    ensures stands { StandsWithExtraIf item.old part.now item.new }
{
    match item {
        Some(bytes) => bytes.code(encoder, part),
        None => {}
    }
}

// Reads extra bytes.
#[inline(always)]
pub(crate) fn read_extra(
    decoder: &mut Decoder<'_>,
    item: &mut Option<Bytes>,
    part: &mut [u8],
) -> Result<(), Bad>
    requires part { length part.old ≡ extra_length item.old }
    requires good { decoder.old.failed ≡ false }
    ensures part { length part.new ≡ length part.old }
    ensures extra { extra_length item.new ≡ extra_length item.old }
    ensures has { has item.new ≡ has item.old }
    ensures good { OnOk result (decoder.new.failed ≡ false) }
    ensures reads { ReadsExtraIf result item.old part.new decoder.old decoder.new item.new }
{
    match item {
        Some(bytes) => bytes.read(decoder, part),
        None => Ok(()),
    }
}
