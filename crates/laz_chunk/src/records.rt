//! The records of a chunk, by their items.
ghost use Rattle.std.specs.Prelude.{◌≡◌, ◌+◌, ◌*◌, ◌≤◌, length, false, OnOk};
ghost use Rattle.laz_chunk.specs.Layouts.{most_events, record_length};
ghost use Rattle.laz_chunk.specs.Records.{record_at};
ghost use Rattle.laz_chunk.specs.Stands.{ItemsStand, StandSometime, items_of, layout_in};
ghost use Rattle.laz_chunk.specs.Chunks.{initial_history};
ghost use Rattle.laz_chunk.specs.Coded.{CodesRecord, CodesRecords, KeepLayout, ReadsRecord, ReadsRecords};
ghost use Rattle.laz_chunk.specs.Coded.{StandWithRecord};

use crate::absent::{Absent, ColourPart, TimePart};
use crate::items::Items;
use crate::parts::{
    code_extra, colour_length, read_extra, start_colour, start_extra, start_time, time_length,
};
use laz_point10::Point10;
use laz_range::{Bad, Decoder, Encoder};
use laz_rgb::Bytes;

// Begins a chunk with its first record.
pub(crate) fn start_record(items: &mut Items, first: &[u8])
    requires first { length first.now ≡ record_length (layout_in items.old) }
    ensures layout { layout_in items.new ≡ layout_in items.old }
    ensures stands { let h = initial_history (record_at (layout_in items.old) first.now) in
        ItemsStand h.0 h.1 items.new }
{
    let (point, parts) = first.split_at(20);
    let (time, others) = parts.split_at(time_length(&items.gps_time));
    let (colour, extra) = others.split_at(colour_length(&items.rgb));
    items.point10.start(point);
    start_time(&mut items.gps_time, time);
    start_colour(&mut items.rgb, colour);
    start_extra(&mut items.extra, extra);
}

// Codes a record.
#[inline(always)]
fn code_record<T: TimePart, C: ColourPart>(
    encoder: &mut Encoder,
    point10: &mut Point10,
    times: &mut T,
    colours: &mut C,
    extra: &mut Option<Bytes>,
    bytes: &[u8],
)
    requires whole { let items = items_of point10.old (T.item times.old) (C.item colours.old) extra.old
        in length bytes.now ≡ record_length (layout_in items) }
    requires left { let items = items_of point10.old (T.item times.old) (C.item colours.old) extra.old
        in 3 * most_events (layout_in items) ≤ encoder.old.left }
    ensures layout { KeepLayout (items_of point10.old (T.item times.old) (C.item colours.old) extra.old)
        (items_of point10.new (T.item times.new) (C.item colours.new) extra.new) }
    ensures used { let items = items_of point10.old (T.item times.old) (C.item colours.old) extra.old
        in encoder.old.left ≤ encoder.new.left + 3 * most_events (layout_in items) }
    ensures codes { CodesRecord (items_of point10.old (T.item times.old) (C.item colours.old) extra.old)
        bytes.now encoder.old encoder.new }
    ensures stands { StandWithRecord (items_of point10.old (T.item times.old) (C.item colours.old) extra.old) bytes.now
        (items_of point10.new (T.item times.new) (C.item colours.new) extra.new) }
{
    let (point, parts) = bytes.split_at(20);
    let (time, others) = parts.split_at(times.time_length());
    let (colour, own) = others.split_at(colours.colour_length());
    point10.code_for::<(T, C)>(encoder, point);
    times.put_time::<C>(encoder, time);
    colours.put_colour(encoder, colour);
    code_extra(encoder, extra, own);
}

// Reads a record.
#[inline(always)]
fn read_record<T: TimePart, C: ColourPart>(
    decoder: &mut Decoder<'_>,
    point10: &mut Point10,
    times: &mut T,
    colours: &mut C,
    extra: &mut Option<Bytes>,
    bytes: &mut [u8],
) -> Result<(), Bad>
    requires whole { let items = items_of point10.old (T.item times.old) (C.item colours.old) extra.old
        in length bytes.old ≡ record_length (layout_in items) }
    requires good { decoder.old.failed ≡ false }
    ensures whole { length bytes.new ≡ length bytes.old }
    ensures layout { KeepLayout (items_of point10.old (T.item times.old) (C.item colours.old) extra.old)
        (items_of point10.new (T.item times.new) (C.item colours.new) extra.new) }
    ensures good { OnOk result (decoder.new.failed ≡ false) }
    ensures reads { ReadsRecord result (items_of point10.old (T.item times.old) (C.item colours.old) extra.old)
        bytes.new decoder.old decoder.new
        (items_of point10.new (T.item times.new) (C.item colours.new) extra.new) }
{
    let (point, parts) = bytes.split_at_mut(20);
    let (time, others) = parts.split_at_mut(times.time_length());
    let (colour, own) = others.split_at_mut(colours.colour_length());
    point10.read(decoder, point)?;
    times.take_time::<C>(decoder, time)?;
    colours.take_colour::<T>(decoder, colour)?;
    read_extra(decoder, extra, own)?;
    Ok(())
}

// How long each of some records is, and how many there are.
#[derive(Clone, Copy)]
struct Extent {
    size: usize,
    count: usize,
}

// How long each of some records is, how many there are, and how many bytes one takes at most when it is coded.
#[derive(Clone, Copy)]
struct Packed {
    size: usize,
    count: usize,
    most: usize,
}

// Codes records whose items have these types.
#[inline(always)]
fn put_all<T: TimePart, C: ColourPart>(
    encoder: &mut Encoder,
    point10: &mut Point10,
    times: &mut T,
    colours: &mut C,
    extra: &mut Option<Bytes>,
    records: &[u8],
    packed: Packed,
)
    requires size { let items = items_of point10.old (T.item times.old) (C.item colours.old) extra.old
        in packed.size ≡ record_length (layout_in items) }
    requires records { let items = items_of point10.old (T.item times.old) (C.item colours.old) extra.old
        in length records.now ≡ record_length (layout_in items) * packed.count }
    requires left { let items = items_of point10.old (T.item times.old) (C.item colours.old) extra.old
        in 3 * most_events (layout_in items) * packed.count ≤ encoder.old.left + encoder.old.more }
    requires most { let items = items_of point10.old (T.item times.old) (C.item colours.old) extra.old
        in packed.most ≡ 3 * most_events (layout_in items) }
    requires stands { StandSometime (items_of point10.old (T.item times.old) (C.item colours.old) extra.old) }
    ensures layout { KeepLayout (items_of point10.old (T.item times.old) (C.item colours.old) extra.old)
        (items_of point10.new (T.item times.new) (C.item colours.new) extra.new) }
    ensures codes { CodesRecords (items_of point10.old (T.item times.old) (C.item colours.old) extra.old)
        packed.count records.now encoder.old encoder.new }
{
    for i in 0..packed.count {
        encoder.keep_left(packed.most);
        let at = i * packed.size;
        code_record(
            encoder,
            point10,
            times,
            colours,
            extra,
            &records[at..at + packed.size],
        );
    }
}

// Reads records whose items have these types.
#[inline(always)]
fn take_all<T: TimePart, C: ColourPart>(
    decoder: &mut Decoder<'_>,
    point10: &mut Point10,
    times: &mut T,
    colours: &mut C,
    extra: &mut Option<Bytes>,
    records: &mut [u8],
    extent: Extent,
) -> Result<(), Bad>
    requires size { let items = items_of point10.old (T.item times.old) (C.item colours.old) extra.old
        in extent.size ≡ record_length (layout_in items) }
    requires records { let items = items_of point10.old (T.item times.old) (C.item colours.old) extra.old
        in length records.old ≡ record_length (layout_in items) * extent.count }
    requires good { decoder.old.failed ≡ false }
    requires within { decoder.old.taken ≤ length decoder.old.bytes }
    ensures records { length records.new ≡ length records.old }
    ensures layout { KeepLayout (items_of point10.old (T.item times.old) (C.item colours.old) extra.old)
        (items_of point10.new (T.item times.new) (C.item colours.new) extra.new) }
    ensures good { OnOk result (decoder.new.failed ≡ false) }
    ensures reads { ReadsRecords result (items_of point10.old (T.item times.old) (C.item colours.old) extra.old)
        extent.count records.new decoder.old decoder.new }
{
    for i in 0..extent.count {
        let at = i * extent.size;
        read_record(
            decoder,
            point10,
            times,
            colours,
            extra,
            &mut records[at..at + extent.size],
        )?;
    }
    Ok(())
}

// Codes records.
#[inline(always)]
pub(crate) fn put_records(
    encoder: &mut Encoder,
    items: &mut Items,
    records: &[u8],
    size: usize,
    count: usize,
    most: usize,
)
    requires size { size ≡ record_length (layout_in items.old) }
    requires records { length records.now ≡ record_length (layout_in items.old) * count }
    requires left { 3 * most_events (layout_in items.old) * count ≤ encoder.old.left + encoder.old.more }
    requires most { most ≡ 3 * most_events (layout_in items.old) }
    requires stands { StandSometime items.old }
    ensures layout { layout_in items.new ≡ layout_in items.old }
    ensures codes { CodesRecords items.old count records.now encoder.old encoder.new }
{
    let (point10, extra) = (&mut items.point10, &mut items.extra);
    let mut none = Absent;
    let packed = Packed { size, count, most };
    match &mut items.gps_time {
        Some(times) => match &mut items.rgb {
            Some(colours) => put_all(encoder, point10, times, colours, extra, records, packed),
            None => put_all(encoder, point10, times, &mut none, extra, records, packed),
        },
        None => match &mut items.rgb {
            Some(colours) => put_all(encoder, point10, &mut none, colours, extra, records, packed),
            None => put_all(
                encoder,
                point10,
                &mut none,
                &mut Absent,
                extra,
                records,
                packed,
            ),
        },
    }
}

// Reads records.
#[inline(always)]
pub(crate) fn take_records(
    decoder: &mut Decoder<'_>,
    items: &mut Items,
    records: &mut [u8],
    size: usize,
    count: usize,
) -> Result<(), Bad>
    requires size { size ≡ record_length (layout_in items.old) }
    requires records { length records.old ≡ record_length (layout_in items.old) * count }
    requires good { decoder.old.failed ≡ false }
    requires within { decoder.old.taken ≤ length decoder.old.bytes }
    ensures records { length records.new ≡ length records.old }
    ensures layout { layout_in items.new ≡ layout_in items.old }
    ensures good { OnOk result (decoder.new.failed ≡ false) }
    ensures reads { ReadsRecords result items.old count records.new decoder.old decoder.new }
{
    let (point10, extra) = (&mut items.point10, &mut items.extra);
    let mut none = Absent;
    let extent = Extent { size, count };
    match &mut items.gps_time {
        Some(times) => match &mut items.rgb {
            Some(colours) => take_all(decoder, point10, times, colours, extra, records, extent),
            None => take_all(decoder, point10, times, &mut none, extra, records, extent),
        },
        None => match &mut items.rgb {
            Some(colours) => take_all(decoder, point10, &mut none, colours, extra, records, extent),
            None => take_all(
                decoder,
                point10,
                &mut none,
                &mut Absent,
                extra,
                records,
                extent,
            ),
        },
    }
}
