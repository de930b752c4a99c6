//! A chunk, packed and unpacked.
ghost use Rattle.std.specs.Prelude.{◌≡◌, ◌+◌, ◌-◌, ◌*◌, ◌%◌, ◌<◌, ◌≤◌, ℕ, List, length, take, IfOk, OnOk, OnErr};
ghost use Rattle.std.specs.Prelude.{vec_capacity};
ghost use Rattle.laz_chunk.specs.Layouts.{layout, layout_of, record_length, room_for};
ghost use Rattle.laz_chunk.specs.Stands.{layout_in};
ghost use Rattle.laz_chunk.specs.Chunks.{AreRecords, Holds, chunk_bytes, count_of};

use crate::items::Items;
use crate::records::{put_records, start_record, take_records};
use laz_gpstime::GpsTime;
use laz_point10::Point10;
use laz_range::{Bad, Decoder, Encoder};
use laz_rgb::{Bytes, Rgb};
use std::alloc::{AllocError, Global};
use std::marker::Model;
use std::mem;

/// What packing and unpacking of chunks need: the models of the items of a format, made once.
///
/// Contracts see it as its point format, 0 to 3, and its number of extra bytes a record, 0 to 192. No call changes
/// these. Only `new` takes memory.
#[derive(Drop)]
pub struct Workspace {
    format: u8,
    extra: u16,
    items: Items,
    alloc: Global,
}

impl Model for Workspace {
    ghost use Rattle.std.specs.Prelude.{◌≡◌, ◌<◌};
    ghost use Rattle.laz_chunk.specs.Layouts.{Format, layout_of};
    ghost use Rattle.laz_chunk.specs.Stands.{layout_in};

    ghost Value = { Format };

    ghost view = { λ w. record { format = w.format; extra = w.extra } };

    ghost invariant = { λ w. (layout_in w.items ≡ layout_of w.format w.extra) × (w.format < 4) × (w.extra < 193) };
}

// How long a record is.
fn record_length(format: u8, extra: u16) -> usize
    requires known { format < 4 }
    ensures { result ≡ record_length (layout_of format extra) }
{
    let times = if format % 2 == 1 { 8 } else { 0 };
    let colours = if format >= 2 { 6 } else { 0 };
    20 + times + colours + extra as usize
}

/// How many bytes are enough for a chunk of this many points: of a point format 0 to 3, with 0 to 192 extra bytes. A
/// chunk of no point takes none.
pub fn room_for(format: u8, extra: u16, points: u32) -> u64
    requires known { format < 4 }
    requires few { extra < 193 }
    ensures { result ≡ room_for (layout_of format extra) points }
{
    if points == 0 {
        return 0;
    }
    record_length(format, extra) as u64 + 4 + 3 * (38 + extra as u64) * (points as u64 - 1)
}

// Adds the items that records of a format have besides their points.
fn add_items(items: &mut Items, alloc: Global, format: u8, extra: u16) -> Result<(), AllocError>
    requires few { extra < 193 }
    requires none { layout_in items.old ≡ layout_of 0 0 }
    ensures { OnOk result (layout_in items.new ≡ layout_of format extra) }
{
    if format % 2 == 1 {
        items.gps_time = Some(GpsTime::new(alloc)?);
    }
    if format >= 2 {
        items.rgb = Some(Rgb::new(alloc)?);
    }
    if extra > 0 {
        items.extra = Some(Bytes::new(alloc, extra)?);
    }
    Ok(())
}

// Writes zeros after bytes until there are at least this many. There is capacity for them.
fn lengthen(bytes: &mut Vec<u8>, least: usize)
    requires { least ≤ vec_capacity bytes.old }
    ensures least { least ≤ length bytes.new.items }
    ensures longer { length bytes.old.items ≤ length bytes.new.items }
    ensures within { (n : ℕ) → length bytes.old.items ≤ n → least ≤ n → length bytes.new.items ≤ n }
    ensures capacity { vec_capacity bytes.old ≤ vec_capacity bytes.new }
{
    if bytes.len() >= least {
        return;
    }
    match bytes.resize(least, 0) {
        Ok(()) => {}
        Err(_) => unreachable!(),
    }
}

// Writes the first record to the front.
fn put_first(out: &mut Vec<u8>, first: &[u8])
    requires room { length first.now ≤ length out.old.items }
    ensures front { take (length first.now) out.new.items ≡ first.now }
    ensures room { length out.new.items ≡ length out.old.items }
    ensures capacity { vec_capacity out.new ≡ vec_capacity out.old }
{
    let (front, _) = out.split_at_mut(first.len());
    front.copy_from_slice(first);
}

impl Workspace {
    /// Initial models for a point format, 0 to 3, with 0 to 192 extra bytes a record. `Err` means out of memory.
    pub fn new(alloc: Global, format: u8, extra: u16) -> Result<Self, AllocError>
        requires known { format < 4 }
        requires few { extra < 193 }
        ensures { IfOk result (λ w. w ≡ record { format = format; extra = extra }) }
    {
        let mut items = Items {
            point10: Point10::new(alloc)?,
            gps_time: None,
            rgb: None,
            extra: None,
        };
        add_items(&mut items, alloc, format, extra)?;
        Ok(Workspace {
            format,
            extra,
            items,
            alloc,
        })
    }

    /// Packs one or more whole records to the front of `out`, and answers how many bytes that are. `out` keeps its
    /// length, and has at least `room_for` bytes.
    pub fn pack(&mut self, records: &[u8], out: &mut Vec<u8>) -> usize
        requires some { record_length (layout self.old) ≤ length records.now }
        requires whole { length records.now % record_length (layout self.old) ≡ 0 }
        requires room { room_for (layout self.old) (count_of (layout self.old) records.now) ≤ length out.old.items }
        ensures bytes { take result out.new.items ≡ chunk_bytes (layout self.old) records.now }
        ensures count { result ≡ length (chunk_bytes (layout self.old) records.now) }
        ensures room { length out.new.items ≡ length out.old.items }
        ensures same { self.new ≡ self.old }
    {
        let limit = out.len();
        self.pack_within(records, out, limit)
    }

    /// The same as [`pack`](Self::pack), but `out` may be shorter at first. It is lengthened as far as is needed, and to
    /// no more than `limit` bytes, which are at least `room_for`. There is capacity for that many.
    pub fn pack_within(&mut self, records: &[u8], out: &mut Vec<u8>, limit: usize) -> usize
        requires some { record_length (layout self.old) ≤ length records.now }
        requires whole { length records.now % record_length (layout self.old) ≡ 0 }
        requires room { room_for (layout self.old) (count_of (layout self.old) records.now) ≤ limit }
        requires within { length out.old.items ≤ limit }
        requires capacity { limit ≤ vec_capacity out.old }
        ensures bytes { take result out.new.items ≡ chunk_bytes (layout self.old) records.now }
        ensures count { result ≡ length (chunk_bytes (layout self.old) records.now) }
        ensures longer { length out.old.items ≤ length out.new.items }
        ensures within { length out.new.items ≤ limit }
        ensures capacity { limit ≤ vec_capacity out.new }
        ensures same { self.new ≡ self.old }
    {
        let size = record_length(self.format, self.extra);
        lengthen(out, size + 4);
        let (first, rest) = records.split_at(size);
        start_record(&mut self.items, first);
        put_first(out, first);
        let mut encoder = Encoder::within(mem::replace(out, Vec::new(self.alloc)), size, limit);
        put_records(
            &mut encoder,
            &mut self.items,
            rest,
            size,
            records.len() / size - 1,
            3 * (38 + self.extra as usize),
        );
        let (room, count) = encoder.finish();
        *out = room;
        size + count
    }

    /// Unpacks `count` records, at least 1, into `out`, which is exactly as long. `Bad` means that the bytes hold no
    /// list of this many records; `out` is then unspecified, and the workspace serves the next chunk.
    pub fn unpack(&mut self, bytes: &[u8], count: u32, out: &mut [u8]) -> Result<(), Bad>
        requires some { 1 ≤ count }
        requires out { length out.old ≡ record_length (layout self.old) * count }
        ensures length { length out.new ≡ length out.old }
        ensures same { self.new ≡ self.old }
        ensures holds { OnOk result (Holds (layout self.old) bytes.now out.new) }
        ensures only { OnOk result
            ((records : List ℕ) → AreRecords (layout self.old) count records → Holds (layout self.old) bytes.now records
            → records ≡ out.new) }
        ensures bad { OnErr result
            ((records : List ℕ) → AreRecords (layout self.old) count records → Holds (layout self.old) bytes.now records
            → ⊥) }
    {
        let size = record_length(self.format, self.extra);
        if bytes.len() < size {
            return Err(Bad);
        }
        let (first, stream) = bytes.split_at(size);
        start_record(&mut self.items, first);
        let (front, rest) = out.split_at_mut(size);
        front.copy_from_slice(first);
        let mut decoder = Decoder::new(stream)?;
        take_records(
            &mut decoder,
            &mut self.items,
            rest,
            size,
            count as usize - 1,
        )?;
        if decoder.at_end() {
            return Ok(());
        }
        Err(Bad)
    }
}
