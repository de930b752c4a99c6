//! The questions that a model answers about its distribution.
ghost use Rattle.std.specs.Prelude.{◌≡◌, true, ◌+◌, ◌-◌, ◌*◌, ◌/◌, ◌<◌, ◌≤◌, ◌^◌, length, slice_index};
ghost use Rattle.laz_models.specs.Counting.{part_end, AreStarts};
ghost use Rattle.laz_models.specs.Lookup.{IsLastAt, start_or_guard, table_bits, search_bits};
ghost use Rattle.laz_models.specs.Near.{IsNear};
ghost use Rattle.laz_models.specs.Place.{starts_in, counting_in, IsPlaced, IsDist, IsFirst, IsTable};

use crate::limits::{MAX_SYMBOLS, SYMBOL_PARTS};
use crate::near::Near;
use crate::place::Place;

/// The cells of a model's distribution.
#[inline(always)]
fn distribution<'a>(cells: &'a [u16], place: &Place) -> &'a [u16]
    requires placed { IsPlaced place.now cells.now }
    requires first { IsFirst place.now.size place.now.first cells.now }
    ensures dist { IsDist place.now.size result.now }
    ensures starts { starts_in place.now.size result.now ≡ (counting_in cells.now place.now).starts }
    ensures table { place.now.indexed ≡ true → IsTable place.now.size place.now.shift result.now }
{
    let length = place.end - place.start - place.size as usize;
    &cells[place.dist..place.dist + length]
}

/// The start of a symbol's part, and the start of the next one, or the guard after the last one.
#[inline(always)]
pub fn bounds(cells: &[u16], place: &Place, s: u32) -> (u32, u32)
    requires placed { IsPlaced place.now cells.now }
    requires first { IsFirst place.now.size place.now.first cells.now }
    requires symbol { s < place.now.size }
    ensures start { result.0 ≡ slice_index (counting_in cells.now place.now).starts s }
    ensures next { result.1 ≡ start_or_guard (counting_in cells.now place.now).starts (s + 1) }
{
    let dist = distribution(cells, place);
    let at = s as usize;
    (dist[at] as u32, dist[at + 1] as u32)
}

/// The part of a symbol, of 2^15 parts.
#[inline]
pub fn part(cells: &[u16], place: &Place, s: u32) -> (u32, u32)
    requires placed { IsPlaced place.now cells.now }
    requires first { IsFirst place.now.size place.now.first cells.now }
    requires symbol { s < place.now.size }
    ensures start { result.0 ≡ slice_index (counting_in cells.now place.now).starts s }
    ensures end { result.1 ≡ part_end (counting_in cells.now place.now).starts s }
{
    let (start, next) = bounds(cells, place, s);
    (start, next.min(SYMBOL_PARTS))
}

/// `half` if `start` is at most `v`, else 0.
///
/// It is a shift by the top five bits of the difference, which are all set if the difference is negative. A branch
/// would be mispredicted about half of the time.
#[inline]
fn step(half: u32, start: u32, v: u32) -> u32
    requires half { half < 2 ^ 31 }
    requires start { start < SYMBOL_PARTS }
    requires v { v < SYMBOL_PARTS }
    ensures begun { start ≤ v → result ≡ half }
    ensures above { v < start → result ≡ 0 }
{
    half >> (v.wrapping_sub(start) >> 27)
}

/// The last symbol from `low` on and below `high` whose part begins at `v` or below.
#[inline]
fn bisect(starts: &[u16], low: u32, high: u32, v: u32) -> u32
    requires few { length starts.now ≤ MAX_SYMBOLS }
    requires starts { AreStarts (length starts.now) starts.now }
    requires order { low < high }
    requires within { high ≤ length starts.now }
    requires start { slice_index starts.now low ≤ v }
    requires below { v < SYMBOL_PARTS }
    requires end { high < length starts.now → v < slice_index starts.now high }
    ensures { IsLastAt starts.now v result }
{
    let mut low = low;
    let mut width = high - low;
    while width > 1 {
        let half = width / 2;
        low += step(half, starts[(low + half) as usize] as u32, v);
        width -= half;
    }
    low
}

/// The last symbol whose part begins at `v` or below, by the cells of a distribution.
// It is out of line, and answers in a register, so that the state of a decoder may stay in registers.
#[inline(never)]
fn last_at(dist: &[u16], size: u32, v: u32) -> u32
    requires many { 2 ≤ size }
    requires few { size ≤ MAX_SYMBOLS }
    requires dist { IsDist size dist.now }
    ensures { IsLastAt (starts_in size dist.now) v result }
{
    if v >= SYMBOL_PARTS {
        return size - 1;
    }
    bisect(&dist[..size as usize], 0, size, v)
}

/// The last symbol whose part begins at `v` or below.
#[inline]
pub fn find(cells: &[u16], place: &Place, v: u32) -> u32
    requires placed { IsPlaced place.now cells.now }
    requires first { IsFirst place.now.size place.now.first cells.now }
    ensures { IsLastAt (counting_in cells.now place.now).starts v result }
{
    last_at(distribution(cells, place), place.size, v)
}

/// A symbol with the starts of its part and of the next two.
#[inline(always)]
fn near_of(dist: &[u16], symbol: u32) -> Near
    requires { symbol + 2 < length dist.now }
    ensures symbol { result.symbol ≡ symbol }
    ensures start { result.start ≡ slice_index dist.now symbol }
    ensures next { result.next ≡ slice_index dist.now (symbol + 1) }
    ensures after { result.after ≡ slice_index dist.now (symbol + 2) }
{
    let at = symbol as usize;
    Near {
        symbol,
        start: dist[at] as u32,
        next: dist[at + 1] as u32,
        after: dist[at + 2] as u32,
    }
}

/// Where a search begins, by the starts alone.
#[inline(always)]
pub fn near_without_table(cells: &[u16], place: &Place, v: u32) -> Near
    requires placed { IsPlaced place.now cells.now }
    requires first { IsFirst place.now.size place.now.first cells.now }
    ensures { IsNear (counting_in cells.now place.now).starts v result }
{
    let dist = distribution(cells, place);
    near_of(dist, last_at(dist, place.size, v))
}

/// Where a search begins, by an entry of the look-up table of a distribution.
#[inline(always)]
fn near_in_table(dist: &[u16], size: u32, shift: u32, entry: u64) -> Near
    requires few { size ≤ MAX_SYMBOLS }
    requires dist { IsDist size dist.now }
    requires table { IsTable size shift dist.now }
    requires entry { entry < 2 ^ search_bits size }
    ensures { IsNear (starts_in size dist.now) (entry * 2 ^ shift) result }
{
    let table = &dist[size as usize + 2..];
    near_of(dist, table[entry as usize] as u32)
}

/// Where a search begins: at the last symbol whose part begins at the place of entry `entry` or below.
#[inline(always)]
pub fn near(cells: &[u16], place: &Place, entry: u64) -> Near
    requires placed { IsPlaced place.now cells.now }
    requires first { IsFirst place.now.size place.now.first cells.now }
    requires entry { entry < 2 ^ search_bits place.now.size }
    ensures { IsNear (counting_in cells.now place.now).starts (entry * 2 ^ (15 - search_bits place.now.size)) result }
{
    if place.indexed {
        let dist = distribution(cells, place);
        return near_in_table(dist, place.size, place.shift, entry);
    }
    near_without_table(cells, place, (entry as u32) << place.shift)
}

/// A symbol with the starts of its part and of the next two.
#[inline(always)]
pub fn near_symbol(cells: &[u16], place: &Place, s: u32) -> Near
    requires placed { IsPlaced place.now cells.now }
    requires first { IsFirst place.now.size place.now.first cells.now }
    requires symbol { s < place.now.size }
    ensures symbol { result.symbol ≡ s }
    ensures near { let starts = (counting_in cells.now place.now).starts in IsNear starts (slice_index starts s) result }
{
    near_of(distribution(cells, place), s)
}

/// How many bits of a place choose an entry of the look-up table of LASzip.
fn table_bits(size: u32) -> u32
    requires few { size ≤ MAX_SYMBOLS }
    ensures { result ≡ table_bits size }
{
    match size {
        ..=32 => 3,
        ..=64 => 4,
        ..=128 => 5,
        ..=256 => 6,
        ..=512 => 7,
        ..=1024 => 8,
        _ => 9,
    }
}

/// An entry of the look-up table of LASzip. The table that is kept has as many entries or more.
#[inline]
pub fn entry(cells: &[u16], place: &Place, t: u32) -> u32
    requires placed { IsPlaced place.now cells.now }
    requires first { IsFirst place.now.size place.now.first cells.now }
    requires entry { t ≤ 2 ^ table_bits place.now.size }
    ensures { IsLastAt (counting_in cells.now place.now).starts (t * 2 ^ (15 - table_bits place.now.size)) result }
{
    let bits = table_bits(place.size);
    if t == 1 << bits {
        return find(cells, place, SYMBOL_PARTS);
    }
    near(cells, place, (t as u64) << (15 - bits - place.shift)).symbol
}
