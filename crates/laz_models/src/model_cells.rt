//! The cells of one model: its counts, its starts, and its look-up table.
ghost use Rattle.std.specs.Prelude.{◌≡◌, ℕ, ◌+◌, ◌-◌, ◌*◌, ◌/◌, ◌<◌, ◌≤◌, ◌^◌, true, [], ◌∷◌, length, sum, All, IfOk};
ghost use Rattle.std.specs.Prelude.{replicate};
ghost use Rattle.std.specs.Prelude.{slice_index};
ghost use Rattle.laz_models.specs.Counting.{halves_of, starts_of, AreCounts, AreStarts, after_symbol, new_cycle};
ghost use Rattle.laz_models.specs.Counting.{small_counts, new_model};
ghost use Rattle.laz_models.specs.Lookup.{AreMarked, HaveBegun, IsLastAt, first_entry, search_bits};
ghost use Rattle.laz_models.specs.Place.{counts_in, dist_in, starts_in, laid_state, counting_of, IsDist, IsTable};
ghost use Rattle.laz_models.specs.Place.{IsDue, IsEven, IsLaid, IsModel, IsShaped, SamePlace, dist_extent, extent};

use crate::limits::{GUARD, MAX_COUNT, MAX_SYMBOLS, SYMBOL_PARTS};
use crate::place::Place;
use std::alloc::{AllocError, Global};

/// Halves each count and rounds it up.
fn halve(counts: &mut [u16])
    requires { All (λ c. c + 1 < 2 ^ 16) counts.old }
    ensures { counts.new ≡ halves_of counts.old }
{
    for count in counts.iter_mut() {
        *count = (*count + 1) >> 1;
    }
}

/// The sum of the counts.
fn total_of(counts: &[u16]) -> u32
    requires { sum counts.now < 2 ^ 32 }
    ensures { result ≡ sum counts.now }
{
    let mut total = 0;
    for count in counts {
        total += *count as u32;
    }
    total
}

/// Writes the start of each symbol's part.
fn write_starts(starts: &mut [u16], counts: &[u16], total: u32)
    requires lengths { length starts.old ≡ length counts.now }
    requires total { total ≡ sum counts.now }
    requires some { 0 < total }
    ensures { starts.new ≡ starts_of counts.now }
{
    let unit = 0x8000_0000 / total;
    let mut below = 0;
    for i in 0..counts.len() {
        starts[i] = ((unit * below) >> 16) as u16;
        below += counts[i] as u32;
    }
}

/// The first entry of a look-up table at whose place a part that begins at `start` has begun.
#[inline(always)]
fn first_entry(start: u32, shift: u32) -> u32
    requires start { start < SYMBOL_PARTS }
    requires shift { shift ≤ 12 }
    ensures { result ≡ first_entry start shift }
{
    (start + ((1 << shift) - 1)) >> shift
}

/// Writes each symbol to the first entry at whose place its part has begun. If there are several, the last one stays.
fn mark(table: &mut [u16], starts: &[u16], shift: u32)
    requires some { 0 < length starts.now }
    requires few { length starts.now ≤ MAX_SYMBOLS }
    requires starts { AreStarts (length starts.now) starts.now }
    requires shift { shift ≤ 12 }
    requires empty { (t : ℕ) → t < length table.old → slice_index table.old t ≡ 0 }
    ensures begun { HaveBegun starts.now shift table.new }
    ensures marked { AreMarked (length starts.now) starts.now shift table.new }
{
    for s in 0..starts.len() {
        let entry = first_entry(starts[s] as u32, shift) as usize;
        if entry < table.len() {
            table[entry] = s as u16;
        }
    }
}

/// Writes the look-up table.
// Symbols are marked and spread over the entries after them. A search of each entry's symbol would branch on how many
// symbols begin at it, which nothing foresees.
fn write_table(table: &mut [u16], starts: &[u16], shift: u32)
    requires some { 0 < length starts.now }
    requires few { length starts.now ≤ MAX_SYMBOLS }
    requires starts { AreStarts (length starts.now) starts.now }
    requires shift { shift ≤ 12 }
    requires places { length table.old * 2 ^ shift < 2 ^ 17 }
    ensures { (t : ℕ) → t < length table.new → IsLastAt starts.now (t * 2 ^ shift) (slice_index table.new t) }
{
    table.fill(0);
    mark(table, starts, shift);
    let mut last = 0;
    for t in 0..table.len() {
        last = table[t].max(last);
        table[t] = last;
    }
}

/// Writes the look-up table if `index` is set.
fn write_table_if(table: &mut [u16], starts: &[u16], shift: u32, index: bool)
    requires some { 0 < length starts.now }
    requires few { length starts.now ≤ MAX_SYMBOLS }
    requires starts { AreStarts (length starts.now) starts.now }
    requires shift { shift ≤ 12 }
    requires places { length table.old * 2 ^ shift < 2 ^ 17 }
    ensures { index ≡ true
        → (t : ℕ) → t < length table.new → IsLastAt starts.now (t * 2 ^ shift) (slice_index table.new t) }
{
    if index {
        write_table(table, starts, shift);
    }
}

/// Writes the two guards after the starts.
fn write_guards(guards: &mut [u16])
    requires { length guards.old ≡ 2 }
    ensures { guards.new ≡ replicate 2 GUARD }
{
    guards.fill(GUARD as u16);
}

/// Writes the starts of a model, the guards after them, and its look-up table if `index` is set.
fn write_distribution(cells: &mut [u16], size: usize, shift: u32, total: u32, index: bool)
    requires counts { AreCounts (counts_in size cells.old) }
    requires length { length cells.old ≡ extent size }
    requires total { total ≡ sum (counts_in size cells.old) }
    requires small { total ≤ MAX_COUNT }
    requires shift { shift ≡ 15 - search_bits size }
    ensures counts { counts_in size cells.new ≡ counts_in size cells.old }
    ensures starts { starts_in size (dist_in size cells.new) ≡ starts_of (counts_in size cells.old) }
    ensures good { IsDist size (dist_in size cells.new) }
    ensures table { index ≡ true → IsTable size shift (dist_in size cells.new) }
{
    let (counts, rest) = cells.split_at_mut(size);
    let (starts, rest) = rest.split_at_mut(size);
    let (guards, table) = rest.split_at_mut(2);
    write_starts(starts, counts, total);
    write_guards(guards);
    write_table_if(table, starts, shift, index);
}

/// Halves the counts of a model if their sum is above 2^15. Returns their sum.
fn limit_counts(cells: &mut [u16], size: usize, total: u32) -> u32
    requires length { size ≤ length cells.old }
    requires counts { AreCounts (counts_in size cells.old) }
    requires total { sum (counts_in size cells.old) ≡ total }
    requires small { total ≤ 50000 }
    ensures small_counts { counts_in size cells.new ≡ small_counts (counts_in size cells.old) }
    ensures good { AreCounts (counts_in size cells.new) }
    ensures total { result ≡ sum (counts_in size cells.new) }
    ensures small { result ≤ MAX_COUNT }
{
    if total <= MAX_COUNT {
        return total;
    }
    let (counts, _) = cells.split_at_mut(size);
    halve(counts);
    total_of(counts)
}

/// Ends the cycle of a model and begins the next one, with a look-up table if `index` is set.
fn begin_cycle(cells: &mut [u16], place: &mut Place, index: bool)
    requires shape { IsShaped place.old }
    requires length { length cells.old ≡ extent place.old.size }
    requires due { IsDue place.old cells.old }
    ensures new_cycle { laid_state place.new cells.new
        ≡ new_cycle (counts_in place.old.size cells.old) place.old.cycle }
    ensures good { IsLaid place.new cells.new }
    ensures place { SamePlace place.old place.new }
{
    let size = place.size as usize;
    place.total = limit_counts(cells, size, place.total + place.cycle);
    write_distribution(cells, size, place.shift, place.total, index);
    place.dist = place.start + size;
    place.indexed = index;
    place.even = false;
    place.cycle = (8 * (place.size + 6)).min((5 * place.cycle) >> 2);
    place.remaining = place.cycle;
}

/// Writes counts of 1.
fn fill_ones(cells: &mut [u16], size: usize)
    requires length { size ≤ length cells.old }
    ensures { counts_in size cells.new ≡ replicate size 1 }
{
    let (counts, _) = cells.split_at_mut(size);
    counts.fill(1);
}

/// Writes the counts and the distribution of a new model of `size` symbols.
fn write_even(cells: &mut [u16], size: u32, bits: u32)
    requires many { 2 ≤ size }
    requires few { size ≤ MAX_SYMBOLS }
    requires bits { bits ≡ search_bits size }
    requires length { length cells.old ≡ extent size }
    ensures { IsEven size (dist_in size cells.new) }
{
    fill_ones(cells, size as usize);
    write_distribution(cells, size as usize, 15 - bits, size, true);
}

/// The cells of a new model of `size` symbols with its distribution. `bits` bits of a place choose an entry.
pub fn even_cells(alloc: Global, size: u32, bits: u32) -> Result<Vec<u16>, AllocError>
    requires many { 2 ≤ size }
    requires few { size ≤ MAX_SYMBOLS }
    requires bits { bits ≡ search_bits size }
    ensures length { IfOk result (λ cells. length cells.items ≡ extent size) }
    ensures even { IfOk result (λ cells. IsEven size (dist_in size cells.items)) }
{
    let counts = size as usize;
    let mut cells = vec![in alloc; 0; 2 * counts + 2 + (1 << bits)]?;
    write_even(&mut cells, size, bits);
    Ok(cells)
}

/// Lays out the counts of a new model. Its distribution is that of all new models of its size.
fn lay_out(cells: &mut [u16], place: &mut Place)
    requires shape { IsShaped place.old }
    requires length { length cells.old ≡ extent place.old.size }
    requires even { place.old.even ≡ true }
    requires dist { place.old.dist ≡ place.old.first }
    ensures new_model { laid_state place.new cells.new ≡ new_model place.old.size }
    ensures good { IsLaid place.new cells.new }
    ensures place { SamePlace place.old place.new }
{
    fill_ones(cells, place.size as usize);
    place.total = place.size;
    place.cycle = (place.size + 6) >> 1;
    place.remaining = place.cycle;
}

/// Lays the counts of a model out if it is new.
fn lay_out_if_new(cells: &mut [u16], place: &mut Place)
    requires model { IsModel place.old cells.old }
    requires length { length cells.old ≡ extent place.old.size }
    ensures state { laid_state place.new cells.new ≡ counting_of place.old cells.old }
    ensures good { IsLaid place.new cells.new }
    ensures place { SamePlace place.old place.new }
{
    if place.remaining == 0 {
        lay_out(cells, place);
    }
}

/// Counts a symbol of a model that is laid out.
fn add(cells: &mut [u16], place: &mut Place, s: u32, index: bool)
    requires shape { IsShaped place.old }
    requires length { length cells.old ≡ extent place.old.size }
    requires laid { IsLaid place.old cells.old }
    requires symbol { s < place.old.size }
    ensures after_symbol { laid_state place.new cells.new ≡ after_symbol (laid_state place.old cells.old) s }
    ensures good { IsLaid place.new cells.new }
    ensures place { SamePlace place.old place.new }
{
    cells[s as usize] += 1;
    place.remaining -= 1;
    if place.remaining == 0 {
        begin_cycle(cells, place, index);
    }
}

/// Counts a symbol. `index` says whether a look-up table is written if a cycle begins.
pub fn count(cells: &mut [u16], place: &mut Place, s: u32, index: bool)
    requires model { IsModel place.old cells.old }
    requires length { length cells.old ≡ extent place.old.size }
    requires symbol { s < place.old.size }
    ensures after_symbol { counting_of place.new cells.new ≡ after_symbol (counting_of place.old cells.old) s }
    ensures good { IsModel place.new cells.new }
    ensures place { SamePlace place.old place.new }
{
    lay_out_if_new(cells, place);
    add(cells, place, s, index);
}
