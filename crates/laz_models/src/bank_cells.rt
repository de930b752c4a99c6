//! The cells of all models of a bank.
ghost use Rattle.std.specs.Prelude.{◌≡◌, true, ◌+◌, ◌-◌, ◌^◌, ◌<◌, ◌≤◌, ◌++◌, length, map, replicate, All, IfOk, vec_capacity};
ghost use Rattle.laz_models.specs.Counting.{after_symbol};
ghost use Rattle.laz_models.specs.Lookup.{search_bits};
ghost use Rattle.laz_models.specs.Place.{counting_in, as_new, dist_extent, AreFirst, EndWithin, IsApart, IsFirst, IsLayout, IsPlaced};
ghost use Rattle.laz_models.specs.Place.{IsShaped};
ghost use Rattle.laz_models.specs.Place.{SameOutside, SamePlace};

use crate::limits::{MAX_MODELS, MAX_SYMBOLS};
use crate::model_cells::{self, even_cells};
use crate::place::Place;
use std::alloc::{AllocError, Global};

/// How many bits of a place choose the symbol from which a search begins.
fn search_bits(size: u32) -> u32
    requires few { size ≤ MAX_SYMBOLS }
    ensures { result ≡ search_bits size }
{
    match size {
        ..=8 => 3,
        ..=16 => 4,
        ..=32 => 5,
        ..=64 => 6,
        ..=128 => 7,
        ..=256 => 8,
        ..=512 => 9,
        ..=1024 => 10,
        _ => 11,
    }
}

/// The place of a new model whose cells begin at `start`.
fn first_place(start: usize, first: usize, size: u32) -> Place
    requires many { 2 ≤ size }
    requires few { size ≤ MAX_SYMBOLS }
    requires room { start < 2 ^ 32 }
    ensures start { result.start ≡ start }
    ensures first { result.first ≡ first }
    ensures size { result.size ≡ size }
    ensures remaining { result.remaining ≡ 0 }
    ensures dist { result.dist ≡ first }
    ensures even { result.even ≡ true }
    ensures shape { IsShaped result }
{
    let bits = search_bits(size);
    Place {
        start,
        end: start + 2 * size as usize + 2 + (1 << bits),
        first,
        dist: first,
        size,
        shift: 15 - bits,
        total: 0,
        cycle: 0,
        indexed: true,
        even: true,
        remaining: 0,
    }
}

/// Where the models of a bank lie, and those cells that are written when it is made.
#[derive(Drop)]
pub struct Layout {
    /// The places of the models, one after another.
    pub places: Vec<Place>,
    /// The cells of the models, and between them the distributions of new ones, one for each run of models of the same
    /// size. After the last of these there is capacity for the cells of the models that follow.
    pub cells: Vec<u16>,
}

/// Where the distribution of a new model of `size` symbols lies. If the model before has another size, it is written
/// from `end` on, after the cells of all models before.
fn first_of(
    alloc: Global,
    cells: &mut Vec<u16>,
    places: &[Place],
    size: u32,
    end: usize,
) -> Result<usize, AllocError>
    requires many { 2 ≤ size }
    requires few { size ≤ MAX_SYMBOLS }
    requires within { EndWithin places.now end }
    requires short { length cells.old.items ≤ end }
    requires near { end < 2 ^ 32 }
    requires firsts { AreFirst places.now cells.old.items }
    ensures first { IfOk result (λ first. IsFirst size first cells.new.items) }
    ensures apart { IfOk result (λ first. IsApart size first places.now) }
    ensures firsts { IfOk result (λ _. AreFirst places.now cells.new.items) }
    ensures few_more { IfOk result (λ _. length cells.new.items ≤ end + dist_extent size) }
{
    if let Some(last) = places.last() {
        if last.size == size {
            return Ok(last.first);
        }
    }
    let even = even_cells(alloc, size, search_bits(size))?;
    cells.resize(end, 0)?;
    cells.extend_from_slice(&even[size as usize..])?;
    Ok(end)
}

/// The places of new models, one after another, and capacity for their cells.
pub fn lay_out(alloc: Global, sizes: &[u32]) -> Result<Layout, AllocError>
    requires few { length sizes.now ≤ MAX_MODELS }
    requires range { All (λ n. (2 ≤ n) × (n ≤ MAX_SYMBOLS)) sizes.now }
    ensures layout { IfOk result (λ layout. IsLayout layout.places.items sizes.now (vec_capacity layout.cells)) }
    ensures firsts { IfOk result (λ layout. AreFirst layout.places.items layout.cells.items) }
{
    let mut places = Vec::with_capacity(alloc, sizes.len())?;
    let mut cells = Vec::new(alloc);
    let mut end = 0;
    for size in sizes {
        let first = first_of(alloc, &mut cells, &places, *size, end)?;
        let place = first_place(cells.len().max(end), first, *size);
        end = place.end;
        places.push(place)?;
    }
    let more = end - cells.len();
    cells.reserve_exact(more)?;
    Ok(Layout { places, cells })
}

/// Resets all models to new ones.
fn reset_places(places: &mut [Place])
    ensures { places.new ≡ map as_new places.old }
{
    for place in places.iter_mut() {
        place.dist = place.first;
        place.indexed = true;
        place.even = true;
        place.remaining = 0;
    }
}

/// Resets all models to new ones.
pub fn reset_all(places: &mut Vec<Place>)
    ensures { places.new.items ≡ map as_new places.old.items }
{
    reset_places(places);
}

/// Writes zeros after cells until there are at least this many. There is capacity for them.
fn lengthen(cells: &mut Vec<u16>, least: usize)
    requires { least ≤ vec_capacity cells.old }
    ensures items { cells.new.items ≡ cells.old.items ++ replicate (least - length cells.old.items) 0 }
    ensures capacity { vec_capacity cells.old ≤ vec_capacity cells.new }
{
    if cells.len() >= least {
        return;
    }
    match cells.resize(least, 0) {
        Ok(()) => {}
        Err(_) => unreachable!(),
    }
}

/// Counts a symbol of the model at a place, whose cells are there. `index` says whether a look-up table is written if a
/// cycle begins.
fn count_within(cells: &mut Vec<u16>, place: &mut Place, s: u32, index: bool)
    requires placed { IsPlaced place.old cells.old.items }
    requires within { place.old.end ≤ length cells.old.items }
    requires symbol { s < place.old.size }
    ensures after_symbol { counting_in cells.new.items place.new
        ≡ after_symbol (counting_in cells.old.items place.old) s }
    ensures good { IsPlaced place.new cells.new.items }
    ensures place { SamePlace place.old place.new }
    ensures others { SameOutside place.old.start place.old.end cells.old.items cells.new.items }
    ensures capacity { vec_capacity cells.old ≤ vec_capacity cells.new }
{
    let own = &mut cells[place.start..place.end];
    model_cells::count(own, place, s, index);
}

/// Counts a symbol of the model at a place, if the model is new or the symbol is the last of its cycle. `index` says
/// whether a look-up table is written for the next cycle.
#[cold]
#[inline(never)]
fn count_at_cycle_end(cells: &mut Vec<u16>, place: &mut Place, s: u32, index: bool)
    requires placed { IsPlaced place.old cells.old.items }
    requires room { place.old.end ≤ vec_capacity cells.old }
    requires symbol { s < place.old.size }
    ensures after_symbol { counting_in cells.new.items place.new
        ≡ after_symbol (counting_in cells.old.items place.old) s }
    ensures good { IsPlaced place.new cells.new.items }
    ensures place { SamePlace place.old place.new }
    ensures others { SameOutside place.old.start place.old.end cells.old.items cells.new.items }
    ensures capacity { vec_capacity cells.old ≤ vec_capacity cells.new }
{
    lengthen(cells, place.end);
    count_within(cells, place, s, index);
}

/// Counts a symbol of the model at a place. `index` says whether a look-up table is written if a cycle begins.
#[inline(always)]
pub fn count_at(cells: &mut Vec<u16>, place: &mut Place, s: u32, index: bool)
    requires placed { IsPlaced place.old cells.old.items }
    requires room { place.old.end ≤ vec_capacity cells.old }
    requires symbol { s < place.old.size }
    ensures after_symbol { counting_in cells.new.items place.new
        ≡ after_symbol (counting_in cells.old.items place.old) s }
    ensures good { IsPlaced place.new cells.new.items }
    ensures place { SamePlace place.old place.new }
    ensures others { SameOutside place.old.start place.old.end cells.old.items cells.new.items }
    ensures capacity { vec_capacity cells.old ≤ vec_capacity cells.new }
{
    if place.remaining <= 1 {
        count_at_cycle_end(cells, place, s, index);
        return;
    }
    cells[place.start + s as usize] += 1;
    place.remaining -= 1;
}
