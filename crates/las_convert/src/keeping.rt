//! The records of one block that are kept.
ghost use Rattle.std.specs.Prelude.{◌≡◌, ◌↔◌, ◌+◌, ◌/◌, ◌%◌, ◌^◌, ◌≤◌, ◌<◌, ◌++◌, ◌∷◌, [], ℕ, List};
ghost use Rattle.std.specs.Prelude.{All, IfOk, IsErr, OnOk, None, Some, false, length};
ghost use Rattle.las_header.specs.Plain.{cut_all};
ghost use Rattle.las_filter.specs.Changes.{HasClass, changed};
ghost use Rattle.las_filter.specs.Kept.{steps_of};
ghost use Rattle.las_thin.specs.Kept.{passing};
ghost use Rattle.las_thin.specs.Placed.{Placed};
ghost use Rattle.las_thin.specs.Sieving.{HasSifted};
ghost use Rattle.las_convert.specs.Adding.{Adds, AddsAlways, AfterAny, AfterSome, HoldsKept, OfSieve, ComesBy};
ghost use Rattle.las_convert.specs.Adding.{kept_by};
ghost use Rattle.las_convert.specs.Passing.{passes_after};

use las_filter::{Plan, RawRange};
use las_header::POINT_RECORD;
use las_thin::Sieve;
use std::alloc::AllocError;

/// What was kept of records: how many bytes or records, and whether the change of the next one that passes is refused.
#[derive(Clone, Copy)]
pub(crate) struct Part {
    pub(crate) length: usize,
    pub(crate) refused: bool,
}

// Puts a record into a place of its length, and changes it there.
fn put_changed(plan: &Plan, point: &[u8], place: &mut [u8]) -> Result<(), RawRange>
    requires long { POINT_RECORD ≤ length point.now }
    requires room { length place.old ≡ length point.now }
    requires classes { All HasClass plan.now.changes.items }
    ensures made { OnOk result (changed plan.now.changes.items point.now ≡ Some place.new) }
    ensures size { length place.new ≡ length point.now }
    ensures refused { IsErr result ↔ (changed plan.now.changes.items point.now ≡ None) }
{
    place.copy_from_slice(point);
    plan.change(place)
}

// Copies the records of this size of a block that a plan keeps to the front of a buffer, changed, up to the first whose
// change is refused. It is inlined for each size that is a constant, so that a record is copied by a few moves.
#[inline(always)]
fn keep_sized(plan: &Plan, size: usize, block: &[u8], buffer: &mut [u8]) -> Part
    requires size { POINT_RECORD ≤ size }
    requires whole { length block.now % size ≡ 0 }
    requires room { length block.now ≤ length buffer.old }
    requires classes { All HasClass plan.now.changes.items }
    ensures within { result.length ≤ length block.now }
    ensures kept { HoldsKept (AddsAlways (steps_of plan.now) (cut_all size block.now)) buffer.new size result }
{
    let mut rest = block;
    let mut at = 0;
    for _turn in 0..block.len() / size {
        let (point, further) = rest.split_at(size);
        if plan.keeps(point) {
            match put_changed(plan, point, &mut buffer[at..at + size]) {
                Ok(()) => at += size,
                Err(_) => {
                    return Part {
                        length: at,
                        refused: true,
                    };
                }
            }
        }
        rest = further;
    }
    Part {
        length: at,
        refused: false,
    }
}

// The same, by the sizes that are constants.
fn keep_plain(plan: &Plan, size: usize, block: &[u8], buffer: &mut [u8]) -> Part
    requires size { POINT_RECORD ≤ size }
    requires whole { length block.now % size ≡ 0 }
    requires room { length block.now ≤ length buffer.old }
    requires classes { All HasClass plan.now.changes.items }
    ensures within { result.length ≤ length block.now }
    ensures kept { HoldsKept (AddsAlways (steps_of plan.now) (cut_all size block.now)) buffer.new size result }
{
    match size {
        20 => keep_sized(plan, 20, block, buffer),
        26 => keep_sized(plan, 26, block, buffer),
        28 => keep_sized(plan, 28, block, buffer),
        34 => keep_sized(plan, 34, block, buffer),
        _ => keep_sized(plan, size, block, buffer),
    }
}

// Whether a record passes the filters of a plan, and then a sieve, which is not asked otherwise. Its place is its
// number among the records, those included that the filters drop. `Err` means out of memory.
fn passes(plan: &Plan, sieve: &mut Sieve, place: u64, point: &[u8]) -> Result<bool, AllocError>
    requires long { POINT_RECORD ≤ length point.now }
    requires asked { (looked : List Placed) × (before : List (List ℕ)) × (length before ≡ place)
        × HasSifted looked (passing (steps_of plan.now) before) sieve.old }
    ensures settings { sieve.new.settings ≡ sieve.old.settings }
    ensures answer { OfSieve (steps_of plan.now) sieve.old place (λ looked before. IfOk result
        (λ passes. passes ≡ passes_after sieve.old.settings looked (steps_of plan.now) before point.now)) }
    ensures stands { OfSieve (steps_of plan.now) sieve.old place (λ looked before. OnOk result
        (HasSifted looked (passing (steps_of plan.now) (before ++ point.now ∷ [])) sieve.new)) }
{
    if plan.keeps(point) {
        return sieve.passes(place, point);
    }
    Ok(false)
}

// Copies the records of a block that a plan keeps and a sieve lets pass to the front of a buffer, changed, up to the
// first whose change is refused. `read` is the number of the records before them. `Err` means out of memory.
fn keep_sifted(
    plan: &Plan,
    sieve: &mut Sieve,
    read: u64,
    size: usize,
    block: &[u8],
    buffer: &mut [u8],
) -> Result<Part, AllocError>
    requires size { POINT_RECORD ≤ size }
    requires whole { length block.now % size ≡ 0 }
    requires room { length block.now ≤ length buffer.old }
    requires classes { All HasClass plan.now.changes.items }
    requires few { read + length block.now / size < 2 ^ 32 }
    requires asked { (looked : List Placed) × (before : List (List ℕ)) × (length before ≡ read)
        × HasSifted looked (passing (steps_of plan.now) before) sieve.old }
    ensures settings { sieve.new.settings ≡ sieve.old.settings }
    ensures within { IfOk result (λ part. part.length ≤ length block.now) }
    ensures kept { OfSieve (steps_of plan.now) sieve.old read (λ looked before. IfOk result (HoldsKept
        (Adds (kept_by sieve.old.settings looked (steps_of plan.now)) before (cut_all size block.now)) buffer.new
        size)) }
    ensures stands { OfSieve (steps_of plan.now) sieve.old read (λ looked before. IfOk result (λ part.
        part.refused ≡ false
        → HasSifted looked (passing (steps_of plan.now) (before ++ cut_all size block.now)) sieve.new)) }
{
    let mut rest = block;
    let mut at = 0;
    let mut place = read;
    for _turn in 0..block.len() / size {
        let (point, further) = rest.split_at(size);
        if passes(plan, sieve, place, point)? {
            match put_changed(plan, point, &mut buffer[at..at + size]) {
                Ok(()) => at += size,
                Err(_) => {
                    return Ok(Part {
                        length: at,
                        refused: true,
                    });
                }
            }
        }
        rest = further;
        place += 1;
    }
    Ok(Part {
        length: at,
        refused: false,
    })
}

/// Copies the records of a block that a plan keeps and a sieve lets pass to the front of a buffer, changed, up to the
/// first whose change is refused. `read` is the number of the records before them. `Err` means out of memory; a sieve
/// that lets every record pass is not asked, and takes none.
pub(crate) fn keep_records(
    plan: &Plan,
    sieve: &mut Sieve,
    read: u64,
    size: usize,
    block: &[u8],
    buffer: &mut [u8],
) -> Result<Part, AllocError>
    requires size { POINT_RECORD ≤ size }
    requires whole { length block.now % size ≡ 0 }
    requires room { length block.now ≤ length buffer.old }
    requires classes { All HasClass plan.now.changes.items }
    requires few { read + length block.now / size < 2 ^ 32 }
    requires after { AfterSome (steps_of plan.now) sieve.old read }
    ensures settings { sieve.new.settings ≡ sieve.old.settings }
    ensures within { IfOk result (λ part. part.length ≤ length block.now) }
    ensures kept { AfterAny (steps_of plan.now) sieve.old read (λ keeping before. IfOk result
        (HoldsKept (Adds keeping before (cut_all size block.now)) buffer.new size)) }
    ensures after { ComesBy result (λ part. part.refused) (steps_of plan.now) sieve.old read
        (cut_all size block.now) sieve.new (read + length block.now / size) }
{
    if sieve.passes_all() {
        return Ok(keep_plain(plan, size, block, buffer));
    }
    keep_sifted(plan, sieve, read, size, block, buffer)
}
