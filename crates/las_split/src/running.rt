//! Records that belong to one part.
ghost use Rattle.std.specs.Prelude.{◌≡◌, ◌+◌, ◌/◌, ◌%◌, ◌^◌, ◌<◌, ◌≤◌, ℕ, All, length, true};
ghost use Rattle.las_header.specs.Plain.{cut_all};
ghost use Rattle.las_header.specs.declared.limits.TheConstants.{POINT_RECORD};
ghost use Rattle.las_filter.specs.Parts.{IsRule};
ghost use Rattle.las_split.specs.Parts.{numbers_from};

use crate::numbering::part_of;
use las_filter::Rule;

// Whether this many records from a place on all belong to one part, where each part has n records.
#[inline(always)]
fn lie_in(n: u32, index: u64, count: u64, number: u32) -> bool
    requires some { 1 ≤ n }
    requires index { index + count < 2 ^ 32 }
    ensures { result ≡ true → (k : ℕ) → k < count → (index + k) / n ≡ number }
{
    let each = u64::from(n);
    index / each == u64::from(number) && index % each + count <= each
}

// Whether each of these records, which stand one after another from this place on, has a number.
#[inline(always)]
fn each_has(rule: &Rule, index: u64, size: usize, group: &[u8], number: u32) -> bool
    requires rule { IsRule rule.now }
    requires size { POINT_RECORD ≤ size }
    requires whole { length group.now % size ≡ 0 }
    requires index { index + length group.now / size < 2 ^ 32 }
    ensures { result ≡ true → All (λ n. n ≡ number) (numbers_from rule.now index (cut_all size group.now)) }
{
    let mut rest = group;
    for turn in 0..group.len() / size {
        let (point, further) = rest.split_at(size);
        if part_of(rule, index + turn as u64, point) != number {
            return false;
        }
        rest = further;
    }
    true
}

/// Whether all of these records, which stand one after another from this place on, have a number.
#[inline(always)]
pub(crate) fn all_have(rule: &Rule, index: u64, size: usize, group: &[u8], number: u32) -> bool
    requires rule { IsRule rule.now }
    requires size { POINT_RECORD ≤ size }
    requires whole { length group.now % size ≡ 0 }
    requires index { index + length group.now / size < 2 ^ 32 }
    ensures { result ≡ true → All (λ n. n ≡ number) (numbers_from rule.now index (cut_all size group.now)) }
{
    match *rule {
        Rule::Every(n) => lie_in(n, index, (group.len() / size) as u64, number),
        _ => each_has(rule, index, size, group, number),
    }
}
