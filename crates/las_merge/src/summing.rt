//! The numbers of points by return of all inputs, added up.
ghost use Rattle.std.specs.Prelude.{◌≡◌, ◌-◌, ◌^◌, ◌<◌, min, slice_index, sum_by};
ghost use Rattle.las_header.specs.Fields.{returns_of};
ghost use Rattle.laz_copied.specs.Copied as copied;
ghost use Rattle.las_merge.specs.Summing as sums;

use crate::input::Input;
use las_header::Head;

// The number of points of one of the returns 1 to 5 of all inputs, by its place. A sum above 2^32 - 1 is 2^32 - 1.
fn returns_at(inputs: &[Input], i: usize) -> u32
    requires { i < 5 }
    ensures { result ≡ min (sum_by (λ input. slice_index (returns_of input.head.bytes) i) inputs.now) (2 ^ 32 - 1) }
{
    let mut sum: u32 = 0;
    for input in inputs {
        sum = sum.saturating_add(input.head.returns()[i]);
    }
    sum
}

/// The numbers of points of the returns 1 to 5 of all inputs, by their heads. A sum above 2^32 - 1 is 2^32 - 1.
pub(crate) fn returns_in(inputs: &[Input]) -> [u32; 5]
    ensures { result ≡ sums.returns_summed inputs.now }
{
    [
        returns_at(inputs, 0),
        returns_at(inputs, 1),
        returns_at(inputs, 2),
        returns_at(inputs, 3),
        returns_at(inputs, 4),
    ]
}

// The numbers of points of the returns 1 to 15 that a head has: all of them for LAS 1.4, and else the first five.
fn returns_to_15(head: &Head) -> [u64; 15]
    ensures { result ≡ copied.returns_to_15 head.now.bytes }
{
    if let Some(returns) = head.long_returns() {
        return returns;
    }
    let [first, second, third, fourth, fifth] = head.returns();
    [
        u64::from(first),
        u64::from(second),
        u64::from(third),
        u64::from(fourth),
        u64::from(fifth),
        0,
        0,
        0,
        0,
        0,
        0,
        0,
        0,
        0,
        0,
    ]
}

// The number of points of one of the returns 1 to 15 of all inputs, by its place. A sum above 2^64 - 1 is 2^64 - 1.
fn long_returns_at(inputs: &[Input], i: usize) -> u64
    requires { i < 15 }
    ensures { result ≡ min (sum_by (λ input. slice_index (copied.returns_to_15 input.head.bytes) i) inputs.now)
        (2 ^ 64 - 1) }
{
    let mut sum: u64 = 0;
    for input in inputs {
        sum = sum.saturating_add(returns_to_15(&input.head)[i]);
    }
    sum
}

/// The numbers of points of the returns 1 to 15 of all inputs, by their heads. A sum above 2^64 - 1 is 2^64 - 1.
pub(crate) fn long_returns_in(inputs: &[Input]) -> [u64; 15]
    ensures { result ≡ sums.long_returns_summed inputs.now }
{
    let mut sums = [0; 15];
    for i in 0..15 {
        sums[i] = long_returns_at(inputs, i);
    }
    sums
}
