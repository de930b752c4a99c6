//! Taps that are chosen by their names.
ghost use Rattle.std.specs.Prelude.{◌≡◌, ◌<◌, ℕ, List, IfOk, IsSome, All, Some, find, length, slice_index_or};
ghost use Rattle.std.specs.Prelude.{string_bytes, false, true};
ghost use Rattle.std.specs.List.{AllPairs, AllZip};
ghost use Rattle.std.specs.Str.{bytes_eq};

use crate::tap::Tap;
use std::alloc::{AllocError, Global};

// Whether a tap has this name.
fn has_name(tap: &Box<dyn Tap>, name: &str) -> bool
    ensures { result ≡ bytes_eq (tap_seen tap.now).name name.now }
{
    tap.named() == name
}

// The place of the first tap of a name. There is one.
fn place_of(taps: &[Box<dyn Tap>], name: &str) -> usize
    requires { IsSome (find (λ tap. bytes_eq (tap_seen tap).name name.now) taps.now) }
    ensures within { result < length taps.now }
    ensures first { (d : _) → find (λ tap. bytes_eq (tap_seen tap).name name.now) taps.now
        ≡ Some (slice_index_or taps.now result d) }
    ensures named { (d : _) → bytes_eq (tap_seen (slice_index_or taps.now result d)).name name.now ≡ true }
{
    for i in 0..taps.len() {
        if has_name(&taps[i], name) {
            return i;
        }
    }
    unreachable!()
}

// Takes the first tap of a name out. There is one.
fn take_first(taps: &mut Vec<Box<dyn Tap>>, name: &str) -> Box<dyn Tap>
    requires { IsSome (find (λ tap. bytes_eq (tap_seen tap).name name.now) taps.old.items) }
    ensures first { find (λ tap. bytes_eq (tap_seen tap).name name.now) taps.old.items ≡ Some result }
    ensures others { (other : List ℕ) → bytes_eq name.now other ≡ false
        → find (λ tap. bytes_eq (tap_seen tap).name other) taps.new.items
        ≡ find (λ tap. bytes_eq (tap_seen tap).name other) taps.old.items }
{
    let at = place_of(taps, name);
    taps.remove(at)
}

/// The first tap of each of these names, in their order. The other taps are dropped. `Err` means out of memory.
///
/// There is a tap of each name, and no name stands twice.
pub fn choose(
    alloc: Global,
    taps: Vec<Box<dyn Tap>>,
    names: &[String],
) -> Result<Vec<Box<dyn Tap>>, AllocError>
    requires there { All (λ name. IsSome (find (λ tap. bytes_eq (tap_seen tap).name (string_bytes name)) taps.items))
        names.now }
    requires distinct { AllPairs (λ name other. bytes_eq (string_bytes name) (string_bytes other) ≡ false) names.now }
    ensures { IfOk result (λ chosen. AllZip (λ name tap. find (λ other. bytes_eq (tap_seen other).name (string_bytes name))
        taps.items ≡ Some tap) names.now chosen.items) }
{
    let mut left = taps;
    let mut chosen = Vec::new(alloc);
    for i in 0..names.len() {
        let tap = take_first(&mut left, names[i].as_str());
        chosen.push(tap)?;
    }
    Ok(chosen)
}
