//! The numbers of parts, and where each of them stands.
ghost use Rattle.std.specs.Prelude.{◌≡◌, ◌++◌, ◌∷◌, ◌<◌, ◌^◌, [], false, Some, slice_get, IfNone, IfSome, OnOk};
ghost use Rattle.las_split.specs.Sorting.{is_among};

use std::alloc::{AllocError, Global};
use std::marker::Model;

/// Numbers of parts in the order in which they were added. A number is looked up where it was added last under its low
/// bits: a rule gives numbers below 2^16, or the numbers of no more parts than there may be, so this is its place.
pub(crate) struct Numbers {
    list: Vec<u32>,
    // By the low bits of a number, the place of the number that was added last with these.
    hints: Vec<u16>,
}

// By hand, so that each caller drops numbers by one call.
impl Drop for Numbers {
    fn drop(self) {
        let Numbers { list, hints } = self;
        drop(list);
        drop(hints);
    }
}

impl Model for Numbers {
    ghost use Rattle.std.specs.Prelude.{List, ℕ};

    ghost Value = { List ℕ };

    ghost view = { λ n. n.list.items };
}

// The low 16 bits of a number.
#[inline(always)]
fn low_bits(number: u32) -> usize
    ensures { result < 2 ^ 16 }
{
    (number % 65536) as usize
}

impl Numbers {
    /// No numbers.
    pub(crate) fn new(alloc: Global) -> Numbers
        ensures { result ≡ [] }
    {
        Numbers {
            list: Vec::new(alloc),
            hints: Vec::new(alloc),
        }
    }

    /// The numbers.
    pub(crate) fn as_slice(&self) -> &[u32]
        ensures { result.now ≡ self.now }
    {
        self.list.as_slice()
    }

    /// The place of a number, if it is there.
    #[inline(always)]
    pub(crate) fn find(&self, number: u32) -> Option<usize>
        ensures none { IfNone result (is_among number self.now ≡ false) }
        ensures some { IfSome result (λ place. slice_get self.now place ≡ Some number) }
    {
        let low = low_bits(number);
        if low < self.hints.len() {
            let place = usize::from(self.hints[low]);
            if place < self.list.len() && self.list[place] == number {
                return Some(place);
            }
        }
        self.search(number)
    }

    // The first place of a number, if it is there.
    #[cold]
    #[inline(never)]
    fn search(&self, number: u32) -> Option<usize>
        ensures none { IfNone result (is_among number self.now ≡ false) }
        ensures some { IfSome result (λ place. slice_get self.now place ≡ Some number) }
    {
        for place in 0..self.list.len() {
            if self.list[place] == number {
                return Some(place);
            }
        }
        None
    }

    /// Adds a number at the end.
    pub(crate) fn add(&mut self, number: u32) -> Result<(), AllocError>
        ensures { OnOk result (self.new ≡ self.old ++ number ∷ []) }
    {
        let low = low_bits(number);
        if self.hints.len() <= low {
            self.hints.resize(low + 1, 0)?;
        }
        if let Ok(place) = u16::try_from(self.list.len()) {
            self.hints[low] = place;
        }
        self.list.push(number)?;
        Ok(())
    }

    /// The numbers alone.
    pub(crate) fn into_list(self) -> Vec<u32>
        ensures { result.items ≡ self }
    {
        let Numbers { list, hints: _ } = self;
        list
    }
}
