//! The records of a block, gathered by the parts that they belong to.
ghost use Rattle.std.specs.Prelude.{◌≡◌, ◌++◌, ◌∷◌, ◌<◌, [], length, replicate, set, slice_index_or, OnOk};

use std::alloc::{AllocError, Global};
use std::marker::Model;

/// For each part, the bytes of its records of one block. The memory is used again for the blocks after it.
#[derive(Drop)]
pub(crate) struct Gathered {
    texts: Vec<Vec<u8>>,
}

impl Model for Gathered {
    ghost use Rattle.std.specs.Prelude.{List, ℕ, map};

    ghost Value = { List (List ℕ) };

    ghost view = { λ g. map (λ v. v.items) g.texts.items };
}

// Empties a buffer. One that was not used gives its memory back: as a file goes on, other parts have its records.
fn renew(alloc: Global, text: &mut Vec<u8>)
    ensures { text.new.items ≡ [] }
{
    if text.is_empty() {
        *text = Vec::new(alloc);
    } else {
        text.clear();
    }
}

// Adds a record of a known size to a buffer.
#[inline(always)]
fn push_sized(text: &mut Vec<u8>, size: usize, point: &[u8]) -> Result<(), AllocError>
    requires { length point.now ≡ size }
    ensures { OnOk result (text.new.items ≡ text.old.items ++ point.now) }
{
    let (whole, _none) = point.split_at(size);
    text.extend_from_slice(whole)
}

// Adds records to a buffer. The sizes of a record without extra bytes are constants here, so that a few instructions
// copy one.
#[inline(always)]
fn push_records(text: &mut Vec<u8>, points: &[u8]) -> Result<(), AllocError>
    ensures { OnOk result (text.new.items ≡ text.old.items ++ points.now) }
{
    match points.len() {
        20 => push_sized(text, 20, points),
        26 => push_sized(text, 26, points),
        28 => push_sized(text, 28, points),
        34 => push_sized(text, 34, points),
        _ => text.extend_from_slice(points),
    }
}

impl Gathered {
    /// Of no block yet.
    pub(crate) fn new(alloc: Global) -> Gathered
        ensures { result ≡ [] }
    {
        Gathered {
            texts: Vec::new(alloc),
        }
    }

    /// Forgets the block before, and begins one with this number of parts.
    pub(crate) fn begin(&mut self, alloc: Global, parts: usize) -> Result<(), AllocError>
        ensures { OnOk result (self.new ≡ replicate parts []) }
    {
        for place in 0..parts {
            if place < self.texts.len() {
                renew(alloc, &mut self.texts[place]);
            } else {
                self.texts.push(Vec::new(alloc))?;
            }
        }
        self.texts.truncate(parts);
        Ok(())
    }

    /// Adds a part, without a record.
    pub(crate) fn open(&mut self, alloc: Global) -> Result<(), AllocError>
        ensures { OnOk result (self.new ≡ self.old ++ [] ∷ []) }
    {
        self.texts.push(Vec::new(alloc))?;
        Ok(())
    }

    /// Adds a record to the part at this place.
    #[inline(always)]
    pub(crate) fn add(&mut self, place: usize, point: &[u8]) -> Result<(), AllocError>
        requires { place < length self.old }
        ensures { OnOk result (self.new
            ≡ set self.old place (slice_index_or self.old place [] ++ point.now)) }
    {
        push_records(&mut self.texts[place], point)
    }

    /// The bytes of the records of the part at this place.
    pub(crate) fn text(&self, place: usize) -> &[u8]
        requires { place < length self.now }
        ensures { result.now ≡ slice_index_or self.now place [] }
    {
        self.texts[place].as_slice()
    }
}
