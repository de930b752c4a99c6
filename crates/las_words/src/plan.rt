//! The filters and the changes that words ask for.

ghost use Rattle.std.specs.Prelude.{◌≡◌, ◌<◌, ◌+◌, ◌^◌, pos, IfOk};
ghost use Rattle.las_words.specs.Texts.{texts};
ghost use Rattle.las_words.specs.Table.{mask_of, first_number, second_number, shift_at};
ghost use Rattle.las_words.specs.Plans.{filter_in, change_in, filters_of, changes_given};

use crate::numbers::{number_or_zero, signed_in};
use crate::options::Options;
use crate::pieces::{count_of, words_from};
use crate::table::{Flag, Values};
use crate::texts::word;
use las_filter::{Change, Keep};
use std::alloc::{AllocError, Global};

impl Options<'_> {
    /// The filters, in the order of the words.
    pub(crate) fn filters_of(&self, alloc: Global) -> Result<Vec<Keep>, AllocError>
        ensures { IfOk result (λ keeps. keeps.items ≡ filters_of (texts self.now.words.now) self.now.pieces.now) }
    {
        let mut keeps = Vec::new(alloc);
        for piece in self.pieces {
            if let Some(keep) = filter_in(piece.flag, words_from(self.words, piece.at + 1)) {
                keeps.push(keep)?;
            }
        }
        Ok(keeps)
    }

    /// The changes, in the order of the words.
    pub(crate) fn changes_of(&self, alloc: Global) -> Result<Vec<Change>, AllocError>
        ensures { IfOk result (λ changes. changes.items ≡ changes_given
            (texts self.now.words.now) self.now.pieces.now) }
    {
        let mut changes = Vec::new(alloc);
        for piece in self.pieces {
            if let Some(change) = change_in(piece.flag, words_from(self.words, piece.at + 1)) {
                changes.push(change)?;
            }
        }
        Ok(changes)
    }
}

// The filter that a word means if it is an option, of the words after it.
fn filter_in(flag: Option<Flag>, after: &[String]) -> Option<Keep>
    ensures { result ≡ filter_in flag (texts after.now) }
{
    match flag {
        Some(Flag::KeepClass) => Some(Keep::Classes(mask_of(31, after))),
        Some(Flag::DropClass) => Some(Keep::DropClasses(mask_of(31, after))),
        Some(Flag::KeepReturn) => Some(Keep::Returns(returns_of(after))),
        Some(Flag::DropReturn) => Some(Keep::DropReturns(returns_of(after))),
        Some(Flag::KeepFirst) => Some(Keep::First),
        Some(Flag::KeepLast) => Some(Keep::Last),
        Some(Flag::KeepIntensity) => Some(Keep::Intensity(first_u16(after), second_u16(after))),
        Some(Flag::DropIntensityBelow) => Some(Keep::NotBelow(first_u16(after))),
        Some(Flag::DropIntensityAbove) => Some(Keep::NotAbove(first_u16(after))),
        _ => None,
    }
}

// The change that a word means if it is an option, of the words after it.
fn change_in(flag: Option<Flag>, after: &[String]) -> Option<Change>
    ensures { result ≡ change_in flag (texts after.now) }
{
    match flag {
        Some(Flag::TranslateRawXyz) => Some(Change::Translate(
            shift_at(0, after),
            shift_at(1, after),
            shift_at(2, after),
        )),
        Some(Flag::TranslateRawX) => Some(Change::Translate(shift_at(0, after), 0, 0)),
        Some(Flag::TranslateRawY) => Some(Change::Translate(0, shift_at(0, after), 0)),
        Some(Flag::TranslateRawZ) => Some(Change::Translate(0, 0, shift_at(0, after))),
        Some(Flag::SetClassification) => Some(Change::SetClass(first_u8(31, after))),
        Some(Flag::SetUserData) => Some(Change::SetUser(first_u8(255, after))),
        Some(Flag::SetPointSource) => Some(Change::SetSource(first_u16(after))),
        _ => None,
    }
}

// The bits of a list of numbers up to a bound below 32.
fn mask_of(most: u32, after: &[String]) -> u32
    requires { most < 32 }
    ensures value { result ≡ mask_of most (texts after.now) }
    ensures range { result < 2 ^ (most + 1) }
{
    let mut mask = 0;
    for k in 0..count_of(Values::Several(most), after).min(after.len()) {
        mask |= 1 << number_or_zero(word(after, k), most);
    }
    mask
}

// The bits of a list of return numbers.
fn returns_of(after: &[String]) -> u8
    ensures { result ≡ mask_of 7 (texts after.now) }
{
    mask_of(7, after) as u8
}

fn first_u8(most: u8, after: &[String]) -> u8
    ensures { result ≡ first_number most (texts after.now) }
{
    number_or_zero(word(after, 0), u32::from(most)) as u8
}

fn first_u16(after: &[String]) -> u16
    ensures { result ≡ first_number 65535 (texts after.now) }
{
    number_or_zero(word(after, 0), 65_535) as u16
}

fn second_u16(after: &[String]) -> u16
    ensures { result ≡ second_number 65535 (texts after.now) }
{
    number_or_zero(word(after, 1), 65_535) as u16
}

// The value of a place as a signed number.
fn shift_at(place: usize, after: &[String]) -> i32
    ensures { result ≡ shift_at place (texts after.now) }
{
    signed_in(word(after, place)).unwrap_or(0)
}
