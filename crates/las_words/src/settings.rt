//! Options that are looked up by name, and the settings that they make.

ghost use Rattle.std.specs.Prelude.{◌≡◌, ◌<◌, ◌≤◌, length, IfOk, IfSome, unwrap_or};
ghost use Rattle.std.specs.List.{list_any};
ghost use Rattle.std.specs.Str.{bytes_eq};
ghost use Rattle.las_words.specs.Texts.{texts};
ghost use Rattle.las_words.specs.Table.{row_of};
ghost use Rattle.las_words.specs.Settings.{place_of, is_given, text_given, texts_of, number_given, number_said};
ghost use Rattle.las_words.specs.Settings.{chunk_given, workers_of, start_of, stop_given, format_given, extra_given, rule_of};
ghost use Rattle.las_words.specs.Settings.{pick_alone, pick_of, step_of};

use crate::numbers::number_in;
use crate::options::Options;
use crate::table::{Flag, Values};
use crate::texts::{push_word, word};
use las_filter::Rule;
use las_thin::Pick;
use std::alloc::{AllocError, Global};

impl<'a> Options<'a> {
    /// The index of the first option of a name.
    pub(crate) fn place_of(&self, name: &str) -> Option<usize>
        ensures place { result ≡ place_of (texts self.now.words.now) name.now self.now.pieces.now }
        ensures within { IfSome result (λ at. at < length self.now.words.now) }
    {
        for piece in self.pieces {
            if word(self.words, piece.at) == name {
                return Some(piece.at);
            }
        }
        None
    }

    /// Whether an option is given.
    pub(crate) fn is_given(&self, name: &str) -> bool
        ensures { result ≡ is_given (texts self.now.words.now) name.now self.now.pieces.now }
    {
        self.place_of(name).is_some()
    }

    /// The first value of an option, and an empty one if it is not given.
    pub(crate) fn text_of(&self, name: &str) -> &'a str
        ensures { result.now ≡ text_given (texts self.now.words.now) name.now self.now.pieces.now }
    {
        match self.place_of(name) {
            Some(at) => word(self.words, at + 1),
            None => "",
        }
    }

    /// The first values of all options of a name, in the order of the words.
    pub(crate) fn texts_of(&self, alloc: Global, name: &str) -> Result<Vec<String>, AllocError>
        ensures { IfOk result (λ found. texts found.items ≡ texts_of
            (texts self.now.words.now) name.now self.now.pieces.now) }
    {
        let mut found = Vec::new(alloc);
        for piece in self.pieces {
            if word(self.words, piece.at) == name {
                push_word(alloc, &mut found, self.words, piece.at + 1)?;
            }
        }
        Ok(found)
    }

    /// Whether a text is the first value of an option of a name.
    pub(crate) fn is_value(&self, name: &str, text: &str) -> bool
        ensures { result ≡ list_any (bytes_eq text.now) (texts_of
            (texts self.now.words.now) name.now self.now.pieces.now) }
    {
        for piece in self.pieces {
            if word(self.words, piece.at) == name && text == word(self.words, piece.at + 1) {
                return true;
            }
        }
        false
    }

    /// The number that an option says, or a default if it is not given.
    pub(crate) fn number_of(&self, flag: Flag, default: u32) -> u32
        ensures { result ≡ number_given (texts self.now.words.now) flag default self.now.pieces.now }
    {
        number_said(flag, default, self.text_of(flag.name()))
    }

    /// The place of the first record that is taken.
    pub(crate) fn start_of(&self) -> u32
        ensures { result ≡ start_of (texts self.now.words.now) self.now.pieces.now }
    {
        self.number_of(Flag::StartAtPoint, 0)
    }

    /// The place of the first record after it that is not taken.
    pub(crate) fn stop_of(&self) -> u32
        ensures { result ≡ stop_given (texts self.now.words.now) self.now.pieces.now }
    {
        self.number_of(Flag::StopAtPoint, u32::MAX)
    }

    /// The side of a cell, if records are to be thinned.
    pub(crate) fn step_of(&self) -> Option<u32>
        ensures { result ≡ step_of (texts self.now.words.now) self.now.pieces.now }
    {
        if self.is_given("-thin_raw") {
            Some(self.number_of(Flag::ThinRaw, 1))
        } else {
            None
        }
    }

    /// Which record of a cell stays.
    pub(crate) fn pick_of(&self) -> Pick
        ensures { result ≡ pick_of (texts self.now.words.now) self.now.pieces.now }
    {
        if self.is_given("-lowest") {
            Pick::Lowest
        } else if self.is_given("-highest") {
            Pick::Highest
        } else {
            Pick::First
        }
    }

    /// The index of an option that says which record of a cell stays, if there are no cells.
    pub(crate) fn pick_alone(&self) -> Option<usize>
        ensures { result ≡ pick_alone (texts self.now.words.now) self.now.pieces.now }
    {
        if self.is_given("-thin_raw") {
            return None;
        }
        let lowest = self.place_of("-lowest");
        if lowest.is_some() {
            return lowest;
        }
        self.place_of("-highest")
    }

    /// The number of records of a chunk.
    pub(crate) fn chunk_of(&self) -> u32
        ensures { result ≡ chunk_given (texts self.now.words.now) self.now.pieces.now }
    {
        self.number_of(Flag::ChunkSize, 50_000)
    }

    /// The number of workers.
    pub(crate) fn workers_of(&self) -> u32
        ensures { result ≡ workers_of (texts self.now.words.now) self.now.pieces.now }
    {
        self.number_of(Flag::Cores, 1)
    }

    /// The point data format.
    pub(crate) fn format_of(&self) -> u8
        ensures { result ≡ format_given (texts self.now.words.now) self.now.pieces.now }
    {
        self.number_of(Flag::Format, 0) as u8
    }

    /// The number of extra bytes of a record.
    pub(crate) fn extra_of(&self) -> u16
        ensures { result ≡ extra_given (texts self.now.words.now) self.now.pieces.now }
    {
        self.number_of(Flag::Extra, 0) as u16
    }

    /// The rule by which a file is split.
    pub(crate) fn rule_of(&self) -> Rule
        ensures { result ≡ rule_of (texts self.now.words.now) self.now.pieces.now }
    {
        if self.is_given("-by_classification") {
            Rule::Class
        } else if self.is_given("-by_flightline") {
            Rule::Source
        } else if self.is_given("-by_return") {
            Rule::Return
        } else {
            Rule::Every(self.number_of(Flag::Split, 1))
        }
    }
}

/// The number that a value of an option is, or a default if it is none.
pub(crate) fn number_said(flag: Flag, default: u32, word: &str) -> u32
    ensures { result ≡ number_said flag default word.now }
{
    let Values::Number(low, high) = flag.values() else {
        return default;
    };
    number_in(word, low, high).unwrap_or(default)
}
