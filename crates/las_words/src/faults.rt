//! The first word that is wrong, by the options and their values.

ghost use Rattle.std.specs.Prelude.{◌≡◌, ◌+◌, ◌<◌, ◌^◌, [], length, drop};
ghost use Rattle.std.specs.List.{list_any};
ghost use Rattle.std.specs.Str.{bytes_eq};
ghost use Rattle.las_words.specs.Texts.{texts};
ghost use Rattle.las_words.specs.Tallies.{tallies_of};
ghost use Rattle.las_words.specs.Faults.{fits, first_wrong, misplaced, value_fault, follows_too_many};
ghost use Rattle.las_words.specs.Faults.{crossed, word_fault_of, first_fault};

use crate::numbers::{number_in, number_or_zero, signed_in};
use crate::options::Options;
use crate::pieces::{Piece, count_of, words_from};
use crate::settings::number_said;
use crate::table::{Flag, Values};
use crate::texts::word;

/// The index of the first word that is wrong by itself or after those before it. A missing value has the number of
/// words. The names are those of the taps.
pub(crate) fn first_fault(names: &[String], options: &Options<'_>) -> Option<usize>
    ensures { result ≡ first_fault (texts names.now) (texts options.now.words.now) [] options.now.pieces.now }
{
    for (i, piece) in options.pieces.iter().enumerate() {
        let earlier = Options {
            words: options.words,
            pieces: &options.pieces[..i],
        };
        let fault = fault_of(names, &earlier, piece);
        if fault.is_some() {
            return fault;
        }
    }
    None
}

// What is wrong with an option or its values, after the options before it.
fn fault_of(names: &[String], earlier: &Options<'_>, piece: &Piece) -> Option<usize>
    requires at { piece.now.at < length earlier.now.words.now }
    ensures { result ≡ word_fault_of (texts names.now) (texts earlier.now.words.now) earlier.now.pieces.now piece.now }
{
    let Some(flag) = piece.flag else {
        return Some(piece.at);
    };
    if follows_too_many(earlier, flag) {
        return Some(piece.at);
    }
    let wrong = value_fault(names, earlier, flag.values(), piece.at + 1);
    if wrong.is_some() {
        return wrong;
    }
    crossed(earlier, flag, piece.at + 1)
}

// The index of a place of a range of records that cannot stand beside the one before it: the start is above the stop.
fn crossed(earlier: &Options<'_>, flag: Flag, at: usize) -> Option<usize>
    ensures { result ≡ crossed (texts earlier.now.words.now) earlier.now.pieces.now flag at }
{
    let (start, stop) = match flag {
        Flag::StartAtPoint => (
            number_said(flag, 0, word(earlier.words, at)),
            earlier.stop_of(),
        ),
        Flag::StopAtPoint => (
            earlier.start_of(),
            number_said(flag, u32::MAX, word(earlier.words, at)),
        ),
        _ => return None,
    };
    if stop < start { Some(at) } else { None }
}

// Whether an option stands after more of its rivals than it may.
fn follows_too_many(earlier: &Options<'_>, flag: Flag) -> bool
    ensures { result ≡ follows_too_many (texts earlier.now.words.now) earlier.now.pieces.now flag }
{
    let mut count = 0;
    for piece in earlier.pieces {
        if flag.is_rival(word(earlier.words, piece.at)) {
            count += 1;
        }
    }
    flag.before() < count
}

// The index of the first value of an option that is wrong. The values begin at an index.
fn value_fault(names: &[String], earlier: &Options<'_>, values: Values, at: usize) -> Option<usize>
    requires at { at < length earlier.now.words.now + 1 }
    ensures { result ≡ value_fault (texts names.now) (tallies_of
        (texts earlier.now.words.now) earlier.now.pieces.now) values at
        (drop at (texts earlier.now.words.now)) }
{
    let after = words_from(earlier.words, at);
    let wrong = first_wrong(names, values, at, count_of(values, after), after);
    if wrong.is_some() {
        return wrong;
    }
    misplaced(earlier, values, at, after)
}

// The index of the first value that is missing or not of its form.
fn first_wrong(
    names: &[String],
    values: Values,
    at: usize,
    count: usize,
    after: &[String],
) -> Option<usize>
    requires { at + length after.now < 2 ^ 64 }
    ensures { result ≡ first_wrong (texts names.now) values at count (texts after.now) }
{
    for k in 0..count {
        if k >= after.len() || !fits(names, values, word(after, k)) {
            return Some(at + k);
        }
    }
    None
}

// Whether a word has the form of a value.
fn fits(names: &[String], values: Values, word: &str) -> bool
    ensures { result ≡ fits (texts names.now) values word.now }
{
    match values {
        Values::Nothing => true,
        Values::Name => !word.is_empty(),
        Values::Number(low, high) => number_in(word, low, high).is_some(),
        Values::Bounds(most) | Values::Several(most) => number_in(word, 0, most).is_some(),
        Values::Signed(_) => signed_in(word).is_some(),
        Values::Tap => is_among(word, names),
    }
}

// Whether a word is one of some names.
fn is_among(word: &str, names: &[String]) -> bool
    ensures { result ≡ list_any (bytes_eq word.now) (texts names.now) }
{
    for name in names {
        if word == name.as_str() {
            return true;
        }
    }
    false
}

// The index of a high number that is below its low one, or of a tap that is named already.
fn misplaced(earlier: &Options<'_>, values: Values, at: usize, after: &[String]) -> Option<usize>
    requires at { at + 1 < 2 ^ 64 }
    ensures { result ≡ misplaced (tallies_of (texts earlier.now.words.now) earlier.now.pieces.now) values at
        (texts after.now) }
{
    match values {
        Values::Bounds(most) => {
            let low = number_or_zero(word(after, 0), most);
            let high = number_or_zero(word(after, 1), most);
            if high < low { Some(at + 1) } else { None }
        }
        Values::Tap => {
            if earlier.is_tallied(word(after, 0)) {
                Some(at)
            } else {
                None
            }
        }
        _ => None,
    }
}
