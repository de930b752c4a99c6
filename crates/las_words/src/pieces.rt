//! Words cut into options and their values.

ghost use Rattle.std.specs.Prelude.{◌≡◌, drop, IfOk};
ghost use Rattle.std.specs.List.{prefix_len};
ghost use Rattle.las_words.specs.Texts.{texts};
ghost use Rattle.las_words.specs.Numbers.{is_digits};
ghost use Rattle.las_words.specs.Counts.{values_of};
ghost use Rattle.las_words.specs.Pieces.{StandIn, cut_words, values_after};

use crate::numbers::is_digits;
use crate::table::{Flag, Tool, Values};
use crate::texts::word;
use std::alloc::{AllocError, Global};

/// A word that stands where an option should.
#[derive(Clone, Copy)]
pub struct Piece {
    /// The index of the word.
    pub at: usize,
    /// The option, if it is one of the command.
    pub flag: Option<Flag>,
}

/// The words after the first, cut into options. The words between two options are values of the first of them.
pub(crate) fn pieces(alloc: Global, tool: Tool, words: &[String]) -> Result<Vec<Piece>, AllocError>
    ensures pieces { IfOk result (λ pieces. pieces.items ≡ cut_words tool 1 0 (drop 1 (texts words.now))) }
    ensures within { IfOk result (λ pieces. StandIn words.now pieces.items) }
{
    let mut pieces = Vec::new(alloc);
    let mut skip = 0;
    for at in 1..words.len() {
        if skip > 0 {
            skip -= 1;
        } else {
            let flag = tool.flag(word(words, at));
            pieces.push(Piece { at, flag })?;
            skip = count_after(flag, words_from(words, at + 1));
        }
    }
    Ok(pieces)
}

/// The words from an index on.
pub(crate) fn words_from(words: &[String], at: usize) -> &[String]
    ensures { texts result.now ≡ drop at (texts words.now) }
{
    if at < words.len() { &words[at..] } else { &[] }
}

// How many of the words after an option are its values, or should be.
fn count_after(flag: Option<Flag>, after: &[String]) -> usize
    ensures { result ≡ values_after flag (texts after.now) }
{
    match flag {
        Some(flag) => count_of(flag.values(), after),
        None => 0,
    }
}

/// How many words are values of an option, or should be.
pub(crate) fn count_of(values: Values, after: &[String]) -> usize
    ensures { result ≡ values_of values (texts after.now) }
{
    match values {
        Values::Nothing => 0,
        Values::Name | Values::Number(_, _) | Values::Tap => 1,
        Values::Bounds(_) => 2,
        Values::Several(_) => digit_words(after).max(1),
        Values::Signed(count) => count as usize,
    }
}

// How many words at the front are of digits alone.
fn digit_words(words: &[String]) -> usize
    ensures { result ≡ prefix_len is_digits (texts words.now) }
{
    for index in 0..words.len() {
        if !is_digits(word(words, index).as_bytes()) {
            return index;
        }
    }
    words.len()
}
