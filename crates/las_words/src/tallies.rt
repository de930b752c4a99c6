//! The tallies that words ask for.

ghost use Rattle.std.specs.Prelude.{◌≡◌, [], IfOk, is_some};
ghost use Rattle.std.specs.List.{list_any};
ghost use Rattle.std.specs.Str.{bytes_eq};
ghost use Rattle.las_words.specs.Texts.{texts};
ghost use Rattle.las_words.specs.Tallies.{tallies_of, tally_in};

use crate::options::Options;
use crate::table::Flag;
use crate::texts::{push_word, word};
use std::alloc::{AllocError, Global};

impl Options<'_> {
    /// The tallies that are asked for, in the order of the words.
    pub(crate) fn tallies_of(&self, alloc: Global) -> Result<Vec<String>, AllocError>
        ensures { IfOk result (λ tallies. texts tallies.items ≡ tallies_of
            (texts self.now.words.now) self.now.pieces.now) }
    {
        let mut tallies = Vec::new(alloc);
        for piece in self.pieces {
            if is_tally(piece.flag) {
                push_word(alloc, &mut tallies, self.words, piece.at + 1)?;
            }
        }
        Ok(tallies)
    }

    /// Whether a tally of this name is asked for.
    pub(crate) fn is_tallied(&self, name: &str) -> bool
        ensures { result ≡ list_any (bytes_eq name.now) (tallies_of (texts self.now.words.now) self.now.pieces.now) }
    {
        for piece in self.pieces {
            if is_tally(piece.flag) && name == word(self.words, piece.at + 1) {
                return true;
            }
        }
        false
    }
}

// Whether a word is the option that names a tally.
fn is_tally(flag: Option<Flag>) -> bool
    ensures { result ≡ is_some (tally_in flag []) }
{
    matches!(flag, Some(Flag::Tally))
}
