//! Words as their bytes.

ghost use Rattle.std.specs.Prelude.{◌≡◌, ◌||◌, ◌++◌, [], ◌∷◌, OnOk};
ghost use Rattle.las_words.specs.Texts.{texts, word_at, is_packed_name};

use std::alloc::{AllocError, Global};

/// The word at an index, and an empty one if it is missing.
pub(crate) fn word(words: &[String], index: usize) -> &str
    ensures { result.now ≡ word_at (texts words.now) index }
{
    match words.get(index) {
        Some(word) => word.as_str(),
        None => "",
    }
}

/// Adds the word at an index to some, and an empty one if it is missing.
pub(crate) fn push_word(
    alloc: Global,
    some: &mut Vec<String>,
    words: &[String],
    index: usize,
) -> Result<(), AllocError>
    ensures { OnOk result (texts some.new.items ≡ texts some.old.items ++ word_at (texts words.now) index ∷ []) }
{
    some.push(String::from_str(alloc, word(words, index))?)?;
    Ok(())
}

/// Whether LAStools would pack a file of this name.
pub(crate) fn is_packed_name(name: &str) -> bool
    ensures { result ≡ is_packed_name name.now }
{
    let name = name.as_bytes();
    name.ends_with(b".laz") || name.ends_with(b".LAZ")
}
