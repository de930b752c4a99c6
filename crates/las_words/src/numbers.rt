//! Numbers that words write.

ghost use Rattle.std.specs.Prelude.{◌≡◌, ◌≤◌, ◌<◌, ◌^◌};
ghost use Rattle.std.specs.Str.{all_ascii_digits};
ghost use Rattle.las_words.specs.Numbers.{is_digits, is_number, number_in_range, number_or_zero, without_minus, signed_in};

/// Whether a word is not empty and consists of digits alone.
pub(crate) fn is_digits(word: &[u8]) -> bool
    ensures { result ≡ is_digits word.now }
{
    !word.is_empty() && all_digits(word)
}

fn all_digits(word: &[u8]) -> bool
    ensures { result ≡ all_ascii_digits word.now }
{
    for byte in word {
        if !byte.is_ascii_digit() {
            return false;
        }
    }
    true
}

// Whether a word is a number: one to twenty digits.
fn is_number(word: &[u8]) -> bool
    ensures { result ≡ is_number word.now }
{
    word.len() <= 20 && is_digits(word)
}

/// The number that a word writes, if it is one of this range, both ends included.
pub(crate) fn number_in(word: &str, low: u32, high: u32) -> Option<u32>
    ensures { result ≡ number_in_range low high word.now }
{
    if !is_number(word.as_bytes()) {
        return None;
    }
    match word.parse::<u32>() {
        Ok(number) if low <= number && number <= high => Some(number),
        _ => None,
    }
}

/// The number of at most `most` that a word writes, or 0 if it writes none.
pub(crate) fn number_or_zero(word: &str, most: u32) -> u32
    ensures value { result ≡ number_or_zero most word.now }
    ensures range { result ≤ most }
{
    number_in(word, 0, most).unwrap_or(0)
}

// The word without a minus at its front.
fn without_minus(word: &[u8]) -> &[u8]
    ensures { result.now ≡ without_minus word.now }
{
    if word.first() == Some(&b'-') {
        &word[1..]
    } else {
        word
    }
}

/// The signed number of 32 bits that a word writes, with one minus at most.
pub(crate) fn signed_in(word: &str) -> Option<i32>
    ensures { result ≡ signed_in word.now }
{
    if !is_number(without_minus(word.as_bytes())) {
        return None;
    }
    word.parse::<i32>().ok()
}
