//! Lines of the report.
ghost use Rattle.std.specs.Prelude.{◌≡◌, ◌++◌, ◌∷◌, [], OnOk, codes};
ghost use Rattle.std.specs.Fmt.{decimal, signed_decimal};
ghost use Rattle.std.specs.List.{flat_map};
ghost use Rattle.las_info.specs.Report.{bin_line, line, number_line, range_line};

use crate::extents::Range;
use itoa::Buffer;
use std::alloc::AllocError;

/// Adds a line of a word and numbers.
pub(crate) fn push_numbers(
    text: &mut Vec<u8>,
    word: &[u8],
    numbers: &[u64],
) -> Result<(), AllocError>
    ensures { OnOk result (text.new.items ≡ text.old.items ++ number_line word.now numbers.now) }
{
    text.extend_from_slice(word)?;
    push_values(text, numbers)?;
    text.extend_from_slice(b"\n")?;
    Ok(())
}

// Adds numbers, each after a blank.
fn push_values(text: &mut Vec<u8>, numbers: &[u64]) -> Result<(), AllocError>
    ensures { OnOk result (text.new.items
        ≡ text.old.items ++ flat_map (λ number. codes " " ++ decimal number) numbers.now) }
{
    for number in numbers {
        push_number(text, *number)?;
    }
    Ok(())
}

/// Adds a line of a word and counts.
pub(crate) fn push_counts(text: &mut Vec<u8>, word: &[u8], counts: &[u32]) -> Result<(), AllocError>
    ensures { OnOk result (text.new.items ≡ text.old.items ++ number_line word.now counts.now) }
{
    text.extend_from_slice(word)?;
    push_each(text, counts)?;
    text.extend_from_slice(b"\n")?;
    Ok(())
}

// Adds counts, each after a blank.
fn push_each(text: &mut Vec<u8>, counts: &[u32]) -> Result<(), AllocError>
    ensures { OnOk result (text.new.items
        ≡ text.old.items ++ flat_map (λ number. codes " " ++ decimal number) counts.now) }
{
    for count in counts {
        push_number(text, u64::from(*count))?;
    }
    Ok(())
}

/// Adds a number.
pub(crate) fn push_digits(text: &mut Vec<u8>, number: u64) -> Result<(), AllocError>
    ensures { OnOk result (text.new.items ≡ text.old.items ++ decimal number) }
{
    let mut digits = Buffer::new();
    text.extend_from_slice(digits.format(number).as_bytes())
}

/// Adds a number after a blank.
pub(crate) fn push_number(text: &mut Vec<u8>, number: u64) -> Result<(), AllocError>
    ensures { OnOk result (text.new.items ≡ text.old.items ++ (codes " " ++ decimal number)) }
{
    text.extend_from_slice(b" ")?;
    push_digits(text, number)
}

/// Adds a line of a word and a text.
pub(crate) fn push_text(text: &mut Vec<u8>, word: &[u8], value: &[u8]) -> Result<(), AllocError>
    ensures { OnOk result (text.new.items ≡ text.old.items ++ line word.now (value.now ∷ [])) }
{
    text.extend_from_slice(word)?;
    push_value(text, value)?;
    text.extend_from_slice(b"\n")?;
    Ok(())
}

// Adds a text after a blank.
fn push_value(text: &mut Vec<u8>, value: &[u8]) -> Result<(), AllocError>
    ensures { OnOk result (text.new.items ≡ text.old.items ++ (codes " " ++ value.now)) }
{
    text.extend_from_slice(b" ")?;
    text.extend_from_slice(value)?;
    Ok(())
}

/// Adds a line of a word and the least and the greatest of a coordinate.
pub(crate) fn push_range(text: &mut Vec<u8>, word: &[u8], range: Range) -> Result<(), AllocError>
    ensures { OnOk result (text.new.items ≡ text.old.items ++ range_line word.now range) }
{
    text.extend_from_slice(word)?;
    push_signed(text, range.low)?;
    push_signed(text, range.high)?;
    text.extend_from_slice(b"\n")?;
    Ok(())
}

// Adds a signed number after a blank.
fn push_signed(text: &mut Vec<u8>, number: i32) -> Result<(), AllocError>
    ensures { OnOk result (text.new.items ≡ text.old.items ++ (codes " " ++ signed_decimal number)) }
{
    let mut digits = Buffer::new();
    text.extend_from_slice(b" ")?;
    text.extend_from_slice(digits.format(number).as_bytes())?;
    Ok(())
}

/// Adds a bin and its count, if this is not 0.
pub(crate) fn push_bin(text: &mut Vec<u8>, bin: u32, count: u64) -> Result<(), AllocError>
    ensures { OnOk result (text.new.items ≡ text.old.items ++ bin_line (bin, count)) }
{
    if count == 0 {
        return Ok(());
    }
    push_digits(text, u64::from(bin))?;
    push_number(text, count)?;
    text.extend_from_slice(b"\n")?;
    Ok(())
}
