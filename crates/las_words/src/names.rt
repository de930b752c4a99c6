//! The names that a command has, and which of them it may not have.

ghost use Rattle.std.specs.Prelude.{◌≡◌, IfOk};
ghost use Rattle.las_words.specs.Texts.{texts};
ghost use Rattle.las_words.specs.Names.{extension_of, stem_of, number_within, is_part_name, name_after, overwritten_name};
ghost use Rattle.las_words.specs.Names.{plain_copy, unfit_parts, same_output, wrong_name};

use crate::numbers::number_or_zero;
use crate::options::Options;
use crate::table::Tool;
use crate::texts::is_packed_name;
use las_filter::part_name;
use std::alloc::{AllocError, Global};
use std::str;

/// The ending of the names of parts, by the name of the output.
pub(crate) fn end_of(output: &str) -> &'static str
    ensures { result.now ≡ extension_of output.now }
{
    let bytes = output.as_bytes();
    if bytes.ends_with(b".las") {
        ".las"
    } else if bytes.ends_with(b".LAS") {
        ".LAS"
    } else {
        ""
    }
}

/// The stem of the names of parts, by the name of the output.
pub(crate) fn stem_of(output: &str) -> &str
    ensures { result.now ≡ stem_of output.now }
{
    match output.strip_suffix(end_of(output)) {
        Some(stem) => stem,
        None => output,
    }
}

// The number that a name has between a stem with an underscore and an ending, or 0.
fn number_within(stem: &str, end: &str, name: &str) -> u32
    ensures { result ≡ number_within stem.now end.now name.now }
{
    let from = stem.len() + 1;
    if name.len() < end.len() || name.len() - end.len() < from {
        return 0;
    }
    match str::from_utf8(&name.as_bytes()[from..name.len() - end.len()]) {
        Ok(word) => number_or_zero(word, u32::MAX),
        Err(_) => 0,
    }
}

// Whether a part has this name.
fn is_part_name(alloc: Global, stem: &str, end: &str, name: &str) -> Result<bool, AllocError>
    ensures { IfOk result (λ is. is ≡ is_part_name stem.now end.now name.now) }
{
    let part = part_name(alloc, stem, end, number_within(stem, end, name))?;
    Ok(name == part.as_str())
}

// The index of the name after an option.
fn name_after(options: &Options<'_>, name: &str) -> Option<usize>
    ensures { result ≡ name_after (texts options.now.words.now) name.now options.now.pieces.now }
{
    options.place_of(name).map(|at| at + 1)
}

// The index of the output's name, if it is that of an input.
fn same_name(options: &Options<'_>) -> Option<usize>
    ensures { result ≡ overwritten_name (texts options.now.words.now) options.now.pieces.now }
{
    if options.is_value("-i", options.text_of("-o")) {
        name_after(options, "-o")
    } else {
        None
    }
}

// The index of the output's name, if parts cannot be named after it: packed ones, or the input.
fn unfit_parts(alloc: Global, options: &Options<'_>) -> Result<Option<usize>, AllocError>
    ensures { IfOk result (λ index. index ≡ unfit_parts (texts options.now.words.now) options.now.pieces.now) }
{
    let input = options.text_of("-i");
    let output = options.text_of("-o");
    if is_packed_name(output) || is_part_name(alloc, stem_of(output), end_of(output), input)? {
        Ok(name_after(options, "-o"))
    } else {
        Ok(None)
    }
}

// The index of the packed output's name, if it is that of the plain one.
fn same_output(options: &Options<'_>) -> Option<usize>
    ensures { result ≡ same_output (texts options.now.words.now) options.now.pieces.now }
{
    if options.text_of("-z") == options.text_of("-o") {
        name_after(options, "-z")
    } else {
        None
    }
}

// The index of the output's name, if chunks are copied into it and it is that of a plain file.
fn plain_copy(options: &Options<'_>) -> Option<usize>
    ensures { result ≡ plain_copy (texts options.now.words.now) options.now.pieces.now }
{
    if options.is_given("-copy_chunks")
        && !options.is_given("-olaz")
        && !is_packed_name(options.text_of("-o"))
    {
        name_after(options, "-o")
    } else {
        None
    }
}

/// The index of the name that a command may not have.
pub(crate) fn wrong_name(
    alloc: Global,
    tool: Tool,
    options: &Options<'_>,
) -> Result<Option<usize>, AllocError>
    ensures { IfOk result (λ index. index ≡ wrong_name tool (texts options.now.words.now) options.now.pieces.now) }
{
    match tool {
        Tool::Lassplit => {
            let same = same_name(options);
            if same.is_some() {
                return Ok(same);
            }
            unfit_parts(alloc, options)
        }
        Tool::Lasmerge => {
            let same = same_name(options);
            if same.is_some() {
                return Ok(same);
            }
            Ok(plain_copy(options))
        }
        Tool::Make => Ok(same_output(options)),
        _ => Ok(same_name(options)),
    }
}
