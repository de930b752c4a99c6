//! Words to a command.

ghost use Rattle.std.specs.Prelude.{◌≡◌, ◌||◌, ◌&&◌, not, ℕ, Bool, IfOk, MatchOption, None, Some};
ghost use Rattle.std.specs.Prelude.{Err, codes, map, string_bytes};
ghost use Rattle.std.specs.List.{list_any};
ghost use Rattle.las_filter.specs.Kept.{steps_of};
ghost use Rattle.las_words.specs.Texts.{texts};
ghost use Rattle.las_words.specs.Settings.{is_given, chunk_given, text_given};
ghost use Rattle.las_words.specs.Table.{ways};
ghost use Rattle.las_words.specs.Plans.{plan_of};
ghost use Rattle.las_words.specs.Asked.{asked_by, IsSoundAsked};
ghost use Rattle.las_words.specs.Says.{says, asks, usage, asked_of, missing_option};
ghost use Rattle.las_words.specs.Says.{packs_output, wrong_word};
ghost use Rattle.las_words.specs.declared.table.Tool.TheVariants.{Laszip, Las2las, Lasinfo, Lassplit, Lasmerge, Make};

use crate::command::{Command, Packing, WordFault};
use crate::faults::first_fault;
use crate::names::{end_of, stem_of, wrong_name};
use crate::options::Options;
use crate::pieces::pieces;
use crate::table::{Flag, Tool};
use crate::texts::{is_packed_name, word};
use las_filter::Plan;
use las_info::Tap;
use std::alloc::{AllocError, Global};

/// Reads the words of a command line: the command, or the index of the first word that is wrong. Without any word that
/// is 0; a missing value or option has the number of words. The taps are those that `-tally` may name.
pub fn read_words(
    alloc: Global,
    words: &[String],
    taps: &[Box<dyn Tap>],
) -> Result<Command, WordFault>
    ensures command { IfOk result (λ command. says (texts words.now) (map (λ tap. (tap_seen tap).name) taps.now)
        ≡ asks (asked_by command)) }
    ensures usage { (index : ℕ) → result ≡ Err (WordFault.Usage index)
        → says (texts words.now) (map (λ tap. (tap_seen tap).name) taps.now) ≡ usage index }
    ensures sound { IfOk result (λ command. IsSoundAsked (map (λ tap. (tap_seen tap).name) taps.now) (asked_by command)) }
{
    let names = names_of(alloc, taps)?;
    read(alloc, words, &names)
}

// The names of taps.
fn names_of(alloc: Global, taps: &[Box<dyn Tap>]) -> Result<Vec<String>, AllocError>
    ensures { IfOk result (λ names. texts names.items ≡ map (λ tap. (tap_seen tap).name) taps.now) }
{
    let mut names = Vec::new(alloc);
    for tap in taps {
        names.push(name_of(alloc, tap)?)?;
    }
    Ok(names)
}

// The name of a tap.
fn name_of(alloc: Global, tap: &Box<dyn Tap>) -> Result<String, AllocError>
    ensures { IfOk result (λ name. string_bytes name ≡ (tap_seen tap.now).name) }
{
    String::from_str(alloc, tap.named())
}

// Reads the words of a command line. The names are those of the taps.
fn read(alloc: Global, words: &[String], names: &[String]) -> Result<Command, WordFault>
    ensures command { IfOk result (λ command. says (texts words.now) (texts names.now) ≡ asks (asked_by command)) }
    ensures usage { (index : ℕ) → result ≡ Err (WordFault.Usage index)
        → says (texts words.now) (texts names.now) ≡ usage index }
    ensures sound { IfOk result (λ command. IsSoundAsked (texts names.now) (asked_by command)) }
{
    let Some(tool) = Tool::named(word(words, 0)) else {
        return Err(WordFault::Usage(0));
    };
    let pieces = pieces(alloc, tool, words)?;
    let options = Options {
        words,
        pieces: &pieces,
    };
    if let Some(index) = wrong_word(alloc, names, tool, &options)? {
        return Err(WordFault::Usage(index));
    }
    Ok(command_of(alloc, tool, &options)?)
}

// The index of the first word that is wrong.
fn wrong_word(
    alloc: Global,
    names: &[String],
    tool: Tool,
    options: &Options<'_>,
) -> Result<Option<usize>, AllocError>
    ensures { IfOk result (λ index. index ≡ wrong_word (texts names.now) tool
        (texts options.now.words.now) options.now.pieces.now) }
{
    let fault = first_fault(names, options);
    if fault.is_some() {
        return Ok(fault);
    }
    let missing = missing_option(tool, options);
    if missing.is_some() {
        return Ok(missing);
    }
    let name = wrong_name(alloc, tool, options)?;
    if name.is_some() {
        return Ok(name);
    }
    Ok(options.pick_alone())
}

// The number of words, if a required option is missing.
fn missing_option(tool: Tool, options: &Options<'_>) -> Option<usize>
    ensures { result ≡ missing_option tool (texts options.now.words.now) options.now.pieces.now }
{
    let all = match tool {
        Tool::Laszip | Tool::Las2las | Tool::Lasmerge => {
            options.is_given("-i") && options.is_given("-o")
        }
        Tool::Lasinfo => options.is_given("-i"),
        Tool::Lassplit => {
            options.is_given("-i") && options.is_given("-o") && is_way_given(options)
        }
        Tool::Make => {
            options.is_given("-o")
                && options.is_given("-z")
                && options.is_given("-points")
                && options.is_given("-seed")
        }
    };
    if all { None } else { Some(options.words.len()) }
}

// Whether a way to split a file is given.
fn is_way_given(options: &Options<'_>) -> bool
    ensures { result ≡ list_any (λ name. is_given (texts options.now.words.now) name options.now.pieces.now) ways }
{
    options.is_given("-split")
        || options.is_given("-by_classification")
        || options.is_given("-by_flightline")
        || options.is_given("-by_return")
}

// The command of a tool with these options.
fn command_of(alloc: Global, tool: Tool, options: &Options<'_>) -> Result<Command, AllocError>
    ensures { IfOk result (λ command. asked_by command ≡ asked_of tool
        (texts options.now.words.now) options.now.pieces.now) }
{
    match tool {
        Tool::Laszip => laszip_of(alloc, options),
        Tool::Las2las => las2las_of(alloc, options),
        Tool::Lasinfo => lasinfo_of(alloc, options),
        Tool::Lassplit => lassplit_of(alloc, options),
        Tool::Lasmerge => lasmerge_of(alloc, options),
        Tool::Make => make_of(alloc, options),
    }
}

// The command `laszip` with these options.
fn laszip_of(alloc: Global, options: &Options<'_>) -> Result<Command, AllocError>
    ensures { IfOk result (λ command. asked_by command ≡ asked_of Laszip
        (texts options.now.words.now) options.now.pieces.now) }
{
    Ok(Command::Laszip {
        input: copy_of(alloc, options, "-i")?,
        output: copy_of(alloc, options, "-o")?,
        chunk: options.chunk_of(),
        workers: options.workers_of(),
    })
}

// The command `las2las` with these options.
fn las2las_of(alloc: Global, options: &Options<'_>) -> Result<Command, AllocError>
    ensures { IfOk result (λ command. asked_by command ≡ asked_of Las2las
        (texts options.now.words.now) options.now.pieces.now) }
{
    Ok(Command::Las2las {
        input: copy_of(alloc, options, "-i")?,
        output: copy_of(alloc, options, "-o")?,
        plan: plan_of(alloc, options)?,
        packing: packing_of(options),
        workers: options.workers_of(),
        start: options.start_of(),
        stop: options.stop_of(),
        step: options.step_of(),
        pick: options.pick_of(),
        unique: options.is_given("-drop_repeated"),
        tallies: options.tallies_of(alloc)?,
    })
}

// The command `lasinfo` with these options.
fn lasinfo_of(alloc: Global, options: &Options<'_>) -> Result<Command, AllocError>
    ensures { IfOk result (λ command. asked_by command ≡ asked_of Lasinfo
        (texts options.now.words.now) options.now.pieces.now) }
{
    Ok(Command::Lasinfo {
        input: copy_of(alloc, options, "-i")?,
        tallies: options.tallies_of(alloc)?,
        workers: options.workers_of(),
    })
}

// The command `lassplit` with these options.
fn lassplit_of(alloc: Global, options: &Options<'_>) -> Result<Command, AllocError>
    ensures { IfOk result (λ command. asked_by command ≡ asked_of Lassplit
        (texts options.now.words.now) options.now.pieces.now) }
{
    let output = options.text_of("-o");
    Ok(Command::Lassplit {
        input: copy_of(alloc, options, "-i")?,
        stem: String::from_str(alloc, stem_of(output))?,
        end: String::from_str(alloc, end_of(output))?,
        rule: options.rule_of(),
        workers: options.workers_of(),
    })
}

// The command `lasmerge` with these options.
fn lasmerge_of(alloc: Global, options: &Options<'_>) -> Result<Command, AllocError>
    ensures { IfOk result (λ command. asked_by command ≡ asked_of Lasmerge
        (texts options.now.words.now) options.now.pieces.now) }
{
    Ok(Command::Lasmerge {
        output: copy_of(alloc, options, "-o")?,
        inputs: options.texts_of(alloc, "-i")?,
        packing: packing_of(options),
        workers: options.workers_of(),
        copy: options.is_given("-copy_chunks"),
    })
}

// The command `make` with these options.
fn make_of(alloc: Global, options: &Options<'_>) -> Result<Command, AllocError>
    ensures { IfOk result (λ command. asked_by command ≡ asked_of Make
        (texts options.now.words.now) options.now.pieces.now) }
{
    Ok(Command::Make {
        output: copy_of(alloc, options, "-o")?,
        packed: copy_of(alloc, options, "-z")?,
        points: options.number_of(Flag::Points, 0),
        seed: options.number_of(Flag::Seed, 0),
        format: options.format_of(),
        extra: options.extra_of(),
        chunk: options.chunk_of(),
        workers: options.workers_of(),
    })
}

// The filters and the changes.
fn plan_of(alloc: Global, options: &Options<'_>) -> Result<Plan, AllocError>
    ensures { IfOk result (λ plan. steps_of plan ≡ plan_of (texts options.now.words.now) options.now.pieces.now) }
{
    Ok(Plan {
        keeps: options.filters_of(alloc)?,
        changes: options.changes_of(alloc)?,
    })
}

// How the output of `las2las` or `lasmerge` is written.
fn packing_of(options: &Options<'_>) -> Packing
    ensures packed { result.packed ≡ packs_output (texts options.now.words.now) options.now.pieces.now }
    ensures chunk { result.chunk ≡ chunk_given (texts options.now.words.now) options.now.pieces.now }
{
    let packed = options.is_given("-olaz")
        || (!options.is_given("-olas") && is_packed_name(options.text_of("-o")));
    Packing {
        packed,
        chunk: options.chunk_of(),
    }
}

// The first value of an option, as a text of its own.
fn copy_of(alloc: Global, options: &Options<'_>, name: &str) -> Result<String, AllocError>
    ensures { IfOk result (λ text. string_bytes text ≡ text_given
        (texts options.now.words.now) name.now options.now.pieces.now) }
{
    String::from_str(alloc, options.text_of(name))
}
