//! The commands and their options.

ghost use Rattle.std.specs.Prelude.{◌≡◌, map};
ghost use Rattle.std.specs.List.{list_any};
ghost use Rattle.std.specs.Str.{bytes_eq};

use las_header::{MAX_CHUNK_POINTS, MIN_CHUNK_POINTS};

/// A command.
#[derive(Clone, Copy)]
pub enum Tool {
    Laszip,
    Las2las,
    Lasinfo,
    Lassplit,
    Lasmerge,
    Make,
}

/// An option, named after its word.
#[derive(Clone, Copy)]
pub enum Flag {
    Input,
    /// `-i` of a command that takes several inputs.
    Inputs,
    Output,
    ChunkSize,
    Cores,
    Olas,
    Olaz,
    CopyChunks,
    StartAtPoint,
    StopAtPoint,
    KeepClass,
    DropClass,
    KeepReturn,
    DropReturn,
    KeepFirst,
    KeepLast,
    KeepIntensity,
    DropIntensityBelow,
    DropIntensityAbove,
    TranslateRawXyz,
    TranslateRawX,
    TranslateRawY,
    TranslateRawZ,
    SetClassification,
    SetUserData,
    SetPointSource,
    ThinRaw,
    Lowest,
    Highest,
    DropRepeated,
    Tally,
    Split,
    ByClassification,
    ByFlightline,
    ByReturn,
    /// `-z`.
    PackedOutput,
    Points,
    Seed,
    Format,
    Extra,
}

/// What values follow an option.
#[derive(Clone, Copy)]
pub enum Values {
    /// None.
    Nothing,
    /// A name: any word that is not empty.
    Name,
    /// A number from the first bound to the second.
    Number(u32, u32),
    /// A low and a high number up to the bound, the low one at most the high one.
    Bounds(u32),
    /// One number or more, each up to the bound.
    Several(u32),
    /// This many signed numbers of 32 bits.
    Signed(u32),
    /// The name of a tap, another one each time.
    Tap,
}

// How many inputs are merged at most.
const MAX_INPUTS: usize = 32;

const LASZIP: [Flag; 4] = [Flag::Input, Flag::Output, Flag::ChunkSize, Flag::Cores];

const LAS2LAS: [Flag; 29] = [
    Flag::Input,
    Flag::Output,
    Flag::ChunkSize,
    Flag::Cores,
    Flag::Olas,
    Flag::Olaz,
    Flag::StartAtPoint,
    Flag::StopAtPoint,
    Flag::KeepClass,
    Flag::DropClass,
    Flag::KeepReturn,
    Flag::DropReturn,
    Flag::KeepFirst,
    Flag::KeepLast,
    Flag::KeepIntensity,
    Flag::DropIntensityBelow,
    Flag::DropIntensityAbove,
    Flag::TranslateRawXyz,
    Flag::TranslateRawX,
    Flag::TranslateRawY,
    Flag::TranslateRawZ,
    Flag::SetClassification,
    Flag::SetUserData,
    Flag::SetPointSource,
    Flag::ThinRaw,
    Flag::Lowest,
    Flag::Highest,
    Flag::DropRepeated,
    Flag::Tally,
];

const LASINFO: [Flag; 3] = [Flag::Input, Flag::Tally, Flag::Cores];

const LASSPLIT: [Flag; 7] = [
    Flag::Input,
    Flag::Output,
    Flag::Split,
    Flag::ByClassification,
    Flag::ByFlightline,
    Flag::ByReturn,
    Flag::Cores,
];

const LASMERGE: [Flag; 7] = [
    Flag::Inputs,
    Flag::Output,
    Flag::Olas,
    Flag::Olaz,
    Flag::CopyChunks,
    Flag::ChunkSize,
    Flag::Cores,
];

const MAKE: [Flag; 8] = [
    Flag::Output,
    Flag::PackedOutput,
    Flag::Points,
    Flag::Seed,
    Flag::Format,
    Flag::Extra,
    Flag::ChunkSize,
    Flag::Cores,
];

impl Tool {
    ghost use Rattle.las_words.specs.Table.{options_of, tool_named, flag_named};

    /// The command of this name.
    pub(crate) fn named(word: &str) -> Option<Tool>
        ensures { result ≡ tool_named word.now }
    {
        match word {
            "laszip" => Some(Tool::Laszip),
            "las2las" => Some(Tool::Las2las),
            "lasinfo" => Some(Tool::Lasinfo),
            "lassplit" => Some(Tool::Lassplit),
            "lasmerge" => Some(Tool::Lasmerge),
            "make" => Some(Tool::Make),
            _ => None,
        }
    }

    /// The options of the command.
    fn options(self) -> &'static [Flag]
        ensures { result.now ≡ options_of self }
    {
        match self {
            Tool::Laszip => &LASZIP,
            Tool::Las2las => &LAS2LAS,
            Tool::Lasinfo => &LASINFO,
            Tool::Lassplit => &LASSPLIT,
            Tool::Lasmerge => &LASMERGE,
            Tool::Make => &MAKE,
        }
    }

    /// The option of the command that has this name.
    pub(crate) fn flag(self, word: &str) -> Option<Flag>
        ensures { result ≡ flag_named self word.now }
    {
        for flag in self.options() {
            if word == flag.name() {
                return Some(*flag);
            }
        }
        None
    }
}

impl Flag {
    ghost use Rattle.las_words.specs.Table.{row_of};

    /// The word of the option.
    pub(crate) fn name(self) -> &'static str
        ensures { result.now ≡ (row_of self).name }
    {
        match self {
            Flag::Input | Flag::Inputs => "-i",
            Flag::Output => "-o",
            Flag::ChunkSize => "-chunk_size",
            Flag::Cores => "-cores",
            Flag::Olas => "-olas",
            Flag::Olaz => "-olaz",
            Flag::CopyChunks => "-copy_chunks",
            Flag::StartAtPoint => "-start_at_point",
            Flag::StopAtPoint => "-stop_at_point",
            Flag::KeepClass => "-keep_class",
            Flag::DropClass => "-drop_class",
            Flag::KeepReturn => "-keep_return",
            Flag::DropReturn => "-drop_return",
            Flag::KeepFirst => "-keep_first",
            Flag::KeepLast => "-keep_last",
            Flag::KeepIntensity => "-keep_intensity",
            Flag::DropIntensityBelow => "-drop_intensity_below",
            Flag::DropIntensityAbove => "-drop_intensity_above",
            Flag::TranslateRawXyz => "-translate_raw_xyz",
            Flag::TranslateRawX => "-translate_raw_x",
            Flag::TranslateRawY => "-translate_raw_y",
            Flag::TranslateRawZ => "-translate_raw_z",
            Flag::SetClassification => "-set_classification",
            Flag::SetUserData => "-set_user_data",
            Flag::SetPointSource => "-set_point_source",
            Flag::ThinRaw => "-thin_raw",
            Flag::Lowest => "-lowest",
            Flag::Highest => "-highest",
            Flag::DropRepeated => "-drop_repeated",
            Flag::Tally => "-tally",
            Flag::Split => "-split",
            Flag::ByClassification => "-by_classification",
            Flag::ByFlightline => "-by_flightline",
            Flag::ByReturn => "-by_return",
            Flag::PackedOutput => "-z",
            Flag::Points => "-points",
            Flag::Seed => "-seed",
            Flag::Format => "-format",
            Flag::Extra => "-extra",
        }
    }

    /// The values that follow the option.
    pub(crate) fn values(self) -> Values
        ensures { result ≡ (row_of self).values }
    {
        match self {
            Flag::Input | Flag::Inputs | Flag::Output | Flag::PackedOutput => Values::Name,
            Flag::ChunkSize => Values::Number(MIN_CHUNK_POINTS, MAX_CHUNK_POINTS),
            Flag::Cores => Values::Number(1, 8),
            Flag::Olas | Flag::Olaz | Flag::CopyChunks => Values::Nothing,
            Flag::KeepFirst | Flag::KeepLast => Values::Nothing,
            Flag::Lowest | Flag::Highest | Flag::DropRepeated => Values::Nothing,
            Flag::StartAtPoint | Flag::StopAtPoint => Values::Number(0, u32::MAX),
            Flag::ByClassification | Flag::ByFlightline | Flag::ByReturn => Values::Nothing,
            Flag::KeepClass | Flag::DropClass => Values::Several(31),
            Flag::KeepReturn | Flag::DropReturn => Values::Several(7),
            Flag::KeepIntensity => Values::Bounds(65_535),
            Flag::DropIntensityBelow | Flag::DropIntensityAbove => Values::Number(0, 65_535),
            Flag::TranslateRawXyz => Values::Signed(3),
            Flag::TranslateRawX | Flag::TranslateRawY | Flag::TranslateRawZ => Values::Signed(1),
            Flag::SetClassification => Values::Number(0, 31),
            Flag::SetUserData => Values::Number(0, 255),
            Flag::SetPointSource => Values::Number(0, 65_535),
            Flag::ThinRaw => Values::Number(1, 2_147_483_647),
            Flag::Tally => Values::Tap,
            Flag::Split => Values::Number(1, u32::MAX),
            Flag::Points => Values::Number(0, 10_000_000),
            Flag::Seed => Values::Number(0, u32::MAX),
            Flag::Format => Values::Number(0, 3),
            Flag::Extra => Values::Number(0, 192),
        }
    }

    /// Whether an option of the given name is a rival of this one. Mostly that is this option itself, which is given
    /// once.
    pub(crate) fn is_rival(self, name: &str) -> bool
        ensures { result ≡ list_any (bytes_eq name.now) (row_of self).rivals }
    {
        match self {
            Flag::ChunkSize => is_any(name, &["-chunk_size", "-copy_chunks"]),
            Flag::Olas => is_any(name, &["-olas", "-olaz", "-copy_chunks"]),
            Flag::Olaz => is_any(name, &["-olas", "-olaz"]),
            Flag::CopyChunks => is_any(name, &["-copy_chunks", "-olas", "-chunk_size"]),
            Flag::Split | Flag::ByClassification | Flag::ByFlightline | Flag::ByReturn => {
                is_any(
                    name,
                    &[
                        "-split",
                        "-by_classification",
                        "-by_flightline",
                        "-by_return",
                    ],
                )
            }
            Flag::Lowest | Flag::Highest => is_any(name, &["-lowest", "-highest"]),
            Flag::Tally => false,
            _ => name == self.name(),
        }
    }

    /// How many of its rivals may stand before this option.
    pub(crate) fn before(self) -> usize
        ensures { result ≡ (row_of self).before }
    {
        match self {
            Flag::Inputs => MAX_INPUTS - 1,
            _ => 0,
        }
    }
}

// Whether a name is one of some names.
fn is_any(name: &str, names: &[&str]) -> bool
    ensures { result ≡ list_any (bytes_eq name.now) (map (λ one. one.now) names.now) }
{
    for one in names {
        if name == *one {
            return true;
        }
    }
    false
}
