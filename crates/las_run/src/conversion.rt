//! What `las2las` does to an input.
use las_filter::Plan;
use las_thin::Pick;
use las_words::Packing;

/// Which records of an input `las2las` takes, beside the filters of its plan, and how it writes them.
#[derive(Clone, Copy)]
pub struct Conversion {
    /// How the output is written.
    pub packing: Packing,
    /// The place of the first record that is taken, from 0.
    pub start: u32,
    /// The place of the first record after it that is not taken.
    pub stop: u32,
    /// The side of a cell in units of X and Y, if one record of each cell is to stay.
    pub step: Option<u32>,
    /// Which one that is.
    pub pick: Pick,
    /// Whether records are dropped that repeat the position of an earlier one.
    pub unique: bool,
}

/// What `las2las` is to do, and to which file.
#[derive(Clone, Copy)]
pub struct Request<'a> {
    /// The name of the input.
    pub input: &'a str,
    /// The name of the output.
    pub output: &'a str,
    /// The filters and the changes.
    pub plan: &'a Plan,
    /// The range, how records are thinned, and how they are written.
    pub conversion: Conversion,
}
