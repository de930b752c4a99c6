//! Which record of a cell stays.

/// Which record of a cell stays if a list is thinned.
#[derive(Clone, Copy, Debug, PartialEq, Eq)]
pub enum Pick {
    /// The first.
    First,
    /// The one with the least Z, and of these the first.
    Lowest,
    /// The one with the greatest Z, and of these the first.
    Highest,
}
