//! Rules by which a file is split into parts.

/// By which rule `lassplit` splits a file into numbered parts. Places of records are counted from 0.
#[derive(Clone, Copy, Debug, PartialEq, Eq)]
pub enum Rule {
    /// This many records a part, 1 or more, in the order of the file (`-split`).
    Every(u32),
    /// A part for each class, 0 to 31 (`-by_classification`).
    Class,
    /// A part for each point source ID, 0 to 65,535 (`-by_flightline`).
    Source,
    /// A part for each return number, 0 to 7 (`-by_return`).
    Return,
}
