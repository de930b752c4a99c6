//! The place of a model of a bank.

/// Where the cells of a model of a bank lie, and how far its present cycle has come.
#[derive(Clone, Copy)]
pub struct Place {
    /// The index of its first cell.
    pub start: usize,
    /// The index after its last cell.
    pub end: usize,
    /// The index of the first cell of the distribution of a new model of its size.
    pub first: usize,
    /// The index of the first cell of its present distribution.
    pub dist: usize,
    /// How many symbols it has.
    pub size: u32,
    /// How many bits of a place are not used to choose an entry of the look-up table.
    pub shift: u32,
    /// The sum of the counts at the beginning of the present cycle.
    pub total: u32,
    /// How long the present cycle is.
    pub cycle: u32,
    /// Whether its present distribution has a look-up table.
    pub indexed: bool,
    /// Whether the model is in its first cycle, with the distribution of a new model.
    pub even: bool,
    /// How many symbols of the cycle are still to come, or 0 if the model is new and its cells are not laid out.
    pub remaining: u32,
}
