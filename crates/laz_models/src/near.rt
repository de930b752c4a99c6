//! Where a decoder's search for a symbol begins.

/// A symbol, the start of its part, and the starts of the next two parts. A start after the last one is the guard,
/// 65,535.
#[derive(Clone, Copy)]
pub struct Near {
    /// The symbol.
    pub symbol: u32,
    /// Where its part begins, of 2^15 parts.
    pub start: u32,
    /// Where the next part begins.
    pub next: u32,
    /// Where the part after that begins.
    pub after: u32,
}
