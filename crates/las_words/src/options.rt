//! The words of a command line with the options among them.
ghost use Rattle.las_words.specs.Pieces.{StandIn};

use crate::pieces::Piece;

/// Words, and the options that they are cut into, or the first of these. Each option stands among the words.
#[derive(Clone, Copy)]
pub struct Options<'a> {
    /// The words of the command line.
    pub words: &'a [String],
    /// The options, in the order of the words.
    pub pieces: &'a [Piece],
    pub ghost within: { StandIn words.now pieces.now },
}
