//! What is kept of an input from its opening to its turn.
ghost use Rattle.std.specs.Prelude.{◌≡◌};

use las_header::Head;
use std::marker::Model;

/// An input that was opened and closed again: its name and its head. Its chunks are not kept.
#[derive(Drop)]
pub(crate) struct Input {
    pub(crate) name: String,
    pub(crate) head: Head,
}

impl Model for Input {
    ghost use Rattle.std.specs.Prelude.{string_bytes};
    ghost use Rattle.las_merge.specs.Opening.{InputSeen};

    ghost Value = { InputSeen };

    ghost view = { λ i. record { name = string_bytes i.name; head = i.head } };
}

impl Input {
    /// The head.
    pub(crate) fn head(&self) -> &Head
        ensures { result.now ≡ self.now.head }
    {
        &self.head
    }
}
