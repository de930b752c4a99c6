//! The part of an input that is copied.
ghost use Rattle.std.specs.Prelude.{◌≡◌, ◌+◌, ◌^◌, ◌<◌};

use std::marker::Model;

/// A part of a file: `size` bytes from `place` on.
#[derive(Drop)]
pub(crate) struct Source {
    pub(crate) name: String,
    pub(crate) place: u64,
    pub(crate) size: u64,
}

impl Model for Source {
    ghost use Rattle.std.specs.Prelude.{◌+◌, ◌^◌, ◌<◌, string_bytes};
    ghost use Rattle.las_merge.specs.Appending.{SourceSeen};

    ghost Value = { SourceSeen };

    ghost view = { λ s. record { name = string_bytes s.name; place = s.place; size = s.size } };

    ghost invariant = { λ s. s.place + s.size < 2 ^ 64 };
}

impl Source {
    /// The name of the file.
    pub(crate) fn name(&self) -> &str
        ensures { result.now ≡ self.now.name }
    {
        &self.name
    }

    /// Where the part begins, and how many bytes it has.
    pub(crate) fn span(&self) -> (u64, u64)
        ensures place { result.0 ≡ self.now.place }
        ensures size { result.1 ≡ self.now.size }
        ensures near { result.0 + result.1 < 2 ^ 64 }
    {
        (self.place, self.size)
    }
}
