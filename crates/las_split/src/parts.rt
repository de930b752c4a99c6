//! The parts of a file while their records are written.
ghost use Rattle.std.specs.Prelude.{◌≡◌, ◌++◌, ◌∷◌, [], IfErr, OnErr, OnOk};
ghost use Rattle.las_outside.specs.Frames.{IsCalm, OnlyWrites};
ghost use Rattle.laz_forms.specs.FileFaults.{HasCause};
ghost use Rattle.las_split.specs.Splitters.{OpensPart, part_output};
ghost use Rattle.laz_file.specs.Copying.{LeavesPrefix};
ghost use Rattle.laz_forms.specs.Outputs.{front};

use crate::gathering::Gathered;
use crate::numbers::Numbers;
use crate::splitter::Splitter;
use las_outside::Files;
use laz_file::{Fault, Writer};
use std::alloc::Global;

/// The numbers of the parts in the order of their first records, the writer of each, and the records of a block that
/// are on their way to it.
#[derive(Drop)]
pub(crate) struct Parts {
    pub(crate) numbers: Numbers,
    pub(crate) writers: Vec<Writer>,
    pub(crate) gathered: Gathered,
}

impl Parts {
    /// No part.
    pub(crate) fn new(alloc: Global) -> Parts
        ensures numbers { result.numbers ≡ [] }
        ensures writers { result.writers.items ≡ [] }
    {
        Parts {
            numbers: Numbers::new(alloc),
            writers: Vec::new(alloc),
            gathered: Gathered::new(alloc),
        }
    }

    /// Opens a part: creates its output and appends the head, with counts of zero.
    pub(crate) fn open<F: Files>(
        &mut self,
        alloc: Global,
        files: &mut F,
        splitter: &Splitter,
        number: u32,
    ) -> Result<(), Fault>
        ensures numbers { OnOk result (self.new.numbers ≡ self.old.numbers ++ number ∷ []) }
        ensures gathered { self.new.gathered ≡ self.old.gathered }
        ensures writers { OnOk result (OpensPart splitter.now number (F.seen files.old) (F.seen files.new)
            self.old.writers.items self.new.writers.items) }
        ensures left { OnErr result (LeavesPrefix (F.seen files.old).held (F.seen files.new).held
            (part_output splitter.now number).name (front (part_output splitter.now number))) }
        ensures cause { IfErr result (HasCause (F.seen files.old) (F.seen files.new)) }
        ensures calm { OnOk result (IsCalm (F.seen files.old) (F.seen files.new)) }
        ensures writes { OnlyWrites (F.seen files.old) (F.seen files.new) }
    {
        let head = splitter.head;
        let name = splitter.names.name_of(alloc, number)?;
        let most = head.points();
        let writer = Writer::create(alloc, files, &name, head, None, true, most, 1)?;
        self.numbers.add(number)?;
        match self.writers.push(writer) {
            Ok(()) => Ok(()),
            Err(_) => Err(Fault::Memory),
        }
    }
}
