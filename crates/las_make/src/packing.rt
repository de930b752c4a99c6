//! The packed file, from the plain file that is read again.
ghost use Rattle.std.specs.Prelude.{◌≡◌, ◌≢◌, ◌+◌, drop, IsErrOf};
ghost use Rattle.las_header.specs.declared.refusal.Refusal.{Refusal};
ghost use Rattle.las_header.specs.Fields.{point_offset_of};
ghost use Rattle.las_outside.specs.Files.{WhereKnown};
ghost use Rattle.las_outside.specs.Frames.{IsCalm};
ghost use Rattle.las_header.specs.Limits.{IsChunkSize};
ghost use Rattle.las_outside.specs.Limits.{AreWorkers};
ghost use Rattle.las_outside.specs.Outside.{Later};
ghost use Rattle.laz_reader.specs.Asking.{AsksAtMost, asked_to_open};
ghost use Rattle.laz_forms.specs.Sizes.{points_size};
ghost use Rattle.laz_forms.specs.Laws.{CanBePacked};
ghost use Rattle.laz_forms.specs.declared.fault.Fault.TheVariants.{Read, Refused};
ghost use Rattle.laz_file.specs.Copying.{LeavesInPart, Packs, packed_output};
ghost use Rattle.laz_file.specs.Endings.{EndsMaking};
ghost use Rattle.las_make.specs.Making.{make_fault};

use crate::MakeFault;
use las_header::Refusal;
use las_outside::{Files, Gate};
use laz_file::{Fault, Reader, pack};
use laz_workers::Machine;
use std::thread::Threads;

/// What a fault stands for while the plain file is written or read again.
pub(crate) fn fault_of(fault: Fault) -> MakeFault
    ensures { result ≡ make_fault fault }
{
    match fault {
        Fault::Refused(cause) => MakeFault::Changed(cause),
        Fault::Read => MakeFault::ReadPlain,
        Fault::Write => MakeFault::Write,
        Fault::Memory => MakeFault::Memory,
    }
}

/// Reads a plain file and packs it. It can be packed, if the files are known.
pub(crate) fn pack_plain<R: Threads + Sync, F: Files, G: Gate>(
    machine: Machine<'_, R, G>,
    files: &mut F,
    plain: &str,
    packed: &str,
    chunk: u32,
) -> Result<(), Fault>
    requires chunk { IsChunkSize chunk }
    requires workers { AreWorkers machine.workers }
    requires names { packed.now ≢ plain.now }
    requires accepted { WhereKnown (F.seen files.old).held plain.now (λ file. CanBePacked file chunk) }
    ensures ends { EndsMaking (Packs packed.now chunk) plain.now (F.seen files.old) (F.seen files.new) result }
    ensures in_part { IsErrOf result Read → WhereKnown (F.seen files.old).held plain.now (λ file.
        LeavesInPart (packed_output packed.now file chunk) (drop (point_offset_of file) file)
        (F.seen files.old).held (F.seen files.new).held) }
    ensures calm_refused { (cause : Refusal) → IsErrOf result (Refused cause)
        → IsCalm (F.seen files.old) (F.seen files.new) }
    ensures asked { WhereKnown (F.seen files.old).held plain.now (λ file.
        AsksAtMost (asked_to_open file + points_size file) (F.seen files.old) (F.seen files.new)) }
    ensures later { Later (F.seen files.old) (F.seen files.new) }
{
    let reader = Reader::open(machine.alloc, files, plain)?;
    if reader.chunk().is_some() {
        return Err(Fault::Refused(Refusal::StrayVlr));
    }
    pack(
        machine.rt,
        machine.alloc,
        files,
        machine.gate,
        reader,
        packed,
        chunk,
        machine.workers,
    )
}
