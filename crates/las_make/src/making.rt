//! Both files, one after the other.
ghost use Rattle.std.specs.Prelude.{◌≡◌, ◌≢◌, IfErr, IfOk, IsErrOf, IsSome, OnOk, length};
ghost use Rattle.las_header.specs.declared.refusal.Refusal.{Refusal};
ghost use Rattle.las_outside.specs.Frames.{IsCalm};
ghost use Rattle.las_header.specs.Limits.{IsChunkSize};
ghost use Rattle.las_outside.specs.Limits.{AreWorkers};
ghost use Rattle.las_outside.specs.Outside.{Later};
ghost use Rattle.laz_reader.specs.Asking.{AsksAtMost};
ghost use Rattle.laz_forms.specs.Packing.{packed_file};
ghost use Rattle.las_make.specs.declared.fault.MakeFault.TheVariants.{Changed};
ghost use Rattle.las_make.specs.Made.{IsInRange, made_file};
ghost use Rattle.las_make.specs.Making.{FailsMaking, with_made};

use crate::packing::{fault_of, pack_plain};
use crate::plain::write_plain;
use crate::{MakeFault, Settings};
use las_outside::{Files, Gate};
use laz_workers::Machine;
use std::thread::Threads;

/// The sizes of both files, in bytes.
#[derive(Clone, Copy, Debug, PartialEq, Eq)]
pub struct Sizes {
    /// What writing the plain file answered.
    pub plain: u64,
    /// What was asked of the packed file after it was written.
    pub packed: u64,
}

/// Makes two files, under two names: the plain file that the settings determine, and its packed form in chunks of
/// `chunk` points, 256 to 250,000. The machine's workers pack side by side, and what is written does not depend on
/// them.
///
/// The head of the plain file has the counts of its records from the start. The file is read again and packed, and then
/// the size of the packed file is asked. After `Write` or `Memory` the files are as before, or the plain file is a
/// prefix of its own bytes, or it is whole and the packed one is as before, a prefix of its draft, or its draft after a
/// part of its patch. After `ReadPlain` the plain file is whole, and the packed one is as before or a prefix of its
/// draft, and not all of it. After `ReadPacked` both are whole. A read or a write that failed has raised its count.
/// `Changed` comes only if it is not known what the files hold.
pub fn make<R: Threads + Sync, F: Files, G: Gate>(
    machine: Machine<'_, R, G>,
    files: &mut F,
    plain: &str,
    packed: &str,
    settings: Settings,
    chunk: u32,
) -> Result<Sizes, MakeFault>
    requires range { IsInRange settings }
    requires chunk { IsChunkSize chunk }
    requires workers { AreWorkers machine.workers }
    requires names { packed.now ≢ plain.now }

    ensures made { OnOk result
        ((F.seen files.new).held ≡ with_made plain.now packed.now settings chunk (F.seen files.old).held) }
    ensures plain_size { IfOk result (λ sizes. sizes.plain ≡ length (made_file settings)) }
    ensures packed_size { IfOk result (λ sizes. IsSome (F.seen files.old).held
        → sizes.packed ≡ length (packed_file (made_file settings) chunk)) }

    ensures fails { IfErr result
        (FailsMaking plain.now packed.now settings chunk (F.seen files.old) (F.seen files.new)) }
    ensures calm { OnOk result (IsCalm (F.seen files.old) (F.seen files.new)) }
    // No call has failed if the file is refused when it is read again.
    ensures calm_changed { (cause : Refusal) → IsErrOf result (Changed cause)
        → IsCalm (F.seen files.old) (F.seen files.new) }
    // Over known files the plain file is read once, however the call ends.
    ensures asked { IsSome (F.seen files.old).held
        → AsksAtMost (length (made_file settings)) (F.seen files.old) (F.seen files.new) }
    ensures later { Later (F.seen files.old) (F.seen files.new) }
{
    let plain_size = match write_plain(machine, files, plain, settings) {
        Ok(size) => size,
        Err(fault) => return Err(fault_of(fault)),
    };
    match pack_plain(machine, files, plain, packed, chunk) {
        Ok(()) => match files.size(packed) {
            Ok(packed_size) => Ok(Sizes {
                plain: plain_size,
                packed: packed_size,
            }),
            Err(_) => Err(MakeFault::ReadPacked),
        },
        Err(fault) => Err(fault_of(fault)),
    }
}
