//! The records of a block on their way into the parts.
ghost use Rattle.std.specs.Prelude.{◌≡◌, ◌+◌, ◌++◌, ◌<◌, ◌≤◌, length, IfErr, OnErr, OnOk};
ghost use Rattle.las_outside.specs.Frames.{IsCalm, OnlyWrites};
ghost use Rattle.laz_forms.specs.declared.fault.Fault.TheVariants.{Write};
ghost use Rattle.laz_forms.specs.FileFaults.{HasCause};
ghost use Rattle.las_split.specs.Sorting.{LeavesPrefixes};
ghost use Rattle.las_split.specs.Steps.{AreIn, OfPushed, OfSorted, HavePushed, HaveSorted, PushesPlace};

use crate::parts::Parts;
use las_outside::{Files, Gate};
use laz_file::Fault;
use laz_workers::Machine;
use std::thread::Threads;

// Pushes the records of a block that belong to the part at this place, in one call. The parts before it have theirs.
fn push_place<R: Threads + Sync, F: Files, G: Gate>(
    machine: &Machine<R, G>,
    files: &mut F,
    place: usize,
    parts: &mut Parts,
) -> Result<(), Fault>
    requires place { place < length parts.old.numbers }
    requires parts { HavePushed (F.seen files.old).held parts.old place }
    ensures pushed { PushesPlace result (F.seen files.old).held (F.seen files.new).held
        parts.old parts.new place }
    ensures left { OfPushed (F.seen files.old).held parts.old place (λ task was records block.
        OnErr result (LeavesPrefixes task was (F.seen files.new).held (records ++ block))) }
    ensures numbers { parts.new.numbers ≡ parts.old.numbers }
    ensures gathered { parts.new.gathered ≡ parts.old.gathered }
    ensures cause { IfErr result (HasCause (F.seen files.old) (F.seen files.new)) }
    ensures calm { OnOk result (IsCalm (F.seen files.old) (F.seen files.new)) }
    ensures writes { OnlyWrites (F.seen files.old) (F.seen files.new) }
{
    let text = parts.gathered.text(place);
    if text.is_empty() {
        return Ok(());
    }
    let writer = &mut parts.writers[place];
    writer.push(machine.rt, machine.alloc, files, machine.gate, text)?;
    Ok(())
}

/// Pushes the records of a block into the writers of their parts, those of a part in one call.
pub(crate) fn push_parts<R: Threads + Sync, F: Files, G: Gate>(
    machine: &Machine<R, G>,
    files: &mut F,
    parts: &mut Parts,
) -> Result<(), Fault>
    requires parts { HaveSorted (F.seen files.old).held parts.old }
    ensures pushed { OfSorted (F.seen files.old).held parts.old (λ task was records block.
        OnOk result (AreIn task was (F.seen files.new).held parts.new (records ++ block) (records ++ block))) }
    ensures left { OfSorted (F.seen files.old).held parts.old (λ task was records block.
        OnErr result (LeavesPrefixes task was (F.seen files.new).held (records ++ block))) }
    ensures some { IfErr result (λ fault. fault ≡ Write → 1 ≤ length parts.old.writers.items) }
    ensures cause { IfErr result (HasCause (F.seen files.old) (F.seen files.new)) }
    ensures calm { OnOk result (IsCalm (F.seen files.old) (F.seen files.new)) }
    ensures writes { OnlyWrites (F.seen files.old) (F.seen files.new) }
{
    for place in 0..parts.writers.len() {
        push_place(machine, files, place, parts)?;
    }
    Ok(())
}
