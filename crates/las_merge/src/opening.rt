//! The inputs of a merge, which are opened one after another, and each again for its turn.
ghost use Rattle.std.specs.Prelude.{◌≡◌, ◌^◌, ◌<◌, ◌≤◌, ◌++◌, ◌∷◌, [], length, vec_len, None, Some, IfErr, IfOk, OnOk};
ghost use Rattle.std.specs.FinMap as finmap;
ghost use Rattle.las_outside.specs.Files.{WhereKnown};
ghost use Rattle.las_outside.specs.Frames.{IsCalm, OnlyReads};
ghost use Rattle.laz_reader.specs.Asking.{AsksAtMost, asked_to_open};
ghost use Rattle.las_merge.specs.declared.fault.MergeFault.TheVariants.{TooManyPoints};
ghost use Rattle.las_merge.specs.declared.field.Field.{Field};
ghost use Rattle.las_merge.specs.Fields.{first_difference};
ghost use Rattle.las_merge.specs.Asking.{asked_of_all, asked_to_compare};
ghost use Rattle.las_merge.specs.Inputs.{IfKnown, names_of};
ghost use Rattle.las_merge.specs.Copying.{IsFaultOf};
ghost use Rattle.las_merge.specs.Opening.{AreOpen, EndsOpening, FailsAt, FailsNext, InputSeen, IsAgain, IsNextInput, IsOpen};
ghost use Rattle.las_merge.specs.Opening.{merge_fault, first_read, points_read};
ghost use Rattle.las_merge.specs.Packed.{IsNoFault};

use crate::field::first_difference;
use crate::input::Input;
use crate::{Field, MergeFault};
use las_header::{Head, Refusal};
use las_outside::Files;
use laz_file::{Fault, Reader};
use std::alloc::Global;

/// A fault of a call on the input of this number: it is that input's, unless the output could not be written.
pub(crate) fn fault_of(number: u32, fault: Fault) -> MergeFault
    ensures { result ≡ merge_fault number fault }
{
    match fault {
        Fault::Write => MergeFault::Write,
        Fault::Refused(cause) => MergeFault::At(number, Fault::Refused(cause)),
        Fault::Read => MergeFault::At(number, Fault::Read),
        Fault::Memory => MergeFault::At(number, Fault::Memory),
    }
}

/// The first field in which the head of an input differs from that of the first, if there is a first.
pub(crate) fn difference(inputs: &[Input], head: &Head) -> Option<Field>
    ensures same { result ≡ None → 1 ≤ length inputs.now
        → first_difference (first_read inputs.now) head.now.bytes ≡ None }
    ensures other { (field : Field) → result ≡ Some field → (1 ≤ length inputs.now)
        × (first_difference (first_read inputs.now) head.now.bytes ≡ Some field) }
{
    let [first, ..] = inputs else {
        return None;
    };
    first_difference(&first.head, head)
}

// Opens the input of this number, and keeps its head alone.
fn open_input<F: Files>(
    alloc: Global,
    files: &mut F,
    number: u32,
    name: &str,
) -> Result<Input, MergeFault>
    ensures named { IfOk result (λ input. input.name ≡ name.now) }
    ensures opened { IfOk result (IsOpen (F.seen files.old).held) }
    ensures ends { IfErr result (FailsAt number name.now (F.seen files.old) (F.seen files.new)) }
    ensures asked { IfKnown (F.seen files.old).held (λ known.
        AsksAtMost (asked_to_compare (finmap.get known name.now)) (F.seen files.old) (F.seen files.new)) }
    ensures reads { OnlyReads (F.seen files.old) (F.seen files.new) }
    ensures calm { OnOk result (IsCalm (F.seen files.old) (F.seen files.new)) }
    ensures calm_kept { IfErr result (λ fault. IsNoFault fault
        → IsCalm (F.seen files.old) (F.seen files.new)) }
{
    let reader = match Reader::open(alloc, files, name) {
        Ok(reader) => reader,
        Err(fault) => return Err(fault_of(number, fault)),
    };
    match String::from_str(alloc, name) {
        Ok(name) => Ok(Input {
            name,
            head: reader.into_head(),
        }),
        Err(_) => Err(MergeFault::At(number, Fault::Memory)),
    }
}

// Opens the input after these, and compares it with the first.
fn open_next<F: Files>(
    alloc: Global,
    files: &mut F,
    inputs: &mut Vec<Input>,
    name: &str,
) -> Result<(), MergeFault>
    requires few { vec_len inputs.old < 32 }
    ensures opened { OnOk result ((input : InputSeen) × IsNextInput (F.seen files.old).held name.now inputs.old.items input
        × (inputs.new.items ≡ inputs.old.items ++ input ∷ [])) }
    ensures ends { IfErr result
        (FailsNext name.now inputs.old.items (F.seen files.old) (F.seen files.new)) }
    ensures asked { IfKnown (F.seen files.old).held (λ known.
        AsksAtMost (asked_to_compare (finmap.get known name.now)) (F.seen files.old) (F.seen files.new)) }
    ensures reads { OnlyReads (F.seen files.old) (F.seen files.new) }
    ensures calm { OnOk result (IsCalm (F.seen files.old) (F.seen files.new)) }
    ensures calm_kept { IfErr result (λ fault. IsNoFault fault
        → IsCalm (F.seen files.old) (F.seen files.new)) }
{
    let number = inputs.len() as u32;
    let input = open_input(alloc, files, number, name)?;
    if let Some(field) = difference(inputs, input.head()) {
        return Err(MergeFault::Unequal(number, field));
    }
    match inputs.push(input) {
        Ok(()) => Ok(()),
        Err(_) => Err(MergeFault::At(number, Fault::Memory)),
    }
}

/// Opens the inputs in order. Each after the first is compared with the first at once. Each is closed again: of all
/// inputs the heads alone are kept.
pub(crate) fn open_inputs<F: Files>(
    alloc: Global,
    files: &mut F,
    names: &[String],
) -> Result<Vec<Input>, MergeFault>
    requires few { length names.now ≤ 32 }
    ensures opened { IfOk result (λ inputs. AreOpen (F.seen files.old).held (names_of names.now) inputs.items) }
    ensures all { IfOk result (λ inputs. length inputs.items ≡ length names.now) }
    ensures ends { IfErr result (EndsOpening (names_of names.now) (F.seen files.old) (F.seen files.new)) }
    ensures asked { IfKnown (F.seen files.old).held (λ known.
        AsksAtMost (asked_of_all asked_to_compare known (names_of names.now)) (F.seen files.old) (F.seen files.new)) }
    ensures reads { OnlyReads (F.seen files.old) (F.seen files.new) }
    ensures calm { OnOk result (IsCalm (F.seen files.old) (F.seen files.new)) }
    ensures calm_kept { IfErr result (λ fault. IsNoFault fault
        → IsCalm (F.seen files.old) (F.seen files.new)) }
{
    let mut inputs = Vec::new(alloc);
    'inputs: for name in names {
        open_next(alloc, files, &mut inputs, name)?;
    }
    Ok(inputs)
}

/// Opens an input again for its turn. If its file is another one now, with a head that differs or another number of
/// records, this is the answer.
pub(crate) fn open_again<F: Files>(
    alloc: Global,
    files: &mut F,
    number: u32,
    input: &Input,
) -> Result<Reader, MergeFault>
    requires opened { IsOpen (F.seen files.old).held input.now }
    ensures again { IfOk result (IsAgain (F.seen files.old).held input.now) }
    ensures ends { IfErr result (IsFaultOf (F.seen files.old) (F.seen files.new) number) }
    ensures asked { WhereKnown (F.seen files.old).held input.now.name
        (λ file. AsksAtMost (asked_to_open file) (F.seen files.old) (F.seen files.new)) }
    ensures reads { OnlyReads (F.seen files.old) (F.seen files.new) }
    ensures calm { OnOk result (IsCalm (F.seen files.old) (F.seen files.new)) }
    ensures calm_kept { IfErr result (λ fault. IsNoFault fault
        → IsCalm (F.seen files.old) (F.seen files.new)) }
{
    let reader = match Reader::open(alloc, files, &input.name) {
        Ok(reader) => reader,
        Err(fault) => return Err(fault_of(number, fault)),
    };
    if let Some(field) = first_difference(&input.head, reader.head()) {
        return Err(MergeFault::Unequal(number, field));
    }
    if reader.head().points() != input.head.points() {
        return Err(MergeFault::At(number, Fault::Refused(Refusal::PointCounts)));
    }
    Ok(reader)
}

/// How many records the inputs have in all, by their heads.
pub(crate) fn count_points(inputs: &[Input]) -> Result<u32, MergeFault>
    requires few { length inputs.now ≤ 32 }
    ensures points { IfOk result (λ points. points ≡ points_read inputs.now) }
    ensures small { OnOk result (points_read inputs.now < 2 ^ 32) }
    ensures many { IfErr result (λ fault. (fault ≡ TooManyPoints) × (2 ^ 32 ≤ points_read inputs.now)) }
{
    let mut points = 0;
    for input in inputs {
        points += u64::from(input.head.points());
    }
    match u32::try_from(points) {
        Ok(points) => Ok(points),
        Err(_) => Err(MergeFault::TooManyPoints),
    }
}
