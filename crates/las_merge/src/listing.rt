//! Packed inputs whose chunks are copied: opened one after another, with what their tables say of their chunks.
ghost use Rattle.std.specs.Prelude.{◌≡◌, ◌+◌, ◌-◌, ◌*◌, ◌^◌, ◌<◌, ◌≤◌, ◌++◌, ◌∷◌, ℕ, [], length, sum, map};
ghost use Rattle.std.specs.Prelude.{vec_len};
ghost use Rattle.std.specs.Prelude.{true, false, IfErr, IfOk, OnOk};
ghost use Rattle.std.specs.FinMap as finmap;
ghost use Rattle.las_outside.specs.Frames.{IsCalm, OnlyReads};
ghost use Rattle.laz_table.specs.declared.limits.TheConstants.{MAX_CHUNKS};
ghost use Rattle.laz_reader.specs.Asking.{AsksAtMost};
ghost use Rattle.las_merge.specs.Asking.{asked_of_all, asked_to_compare};
ghost use Rattle.las_merge.specs.Inputs.{IfKnown, names_of};
ghost use Rattle.las_merge.specs.Listing.{AddsChunks, EndsListing, FailsNextPacked, Lists, input_opened};
ghost use Rattle.las_merge.specs.Listing.{listed_as, chunks_source};
ghost use Rattle.las_merge.specs.Opening.{AreOpen, InputSeen, IsNextInput};
ghost use Rattle.las_merge.specs.Packed.{IsNoFault};

use crate::MergeFault;
use crate::input::Input;
use crate::opening::{difference, fault_of};
use crate::source::Source;
use las_header::{Head, Refusal};
use las_outside::Files;
use laz_file::{Fault, Reader};
use laz_table::MAX_CHUNKS;
use std::alloc::{AllocError, Global};

/// The numbers of points and of bytes of the chunks of all inputs, unless there are more than 2^24 chunks.
#[derive(Drop)]
pub(crate) struct ChunkLists {
    pub(crate) points: Vec<u32>,
    pub(crate) bytes: Vec<u32>,
    // Whether there are more. The lists are then those of some of the inputs.
    pub(crate) many: bool,
}

/// Packed inputs that were opened and closed again: of all of them the heads, where their chunks stand, and the numbers
/// of points and of bytes of these.
pub(crate) struct Listed {
    pub(crate) inputs: Vec<Input>,
    pub(crate) sources: Vec<Source>,
    pub(crate) lists: ChunkLists,
}

// By hand, so that each caller drops the lists by one call.
impl Drop for Listed {
    fn drop(self) {
        let Listed {
            inputs,
            sources,
            lists,
        } = self;
        drop(inputs);
        drop(sources);
        drop(lists);
    }
}

/// The sum of some numbers of bytes.
pub(crate) fn total(sizes: &[u32]) -> u64
    requires few { length sizes.now < 2 ^ 32 }
    ensures sum { result ≡ sum sizes.now }
    ensures small { result ≤ (2 ^ 32 - 1) * length sizes.now }
{
    let mut bytes = 0;
    for size in sizes {
        bytes += u64::from(*size);
    }
    bytes
}

impl ChunkLists {
    /// Adds the chunks of an input, as long as there are not too many.
    pub(crate) fn add(
        &mut self,
        chunks: u32,
        points: &[u32],
        bytes: &[u32],
    ) -> Result<(), AllocError>
        requires chunks { chunks ≡ length points.now }
        requires few { vec_len self.old.points ≤ MAX_CHUNKS }
        ensures added { OnOk result (AddsChunks self.old.many self.new.many self.old.points.items
            self.new.points.items self.old.bytes.items self.new.bytes.items points.now bytes.now) }
        ensures few { OnOk result (vec_len self.new.points ≤ MAX_CHUNKS) }
    {
        if self.many || chunks > MAX_CHUNKS - self.points.len() as u32 {
            self.many = true;
            return Ok(());
        }
        self.points.extend_from_slice(points)?;
        self.bytes.extend_from_slice(bytes)
    }
}

// Where the chunks of an input stand, one after another: after its head, and the eight bytes of its pointer.
fn source_of(alloc: Global, name: &str, head: &Head, bytes: &[u32]) -> Result<Source, AllocError>
    requires few { length bytes.now < 2 ^ 32 }
    ensures { IfOk result (λ source. source
        ≡ record { name = name.now; place = length head.now.bytes + 8; size = sum bytes.now }) }
{
    let name = String::from_str(alloc, name)?;
    Ok(Source {
        name,
        place: u64::from(head.offset()) + 8,
        size: total(bytes),
    })
}

impl Listed {
    // Adds an input that was opened.
    fn add(&mut self, alloc: Global, name: &str, reader: Reader) -> Result<(), AllocError>
        requires few { vec_len self.old.lists.points ≤ MAX_CHUNKS }
        ensures inputs { OnOk result (self.new.inputs.items ≡ self.old.inputs.items ++ input_opened name.now reader ∷ []) }
        ensures sources { OnOk result (self.new.sources.items
            ≡ self.old.sources.items ++ chunks_source (listed_as name.now reader) ∷ []) }
        ensures added { OnOk result (AddsChunks self.old.lists.many self.new.lists.many
            self.old.lists.points.items self.new.lists.points.items
            self.old.lists.bytes.items self.new.lists.bytes.items
            (map (λ piece. piece.count) reader.pieces) (map (λ piece. piece.size) reader.pieces)) }
        ensures few { OnOk result (vec_len self.new.lists.points ≤ MAX_CHUNKS) }
    {
        let chunks = reader.chunks();
        let (head, points, bytes) = reader.into_chunks();
        let source = source_of(alloc, name, &head, &bytes)?;
        self.lists.add(chunks, &points, &bytes)?;
        let name = String::from_str(alloc, name)?;
        match self.inputs.push(Input { name, head }) {
            Ok(()) => {}
            Err(_) => return Err(AllocError),
        }
        match self.sources.push(source) {
            Ok(()) => Ok(()),
            Err(_) => Err(AllocError),
        }
    }
}

// Opens the input after these, which is to be packed, and compares it with the first.
fn list_next<F: Files>(
    alloc: Global,
    files: &mut F,
    listed: &mut Listed,
    name: &str,
) -> Result<(), MergeFault>
    requires few { vec_len listed.old.inputs < 32 }
    requires lists { (asked : ℕ) × Lists (F.seen files.old).held listed.old asked }
    ensures next { OnOk result ((input : InputSeen)
        × IsNextInput (F.seen files.old).held name.now listed.old.inputs.items input
        × (listed.new.inputs.items ≡ listed.old.inputs.items ++ input ∷ [])) }
    ensures lists { (asked : ℕ) → Lists (F.seen files.old).held listed.old asked
        → OnOk result (Lists (F.seen files.old).held listed.new
        (asked + ((F.seen files.new).asked - (F.seen files.old).asked))) }
    ensures ends { IfErr result
        (FailsNextPacked name.now listed.old.inputs.items (F.seen files.old) (F.seen files.new)) }
    ensures asked { IfKnown (F.seen files.old).held (λ known.
        AsksAtMost (asked_to_compare (finmap.get known name.now)) (F.seen files.old) (F.seen files.new)) }
    ensures reads { OnlyReads (F.seen files.old) (F.seen files.new) }
    ensures calm { OnOk result (IsCalm (F.seen files.old) (F.seen files.new)) }
    ensures calm_kept { IfErr result (λ fault. IsNoFault fault
        → IsCalm (F.seen files.old) (F.seen files.new)) }
{
    let number = listed.inputs.len() as u32;
    let reader = match Reader::open(alloc, files, name) {
        Ok(reader) => reader,
        Err(fault) => return Err(fault_of(number, fault)),
    };
    if !reader.head().packed() {
        return Err(MergeFault::At(number, Fault::Refused(Refusal::NotPacked)));
    }
    if let Some(field) = difference(&listed.inputs, reader.head()) {
        return Err(MergeFault::Unequal(number, field));
    }
    match listed.add(alloc, name, reader) {
        Ok(()) => Ok(()),
        Err(_) => Err(MergeFault::At(number, Fault::Memory)),
    }
}

/// Opens the inputs in order. Each is to be packed, and each after the first is compared with the first at once. Each
/// is closed again: the chunk lists of one input alone are in memory, beside those of all inputs together.
pub(crate) fn list_inputs<F: Files>(
    alloc: Global,
    files: &mut F,
    names: &[String],
) -> Result<Listed, MergeFault>
    requires few { length names.now ≤ 32 }
    ensures opened { IfOk result (λ listed. AreOpen (F.seen files.old).held (names_of names.now) listed.inputs.items) }
    ensures lists { IfOk result (λ listed. Lists (F.seen files.old).held listed
        ((F.seen files.new).asked - (F.seen files.old).asked)) }
    ensures all { IfOk result (λ listed. length listed.inputs.items ≡ length names.now) }
    ensures ends { IfErr result (EndsListing (names_of names.now) (F.seen files.old) (F.seen files.new)) }
    ensures asked { IfKnown (F.seen files.old).held (λ known.
        AsksAtMost (asked_of_all asked_to_compare known (names_of names.now)) (F.seen files.old) (F.seen files.new)) }
    ensures reads { OnlyReads (F.seen files.old) (F.seen files.new) }
    ensures calm { OnOk result (IsCalm (F.seen files.old) (F.seen files.new)) }
    ensures calm_kept { IfErr result (λ fault. IsNoFault fault
        → IsCalm (F.seen files.old) (F.seen files.new)) }
{
    let mut listed = Listed {
        inputs: Vec::new(alloc),
        sources: Vec::new(alloc),
        lists: ChunkLists {
            points: Vec::new(alloc),
            bytes: Vec::new(alloc),
            many: false,
        },
    };
    'inputs: for name in names {
        list_next(alloc, files, &mut listed, name)?;
    }
    Ok(listed)
}
