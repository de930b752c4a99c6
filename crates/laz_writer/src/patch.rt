//! Bytes of an output that are replaced.
ghost use Rattle.std.specs.Prelude.{◌≡◌, ◌+◌, ◌≤◌, ◌++◌, ◌∷◌, [], ℕ, List, length, OnOk};
ghost use Rattle.las_outside.specs.Frames.{OnlyWrites};
ghost use Rattle.las_outside.specs.Outside.{Outside, with_bytes};
ghost use Rattle.laz_writer.specs.Writing.{FitIn, OfText, Patches, PatchesAll};

use las_outside::Files;
use laz_forms::Fault;
use std::alloc::{AllocError, Global};
use std::marker::Model;

/// A position, and the bytes that replace what stands from there on.
#[derive(Drop)]
pub(crate) struct Patch {
    at: u64,
    bytes: Vec<u8>,
}

impl Model for Patch {
    ghost use Rattle.las_outside.specs.Drafts.{Patch};

    ghost Value = { Patch };

    ghost view = { λ p. (p.at, p.bytes.items) };
}

/// Adds a patch to a list.
pub(crate) fn add_patch(
    alloc: Global,
    list: &mut Vec<Patch>,
    at: u64,
    bytes: &[u8],
) -> Result<(), AllocError>
    ensures { OnOk result (list.new.items ≡ list.old.items ++ (at, bytes.now) ∷ []) }
{
    let mut copy = Vec::with_capacity(alloc, bytes.len())?;
    copy.extend_from_slice(bytes)?;
    match list.push(Patch { at, bytes: copy }) {
        Ok(()) => Ok(()),
        Err(_) => Err(AllocError),
    }
}

// Replaces bytes of an output, in one call.
fn put_patch<F: Files>(files: &mut F, name: &str, patch: &Patch) -> Result<(), Fault>
    requires held { (before : Outside) × (text : List ℕ) × (F.seen files.old ≡ with_bytes before name.now text)
        × (patch.now.0 + length patch.now.1 ≤ length text) }
    ensures patched { OfText (F.seen files.old) name.now (λ before text.
        Patches result before (F.seen files.new) name.now text patch.now) }
    ensures writes { OnlyWrites (F.seen files.old) (F.seen files.new) }
{
    match files.patch(name, patch.at, patch.bytes.as_slice()) {
        Ok(()) => Ok(()),
        Err(_) => Err(Fault::Write),
    }
}

/// Patches an output that holds some text, in order, in one call each.
pub(crate) fn patch_all<F: Files>(files: &mut F, name: &str, patches: &[Patch]) -> Result<(), Fault>
    requires held { (before : Outside) × (text : List ℕ) × (F.seen files.old ≡ with_bytes before name.now text)
        × FitIn text patches.now }
    ensures patched { OfText (F.seen files.old) name.now (λ before text.
        PatchesAll result before (F.seen files.new) name.now text patches.now) }
    ensures writes { OnlyWrites (F.seen files.old) (F.seen files.new) }
{
    for patch in patches {
        put_patch(files, name, patch)?;
    }
    Ok(())
}
