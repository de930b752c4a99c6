//! The models of a point.
ghost use Rattle.std.specs.Prelude.{◌≡◌, List, [], ◌∷◌, ◌≤◌, ℕ, IfOk};
ghost use Rattle.laz_models.specs.Bank.{alphabet_sizes};
ghost use Rattle.laz_integer.specs.Fields.{BankStands};
ghost use Rattle.laz_integer.specs.Integer.{IntStands, IsInts};
ghost use Rattle.laz_point10.specs.Groups.{AreHeadModels, ArePlaceModels, AreScanModels};
ghost use Rattle.laz_integer.specs.Bytes.{AreByteModels};
ghost use Rattle.laz_point10.specs.Groups.{AreSurfaceModels};
ghost use Rattle.laz_point10.specs.Coded.{AreModels, HeadStands, ModelsStand, PlaceStands, ScanStands, SurfaceStands};

use laz_integer::IntModel;
use laz_models::ModelBank;
use std::alloc::{AllocError, Global};

// The models of the symbol of changes, and of the flag byte.
#[derive(Drop)]
pub struct HeadModels {
    pub changes: ModelBank,
    pub flags: ModelBank,
}

// The models of what the pulse hit: intensity and classification.
#[derive(Drop)]
pub struct SurfaceModels {
    pub intensity: IntModel,
    pub classifications: ModelBank,
}

// The models of the scan: angle, user data and point source.
#[derive(Drop)]
pub struct ScanModels {
    pub angles: ModelBank,
    pub users: ModelBank,
    pub source: IntModel,
}

// The models of the place.
#[derive(Drop)]
pub struct PlaceModels {
    pub dx: IntModel,
    pub dy: IntModel,
    pub z: IntModel,
}

// All models.
#[derive(Drop)]
pub struct Models {
    pub head: HeadModels,
    pub surface: SurfaceModels,
    pub scan: ScanModels,
    pub place: PlaceModels,
}

// A bank of initial models of a byte.
fn byte_models(alloc: Global, count: usize) -> Result<ModelBank, AllocError>
    requires some { 1 ≤ count }
    requires few { count ≤ 256 }
    ensures bytes { IfOk result (λ bank. AreByteModels count bank) }
    ensures stands { IfOk result (λ bank. (kind : List ℕ) → BankStands kind [] bank) }
{
    let sizes = vec![in alloc; 256; count]?;
    let bank = ModelBank::new(alloc, &sizes)?;
    Ok(bank)
}

// A bank of the initial model of changes.
fn changes_models(alloc: Global) -> Result<ModelBank, AllocError>
    ensures sizes { IfOk result (λ bank. alphabet_sizes bank ≡ 64 ∷ []) }
    ensures stands { IfOk result (λ bank. (kind : List ℕ) → BankStands kind [] bank) }
{
    let bank = ModelBank::new(alloc, &[64])?;
    Ok(bank)
}

// Initial models of integers.
fn int_models(alloc: Global, bits: u32, contexts: u32) -> Result<IntModel, AllocError>
    requires some { 1 ≤ bits }
    requires few { bits ≤ 32 }
    requires context { 1 ≤ contexts }
    requires contexts { contexts ≤ 32 }
    ensures ints { IfOk result (λ m. IsInts bits contexts m) }
    ensures stands { IfOk result (λ m. (kind : List ℕ) → IntStands kind [] m) }
{
    IntModel::new(alloc, bits, contexts)
}

fn new_head(alloc: Global) -> Result<HeadModels, AllocError>
    ensures models { IfOk result (λ ms. AreHeadModels ms) }
    ensures stands { IfOk result (λ ms. HeadStands [] ms) }
{
    Ok(HeadModels {
        changes: changes_models(alloc)?,
        flags: byte_models(alloc, 256)?,
    })
}

fn new_surface(alloc: Global) -> Result<SurfaceModels, AllocError>
    ensures models { IfOk result (λ ms. AreSurfaceModels ms) }
    ensures stands { IfOk result (λ ms. SurfaceStands [] ms) }
{
    Ok(SurfaceModels {
        intensity: int_models(alloc, 16, 4)?,
        classifications: byte_models(alloc, 256)?,
    })
}

fn new_scan(alloc: Global) -> Result<ScanModels, AllocError>
    ensures models { IfOk result (λ ms. AreScanModels ms) }
    ensures stands { IfOk result (λ ms. ScanStands [] ms) }
{
    Ok(ScanModels {
        angles: byte_models(alloc, 2)?,
        users: byte_models(alloc, 256)?,
        source: int_models(alloc, 16, 1)?,
    })
}

fn new_place(alloc: Global) -> Result<PlaceModels, AllocError>
    ensures models { IfOk result (λ ms. ArePlaceModels ms) }
    ensures stands { IfOk result (λ ms. PlaceStands [] ms) }
{
    Ok(PlaceModels {
        dx: int_models(alloc, 32, 2)?,
        dy: int_models(alloc, 32, 22)?,
        z: int_models(alloc, 32, 20)?,
    })
}

// All initial models.
pub fn new_models(alloc: Global) -> Result<Models, AllocError>
    ensures models { IfOk result (λ ms. AreModels ms) }
    ensures stands { IfOk result (λ ms. ModelsStand [] ms) }
{
    Ok(Models {
        head: new_head(alloc)?,
        surface: new_surface(alloc)?,
        scan: new_scan(alloc)?,
        place: new_place(alloc)?,
    })
}

// Makes all models initial again.
pub fn reset(models: &mut Models)
    requires { AreModels models.old }
    ensures models { AreModels models.new }
    ensures stands { ModelsStand [] models.new }
{
    models.head.changes.reset();
    models.head.flags.reset();
    models.surface.intensity.reset();
    models.surface.classifications.reset();
    models.scan.angles.reset();
    models.scan.users.reset();
    models.scan.source.reset();
    models.place.dx.reset();
    models.place.dy.reset();
    models.place.z.reset();
}
