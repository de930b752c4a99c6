//! The taps of the program: one for each tally that can be asked for by name.

ghost use Rattle.std.specs.Prelude.{◌≡◌};
ghost use Rattle.std.specs.FinMap as map;

use las_info::{ClassTap, IntensityTap, ReturnTap, SourceTap};
use std::alloc::{AllocError, Global};

/// A tap of each kind, which has counted nothing.
#[derive(Drop)]
pub struct OwnTaps {
    pub class: Box<ClassTap>,
    pub source: Box<SourceTap>,
    pub returned: Box<ReturnTap>,
    pub intensity: Box<IntensityTap>,
    ghost class_is: { class.value ≡ map.empty },
    ghost source_is: { source.value ≡ map.empty },
    ghost returned_is: { returned.value ≡ map.empty },
    ghost intensity_is: { intensity.value ≡ map.empty },
}

/// The taps of a run.
pub fn taps(alloc: Global) -> Result<OwnTaps, AllocError> {
    let class = Box::new(alloc, ClassTap::new(alloc))?;
    let source = Box::new(alloc, SourceTap::new(alloc))?;
    let returned = Box::new(alloc, ReturnTap::new(alloc))?;
    let intensity = Box::new(alloc, IntensityTap::new(alloc))?;
    Ok(OwnTaps {
        class,
        source,
        returned,
        intensity,
    })
}
