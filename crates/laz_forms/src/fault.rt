//! Why a call on a file ends before its work is done.
ghost use Rattle.std.specs.Prelude.{◌≡◌};
ghost use Rattle.laz_forms.specs.FileFaults.{end_of};

use las_header::Refusal;
use std::alloc::AllocError;
use thiserror::Error;

/// Why a call on a file ends before its work is done.
#[derive(Clone, Copy, Debug, PartialEq, Eq, Error)]
pub enum Fault {
    /// The file is refused for this cause.
    #[error("the file is refused: {}", .0.name())]
    Refused(Refusal),
    /// A file could not be read, or it is known that there is no file of this name.
    #[error("a file could not be read")]
    Read,
    /// A file could not be written.
    #[error("a file could not be written")]
    Write,
    /// Out of memory.
    #[error("out of memory")]
    Memory,
}

impl Fault {
    /// What a fault of a reader ends: a refusal the records, and any other fault the call.
    pub fn into_end(self) -> Result<Option<Refusal>, Fault>
        ensures { result ≡ end_of self }
    {
        match self {
            Fault::Refused(cause) => Ok(Some(cause)),
            Fault::Read => Err(Fault::Read),
            Fault::Write => Err(Fault::Write),
            Fault::Memory => Err(Fault::Memory),
        }
    }
}

impl From<AllocError> for Fault {
    ghost use Rattle.std.specs.Prelude.{◌≡◌};
    ghost use Rattle.laz_forms.specs.declared.fault.Fault.TheVariants.{Memory};

    ghost from_gives = { λ _ e. e ≡ Memory };

    fn from(_: AllocError) -> Self {
        Fault::Memory
    }
}

impl From<Refusal> for Fault {
    ghost use Rattle.std.specs.Prelude.{◌≡◌};
    ghost use Rattle.laz_forms.specs.declared.fault.Fault.TheVariants.{Refused};

    ghost from_gives = { λ cause e. e ≡ Refused cause };

    fn from(cause: Refusal) -> Self {
        Fault::Refused(cause)
    }
}
