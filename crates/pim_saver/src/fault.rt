//! Why no state was read.
ghost use Rattle.pim_saver.specs.declared.fault.ReadFault.TheVariants.{Memory};
ghost use Rattle.std.specs.Prelude.{◌≡◌};

use pim_saved::SavedRefusal;
use std::alloc::{AllocError, AllocFailed};

/// Why no state was read.
#[derive(Debug, Drop)]
pub enum ReadFault {
    /// Memory was refused.
    Memory,
    /// The bytes are no saved state of this version.
    Refused(SavedRefusal),
}

impl From<AllocError> for ReadFault {
    ghost from_gives = { λ _ e. e ≡ Memory };

    fn from(_e: AllocError) -> ReadFault {
        ReadFault::Memory
    }
}

impl<T: Drop> From<AllocFailed<T>> for ReadFault {
    ghost from_gives = { λ _ e. e ≡ Memory };

    fn from(_e: AllocFailed<T>) -> ReadFault {
        ReadFault::Memory
    }
}

impl From<SavedRefusal> for ReadFault {
    ghost use Rattle.pim_saver.specs.declared.fault.ReadFault.TheVariants.{Refused};

    ghost from_gives = { λ r e. e ≡ Refused r };

    fn from(refusal: SavedRefusal) -> ReadFault {
        ReadFault::Refused(refusal)
    }
}
