//! Why a call can't be carried out, with its numbers and words.
ghost use Rattle.std.specs.Prelude.{◌≡◌};
ghost use Rattle.pim_ip.specs.declared.fault.Fault.TheVariants.{Memory};

use std::alloc::{AllocError, AllocFailed};
use thiserror::Error;

/// Why a call could not be carried out.
#[derive(Clone, Copy, Debug, Error)]
pub enum Fault {
    /// Memory was refused.
    #[error("no memory")]
    Memory = 40,
    /// The router failed in an earlier call.
    #[error("the router has failed")]
    Failed = 41,
    /// The wire failed.
    #[error("wire fault")]
    Wire = 42,
}

impl Fault {
    ghost use Rattle.pim_ip.specs.Fault.{fault_number};

    /// The number by which the fault is known.
    pub fn number(self) -> u8
        ensures { result ≡ fault_number self }
    {
        self as u8
    }
}

impl From<AllocError> for Fault {
    ghost from_gives = { λ _ e. e ≡ Memory };

    fn from(_refused: AllocError) -> Fault {
        Fault::Memory
    }
}

impl<T: Drop> From<AllocFailed<T>> for Fault {
    ghost from_gives = { λ _ e. e ≡ Memory };

    fn from(_refused: AllocFailed<T>) -> Fault {
        Fault::Memory
    }
}
