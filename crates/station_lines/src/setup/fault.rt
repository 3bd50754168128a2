//! Why a setup was not read.

use std::alloc::{AllocError, AllocFailed};
use thiserror::Error;

/// Why a setup was not read.
#[derive(Clone, Copy, Debug, PartialEq, Eq, Error)]
pub enum SetupFault {
    /// The line of this number, from 1, is bad.
    #[error("setup line {0} is bad")]
    Bad(usize),
    /// Memory was refused.
    #[error("out of memory")]
    NoMemory,
}

impl From<AllocError> for SetupFault {
    ghost use Rattle.std.specs.Prelude.{◌≡◌};
    ghost use Rattle.station_lines.specs.declared.setup.fault.SetupFault.TheVariants.{NoMemory};

    ghost from_gives = { λ _ fault. fault ≡ NoMemory };

    fn from(_refused: AllocError) -> SetupFault {
        SetupFault::NoMemory
    }
}

impl<T: Drop> From<AllocFailed<T>> for SetupFault {
    ghost use Rattle.std.specs.Prelude.{◌≡◌};
    ghost use Rattle.station_lines.specs.declared.setup.fault.SetupFault.TheVariants.{NoMemory};

    ghost from_gives = { λ _ fault. fault ≡ NoMemory };

    fn from(_refused: AllocFailed<T>) -> SetupFault {
        SetupFault::NoMemory
    }
}
