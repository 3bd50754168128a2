//! Why a case can't be performed.

use std::alloc::{AllocError, AllocFailed};

/// Why a case can't be performed.
#[derive(Clone, Copy, Debug, PartialEq, Eq)]
pub enum Trouble {
    /// Memory was refused.
    NoMemory,
    /// The case is none: a step has another form, or names a file that is not there. The words say why.
    Bad(&'static str),
}

impl From<AllocError> for Trouble {
    ghost use Rattle.std.specs.Prelude.{◌≡◌};
    ghost use Rattle.case_files.specs.declared.trouble.Trouble.TheVariants.{NoMemory};

    ghost from_gives = { λ _ trouble. trouble ≡ NoMemory };

    fn from(_refused: AllocError) -> Trouble {
        Trouble::NoMemory
    }
}

impl<T: Drop> From<AllocFailed<T>> for Trouble {
    ghost use Rattle.std.specs.Prelude.{◌≡◌};
    ghost use Rattle.case_files.specs.declared.trouble.Trouble.TheVariants.{NoMemory};

    ghost from_gives = { λ _ trouble. trouble ≡ NoMemory };

    fn from(_refused: AllocFailed<T>) -> Trouble {
        Trouble::NoMemory
    }
}
