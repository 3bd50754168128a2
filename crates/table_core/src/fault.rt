//! Why an edit is not planned.

use crate::refusal::Refusal;
use dbf_fields::CellFault;
use std::alloc::AllocError;
use thiserror::Error;

/// Why an edit is not planned, or a field not shown. A refusal is an answer, and want of memory is none.
#[derive(Clone, Copy, Debug, PartialEq, Eq, Error)]
pub enum TableFault {
    /// It is refused.
    #[error("the command is refused")]
    Refused(Refusal),
    /// Memory was refused.
    #[error("out of memory")]
    NoMemory,
}

impl From<Refusal> for TableFault {
    ghost use Rattle.std.specs.Prelude.{◌≡◌};
    ghost use Rattle.table_core.specs.declared.fault.TableFault.TheVariants.{Refused};

    ghost from_gives = { λ refusal fault. fault ≡ Refused refusal };

    fn from(refusal: Refusal) -> TableFault {
        TableFault::Refused(refusal)
    }
}

impl From<AllocError> for TableFault {
    ghost use Rattle.std.specs.Prelude.{◌≡◌};
    ghost use Rattle.table_core.specs.declared.fault.TableFault.TheVariants.{NoMemory};

    ghost from_gives = { λ _ fault. fault ≡ NoMemory };

    fn from(_refused: AllocError) -> TableFault {
        TableFault::NoMemory
    }
}

impl From<CellFault> for TableFault {
    ghost use Rattle.std.specs.Prelude.{◌≡◌};
    ghost use Rattle.table_core.specs.CellFaults.{fault_of};

    ghost from_gives = { λ cell fault. fault ≡ fault_of cell };

    fn from(fault: CellFault) -> TableFault {
        match fault {
            CellFault::TypeMismatch => TableFault::Refused(Refusal::TypeMismatch),
            CellFault::BadDate => TableFault::Refused(Refusal::BadDate),
            CellFault::NumberTooWide => TableFault::Refused(Refusal::NumberTooWide),
            CellFault::NoMemory => TableFault::NoMemory,
        }
    }
}
