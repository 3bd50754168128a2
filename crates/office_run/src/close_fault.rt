//! Why the files of a run were not written.

use byte_io::Bytes;
use std::alloc::AllocError;

/// Why the files of a run were not written, or not all.
#[derive(Debug, PartialEq, Eq, Drop)]
pub enum CloseFault {
    /// The year is none of 1900 to 2155.
    DateOutside,
    /// The memos of the table of this number, from 1, take more blocks than 32 bits count.
    TooManyBlocks(usize),
    /// Memory was refused.
    NoMemory,
    /// The file of this name was not written, or not whole.
    Write(Bytes),
}

impl From<AllocError> for CloseFault {
    ghost use Rattle.std.specs.Prelude.{◌≡◌};
    ghost use Rattle.office_run.specs.declared.close_fault.CloseFault.TheVariants.{NoMemory};

    ghost from_gives = { λ _ fault. fault ≡ NoMemory };

    fn from(_refused: AllocError) -> CloseFault {
        CloseFault::NoMemory
    }
}
