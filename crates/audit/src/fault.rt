//! Why not all entries of a journal hold.

use byte_io::Bytes;
use std::alloc::AllocError;

/// An entry whose answer is another than the one that its command has at its place.
#[derive(Debug, PartialEq, Eq, Drop)]
pub struct Difference {
    /// The entry's number, from 1.
    pub number: u64,
    /// The entry's station.
    pub station: u32,
    /// The line of the entry's command.
    pub command: Bytes,
    /// The line of the answer in the journal.
    pub told: Bytes,
    /// The line of the answer that the command has there.
    pub performed: Bytes,
}

/// Why not all entries of a journal hold: the first fault.
#[derive(Debug, PartialEq, Eq, Drop)]
pub enum AuditFault {
    /// What stands in the place of the entry of this number, from 1, is not the line of an entry of one of the stations,
    /// whose command is one that a line of a script means: such a line has no LF.
    NoEntry(u64),
    /// An entry has another answer.
    Differs(Difference),
    /// There are more than 4,294,967,295 entries.
    TooLong,
    /// Memory was refused.
    NoMemory,
}

impl From<AllocError> for AuditFault {
    ghost use Rattle.std.specs.Prelude.{◌≡◌};
    ghost use Rattle.audit.specs.declared.fault.AuditFault.TheVariants.{NoMemory};

    ghost from_gives = { λ _ fault. fault ≡ NoMemory };

    fn from(_refused: AllocError) -> AuditFault {
        AuditFault::NoMemory
    }
}
